//! Once: nothing is taken twice.

ghost use Rattle.std.specs.Prelude.{◌<◌, ◌↔◌, IsTrue, length, IfSome};
ghost use Rattle.scq_hist.specs.Exports.{IsLawful, IsOnceAt, IsOnce, IsFirstFailing};

use crate::events::Event;
use crate::gets::{first_named, got_name};

/// Whether no Got before this one names the same put, if one stands at this position.
fn is_once_at(events: &[Event], e: usize) -> bool
    requires { e < length events.now }
    ensures { IsTrue result ↔ IsOnceAt events.now e }
{
    match got_name(&events[e]) {
        Some(name) => first_named(events, name) == Some(e),
        None => true,
    }
}

/// The position of the first Got that names the put of an earlier one.
pub fn first_repeated(events: &[Event]) -> Option<usize>
    requires { IsLawful events.now }
    ensures first { IsFirstFailing (IsOnceAt events.now) result }
    ensures within { IfSome result (λ e. e < length events.now) }
{
    for e in 0..events.len() {
        if !is_once_at(events, e) {
            return Some(e);
        }
    }
    None
}

/// Once: whether no two Gots name the same put, so that nothing is taken twice.
pub fn once(events: &[Event]) -> bool
    requires { IsLawful events.now }
    ensures { IsTrue result ↔ IsOnce events.now }
{
    first_repeated(events).is_none()
}
