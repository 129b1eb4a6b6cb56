//! Lawful: the events of each seat are those of calls, one after another.

ghost use Rattle.std.specs.Prelude.{◌↔◌, ◌<◌, IsTrue, length, slice_get};
ghost use Rattle.scq_hist.specs.Exports.{SuitsCall, IsLawfulAt, IsLawful};

use crate::calls::{call_under_way, under_way};
use crate::events::{Call, Event, Reply};

/// Whether a call of this kind may end with the reply.
fn suits(call: &Call, reply: &Reply) -> bool
    ensures { IsTrue result ↔ SuitsCall call.now reply.now }
{
    match call {
        Call::Put { .. } => matches!(reply, Reply::Done | Reply::Spent),
        Call::Get { .. } => matches!(reply, Reply::Got { .. } | Reply::Nothing | Reply::Spent),
    }
}

/// Whether a seat that starts a call here has none under way, and one that ends a call here has one
/// that the reply suits.
pub fn is_lawful_at(events: &[Event], i: usize) -> bool
    requires { i < length events.now }
    ensures { IsTrue result ↔ IsLawfulAt events.now i (slice_get events.now i) }
{
    match &events[i] {
        Event::Start { seat, .. } => under_way(events, *seat, i).is_none(),
        Event::End { seat, reply } => match call_under_way(events, *seat, i) {
            None => false,
            Some((_, call)) => suits(call, reply),
        },
    }
}

/// Lawful: whether each seat's events alternate, beginning with a Start, and each reply suits its
/// call. The other tests are of lawful lists.
pub fn lawful_calls(events: &[Event]) -> bool
    ensures { IsTrue result ↔ IsLawful events.now }
{
    for i in 0..events.len() {
        if !is_lawful_at(events, i) {
            return false;
        }
    }
    true
}
