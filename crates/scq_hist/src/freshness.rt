//! Fresh: nothing is taken that was never put.

ghost use Rattle.std.specs.Prelude.{◌≡◌, ◌<◌, ◌↔◌, ℕ, List, IsTrue, Some, length, slice_get};
ghost use Rattle.std.specs.Prelude.{IfSome, MatchOption};
ghost use Rattle.scq_hist.specs.Exports.{IsPut, IsLawful, IsBegun, IsFreshAt, IsFresh};
ghost use Rattle.scq_hist.specs.Exports.{IsFirstFailing, NoPutBefore};
ghost use Rattle.scq_hist.specs.declared.events.Event.{Event};

use crate::calls::{call_under_way, put_named};
use crate::events::{Call, Event, PutName, Reply};
use scq_word::Bytes;

fn same_bytes(a: &Bytes, b: &Bytes) -> bool
    ensures { IsTrue result ↔ (a.now ≡ b.now) }
{
    a.bytes() == b.bytes()
}

/// Whether this opening token is of this queue and content.
pub fn is_token(opening: &[Bytes], number: u32, queue: u32, content: &Bytes) -> bool
    ensures { IsTrue result ↔ ((queue ≡ 0) × (slice_get opening.now number ≡ Some content.now)) }
{
    match opening.get(number as usize) {
        Some(token) => queue == 0 && same_bytes(token, content),
        None => false,
    }
}

/// Whether this put, if there is one, is of this queue and content, and starts before position e.
pub fn is_earlier_put(
    put: Option<(usize, u32, &Bytes)>,
    queue: u32,
    content: &Bytes,
    e: usize,
) -> bool
    ensures { (events : List Event) (seat number : ℕ)
        → MatchOption put.entry
        (NoPutBefore events seat number (length events))
        (λ put. IsPut events seat number put.1 put.2.now put.0)
        → (IsTrue result ↔ ((s : ℕ) × (s < e) × IsPut events seat number queue content.now s)) }
{
    match put {
        Some((start, of, put)) if start < e && of == queue => same_bytes(put, content),
        _ => false,
    }
}

/// Whether the seat's put of this number is of this queue and content, and starts before position
/// e.
fn is_put(events: &[Event], seat: u32, number: u64, queue: u32, content: &Bytes, e: usize) -> bool
    ensures { IsTrue result
        ↔ ((s : ℕ) × (s < e) × IsPut events.now seat number queue content.now s) }
{
    is_earlier_put(put_named(events, seat, number), queue, content, e)
}

/// Whether the put of this name is of this queue and content, and is an opening token or starts
/// before position e.
fn is_begun(
    opening: &[Bytes],
    events: &[Event],
    name: PutName,
    queue: u32,
    content: &Bytes,
    e: usize,
) -> bool
    ensures { IsTrue result ↔ IsBegun opening.now events.now name queue content.now e }
{
    match name {
        PutName::Opening { number } => is_token(opening, number, queue, content),
        PutName::Of { seat, number } => is_put(events, seat, number, queue, content, e),
    }
}

/// Whether the Got that stands at this position, if one does, names such a put.
fn is_fresh_at(opening: &[Bytes], events: &[Event], e: usize) -> bool
    requires { e < length events.now }
    ensures { IsTrue result ↔ IsFreshAt opening.now events.now e }
{
    match &events[e] {
        Event::End {
            seat,
            reply: Reply::Got { name, content },
        } => {
            match call_under_way(events, *seat, e) {
                Some((_, Call::Get { queue })) => is_begun(
                    opening, events, *name, *queue, content, e,
                ),
                _ => true,
            }
        }
        _ => true,
    }
}

/// The position of the first Got that isn't fresh. `opening` has the contents of the tokens that
/// stand in queue 0 before the list.
pub fn first_unfresh(opening: &[Bytes], events: &[Event]) -> Option<usize>
    requires { IsLawful events.now }
    ensures first { IsFirstFailing (IsFreshAt opening.now events.now) result }
    ensures within { IfSome result (λ e. e < length events.now) }
{
    for e in 0..events.len() {
        if !is_fresh_at(opening, events, e) {
            return Some(e);
        }
    }
    None
}

/// Fresh: whether each Got names a put of the same queue and content that is an opening token or
/// started before, so that nothing is taken that was never put. `opening` has the contents of the
/// tokens that stand in queue 0 before the list.
pub fn fresh(opening: &[Bytes], events: &[Event]) -> bool
    requires { IsLawful events.now }
    ensures { IsTrue result ↔ IsFresh opening.now events.now }
{
    first_unfresh(opening, events).is_none()
}
