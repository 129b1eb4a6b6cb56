//! In order: nothing is taken before what was put wholly before it.

ghost use Rattle.std.specs.Prelude.{◌≡◌, ◌+◌, ◌<◌, ◌≤◌, ◌^◌, ◌↔◌, ℕ, List, IsTrue, MatchOption};
ghost use Rattle.std.specs.Prelude.{length, IfSome};
ghost use Rattle.scq_hist.specs.Exports.{IsFinishedAt, IsLawful, IsInOrderAt, IsInOrder};
ghost use Rattle.scq_hist.specs.Exports.{IsFirstFailing, IsTally, IsPutGotAt, NoPutGotAt};

use crate::calls::put_named;
use crate::events::{Event, PutName};
use crate::gets::{get_ending_at, pending_gets};
use crate::tallies::{Tally, are_claimed, finished_tally, opening_tally};
use scq_word::Bytes;

/// The seat's put that the get which ends at this position has got: the position of its Start, and
/// its queue.
fn put_got_at(events: &[Event], e: usize) -> Option<(usize, u32)>
    requires lawful { IsLawful events.now }
    requires within { e < length events.now }
    ensures { MatchOption result
        (NoPutGotAt events.now e)
        (λ put. IsPutGotAt events.now e put.1 put.0) }
{
    match get_ending_at(events, e) {
        Some((PutName::Of { seat, number }, _)) => match put_named(events, seat, number) {
            Some((start, queue, _)) => Some((start, queue)),
            None => None,
        },
        Some((PutName::Opening { .. }, _)) => None,
        None => None,
    }
}

/// Whether all that precede the put which the get that ends at this position has got are claimed by
/// then.
fn is_in_order_at(tokens: Tally, events: &[Event], e: usize) -> bool
    requires lawful { IsLawful events.now }
    requires within { e < length events.now }
    requires room { tokens.ungot + length events.now < 2 ^ 64 }
    ensures { (opening : List (List ℕ))
        → IsTally events.now (IsFinishedAt opening events.now 0 0) tokens.ungot tokens.claimed_from
        → (IsTrue result ↔ IsInOrderAt opening events.now e) }
{
    match put_got_at(events, e) {
        None => true,
        Some((start, queue)) => {
            let tally = finished_tally(tokens, events, queue, start);
            are_claimed(tally, pending_gets(events, queue, e), e)
        }
    }
}

/// The position of the first Got that is the get of a put before which others had to be claimed,
/// and weren't.
pub fn first_out_of_order(opening: &[Bytes], events: &[Event]) -> Option<usize>
    requires { IsLawful events.now }
    ensures first { IsFirstFailing (IsInOrderAt opening.now events.now) result }
    ensures within { IfSome result (λ e. e < length events.now) }
{
    let tokens = opening_tally(opening, events);
    for e in 0..events.len() {
        if !is_in_order_at(tokens, events, e) {
            return Some(e);
        }
    }
    None
}

/// In order: whether no put is got before one that precedes it, unless a get that is under way at
/// the end of the list may have that one. A put precedes those of its queue that start after its
/// End with Done; an opening token precedes every put of queue 0. `opening` has the tokens'
/// contents.
pub fn in_order(opening: &[Bytes], events: &[Event]) -> bool
    requires { IsLawful events.now }
    ensures { IsTrue result ↔ IsInOrder opening.now events.now }
{
    first_out_of_order(opening, events).is_none()
}
