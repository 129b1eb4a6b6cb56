//! Empty is right: at a moment inside its call each finished put was claimed.

ghost use Rattle.std.specs.Prelude.{◌≡◌, ◌+◌, ◌<◌, ◌≤◌, ◌^◌, ◌↔◌, ℕ, List, IsTrue};
ghost use Rattle.std.specs.Prelude.{length, IfSome};
ghost use Rattle.scq_hist.specs.Exports.{IsFinishedAt, IsLawful, IsRightWithin, IsEmptyRightAt};
ghost use Rattle.scq_hist.specs.Exports.{IsEmptyRight, IsFirstFailing, IsTally};

use crate::ended::empty_at;
use crate::events::Event;
use crate::gets::{pending_after, pending_gets};
use crate::tallies::{Tally, are_claimed, finished_tally, opening_tally, tally_after};
use scq_word::Bytes;

/// Whether at some moment between these two positions all finished puts of the queue are claimed.
fn is_right_within(tokens: Tally, events: &[Event], queue: u32, start: usize, end: usize) -> bool
    requires lawful { IsLawful events.now }
    requires order { start ≤ end }
    requires within { end ≤ length events.now }
    requires room { tokens.ungot + length events.now < 2 ^ 64 }
    ensures { (opening : List (List ℕ))
        → IsTally events.now (IsFinishedAt opening events.now 0 0) tokens.ungot tokens.claimed_from
        → (IsTrue result ↔ IsRightWithin opening events.now queue start end) }
{
    let mut tally = finished_tally(tokens, events, queue, start);
    let mut pending = pending_gets(events, queue, start);
    for i in start..end {
        tally = tally_after(tally, events, queue, i);
        pending = pending_after(pending, events, queue, i);
        if are_claimed(tally, pending, i + 1) {
            return true;
        }
    }
    false
}

/// Whether an Empty that ends at this position, if one does, is right.
fn is_empty_right_at(tokens: Tally, events: &[Event], e: usize) -> bool
    requires lawful { IsLawful events.now }
    requires within { e < length events.now }
    requires room { tokens.ungot + length events.now < 2 ^ 64 }
    ensures { (opening : List (List ℕ))
        → IsTally events.now (IsFinishedAt opening events.now 0 0) tokens.ungot tokens.claimed_from
        → (IsTrue result ↔ IsEmptyRightAt opening events.now e) }
{
    match empty_at(events, e) {
        None => true,
        Some((start, queue)) => is_right_within(tokens, events, queue, start, e),
    }
}

/// The position of the first Empty that isn't right.
pub fn first_wrong_empty(opening: &[Bytes], events: &[Event]) -> Option<usize>
    requires { IsLawful events.now }
    ensures first { IsFirstFailing (IsEmptyRightAt opening.now events.now) result }
    ensures within { IfSome result (λ e. e < length events.now) }
{
    let tokens = opening_tally(opening, events);
    for e in 0..events.len() {
        if !is_empty_right_at(tokens, events, e) {
            return Some(e);
        }
    }
    None
}

/// Empty is right: whether each Empty has a moment inside its call at which every finished put of
/// its queue is claimed, by a get that has started or, if no End has got it, by one that never
/// ends. `opening` has the contents of the tokens that stand in queue 0 before the list.
pub fn empty_right(opening: &[Bytes], events: &[Event]) -> bool
    requires { IsLawful events.now }
    ensures { IsTrue result ↔ IsEmptyRight opening.now events.now }
{
    first_wrong_empty(opening, events).is_none()
}
