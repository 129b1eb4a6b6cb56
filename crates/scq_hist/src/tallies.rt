//! Tallies of finished puts: how many aren't got, and by which moment the gets of the others have
//! started.

ghost use Rattle.std.specs.Prelude.{◌≡◌, ◌+◌, ◌<◌, ◌≤◌, ◌^◌, ◌↔◌, ℕ, List, IsTrue, MatchOption};
ghost use Rattle.std.specs.Prelude.{length, IfSome};
ghost use Rattle.scq_hist.specs.Calls.{IsFinishedAt, IsGot, IsGetOf};
ghost use Rattle.scq_hist.specs.Aspects.{IsLawful};
ghost use Rattle.scq_hist.specs.declared.events.Event.{Event};
ghost use Rattle.scq_hist.specs.declared.events.PutName.{PutName};
ghost use Rattle.scq_hist.specs.Tallies.{IsTally, AddsPut, IsTokenGotAt, NoTokenGotAt};

use crate::calls::done_put;
use crate::events::{Event, PutName};
use crate::gets::{get_ending_at, get_of};
use scq_word::Bytes;

/// Of some finished puts: how many no End has got, and the first moment by which the gets of the
/// others have started.
#[derive(Clone, Copy)]
pub struct Tally {
    pub ungot: usize,
    pub claimed_from: usize,
}

/// The tally of one put more: `get` is where its get starts, if some End has got it.
pub fn with_put(tally: Tally, get: Option<usize>) -> Tally
    requires room { tally.ungot + 1 < 2 ^ 64 }
    requires start { IfSome get (λ s. s + 1 < 2 ^ 64) }
    ensures few { result.ungot ≤ tally.ungot + 1 }
    ensures adds { (events : List Event) (name : PutName)
        → MatchOption get (¬ (IsGot events name)) (λ s. (e : ℕ) × IsGetOf events name s e)
        → AddsPut events name tally.ungot tally.claimed_from result.ungot result.claimed_from }
{
    match get {
        None => Tally {
            ungot: tally.ungot + 1,
            ..tally
        },
        Some(start) => Tally {
            claimed_from: tally.claimed_from.max(start + 1),
            ..tally
        },
    }
}

/// From the puts of this queue that are finished just before the event at position e to those that
/// are finished just after it.
pub(crate) fn tally_after(tally: Tally, events: &[Event], queue: u32, e: usize) -> Tally
    requires lawful { IsLawful events.now }
    requires within { e < length events.now }
    requires room { tally.ungot + 1 < 2 ^ 64 }
    ensures few { result.ungot ≤ tally.ungot + 1 }
    ensures tally { (opening : List (List ℕ))
        → IsTally events.now
        (IsFinishedAt opening events.now queue e) tally.ungot tally.claimed_from
        → IsTally events.now
        (IsFinishedAt opening events.now queue (e + 1)) result.ungot result.claimed_from }
{
    match done_put(events, queue, e) {
        None => tally,
        Some(name) => with_put(tally, get_of(events, name)),
    }
}

/// The position of the Start of the get that ends at this position and has got an opening token.
fn token_got_at(opening: &[Bytes], events: &[Event], e: usize) -> Option<usize>
    requires lawful { IsLawful events.now }
    requires within { e < length events.now }
    ensures { MatchOption result
        (NoTokenGotAt opening.now events.now e)
        (IsTokenGotAt opening.now events.now e) }
{
    match get_ending_at(events, e) {
        Some((PutName::Opening { number }, start)) if (number as usize) < opening.len() => {
            Some(start)
        }
        _ => None,
    }
}

/// The tally of the opening tokens. Only those that some End names are looked up.
pub(crate) fn opening_tally(opening: &[Bytes], events: &[Event]) -> Tally
    requires { IsLawful events.now }
    ensures few { result.ungot ≤ length opening.now }
    ensures tally { IsTally events.now
        (IsFinishedAt opening.now events.now 0 0) result.ungot result.claimed_from }
{
    let mut got = 0;
    let mut claimed_from = 0usize;
    for e in 0..events.len() {
        match token_got_at(opening, events, e) {
            None => {}
            Some(start) => {
                got += 1;
                claimed_from = claimed_from.max(start + 1);
            }
        }
    }
    Tally {
        ungot: opening.len() - got,
        claimed_from,
    }
}

/// The puts of this queue that are finished before any event: the opening tokens, in queue 0.
fn tally_before_all(tokens: Tally, queue: u32) -> Tally
    ensures few { result.ungot ≤ tokens.ungot }
    ensures tally { (opening : List (List ℕ)) (events : List Event)
        → IsTally events (IsFinishedAt opening events 0 0) tokens.ungot tokens.claimed_from
        → IsTally events (IsFinishedAt opening events queue 0) result.ungot result.claimed_from }
{
    if queue == 0 {
        tokens
    } else {
        Tally {
            ungot: 0,
            claimed_from: 0,
        }
    }
}

/// The tally of the puts of this queue that are finished at this moment. `tokens` is that of the
/// opening tokens.
pub(crate) fn finished_tally(tokens: Tally, events: &[Event], queue: u32, moment: usize) -> Tally
    requires lawful { IsLawful events.now }
    requires within { moment ≤ length events.now }
    requires room { tokens.ungot + length events.now < 2 ^ 64 }
    ensures few { result.ungot ≤ tokens.ungot + moment }
    ensures tally { (opening : List (List ℕ))
        → IsTally events.now (IsFinishedAt opening events.now 0 0) tokens.ungot tokens.claimed_from
        → IsTally events.now
        (IsFinishedAt opening events.now queue moment) result.ungot result.claimed_from }
{
    let mut tally = tally_before_all(tokens, queue);
    for e in 0..moment {
        tally = tally_after(tally, events, queue, e);
    }
    tally
}

/// Whether all tallied puts are claimed at this moment, at which so many gets have started that
/// never end.
pub(crate) fn are_claimed(tally: Tally, pending: usize, moment: usize) -> bool
    ensures { IsTrue result ↔ ((tally.claimed_from ≤ moment) × (tally.ungot ≤ pending)) }
{
    tally.claimed_from <= moment && tally.ungot <= pending
}
