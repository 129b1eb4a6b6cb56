//! What is known of each queue at a moment, event by event.

ghost use Rattle.std.specs.Prelude.{◌≡◌, ◌+◌, ◌<◌, ◌≤◌, ◌^◌, ◌↔◌, ◌⊎◌, ℕ, List, IsTrue};
ghost use Rattle.std.specs.Prelude.{MatchOption, length, OnOk};
ghost use Rattle.scq_hist.specs.Exports.{IsFinishedAt, IsTally, IsTokenGotAt, NoTokenGotAt};
ghost use Rattle.scq_check.specs.Full.{one_more_if};
ghost use Rattle.scq_check.specs.Tables.{AreOfLawful, HasEvent};
ghost use Rattle.scq_check.specs.Queues.{AreClaimed, IsQueueAt, AreQueuesAt, CountsAreSmall};
ghost use Rattle.scq_check.specs.Queues.{queue_in};
ghost use Rattle.scq_check.specs.Queues.{unseen};

use crate::tables::Tables;
use scq_hist::{Event, PutName, Tally, with_put};
use scq_word::{Bytes, NoMemory};
use std::alloc::Global;
use std::collections::BTreeMap;

/// A queue at a moment: its finished puts, how many of its gets that started by then never end, and
/// the last moment found so far at which all its finished puts were claimed, or 0.
#[derive(Clone, Copy)]
pub(crate) struct Queue {
    pub(crate) tally: Tally,
    pub(crate) pending: usize,
    pub(crate) right_till: usize,
}

/// All queues at a moment: those of whose calls there was an event, and the tally of the opening
/// tokens.
#[derive(Drop)]
pub(crate) struct Queues {
    tokens: Tally,
    known: BTreeMap<u32, Queue>,
}

// From the puts of this queue that are finished just before the event at position e to those that
// are finished just after it.
fn tally_after(tally: Tally, tables: &Tables, events: &[Event], queue: u32, e: usize) -> Tally
    requires event { HasEvent events.now tables.now e }
    requires room { tally.ungot + 1 < 2 ^ 64 }
    ensures few { result.ungot ≤ tally.ungot + 1 }
    ensures tally { (opening : List (List ℕ))
        → IsTally events.now
        (IsFinishedAt opening events.now queue e) tally.ungot tally.claimed_from
        → IsTally events.now
        (IsFinishedAt opening events.now queue (e + 1)) result.ungot result.claimed_from }
{
    match tables.done_put(events, queue, e) {
        None => tally,
        Some(name) => with_put(tally, tables.get_of(events, name)),
    }
}

/// A number, or one more.
pub(crate) fn counted(number: usize, more: bool) -> usize
    requires { number + 1 < 2 ^ 64 }
    ensures value { result ≡ one_more_if number more }
    ensures few { result ≤ number + 1 }
{
    if more { number + 1 } else { number }
}

// The position of the Start of the get that ends at this position and has got an opening token.
fn token_got_at(tables: &Tables, opening: &[Bytes], events: &[Event], e: usize) -> Option<usize>
    requires { HasEvent events.now tables.now e }
    ensures { MatchOption result
        (NoTokenGotAt opening.now events.now e)
        (IsTokenGotAt opening.now events.now e) }
{
    match tables.get_ending_at(events, e) {
        Some((PutName::Opening { number }, start)) if (number as usize) < opening.len() => {
            Some(start)
        }
        _ => None,
    }
}

// The tally of the opening tokens.
fn opening_tally(tables: &Tables, opening: &[Bytes], events: &[Event]) -> Tally
    requires { AreOfLawful events.now tables.now }
    ensures few { result.ungot ≤ length opening.now }
    ensures tally { IsTally events.now
        (IsFinishedAt opening.now events.now 0 0) result.ungot result.claimed_from }
{
    let mut got = 0;
    let mut claimed_from = 0usize;
    for e in 0..events.len() {
        match token_got_at(tables, opening, events, e) {
            None => {}
            Some(start) => {
                got += 1;
                claimed_from = claimed_from.max(start + 1);
            }
        }
    }
    Tally {
        ungot: opening.len() - got,
        claimed_from,
    }
}

// A queue before any event. The opening tokens stand in queue 0.
fn unseen(tokens: Tally, queue: u32) -> Queue
    ensures { result ≡ unseen tokens queue }
{
    let none = Tally {
        ungot: 0,
        claimed_from: 0,
    };
    Queue {
        tally: if queue == 0 { tokens } else { none },
        pending: 0,
        right_till: 0,
    }
}

impl Queue {
    /// Whether all its finished puts are claimed at this moment.
    pub(crate) fn is_claimed(self, moment: usize) -> bool
        ensures { IsTrue result ↔ AreClaimed self moment }
    {
        self.tally.claimed_from <= moment && self.tally.ungot <= self.pending
    }

    /// Whether at this moment, or at one found before that comes after position `start`, all its
    /// finished puts were claimed.
    pub(crate) fn was_claimed(self, start: usize, moment: usize) -> bool
        ensures { IsTrue result ↔ (AreClaimed self moment ⊎ (start < self.right_till)) }
    {
        self.is_claimed(moment) || start < self.right_till
    }

    // The last moment found up to this one at which all its finished puts were claimed. It is asked
    // just before each event of the queue: between two of them its numbers stay as they are, so
    // that all are claimed from some moment on or at none, and the later moment of the two tells.
    fn right_till_now(self, moment: usize) -> usize
        ensures claimed { AreClaimed self moment → result ≡ moment }
        ensures unclaimed { ¬ (AreClaimed self moment) → result ≡ self.right_till }
    {
        if self.is_claimed(moment) {
            moment
        } else {
            self.right_till
        }
    }

    // From just before the event at position e, which is of one of its calls, to just after it.
    fn after(self, tables: &Tables, events: &[Event], queue: u32, e: usize) -> Queue
        requires event { HasEvent events.now tables.now e }
        requires room { self.tally.ungot + 1 < 2 ^ 64 }
        requires room_for_gets { self.pending + 1 < 2 ^ 64 }
        ensures few { result.tally.ungot ≤ self.tally.ungot + 1 }
        ensures few_gets { result.pending ≤ self.pending + 1 }
        ensures at { (opening : List (List ℕ)) → IsQueueAt opening events.now queue e self
            → IsQueueAt opening events.now queue (e + 1) result }
    {
        Queue {
            tally: tally_after(self.tally, tables, events, queue, e),
            pending: counted(self.pending, tables.never_ends(events, queue, e)),
            right_till: self.right_till_now(e),
        }
    }
}

impl Queues {
    /// The queues before any event.
    pub(crate) fn new(alloc: Global, tables: &Tables, opening: &[Bytes], events: &[Event]) -> Queues
        requires { AreOfLawful events.now tables.now }
        ensures few { result.tokens.ungot ≤ length opening.now }
        ensures small { CountsAreSmall 0 result }
        ensures at { AreQueuesAt opening.now events.now 0 result }
    {
        Queues {
            tokens: opening_tally(tables, opening, events),
            known: BTreeMap::new(alloc),
        }
    }

    pub(crate) fn get(&self, queue: u32) -> Queue
        ensures { result ≡ queue_in self.now queue }
    {
        match self.known.get(&queue) {
            Some(known) => *known,
            None => unseen(self.tokens, queue),
        }
    }

    /// From just before the event at position e to just after it.
    pub(crate) fn add(
        &mut self,
        tables: &Tables,
        events: &[Event],
        e: usize,
    ) -> Result<(), NoMemory>
        requires event { HasEvent events.now tables.now e }
        requires small { CountsAreSmall e self.old }
        requires room { self.old.tokens.ungot + length events.now < 2 ^ 64 }
        ensures small { OnOk result (CountsAreSmall (e + 1) self.new) }
        ensures tokens { self.new.tokens ≡ self.old.tokens }
        ensures at { OnOk result ((opening : List (List ℕ))
            → AreQueuesAt opening events.now e self.old
            → AreQueuesAt opening events.now (e + 1) self.new) }
    {
        let queue = tables.queue_of(events, e);
        let after = self.get(queue).after(tables, events, queue, e);
        self.known.insert(queue, after)?;
        Ok(())
    }
}
