//! What is counted of a history.

ghost use Rattle.std.specs.Prelude.{◌≡◌, ◌+◌, ◌<◌, ◌≤◌, ◌↔◌, ◌==◌, ◌||◌, ℕ, IsTrue, false, IfOk};
ghost use Rattle.std.specs.Prelude.{OnOk, Some, length};
ghost use Rattle.scq_hist.specs.Exports.{IsLawful, IsCount};
ghost use Rattle.scq_hist.specs.declared.events.Event.TheVariants.{Start};
ghost use Rattle.scq_judge.specs.Counted.{IsStartAt, IsNamed, Overlaps, Before, AreSeen, AreBusy};
ghost use Rattle.scq_judge.specs.Counted.{NeverEnds, named_by, is_seen};

use scq_hist::{Call, Event, call_started};
use scq_word::NoMemory;
use std::alloc::Global;
use std::collections::BTreeMap;

/// How many events, queues, seats and calls a history has, how many of its calls overlap another,
/// and how many never end.
#[derive(Clone, Copy)]
pub struct Counts {
    pub events: usize,
    pub queues: usize,
    pub seats: usize,
    pub calls: usize,
    pub overlapping: usize,
    pub never_ended: usize,
}

/// What a Start names: the seat, or the queue of the call.
#[derive(Clone, Copy)]
pub(crate) enum Named {
    Seat,
    Queue,
}

/// Numbers that were seen.
#[derive(Drop)]
pub(crate) struct Seen {
    numbers: BTreeMap<u32, bool>,
}

impl Seen {
    fn new(alloc: Global) -> Seen
        ensures { (number : ℕ) → is_seen result number ≡ false }
    {
        Seen {
            numbers: BTreeMap::new(alloc),
        }
    }

    fn has(&self, number: u32) -> bool
        ensures { result ≡ is_seen self.now number }
    {
        self.numbers.get(&number).is_some()
    }

    fn add(&mut self, number: u32) -> Result<(), NoMemory>
        ensures { OnOk result ((other : ℕ)
            → is_seen self.new other ≡ ((number == other) || is_seen self.old other)) }
    {
        self.numbers.insert(number, true)?;
        Ok(())
    }
}

/// Counts a lawful history.
pub(crate) fn count(alloc: Global, events: &[Event]) -> Result<Counts, NoMemory>
    requires { IsLawful events.now }
    ensures events { IfOk result (λ counts. counts.events ≡ length events.now) }
    ensures queues { IfOk result (λ counts.
        IsCount (IsNamed Named.Queue events.now) counts.queues) }
    ensures seats { IfOk result (λ counts. IsCount (IsNamed Named.Seat events.now) counts.seats) }
    ensures calls { IfOk result (λ counts. IsCount (IsStartAt events.now) counts.calls) }
    ensures overlapping { IfOk result (λ counts. IsCount (Overlaps events.now) counts.overlapping) }
    ensures never_ended { IfOk result (λ counts.
        IsCount (NeverEnds events.now) counts.never_ended) }
{
    let (overlapping, never_ended) = count_overlapping(events);
    Ok(Counts {
        events: events.len(),
        queues: count_named(alloc, Named::Queue, events)?,
        seats: count_named(alloc, Named::Seat, events)?,
        calls: count_calls(events),
        overlapping,
        never_ended,
    })
}

// The queue of a call.
fn queue_of(call: &Call) -> u32
    ensures { (seat : ℕ) → named_by Named.Queue (Some (Start seat call.now)) ≡ Some result }
{
    match call {
        Call::Put { queue, .. } => *queue,
        Call::Get { queue } => *queue,
    }
}

// What the event names.
fn named_by(named: Named, event: &Event) -> Option<u32>
    ensures { result ≡ named_by named (Some event.now) }
{
    match named {
        Named::Seat => match event {
            Event::Start { seat, .. } => Some(*seat),
            Event::End { .. } => None,
        },
        Named::Queue => match event {
            Event::Start { call, .. } => Some(queue_of(call)),
            Event::End { .. } => None,
        },
    }
}

// How many different seats, or queues, are named.
fn count_named(alloc: Global, named: Named, events: &[Event]) -> Result<usize, NoMemory>
    ensures { IfOk result (IsCount (IsNamed named events.now)) }
{
    let mut seen = Seen::new(alloc);
    let mut count = 0;
    for e in 0..events.len() {
        count = add_named(&mut seen, count, named, events, e)?;
    }
    Ok(count)
}

// From what the events before position e name to what those up to it do.
fn add_named(
    seen: &mut Seen,
    count: usize,
    named: Named,
    events: &[Event],
    e: usize,
) -> Result<usize, NoMemory>
    requires within { e < length events.now }
    requires before { AreSeen named events.now e seen.old count }
    ensures { IfOk result (AreSeen named events.now (e + 1) seen.new) }
{
    match named_by(named, &events[e]) {
        None => Ok(count),
        Some(number) => {
            if seen.has(number) {
                return Ok(count);
            }
            seen.add(number)?;
            Ok(count + 1)
        }
    }
}

// Whether a call starts at this position.
fn is_start(events: &[Event], e: usize) -> bool
    ensures { IsTrue result ↔ IsStartAt events.now e }
{
    call_started(events, e).is_some()
}

// How many calls start.
fn count_calls(events: &[Event]) -> usize
    ensures { IsCount (IsStartAt events.now) result }
{
    let mut calls = 0;
    for e in 0..events.len() {
        calls = calls_after(calls, events, e);
    }
    calls
}

// From how many calls start before position e to how many do up to it.
fn calls_after(calls: usize, events: &[Event], e: usize) -> usize
    requires within { e < length events.now }
    requires few { calls ≤ e }
    requires count { IsCount (Before (IsStartAt events.now) e) calls }
    ensures few { result ≤ e + 1 }
    ensures count { IsCount (Before (IsStartAt events.now) (e + 1)) result }
{
    if is_start(events, e) {
        calls + 1
    } else {
        calls
    }
}

// Whether a call starts at this position that overlaps another, where so many seats have calls
// under way.
fn overlaps(events: &[Event], busy: usize, e: usize) -> bool
    requires busy { AreBusy events.now e busy }
    requires within { e < length events.now }
    ensures { IsTrue result ↔ Overlaps events.now e }
{
    let starts = is_start(events, e);
    let next = is_start(events, e + 1);
    starts && (busy > 0 || next)
}

// From how many seats have calls under way just before the event at this position to how many have
// just after it.
fn busy_after(busy: usize, events: &[Event], e: usize) -> usize
    requires lawful { IsLawful events.now }
    requires within { e < length events.now }
    requires busy { AreBusy events.now e busy }
    ensures { AreBusy events.now (e + 1) result }
{
    match &events[e] {
        Event::Start { .. } => busy + 1,
        Event::End { .. } => busy - 1,
    }
}

// How many calls overlap another, and how many never end.
fn count_overlapping(events: &[Event]) -> (usize, usize)
    requires { IsLawful events.now }
    ensures overlapping { IsCount (Overlaps events.now) result.0 }
    ensures never_ended { IsCount (NeverEnds events.now) result.1 }
{
    let mut busy = 0;
    let mut overlapping = 0;
    for e in 0..events.len() {
        overlapping = overlapping_after(overlapping, events, busy, e);
        busy = busy_after(busy, events, e);
    }
    (overlapping, busy)
}

// From how many calls that start before position e overlap another to how many of those up to it
// do.
fn overlapping_after(overlapping: usize, events: &[Event], busy: usize, e: usize) -> usize
    requires within { e < length events.now }
    requires busy { AreBusy events.now e busy }
    requires few { overlapping ≤ e }
    requires count { IsCount (Before (Overlaps events.now) e) overlapping }
    ensures few { result ≤ e + 1 }
    ensures count { IsCount (Before (Overlaps events.now) (e + 1)) result }
{
    if overlaps(events, busy, e) {
        overlapping + 1
    } else {
        overlapping
    }
}
