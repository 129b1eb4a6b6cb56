//! Of each event of a history where its call started, and what each seat has under way.

ghost use Rattle.std.specs.Prelude.{◌≡◌, ◌+◌, ◌<◌, length, slice_get, None, IfOk, OnOk};
ghost use Rattle.std.specs.Prelude.{MatchOption};
ghost use Rattle.scq_hist.specs.Exports.{under_way};
ghost use Rattle.scq_check.specs.Calls.{own_start, IsCalls, IsCallUnderWay};

use scq_hist::{Call, Event, call_started};
use scq_word::NoMemory;
use std::alloc::Global;
use std::collections::BTreeMap;

/// For each event the position of the Start of its call, and of each seat that of the call which it
/// has under way after them.
#[derive(Drop)]
pub(crate) struct Calls {
    starts: Vec<usize>,
    under_way: BTreeMap<u32, usize>,
}

impl Calls {
    /// Before any event, with room for all.
    pub(crate) fn none(alloc: Global, events: &[Event]) -> Result<Calls, NoMemory>
        ensures { IfOk result (IsCalls events.now 0) }
    {
        Ok(Calls {
            starts: Vec::with_capacity(alloc, events.len())?,
            under_way: BTreeMap::new(alloc),
        })
    }

    /// After all events.
    pub(crate) fn new(alloc: Global, events: &[Event]) -> Result<Calls, NoMemory>
        ensures { IfOk result (IsCalls events.now (length events.now)) }
    {
        let mut calls = Calls::none(alloc, events)?;
        for e in 0..events.len() {
            calls.add(events, e)?;
        }
        Ok(calls)
    }

    /// From the events before position e to those up to it.
    pub(crate) fn add(&mut self, events: &[Event], e: usize) -> Result<(), NoMemory>
        requires within { e < length events.now }
        requires before { IsCalls events.now e self.old }
        ensures { OnOk result (IsCalls events.now (e + 1) self.new) }
    {
        match &events[e] {
            Event::Start { seat, .. } => {
                self.under_way.insert(*seat, e)?;
                self.starts.push(e)?;
            }
            Event::End { seat, .. } => {
                let start = self.under_way.remove(seat).unwrap_or(e);
                self.starts.push(start)?;
            }
        }
        Ok(())
    }

    /// The position of the Start of the call that the event at this position belongs to.
    pub(crate) fn start(&self, events: &[Event], e: usize) -> usize
        requires within { e < length events.now }
        requires calls { IsCalls events.now (length events.now) self.now }
        ensures { result ≡ own_start events.now e (slice_get events.now e) }
    {
        self.starts[e]
    }

    /// The position of the Start of the call that the seat has under way at this moment.
    pub(crate) fn under_way(&self, events: &[Event], moment: usize, seat: u32) -> Option<usize>
        requires { IsCalls events.now moment self.now }
        ensures { result ≡ under_way events.now seat moment }
    {
        self.under_way.get(&seat).copied()
    }

    /// That call.
    pub(crate) fn call_under_way<'a>(
        &self,
        events: &'a [Event],
        moment: usize,
        seat: u32,
    ) -> Option<&'a Call>
        requires { IsCalls events.now moment self.now }
        ensures { MatchOption result
            (under_way events.now seat moment ≡ None)
            (λ call. IsCallUnderWay events.now seat moment call.now) }
    {
        let start = self.under_way(events, moment, seat)?;
        Some(call_started(events, start)?)
    }
}
