//! Of each event of a history the call that it belongs to.

ghost use Rattle.std.specs.Prelude.{◌≡◌, ◌+◌, ◌^◌, ◌<◌, ◌≤◌, length, IfOk, OnOk};
ghost use Rattle.std.specs.Prelude.{MatchOption};
ghost use Rattle.scq_hist.specs.Exports.{IsLawful};
ghost use Rattle.scq_judge.specs.OwnCalls.{AreOwnCalls, put_with, NoCallEnds, IsEndedAt};
ghost use Rattle.scq_judge.specs.OwnCalls.{last_of_seat};

use scq_hist::{Call, Event, Reply};
use scq_word::NoMemory;
use std::alloc::Global;
use std::collections::BTreeMap;

/// The call that a seat began last: the position of its Start, which of the seat's calls it is,
/// from 1, and how many of them, up to it, are puts.
#[derive(Clone, Copy)]
pub(crate) struct OwnCall {
    pub start: usize,
    pub number: u64,
    pub put: u64,
}

/// Of each event the call that its seat began last before it, and of each seat that before none of
/// them.
#[derive(Drop)]
pub(crate) struct OwnCalls {
    calls: Vec<OwnCall>,
    last: BTreeMap<u32, OwnCall>,
}

/// A call that has ended.
#[derive(Clone, Copy)]
pub(crate) struct EndedCall<'a> {
    pub seat: u32,
    pub own: OwnCall,
    pub call: &'a Call,
    pub reply: &'a Reply,
}

impl OwnCalls {
    pub(crate) fn new(alloc: Global, events: &[Event]) -> Result<OwnCalls, NoMemory>
        ensures { IfOk result (AreOwnCalls events.now (length events.now)) }
    {
        let mut calls = OwnCalls::none(alloc, events)?;
        for e in 0..events.len() {
            calls.add(events, e)?;
        }
        Ok(calls)
    }

    // Before any event, with room for all.
    fn none(alloc: Global, events: &[Event]) -> Result<OwnCalls, NoMemory>
        ensures { IfOk result (AreOwnCalls events.now 0) }
    {
        Ok(OwnCalls {
            calls: Vec::with_capacity(alloc, events.len())?,
            last: BTreeMap::new(alloc),
        })
    }

    // The call that the seat began last.
    fn last(&self, seat: u32) -> OwnCall
        ensures { result ≡ last_of_seat self.now.last seat }
    {
        self.last.get(&seat).copied().unwrap_or(OwnCall {
            start: 0,
            number: 0,
            put: 0,
        })
    }

    // From the events before position e to those up to it.
    fn add(&mut self, events: &[Event], e: usize) -> Result<(), NoMemory>
        requires within { e < length events.now }
        requires before { AreOwnCalls events.now e self.old }
        ensures { OnOk result (AreOwnCalls events.now (e + 1) self.new) }
    {
        match &events[e] {
            Event::Start { seat, call } => {
                let before = self.last(*seat);
                self.calls.push(before)?;
                self.last.insert(*seat, begun(before, e, call))?;
            }
            Event::End { seat, .. } => {
                let before = self.last(*seat);
                self.calls.push(before)?;
            }
        }
        Ok(())
    }

    /// The call that ends at this position.
    pub(crate) fn ended<'a>(&self, events: &'a [Event], e: usize) -> Option<EndedCall<'a>>
        requires lawful { IsLawful events.now }
        requires calls { AreOwnCalls events.now (length events.now) self.now }
        ensures { MatchOption result (NoCallEnds events.now e) (IsEndedAt events.now e) }
    {
        let Event::End { seat, reply } = events.get(e)? else {
            return None;
        };
        let own = self.calls[e];
        let Event::Start { call, .. } = events.get(own.start)? else {
            return None;
        };
        Some(EndedCall {
            seat: *seat,
            own,
            call,
            reply,
        })
    }
}

// The call that starts at this position, behind this one of its seat.
fn begun(before: OwnCall, start: usize, call: &Call) -> OwnCall
    requires few { start + 1 < 2 ^ 64 }
    requires number { before.number ≤ start }
    requires put { before.put ≤ start }
    ensures start { result.start ≡ start }
    ensures number { result.number ≡ before.number + 1 }
    ensures put { result.put ≡ put_with before.put call.now }
{
    let put = match call {
        Call::Put { .. } => before.put + 1,
        Call::Get { .. } => before.put,
    };
    OwnCall {
        start,
        number: before.number + 1,
        put,
    }
}
