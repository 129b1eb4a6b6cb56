//! What stands where in a history, looked up in tables that are made once.

ghost use Rattle.std.specs.Prelude.{◌≡◌, ◌<◌, ◌↔◌, ℕ, suc, IsTrue, length, slice_get, IfOk};
ghost use Rattle.std.specs.Prelude.{MatchOption, true};
ghost use Rattle.scq_hist.specs.Exports.{IsPut, IsGot, IsGetOf, IsPending, IsFirstNamed, EndsNoGet};
ghost use Rattle.scq_hist.specs.Exports.{NoPutBefore, EndsDone, NoDoneAt, EndsPut, NoPutEnds};
ghost use Rattle.scq_hist.specs.Exports.{NoneEnds};
ghost use Rattle.scq_check.specs.Puts.{put_number};
ghost use Rattle.scq_check.specs.Tables.{AreOfLawful, HasEvent, IsCallOf, IsQueueOf, IsTables};
ghost use Rattle.scq_check.specs.Tables.{IsRefusalAt};

use crate::calls::Calls;
use crate::gots::Gots;
use crate::puts::Puts;
use scq_hist::{Call, EndedPut, Event, PutName, call_started, got_name, put_end};
use scq_word::{Bytes, NoMemory};
use std::alloc::Global;

/// The tables of a history.
#[derive(Drop)]
pub(crate) struct Tables {
    calls: Calls,
    puts: Puts,
    gots: Gots,
}

impl Tables {
    pub(crate) fn new(alloc: Global, events: &[Event]) -> Result<Tables, NoMemory>
        ensures { IfOk result (IsTables events.now) }
    {
        Ok(Tables {
            calls: Calls::new(alloc, events)?,
            puts: Puts::new(alloc, events)?,
            gots: Gots::new(alloc, events)?,
        })
    }

    /// The call that the event at this position belongs to, and the position of its Start.
    pub(crate) fn call_of<'a>(&self, events: &'a [Event], e: usize) -> (usize, &'a Call)
        requires { HasEvent events.now self.now e }
        ensures { IsCallOf events.now e result.0 result.1.now }
    {
        let start = self.calls.start(events, e);
        match &events[start] {
            Event::Start { call, .. } => (start, call),
            Event::End { .. } => unreachable!(),
        }
    }

    /// The queue of that call.
    pub(crate) fn queue_of(&self, events: &[Event], e: usize) -> u32
        requires { HasEvent events.now self.now e }
        ensures { IsQueueOf events.now e result }
    {
        match self.call_of(events, e).1 {
            Call::Put { queue, .. } => *queue,
            Call::Get { queue } => *queue,
        }
    }

    /// The seat's put of this number: the position of its Start, its queue and its content.
    pub(crate) fn put_named<'a>(
        &self,
        events: &'a [Event],
        seat: u32,
        number: u64,
    ) -> Option<(usize, u32, &'a Bytes)>
        requires { IsTables events.now self.now }
        ensures { MatchOption result
            (NoPutBefore events.now seat number (length events.now))
            (λ put. IsPut events.now seat number put.1 put.2.now put.0) }
    {
        let start = self.puts.start(events, seat, number)?;
        match call_started(events, start)? {
            Call::Put { queue, content } => Some((start, *queue, content)),
            Call::Get { .. } => None,
        }
    }

    /// The number of the put that starts at this position, else 0.
    pub(crate) fn number(&self, events: &[Event], e: usize) -> u64
        requires tables { IsTables events.now self.now }
        requires within { e < length events.now }
        ensures { result ≡ put_number events.now e (slice_get events.now e) }
    {
        self.puts.number(events, e)
    }

    /// The put that ends at this position.
    pub(crate) fn ended_put(&self, events: &[Event], e: usize) -> Option<EndedPut>
        requires { HasEvent events.now self.now e }
        ensures { MatchOption result (NoPutEnds events.now e) (EndsPut events.now e) }
    {
        let end = put_end(&events[e])?;
        let call = self.call_of(events, e);
        match call.1 {
            Call::Put { queue, .. } => Some(EndedPut {
                seat: end.0,
                start: call.0,
                queue: *queue,
                refused: end.1,
            }),
            Call::Get { .. } => None,
        }
    }

    /// The put that ends with Spent at this position.
    pub(crate) fn refused_put(&self, events: &[Event], e: usize) -> Option<EndedPut>
        requires { HasEvent events.now self.now e }
        ensures { MatchOption result (NoneEnds true events.now e) (IsRefusalAt events.now e) }
    {
        let put = self.ended_put(events, e)?;
        if !put.refused {
            return None;
        }
        Some(put)
    }

    /// The put of this queue that ends with Done at this position.
    pub(crate) fn done_put(&self, events: &[Event], queue: u32, e: usize) -> Option<PutName>
        requires { HasEvent events.now self.now e }
        ensures { MatchOption result (NoDoneAt events.now queue e) (EndsDone events.now queue e) }
    {
        let put = self.ended_put(events, e)?;
        if put.refused {
            return None;
        }
        if put.queue != queue {
            return None;
        }
        let number = self.number(events, put.start);
        Some(PutName::Of {
            seat: put.seat,
            number,
        })
    }

    /// Whether a get of this queue starts here that is under way at the end of the list.
    pub(crate) fn never_ends(&self, events: &[Event], queue: u32, s: usize) -> bool
        requires tables { IsTables events.now self.now }
        requires within { s < length events.now }
        ensures { IsTrue result ↔ IsPending events.now queue (suc s) s }
    {
        match &events[s] {
            Event::Start {
                seat,
                call: Call::Get { queue: of },
            } if *of == queue => self.calls.under_way(events, events.len(), *seat) == Some(s),
            _ => false,
        }
    }

    /// The position of the first End with Got that names this put.
    pub(crate) fn first_named(&self, events: &[Event], name: PutName) -> Option<usize>
        requires { IsTables events.now self.now }
        ensures { MatchOption result (¬ (IsGot events.now name)) (IsFirstNamed events.now name) }
    {
        self.gots.first(events, name)
    }

    /// The position of the Start of the get that has got this put.
    pub(crate) fn get_of(&self, events: &[Event], name: PutName) -> Option<usize>
        requires { AreOfLawful events.now self.now }
        ensures { MatchOption result
            (¬ (IsGot events.now name))
            (λ s. (e : ℕ) × IsGetOf events.now name s e) }
    {
        let e = self.first_named(events, name)?;
        Some(self.calls.start(events, e))
    }

    /// If the call that ends at this position is the get that has got a put: that put, and the
    /// position of the get's Start.
    pub(crate) fn get_ending_at(&self, events: &[Event], e: usize) -> Option<(PutName, usize)>
        requires { HasEvent events.now self.now e }
        ensures { MatchOption result (EndsNoGet events.now e) (λ get.
            IsGetOf events.now get.0 get.1 e) }
    {
        let name = got_name(&events[e])?;
        if self.first_named(events, name) != Some(e) {
            return None;
        }
        Some((name, self.calls.start(events, e)))
    }
}
