//! The puts of a history: the number of each, and where the put of a name starts.

ghost use Rattle.std.specs.Prelude.{◌≡◌, ◌+◌, ◌<◌, length, slice_get, IfOk, OnOk, MatchOption};
ghost use Rattle.scq_hist.specs.Exports.{NoPutBefore};
ghost use Rattle.scq_check.specs.Puts.{put_number, IsPutStart, StartsNoPut, StartsPut, IsPuts};

use crate::by_name::ByName;
use scq_hist::{Call, Event};
use scq_word::NoMemory;
use std::alloc::Global;
use std::collections::BTreeMap;

/// For each event the number of the put that starts there, how many puts each seat began, and
/// where.
#[derive(Drop)]
pub(crate) struct Puts {
    numbers: Vec<u64>,
    counts: BTreeMap<u32, u64>,
    starts: ByName,
}

// The seat of the put that the event starts.
fn putting(event: &Event) -> Option<u32>
    ensures { MatchOption result (StartsNoPut event.now) (IsPutStart event.now) }
{
    match event {
        Event::Start {
            seat,
            call: Call::Put { .. },
        } => Some(*seat),
        _ => None,
    }
}

impl Puts {
    pub(crate) fn new(alloc: Global, events: &[Event]) -> Result<Puts, NoMemory>
        ensures { IfOk result (IsPuts events.now (length events.now)) }
    {
        let mut puts = Puts {
            numbers: Vec::with_capacity(alloc, events.len())?,
            counts: BTreeMap::new(alloc),
            starts: ByName::new(alloc),
        };
        for e in 0..events.len() {
            puts.add(events, e)?;
        }
        Ok(puts)
    }

    // From the events before position e to those up to it.
    fn add(&mut self, events: &[Event], e: usize) -> Result<(), NoMemory>
        requires within { e < length events.now }
        requires before { IsPuts events.now e self.old }
        ensures { OnOk result (IsPuts events.now (e + 1) self.new) }
    {
        match putting(&events[e]) {
            Some(seat) => {
                let number = self.counts.get(&seat).copied().unwrap_or(0) + 1;
                self.counts.insert(seat, number)?;
                self.starts.set(seat, number, e)?;
                self.numbers.push(number)?;
            }
            None => self.numbers.push(0)?,
        }
        Ok(())
    }

    /// The number of the put that starts at this position, else 0.
    pub(crate) fn number(&self, events: &[Event], e: usize) -> u64
        requires within { e < length events.now }
        requires puts { IsPuts events.now (length events.now) self.now }
        ensures { result ≡ put_number events.now e (slice_get events.now e) }
    {
        self.numbers[e]
    }

    /// Where the seat's put of this number starts.
    pub(crate) fn start(&self, events: &[Event], seat: u32, number: u64) -> Option<usize>
        requires { IsPuts events.now (length events.now) self.now }
        ensures { MatchOption result
            (NoPutBefore events.now seat number (length events.now))
            (StartsPut events.now seat number) }
    {
        self.starts.get(seat, number)
    }
}
