//! The calls that have ended, as a seat's record keeps them.

ghost use Rattle.std.specs.Prelude.{◌≡◌, IfOk};

use crate::copies::Copies;
use scq_word::{Bytes, NoMemory};
use std::alloc::Global;

/// A call that has ended, as its seat's record keeps it. `Done` ends an enqueue, `Got` and
/// `Nothing` a dequeue: `Nothing` is what callers know as Empty, or Full on the ring of free
/// indices. A place is the ticket at which an index was placed. `put` says whether the call that
/// drew a spent ticket was an enqueue.
#[derive(Drop)]
pub enum Ended {
    Done {
        ring: u32,
        place: u64,
        content: Bytes,
    },
    Got {
        ring: u32,
        place: u64,
        content: Bytes,
    },
    Nothing {
        ring: u32,
    },
    Spent {
        ring: u32,
        ticket: u64,
        put: bool,
    },
}

impl Copies for Ended {
    fn copied(&self, alloc: Global) -> Result<Ended, NoMemory> {
        self.copy(alloc)
    }
}

impl Ended {
    /// An equal record of the call, with a copy of its content.
    pub fn copy(&self, alloc: Global) -> Result<Ended, NoMemory>
        ensures { IfOk result (λ copy. copy ≡ self.now) }
    {
        match self {
            Ended::Done {
                ring,
                place,
                content,
            } => Ok(Ended::Done {
                ring: *ring,
                place: *place,
                content: Bytes::copy_of(alloc, content.bytes())?,
            }),
            Ended::Got {
                ring,
                place,
                content,
            } => Ok(Ended::Got {
                ring: *ring,
                place: *place,
                content: Bytes::copy_of(alloc, content.bytes())?,
            }),
            Ended::Nothing { ring } => Ok(Ended::Nothing { ring: *ring }),
            Ended::Spent { ring, ticket, put } => Ok(Ended::Spent {
                ring: *ring,
                ticket: *ticket,
                put: *put,
            }),
        }
    }
}
