//! What a seat is in the middle of.

ghost use Rattle.std.specs.Prelude.{◌≡◌, IfOk};
ghost use Rattle.scq_core.specs.Table.{next_step};
ghost use Rattle.scq_core.specs.Turn.{IsOfGet};

use crate::step::Step;
use scq_word::{Bytes, NoMemory};
use std::alloc::Global;

/// What a seat is in the middle of: its next step, with what it drew and loaded. `ticket` is the
/// drawn one, and `word` the entry that was loaded.
///
/// `least` bounds from below what the step will find, and no line of the step table looks at it: in
/// AtE1 and AtD2 it is one more than the last ticket, in AtE2 and AtD3 the rank of the entry that a
/// failed exchange found. It is 0 where nothing is known yet, and rises with each try of one
/// ticket.
///
/// `from` and `to` are what a dequeue lifts Tail from and to. `leaving` says that Tail was caught
/// up, so that the call ends with Nothing whatever Threshold was.
#[derive(Drop)]
pub enum Phase {
    /// In the middle of no call.
    Idle,
    /// An enqueue draws a ticket: it is the turn that begins a call, or its last ticket failed.
    AtE1 {
        ring: u32,
        index: u32,
        content: Bytes,
        least: u64,
    },
    /// An enqueue has its ticket, and loads the entry of the ticket's slot.
    AtE2 {
        ring: u32,
        index: u32,
        content: Bytes,
        ticket: u64,
        least: u64,
    },
    /// An enqueue found the entry unsafe, and loads Head: it may fill it where no dequeue has drawn
    /// its ticket.
    AtE3 {
        ring: u32,
        index: u32,
        content: Bytes,
        ticket: u64,
        word: u64,
    },
    /// An enqueue exchanges the entry for its index.
    AtE4 {
        ring: u32,
        index: u32,
        content: Bytes,
        ticket: u64,
        word: u64,
    },
    /// An enqueue has placed its index, and loads Threshold.
    AtE5 {
        ring: u32,
        index: u32,
        content: Bytes,
        ticket: u64,
    },
    /// An enqueue has placed its index, and stores the reset value in Threshold.
    AtE6 {
        ring: u32,
        index: u32,
        content: Bytes,
        ticket: u64,
    },
    /// A dequeue begins and loads Threshold. No seat rests here.
    AtD1 {
        ring: u32,
    },
    /// A dequeue draws a ticket, its first or its next one.
    AtD2 {
        ring: u32,
        least: u64,
    },
    /// A dequeue has its ticket, and loads the entry of the ticket's slot.
    AtD3 {
        ring: u32,
        ticket: u64,
        least: u64,
    },
    /// A dequeue found the entry in its ticket's cycle, and takes the index.
    AtD4 {
        ring: u32,
        ticket: u64,
    },
    /// A dequeue found the entry in an earlier cycle, and exchanges it: for its own cycle where no
    /// index stands there, else for the same index marked unsafe.
    AtD5 {
        ring: u32,
        ticket: u64,
        word: u64,
    },
    /// A dequeue has given its ticket up, and loads Tail.
    AtD6 {
        ring: u32,
        ticket: u64,
    },
    /// A dequeue saw Tail at most one past its ticket, and exchanges it to lift it there.
    AtD7 {
        ring: u32,
        ticket: u64,
        from: u64,
        to: u64,
    },
    /// A dequeue failed to lift Tail, and loads Head.
    AtD8 {
        ring: u32,
        ticket: u64,
        from: u64,
    },
    /// A dequeue failed to lift Tail, and loads it again.
    AtD9 {
        ring: u32,
        ticket: u64,
        from: u64,
        to: u64,
    },
    /// A dequeue takes one off Threshold, for the ticket that it gave up.
    AtD10 {
        ring: u32,
        ticket: u64,
        leaving: bool,
    },
}

impl Phase {
    /// The one step that a seat in the middle of a call makes next.
    pub fn next_step(&self) -> Option<Step>
        ensures { result ≡ next_step self.now }
    {
        match self {
            Phase::AtE1 { .. } => Some(Step::E1Again),
            Phase::AtE2 { .. } => Some(Step::E2),
            Phase::AtE3 { .. } => Some(Step::E3),
            Phase::AtE4 { .. } => Some(Step::E4),
            Phase::AtE5 { .. } => Some(Step::E5),
            Phase::AtE6 { .. } => Some(Step::E6),
            Phase::AtD2 { .. } => Some(Step::D2),
            Phase::AtD3 { .. } => Some(Step::D3),
            Phase::AtD4 { .. } => Some(Step::D4),
            Phase::AtD5 { .. } => Some(Step::D5),
            Phase::AtD6 { .. } => Some(Step::D6),
            Phase::AtD7 { .. } => Some(Step::D7),
            Phase::AtD8 { .. } => Some(Step::D8),
            Phase::AtD9 { .. } => Some(Step::D9),
            Phase::AtD10 { .. } => Some(Step::D10),
            _ => None,
        }
    }

    /// An equal phase, with a copy of its content.
    pub fn copy(&self, alloc: Global) -> Result<Phase, NoMemory>
        ensures { IfOk result (λ copy. copy ≡ self.now) }
    {
        match self {
            Phase::Idle => Ok(Phase::Idle),
            Phase::AtE1 {
                ring,
                index,
                content,
                least,
            } => Ok(Phase::AtE1 {
                ring: *ring,
                index: *index,
                content: Bytes::copy_of(alloc, content.bytes())?,
                least: *least,
            }),
            Phase::AtE2 {
                ring,
                index,
                content,
                ticket,
                least,
            } => Ok(Phase::AtE2 {
                ring: *ring,
                index: *index,
                content: Bytes::copy_of(alloc, content.bytes())?,
                ticket: *ticket,
                least: *least,
            }),
            Phase::AtE3 {
                ring,
                index,
                content,
                ticket,
                word,
            } => Ok(Phase::AtE3 {
                ring: *ring,
                index: *index,
                content: Bytes::copy_of(alloc, content.bytes())?,
                ticket: *ticket,
                word: *word,
            }),
            Phase::AtE4 {
                ring,
                index,
                content,
                ticket,
                word,
            } => Ok(Phase::AtE4 {
                ring: *ring,
                index: *index,
                content: Bytes::copy_of(alloc, content.bytes())?,
                ticket: *ticket,
                word: *word,
            }),
            Phase::AtE5 {
                ring,
                index,
                content,
                ticket,
            } => Ok(Phase::AtE5 {
                ring: *ring,
                index: *index,
                content: Bytes::copy_of(alloc, content.bytes())?,
                ticket: *ticket,
            }),
            Phase::AtE6 {
                ring,
                index,
                content,
                ticket,
            } => Ok(Phase::AtE6 {
                ring: *ring,
                index: *index,
                content: Bytes::copy_of(alloc, content.bytes())?,
                ticket: *ticket,
            }),
            _ => Ok(self.copy_of_get()),
        }
    }

    /// The same for what stands in a dequeue.
    fn copy_of_get(&self) -> Phase
        requires { IsOfGet self.now }
        ensures { result ≡ self.now }
    {
        match self {
            Phase::AtD1 { ring } => Phase::AtD1 { ring: *ring },
            Phase::AtD2 { ring, least } => Phase::AtD2 {
                ring: *ring,
                least: *least,
            },
            Phase::AtD3 {
                ring,
                ticket,
                least,
            } => Phase::AtD3 {
                ring: *ring,
                ticket: *ticket,
                least: *least,
            },
            Phase::AtD4 { ring, ticket } => Phase::AtD4 {
                ring: *ring,
                ticket: *ticket,
            },
            Phase::AtD5 { ring, ticket, word } => Phase::AtD5 {
                ring: *ring,
                ticket: *ticket,
                word: *word,
            },
            Phase::AtD6 { ring, ticket } => Phase::AtD6 {
                ring: *ring,
                ticket: *ticket,
            },
            Phase::AtD7 {
                ring,
                ticket,
                from,
                to,
            } => Phase::AtD7 {
                ring: *ring,
                ticket: *ticket,
                from: *from,
                to: *to,
            },
            Phase::AtD8 { ring, ticket, from } => Phase::AtD8 {
                ring: *ring,
                ticket: *ticket,
                from: *from,
            },
            Phase::AtD9 {
                ring,
                ticket,
                from,
                to,
            } => Phase::AtD9 {
                ring: *ring,
                ticket: *ticket,
                from: *from,
                to: *to,
            },
            Phase::AtD10 {
                ring,
                ticket,
                leaving,
            } => Phase::AtD10 {
                ring: *ring,
                ticket: *ticket,
                leaving: *leaving,
            },
            _ => unreachable!(),
        }
    }
}
