//! The steps of the table, by name.

ghost use Rattle.std.specs.Prelude.{◌≡◌, IfOk};

use scq_word::{Bytes, NoMemory};
use std::alloc::Global;

/// One atomic step of one seat, by its line in the step table. `E1` begins an enqueue and `E1Again`
/// draws its next ticket; both are the step E1. `D1` begins a dequeue. A content is what a put
/// carries.
#[derive(Debug, Drop)]
pub enum Step {
    /// An enqueue of this index begins: it draws a ticket from Tail.
    E1 {
        ring: u32,
        index: u32,
        content: Bytes,
    },
    /// An enqueue whose ticket failed draws its next one.
    E1Again,
    /// An enqueue loads the entry of its ticket's slot.
    E2,
    /// An enqueue that found the entry unsafe loads Head.
    E3,
    /// An enqueue exchanges the entry for its index: where it succeeds the index is placed.
    E4,
    /// An enqueue that has placed its index loads Threshold.
    E5,
    /// An enqueue that has placed its index stores the reset value in Threshold.
    E6,
    /// A dequeue begins: it loads Threshold.
    D1 {
        ring: u32,
    },
    /// A dequeue draws a ticket from Head.
    D2,
    /// A dequeue loads the entry of its ticket's slot.
    D3,
    /// A dequeue takes the index that stands at its ticket.
    D4,
    /// A dequeue exchanges an entry of an earlier cycle: for its own cycle where no index stands
    /// there, else for the same index marked unsafe.
    D5,
    /// A dequeue that gave its ticket up loads Tail.
    D6,
    /// A dequeue exchanges Tail, which was at most one past its ticket, to lift it there.
    D7,
    /// A dequeue that failed to lift Tail loads Head.
    D8,
    /// A dequeue that failed to lift Tail loads it again.
    D9,
    /// A dequeue takes one off Threshold, for the ticket that it gave up.
    D10,
}

impl Step {
    /// An equal step, with a copy of its content.
    pub fn copy(&self, alloc: Global) -> Result<Step, NoMemory>
        ensures { IfOk result (λ copy. copy ≡ self.now) }
    {
        match self {
            Step::E1 {
                ring,
                index,
                content,
            } => Ok(Step::E1 {
                ring: *ring,
                index: *index,
                content: Bytes::copy_of(alloc, content.bytes())?,
            }),
            Step::E1Again => Ok(Step::E1Again),
            Step::E2 => Ok(Step::E2),
            Step::E3 => Ok(Step::E3),
            Step::E4 => Ok(Step::E4),
            Step::E5 => Ok(Step::E5),
            Step::E6 => Ok(Step::E6),
            Step::D1 { ring } => Ok(Step::D1 { ring: *ring }),
            Step::D2 => Ok(Step::D2),
            Step::D3 => Ok(Step::D3),
            Step::D4 => Ok(Step::D4),
            Step::D5 => Ok(Step::D5),
            Step::D6 => Ok(Step::D6),
            Step::D7 => Ok(Step::D7),
            Step::D8 => Ok(Step::D8),
            Step::D9 => Ok(Step::D9),
            Step::D10 => Ok(Step::D10),
        }
    }
}
