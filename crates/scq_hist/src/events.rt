//! Histories: the events of calls, and the names of puts.

ghost use Rattle.std.specs.Prelude.{◌≡◌, IfOk};

use scq_word::{Bytes, NoMemory};
use std::alloc::Global;

/// The name of a put: of a token that stands in queue 0 before the history, or of a seat's put.
#[derive(Clone, Copy, Debug, PartialEq, Eq)]
pub enum PutName {
    /// The opening tokens are numbered from 0.
    Opening { number: u32 },
    /// A seat's puts are numbered from 1, over all queues.
    Of { seat: u32, number: u64 },
}

/// What a seat asks of a queue.
#[derive(Debug, Drop)]
pub enum Call {
    Put { queue: u32, content: Bytes },
    Get { queue: u32 },
}

/// What ends a call: `Done` or `Spent` a put; `Got`, `Nothing` or `Spent` a get.
#[derive(Debug, Drop)]
pub enum Reply {
    Done,
    Got { name: PutName, content: Bytes },
    Nothing,
    Spent,
}

/// One member of a history.
#[derive(Debug, Drop)]
pub enum Event {
    Start { seat: u32, call: Call },
    End { seat: u32, reply: Reply },
}

impl Call {
    /// An equal call, with a copy of its content.
    pub fn copy(&self, alloc: Global) -> Result<Call, NoMemory>
        ensures { IfOk result (λ copy. copy ≡ self.now) }
    {
        match self {
            Call::Put { queue, content } => Ok(Call::Put {
                queue: *queue,
                content: Bytes::copy_of(alloc, content.bytes())?,
            }),
            Call::Get { queue } => Ok(Call::Get { queue: *queue }),
        }
    }
}

impl Reply {
    /// An equal reply, with a copy of its content.
    pub fn copy(&self, alloc: Global) -> Result<Reply, NoMemory>
        ensures { IfOk result (λ copy. copy ≡ self.now) }
    {
        match self {
            Reply::Done => Ok(Reply::Done),
            Reply::Got { name, content } => Ok(Reply::Got {
                name: *name,
                content: Bytes::copy_of(alloc, content.bytes())?,
            }),
            Reply::Nothing => Ok(Reply::Nothing),
            Reply::Spent => Ok(Reply::Spent),
        }
    }
}

impl Event {
    /// An equal event, with a copy of its content.
    pub fn copy(&self, alloc: Global) -> Result<Event, NoMemory>
        ensures { IfOk result (λ copy. copy ≡ self.now) }
    {
        match self {
            Event::Start { seat, call } => Ok(Event::Start {
                seat: *seat,
                call: call.copy(alloc)?,
            }),
            Event::End { seat, reply } => Ok(Event::End {
                seat: *seat,
                reply: reply.copy(alloc)?,
            }),
        }
    }
}
