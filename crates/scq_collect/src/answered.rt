use scq_topics::ReplyBytes;

/// How a worker came to answer a part of a message.
#[derive(Clone, Copy, PartialEq, Eq)]
pub enum Way {
    /// It took the part from its topic's ring, in the value at this place: the part with this
    /// number in it, from 0.
    Taken { place: u64, number: u64 },
    /// It answered a part of a message of its own file itself, since no buffer was free: with this
    /// head of the ring of free buffers.
    Direct { head: u64 },
}

/// The answer to a part of a message: the message's file and line, both numbered from 1, its
/// topic's number, the part's number, from 1, how many parts the message has, how many bytes the
/// part has, the text, and how a worker came to answer it. The text is the reply where the message
/// has one part, else the bytes of the part.
#[derive(Drop)]
pub struct Answered {
    pub file: u32,
    pub line: u32,
    pub topic: u32,
    pub part: u32,
    pub parts: u32,
    pub bytes: u64,
    pub text: ReplyBytes,
    pub way: Way,
}
