use scq_word::Bytes;

/// How a worker came to finish a message.
#[derive(Clone, Copy, PartialEq, Eq)]
pub enum StageWay {
    /// It took the message from second, at this place, and squeezed what another or it had
    /// redacted.
    Second { place: u64 },
    /// It took the message from first, at this place, after it had retired, and did both.
    First { place: u64 },
    /// It did both to a message of its own file, since no buffer was free: with this head of the
    /// ring of free buffers.
    Direct { head: u64 },
}

/// A message that went through both stages: its file and line, both numbered from 1, what is left
/// of its payload, and how a worker came to finish it.
#[derive(Drop)]
pub struct Finished {
    pub file: u32,
    pub line: u32,
    pub payload: Bytes,
    pub way: StageWay,
}
