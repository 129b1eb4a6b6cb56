use scq_word::Bytes;

/// A message of a file: files and lines are numbered from 1, declared topics from 0, and an
/// undeclared topic has the number after the last of them.
#[derive(Drop)]
pub struct Message {
    pub file: u32,
    pub line: u32,
    pub topic: u32,
    pub payload: Bytes,
}
