ghost use Rattle.std.specs.Prelude.{◌≡◌, ◌⊎◌, ℕ, ◌≤◌, length, map, IfOk, IfErr, IfSome, OnOk};
ghost use Rattle.std.specs.Prelude.{IsErrOf};
ghost use Rattle.std.specs.Option.{option_to_list};
ghost use Rattle.std.specs.List.{before_first};
ghost use Rattle.scq_topics.specs.Exports.{is_space, topic_of};
ghost use Rattle.scq_frames.specs.Exports.{message_in, payload_of, numbered, IsTooLong};

use crate::{FrameFault, Message};
use memchr::memchr;
use scq_topics::Topics;
use scq_word::{Bytes, NoMemory};
use std::alloc::Global;
use std::mem;

/// The message of a line, where the line has bytes. A payload may have `size` bytes. It lies in the
/// memory of `spare`, where that is enough.
pub fn message_of_line(
    alloc: Global,
    spare: &mut Vec<u8>,
    topics: &Topics,
    file: u32,
    size: u32,
    line: u32,
    bytes: &[u8],
) -> Result<Option<Message>, FrameFault>
    ensures given { IfOk result (λ given.
        option_to_list given
        ≡ map (numbered file (topic_of topics.now)) (message_in line bytes.now)) }
    ensures topic { IfOk result (λ given. IfSome given (λ m. m.topic ≤ length topics.now)) }
    ensures fits { OnOk result (length (payload_of bytes.now) ≤ size) }
    ensures long { (at len : ℕ) → IsErrOf result (FrameFault.TooLong at len)
        → IsTooLong size line bytes.now at len }
    ensures faults { IfErr result (λ fault.
        ((at : ℕ) × (len : ℕ) × (fault ≡ FrameFault.TooLong at len))
        ⊎ (fault ≡ FrameFault.NoMemory)) }
{
    if bytes.is_empty() {
        return Ok(None);
    }
    let (topic, payload) = split_line(bytes);
    if payload.len() > size as usize {
        let len = payload.len() as u64;
        return Err(FrameFault::TooLong { line, len });
    }
    Ok(Some(Message {
        file,
        line,
        topic: topics.find(topic),
        payload: copy_in(mem::replace(spare, Vec::new(alloc)), payload)?,
    }))
}

/// A copy, in this memory where it is enough.
fn copy_in(spare: Vec<u8>, from: &[u8]) -> Result<Bytes, NoMemory>
    ensures { IfOk result (λ copy. copy ≡ from.now) }
{
    let mut bytes = spare;
    bytes.clear();
    bytes.reserve_exact(from.len())?;
    bytes.extend_from_slice(from)?;
    Ok(Bytes::from(bytes))
}

/// What stands before the first space of a line, and what follows it.
pub fn split_line(line: &[u8]) -> (&[u8], &[u8])
    ensures topic { result.0.now ≡ before_first is_space line.now }
    ensures payload { result.1.now ≡ payload_of line.now }
{
    match memchr(b' ', line) {
        Some(space) => (&line[..space], &line[space + 1..]),
        None => (line, &[]),
    }
}
