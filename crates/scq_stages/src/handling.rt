//! The two stages on the bytes of a part, where they stand in a buffer.
ghost use Rattle.std.specs.Prelude.{◌≡◌, ◌+◌, ◌≤◌, ◌++◌, true, false, None, length, take, drop};
ghost use Rattle.std.specs.Prelude.{IfSome, IsSomeAnd};
ghost use Rattle.scq_frames.specs.Exports.{BeginsWith, part_at};
ghost use Rattle.scq_stages.specs.Stages.{redacted, squeezed, stages_left};
ghost use Rattle.scq_stages.specs.Handling.{after_stage};

use crate::in_place::{redact, squeeze};
use crate::worker::FIRST;
use scq_frames::decode;

/// Where the bytes of a part begin, behind its numbers.
const HEADER: usize = 24;

/// What is left of a part once its spaces are squeezed: the file and the line of its message, and
/// how many bytes. The length that stands in front of them isn't theirs.
#[derive(Clone, Copy)]
pub struct Rest {
    pub file: u32,
    pub line: u32,
    pub len: usize,
}

/// Redacts the part that comes first. Whether there is one.
pub fn redact_part(bytes: &mut [u8]) -> bool
    ensures redacted { IfSome (part_at bytes.old) (λ p.
        (result ≡ true) × BeginsWith bytes.new (after_stage redacted p)) }
    ensures none { part_at bytes.old ≡ None → (result ≡ false) × (bytes.new ≡ bytes.old) }
    ensures len { length bytes.new ≡ length bytes.old }
{
    let Some(view) = decode(bytes) else {
        return false;
    };
    let len = view.payload.len();
    redact_behind(bytes, len);
    true
}

/// Redacts so many bytes behind the numbers.
fn redact_behind(bytes: &mut [u8], len: usize)
    requires { 24 + len ≤ length bytes.old }
    ensures redacted { bytes.new ≡ take 24 bytes.old ++ (redacted (take len (drop 24 bytes.old))
        ++ drop len (drop 24 bytes.old)) }
    ensures len { length bytes.new ≡ length bytes.old }
{
    redact(&mut bytes[HEADER..HEADER + len]);
}

/// Does the stages that are left to the part that comes first, where it was taken from this topic.
/// What is left of its bytes comes first behind its numbers.
pub fn finish_part(bytes: &mut [u8], topic: u32) -> Option<Rest>
    ensures finished { IfSome (part_at bytes.old) (λ p.
        IsSomeAnd result (λ rest. (rest.file ≡ p.file) × (rest.line ≡ p.line)
        × (24 + rest.len ≤ length bytes.new)
        × (take rest.len (drop 24 bytes.new) ≡ stages_left topic p.payload))) }
    ensures none { part_at bytes.old ≡ None → result ≡ None }
    ensures len { length bytes.new ≡ length bytes.old }
{
    let Some(view) = decode(bytes) else {
        return None;
    };
    let file = view.file;
    let line = view.line;
    let len = view.payload.len();
    let left = finish_behind(bytes, len, topic);
    Some(Rest {
        file,
        line,
        len: left,
    })
}

/// Does the stages that are left to so many bytes behind the numbers. What is left of them, so
/// many, comes first there.
fn finish_behind(bytes: &mut [u8], len: usize, topic: u32) -> usize
    requires { 24 + len ≤ length bytes.old }
    ensures within { 24 + result ≤ length bytes.new }
    ensures left { take result (drop 24 bytes.new)
        ≡ stages_left topic (take len (drop 24 bytes.old)) }
    ensures len { length bytes.new ≡ length bytes.old }
{
    if topic == FIRST {
        redact_behind(bytes, len);
    }
    squeeze_behind(bytes, len)
}

/// Squeezes so many bytes behind the numbers. What is left of them, so many, comes first there.
fn squeeze_behind(bytes: &mut [u8], len: usize) -> usize
    requires { 24 + len ≤ length bytes.old }
    ensures within { 24 + result ≤ length bytes.new }
    ensures left { take result (drop 24 bytes.new) ≡ squeezed (take len (drop 24 bytes.old)) }
    ensures len { length bytes.new ≡ length bytes.old }
{
    squeeze(&mut bytes[HEADER..HEADER + len])
}
