//! The two stages on a value that a worker holds.
ghost use Rattle.std.specs.Prelude.{◌≡◌, ◌+◌, ◌≤◌, true, false, None, length, take, drop, IfSome};
ghost use Rattle.std.specs.Prelude.{IsSomeAnd};
ghost use Rattle.scq_frames.specs.Exports.{BeginsWith, part_at};
ghost use Rattle.scq_stages.specs.Exports.{redacted, stages_left, after_stage};

use crate::handling::{Rest, finish_part, redact_part};
use scq_queue::Held;
use scq_word::BufferMut;

/// Redacts the part that comes first. Whether there is one.
pub fn redact_in<B: BufferMut>(held: &mut Held<B>) -> bool
    ensures redacted { IfSome (part_at (B.contents held.old.buffer))
        (λ p. (result ≡ true) × BeginsWith (B.contents held.new.buffer) (after_stage redacted p)) }
    ensures none { part_at (B.contents held.old.buffer) ≡ None → result ≡ false }
    ensures same { (held.new.index ≡ held.old.index) × (held.new.queue ≡ held.old.queue)
        × (held.new.pass ≡ held.old.pass) }
{
    redact_part(held.bytes_mut())
}

/// Does the stages that are left to the part that comes first, where it was taken from this topic.
/// What is left of its bytes comes first behind its numbers.
pub fn finish_in<B: BufferMut>(held: &mut Held<B>, topic: u32) -> Option<Rest>
    ensures finished { IfSome (part_at (B.contents held.old.buffer)) (λ p.
        IsSomeAnd result (λ rest. (rest.file ≡ p.file) × (rest.line ≡ p.line)
        × (24 + rest.len ≤ length (B.contents held.new.buffer))
        × (take rest.len (drop 24 (B.contents held.new.buffer)) ≡ stages_left topic p.payload))) }
    ensures none { part_at (B.contents held.old.buffer) ≡ None → result ≡ None }
    ensures same { (held.new.index ≡ held.old.index) × (held.new.queue ≡ held.old.queue)
        × (held.new.pass ≡ held.old.pass) }
{
    finish_part(held.bytes_mut(), topic)
}
