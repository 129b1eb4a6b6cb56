//! The turn of a step that begins a call, and the content that a turn copies.

ghost use Rattle.std.specs.Prelude.{◌≡◌, true, List, IfOk, OnErr};
ghost use Rattle.scq_core.specs.Exports.{started, copied, needs_copy, copies_content};

use crate::phase::Phase;
use crate::step::Step;
use scq_word::{Bytes, NoMemory};
use std::alloc::Global;

/// The turn of a step that begins a call, with a copy of the put's content.
pub fn started(alloc: Global, step: &Step) -> Result<Option<Phase>, NoMemory>
    ensures ok { IfOk result (λ turn. turn ≡ started step.now) }
    ensures err { OnErr result (copies_content step.now ≡ true) }
{
    match step {
        Step::E1 {
            ring,
            index,
            content,
        } => Ok(Some(Phase::AtE1 {
            ring: *ring,
            index: *index,
            content: Bytes::copy_of(alloc, content.bytes())?,
            least: 0,
        })),
        Step::D1 { ring } => Ok(Some(Phase::AtD1 { ring: *ring })),
        _ => Ok(None),
    }
}

/// A copy of the content that a turn may need twice: a put's own where it may place it, and the one
/// beside the entry where it is taken.
pub fn copied(alloc: Global, turn: &Phase, beside: &[u8]) -> Result<Bytes, NoMemory>
    ensures ok { IfOk result (λ copy. copy ≡ copied turn.now beside.now) }
    ensures err { OnErr result (needs_copy turn.now ≡ true) }
{
    match turn {
        Phase::AtE4 { content, .. } => Bytes::copy_of(alloc, content.bytes()),
        Phase::AtD4 { .. } => Bytes::copy_of(alloc, beside),
        _ => Ok(Bytes::from(Vec::new(alloc))),
    }
}
