//! Blocks of a worker's own answers, and room for one more in the last of them.
ghost use Rattle.std.specs.Prelude.{◌≡◌, ◌+◌, ◌≤◌, ◌++◌, ◌∷◌, [], List, length, vec_capacity, IfOk};
ghost use Rattle.std.specs.Prelude.{OnOk, OnErr};
ghost use Rattle.scq_collect.specs.InBlocks.{AreInBlocks};
ghost use Rattle.scq_collect.specs.Joined.{PartAnswer};

use crate::coding::{PartView, push_answer};
use crate::spans::{NONE, Span, place_at};
use scq_word::NoMemory;
use std::alloc::Global;
use std::mem;

/// How many bytes a block has at least, and at most unless it is for one long answer.
const LEAST: usize = 256;

const MOST: usize = 1 << 16;

/// The bytes of answers, and a span in which the messages of all of them stand.
#[derive(Drop)]
pub struct OwnBlock {
    pub bytes: Vec<u8>,
    pub span: Span,
}

impl OwnBlock {
    ghost use Rattle.std.specs.Prelude.{◌≡◌, ◌++◌, ◌∷◌, [], ◌+◌, ◌≤◌, List, length, vec_capacity};
    ghost use Rattle.scq_collect.specs.Coding.{IsCodable};
    ghost use Rattle.scq_collect.specs.InBlocks.{HasAnswers, last_position};
    ghost use Rattle.scq_collect.specs.Joined.{PartAnswer};
    ghost use Rattle.scq_collect.specs.PartViews.{viewed_answer};

    /// No answers yet. It takes no memory.
    pub fn new(alloc: Global) -> OwnBlock
        ensures { HasAnswers result [] }
    {
        OwnBlock {
            bytes: Vec::new(alloc),
            span: NONE,
        }
    }

    /// Adds an answer that comes behind one to this file and line, where there is room.
    pub fn push(&mut self, before: (u32, u32), answer: PartView<'_>)
        requires room { length self.old.bytes.items + 63 + length answer.text.now
            ≤ vec_capacity self.old.bytes }
        ensures pushed { (answers : List PartAnswer) → HasAnswers self.old answers
            → before ≡ last_position (0, 0) answers
            → HasAnswers self.new (answers ++ viewed_answer answer.entry ∷ []) }
        ensures codable { IsCodable (viewed_answer answer.entry) }
    {
        push_answer(&mut self.bytes, before, answer);
        self.span = self.span.and(place_at(answer.file, answer.line));
    }
}

/// Sees to it that the last block has room for so many bytes, where need be by a new block behind
/// it, and answers behind which file and line its next answer comes.
pub fn make_room(
    alloc: Global,
    full: &mut Vec<OwnBlock>,
    block: &mut OwnBlock,
    before: (u32, u32),
    bytes: usize,
) -> Result<(u32, u32), NoMemory>
    ensures room { OnOk result
        (length block.new.bytes.items + bytes ≤ vec_capacity block.new.bytes) }
    ensures held { (answers : List PartAnswer)
        → AreInBlocks full.old.items block.old before answers
        → IfOk result (λ now. AreInBlocks full.new.items block.new now answers) }
    ensures full { OnErr result (full.new.items ≡ full.old.items) }
    ensures block { OnErr result (block.new ≡ block.old) }
{
    if bytes <= block.bytes.capacity() - block.bytes.len() {
        return Ok(before);
    }
    begin_block(alloc, full, block, bytes)?;
    Ok((0, 0))
}

/// Begins a block with room for so many bytes: twice as large as the last, up to the most that a
/// block has.
fn begin_block(
    alloc: Global,
    full: &mut Vec<OwnBlock>,
    block: &mut OwnBlock,
    bytes: usize,
) -> Result<(), NoMemory>
    ensures room { OnOk result (bytes ≤ vec_capacity block.new.bytes) }
    ensures begun { OnOk result (block.new.bytes.items ≡ []) }
    ensures kept { OnOk result (full.new.items ≡ full.old.items ++ block.old ∷ []) }
    ensures full { OnErr result (full.new.items ≡ full.old.items) }
    ensures block { OnErr result (block.new ≡ block.old) }
{
    let size = block.bytes.capacity().saturating_mul(2).clamp(LEAST, MOST);
    let new = OwnBlock {
        bytes: Vec::with_capacity(alloc, size.max(bytes))?,
        span: NONE,
    };
    full.reserve(1)?;
    full.push_reserved(mem::replace(block, new));
    Ok(())
}
