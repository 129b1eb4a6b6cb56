//! Blocks of answers, with the places of the messages in each.
ghost use Rattle.std.specs.Prelude.{◌++◌, List, map, flat_map, IfOk, OnOk};
ghost use Rattle.std.specs.List.{All, AllZip};
ghost use Rattle.scq_collect.specs.Coding.{IsCodable};
ghost use Rattle.scq_collect.specs.InBlocks.{HasAnswers};
ghost use Rattle.scq_collect.specs.Joined.{PartAnswer, without_way};
ghost use Rattle.scq_collect.specs.Laid.{AreLaid};
ghost use Rattle.scq_collect.specs.Merging.{members_of};

use crate::Answers;
use crate::blocks::OwnBlock;
use crate::spans::Span;
use scq_word::NoMemory;
use std::alloc::Global;

/// Of how many answers one gives a sample of the places.
const SAMPLED: usize = 256;

/// A block of answers, and a span in which the messages of all of them stand.
#[derive(Clone, Copy)]
pub struct Block<'a> {
    pub bytes: &'a [u8],
    pub span: Span,
}

/// The blocks of all lists, one list behind the other, and samples of the places.
pub fn blocks_of<'a>(
    alloc: Global,
    lists: &'a [Answers],
    samples: &mut Vec<u64>,
) -> Result<Vec<Block<'a>>, NoMemory>
    ensures { IfOk result (λ blocks.
        AreLaid (map without_way (members_of lists.entry.now)) blocks.items) }
{
    let mut blocks = Vec::new(alloc);
    'lists: for list in lists {
        list.push_blocks(&mut blocks, samples)?;
    }
    Ok(blocks)
}

/// Adds these blocks.
pub fn push_blocks<'a>(full: &'a [OwnBlock], blocks: &mut Vec<Block<'a>>) -> Result<(), NoMemory>
    ensures { (members : List PartAnswer) (groups : List (List PartAnswer))
        → AreLaid members blocks.old.items → All (All IsCodable) groups
        → AllZip HasAnswers full.entry.now groups
        → OnOk result (AreLaid (members ++ flat_map (λ group. group) groups) blocks.new.items) }
{
    'each: for block in full {
        push_block(block, blocks)?;
    }
    Ok(())
}

/// Adds a block.
pub fn push_block<'a>(block: &'a OwnBlock, blocks: &mut Vec<Block<'a>>) -> Result<(), NoMemory>
    ensures { (members answers : List PartAnswer) → AreLaid members blocks.old.items
        → All IsCodable answers → HasAnswers block.entry.now answers
        → OnOk result (AreLaid (members ++ answers) blocks.new.items) }
{
    blocks.push(Block {
        bytes: block.bytes.as_slice(),
        span: block.span,
    })?;
    Ok(())
}

/// Adds the place of an answer with so many before it, where it is one of those that are sampled.
pub fn push_sample(samples: &mut Vec<u64>, place: u64, before: usize) -> Result<(), NoMemory> {
    if before % SAMPLED == 0 {
        samples.push(place)?;
    }
    Ok(())
}

/// How many bytes blocks have.
pub fn bytes_in(blocks: &[Block<'_>]) -> usize {
    let mut bytes: usize = 0;
    for block in blocks {
        bytes = bytes.saturating_add(block.bytes.len());
    }
    bytes
}
