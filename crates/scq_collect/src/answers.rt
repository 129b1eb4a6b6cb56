//! A worker's answers, in blocks of bytes that never move.
ghost use Rattle.std.specs.Prelude.{◌≡◌, ◌++◌, ◌∷◌, [], OnOk, OnErr, not, if◌then◌else◌};
ghost use Rattle.scq_collect.specs.Ways.{is_way_taken};

use crate::Way;
use crate::blocks::{OwnBlock, make_room};
use crate::coding::MOST_HEAD;
use crate::laid::{Block, push_block, push_blocks, push_sample};
use crate::log::{Given, Log};
use crate::spans::place_at;
use scq_word::NoMemory;
use std::alloc::Global;
use std::marker::Model;

/// How many direct answers one that was come by in this way is.
fn directs(way: Way) -> usize
    ensures { result ≡ if not (is_way_taken way) then 1 else 0 }
{
    match way {
        Way::Taken { .. } => 0,
        Way::Direct { .. } => 1,
    }
}

/// The answers that a worker gave, in their order. Contracts see them as a list, each with the way
/// in which the worker came to it; of the ways only how many are direct is kept when the program
/// runs. An answer takes some bytes beside its text: 5 where its message stands close behind that
/// of the answer before it, and its numbers are small.
#[derive(Drop)]
pub struct Answers {
    alloc: Global,
    full: Vec<OwnBlock>,
    block: OwnBlock,
    before: (u32, u32),
    count: usize,
    direct: usize,
    samples: Vec<u64>,
    log: Log,
}

impl Model for Answers {
    ghost use Rattle.std.specs.Prelude.{◌≡◌, List, length, filter, map};
    ghost use Rattle.scq_collect.specs.declared.answered.Answered.{Answered};
    ghost use Rattle.scq_collect.specs.InBlocks.{AreInBlocks};
    ghost use Rattle.scq_collect.specs.Joined.{without_way};
    ghost use Rattle.scq_collect.specs.Ways.{is_direct};

    ghost Value = { List Answered };

    ghost view = { λ s. s.log.items };

    ghost invariant = { λ s. AreInBlocks s.full.items s.block s.before (map without_way s.log.items)
        × (s.count ≡ length s.log.items)
        × (s.direct ≡ length (filter is_direct s.log.items)) };
}

impl Answers {
    ghost use Rattle.std.specs.Prelude.{List, length, filter, map};
    ghost use Rattle.scq_collect.specs.GivenAnswers.{given_answer};
    ghost use Rattle.scq_collect.specs.Joined.{PartAnswer, without_way};
    ghost use Rattle.scq_collect.specs.Laid.{AreLaid};
    ghost use Rattle.scq_collect.specs.Ways.{is_direct};

    /// No answers yet. It takes no memory.
    pub fn new(alloc: Global) -> Answers
        ensures { result ≡ [] }
    {
        Answers {
            alloc,
            full: Vec::new(alloc),
            block: OwnBlock::new(alloc),
            before: (0, 0),
            count: 0,
            direct: 0,
            samples: Vec::new(alloc),
            log: Log::new(),
        }
    }

    /// Adds an answer behind the others. Where memory is wanted they stay as they were.
    pub fn push(&mut self, given: Given<'_>) -> Result<(), NoMemory>
        ensures pushed { OnOk result (self.new ≡ self.old ++ given_answer given.entry ∷ []) }
        ensures kept { OnErr result (self.new ≡ self.old) }
    {
        let answer = given.answer;
        let count = self.count.checked_add(1).ok_or(NoMemory)?;
        let more = directs(given.way);
        let direct = self.direct.checked_add(more).ok_or(NoMemory)?;
        let bytes = answer.text.len().checked_add(MOST_HEAD).ok_or(NoMemory)?;
        push_sample(
            &mut self.samples,
            place_at(answer.file, answer.line),
            self.count,
        )?;
        let before = make_room(
            self.alloc,
            &mut self.full,
            &mut self.block,
            self.before,
            bytes,
        )?;
        self.block.push(before, answer);
        self.before = (answer.file, answer.line);
        self.count = count;
        self.direct = direct;
        self.log = self.log.and(&given);
        Ok(())
    }

    /// How many answers there are.
    pub fn len(&self) -> usize
        ensures { result ≡ length self.now }
    {
        self.count
    }

    /// How many of them were answered directly.
    pub fn direct(&self) -> usize
        ensures { result ≡ length (filter is_direct self.now) }
    {
        self.direct
    }

    /// Adds the blocks in which they lie, and samples of the places of their messages.
    pub(crate) fn push_blocks<'a>(
        &'a self,
        blocks: &mut Vec<Block<'a>>,
        samples: &mut Vec<u64>,
    ) -> Result<(), NoMemory>
        ensures { (answers : List PartAnswer) → AreLaid answers blocks.old.items
            → OnOk result (AreLaid (answers ++ map without_way self.entry.now) blocks.new.items) }
    {
        samples.extend_from_slice(self.samples.as_slice())?;
        push_blocks(self.full.as_slice(), blocks)?;
        push_block(&self.block, blocks)
    }
}
