//! The texts of answers span by span, several spans one after the other by each of several threads.
ghost use Rattle.std.specs.Prelude.{◌≡◌, ◌<◌, ◌≤◌, List, length, map, flat_map};
ghost use Rattle.std.specs.Prelude.{slice_index_or, IfOk, IsTrue};
ghost use Rattle.std.specs.List.{All};
ghost use Rattle.scq_collect.specs.declared.answered.Answered.{Answered};
ghost use Rattle.scq_collect.specs.Joined.{BeginsMessage, PartAnswer, without_way};
ghost use Rattle.scq_collect.specs.Laid.{AreLaid};
ghost use Rattle.scq_collect.specs.Pieces.{AreMadeOf, AreOfMembers, IsMadeOf};
ghost use Rattle.scq_collect.specs.Spans.{AreNext};
ghost use Rattle.scq_collect.specs.Spots.{plain};

use crate::laid::Block;
use crate::messages::begins_message;
use crate::ordering::take_spots;
use crate::pieces::Piece;
use crate::spans::{ALL, Span};
use crate::spots::Spot;
use crate::totals::Totals;
use scq_topics::Topics;
use scq_word::NoMemory;
use std::alloc::Global;
use std::thread;
use std::thread::Threads;

/// A piece, how many parts it was made of, and whether a message begins with the first part of each
/// span in it.
#[derive(Drop)]
pub struct Stretch {
    pub piece: Piece,
    pub parts: usize,
    pub whole: bool,
}

/// Answers that lie in blocks, and what their topics are.
#[derive(Clone, Copy)]
struct InBlocks<'a> {
    alloc: Global,
    topics: &'a Topics,
    blocks: &'a [Block<'a>],
}

/// The stretches of these cuts. Where a cut would part a message, of which no part 1 is there, all
/// is one stretch of one span.
pub fn stretches_in_order<R: Threads + Sync>(
    rt: &R,
    alloc: Global,
    topics: &Topics,
    blocks: &[Block<'_>],
    cuts: &[&[Span]],
) -> Result<Vec<Result<Stretch, NoMemory>>, NoMemory>
    requires topics { length topics.now ≤ 16 }
    requires known { (answers : List PartAnswer) × AreLaid answers blocks.now
        × All (λ a. a.topic ≤ length topics.now) answers }
    requires all { AreNext 0 (flat_map (λ cut. cut.now) cuts.now) }
    ensures { (members : List Answered) → AreLaid (map without_way members) blocks.now
        → IfOk result (λ made. AreOfMembers topics.now members made.items) }
{
    let answers = InBlocks {
        alloc,
        topics,
        blocks,
    };
    let made = stretches_of(rt, &answers, cuts)?;
    if are_whole(made.as_slice()) {
        return Ok(made);
    }
    stretches_of(rt, &answers, &[&[ALL]])
}

/// Whether a message begins with the first part of each span of those that were made.
fn are_whole(made: &[Result<Stretch, NoMemory>]) -> bool
    ensures { IsTrue result → All (λ s. IfOk s (λ s. IsTrue s.whole)) made.now }
{
    let mut at = 0;
    'each: while at < made.len() {
        if !is_whole(&made[at]) {
            return false;
        }
        at += 1;
    }
    true
}

fn is_whole(made: &Result<Stretch, NoMemory>) -> bool
    ensures { IsTrue result → IfOk made.now (λ s. IsTrue s.whole) }
{
    match made {
        Ok(stretch) => stretch.whole,
        Err(_) => true,
    }
}

/// The stretches of these cuts, each made by a thread of its own.
fn stretches_of<R: Threads + Sync>(
    rt: &R,
    given: &InBlocks<'_>,
    cuts: &[&[Span]],
) -> Result<Vec<Result<Stretch, NoMemory>>, NoMemory>
    requires topics { length given.now.topics.now ≤ 16 }
    requires known { (answers : List PartAnswer) × AreLaid answers given.now.blocks.now
        × All (λ a. a.topic ≤ length given.now.topics.now) answers }
    ensures { (answers : List PartAnswer) → AreLaid answers given.now.blocks.now
        → IfOk result (λ made. AreMadeOf given.now.topics.now answers
        (map (λ cut. cut.now) cuts.now) made.items) }
{
    let stretch = |n: usize| -> Result<Stretch, NoMemory>
        requires { (n < length cuts.now) × (length given.now.topics.now ≤ 16)
            × ((answers : List PartAnswer) × AreLaid answers given.now.blocks.now
            × All (λ a. a.topic ≤ length given.now.topics.now) answers) }
        ensures { (answers : List PartAnswer) (d : _) → AreLaid answers given.entry.now.blocks.now
            → IfOk result (λ s. IsMadeOf given.entry.now.topics.now answers
            (slice_index_or cuts.entry.now n d).now s) }
    { stretch_of(given, cuts[n]) };
    let made = thread::map_indices(rt, given.alloc, cuts.len(), &stretch)?;
    Ok(made)
}

/// Whether a message began with the first part of each span so far, and does so with these parts.
fn is_still_whole(so_far: bool, spots: &[Spot<'_>]) -> bool
    ensures { IsTrue result → IsTrue so_far × BeginsMessage (plain spots.now) }
{
    so_far && begins_message(spots)
}

impl Stretch {
    ghost use Rattle.std.specs.Prelude.{◌^◌, ◌++◌, OnOk};
    ghost use Rattle.scq_collect.specs.Joined.{answers_of};
    ghost use Rattle.scq_collect.specs.Output.{Answer};
    ghost use Rattle.scq_collect.specs.Pieces.{IsStretchOf};
    ghost use Rattle.scq_collect.specs.Spots.{spot_answer};

    /// Adds the lines for the messages of the parts of one span more.
    fn add(&mut self, alloc: Global, topics: &Topics, spots: &[Spot<'_>]) -> Result<(), NoMemory>
        requires few { length topics.now ≤ 16 }
        requires known { All (λ s. (spot_answer s).topic ≤ length topics.now) spots.now }
        requires room { (answers : List Answer) × IsStretchOf topics.now answers self.old }
        ensures added { (answers : List Answer) → IsStretchOf topics.now answers self.old
            → OnOk result (IsStretchOf topics.now
            (answers ++ answers_of topics.now (plain spots.now)) self.new) }
        ensures whole { OnOk result (IsTrue self.new.whole
            → IsTrue self.old.whole × BeginsMessage (plain spots.now)) }
    {
        let parts = self.parts.checked_add(spots.len()).ok_or(NoMemory)?;
        self.parts = parts;
        self.whole = is_still_whole(self.whole, spots);
        self.piece.push_messages(alloc, topics, spots)?;
        Ok(())
    }
}

/// The stretch of these spans: their parts are put in order span by span.
fn stretch_of(given: &InBlocks<'_>, spans: &[Span]) -> Result<Stretch, NoMemory>
    requires topics { length given.now.topics.now ≤ 16 }
    requires known { (answers : List PartAnswer) × AreLaid answers given.now.blocks.now
        × All (λ a. a.topic ≤ length given.now.topics.now) answers }
    ensures { (answers : List PartAnswer) → AreLaid answers given.now.blocks.now
        → IfOk result (IsMadeOf given.now.topics.now answers spans.now) }
{
    let mut stretch = Stretch {
        piece: Piece {
            text: Vec::new(given.alloc),
            totals: Totals::none(),
        },
        parts: 0,
        whole: true,
    };
    let mut spots = Vec::new(given.alloc);
    'each: for span in spans {
        take_spots(given.blocks, span, &mut spots)?;
        stretch.add(given.alloc, given.topics, spots.as_slice())?;
    }
    Ok(stretch)
}
