//! Spots of answers in order of file, line and part.
ghost use Rattle.std.specs.Prelude.{List, IfOk, OnOk};
ghost use Rattle.scq_collect.specs.Exports.{PartAnswer, AreLaid, members_of, AreMerged, plain};
ghost use Rattle.scq_collect.specs.Exports.{AreAnswersIn};

use crate::Answers;
use crate::laid::{Block, blocks_of};
use crate::spans::{ALL, Span};
use crate::spots::{Spot, are_in_order, push_spots};
use scq_word::NoMemory;
use std::alloc::Global;

/// The spots of the answers of all lists, in order of file, line and part. The answers stay where
/// they lie.
pub fn spots_in_order<'a>(alloc: Global, lists: &'a [Answers]) -> Result<Vec<Spot<'a>>, NoMemory>
    ensures { IfOk result (λ spots. AreMerged (members_of lists.entry.now) spots.items) }
{
    let blocks = blocks_of(alloc, lists, &mut Vec::new(alloc))?;
    let mut spots = Vec::new(alloc);
    take_spots(blocks.as_slice(), &ALL, &mut spots)?;
    Ok(spots)
}

/// Puts the spots of the answers in these blocks whose messages stand in this span in the place of
/// those that were there, in order of file, line and part.
pub fn take_spots<'a>(
    blocks: &[Block<'a>],
    span: &Span,
    spots: &mut Vec<Spot<'a>>,
) -> Result<(), NoMemory>
    ensures { (answers : List PartAnswer) → AreLaid answers blocks.now
        → OnOk result (AreAnswersIn answers span.now (plain spots.new.items)) }
{
    spots.clear();
    push_spots(blocks, span, spots)?;
    if are_in_order(spots.as_slice()) {
        return Ok(());
    }
    spots.sort_unstable_by_key(|spot| (spot.file, spot.line, spot.part));
    Ok(())
}
