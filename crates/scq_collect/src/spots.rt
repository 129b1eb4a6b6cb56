//! Where answers lie in blocks, and the answer that lies there.
ghost use Rattle.std.specs.Prelude.{◌≡◌, ◌<◌, ◌++◌, ◌∷◌, [], ℕ, List, Some, length, OnOk};
ghost use Rattle.std.specs.Prelude.{IfSome, IsFalse, IsTrue};
ghost use Rattle.std.specs.List.{filter};
ghost use Rattle.std.specs.Option.{option_map};
ghost use Rattle.scq_collect.specs.Coding.{IsCodable, answer_bytes};
ghost use Rattle.scq_collect.specs.Joined.{PartAnswer};
ghost use Rattle.scq_collect.specs.Laid.{AreLaid, IsBlockOf};
ghost use Rattle.scq_collect.specs.Merging.{IsBefore, IsSorted};
ghost use Rattle.scq_collect.specs.PartViews.{viewed_answer};
ghost use Rattle.scq_collect.specs.Spans.{is_in};
ghost use Rattle.scq_collect.specs.Spots.{plain, position_of_spot, spot_answer};

use crate::coding::{PartView, read_body, read_place};
use crate::laid::Block;
use crate::spans::{Span, place_at};
use scq_word::NoMemory;

/// Where an answer lies: its message's file and line and its part's number, for which nothing has
/// to be read, and the bytes from its topic on, up to the end of its block.
#[derive(Clone, Copy)]
pub struct Spot<'a> {
    pub file: u32,
    pub line: u32,
    pub part: u32,
    pub bytes: &'a [u8],
}

/// The answer that lies there.
pub fn read_spot<'a>(spot: &Spot<'a>) -> PartView<'a>
    ensures { viewed_answer result ≡ spot_answer spot.entry.now }
{
    let Spot {
        file,
        line,
        part,
        bytes,
    } = *spot;
    match read_body((file, line), bytes) {
        Some((body, _)) => PartView {
            file,
            line,
            topic: body.topic,
            part,
            parts: body.parts,
            bytes: body.bytes,
            text: body.text,
        },
        None => PartView {
            file,
            line,
            topic: 0,
            part,
            parts: 0,
            bytes: 0,
            text: &[],
        },
    }
}

/// Adds the spots of the answers in these blocks whose messages stand in this span.
pub fn push_spots<'a>(
    blocks: &[Block<'a>],
    span: &Span,
    spots: &mut Vec<Spot<'a>>,
) -> Result<(), NoMemory>
    ensures { (answers : List PartAnswer) → AreLaid answers blocks.now
        → OnOk result (plain spots.new.items
        ≡ plain spots.old.items ++ filter (is_in span.now) answers) }
{
    'each: for block in blocks {
        push_spots_of(block, span, spots)?;
    }
    Ok(())
}

/// Adds the spots of the answers in a block whose messages stand in this span.
fn push_spots_of<'a>(
    block: &Block<'a>,
    span: &Span,
    spots: &mut Vec<Spot<'a>>,
) -> Result<(), NoMemory>
    ensures { (answers : List PartAnswer) → IsBlockOf block.now answers
        → OnOk result (plain spots.new.items
        ≡ plain spots.old.items ++ filter (is_in span.now) answers) }
{
    if !block.span.meets(span) {
        return Ok(());
    }
    let mut before = (0, 0);
    let mut rest = block.bytes;
    'answers: while let Some((spot, behind)) = next_spot(before, rest) {
        push_spot(spot, span, spots)?;
        before = (spot.file, spot.line);
        rest = behind;
    }
    Ok(())
}

/// Adds the spot of an answer where its message stands in this span.
fn push_spot<'a>(spot: Spot<'a>, span: &Span, spots: &mut Vec<Spot<'a>>) -> Result<(), NoMemory>
    ensures { OnOk result (plain spots.new.items
        ≡ plain spots.old.items ++ filter (is_in span.now) (spot_answer spot.entry ∷ [])) }
{
    if span.has(place_at(spot.file, spot.line)) {
        spots.push(spot)?;
    }
    Ok(())
}

/// The spot of the answer whose bytes come first, behind one to this file and line, and the bytes
/// behind it. What `push_answer` wrote is what lies there.
pub fn next_spot(before: (u32, u32), bytes: &[u8]) -> Option<(Spot<'_>, &[u8])>
    ensures again { (answer : PartAnswer) (rest : List ℕ) → IsCodable answer
        → bytes.now ≡ answer_bytes before answer ++ rest
        → option_map {U = PartAnswer × List ℕ} (λ found. (spot_answer found.0, found.1.now)) result
        ≡ Some (answer, rest) }
    ensures shorter { IfSome result (λ found. length found.1.now < length bytes.now) }
{
    let (place, body) = read_place(before, bytes)?;
    let (answer, behind) = read_body(place, body)?;
    let spot = Spot {
        file: place.0,
        line: place.1,
        part: answer.part,
        bytes: body,
    };
    Some((spot, behind))
}

/// Whether spots stand in order of file, line and part.
pub fn are_in_order(spots: &[Spot<'_>]) -> bool
    ensures { IsTrue result → IsSorted position_of_spot spots.now }
{
    let mut at = 1;
    'spots: while at < spots.len() {
        if is_before(&spots[at], &spots[at - 1]) {
            return false;
        }
        at += 1;
    }
    true
}

fn is_before(first: &Spot<'_>, second: &Spot<'_>) -> bool
    ensures { IsFalse result
        → ¬ IsBefore (position_of_spot first.now) (position_of_spot second.now) }
{
    first.file < second.file
        || (first.file == second.file
            && (first.line < second.line
                || (first.line == second.line && first.part < second.part)))
}
