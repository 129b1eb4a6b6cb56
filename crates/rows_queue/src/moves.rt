//! Moves of indices between the rings of a band.
ghost use Rattle.std.specs.Prelude.{◌≡◌, [], All, vec_len};
ghost use Rattle.scq_band.specs.Exports.{lifted_of};

use crate::bands::{closed, made};
use crate::replies::show_rest;
use crate::threads::{Outcome, moved};
use crate::ways::{tell_last, way_of};
use anyhow::{Result, ensure};
use rows_text::field;
use scq_band::{Band, BandClosed, DeqRefusal, Seat};
use scq_queue::HeapBuffer;
use scq_word::Setup;
use std::alloc::{AllocError, Global};

/// Adds the reply to a move.
fn tell(into: &mut String, moved: Outcome) -> Result<(), AllocError> {
    match moved {
        Outcome::Put { place, index, at } => write!(into, "{place} {index} {at};"),
        Outcome::Kept {
            place,
            index,
            ticket,
        } => write!(into, "{place} {index} spent {ticket};"),
        Outcome::Refused(refusal) => tell_refusal(into, refusal),
    }
}

fn tell_refusal(into: &mut String, refusal: DeqRefusal) -> Result<(), AllocError> {
    match refusal {
        DeqRefusal::Empty { head } => write!(into, "empty {head};"),
        DeqRefusal::Spent { ticket } => write!(into, "spent {ticket};"),
    }
}

/// A number of a text. Where there is none this is the greatest, and no seat or ring has that.
fn number(text: &str, at: usize) -> u32 {
    field(text, at).parse().unwrap_or(u32::MAX)
}

/// A setup, as a row says it.
fn setup_in(text: &str) -> Result<Setup> {
    let limit = field(text, 3).parse::<u64>()?;
    let setup = Setup::new(number(text, 0), number(text, 1), number(text, 2), limit)?;
    Ok(setup)
}

/// Adds the replies to moves. The last seat is told by another between them, as in `mark from 0`.
fn replies(
    into: &mut String,
    band: &Band<HeapBuffer>,
    seats: &mut Vec<Seat<HeapBuffer>>,
    rings: u32,
    moves: &str,
) -> Result<()>
    requires rings { band.now.setup.rings ≡ rings }
    requires own { All (λ s. s.band ≡ band.now) seats.old.items }
    requires laid { All (λ s. lifted_of s.hand ≡ []) seats.old.items }
    ensures own { All (λ s. s.band ≡ band.now) seats.new.items }
    ensures laid { All (λ s. lifted_of s.hand ≡ []) seats.new.items }
    ensures count { vec_len seats.new ≡ vec_len seats.old }
{
    if moves.is_empty() {
        return Ok(());
    }
    for text in moves.split("; ") {
        if let Some((way, seat)) = text.split_once(" from ") {
            tell_last(band, seats, number(seat, 0) as usize, way_of(way)?)?;
        } else {
            let (seat, from, to) = (number(text, 0) as usize, number(text, 1), number(text, 2));
            ensure!(
                seat < seats.len() && from < rings && to < rings,
                "no such seat or ring"
            );
            tell(into, moved(band, &mut seats[seat], from, to))?;
        }
    }
    Ok(())
}

/// Adds the replies to moves in a new band, and closes it.
fn closed_after(
    alloc: Global,
    into: &mut String,
    setup: Setup,
    moves: &str,
) -> Result<BandClosed<HeapBuffer>> {
    let (band, mut seats) = made(alloc, setup)?;
    let said = replies(into, &band, &mut seats, setup.rings(), moves);
    let ended = closed(alloc, band, seats);
    said?;
    Ok(ended)
}

/// `ORDER RINGS SEATS LIMIT; SEAT FROM TO; WAY from SEAT; ..`: for each move the place that the
/// index was got at, the index, and the place at which it was put; or the head of an Empty, or the
/// ticket of a Spent; and what the band closed with.
pub fn moves(alloc: Global, into: &mut String, given: &str) -> Result<()> {
    let (setup, moves) = given.split_once("; ").unwrap_or((given, ""));
    let ended = closed_after(alloc, into, setup_in(setup)?, moves)?;
    Ok(show_rest(into, &ended.left, &ended.buffers)?)
}
