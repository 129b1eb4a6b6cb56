//! Two threads at one time on one band: whatever their steps were, each index is accounted for when
//! the band closes.
ghost use Rattle.std.specs.Prelude.{◌≡◌, ◌<◌, ◌≤◌, [], All, IfOk, vec_len};
ghost use Rattle.scq_band.specs.Exports.{lifted_of};

use crate::bands::{closed, made};
use crate::replies::show_buffers;
use anyhow::Result;
use scq_band::{Band, DeqRefusal, Seat};
use scq_queue::HeapBuffer;
use scq_word::Setup;
use std::alloc::{AllocError, Global};
use std::thread;
use std::thread::Threads;

/// What a move came to: an index got at a place and put at another, or kept since its put drew this
/// ticket; or none got.
#[derive(Drop)]
pub enum Outcome {
    Put { place: u64, index: u32, at: u64 },
    Kept { place: u64, index: u32, ticket: u64 },
    Refused(DeqRefusal),
}

/// An index goes from one ring to another, unless the first is found empty.
pub fn moved(band: &Band<HeapBuffer>, seat: &mut Seat<HeapBuffer>, from: u32, to: u32) -> Outcome
    requires seat { seat.old.band ≡ band.now }
    requires from { from < band.now.setup.rings }
    requires to { to < band.now.setup.rings }
    requires laid { lifted_of seat.old.hand ≡ [] }
    ensures seat { seat.new.band ≡ band.now }
    ensures laid { lifted_of seat.new.hand ≡ [] }
{
    match band.deq(seat, from) {
        Ok((place, index)) => match band.enq(seat, to, index) {
            Ok(at) => Outcome::Put { place, index, at },
            Err(spent) => Outcome::Kept {
                place,
                index,
                ticket: spent.ticket,
            },
        },
        Err(refusal) => match refusal {
            DeqRefusal::Empty { .. } => Outcome::Refused(refusal),
            DeqRefusal::Spent { .. } => Outcome::Refused(refusal),
        },
    }
}

/// Indices go from ring 0 to ring 1 and back.
fn circulate(band: &Band<HeapBuffer>, seat: Seat<HeapBuffer>, rounds: u32) -> Seat<HeapBuffer>
    requires seat { seat.band ≡ band.now }
    requires rings { 2 ≤ band.now.setup.rings }
    requires laid { lifted_of seat.hand ≡ [] }
    ensures seat { result.band ≡ band.now }
    ensures laid { lifted_of result.hand ≡ [] }
{
    let mut seat = seat;
    for _ in 0..rounds {
        let _there = moved(band, &mut seat, 0, 1);
        let _back = moved(band, &mut seat, 1, 0);
    }
    seat
}

/// Each seat in a thread of its own.
fn circulate_all<R: Threads + Sync>(
    rt: &R,
    band: &Band<HeapBuffer>,
    seats: Vec<Seat<HeapBuffer>>,
    rounds: u32,
) -> Result<Vec<Seat<HeapBuffer>>, AllocError>
    requires seats { All (λ s. s.band ≡ band.now) seats.items }
    requires laid { All (λ s. lifted_of s.hand ≡ []) seats.items }
    requires rings { 2 ≤ band.now.setup.rings }
    ensures seats { IfOk result (λ back. All (λ s. s.band ≡ band.now) back.items) }
    ensures laid { IfOk result (λ back. All (λ s. lifted_of s.hand ≡ []) back.items) }
    ensures len { IfOk result (λ back. vec_len back ≡ vec_len seats) }
{
    let run = |seat: Seat<HeapBuffer>| -> Seat<HeapBuffer>
        requires { (seat.band ≡ band.now) × (lifted_of seat.hand ≡ [])
            × (2 ≤ band.now.setup.rings) }
        ensures { (result.band ≡ band.entry.now) × (lifted_of result.hand ≡ []) }
    { circulate(band, seat, rounds) };
    thread::map_vec(rt, seats, &run)
}

fn sum_of(numbers: &[u64]) -> u64 {
    let mut sum = 0u64;
    for number in numbers {
        sum = sum.saturating_add(*number);
    }
    sum
}

/// Two threads move two indices so many rounds: how many the two rings have left, and the bytes of
/// both buffers.
pub fn two_threads<R: Threads + Sync>(rt: &R, alloc: Global, rounds: u32) -> Result<String> {
    let setup = Setup::new(1, 2, 2, 1 << 60)?;
    let (band, seats) = made(alloc, setup)?;
    let seats = circulate_all(rt, &band, seats, rounds)?;
    let ended = closed(alloc, band, seats);
    let mut text = format!(in alloc; "{} left,", sum_of(&ended.left))?;
    show_buffers(&mut text, &ended.buffers)?;
    Ok(text)
}
