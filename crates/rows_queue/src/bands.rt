//! Bands that are made and closed, and a buffer that is lifted, laid and put.
ghost use Rattle.std.specs.Prelude.{◌≡◌, ◌≤◌, [], All, IfOk, vec_len};
ghost use Rattle.scq_band.specs.Exports.{lifted_of};

use anyhow::{Context, Result, anyhow, ensure};
use scq_band::{Band, BandClosed, Seat};
use scq_queue::HeapBuffer;
use scq_word::{BufferMut, BufferRef, Setup};
use std::alloc::Global;

/// A buffer of one byte.
fn filled(alloc: Global, byte: u8) -> Result<HeapBuffer> {
    let mut buffer = HeapBuffer::new(alloc, 1)?;
    buffer.bytes_mut().fill(byte);
    Ok(buffer)
}

/// Buffers of one byte each, a, b and so on.
fn buffers_of(alloc: Global, n: u32) -> Result<Vec<HeapBuffer>> {
    let mut buffers = Vec::new(alloc);
    for index in 0..n {
        buffers.push(filled(alloc, 97 + (index % 26) as u8)?)?;
    }
    Ok(buffers)
}

/// A band of this setup with buffers of one byte each, a, b and so on; and its seats, none of which
/// has lifted a buffer.
pub fn made(alloc: Global, setup: Setup) -> Result<(Band<HeapBuffer>, Vec<Seat<HeapBuffer>>)>
    ensures setup { IfOk result (λ made. made.0.setup ≡ setup) }
    ensures own { IfOk result (λ made. All (λ s. s.band ≡ made.0) made.1.items) }
    ensures laid { IfOk result (λ made. All (λ s. lifted_of s.hand ≡ []) made.1.items) }
    ensures count { IfOk result (λ made. vec_len made.1 ≡ setup.seats) }
{
    let n = setup.shape().n();
    let buffers = buffers_of(alloc, n)?;
    ensure!(
        buffers.len() == n as usize,
        "not as many buffers as indices"
    );
    match Band::make(alloc, setup, buffers) {
        Ok(made) => Ok(made),
        Err(_) => Err(anyhow!("no memory")),
    }
}

/// Closes a band of which no buffer is lifted.
pub fn closed(
    alloc: Global,
    band: Band<HeapBuffer>,
    seats: Vec<Seat<HeapBuffer>>,
) -> BandClosed<HeapBuffer>
    requires own { All (λ s. s.band ≡ band) seats.items }
    requires laid { All (λ s. lifted_of s.hand ≡ []) seats.items }
    requires count { vec_len seats ≡ band.setup.seats }
{
    let none: Vec<(u32, HeapBuffer)> = Vec::new(alloc);
    band.close(seats, none)
}

/// The seat carries an index from ring 0 to ring 1, with its buffer lifted and laid on the way, and
/// lifted and put: the place and the index got, the buffer's byte, and the place at which it was
/// put.
fn carried(
    band: &Band<HeapBuffer>,
    seat: &mut Seat<HeapBuffer>,
) -> Option<(u64, u32, Option<u8>, u64)>
    requires seat { seat.old.band ≡ band.now }
    requires rings { 2 ≤ band.now.setup.rings }
{
    let Ok((place, index)) = band.deq(seat, 0) else {
        return None;
    };
    let buffer = band.lift(seat, index);
    band.lay(seat, index, buffer);
    let again = band.lift(seat, index);
    let byte = again.bytes().first().copied();
    let Ok(put) = band.put(seat, 1, index, again) else {
        return None;
    };
    Some((place, index, byte, put))
}

/// What the one seat of a new band carries.
fn carried_by_one(alloc: Global) -> Result<Option<(u64, u32, Option<u8>, u64)>> {
    let setup = Setup::new(1, 2, 1, 16)?;
    let (band, mut seats) = made(alloc, setup)?;
    Ok(carried(&band, &mut seats[0]))
}

/// Adds what the one seat of a new band carries.
pub fn lifted(alloc: Global, into: &mut String) -> Result<()> {
    let (place, index, byte, put) = carried_by_one(alloc)?.context("nothing was carried")?;
    Ok(write!(into, "{place} {index} {byte:?} {put}")?)
}
