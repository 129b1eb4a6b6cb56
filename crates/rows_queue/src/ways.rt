//! The ways in which one pass of a queue tells another what it has seen, and one seat of a band
//! another.
ghost use Rattle.std.specs.Prelude.{◌≡◌, ◌≤◌, [], All, vec_len};
ghost use Rattle.scq_band.specs.Exports.{lifted_of};
ghost use Rattle.rows_queue.specs.Told.{SeatStays, PassStays};

use anyhow::{Result, anyhow};
use scq_band::{Band, Seat};
use scq_queue::{HeapBuffer, Pass, Queue};
use scq_word::BufferMut;

/// How it is told: by a note, by a mark, in a meeting of both; or not at all, where the other looks
/// for itself, or nothing is done.
#[derive(Clone, Copy)]
pub enum Way {
    Note,
    Mark,
    Meet,
    Look,
    Nothing,
}

/// The way that a row says.
pub fn way_of(text: &str) -> Result<Way> {
    Ok(match text {
        "note" => Way::Note,
        "mark" => Way::Mark,
        "meet" => Way::Meet,
        "look" => Way::Look,
        "nothing" => Way::Nothing,
        _ => return Err(anyhow!("no such way")),
    })
}

/// The first pass tells the other. A note or mark that is dropped tells nobody, and its maker may
/// learn or heed one.
pub fn tell<B: BufferMut>(queue: &Queue<B>, one: &mut Pass<B>, other: &mut Pass<B>, way: Way)
    requires one { one.old.queue ≡ queue.now }
    requires other { other.old.queue ≡ queue.now }
    ensures one { PassStays one.old one.new }
    ensures other { PassStays other.old other.new }
{
    match way {
        Way::Note => {
            let told = queue.note(one);
            let own = queue.note(one);
            let _dropped = queue.note(one);
            queue.learn(one, own);
            queue.learn(other, told);
        }
        Way::Mark => {
            let told = queue.mark(one);
            let own = queue.mark(one);
            let _dropped = queue.mark(one);
            queue.heed(one, own);
            queue.heed(other, told);
        }
        Way::Meet => queue.meet(one, other),
        Way::Look => queue.look(other),
        Way::Nothing => {}
    }
}

/// The first seat tells the other.
fn tell_seat<B: BufferMut>(band: &Band<B>, one: &mut Seat<B>, other: &mut Seat<B>, way: Way)
    requires one { one.old.band ≡ band.now }
    requires other { other.old.band ≡ band.now }
    ensures one { SeatStays one.old one.new }
    ensures other { SeatStays other.old other.new }
{
    match way {
        Way::Note => {
            let told = band.note(one);
            band.learn(other, told);
        }
        Way::Mark => {
            let told = band.mark(one);
            band.heed(other, told);
        }
        Way::Meet => band.meet(one, other),
        Way::Look => band.look(other),
        Way::Nothing => {}
    }
}

/// The seat of this number tells the last.
pub fn tell_last(
    band: &Band<HeapBuffer>,
    seats: &mut Vec<Seat<HeapBuffer>>,
    number: usize,
    way: Way,
) -> Result<()>
    requires own { All (λ s. s.band ≡ band.now) seats.old.items }
    requires laid { All (λ s. lifted_of s.hand ≡ []) seats.old.items }
    ensures own { All (λ s. s.band ≡ band.now) seats.new.items }
    ensures laid { All (λ s. lifted_of s.hand ≡ []) seats.new.items }
    ensures count { vec_len seats.new ≡ vec_len seats.old }
{
    let Some(mut last) = seats.pop() else {
        return Err(anyhow!("no seat"));
    };
    let told = number < seats.len();
    if told {
        tell_seat(band, &mut seats[number], &mut last, way);
    }
    seats.push_reserved(last);
    if told {
        Ok(())
    } else {
        Err(anyhow!("no such seat before the last"))
    }
}
