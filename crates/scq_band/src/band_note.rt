//! Notes, as callers have them: what one seat knows of the rings, carried to another.
ghost use Rattle.std.specs.Prelude.{◌≡◌, ◌<◌, ◌≤◌, length, take, vec_len, vec_capacity};
ghost use Rattle.scq_band.specs.Numbers.{raised_by};
ghost use Rattle.scq_band.specs.RunSeen.{both_seen};

use crate::badges::{learn, note};
use crate::band::Band;
use crate::numbers::Numbers;
use crate::seat::Seat;
use crate::view::View;
use atomic_table::Badge;
use scq_word::{Buffer, MOST_RINGS};
use std::marker::Model;

// A note has room for the numbers of so many rings.
const ROOM: usize = MOST_RINGS as usize;

/// What a seat knew of the rings when the note was made. It may be dropped.
#[derive(Drop)]
pub struct BandNote {
    badge: Badge<View>,
    rings: usize,
    numbers: [Numbers; ROOM],
}

impl Model for BandNote {
    ghost use Rattle.std.specs.Prelude.{take};
    ghost use Rattle.scq_band.specs.Standing.{NoteStanding};

    ghost Value = { NoteStanding };

    ghost use Rattle.scq_band.specs.Kept.{IsNote, seen_in};

    ghost view = { λ n. record {
      table = n.badge.table_id;
      numbers = take n.rings n.numbers;
      seen =
          seen_in n.badge.views;
    } };

    ghost invariant = { λ n. IsNote n.badge.views n.numbers n.rings };
}

// A copy of the numbers of each ring.
fn copied(numbers: &Vec<Numbers>) -> [Numbers; ROOM]
    requires { vec_len numbers.now ≤ ROOM }
    ensures copied { take (vec_len numbers.now) result ≡ numbers.now.items }
    ensures room { length result ≡ ROOM }
{
    let mut copy = [Numbers {
        finished: 0,
        seen: 0,
        head: 0,
    }; ROOM];
    let mut ring = 0;
    while ring < numbers.len() {
        copy[ring] = numbers[ring];
        ring += 1;
    }
    copy
}

// Raises each number to that of the other list, where that is larger.
fn join_all(numbers: &mut Vec<Numbers>, other: &[Numbers])
    ensures joined { numbers.new.items ≡ raised_by numbers.old.items other.now }
    ensures len { vec_len numbers.new ≡ vec_len numbers.old }
{
    let mut ring = 0;
    while ring < numbers.len() && ring < other.len() {
        let known = numbers[ring];
        numbers[ring] = known.larger(other[ring]);
        ring += 1;
    }
}

impl<B: Buffer> Band<B> {
    /// A note of what the seat knows. Wait-free: one step.
    pub fn note(&self, seat: &mut Seat<B>) -> BandNote
        requires seat { seat.old.band ≡ self.now }
        ensures same { seat.new ≡ seat.old }
        ensures note { (result.table ≡ self.now.table) × (result.numbers ≡ seat.old.numbers)
            × (result.seen ≡ seat.old.seen) }
    {
        let rings = seat.numbers.len();
        let numbers = copied(&seat.numbers);
        let badge = note(&self.table.shared, &mut seat.token);
        BandNote {
            badge,
            rings,
            numbers,
        }
    }

    /// From then on the seat knows the larger of each number, its own or the note's. Wait-free: one
    /// step.
    pub fn learn(&self, seat: &mut Seat<B>, note: BandNote)
        requires seat { seat.old.band ≡ self.now }
        requires note { note.table ≡ self.now.table }
        ensures { seat.new ≡ record seat.old {
          numbers = raised_by seat.old.numbers note.numbers;
          seen = both_seen seat.old.seen note.seen;
        } }
    {
        let BandNote {
            badge,
            rings,
            numbers,
        } = note;
        learn(&self.table.shared, &mut seat.token, badge);
        join_all(&mut seat.numbers, &numbers[..rings]);
    }
}
