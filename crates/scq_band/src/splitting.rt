//! A table begins with one token, in whose view all seats stand. They are split off one by one.
ghost use Rattle.std.specs.Prelude.{◌≡◌, ℕ, suc, ◌+◌, ◌<◌, ◌≤◌, [], All, length, vec_len};
ghost use Rattle.std.specs.Prelude.{vec_capacity};
ghost use Rattle.scq_band.specs.Sights.{first_sight};
ghost use Rattle.scq_band.specs.Standing.{first_standing, first_standings};
ghost use Rattle.scq_band.specs.Kept.{identity_of};
ghost use Rattle.scq_band.specs.Making.{IsRoom, sight_below};

use crate::making::Room;
use crate::rule::{Key, Token, Words};
use crate::seat::Seat;
use crate::view::View;
use atomic_table::Split;
use scq_word::Buffer;
use std::snapshot::Snapshot;

/// How a view is split for a seat: the first seat that stands in it goes, the others stay.
pub struct Peels {}

impl Split<View> for Peels {
    ghost use Rattle.scq_band.specs.Sights.{others_sight, first_sight_of};

    ghost left = { others_sight };

    ghost right = { first_sight_of };
}

// Splits a seat off, and gives it its room.
fn peel<B: Buffer>(words: &Words<B>, rest: &mut Token<B>, key: &Key<B>, room: Room) -> Seat<B>
    requires own { (rest.old.table_id ≡ words.now.table_id) × (words.now.key ≡ key.now) }
    requires words { 0 < words.now.table_id.words }
    requires some { (k : ℕ) × (rest.old.me.0 ≡ sight_below key.now.setup (suc k)) }
    requires room { IsRoom key.now.setup room }
    ensures own { rest.new.table_id ≡ rest.old.table_id }
    ensures peeled { (k : ℕ) → rest.old.me.0 ≡ sight_below key.now.setup (suc k)
        → (rest.new.me.0 ≡ sight_below key.now.setup k)
        × (result ≡ first_standing (identity_of words.now.table_id key.now) k) }
{
    let Room { held, numbers } = room;
    Seat {
        token: words.split_seat::<Peels>(rest),
        key: Snapshot::of(key),
        held,
        numbers,
        spent: None,
    }
}

/// All seats, in the order of their numbers.
pub fn split_all<B: Buffer>(
    words: &Words<B>,
    mut rest: Token<B>,
    key: &Key<B>,
    mut rooms: Vec<Room>,
    mut seats: Vec<Seat<B>>,
) -> Vec<Seat<B>>
    requires own { (rest.table_id ≡ words.now.table_id) × (words.now.key ≡ key.now) }
    requires words { 0 < words.now.table_id.words }
    requires all { rest.me.0 ≡ first_sight key.now.setup }
    requires rooms { All (IsRoom key.now.setup) rooms.items }
    requires count { vec_len rooms ≡ key.now.setup.seats }
    requires empty { seats.items ≡ [] }
    requires place { vec_len seats + vec_len rooms ≤ vec_capacity seats }
    ensures { result.items
        ≡ first_standings (identity_of words.now.table_id key.now) key.now.setup.seats }
{
    while let Some(room) = rooms.pop() {
        seats.push_reserved(peel(words, &mut rest, key, room));
    }
    seats.reverse();
    seats
}
