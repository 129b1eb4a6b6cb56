//! How what one seat knows gets to another: a copy of its view lies in a badge, and is joined to
//! the other's view. No seat stands in the copy.
ghost use Rattle.std.specs.Prelude.{◌≡◌, ◌≢◌, ◌<◌, [], ◌∷◌};
ghost use Rattle.scq_band.specs.Sights.{Sight, note_sight, both_sight};
ghost use Rattle.scq_band.specs.Seats.{IsAlone};

use crate::rule::{Token, Words};
use crate::view::View;
use atomic_table::{Badge, Join, Split};
use scq_word::Buffer;

/// How a view is split for a note: it stays as it is, and what it knows is copied.
pub struct Copies {}

impl Split<View> for Copies {
    ghost left = { λ v. v };

    ghost right = { note_sight };
}

/// How two views are joined: one takes in the other.
pub struct Gathers {}

impl Join<View> for Gathers {
    ghost use Rattle.scq_band.specs.Sights.{spent_sight};

    ghost both = { both_sight };

    ghost spent = { spent_sight };
}

/// A copy of the seat's view, which has no bytes.
pub fn note<B: Buffer>(words: &Words<B>, token: &mut Token<B>) -> Badge<View>
    requires own { token.old.table_id ≡ words.now.table_id }
    requires room { 0 < words.now.table_id.words }
    ensures own { (token.new.table_id ≡ token.old.table_id) × (token.new.id ≡ token.old.id)
        × (token.new.me ≡ token.old.me) }
    ensures note { (result.table_id ≡ token.old.table_id)
        × (result.views ≡ note_sight token.old.me.0 ∷ []) }
{
    words.split_seat::<Copies>(token).into_badge()
}

/// The view of the seat takes in another's. No slot is out with that one, which is spent.
pub fn take_in<B: Buffer>(words: &Words<B>, token: &mut Token<B>, other: Token<B>)
    requires own { (token.old.table_id ≡ words.now.table_id)
        × (other.table_id ≡ words.now.table_id) }
    requires room { 0 < words.now.table_id.words }
    requires stands { token.old.me.0.known.seats ≢ [] }
    requires empty { other.me.1 ≡ [] }
    ensures own { (token.new.table_id ≡ token.old.table_id) × (token.new.id ≡ token.old.id) }
    ensures both { token.new.me ≡ (both_sight token.old.me.0 other.me.0, token.old.me.1) }
{
    words.join_seat::<Gathers>(token, other);
}

/// From then on the seat knows the larger of each number.
pub fn learn<B: Buffer>(words: &Words<B>, token: &mut Token<B>, note: Badge<View>)
    requires own { (token.old.table_id ≡ words.now.table_id)
        × (note.table_id ≡ words.now.table_id) }
    requires room { 0 < words.now.table_id.words }
    requires alone { IsAlone token.old.me.0.known }
    requires note { (v : Sight) × (note.views ≡ v ∷ []) }
    ensures own { (token.new.table_id ≡ token.old.table_id) × (token.new.id ≡ token.old.id) }
    ensures learned { (v : Sight) → note.views ≡ v ∷ []
        → token.new.me ≡ (both_sight token.old.me.0 v, token.old.me.1) }
{
    take_in(words, token, note.into_seat());
}
