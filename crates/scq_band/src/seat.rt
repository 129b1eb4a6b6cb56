//! A seat: its token, and what it keeps beside it.
ghost use Rattle.std.specs.Prelude.{◌≡◌};

use crate::numbers::Numbers;
use crate::rule::{Key, Token};
use scq_word::Buffer;
use std::marker::Model;
use std::snapshot::Snapshot;

/// A seat of a band. One call at a time is made with it, by whichever thread has it.
///
/// `held` notes of each index whether the seat has it; `numbers` what it knows of each ring;
/// `spent` the ticket that it keeps.
#[derive(Drop)]
pub struct Seat<B: Buffer> {
    pub(crate) token: Token<B>,
    pub(crate) key: Snapshot<Key<B>>,
    pub(crate) held: Vec<bool>,
    pub(crate) numbers: Vec<Numbers>,
    pub(crate) spent: Option<u64>,
}

impl<B: Buffer> Model for Seat<B> {
    ghost use Rattle.scq_band.specs.Standing.{Standing};

    ghost Value = { Standing B };

    ghost use Rattle.scq_band.specs.Kept.{standing_of, IsKept};
    ghost use Rattle.scq_band.specs.Sights.{known_me};

    ghost view = { λ s. standing_of s.token.table_id s.key.value s.token.me };

    ghost invariant = { λ s. IsKept B.IsSameBuffer s.key.value (known_me s.token.me) s.held.items
        s.numbers.items s.spent };
}

impl<B: Buffer> Seat<B> {
    /// The ticket at or past the limit that it keeps.
    pub fn spent(&self) -> Option<u64>
        ensures { result ≡ self.now.spent }
    {
        self.spent
    }
}
