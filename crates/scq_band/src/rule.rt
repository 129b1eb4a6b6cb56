use crate::slot::Slot;
use crate::view::View;
use atomic_table::{Seat, Shared, TableRule};
use scq_word::{Buffer, Setup};
use std::snapshot::Snapshot;

/// What the table is told once, when it is made: its setup, and the buffers that it was given, that
/// of index i at i.
pub struct Key<B> {
    pub setup: Setup,
    pub given: Snapshot<Vec<B>>,
}

impl<B> Drop for Key<B> {
    fn drop(self) {
        let Key {
            setup: _,
            given: _given,
        } = self;
    }
}

/// At every moment there is one run of the machine, the steps of all seats, whose last state is
/// that of the words and the views.
pub struct Rule {}

impl<B: Buffer> TableRule<Slot<B>, View, Key<B>> for Rule {
    ghost use Rattle.scq_band.specs.Sights.{ShowsRun, first_sight};
    ghost use Rattle.scq_band.specs.Buffers.{LiesIn, opening_of};

    ghost holds = { λ key.
        ShowsRun (LiesIn B.contents B.IsSameBuffer key.given.value.items)
        (opening_of B.contents key.given.value.items) key.setup };

    ghost first = { λ key. first_sight key.setup };
}

pub type Words<B> = Shared<Slot<B>, View, Key<B>, Rule>;

pub type Token<B> = Seat<Slot<B>, View>;
