//! One step of a seat, on the rings and the seat's part: the step table as running code.

ghost use Rattle.std.specs.Prelude.{◌≡◌, ◌↔◌, Some, None, Err, OnOk, OnErr};
ghost use Rattle.scq_core.specs.declared.phase.Phase.{Phase};
ghost use Rattle.scq_core.specs.Table.{turn_of};
ghost use Rattle.scq_core.specs.StateLists.{HasRings};
ghost use Rattle.scq_core.specs.Advance.{CanTurn, WantsMemory, Advances};

use crate::ring::Ring;
use crate::seat::Seat;
use crate::step::Step;
use crate::table::{cell_of, ring_of, written};
use crate::turn::{copied, started};
use scq_word::{NoMemory, Setup};
use thiserror::Error;

/// Why a step was not made: no line of the table allows it, or memory was wanted.
#[derive(Clone, Copy, Debug, PartialEq, Eq, Error)]
pub enum ApplyFault {
    #[error("the step is not enabled")]
    NotEnabled,
    #[error("out of memory")]
    NoMemory,
}

impl From<NoMemory> for ApplyFault {
    ghost use Rattle.scq_core.specs.declared.advance.ApplyFault.TheVariants.{NoMemory as Wanted};

    ghost from_gives = { λ _ fault. fault ≡ Wanted };

    fn from(_: NoMemory) -> ApplyFault {
        ApplyFault::NoMemory
    }
}

/// One step of a seat: the one word that it reads, what becomes of the seat, and what is written
/// there. What can fail comes before the first change.
pub fn advance(
    setup: &Setup,
    rings: &mut Vec<Ring>,
    seat: &mut Seat,
    step: &Step,
) -> Result<(), ApplyFault>
    requires rings { HasRings setup.now rings.old.items }
    requires ready { (turn : Phase) → turn_of setup.now seat.old step.now ≡ Some turn
        → CanTurn setup.now rings.old.items turn }
    ensures ok { OnOk result
        (Advances setup.now step.now rings.old.items seat.old rings.new.items seat.new) }
    ensures not_enabled { (result ≡ Err ApplyFault.NotEnabled)
        ↔ (turn_of setup.now seat.old step.now ≡ None) }
    ensures no_memory { (result ≡ Err ApplyFault.NoMemory)
        → WantsMemory setup.now seat.old step.now rings.old.items }
    ensures err { OnErr result ((rings.new.items ≡ rings.old.items) × (seat.new ≡ seat.old)) }
{
    if !seat.allows(setup, step) {
        return Err(ApplyFault::NotEnabled);
    }
    let alloc = *rings.allocator();
    let started = started(alloc, step)?;
    let turn = seat.turn(&started);
    let index = ring_of(turn) as usize;
    let ring = &rings[index];
    let cell = cell_of(setup, turn);
    let copy = copied(alloc, turn, ring.beside(cell))?;
    let found = ring.read(cell);
    let word = written(setup, turn, found);
    let laid = seat.proceed(setup, started, found, copy)?;
    rings[index].write(cell, word, laid);
    Ok(())
}
