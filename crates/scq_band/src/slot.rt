//! A slot of the table.
ghost use Rattle.std.specs.Prelude.{◌≡◌, Some, None, is_none};

use scq_word::Buffer;
use std::marker::Model;

/// A buffer whose place tells whether there is none in it.
pub trait TellsHoles: Buffer {
    fn is_hole(place: &Self::Place) -> bool
        ensures { result ≡ is_none (Self.laid place.now) };
}

/// What stands in a slot of the table: the buffer of the slot's index, or none while that is
/// lifted.
#[derive(Drop)]
pub struct Slot<B: Buffer> {
    pub(crate) place: B::Place,
}

impl<B: Buffer> Model for Slot<B> {
    ghost use Rattle.scq_band.specs.Slots.{SlotStanding};

    ghost Value = { SlotStanding B };

    ghost view = { λ s. record { buffer = B.laid s.place } };
}

impl<B: Buffer> Slot<B> {
    /// A slot with nothing in it.
    #[inline(always)]
    pub(crate) fn hole() -> Slot<B>
        ensures { result ≡ record { buffer = None } }
    {
        Slot { place: B::hole() }
    }

    /// A slot with a buffer in it.
    #[inline(always)]
    pub(crate) fn of(buffer: B) -> Slot<B>
        ensures { result ≡ record { buffer = Some buffer } }
    {
        Slot {
            place: buffer.place(),
        }
    }

    /// The end of a slot with nothing in it.
    #[inline(always)]
    pub(crate) fn end(self)
        requires { self.buffer ≡ None }
    {
        let Slot { place } = self;
        B::close_hole(place);
    }

    /// The buffer that is in it.
    #[inline(always)]
    pub(crate) fn lift(self) -> B
        requires { (buffer : B) × (self.buffer ≡ Some buffer) }
        ensures { self ≡ record { buffer = Some result } }
    {
        let Slot { place } = self;
        B::lift(place)
    }
}
