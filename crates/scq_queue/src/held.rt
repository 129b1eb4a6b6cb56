//! A value that a pass holds: a buffer that it was lent, or took.
ghost use Rattle.std.specs.Prelude.{◌≡◌};
ghost use Rattle.scq_queue.specs.Kept.{value_of, HasGivenBuffer};
ghost use Rattle.std.specs.Borrow.{sem, Lends, Array, u8 as byte};

use scq_band::{Lifted, Seat};
use scq_word::{Buffer, BufferMut, BufferRef};
use std::marker::Model;
use std::snapshot::Snapshot;

/// A buffer of a queue, in the hands of the pass that got it. It must be spent: it ends where it is
/// sent, given back, or closed with its queue. `owner` is the pass's seat as it was when the value
/// came.
pub struct Held<B: Buffer> {
    pub(crate) index: u32,
    pub(crate) buffer: B,
    pub(crate) owner: Snapshot<Seat<B>>,
}

impl<B: Buffer> Model for Held<B> {
    ghost use Rattle.scq_queue.specs.Passes.{HeldStanding};

    ghost Value = { HeldStanding B };

    ghost use Rattle.scq_band.specs.Standing.{IsAsGiven};
    ghost use Rattle.scq_queue.specs.Kept.{held_of};

    ghost view = { λ h. held_of h.owner.value h.index h.buffer };

    ghost invariant = { λ h. IsAsGiven B.IsSameBuffer h.owner.value.band.given h.index h.buffer };
}

impl<B: BufferRef> Held<B> {
    /// Its bytes.
    pub fn bytes(&self) -> &[u8]
        ensures { result.now ≡ B.contents self.now.buffer }
    {
        self.buffer.bytes()
    }
}

impl<B: Buffer> Held<B> {
    /// Its buffer.
    pub fn buffer(&self) -> &B
        ensures { result.now ≡ self.now.buffer }
    {
        &self.buffer
    }

    /// The number of its buffer among those that the queue was given.
    pub fn index(&self) -> u32
        ensures { result ≡ self.now.index }
    {
        self.index
    }

    // For contracts alone.
    pub(crate) fn is_given(&self)
        ensures { HasGivenBuffer B.IsSameBuffer self.now }
    {
        let _ = &self.index;
    }
}

impl<B: BufferMut> Held<B> {
    ghost use Rattle.scq_queue.specs.contracts.held.Held.{the_row};

    /// Its bytes, lent to be written: there stay as many.
    pub fn bytes_mut(&mut self) -> &mut [u8]
        ensures* writes { sem 𝓛 (Lends (the_row B.row B.Place.row B.Buffer) (Array byte 0)
            self.entry result (λ w. record self.old { buffer = B.written self.old.buffer w })) }
        ensures bytes { result.now ≡ B.contents self.old.buffer }
    {
        self.buffer.bytes_mut()
    }
}

impl<B: Buffer> Lifted<B> for Held<B> {
    ghost pair = { value_of };

    fn index(&self) -> u32 {
        self.index
    }

    fn into_buffer(self) -> B {
        let Held {
            index: _,
            buffer,
            owner: _owner,
        } = self;
        buffer
    }
}
