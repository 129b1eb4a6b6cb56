//! Buffers that are lifted out of a seat's hand, and laid back.
ghost use Rattle.std.specs.Prelude.{◌≡◌, ◌∷◌, Some, None};
ghost use Rattle.atomic_table.specs.Table.{rest};
ghost use Rattle.scq_band.specs.Slots.{SlotStanding};
ghost use Rattle.scq_band.specs.Standing.{in_hand, with_buffer, IsAsGiven};

use crate::band::Band;
use crate::hand::bring_to_front;
use crate::rule::{Token, Words};
use crate::seat::Seat;
use crate::slot::Slot;
use scq_word::Buffer;

/// Lays a buffer in the slot that stands first, that of the index, where none is laid.
#[inline(always)]
pub fn lay_first<B: Buffer>(words: &Words<B>, token: &mut Token<B>, index: u32, buffer: B)
    requires own { token.old.table_id ≡ words.now.table_id }
    requires first { (slot : SlotStanding B)
        × (token.old.me.1 ≡ (index, slot) ∷ rest token.old.me.1) × (slot.buffer ≡ None) }
    ensures own { (token.new.table_id ≡ token.old.table_id) × (token.new.id ≡ token.old.id) }
    ensures laid { token.new.me
        ≡ (token.old.me.0, (index, record { buffer = Some buffer }) ∷ rest token.old.me.1) }
{
    let hole = words.exchange(token, index as usize, Slot::of(buffer));
    hole.end();
}

/// Lifts the buffer out of the slot that stands first, that of the index.
#[inline(always)]
pub fn lift_first<B: Buffer>(words: &Words<B>, token: &mut Token<B>, index: u32) -> B
    requires own { token.old.table_id ≡ words.now.table_id }
    requires first { (buffer : B)
        × (token.old.me.1 ≡ (index, record { buffer = Some buffer }) ∷ rest token.old.me.1) }
    ensures own { (token.new.table_id ≡ token.old.table_id) × (token.new.id ≡ token.old.id) }
    ensures buffer { token.old.me.1
        ≡ (index, record { buffer = Some result }) ∷ rest token.old.me.1 }
    ensures lifted { token.new.me
        ≡ (token.old.me.0, (index, record { buffer = None }) ∷ rest token.old.me.1) }
{
    let slot = words.exchange(token, index as usize, Slot::hole());
    slot.lift()
}

impl<B: Buffer> Band<B> {
    /// Lifts the buffer of an index in the seat's hand: the seat has the index still, and its
    /// caller the buffer.
    #[inline(always)]
    pub fn lift(&self, seat: &mut Seat<B>, index: u32) -> B
        requires seat { seat.old.band ≡ self.now }
        requires laid { (buffer : B) × (in_hand seat.old.hand index ≡ Some (Some buffer)) }
        ensures buffer { in_hand seat.old.hand index ≡ Some (Some result) }
        ensures given { IsAsGiven B.IsSameBuffer self.now.given index result }
        ensures lifted { seat.new
            ≡ record seat.old { hand = with_buffer index None seat.old.hand } }
    {
        bring_to_front(&mut seat.token, index);
        lift_first(&self.table.shared, &mut seat.token, index)
    }

    /// Lays a buffer back that was lifted.
    #[inline(always)]
    pub fn lay(&self, seat: &mut Seat<B>, index: u32, buffer: B)
        requires seat { seat.old.band ≡ self.now }
        requires lifted { in_hand seat.old.hand index ≡ Some None }
        requires given { IsAsGiven B.IsSameBuffer self.now.given index buffer }
        ensures laid { seat.new
            ≡ record seat.old { hand = with_buffer index (Some buffer) seat.old.hand } }
    {
        bring_to_front(&mut seat.token, index);
        lay_first(&self.table.shared, &mut seat.token, index, buffer);
    }
}
