//! The values that a port holds, each at its index.
ghost use Rattle.std.specs.Prelude.{◌≡◌, ℕ, ◌<◌, length, Some, None, MatchOption, slice_get};
ghost use Rattle.std.specs.Prelude.{slice_set};
ghost use Rattle.scq_port.specs.Ports.{Value};

use crate::port_buffer::PortBuffer;
use scq_band::Lifted;
use scq_queue::Held;
use std::mem;

/// The values that a port holds, each at the index of its buffer: no more than `hold`, and so there
/// is room for `room` more.
pub struct Hand {
    pub(crate) slots: Vec<Option<Held<PortBuffer>>>,
    pub(crate) room: u32,
    pub(crate) hold: u32,
}

impl Hand {
    /// Puts a value at its index, where there is none: answers the index.
    #[inline(always)]
    pub(crate) fn put_in(&mut self, held: Held<PortBuffer>) -> u32
        requires free { slice_get self.old.slots.items held.index ≡ Some None }
        ensures put { self.new.slots.items ≡ slice_set self.old.slots.items held.index (Some held) }
        ensures rest { (self.new.room ≡ self.old.room) × (self.new.hold ≡ self.old.hold) }
        ensures index { result ≡ held.index }
    {
        let index = held.index();
        match mem::replace(&mut self.slots[index as usize], Some(held)) {
            None => index,
            Some(_) => unreachable!(),
        }
    }

    /// Takes the value of an index out, if there is one.
    #[inline(always)]
    pub(crate) fn take_out(&mut self, index: u32) -> Option<Held<PortBuffer>>
        ensures none { result ≡ None → (self.new.slots.items ≡ self.old.slots.items)
            × ((h : Value) → slice_get self.old.slots.items index ≡ Some (Some h) → ⊥) }
        ensures some { (h : Value) → result ≡ Some h
            → (slice_get self.old.slots.items index ≡ Some (Some h))
            × (self.new.slots.items ≡ slice_set self.old.slots.items index None) }
        ensures rest { (self.new.room ≡ self.old.room) × (self.new.hold ≡ self.old.hold) }
    {
        let at = index as usize;
        if at >= self.slots.len() || self.slots[at].is_none() {
            return None;
        }
        self.slots[at].take()
    }
}
