//! A ring of the table: where its words are, and the numbers that a call needs of the setup.
ghost use Rattle.std.specs.Prelude.{◌≡◌, ◌≢◌, ℕ, ◌^◌, ◌<◌, IsTrue, IsFalse};
ghost use Rattle.scq_core.specs.Exports.{head_of, threshold_of, ring_slots, cycle};
ghost use Rattle.scq_word.specs.declared.setup.Setup.{Setup};
ghost use Rattle.scq_band.specs.Layout.{at, entry_at};
ghost use Rattle.scq_band.specs.Rings.{IsRing, IsFilled, IsPlainlyVacant};
ghost use Rattle.scq_word.specs.Exports.{packed, cycle_in, index_in};

use crate::layout::{Columns, entry_word, head_word, tail_word, threshold_word};
use scq_core::reset_level;
use scq_word::{Setup, Shape};

/// `tail` is the word of its Tail, which tells where its other words are, and `columns` which of
/// them is a ticket's entry. `level` is what Threshold is reset to. `mark` says "no index" in an
/// entry, and has all bits of an index.
#[derive(Clone, Copy)]
pub struct Ring {
    pub number: u32,
    pub mark: u32,
    pub shape: Shape,
    pub limit: u64,
    pub tail: usize,
    pub level: u64,
    pub columns: Columns,
}

impl Ring {
    pub fn of(setup: &Setup, number: u32) -> Ring
        requires { number < setup.now.rings }
        ensures number { result.number ≡ number }
        ensures ring { IsRing setup.now result }
    {
        Ring {
            number,
            mark: setup.shape().none(),
            shape: setup.shape(),
            limit: setup.limit(),
            tail: tail_word(setup, number),
            level: reset_level(setup),
            columns: Columns::of(setup),
        }
    }

    #[inline(always)]
    pub fn head(&self) -> usize
        requires { self.now.tail < 2 ^ 32 }
        ensures { (c : Setup) → IsRing c self.now → result ≡ at c (head_of self.now.number) }
    {
        head_word(self.tail)
    }

    #[inline(always)]
    pub fn threshold(&self) -> usize
        requires { self.now.tail < 2 ^ 32 }
        ensures { (c : Setup) → IsRing c self.now → result ≡ at c (threshold_of self.now.number) }
    {
        threshold_word(self.tail)
    }

    /// The word of the entry of a ticket's slot.
    #[inline(always)]
    pub fn entry(&self, ticket: u64) -> usize
        requires { self.now.tail < 2 ^ 32 }
        ensures { (c : Setup) → IsRing c self.now
            → result ≡ at c (entry_at c self.now.number ticket) }
    {
        let row = ticket & u64::from(self.columns.row_mask);
        let column = (ticket & u64::from(self.mark)) >> self.columns.bits;
        entry_word(self.tail, row, column)
    }

    /// The entry of an index at its ticket.
    #[inline(always)]
    pub fn filled(&self, ticket: u64, index: u32) -> u64
        requires small { ticket < 2 ^ 60 }
        ensures { (c : Setup) → IsRing c self.now
            → result ≡ packed (ring_slots c) (cycle c ticket) 1 index }
    {
        let mark = u64::from(self.mark);
        2 * (ticket - (ticket & mark)) + (mark + 1) + u64::from(index)
    }

    /// What the entry of a ticket's slot mostly is when an enqueue draws the ticket: of the cycle
    /// before, safe, with no index.
    #[inline(always)]
    pub fn guess(&self, ticket: u64) -> u64
        requires small { ticket < 2 ^ 60 }
        requires later { self.now.mark < ticket }
        ensures { (c : Setup) → IsRing c self.now → IsPlainlyVacant c ticket result }
    {
        2 * (ticket - (ticket & u64::from(self.mark))) - 1
    }

    /// Whether an entry is of a ticket's cycle: the bits above those of a slot, and above those of
    /// an index with the safe bit, are the same.
    #[inline(always)]
    pub fn is_of_cycle(&self, entry: u64, ticket: u64) -> bool
        ensures own { IsTrue result → (c : Setup) → IsRing c self.now
            → cycle_in (ring_slots c) entry ≡ cycle c ticket }
        ensures other { IsFalse result → (c : Setup) → IsRing c self.now
            → cycle_in (ring_slots c) entry ≢ cycle c ticket }
    {
        (entry / 2) ^ ticket <= u64::from(self.mark)
    }

    /// The bits of an entry's index: the index, where it has one.
    #[inline(always)]
    pub fn index(&self, entry: u64) -> u32
        ensures { (c : Setup) → IsRing c self.now → result ≡ index_in (ring_slots c) entry }
    {
        (entry & u64::from(self.mark)) as u32
    }

    /// Whether an entry is vacant to a ticket of which `new` is to be the entry, as far as can be
    /// told by two comparisons: it is of an earlier cycle, safe, and has no index.
    #[inline(always)]
    pub fn is_plainly_vacant(&self, entry: u64, new: u64) -> bool
        ensures { IsTrue result → (c : Setup) → IsRing c self.now → (ticket : ℕ)
            → IsFilled c ticket new → IsPlainlyVacant c ticket entry }
    {
        let safe_and_mark = 2 * u64::from(self.mark) + 1;
        entry < new && entry & safe_and_mark == safe_and_mark
    }
}
