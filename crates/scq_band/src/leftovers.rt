//! What a closed table holds: the words, by which the indices that are left are counted, and the
//! buffers.
ghost use Rattle.std.specs.Prelude.{◌≡◌, ℕ, ◌<◌, ◌≤◌, false, [], map, length, Some, slice_get};
ghost use Rattle.std.specs.Prelude.{slice_index, slice_index_or, vec_capacity};
ghost use Rattle.std.specs.Mem.Slots.{slots_items, slots_filled, slots_len, IsFull};
ghost use Rattle.scq_core.specs.Exports.{Cells};
ghost use Rattle.scq_core.proofs.Indices.{HasIndices};
ghost use Rattle.scq_law.specs.Exports.{left_in};
ghost use Rattle.scq_band.specs.Exports.{word_count, ShowsWords, full_slot};

use crate::layout::{slot_word, tail_word};
use crate::slot::Slot;
use atomic_table::Closed;
use scq_word::{Buffer, Setup, unpack};
use std::alloc::Global;

/// How many slots of a ring have an index.
fn left_in_ring<B: Buffer>(closed: &Closed<Slot<B>, Global>, setup: &Setup, ring: u32) -> u64
    requires full { IsFull closed.now.words }
    requires shows { (m : Cells) × ShowsWords setup.now (slots_items closed.now.words) m
        × HasIndices setup.now m }
    requires ring { ring < setup.now.rings }
    ensures { (m : Cells) → ShowsWords setup.now (slots_items closed.now.words) m
        → result ≡ left_in setup.now m ring }
{
    let shape = setup.shape();
    let tail = tail_word(setup, ring);
    let mut left = 0;
    for slot in 0..shape.slots() {
        if unpack(shape, closed.word(slot_word(setup, tail, slot)))
            .index
            .is_some()
        {
            left += 1;
        }
    }
    left
}

/// How many slots of each ring have an index, put into an empty list with room.
pub fn count_left<B: Buffer>(closed: &Closed<Slot<B>, Global>, setup: &Setup, left: &mut Vec<u64>)
    requires full { IsFull closed.now.words }
    requires shows { (m : Cells) × ShowsWords setup.now (slots_items closed.now.words) m
        × HasIndices setup.now m }
    requires room { (left.old.items ≡ []) × (setup.now.rings ≤ vec_capacity left.old) }
    ensures rings { length left.new.items ≡ setup.now.rings }
    ensures each { (m : Cells) → ShowsWords setup.now (slots_items closed.now.words) m → (r : ℕ)
        → r < setup.now.rings
        → slice_index left.new.items r ≡ left_in setup.now m r }
{
    for ring in 0..setup.rings() {
        left.push_reserved(left_in_ring(closed, setup, ring));
    }
}

/// The buffers of all slots, in their order, put into an empty list with room.
pub fn unload<B: Buffer>(closed: &mut Closed<Slot<B>, Global>, buffers: &mut Vec<B>)
    requires full { IsFull closed.old.slots }
    requires laid { (i : ℕ) → i < slots_len closed.old.slots
        → (b : B) × (slice_get (slots_items closed.old.slots) i ≡ Some (full_slot b)) }
    requires room { (buffers.old.items ≡ [])
        × (slots_len closed.old.slots ≤ vec_capacity buffers.old) }
    ensures buffers { map full_slot buffers.new.items ≡ slots_items closed.old.slots }
    ensures empty { (k : ℕ) → k < slots_len closed.new.slots
        → slice_index_or (slots_filled closed.new.slots) k false ≡ false }
{
    let mut i = 0;
    while i < closed.slot_count() {
        buffers.push_reserved(closed.take(i).lift());
        i += 1;
    }
}
