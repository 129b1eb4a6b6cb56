//! Entries as words, and the cycle and the slot of a ticket.

ghost use Rattle.std.specs.Prelude.{◌≡◌, ℕ, ◌*◌, ◌/◌, ◌<◌, ◌≤◌, ◌^◌, ◌==◌, if◌then◌else◌};
ghost use Rattle.std.specs.Option.{ForSome};
ghost use Rattle.scq_word.specs.Exports.{n_of, slots_of, mark_of, rank_in, cycle_of, slot_of};
ghost use Rattle.scq_word.specs.Exports.{in_columns, word_of, entry_in, index_bits, HasOwnIndex};
ghost use Rattle.scq_word.specs.Exports.{IsIndexOrMark, rank_of};

use crate::entry::Entry;
use crate::shape::Shape;

/// The word of an entry: `cycle * 4n + safe * 2n + index`, where the mark `2n - 1` stands for no
/// index.
pub fn pack(shape: Shape, entry: Entry) -> u64
    requires cycle { entry.cycle < 2 ^ 62 / n_of shape.order }
    requires index { HasOwnIndex shape.order entry }
    ensures word { result ≡ word_of shape.order entry }
    ensures unpacked { entry_in shape.order result ≡ entry }
{
    let slots = shape.mark + 1;
    let safe = u64::from(entry.safe);
    let index = packed_index(shape, entry.index);
    entry.cycle * (2 * slots) + safe * slots + index
}

/// The bits of an index, or the mark.
fn packed_index(shape: Shape, index: Option<u32>) -> u64
    requires { ForSome index (λ index. index < n_of shape.order) }
    ensures bits { result ≡ index_bits shape.order index }
    ensures small { result < slots_of shape.order }
{
    u64::from(index.unwrap_or(shape.none()))
}

/// The entry of a word whose index bits are an index of the ring or the mark.
pub fn unpack(shape: Shape, word: u64) -> Entry
    requires { IsIndexOrMark shape.order word }
    ensures entry { result ≡ entry_in shape.order word }
    ensures packed { word_of shape.order result ≡ word }
    ensures cycle { result.cycle < 2 ^ 62 / n_of shape.order }
    ensures index { HasOwnIndex shape.order result }
{
    let above = word >> shape.bits;
    Entry {
        cycle: above / 2,
        safe: above % 2 == 1,
        index: unpacked_index(shape, (word & shape.mark) as u32),
    }
}

/// The index that bits stand for, unless they are the mark.
fn unpacked_index(shape: Shape, bits: u32) -> Option<u32>
    ensures { result ≡ (if bits == mark_of (slots_of shape.order) then None else Some bits) }
{
    if u64::from(bits) == shape.mark {
        None
    } else {
        Some(bits)
    }
}

/// What each change of an entry raises: `3 * cycle`, plus 0 where it has an index and is safe, 1
/// where it has an index and is unsafe, 2 where it has no index.
pub fn rank(entry: Entry) -> u64
    requires { entry.cycle < 2 ^ 62 }
    ensures rank { result ≡ rank_of entry }

    // It is the rank of the entry's word, in a ring of any order that has its index.
    ensures of_word { (order : ℕ) → 1 ≤ order → HasOwnIndex order entry
        → rank_in (slots_of order) (word_of order entry) ≡ result }
{
    let part = match entry.index {
        None => 2,
        Some(_) if entry.safe => 0,
        Some(_) => 1,
    };
    3 * entry.cycle + part
}

/// How often the ring was gone round before the ticket.
pub fn cycle_of(shape: Shape, ticket: u64) -> u64
    ensures { result ≡ cycle_of (slots_of shape.order) ticket }
{
    ticket >> shape.bits
}

/// The slot of a ticket, below the number of slots. Two tickets have one slot exactly where they
/// agree modulo that number. In a ring of at least 16 slots, tickets that follow one another mostly
/// have slots that are eight apart, so that they don't meet in one cache line; only where a column
/// ends two stand closer.
pub fn slot_of(shape: Shape, ticket: u64) -> u32
    ensures slot { result ≡ slot_of shape.order ticket }
    ensures small { result < slots_of shape.order }
{
    let rest = ticket & shape.mark;
    ((rest & shape.row_mask) * 8 + (rest >> shape.column_bits)) as u32
}
