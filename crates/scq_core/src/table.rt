//! Where a turn reads and writes, and what it writes there.

ghost use Rattle.std.specs.Prelude.{◌≡◌, ℕ, ◌/◌, ◌^◌, ◌<◌};
ghost use Rattle.scq_word.specs.Exports.{n_of, slots_of, cycle_of, mark_of, packed, safe_in};
ghost use Rattle.scq_word.specs.Exports.{cycle_in, IsIndexOrMark};
ghost use Rattle.scq_word.specs.declared.setup.Setup.{Setup};
ghost use Rattle.scq_core.specs.declared.slot.Cell.TheVariants.{Entry as EntryCell};
ghost use Rattle.scq_core.specs.Table.{ring_slots, cycle, slot, reset_level, passed, writes};
ghost use Rattle.scq_core.specs.Table.{ring_of, cell_of};
ghost use Rattle.scq_core.specs.Turn.{ends_call, IsReady};

use crate::phase::Phase;
use crate::slot::Cell;
use scq_word::{Entry, Setup, Shape, cycle_of, pack, slot_of, unpack};

/// The word that stands for a Threshold of 0: it is kept as so much more than its value.
pub const ZERO_LEVEL: u64 = 1 << 32;

/// The ring that a turn is on; an idle seat is on none.
pub fn ring_of(turn: &Phase) -> u32
    ensures { result ≡ ring_of turn.now }
{
    match turn {
        Phase::Idle => 0,
        Phase::AtE1 { ring, .. } => *ring,
        Phase::AtE2 { ring, .. } => *ring,
        Phase::AtE3 { ring, .. } => *ring,
        Phase::AtE4 { ring, .. } => *ring,
        Phase::AtE5 { ring, .. } => *ring,
        Phase::AtE6 { ring, .. } => *ring,
        Phase::AtD1 { ring } => *ring,
        Phase::AtD2 { ring, .. } => *ring,
        Phase::AtD3 { ring, .. } => *ring,
        Phase::AtD4 { ring, .. } => *ring,
        Phase::AtD5 { ring, .. } => *ring,
        Phase::AtD6 { ring, .. } => *ring,
        Phase::AtD7 { ring, .. } => *ring,
        Phase::AtD8 { ring, .. } => *ring,
        Phase::AtD9 { ring, .. } => *ring,
        Phase::AtD10 { ring, .. } => *ring,
    }
}

/// The one word of that ring that the turn reads and writes.
pub fn cell_of(setup: &Setup, turn: &Phase) -> Cell
    ensures { result ≡ cell_of setup.now turn.now }
{
    match turn {
        Phase::Idle => Cell::Tail,
        Phase::AtE1 { .. } => Cell::Tail,
        Phase::AtE2 { ticket, .. } => entry_at(setup, *ticket),
        Phase::AtE3 { .. } => Cell::Head,
        Phase::AtE4 { ticket, .. } => entry_at(setup, *ticket),
        Phase::AtE5 { .. } => Cell::Threshold,
        Phase::AtE6 { .. } => Cell::Threshold,
        Phase::AtD1 { .. } => Cell::Threshold,
        Phase::AtD2 { .. } => Cell::Head,
        Phase::AtD3 { ticket, .. } => entry_at(setup, *ticket),
        Phase::AtD4 { ticket, .. } => entry_at(setup, *ticket),
        Phase::AtD5 { ticket, .. } => entry_at(setup, *ticket),
        Phase::AtD6 { .. } => Cell::Tail,
        Phase::AtD7 { .. } => Cell::Tail,
        Phase::AtD8 { .. } => Cell::Head,
        Phase::AtD9 { .. } => Cell::Tail,
        Phase::AtD10 { .. } => Cell::Threshold,
    }
}

/// The entry in the slot of a ticket.
fn entry_at(setup: &Setup, ticket: u64) -> Cell
    ensures { result ≡ EntryCell (slot setup.now ticket) }
{
    Cell::Entry {
        slot: slot_of(setup.shape(), ticket),
    }
}

/// What a turn writes there where it found this word. A turn that only reads writes what it found.
pub fn written(setup: &Setup, turn: &Phase, found: u64) -> u64
    requires { IsReady setup.now turn.now found }
    ensures { result ≡ writes setup.now turn.now found }
{
    match turn {
        Phase::AtE1 { .. } => found + 1,
        Phase::AtE4 {
            index,
            ticket,
            word,
            ..
        } if found == *word => filled(setup.shape(), *ticket, *index),
        Phase::AtE6 { .. } => reset_level(setup),
        Phase::AtD2 { .. } => found + 1,
        Phase::AtD4 { .. } => consumed(setup, found),
        Phase::AtD5 { ticket, word, .. } if found == *word => passed(setup.shape(), *ticket, found),
        Phase::AtD7 { from, to, .. } if found == *from => *to,
        Phase::AtD10 { .. } => found - 1,
        _ => found,
    }
}

/// Whether a turn ends its call where it found this word.
#[tactic(auto, unfolding(crate::specs::Table::zero_level))]
pub fn ends_call(setup: &Setup, turn: &Phase, found: u64) -> bool
    ensures { result ≡ ends_call setup.now turn.now found }
{
    match turn {
        Phase::AtE1 { .. } => setup.limit() <= found,
        Phase::AtE5 { .. } => found == reset_level(setup),
        Phase::AtE6 { .. } => true,
        Phase::AtD1 { .. } => found < ZERO_LEVEL,
        Phase::AtD2 { .. } => setup.limit() <= found,
        Phase::AtD4 { .. } => true,
        Phase::AtD10 { leaving, .. } => *leaving || found <= ZERO_LEVEL,
        _ => false,
    }
}

/// The word of an index at its ticket.
#[inline(always)]
pub fn filled(shape: Shape, ticket: u64, index: u32) -> u64
    requires fits { cycle_of (slots_of shape.order) ticket < 2 ^ 62 / n_of shape.order }
    requires own { index < n_of shape.order }
    ensures { (c : Setup) → shape.order ≡ c.order
        → result ≡ packed (ring_slots c) (cycle c ticket) 1 index }
{
    let entry = Entry {
        cycle: cycle_of(shape, ticket),
        safe: true,
        index: Some(index),
    };
    pack(shape, entry)
}

/// The word of what Threshold is reset to once an index was placed.
pub fn reset_level(setup: &Setup) -> u64
    ensures { result ≡ reset_level setup.now }
{
    ZERO_LEVEL + setup.reset_value()
}

/// A fetch_or of the mark takes the index out, and leaves the cycle and the safe bit.
fn consumed(setup: &Setup, found: u64) -> u64
    ensures { result
        ≡ packed (ring_slots setup.now) (cycle_in (ring_slots setup.now) found)
        (safe_in (ring_slots setup.now) found)
        (mark_of (ring_slots setup.now)) }
{
    found | u64::from(setup.shape().none())
}

/// What a dequeue leaves in an entry of an earlier cycle: without an index it is moved to the cycle
/// of the dequeue's ticket, so that no enqueue with an earlier one fills it; an index is marked
/// unsafe.
#[inline(always)]
pub fn passed(shape: Shape, ticket: u64, found: u64) -> u64
    requires fits { cycle_of (slots_of shape.order) ticket < 2 ^ 62 / n_of shape.order }
    requires entry { IsIndexOrMark shape.order found }
    ensures { (c : Setup) → shape.order ≡ c.order → result ≡ passed c ticket found }
{
    let entry = unpack(shape, found);
    let left = match entry.index {
        None => Entry {
            cycle: cycle_of(shape, ticket),
            ..entry
        },
        Some(_) => Entry {
            safe: false,
            ..entry
        },
    };
    pack(shape, left)
}
