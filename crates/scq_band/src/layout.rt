//! Where each word of the table stands: no other file knows the number of a word.
ghost use Rattle.std.specs.Prelude.{◌≡◌, ℕ, ◌+◌, ◌-◌, ◌*◌, ◌^◌, ◌<◌};
ghost use Rattle.scq_word.specs.declared.setup.Setup.{Setup};
ghost use Rattle.scq_core.specs.Exports.{tail_of, head_of, threshold_of, entry_of};
ghost use Rattle.scq_band.specs.Layout.{at, word_count, ring_words, distance, column_bits};
ghost use Rattle.scq_band.specs.Layout.{entry_offset};

use scq_word::Setup;

/// The word that counts the seats that have not retired.
pub const GATE: usize = 0;

/// How many words the hot ones, which all seats write to, stand apart: 128 bytes, two lines of 64,
/// which processors fetch as a pair. So whatever a table's address is, no two of them lie in one
/// line or pair.
const DISTANCE: usize = 16;

/// The largest order at which each entry has a cache line to itself, so that threads at different
/// tickets share none. Where slots have no bytes, as those of ports, that pays up to order 9;
/// beside the lines of slots that have some, threads lose from order 8 on about as much by fetching
/// more lines as they gain.
const LARGEST_LINED_ORDER: u32 = 9;

// How many rows, lines, the entries of a ring take, as a power of two: one for each entry, or one
// for eight.
fn column_bits(setup: &Setup) -> u32
    ensures bits { result ≡ column_bits setup.now.order }
    ensures few { result < 16 }
{
    if setup.order <= LARGEST_LINED_ORDER {
        setup.order + 1
    } else {
        setup.order - 2
    }
}

/// Where the entry of a ticket stands. Rows are filled one after the other, column by column: the
/// ticket's bits of `row_mask` tell the row, and those of a slot above the lowest `bits` the
/// column.
#[derive(Clone, Copy)]
pub struct Columns {
    pub row_mask: u32,
    pub bits: u32,
    ghost small: { bits < 64 },
}

impl Columns {
    pub fn of(setup: &Setup) -> Columns
        ensures rows { result.row_mask ≡ 2 ^ column_bits setup.now.order - 1 }
        ensures bits { result.bits ≡ column_bits setup.now.order }
    {
        let bits = column_bits(setup);
        Columns {
            row_mask: (1 << bits) - 1,
            bits,
        }
    }
}

// How many words a ring takes: behind its last entry as many stay unused as between hot words.
fn ring_words(setup: &Setup) -> usize
    ensures word { result ≡ ring_words distance setup.now }
    ensures few { result < 2 ^ 20 }
{
    4 * DISTANCE - 1 + 8 * (1 << column_bits(setup))
}

/// How many words the table has.
pub fn word_count(setup: &Setup) -> usize
    ensures { result ≡ word_count setup.now }
{
    DISTANCE + setup.rings() as usize * ring_words(setup)
}

/// The word of a ring's Tail.
#[inline(always)]
pub fn tail_word(setup: &Setup, ring: u32) -> usize
    requires { ring < setup.now.rings }
    ensures word { result ≡ at setup.now (tail_of ring) }
    ensures small { result < 2 ^ 32 }
{
    DISTANCE + ring as usize * ring_words(setup)
}

/// The word of its Head.
#[inline(always)]
pub fn head_word(tail: usize) -> usize
    requires { tail < 2 ^ 32 }
    ensures { (c : Setup) (r : ℕ) → tail ≡ at c (tail_of r) → result ≡ at c (head_of r) }
{
    tail + DISTANCE
}

/// The word of its Threshold.
#[inline(always)]
pub fn threshold_word(tail: usize) -> usize
    requires { tail < 2 ^ 32 }
    ensures { (c : Setup) (r : ℕ) → tail ≡ at c (tail_of r) → result ≡ at c (threshold_of r) }
{
    tail + 2 * DISTANCE
}

/// The word of the entry in a row and a column.
#[inline(always)]
pub fn entry_word(tail: usize, row: u64, column: u64) -> usize
    requires tail { tail < 2 ^ 32 }
    requires small { (row < 2 ^ 32) × (column < 2 ^ 32) }
    ensures { (c : Setup) (r s : ℕ) → tail ≡ at c (tail_of r)
        → row * 8 + column ≡ entry_offset c.order s
        → result ≡ at c (entry_of r s) }
{
    tail + 3 * DISTANCE + (row * 8 + column) as usize
}

/// The word of the entry of a slot, without a ticket: the map of tickets to slots is undone.
pub fn slot_word(setup: &Setup, tail: usize, slot: u32) -> usize
    requires { tail < 2 ^ 32 }
    ensures { (c : Setup) (r : ℕ) → setup.now ≡ c → tail ≡ at c (tail_of r)
        → result ≡ at c (entry_of r slot) }
{
    let remainder = slot / 8 + slot % 8 * (1 << (setup.order + 1).saturating_sub(3));
    let rows = 1 << column_bits(setup);
    entry_word(
        tail,
        u64::from(remainder % rows),
        u64::from(remainder / rows),
    )
}
