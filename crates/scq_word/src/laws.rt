//! Laws of the words of entries, of slots and of the reset value. The functions do nothing: each
//! stands for its contract.

ghost use Rattle.std.specs.Prelude.{◌≡◌, ℕ, ◌+◌, ◌-◌, ◌%◌, ◌^◌, ◌<◌, ◌≤◌, ◌↔◌, bit_or};
ghost use Rattle.scq_word.specs.Exports.{n_of, slots_of, slot_of, reset_value, packed, cycle_in};
ghost use Rattle.scq_word.specs.Exports.{safe_in, mark_of, most_order};

/// A fetch_or of the mark consumes an entry: whatever the word was, it has no index afterwards, and
/// the cycle and the safe bit that it had. Stated for words of every size, and for those of an
/// order.
pub fn a_mark_consumes()
    ensures every_size { (k word : ℕ) → bit_or word (2 ^ k - 1)
        ≡ packed (2 ^ k) (cycle_in (2 ^ k) word) (safe_in (2 ^ k) word) (2 ^ k - 1) }
    ensures every_order { (order word : ℕ) → bit_or word (mark_of (slots_of order))
        ≡ packed (slots_of order) (cycle_in (slots_of order) word) (safe_in (slots_of order) word)
        (mark_of (slots_of order)) }
{}

/// Two facts of slots, and all that the layers above use of them: a slot is one of the ring's, and
/// two tickets have one slot exactly where they agree modulo the number of slots. So, as there are
/// as many, each slot is some ticket's.
pub fn slots_are_one_to_one()
    ensures small { (order ticket : ℕ) → slot_of order ticket < slots_of order }
    ensures same { (order t u : ℕ)
        → (slot_of order t ≡ slot_of order u) ↔ (t % slots_of order ≡ u % slots_of order) }
    ensures onto { (order slot : ℕ) → slot < slots_of order
        → (ticket : ℕ) × (slot_of order ticket ≡ slot) }
{}

/// Three facts of the reset value, and all that the layers above use of it: it reaches over the
/// window of a ring and over every seat, however many there are, and it is small.
pub fn resets_reach()
    ensures covers { (order seats : ℕ) → 1 ≤ order → n_of order + 1 ≤ reset_value order seats }
    ensures reaches { (order seats : ℕ) → slots_of order + seats ≤ reset_value order seats + 1 }
    ensures small { (order seats : ℕ) → order ≤ most_order → seats ≤ 4096
        → reset_value order seats < 2 ^ 18 }
{}
