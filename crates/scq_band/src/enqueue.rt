//! An enqueue of the slot that stands first, step by step.
ghost use Rattle.std.specs.Prelude.{◌≡◌, ◌+◌, ◌<◌, ◌≤◌, if◌then◌else◌, IfSome, IfNone, IfOk, IfErr};
ghost use Rattle.std.specs.Prelude.{IsTrue, IsFalse, Some, None, true};
ghost use Rattle.atomic_table.specs.Table.{rest};
ghost use Rattle.scq_band.specs.Exports.{LiesIn, opening_of, Fronts, word_count, at, entry_at};
ghost use Rattle.scq_band.specs.Exports.{IsRing, IsFilled, known_me, Went, my, my_phase};
ghost use Rattle.scq_band.specs.Exports.{front_index, front_bytes, IsAlone, IsLooking, IsEnding};
ghost use Rattle.scq_band.specs.Exports.{goes_to, placed_to, done_at, HasPut, HasSpentPut};
ghost use Rattle.scq_band.specs.Exports.{put_index, content_of, least_of, GoesOn};
ghost use Rattle.scq_band.specs.Guesses.{HasLooked};
ghost use Rattle.scq_core.specs.declared.phase.Phase.TheVariants.{Idle, AtE1, AtE4};
ghost use Rattle.scq_word.specs.Exports.{n_of, rank_in, IsIndexOrMark};
ghost use Rattle.scq_core.specs.Exports.{ring_slots, holds_index, threshold_of};

use crate::ring::Ring;
use crate::rule::{Token, Words};
use crate::steps::{draw, exchange, load, place_or_load, reset};
use scq_word::{Buffer, cycle_of, unpack};

/// What E2 makes of the entry that it found, and E3 where that is unsafe: whether an index may be
/// placed there. `new` is what the entry is to become.
#[inline(always)]
fn has_room<B: Buffer>(
    words: &Words<B>,
    token: &mut Token<B>,
    ring: &Ring,
    ticket: u64,
    found: u64,
    new: u64,
) -> bool
    requires own { (token.old.table_id ≡ words.now.table_id)
        × (words.now.table_id.words ≡ word_count words.now.key.setup) }
    requires ring { IsRing words.now.key.setup ring.now }
    requires alone { IsAlone token.old.me.0.known }
    requires ready { IsIndexOrMark words.now.key.setup.order found }
    requires looked { HasLooked words.now.key.setup ring.now.number ticket found
        (my_phase token.old.me.0.known) }
    requires new { IsFilled words.now.key.setup ticket new }
    ensures own { (token.new.table_id ≡ token.old.table_id) × (token.new.id ≡ token.old.id) }
    ensures went { GoesOn words.now.key.setup
        (opening_of B.contents words.now.key.given.value.items) token.old.me.0 token.new.me.0 }
    ensures slots { token.new.me.1 ≡ token.old.me.1 }
    ensures room { IsTrue result → token.new.me.0.known
        ≡ goes_to (AtE4 ring.now.number (put_index (my_phase token.old.me.0.known))
        (content_of (my_phase token.old.me.0.known)) ticket found)
        token.old.me.0.known }
    ensures no_room { IsFalse result → token.new.me.0.known
        ≡ goes_to (AtE1 ring.now.number (put_index (my_phase token.old.me.0.known))
        (content_of (my_phase token.old.me.0.known))
        (ticket + 1)) token.old.me.0.known }
{
    if ring.is_plainly_vacant(found, new) {
        return true;
    }
    let entry = unpack(ring.shape, found);
    if entry.cycle >= cycle_of(ring.shape, ticket) {
        return false;
    }
    if entry.index.is_some() {
        return false;
    }
    if entry.safe {
        return true;
    }
    if load(words, token, ring.head()) > ticket {
        return false;
    }
    true
}

/// E2, and E3 where the entry is unsafe: loads the entry of the ticket's slot, and answers it where
/// an index may be placed there. `new` is what it is to become.
#[inline(always)]
fn load_vacant<B: Buffer>(
    words: &Words<B>,
    token: &mut Token<B>,
    ring: &Ring,
    ticket: u64,
    word: usize,
    new: u64,
) -> Option<u64>
    requires own { (token.old.table_id ≡ words.now.table_id)
        × (words.now.table_id.words ≡ word_count words.now.key.setup) }
    requires ring { IsRing words.now.key.setup ring.now }
    requires alone { IsAlone token.old.me.0.known }
    requires looks { IsLooking ring.now.number ticket (my_phase token.old.me.0.known) }
    requires word { word
        ≡ at words.now.key.setup (entry_at words.now.key.setup ring.now.number ticket) }
    requires new { IsFilled words.now.key.setup ticket new }
    ensures own { (token.new.table_id ≡ token.old.table_id) × (token.new.id ≡ token.old.id) }
    ensures went { Went words.now.key.setup
        (opening_of B.contents words.now.key.given.value.items) token.old.me.0 token.new.me.0 }
    ensures slots { token.new.me.1 ≡ token.old.me.1 }
    ensures room { IfSome result (λ found. token.new.me.0.known
        ≡ goes_to (AtE4 ring.now.number (put_index (my_phase token.old.me.0.known))
        (content_of (my_phase token.old.me.0.known)) ticket found)
        token.old.me.0.known) }
    ensures least { IfSome result (λ found.
        least_of (my_phase token.old.me.0.known) ≤ rank_in (ring_slots words.now.key.setup) found) }
    ensures no_room { IfNone result
        (token.new.me.0.known
        ≡ goes_to (AtE1 ring.now.number (put_index (my_phase token.old.me.0.known))
        (content_of (my_phase token.old.me.0.known))
        (ticket + 1)) token.old.me.0.known) }
{
    let found = load(words, token, word);
    if has_room(words, token, ring, ticket, found, new) {
        return Some(found);
    }
    None
}

/// E2 to E4, again where the exchange fails: places the index at the ticket, unless `load_vacant`
/// finds no room there; whether it is placed.
#[inline(always)]
fn try_place<B: Buffer>(
    words: &Words<B>,
    token: &mut Token<B>,
    ring: &Ring,
    ticket: u64,
    index: u32,
) -> bool
    requires own { (token.old.table_id ≡ words.now.table_id)
        × (words.now.table_id.words ≡ word_count words.now.key.setup) }
    requires ring { IsRing words.now.key.setup ring.now }
    requires alone { IsAlone token.old.me.0.known }
    requires looks { IsLooking ring.now.number ticket (my_phase token.old.me.0.known) }
    requires limit { ticket < ring.now.limit }
    requires index { (index ≡ put_index (my_phase token.old.me.0.known))
        × (index < n_of words.now.key.setup.order) }
    requires front { Fronts (LiesIn B.contents B.IsSameBuffer words.now.key.given.value.items) index
        (content_of (my_phase token.old.me.0.known)) token.old.me.1 }
    ensures own { (token.new.table_id ≡ token.old.table_id) × (token.new.id ≡ token.old.id) }
    ensures went { Went words.now.key.setup
        (opening_of B.contents words.now.key.given.value.items) token.old.me.0 token.new.me.0 }
    ensures slots { token.new.me.1 ≡ (if result then rest token.old.me.1 else token.old.me.1) }
    ensures placed { IsTrue result → token.new.me.0.known
        ≡ placed_to ring.now.number index
        (content_of (my_phase token.old.me.0.known)) ticket token.old.me.0.known }
    ensures passed { IsFalse result → token.new.me.0.known
        ≡ goes_to (AtE1 ring.now.number index (content_of (my_phase token.old.me.0.known)) (ticket
        + 1)) token.old.me.0.known }
{
    let new = ring.filled(ticket, index);
    let word = ring.entry(ticket);
    'tries: loop {
        let Some(found) = load_vacant(words, token, ring, ticket, word, new) else {
            return false;
        };
        if exchange(words, token, word, found, new) == found {
            return true;
        }
    }
}

/// E2 to E4, first E2 and E4 by one exchange from a guess of the entry: places the index at the
/// ticket, unless there is no room; whether it is placed.
#[inline(always)]
fn place<B: Buffer>(
    words: &Words<B>,
    token: &mut Token<B>,
    ring: &Ring,
    ticket: u64,
    index: u32,
) -> bool
    requires own { (token.old.table_id ≡ words.now.table_id)
        × (words.now.table_id.words ≡ word_count words.now.key.setup) }
    requires ring { IsRing words.now.key.setup ring.now }
    requires alone { IsAlone token.old.me.0.known }
    requires looks { IsLooking ring.now.number ticket (my_phase token.old.me.0.known) }
    requires limit { ticket < ring.now.limit }
    requires index { (index ≡ put_index (my_phase token.old.me.0.known))
        × (index < n_of words.now.key.setup.order) }
    requires front { Fronts (LiesIn B.contents B.IsSameBuffer words.now.key.given.value.items) index
        (content_of (my_phase token.old.me.0.known)) token.old.me.1 }
    requires past_first { ring.now.mark < ticket }
    ensures own { (token.new.table_id ≡ token.old.table_id) × (token.new.id ≡ token.old.id) }
    ensures went { Went words.now.key.setup
        (opening_of B.contents words.now.key.given.value.items) token.old.me.0 token.new.me.0 }
    ensures slots { token.new.me.1 ≡ (if result then rest token.old.me.1 else token.old.me.1) }
    ensures placed { IsTrue result → token.new.me.0.known
        ≡ placed_to ring.now.number index
        (content_of (my_phase token.old.me.0.known)) ticket token.old.me.0.known }
    ensures passed { IsFalse result → token.new.me.0.known
        ≡ goes_to (AtE1 ring.now.number index (content_of (my_phase token.old.me.0.known)) (ticket
        + 1)) token.old.me.0.known }
{
    let new = ring.filled(ticket, index);
    let word = ring.entry(ticket);
    let guess = ring.guess(ticket);
    let found = place_or_load(words, token, word, guess, new);
    if found == guess {
        return true;
    }
    if !has_room(words, token, ring, ticket, found, new) {
        return false;
    }
    if exchange(words, token, word, found, new) == found {
        return true;
    }
    try_place(words, token, ring, ticket, index)
}

/// E5, and E6 where Threshold isn't at the reset value. `word` is its word.
#[inline(always)]
fn reset_threshold<B: Buffer>(
    words: &Words<B>,
    token: &mut Token<B>,
    ring: &Ring,
    ticket: u64,
    word: usize,
)
    requires own { (token.old.table_id ≡ words.now.table_id)
        × (words.now.table_id.words ≡ word_count words.now.key.setup) }
    requires ring { IsRing words.now.key.setup ring.now }
    requires alone { IsAlone token.old.me.0.known }
    requires word { word ≡ at words.now.key.setup (threshold_of ring.now.number) }
    requires placed { IsEnding ring.now.number ticket (my_phase token.old.me.0.known) }
    ensures own { (token.new.table_id ≡ token.old.table_id) × (token.new.id ≡ token.old.id) }
    ensures went { Went words.now.key.setup
        (opening_of B.contents words.now.key.given.value.items) token.old.me.0 token.new.me.0 }
    ensures slots { token.new.me.1 ≡ token.old.me.1 }
    ensures done { token.new.me.0.known
        ≡ done_at ring.now.number ticket
        (content_of (my_phase token.old.me.0.known)) token.old.me.0.known }
{
    if load(words, token, word) != ring.level {
        reset(words, token, word, ring.level);
    }
}

/// An enqueue of the index whose slot stands first: the place, or the ticket that was drawn at or
/// past the limit.
#[inline(always)]
pub fn enqueue<B: Buffer>(
    words: &Words<B>,
    token: &mut Token<B>,
    ring: &Ring,
    index: u32,
) -> Result<u64, u64>
    requires own { (token.old.table_id ≡ words.now.table_id)
        × (words.now.table_id.words ≡ word_count words.now.key.setup) }
    requires ring { IsRing words.now.key.setup ring.now }
    requires alone { IsAlone token.old.me.0.known }
    requires idle { (my_phase token.old.me.0.known ≡ Idle)
        × ((my token.old.me.0.known).part.spent ≡ None) }
    requires held { (holds_index (my token.old.me.0.known).part.hand index ≡ true)
        × (index < n_of words.now.key.setup.order) }
    requires first { front_index token.old.me.1 ≡ index }
    requires front { Fronts (LiesIn B.contents B.IsSameBuffer words.now.key.given.value.items) index
        (front_bytes B.contents token.old.me.1) token.old.me.1 }
    ensures own { (token.new.table_id ≡ token.old.table_id) × (token.new.id ≡ token.old.id) }
    ensures went { Went words.now.key.setup
        (opening_of B.contents words.now.key.given.value.items) token.old.me.0 token.new.me.0 }
    ensures put { IfOk result (λ place.
        HasPut B.contents words.now.key.setup ring.now.number index place
        (known_me token.old.me) (known_me token.new.me)) }
    ensures spent { IfErr result (λ ticket.
        HasSpentPut words.now.key.setup ring.now.number ticket
        (known_me token.old.me) (known_me token.new.me)) }
{
    let threshold_at = ring.threshold();
    'draws: loop {
        let ticket = draw(words, token, ring.tail);
        if ticket >= ring.limit {
            return Err(ticket);
        }
        if place(words, token, ring, ticket, index) {
            reset_threshold(words, token, ring, ticket, threshold_at);
            return Ok(ticket);
        }
    }
}
