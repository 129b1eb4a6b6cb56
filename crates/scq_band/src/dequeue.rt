//! A dequeue, step by step.
ghost use Rattle.std.specs.Prelude.{◌≡◌, ℕ, ◌+◌, ◌^◌, ◌<◌, IfSome, IfNone, IfOk, Option};
ghost use Rattle.std.specs.Prelude.{IsTrue, IsFalse, None, Err, true};
ghost use Rattle.scq_core.specs.declared.phase.Phase.TheVariants.{Idle, AtD2, AtD6, AtD7, AtD10};
ghost use Rattle.scq_band.specs.Layout.{word_count};
ghost use Rattle.scq_band.specs.Rings.{IsRing};
ghost use Rattle.scq_band.specs.Buffers.{LiesIn, opening_of};
ghost use Rattle.scq_band.specs.Sights.{known_me, Went};
ghost use Rattle.scq_band.specs.Steps.{my, my_phase};
ghost use Rattle.scq_band.specs.Seats.{IsAlone, IsSeeking, IsBehind, SeatHasGot, HasGotAfter};
ghost use Rattle.scq_band.specs.Seats.{HasFoundNone, HasSpentGet, goes_to, nothing_at};

use crate::ring::Ring;
use crate::rule::{Token, Words};
use crate::steps::{consume, count_down, draw, exchange, load};
use scq_core::{ZERO_LEVEL, passed};
use scq_word::{Buffer, cycle_of, unpack};

/// D3 to D5, again where the exchange fails: takes the index that stands at the ticket. With None
/// none stands there, nor ever will.
#[inline(always)]
fn try_take<B: Buffer>(
    words: &Words<B>,
    token: &mut Token<B>,
    ring: &Ring,
    ticket: u64,
) -> Option<u32>
    requires own { (token.old.table_id ≡ words.now.table_id)
        × (words.now.table_id.words ≡ word_count words.now.key.setup) }
    requires ring { IsRing words.now.key.setup ring.now }
    requires alone { IsAlone token.old.me.0.known }
    requires limit { ticket < ring.now.limit }
    requires seeks { IsSeeking ring.now.number ticket (my_phase token.old.me.0.known) }
    ensures own { (token.new.table_id ≡ token.old.table_id) × (token.new.id ≡ token.old.id) }
    ensures went { Went words.now.key.setup
        (opening_of B.contents words.now.key.given.value.items) token.old.me.0 token.new.me.0 }
    ensures got { IfSome result (λ index.
        SeatHasGot (LiesIn B.contents B.IsSameBuffer words.now.key.given.value.items)
        words.now.key.setup ring.now.number ticket index
        (known_me token.old.me) (known_me token.new.me)) }
    ensures given_up { IfNone result (token.new.me.0.known
        ≡ goes_to (AtD6 ring.now.number ticket) token.old.me.0.known) }
    ensures slots { IfNone result (token.new.me.1 ≡ token.old.me.1) }
{
    let word = ring.entry(ticket);
    'tries: loop {
        let found = load(words, token, word);
        if ring.is_of_cycle(found, ticket) {
            let old = consume(words, token, word, u64::from(ring.mark));
            return Some(ring.index(old));
        }
        if unpack(ring.shape, found).cycle > cycle_of(ring.shape, ticket) {
            return None;
        }
        if exchange(words, token, word, found, passed(ring.shape, ticket, found)) == found {
            return None;
        }
    }
}

/// D7 to D9 until Tail is caught up.
fn catch_up<B: Buffer>(words: &Words<B>, token: &mut Token<B>, ring: &Ring, ticket: u64, tail: u64)
    requires own { (token.old.table_id ≡ words.now.table_id)
        × (words.now.table_id.words ≡ word_count words.now.key.setup) }
    requires ring { IsRing words.now.key.setup ring.now }
    requires alone { IsAlone token.old.me.0.known }
    requires behind { IsBehind ring.now.number ticket tail (ticket
        + 1) (my_phase token.old.me.0.known) }
    requires room { ticket < 2 ^ 60 }
    ensures own { (token.new.table_id ≡ token.old.table_id) × (token.new.id ≡ token.old.id) }
    ensures went { Went words.now.key.setup
        (opening_of B.contents words.now.key.given.value.items) token.old.me.0 token.new.me.0 }
    ensures slots { token.new.me.1 ≡ token.old.me.1 }
    ensures caught_up { token.new.me.0.known
        ≡ goes_to (AtD10 ring.now.number ticket true) token.old.me.0.known }
{
    let mut from = tail;
    let mut to = ticket + 1;
    'tries: loop {
        if exchange(words, token, ring.tail, from, to) == from {
            return;
        }
        to = load(words, token, ring.head());
        from = load(words, token, ring.tail);
        if from >= to {
            return;
        }
    }
}

/// D6 to D10, for a ticket at which no index was taken: lifts Tail where it is behind, and takes
/// one off Threshold. Whether the call ends with Nothing.
#[inline(always)]
fn give_up<B: Buffer>(words: &Words<B>, token: &mut Token<B>, ring: &Ring, ticket: u64) -> bool
    requires own { (token.old.table_id ≡ words.now.table_id)
        × (words.now.table_id.words ≡ word_count words.now.key.setup) }
    requires ring { IsRing words.now.key.setup ring.now }
    requires alone { IsAlone token.old.me.0.known }
    requires given_up { my_phase token.old.me.0.known ≡ AtD6 ring.now.number ticket }
    requires limit { ticket < ring.now.limit }
    ensures own { (token.new.table_id ≡ token.old.table_id) × (token.new.id ≡ token.old.id) }
    ensures went { Went words.now.key.setup
        (opening_of B.contents words.now.key.given.value.items) token.old.me.0 token.new.me.0 }
    ensures slots { token.new.me.1 ≡ token.old.me.1 }
    ensures over { IsTrue result
        → token.new.me.0.known ≡ nothing_at ring.now.number token.old.me.0.known }
    ensures on { IsFalse result
        → token.new.me.0.known ≡ goes_to (AtD2 ring.now.number (ticket + 1)) token.old.me.0.known }
{
    let tail = load(words, token, ring.tail);
    if tail <= ticket + 1 {
        catch_up(words, token, ring, ticket, tail);
        count_down(words, token, ring.threshold());
        return true;
    }
    count_down(words, token, ring.threshold()) <= ZERO_LEVEL
}

/// How a dequeue ends without an index: with nothing, after the last ticket that it drew, if any;
/// or with the ticket that it drew at or past the limit.
pub enum Without {
    Nothing(Option<u64>),
    Spent(u64),
}

/// A dequeue: the place and the index, whose slot now stands first.
#[inline(always)]
pub fn dequeue<B: Buffer>(
    words: &Words<B>,
    token: &mut Token<B>,
    ring: &Ring,
) -> Result<(u64, u32), Without>
    requires own { (token.old.table_id ≡ words.now.table_id)
        × (words.now.table_id.words ≡ word_count words.now.key.setup) }
    requires ring { IsRing words.now.key.setup ring.now }
    requires alone { IsAlone token.old.me.0.known }
    requires idle { (my_phase token.old.me.0.known ≡ Idle)
        × ((my token.old.me.0.known).part.spent ≡ None) }
    ensures own { (token.new.table_id ≡ token.old.table_id) × (token.new.id ≡ token.old.id) }
    ensures went { Went words.now.key.setup
        (opening_of B.contents words.now.key.given.value.items) token.old.me.0 token.new.me.0 }
    ensures got { IfOk result (λ r.
        HasGotAfter (LiesIn B.contents B.IsSameBuffer words.now.key.given.value.items)
        words.now.key.setup ring.now.number r.0 r.1
        (known_me token.old.me) (known_me token.new.me)) }
    ensures nothing { (drawn : Option ℕ) → result ≡ Err (Without.Nothing drawn)
        → HasFoundNone words.now.key.setup ring.now.number drawn
        (known_me token.old.me) (known_me token.new.me) }
    ensures spent { (ticket : ℕ) → result ≡ Err (Without.Spent ticket)
        → HasSpentGet words.now.key.setup ring.now.number ticket
        (known_me token.old.me) (known_me token.new.me) }
{
    if load(words, token, ring.threshold()) < ZERO_LEVEL {
        return Err(Without::Nothing(None));
    }
    'draws: loop {
        let ticket = draw(words, token, ring.head());
        if ticket >= ring.limit {
            return Err(Without::Spent(ticket));
        }
        if let Some(index) = try_take(words, token, ring, ticket) {
            return Ok((ticket, index));
        }
        if give_up(words, token, ring, ticket) {
            return Err(Without::Nothing(Some(ticket)));
        }
    }
}
