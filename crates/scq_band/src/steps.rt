//! The six atomic operations that the machine's sixteen steps are made of. Each makes one step of
//! the seat: the one that its call is at, or the first of a call. Only an enqueue's exchange from a
//! guess makes two at once, E2 and E4, if the guess is right.
ghost use Rattle.std.specs.Prelude.{◌≡◌, ◌<◌};
ghost use Rattle.scq_word.specs.Exports.{mark_of};
ghost use Rattle.scq_core.specs.Exports.{ring_slots, reset_level, location_of};
ghost use Rattle.scq_band.specs.Exports.{at, LiesIn, opening_of, MayTurn, Carries, Turned};
ghost use Rattle.scq_band.specs.Exports.{known_me, Went, my_phase, load_turn, draw_turn, OnlyReads};
ghost use Rattle.scq_band.specs.Exports.{IsDraw, Exchanges, IsReset, IsTakingTurn, IsCountDown};
ghost use Rattle.scq_band.specs.Exports.{IsAlone};
ghost use Rattle.scq_band.specs.Guesses.{Guesses, CarriesGuess, Guessed};

use crate::rule::{Token, Words};
use crate::told::{add_told, exchange_told, load_told, or_told, store_told, subtract_told};
use scq_word::Buffer;
use std::marker::Brand;

/// E2, E3, E5, D1, D3, D6, D8 and D9: a load.
#[inline(always)]
pub fn load<B: Buffer>(words: &Words<B>, token: &mut Token<B>, word: usize) -> u64
    requires own { token.old.table_id ≡ words.now.table_id }
    requires low { word < words.now.table_id.words }
    requires may { MayTurn words.now.key.setup token.old.me.0.known
        (load_turn words.now.key.setup word token.old.me.0.known) }
    requires kind { OnlyReads (load_turn words.now.key.setup word token.old.me.0.known) }
    requires word { word
        ≡ at words.now.key.setup
        (location_of words.now.key.setup
        (load_turn words.now.key.setup word token.old.me.0.known)) }
    ensures own { (token.new.table_id ≡ token.old.table_id) × (token.new.id ≡ token.old.id) }
    ensures turned { Turned
        (LiesIn B.contents B.IsSameBuffer words.now.key.given.value.items) words.now.key.setup
        (load_turn words.now.key.setup word token.old.me.0.known) (known_me token.old.me) result
        (known_me token.new.me) }
    ensures went { Went words.now.key.setup
        (opening_of B.contents words.now.key.given.value.items) token.old.me.0 token.new.me.0 }
{
    load_told::<B, Brand>(words, token, word)
}

/// E1 and D2: a fetch-and-add, which draws a ticket from Tail or Head.
#[inline(always)]
pub fn draw<B: Buffer>(words: &Words<B>, token: &mut Token<B>, word: usize) -> u64
    requires own { token.old.table_id ≡ words.now.table_id }
    requires low { word < words.now.table_id.words }
    requires may { MayTurn words.now.key.setup token.old.me.0.known
        (draw_turn B.contents words.now.key.setup word (known_me token.old.me)) }
    requires kind { IsDraw (draw_turn B.contents words.now.key.setup word (known_me token.old.me)) }
    requires word { word
        ≡ at words.now.key.setup
        (location_of words.now.key.setup
        (draw_turn B.contents words.now.key.setup word (known_me token.old.me))) }
    ensures own { (token.new.table_id ≡ token.old.table_id) × (token.new.id ≡ token.old.id) }
    ensures turned { Turned
        (LiesIn B.contents B.IsSameBuffer words.now.key.given.value.items) words.now.key.setup
        (draw_turn B.contents words.now.key.setup word (known_me token.old.me))
        (known_me token.old.me) result (known_me token.new.me) }
    ensures went { Went words.now.key.setup
        (opening_of B.contents words.now.key.given.value.items) token.old.me.0 token.new.me.0 }
{
    add_told::<B, Brand>(words, token, word, 1)
}

/// E4, D5 and D7: a compare-and-exchange. Answers the word as it was; it has become `new` if it was
/// `old`.
#[inline(always)]
pub fn exchange<B: Buffer>(
    words: &Words<B>,
    token: &mut Token<B>,
    word: usize,
    old: u64,
    new: u64,
) -> u64
    requires own { token.old.table_id ≡ words.now.table_id }
    requires low { word < words.now.table_id.words }
    requires may { MayTurn words.now.key.setup token.old.me.0.known
        (my_phase token.old.me.0.known) }
    requires kind { Exchanges words.now.key.setup (my_phase token.old.me.0.known) old new }
    requires word { word
        ≡ at words.now.key.setup (location_of words.now.key.setup (my_phase token.old.me.0.known)) }
    requires carries { Carries (LiesIn B.contents B.IsSameBuffer words.now.key.given.value.items)
        (my_phase token.old.me.0.known) token.old.me.1 }
    ensures own { (token.new.table_id ≡ token.old.table_id) × (token.new.id ≡ token.old.id) }
    ensures turned { Turned
        (LiesIn B.contents B.IsSameBuffer words.now.key.given.value.items) words.now.key.setup
        (my_phase token.old.me.0.known)
        (known_me token.old.me) result (known_me token.new.me) }
    ensures went { Went words.now.key.setup
        (opening_of B.contents words.now.key.given.value.items) token.old.me.0 token.new.me.0 }
{
    exchange_told::<B, Brand>(words, token, word, old, new)
}

/// E2 and E4 at once: a compare-and-exchange from a guess of the entry. Answers the entry as it
/// was. If it was as guessed it has become `new`; else the seat has made E2 alone.
#[inline(always)]
pub fn place_or_load<B: Buffer>(
    words: &Words<B>,
    token: &mut Token<B>,
    word: usize,
    guess: u64,
    new: u64,
) -> u64
    requires own { token.old.table_id ≡ words.now.table_id }
    requires low { word < words.now.table_id.words }
    requires alone { IsAlone token.old.me.0.known }
    requires kind { Guesses words.now.key.setup (my_phase token.old.me.0.known) guess new }
    requires word { word
        ≡ at words.now.key.setup (location_of words.now.key.setup (my_phase token.old.me.0.known)) }
    requires carries { CarriesGuess
        (LiesIn B.contents B.IsSameBuffer words.now.key.given.value.items)
        (my_phase token.old.me.0.known) token.old.me.1 }
    ensures own { (token.new.table_id ≡ token.old.table_id) × (token.new.id ≡ token.old.id) }
    ensures guessed { Guessed
        (LiesIn B.contents B.IsSameBuffer words.now.key.given.value.items) words.now.key.setup
        (my_phase token.old.me.0.known) guess
        (known_me token.old.me) result (known_me token.new.me) }
    ensures went { Went words.now.key.setup
        (opening_of B.contents words.now.key.given.value.items) token.old.me.0 token.new.me.0 }
{
    exchange_told::<B, Brand>(words, token, word, guess, new)
}

/// E6: the reset value into Threshold.
#[inline(always)]
pub fn reset<B: Buffer>(words: &Words<B>, token: &mut Token<B>, word: usize, level: u64)
    requires own { token.old.table_id ≡ words.now.table_id }
    requires low { word < words.now.table_id.words }
    requires may { MayTurn words.now.key.setup token.old.me.0.known
        (my_phase token.old.me.0.known) }
    requires kind { IsReset (my_phase token.old.me.0.known) }
    requires word { word
        ≡ at words.now.key.setup (location_of words.now.key.setup (my_phase token.old.me.0.known)) }
    requires level { level ≡ reset_level words.now.key.setup }
    ensures own { (token.new.table_id ≡ token.old.table_id) × (token.new.id ≡ token.old.id) }
    ensures turned { Turned
        (LiesIn B.contents B.IsSameBuffer words.now.key.given.value.items) words.now.key.setup
        (my_phase token.old.me.0.known)
        (known_me token.old.me) level (known_me token.new.me) }
    ensures went { Went words.now.key.setup
        (opening_of B.contents words.now.key.given.value.items) token.old.me.0 token.new.me.0 }
{
    store_told::<B, Brand>(words, token, word, level)
}

/// D4: a fetch-and-or of the mark, which takes the index out of the entry.
#[inline(always)]
pub fn consume<B: Buffer>(words: &Words<B>, token: &mut Token<B>, word: usize, mark: u64) -> u64
    requires own { token.old.table_id ≡ words.now.table_id }
    requires low { word < words.now.table_id.words }
    requires may { MayTurn words.now.key.setup token.old.me.0.known
        (my_phase token.old.me.0.known) }
    requires kind { IsTakingTurn (my_phase token.old.me.0.known) }
    requires word { word
        ≡ at words.now.key.setup (location_of words.now.key.setup (my_phase token.old.me.0.known)) }
    requires mark { mark ≡ mark_of (ring_slots words.now.key.setup) }
    ensures own { (token.new.table_id ≡ token.old.table_id) × (token.new.id ≡ token.old.id) }
    ensures turned { Turned
        (LiesIn B.contents B.IsSameBuffer words.now.key.given.value.items) words.now.key.setup
        (my_phase token.old.me.0.known)
        (known_me token.old.me) result (known_me token.new.me) }
    ensures went { Went words.now.key.setup
        (opening_of B.contents words.now.key.given.value.items) token.old.me.0 token.new.me.0 }
{
    or_told::<B, Brand>(words, token, word, mark)
}

/// D10: one off Threshold.
#[inline(always)]
pub fn count_down<B: Buffer>(words: &Words<B>, token: &mut Token<B>, word: usize) -> u64
    requires own { token.old.table_id ≡ words.now.table_id }
    requires low { word < words.now.table_id.words }
    requires may { MayTurn words.now.key.setup token.old.me.0.known
        (my_phase token.old.me.0.known) }
    requires kind { IsCountDown (my_phase token.old.me.0.known) }
    requires word { word
        ≡ at words.now.key.setup (location_of words.now.key.setup (my_phase token.old.me.0.known)) }
    ensures own { (token.new.table_id ≡ token.old.table_id) × (token.new.id ≡ token.old.id) }
    ensures turned { Turned
        (LiesIn B.contents B.IsSameBuffer words.now.key.given.value.items) words.now.key.setup
        (my_phase token.old.me.0.known)
        (known_me token.old.me) result (known_me token.new.me) }
    ensures went { Went words.now.key.setup
        (opening_of B.contents words.now.key.given.value.items) token.old.me.0 token.new.me.0 }
{
    subtract_told::<B, Brand>(words, token, word, 1)
}
