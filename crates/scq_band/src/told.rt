//! The table's operations, where what a step tells is picked at each call.
ghost use Rattle.std.specs.Prelude.{◌≡◌, ℕ, ◌+◌, ◌-◌, ◌%◌, ◌^◌, ◌<◌, ◌==◌, bit_or};
ghost use prog.Atomic.{either};
ghost use Rattle.atomic_table.specs.Table.{Me, Allows};
ghost use Rattle.scq_band.specs.Slots.{SlotStanding};
ghost use Rattle.scq_band.specs.Sights.{Sight, ShowsRun};
ghost use Rattle.scq_band.specs.Buffers.{LiesIn, opening_of};

use crate::rule::{Token, Words};
use crate::slot::Slot;
use crate::view::View;
use atomic_table::Play;
use scq_word::Buffer;
use std::marker::{Brand, PhantomData};

/// What a step tells the seat that makes it: of the seat before, the number found and the seat
/// after. It is picked at each call, in the proof of its caller (`ghosts-..` in its
/// Invariants.antt), so it has no bound.
pub trait Tells<B> {
    ghost tells: { Me (SlotStanding B) Sight → ℕ → Me (SlotStanding B) Sight → Type 0 };
}

// This stands for a call that picks nothing.
impl<B> Tells<B> for Brand {
    ghost tells = { λ _ _ _. Unit {0} };
}

/// The table's own form of what is told.
struct Told<T> {
    tells: PhantomData<T>,
}

impl<B: Buffer, T: Tells<B>> Play<Slot<B>, View> for Told<T> {
    ghost then = { λ _. T.tells };
}

/// A load.
#[inline(always)]
pub fn load_told<B: Buffer, T: Tells<B>>(words: &Words<B>, token: &mut Token<B>, word: usize) -> u64
    requires own { token.old.table_id ≡ words.now.table_id }
    requires low { word < words.now.table_id.words }
    requires allows { Allows
        (ShowsRun (LiesIn B.contents B.IsSameBuffer words.now.key.given.value.items)
        (opening_of B.contents words.now.key.given.value.items) words.now.key.setup)
        words.now.table_id.slots token.old.id token.old.me word (λ n. n)
        (T.tells token.old.me) }
    ensures own { (token.new.table_id ≡ token.old.table_id) × (token.new.id ≡ token.old.id) }
    ensures told { T.tells token.old.me result token.new.me }
{
    words.load::<Told<T>>(token, word)
}

/// A store of `new`.
#[inline(always)]
pub fn store_told<B: Buffer, T: Tells<B>>(
    words: &Words<B>,
    token: &mut Token<B>,
    word: usize,
    new: u64,
)
    requires own { token.old.table_id ≡ words.now.table_id }
    requires low { word < words.now.table_id.words }
    requires allows { Allows
        (ShowsRun (LiesIn B.contents B.IsSameBuffer words.now.key.given.value.items)
        (opening_of B.contents words.now.key.given.value.items) words.now.key.setup)
        words.now.table_id.slots token.old.id token.old.me word (λ _. new)
        (λ _. T.tells token.old.me new) }
    ensures own { (token.new.table_id ≡ token.old.table_id) × (token.new.id ≡ token.old.id) }
    ensures told { T.tells token.old.me new token.new.me }
{
    words.store::<Told<T>>(token, word, new);
}

/// A fetch-and-add of `k`.
#[inline(always)]
pub fn add_told<B: Buffer, T: Tells<B>>(
    words: &Words<B>,
    token: &mut Token<B>,
    word: usize,
    k: u64,
) -> u64
    requires own { token.old.table_id ≡ words.now.table_id }
    requires low { word < words.now.table_id.words }
    requires allows { Allows
        (ShowsRun (LiesIn B.contents B.IsSameBuffer words.now.key.given.value.items)
        (opening_of B.contents words.now.key.given.value.items) words.now.key.setup)
        words.now.table_id.slots token.old.id token.old.me word (λ n. (n + k) % 2 ^ 64)
        (T.tells token.old.me) }
    ensures own { (token.new.table_id ≡ token.old.table_id) × (token.new.id ≡ token.old.id) }
    ensures told { T.tells token.old.me result token.new.me }
{
    words.fetch_add::<Told<T>>(token, word, k)
}

/// A fetch-and-subtract of `k`.
#[inline(always)]
pub fn subtract_told<B: Buffer, T: Tells<B>>(
    words: &Words<B>,
    token: &mut Token<B>,
    word: usize,
    k: u64,
) -> u64
    requires own { token.old.table_id ≡ words.now.table_id }
    requires low { word < words.now.table_id.words }
    requires allows { Allows
        (ShowsRun (LiesIn B.contents B.IsSameBuffer words.now.key.given.value.items)
        (opening_of B.contents words.now.key.given.value.items) words.now.key.setup)
        words.now.table_id.slots token.old.id token.old.me word (λ n. (n + (2 ^ 64 - k)) % 2 ^ 64)
        (T.tells token.old.me) }
    ensures own { (token.new.table_id ≡ token.old.table_id) × (token.new.id ≡ token.old.id) }
    ensures told { T.tells token.old.me result token.new.me }
{
    words.fetch_sub::<Told<T>>(token, word, k)
}

/// A fetch-and-or of `k`.
#[inline(always)]
pub fn or_told<B: Buffer, T: Tells<B>>(
    words: &Words<B>,
    token: &mut Token<B>,
    word: usize,
    k: u64,
) -> u64
    requires own { token.old.table_id ≡ words.now.table_id }
    requires low { word < words.now.table_id.words }
    requires allows { Allows
        (ShowsRun (LiesIn B.contents B.IsSameBuffer words.now.key.given.value.items)
        (opening_of B.contents words.now.key.given.value.items) words.now.key.setup)
        words.now.table_id.slots token.old.id token.old.me word (λ n. bit_or n k)
        (T.tells token.old.me) }
    ensures own { (token.new.table_id ≡ token.old.table_id) × (token.new.id ≡ token.old.id) }
    ensures told { T.tells token.old.me result token.new.me }
{
    words.fetch_or::<Told<T>>(token, word, k)
}

/// A compare-and-exchange: answers the word as it was, which has become `new` if it was `old`.
#[inline(always)]
pub fn exchange_told<B: Buffer, T: Tells<B>>(
    words: &Words<B>,
    token: &mut Token<B>,
    word: usize,
    old: u64,
    new: u64,
) -> u64
    requires own { token.old.table_id ≡ words.now.table_id }
    requires low { word < words.now.table_id.words }
    requires allows { Allows
        (ShowsRun (LiesIn B.contents B.IsSameBuffer words.now.key.given.value.items)
        (opening_of B.contents words.now.key.given.value.items) words.now.key.setup)
        words.now.table_id.slots token.old.id token.old.me word (λ n. either (n == old) new n)
        (T.tells token.old.me) }
    ensures own { (token.new.table_id ≡ token.old.table_id) × (token.new.id ≡ token.old.id) }
    ensures told { T.tells token.old.me result token.new.me }
{
    words.compare_exchange::<Told<T>>(token, word, old, new)
}
