//! The end of a band: each slot that a seat holds goes home to the table, the seats' views are
//! joined into one, and the table is closed.
ghost use Rattle.std.specs.Prelude.{◌≡◌, ℕ, ◌+◌, ◌^◌, ◌<◌, ◌≤◌, Bool, true, false, is_none, IsTrue};
ghost use Rattle.std.specs.Prelude.{None, [], ◌∷◌, map, length, vec_len, sum_by, All};
ghost use Rattle.std.specs.List.Sorted.{IsPermutation};
ghost use Rattle.atomic_table.specs.Table.{rest};
ghost use Rattle.scq_law.specs.Exports.{times};
ghost use Rattle.scq_band.specs.Slots.{SlotStanding};
ghost use Rattle.scq_band.specs.Buffers.{LiesIn, opening_of};
ghost use Rattle.scq_band.specs.Steps.{my, front_index, front_bytes};
ghost use Rattle.scq_band.specs.Kept.{identity_of, AreNoted};
ghost use Rattle.scq_band.specs.Closing.{indices_of, lifted_of, IsOneRunToTheEnd, AreTheLifted};
ghost use Rattle.scq_band.specs.Closing.{HoldsLifted};
ghost use Rattle.scq_band.specs.Closing.{RecordsAgree, IndicesAgree, BuffersComeBack, RetiredAgree};
ghost use Rattle.scq_band.specs.Closing.{SpentAgree, all_calls, all_hands, all_known, all_spent};
ghost use Rattle.scq_band.specs.Closing.{callers_of};
ghost use Rattle.scq_band.specs.Homes.{at_home, MayBring, IsLaidBack, AreHoles, times_lifted};
ghost use Rattle.scq_band.specs.Homes.{WentHome, OutOrHome, AllOutGiven, MayLeave, IsMemberOf};
ghost use Rattle.scq_band.specs.Homes.{HasAll, all_seen};
ghost use Rattle.scq_band.specs.Sights.{known_me};

use crate::badges::take_in;
use crate::band::Band;
use crate::hand::bring_to_front;
use crate::layout::GATE;
use crate::leftovers::{count_left, unload};
use crate::lending::lay_first;
use crate::lifted::Lifted;
use crate::rule::{Token, Words};
use crate::seat::Seat;
use crate::slot::{Slot, TellsHoles};
use crate::told::load_told;
use scq_word::Buffer;
use std::marker::Brand;

/// The slot that stands first goes home. Only the view changes: it does so at a step of the table,
/// and a load is one that leaves the words as they are. So the gate is loaded, and its number isn't
/// used.
fn bring_home<B: Buffer>(words: &Words<B>, token: &mut Token<B>)
    requires own { token.old.table_id ≡ words.now.table_id }
    requires room { 0 < words.now.table_id.words }
    requires may { MayBring (LiesIn B.contents B.IsSameBuffer words.now.key.given.value.items)
        (front_bytes B.contents token.old.me.1)
        (known_me token.old.me) }
    ensures own { (token.new.table_id ≡ token.old.table_id) × (token.new.id ≡ token.old.id) }
    ensures home { known_me token.new.me
        ≡ (
          at_home ((front_index token.old.me.1, front_bytes B.contents token.old.me.1)
              ∷ []) token.old.me.0.known,
          rest token.old.me.1,
        ) }
    ensures seen { token.new.me.0.seen ≡ token.old.me.0.seen }
{
    load_told::<B, Brand>(words, token, GATE);
}

/// How it is told whether a slot is a hole.
pub trait Looks<B: Buffer> {
    // Whether every slot that it looks at is one.
    ghost all: { Bool };

    fn is_hole(slot: &Slot<B>) -> bool
        requires { IsTrue Self.all → slot.now.buffer ≡ None }
        ensures { result ≡ is_none slot.now.buffer };
}

/// By what stands in it.
pub struct ByPlace {}

impl<B: TellsHoles> Looks<B> for ByPlace {
    ghost all = { false };

    fn is_hole(slot: &Slot<B>) -> bool {
        B::is_hole(&slot.place)
    }
}

/// It is one, as each buffer of the seats is lifted.
pub struct NoneLaid {}

impl<B: Buffer> Looks<B> for NoneLaid {
    ghost all = { true };

    fn is_hole(_slot: &Slot<B>) -> bool {
        true
    }
}

/// Takes the buffer of an index out of those that were lifted.
fn take_out<B, T: Lifted<B>>(out: &mut Vec<T>, index: u32) -> B
    requires { 0 < times index (indices_of (map T.pair out.old.items)) }
    ensures { IsPermutation (map T.pair out.old.items) ((index, result)
        ∷ map T.pair out.new.items) }
{
    let mut at = 0;
    while at < out.len() {
        if out[at].index() == index {
            return out.swap_remove(at).into_buffer();
        }
        at += 1;
    }
    unreachable!()
}

/// The slot that stands first, that of the index, has its buffer again where that was lifted.
fn lay_back<B: Buffer, T: Lifted<B>, L: Looks<B>>(
    words: &Words<B>,
    token: &mut Token<B>,
    index: u32,
    out: &mut Vec<T>,
)
    requires own { token.old.table_id ≡ words.now.table_id }
    requires first { (slot : SlotStanding B)
        × (token.old.me.1 ≡ (index, slot) ∷ rest token.old.me.1)
        × (IsTrue (is_none slot.buffer) → 0 < times index (indices_of (map T.pair out.old.items)))
        × (IsTrue L.all → slot.buffer ≡ None) }
    ensures own { (token.new.table_id ≡ token.old.table_id) × (token.new.id ≡ token.old.id) }
    ensures view { token.new.me.0 ≡ token.old.me.0 }
    ensures laid { IsLaidBack index token.old.me.1 (map T.pair out.old.items) token.new.me.1
        (map T.pair out.new.items) }
{
    let slot = words.exchange(token, index as usize, Slot::hole());
    let buffer = if L::is_hole(&slot) {
        slot.end();
        take_out(out, index)
    } else {
        slot.lift()
    };
    lay_first(words, token, index, buffer);
}

/// All slots of a seat, which are those of the indices that are noted as held, go home, each with
/// its buffer.
fn bring_all<B: Buffer, T: Lifted<B>, L: Looks<B>>(
    words: &Words<B>,
    token: &mut Token<B>,
    held: Vec<bool>,
    out: &mut Vec<T>,
)
    requires own { token.old.table_id ≡ words.now.table_id }
    requires room { 0 < words.now.table_id.words }
    requires may { MayLeave B.IsSameBuffer words.now.key.given.value.items
        (known_me token.old.me) (map T.pair out.old.items) }
    requires noted { AreNoted held.items token.old.me.1 }
    requires few { vec_len held < 2 ^ 32 }
    requires holes { IsTrue L.all → AreHoles token.old.me.1 }
    ensures own { (token.new.table_id ≡ token.old.table_id) × (token.new.id ≡ token.old.id) }
    ensures home { WentHome B.contents (known_me token.old.me) (map T.pair out.old.items)
        (known_me token.new.me) (map T.pair out.new.items) }
    ensures none { token.new.me.1 ≡ [] }
    ensures seen { token.new.me.0.seen ≡ token.old.me.0.seen }
    ensures less { (i : ℕ) → times i (indices_of (map T.pair out.new.items))
        + times_lifted i token.old.me.1 ≡ times i (indices_of (map T.pair out.old.items)) }
    ensures given { AllOutGiven B.IsSameBuffer words.now.key.given.value.items
        (map T.pair out.new.items) }
{
    let count = held.len() as u32;
    for index in 0..count {
        if !held[index as usize] {
            continue;
        }
        bring_to_front(token, index);
        lay_back::<B, T, L>(words, token, index, out);
        bring_home(words, token);
    }
}

/// Brings all slots of a seat home, and answers its token.
fn bring_seat_home<B: Buffer, T: Lifted<B>, L: Looks<B>>(
    words: &Words<B>,
    seat: Seat<B>,
    out: &mut Vec<T>,
) -> Token<B>
    requires band { seat.band ≡ identity_of words.now.table_id words.now.key }
    requires room { 0 < words.now.table_id.words }
    requires lifted { (i : ℕ)
        → times i (lifted_of seat.hand) ≤ times i (indices_of (map T.pair out.old.items)) }
    requires holes { IsTrue L.all → HoldsLifted seat }
    requires given { AllOutGiven B.IsSameBuffer words.now.key.given.value.items
        (map T.pair out.old.items) }
    ensures own { result.table_id ≡ words.now.table_id }
    ensures alone { result.me.0.known.seats ≡ my result.me.0.known ∷ [] }
    ensures member { IsMemberOf B.contents seat (my result.me.0.known) }
    ensures home { OutOrHome B.contents (map T.pair out.old.items) (map T.pair out.new.items)
        (my result.me.0.known ∷ []) }
    ensures numbers { (result.me.0.known.numbers ≡ seat.numbers)
        × (length seat.numbers ≡ words.now.key.setup.rings) }
    ensures gate { result.me.0.known.gate ≡ seat.gate }
    ensures seen { result.me.0.seen ≡ seat.seen }
    ensures none { result.me.1 ≡ [] }
    ensures less { (i : ℕ) → times i (indices_of (map T.pair out.new.items))
        + times i (lifted_of seat.hand) ≡ times i (indices_of (map T.pair out.old.items)) }
    ensures given { AllOutGiven B.IsSameBuffer words.now.key.given.value.items
        (map T.pair out.new.items) }
{
    let Seat {
        mut token,
        key: _,
        held,
        numbers: _,
        spent: _,
    } = seat;
    bring_all::<B, T, L>(words, &mut token, held, out);
    token
}

/// Joins the tokens of all seats into one, in whose view each of them stands. What was lifted is
/// laid back.
pub fn gather<B: Buffer, T: Lifted<B>, L: Looks<B>>(
    words: &Words<B>,
    mut seats: Vec<Seat<B>>,
    mut out: Vec<T>,
) -> Token<B>
    requires bands { All (λ s. s.band ≡ identity_of words.now.table_id words.now.key) seats.items }
    requires some { 0 < vec_len seats }
    requires room { 0 < words.now.table_id.words }
    requires lifted { (i : ℕ) → times i (indices_of (map T.pair out.items))
        ≡ sum_by (λ s. times i (lifted_of s.hand)) seats.items }
    requires given { AllOutGiven B.IsSameBuffer words.now.key.given.value.items
        (map T.pair out.items) }
    requires holes { All (λ s. IsTrue L.all → HoldsLifted s) seats.items }
    ensures own { result.table_id ≡ words.now.table_id }
    ensures all { HasAll B.contents words.now.key.setup.rings seats.items result.me.0.known }
    ensures home { OutOrHome B.contents (map T.pair out.items) [] result.me.0.known.seats }
    ensures seen { result.me.0.seen ≡ all_seen seats.items }
{
    let Some(last) = seats.pop() else {
        unreachable!()
    };
    let mut first = bring_seat_home::<B, T, L>(words, last, &mut out);
    while let Some(seat) = seats.pop() {
        let token = bring_seat_home::<B, T, L>(words, seat, &mut out);
        take_in(words, &mut first, token);
    }
    seats.destroy_empty();
    out.destroy_empty();
    first
}

/// What is left of a band: its buffers in order of index, and for each ring how many indices were
/// left in it.
#[derive(Drop)]
pub struct BandClosed<B> {
    pub buffers: Vec<B>,
    pub left: Vec<u64>,
}

impl<B: TellsHoles> Band<B> {
    /// Closes a band whose seats all come back. The buffers that are lifted come in `out`, each
    /// with its index, as pairs or in a type that has more beside them; they are laid back, and all
    /// buffers are handed out. Takes no memory.
    ///
    /// The clauses read the seats' records, hands and numbers together, in the order in which the
    /// seats are given. One run stands behind all their calls: what each seat had seen are prefixes
    /// of it, its history has the four aspects, and the calls of each ring stand in one order in
    /// which every reply is a plain queue's.
    pub fn close<T: Lifted<B>>(self, seats: Vec<Seat<B>>, out: Vec<T>) -> BandClosed<B>
        requires seats { All (λ s. s.band ≡ self) seats.items }
        requires all { vec_len seats ≡ self.setup.seats }
        requires out { AreTheLifted B.IsSameBuffer self seats.items (map T.pair out.items) }
        ensures run { IsOneRunToTheEnd self.setup (opening_of B.contents self.given)
            (callers_of seats.items) (all_calls seats.items) (all_hands seats.items)
            (map B.contents result.buffers.items) }
        ensures buffers { BuffersComeBack B.contents B.IsSameBuffer self seats.items
            (map T.pair out.items) result.buffers.items }
        ensures records { RecordsAgree self.setup (opening_of B.contents self.given)
            (all_calls seats.items) (all_known seats.items) }
        ensures indices { IndicesAgree self.setup (all_calls seats.items) (all_hands seats.items)
            result.left.items }
        ensures retired { RetiredAgree seats.items }
        ensures spent { SpentAgree self.setup (all_calls seats.items)
            (all_spent seats.items) }
    {
        self.close_by::<T, ByPlace>(seats, out)
    }
}

impl<B: Buffer> Band<B> {
    /// Closes a band as `close` does, where each buffer in the hands of its seats is lifted.
    pub fn close_lifted<T: Lifted<B>>(self, seats: Vec<Seat<B>>, out: Vec<T>) -> BandClosed<B>
        requires lifted { All HoldsLifted seats.items }
        requires seats { All (λ s. s.band ≡ self) seats.items }
        requires all { vec_len seats ≡ self.setup.seats }
        requires out { AreTheLifted B.IsSameBuffer self seats.items (map T.pair out.items) }
        ensures run { IsOneRunToTheEnd self.setup (opening_of B.contents self.given)
            (callers_of seats.items) (all_calls seats.items) (all_hands seats.items)
            (map B.contents result.buffers.items) }
        ensures buffers { BuffersComeBack B.contents B.IsSameBuffer self seats.items
            (map T.pair out.items) result.buffers.items }
        ensures records { RecordsAgree self.setup (opening_of B.contents self.given)
            (all_calls seats.items) (all_known seats.items) }
        ensures indices { IndicesAgree self.setup (all_calls seats.items) (all_hands seats.items)
            result.left.items }
        ensures retired { RetiredAgree seats.items }
        ensures spent { SpentAgree self.setup (all_calls seats.items)
            (all_spent seats.items) }
    {
        self.close_by::<T, NoneLaid>(seats, out)
    }

    fn close_by<T: Lifted<B>, L: Looks<B>>(self, seats: Vec<Seat<B>>, out: Vec<T>) -> BandClosed<B>
        requires holes { All (λ s. IsTrue L.all → HoldsLifted s) seats.items }
        requires seats { All (λ s. s.band ≡ self) seats.items }
        requires all { vec_len seats ≡ self.setup.seats }
        requires out { AreTheLifted B.IsSameBuffer self seats.items (map T.pair out.items) }
        ensures run { IsOneRunToTheEnd self.setup (opening_of B.contents self.given)
            (callers_of seats.items) (all_calls seats.items) (all_hands seats.items)
            (map B.contents result.buffers.items) }
        ensures buffers { BuffersComeBack B.contents B.IsSameBuffer self seats.items
            (map T.pair out.items) result.buffers.items }
        ensures records { RecordsAgree self.setup (opening_of B.contents self.given)
            (all_calls seats.items) (all_known seats.items) }
        ensures indices { IndicesAgree self.setup (all_calls seats.items) (all_hands seats.items)
            result.left.items }
        ensures retired { RetiredAgree seats.items }
        ensures spent { SpentAgree self.setup (all_calls seats.items)
            (all_spent seats.items) }
    {
        let Band {
            table,
            setup,
            rings: _rings,
            mut buffers,
            mut left,
        } = self;
        let all = gather::<B, T, L>(&table.shared, seats, out);
        let mut closed = table.close_with(all);
        count_left(&closed, &setup, &mut left);
        unload(&mut closed, &mut buffers);
        closed.free();
        BandClosed { buffers, left }
    }
}
