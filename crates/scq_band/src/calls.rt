//! The calls on a ring: enqueue (`enq`, and `put`, which lays a buffer first) and dequeue (`deq`,
//! and `get`, which lifts a buffer then). They are lock-free, with a bound: among any `k b + 1`
//! steps of a run one ends a call, for `k` seats and `b` of `scq_law`'s `specs/Progress`, and only
//! what others end on its ring delays a call (field `delayed` of `IsCallInRun`). None waits for
//! another seat. As tickets are finite each also ends after a bounded number of its own steps,
//! which the field calls wait-free; but that bound is astronomical. The linearization points are
//! those of `scq_law`'s `specs/Points`: of an enqueue mostly the step that drew its place, of a
//! dequeue the one that drew its own or the enqueue's point, whichever is later, and of an Empty
//! the step that decided it.
ghost use Rattle.std.specs.Prelude.{◌≡◌, ℕ, ◌+◌, ◌^◌, ◌<◌, ◌≤◌, false, Some, None, Err, IfOk};
ghost use Rattle.std.specs.Prelude.{IfErr, length, slice_set};
ghost use Rattle.scq_band.specs.Buffers.{opening_of};
ghost use Rattle.scq_band.specs.Numbers.{known_of, changed, finishes, sees, passes, RisesInHead};
ghost use Rattle.scq_band.specs.RunSeen.{IsCallInRun};
ghost use Rattle.scq_band.specs.Standing.{caller_of, in_hand, bytes_in_hand, having_seen};
ghost use Rattle.scq_band.specs.Standing.{seat_after_spent_put, seat_after_spent_get, IsAsGiven};
ghost use Rattle.scq_band.specs.Standing.{SeatHasPut, SeatHasDequeued, SeatFoundNone};
ghost use Rattle.scq_band.specs.Lifting.{SeatHasGotLifted};

use crate::band::Band;
use crate::dequeue::{Without, dequeue};
use crate::enqueue::enqueue;
use crate::hand::bring_to_front;
use crate::lending::{lay_first, lift_first};
use crate::numbers::Numbers;
use crate::seat::Seat;
use scq_word::Buffer;

/// The ticket that a seat keeps: it was at or past the limit.
#[derive(Clone, Copy, Debug, PartialEq, Eq)]
pub struct Spent {
    pub ticket: u64,
}

/// Why a dequeue answers no index: the ring was empty, its Head being at or past this number, or
/// the seat keeps a ticket at or past the limit.
#[derive(Clone, Copy, Debug, PartialEq, Eq)]
pub enum DeqRefusal {
    Empty { head: u64 },
    Spent { ticket: u64 },
}

// An index of a seat's hand was enqueued at a place: it leaves the hand, and the place is known to
// be finished.
#[inline(always)]
fn let_go(held: &mut Vec<bool>, numbers: &mut Vec<Numbers>, ring: u32, index: u32, place: u64)
    requires there { index < length held.old.items }
    requires low { ring < length numbers.old.items }
    requires above { (known_of numbers.old.items ring).seen < place }
    requires order { (known_of numbers.old.items ring).finished
        ≤ (known_of numbers.old.items ring).seen }
    ensures held { held.new.items ≡ slice_set held.old.items index false }
    ensures numbers { numbers.new.items ≡ changed (finishes place) ring numbers.old.items }
{
    held[index as usize] = false;
    let known = numbers[ring as usize];
    numbers[ring as usize] = known.finishes(place);
}

// Notes a dequeue of an index from a place, which is its ticket, and not below the head number. The
// highest place that was seen mostly is higher already, and then isn't written.
#[inline(always)]
fn note_get(numbers: &mut Vec<Numbers>, ring: u32, known: Numbers, place: u64)
    requires low { ring < length numbers.old.items }
    requires known { known ≡ known_of numbers.old.items ring }
    requires above { known.head ≤ place }
    requires small { place + 1 < 2 ^ 64 }
    ensures { numbers.new.items
        ≡ changed (λ x. sees place (passes (place + 1) x)) ring numbers.old.items }
{
    if place > known.seen {
        numbers[ring as usize].seen = place;
        numbers[ring as usize].head = place + 1;
        return;
    }
    numbers[ring as usize].head = place + 1;
}

// Notes a head that rose. Where it didn't, nothing is written: so a call on a ring that stays empty
// doesn't wait for what the last one wrote.
#[inline(always)]
fn note_head(numbers: &mut Vec<Numbers>, ring: u32, known: Numbers, later: Numbers)
    requires low { ring < length numbers.old.items }
    requires known { known ≡ known_of numbers.old.items ring }
    requires rises { RisesInHead known later }
    ensures { numbers.new.items ≡ slice_set numbers.old.items ring later }
{
    if later.head > known.head {
        numbers[ring as usize] = later;
    }
}

impl<B: Buffer> Band<B> {
    /// Enqueues an index that the seat has in its hand, with its buffer: answers its place, which
    /// is below the limit. The call is one of the run of all seats, behind all that the seat had
    /// seen of it. Spent where the ticket that was drawn is at or past the limit; the seat keeps
    /// it, and answers it from then on, with no step made.
    #[inline(always)]
    pub fn enq(&self, seat: &mut Seat<B>, ring: u32, index: u32) -> Result<u64, Spent>
        requires seat { seat.old.band ≡ self.now }
        requires ring { ring < self.now.setup.rings }
        requires held { (buffer : B) × (in_hand seat.old.hand index ≡ Some (Some buffer)) }
        ensures band { seat.new.band ≡ seat.old.band }
        ensures put { IfOk result (λ place. SeatHasPut self.now ring index place
            (bytes_in_hand B.contents seat.old.hand index) seat.old seat.new) }
        ensures spent { IfErr result (λ spent. seat.old.spent ≡ None
            → (seat.new
            ≡ having_seen seat.new.seen (seat_after_spent_put ring spent.ticket seat.old))
            × (self.now.setup.limit ≤ spent.ticket)) }
        ensures run { seat.old.spent ≡ None
            → IsCallInRun self.now.setup (opening_of B.contents self.now.given) (caller_of seat.old)
            (caller_of seat.new) }
        ensures kept { (ticket : ℕ) → seat.old.spent ≡ Some ticket
            → (result ≡ Err (record { ticket = ticket })) × (seat.new ≡ seat.old) }
    {
        if let Some(ticket) = seat.spent {
            return Err(Spent { ticket });
        }
        bring_to_front(&mut seat.token, index);
        match enqueue(&self.table.shared, &mut seat.token, self.ring(ring), index) {
            Ok(place) => {
                let_go(&mut seat.held, &mut seat.numbers, ring, index, place);
                Ok(place)
            }
            Err(ticket) => {
                seat.spent = Some(ticket);
                Err(Spent { ticket })
            }
        }
    }

    /// Lays a buffer back that was lifted, and enqueues its index: what `lay` and `enq` do one
    /// after the other. Where the enqueue is refused, the buffer comes back, and is lifted as it
    /// was.
    #[inline(always)]
    pub fn put(
        &self,
        seat: &mut Seat<B>,
        ring: u32,
        index: u32,
        buffer: B,
    ) -> Result<u64, (B, Spent)>
        requires seat { seat.old.band ≡ self.now }
        requires ring { ring < self.now.setup.rings }
        requires lifted { in_hand seat.old.hand index ≡ Some None }
        requires given { IsAsGiven B.IsSameBuffer self.now.given index buffer }
        ensures band { (seat.new.band ≡ seat.old.band) × (seat.new.number ≡ seat.old.number) }
        ensures put { IfOk result (λ place.
            SeatHasPut self.now ring index place (B.contents buffer) seat.old seat.new) }
        ensures back { IfErr result (λ refused. refused.0 ≡ buffer) }
        ensures spent { IfErr result (λ refused. seat.old.spent ≡ None
            → (seat.new ≡ having_seen seat.new.seen
            (seat_after_spent_put ring refused.1.ticket seat.old))
            × (self.now.setup.limit ≤ refused.1.ticket)) }
        ensures run { seat.old.spent ≡ None
            → IsCallInRun self.now.setup (opening_of B.contents self.now.given) (caller_of seat.old)
            (caller_of seat.new) }
        ensures kept { (ticket : ℕ) → seat.old.spent ≡ Some ticket
            → (result ≡ Err (buffer, record { ticket = ticket })) × (seat.new ≡ seat.old) }
    {
        if let Some(ticket) = seat.spent {
            return Err((buffer, Spent { ticket }));
        }
        bring_to_front(&mut seat.token, index);
        lay_first(&self.table.shared, &mut seat.token, index, buffer);
        match enqueue(&self.table.shared, &mut seat.token, self.ring(ring), index) {
            Ok(place) => {
                let_go(&mut seat.held, &mut seat.numbers, ring, index, place);
                Ok(place)
            }
            Err(ticket) => {
                seat.spent = Some(ticket);
                let buffer = lift_first(&self.table.shared, &mut seat.token, index);
                Err((buffer, Spent { ticket }))
            }
        }
    }

    /// Dequeues an index, with its buffer: answers its place, which is below the limit, and the
    /// index. Empty where the ring was found empty: its Head is at or past the number answered, so
    /// whatever the seat knew to be finished there had been claimed. The number is what the seat's
    /// view knows of Head now, which is true of the words at every moment
    /// (`laws::each_view_knows_the_truth`). In the run of all seats Head was at or past it after
    /// the call's last step, and at a moment inside the call each enqueue of the ring that had
    /// ended was claimed: by the dequeue that got its index, or by one that was under way (the
    /// field `in_run`). Spent as with `enq`.
    #[inline(always)]
    pub fn deq(&self, seat: &mut Seat<B>, ring: u32) -> Result<(u64, u32), DeqRefusal>
        requires seat { seat.old.band ≡ self.now }
        requires ring { ring < self.now.setup.rings }
        ensures band { seat.new.band ≡ seat.old.band }
        ensures got { IfOk result (λ r. SeatHasDequeued B.contents B.IsSameBuffer self.now
            ring r.0 r.1 seat.old seat.new) }
        ensures empty { (head : ℕ) → result ≡ Err (DeqRefusal.Empty head)
            → SeatFoundNone B.contents self.now ring head seat.old seat.new }
        ensures spent { (ticket : ℕ) → result ≡ Err (DeqRefusal.Spent ticket)
            → seat.old.spent ≡ None
            → (seat.new ≡ having_seen seat.new.seen (seat_after_spent_get ring ticket seat.old))
            × (self.now.setup.limit ≤ ticket) }
        ensures run { seat.old.spent ≡ None
            → IsCallInRun self.now.setup (opening_of B.contents self.now.given) (caller_of seat.old)
            (caller_of seat.new) }
        ensures kept { (ticket : ℕ) → seat.old.spent ≡ Some ticket
            → (result ≡ Err (DeqRefusal.Spent ticket)) × (seat.new ≡ seat.old) }
    {
        if let Some(ticket) = seat.spent {
            return Err(DeqRefusal::Spent { ticket });
        }
        let found = dequeue(&self.table.shared, &mut seat.token, self.ring(ring));
        let known = seat.numbers[ring as usize];
        match found {
            Ok((place, index)) => {
                note_get(&mut seat.numbers, ring, known, place);
                seat.held[index as usize] = true;
                Ok((place, index))
            }
            Err(end) => match end {
                Without::Nothing(drawn) => {
                    let later = known.finds_none(drawn);
                    note_head(&mut seat.numbers, ring, known, later);
                    Err(DeqRefusal::Empty { head: later.head })
                }
                Without::Spent(ticket) => {
                    seat.numbers[ring as usize] = known.draws(ticket);
                    seat.spent = Some(ticket);
                    Err(DeqRefusal::Spent { ticket })
                }
            },
        }
    }

    /// Dequeues an index, and lifts its buffer: what `deq` and `lift` do one after the other.
    #[inline(always)]
    pub fn get(&self, seat: &mut Seat<B>, ring: u32) -> Result<(u64, u32, B), DeqRefusal>
        requires seat { seat.old.band ≡ self.now }
        requires ring { ring < self.now.setup.rings }
        ensures band { seat.new.band ≡ seat.old.band }
        ensures got { IfOk result (λ r. SeatHasGotLifted B.contents B.IsSameBuffer self.now
            ring r.0 r.1 r.2 seat.old seat.new) }
        ensures empty { (head : ℕ) → result ≡ Err (DeqRefusal.Empty head)
            → SeatFoundNone B.contents self.now ring head seat.old seat.new }
        ensures spent { (ticket : ℕ) → result ≡ Err (DeqRefusal.Spent ticket)
            → seat.old.spent ≡ None
            → (seat.new ≡ having_seen seat.new.seen (seat_after_spent_get ring ticket seat.old))
            × (self.now.setup.limit ≤ ticket) }
        ensures run { seat.old.spent ≡ None
            → IsCallInRun self.now.setup (opening_of B.contents self.now.given) (caller_of seat.old)
            (caller_of seat.new) }
        ensures kept { (ticket : ℕ) → seat.old.spent ≡ Some ticket
            → (result ≡ Err (DeqRefusal.Spent ticket)) × (seat.new ≡ seat.old) }
    {
        if let Some(ticket) = seat.spent {
            return Err(DeqRefusal::Spent { ticket });
        }
        let found = dequeue(&self.table.shared, &mut seat.token, self.ring(ring));
        let known = seat.numbers[ring as usize];
        match found {
            Ok((place, index)) => {
                note_get(&mut seat.numbers, ring, known, place);
                seat.held[index as usize] = true;
                let buffer = lift_first(&self.table.shared, &mut seat.token, index);
                Ok((place, index, buffer))
            }
            Err(end) => match end {
                Without::Nothing(drawn) => {
                    let later = known.finds_none(drawn);
                    note_head(&mut seat.numbers, ring, known, later);
                    Err(DeqRefusal::Empty { head: later.head })
                }
                Without::Spent(ticket) => {
                    seat.numbers[ring as usize] = known.draws(ticket);
                    seat.spent = Some(ticket);
                    Err(DeqRefusal::Spent { ticket })
                }
            },
        }
    }
}
