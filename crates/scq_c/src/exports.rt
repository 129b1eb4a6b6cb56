//! What C calls.
ghost use Rattle.std.specs.Prelude.{◌≡◌, ℕ, Some, None};
ghost use Rattle.scq_word.specs.Exports.{n_of};
ghost use Rattle.scq_queue.specs.Exports.{counts_of, lists_of};
ghost use Rattle.scq_port.specs.Exports.{PortStanding, retired_port};
ghost use Rattle.scq_c.specs.Answers.{OfLend, OfTake, OfSend, OfGiveBack, OfEnd, OfRetired};
ghost use Rattle.scq_c.specs.Answers.{OfCount, shown_at};
ghost use Rattle.scq_c.specs.Answered.{LendAnswered, TakeAnswered};
ghost use Rattle.scq_c.specs.Answered.{SendAnswered, GiveBackAnswered};
ghost use Rattle.scq_c.specs.Codes.{scq_ok, scq_spent, scq_closed};

use crate::answers::{CLOSED, EMPTY, FULL, NO_ROOM, NO_TOPIC, NOT_HELD, OK, RETIRED, SPENT};
use crate::handle::{Handle, put, taken};
use crate::over::{give_back, give_back_over, lend, lend_over, send, send_over, take, take_over};
use crate::tally::{Tally, write_out};
use core::mem::replace_with;
use scq_port::{Ended, GiveBackRefusal, LendRefusal, Port, SendRefusal, TakeRefusal};
use std::alloc::Global;

/// A buffer that a port holds: where its bytes lie and how many they are, which C finds by the
/// index, and nothing here reads or writes; the place at which it was taken (0 where it was lent),
/// and its index.
#[repr(C)]
#[derive(Clone, Copy)]
pub struct Held {
    pub at: *const u8,
    pub len: usize,
    pub place: u64,
    pub index: u32,
}

/// What a port's end tells. 1 says that the queue closed with it, as the last of its ports.
/// For contracts alone it tells how the port ended too, and what the queue closed with.
#[repr(C)]
#[derive(Drop)]
pub struct End {
    pub last: u32,
    pub ended: Ended,
}

/// The version of these calls.
#[unsafe(no_mangle)]
pub extern "C" fn scq_version() -> u32
    ensures { result ≡ 3 }
{
    3
}

/// Writes out the index of a value, and its place.
#[inline(always)]
fn show(index: u32, place: u64, out: &mut Held)
    ensures { out.new ≡ shown_at place index out.old }
{
    out.place = place;
    out.index = index;
}

/// Tells what a lend was answered.
#[inline(always)]
pub(crate) fn tell_lend(answer: Result<u32, LendRefusal>, out: &mut Held) -> u32
    ensures { (x y : PortStanding) → LendAnswered answer x y
        → OfLend result out.old out.new x y }
{
    match answer {
        Ok(index) => {
            show(index, 0, out);
            OK
        }
        Err(refusal) => match refusal {
            LendRefusal::NoRoom => NO_ROOM,
            LendRefusal::Full { head } => {
                out.place = head;
                FULL
            }
            LendRefusal::Spent { ticket } => {
                out.place = ticket;
                SPENT
            }
        },
    }
}

/// Is lent a value, and tells its index.
#[inline(always)]
pub(crate) fn lend_into(port: &mut Port, out: &mut Held) -> u32
    ensures { OfLend result out.old out.new port.old port.new }
{
    tell_lend(lend(port), out)
}

/// Lends a buffer: tells its index.
#[unsafe(no_mangle)]
pub extern "C" fn scq_lend_index(alloc: Global, handle: &mut Handle, out: &mut Held) -> u32
    ensures closed { handle.old.port ≡ None
        → (result ≡ scq_closed) × (handle.new.port ≡ None) × (out.new ≡ out.old) }
    ensures answered { (x : PortStanding) → handle.old.port ≡ Some x
        → (y : PortStanding) × (handle.new.port ≡ Some y) × OfLend result out.old out.new x y }
{
    match replace_with(handle, alloc, lend_over) {
        Some(answer) => tell_lend(answer, out),
        None => CLOSED,
    }
}

/// Tells what a take was answered.
#[inline(always)]
pub(crate) fn tell_take(answer: Result<(u64, u32), TakeRefusal>, out: &mut Held) -> u32
    ensures { (x y : PortStanding) (topic : ℕ) → TakeAnswered topic answer x y
        → OfTake topic result out.old out.new x y }
{
    match answer {
        Ok((place, index)) => {
            show(index, place, out);
            OK
        }
        Err(refusal) => match refusal {
            TakeRefusal::NoTopic => NO_TOPIC,
            TakeRefusal::NoRoom => NO_ROOM,
            TakeRefusal::Empty { head } => {
                out.place = head;
                EMPTY
            }
            TakeRefusal::Spent { ticket } => {
                out.place = ticket;
                SPENT
            }
        },
    }
}

/// Takes a value, and tells its index.
#[inline(always)]
pub(crate) fn take_into(port: &mut Port, topic: u32, out: &mut Held) -> u32
    ensures { OfTake topic result out.old out.new port.old port.new }
{
    tell_take(take(port, topic), out)
}

/// Takes a buffer from a topic: tells its index.
#[unsafe(no_mangle)]
pub extern "C" fn scq_take_index(
    alloc: Global,
    handle: &mut Handle,
    topic: u32,
    out: &mut Held,
) -> u32
    ensures closed { handle.old.port ≡ None
        → (result ≡ scq_closed) × (handle.new.port ≡ None) × (out.new ≡ out.old) }
    ensures answered { (x : PortStanding) → handle.old.port ≡ Some x
        → (y : PortStanding) × (handle.new.port ≡ Some y)
        × OfTake topic result out.old out.new x y }
{
    match replace_with(handle, (alloc, topic), take_over) {
        Some(answer) => tell_take(answer, out),
        None => CLOSED,
    }
}

/// Tells what a send was answered.
#[inline(always)]
pub(crate) fn tell_send(answer: Result<u64, SendRefusal>, place: &mut u64) -> u32
    ensures { (x y : PortStanding) (index topic : ℕ) → SendAnswered index topic answer x y
        → OfSend index topic result place.old place.new x y }
{
    match answer {
        Ok(at) => {
            *place = at;
            OK
        }
        Err(refusal) => match refusal {
            SendRefusal::NoTopic => NO_TOPIC,
            SendRefusal::Retired => RETIRED,
            SendRefusal::NotHeld => NOT_HELD,
            SendRefusal::Spent { ticket } => {
                *place = ticket;
                SPENT
            }
        },
    }
}

/// Sends a value, and tells its place.
#[inline(always)]
pub(crate) fn send_into(port: &mut Port, index: u32, topic: u32, place: &mut u64) -> u32
    ensures { OfSend index topic result place.old place.new port.old port.new }
{
    tell_send(send(port, index, topic), place)
}

/// Sends a buffer on a topic.
#[unsafe(no_mangle)]
pub extern "C" fn scq_send(
    alloc: Global,
    handle: &mut Handle,
    index: u32,
    topic: u32,
    place: &mut u64,
) -> u32
    ensures closed { handle.old.port ≡ None
        → (result ≡ scq_closed) × (handle.new.port ≡ None) × (place.new ≡ place.old) }
    ensures answered { (x : PortStanding) → handle.old.port ≡ Some x
        → (y : PortStanding) × (handle.new.port ≡ Some y)
        × OfSend index topic result place.old place.new x y }
{
    match replace_with(handle, (alloc, index, topic), send_over) {
        Some(answer) => tell_send(answer, place),
        None => CLOSED,
    }
}

/// The answer of a give-back.
#[inline(always)]
pub(crate) fn tell_give_back(answer: Result<(), GiveBackRefusal>) -> u32
    ensures { (x y : PortStanding) (index : ℕ) → GiveBackAnswered index answer x y
        → OfGiveBack index result x y }
{
    match answer {
        Ok(()) => OK,
        Err(refusal) => match refusal {
            GiveBackRefusal::NotHeld => NOT_HELD,
            GiveBackRefusal::Spent { ticket: _ } => SPENT,
        },
    }
}

/// Gives a value back.
#[inline(always)]
pub(crate) fn give_back_into(port: &mut Port, index: u32) -> u32
    ensures { OfGiveBack index result port.old port.new }
{
    tell_give_back(give_back(port, index))
}

/// Gives a buffer back.
#[unsafe(no_mangle)]
pub extern "C" fn scq_give_back(alloc: Global, handle: &mut Handle, index: u32) -> u32
    ensures closed { handle.old.port ≡ None → (result ≡ scq_closed) × (handle.new.port ≡ None) }
    ensures answered { (x : PortStanding) → handle.old.port ≡ Some x
        → (y : PortStanding) × (handle.new.port ≡ Some y) × OfGiveBack index result x y }
{
    match replace_with(handle, (alloc, index), give_back_over) {
        Some(answer) => tell_give_back(answer),
        None => CLOSED,
    }
}

/// Retires a port: it sends no more.
#[unsafe(no_mangle)]
pub extern "C" fn scq_retire(alloc: Global, handle: &mut Handle) -> u32
    ensures closed { handle.old.port ≡ None → (result ≡ scq_closed) × (handle.new.port ≡ None) }
    ensures retired { (x : PortStanding) → handle.old.port ≡ Some x
        → (result ≡ scq_ok) × (handle.new.port ≡ Some (retired_port x)) }
{
    let Some(mut port) = taken(handle, alloc) else {
        return CLOSED;
    };
    port.retire();
    put(handle, port);
    OK
}

/// Asks whether all ports have retired.
#[inline(always)]
fn asked(port: &mut Port) -> u32
    ensures { OfRetired result port.old port.new }
{
    if port.all_retired() { RETIRED } else { OK }
}

/// Whether all ports of a queue have retired.
#[unsafe(no_mangle)]
pub extern "C" fn scq_retired(alloc: Global, handle: &mut Handle) -> u32
    ensures closed { handle.old.port ≡ None → (result ≡ scq_closed) × (handle.new.port ≡ None) }
    ensures answered { (x : PortStanding) → handle.old.port ≡ Some x
        → (y : PortStanding) × (handle.new.port ≡ Some y) × OfRetired result x y }
{
    let Some(mut port) = taken(handle, alloc) else {
        return CLOSED;
    };
    let answer = asked(&mut port);
    put(handle, port);
    answer
}

/// How many sends, takes and Full replies a port had.
#[unsafe(no_mangle)]
pub extern "C" fn scq_counts_of(alloc: Global, handle: &mut Handle, out: &mut Tally) -> u32
    ensures same { handle.new.port ≡ handle.old.port }
    ensures closed { handle.old.port ≡ None → (result ≡ scq_closed) × (out.new ≡ out.old) }
    ensures counts { (x : PortStanding) → handle.old.port ≡ Some x → (result ≡ scq_ok)
        × (out.new.sent ≡ (counts_of (lists_of x.pass)).sent)
        × (out.new.taken ≡ (counts_of (lists_of x.pass)).taken)
        × (out.new.full ≡ (counts_of (lists_of x.pass)).full) }
{
    let Some(port) = taken(handle, alloc) else {
        return CLOSED;
    };
    let counts = port.counts();
    *out = Tally {
        sent: counts.sent,
        taken: counts.taken,
        full: counts.full,
    };
    put(handle, port);
    OK
}

/// The ticket at or past the limit that a port keeps.
#[unsafe(no_mangle)]
pub extern "C" fn scq_spent(alloc: Global, handle: &mut Handle, ticket: &mut u64) -> u32
    ensures same { handle.new.port ≡ handle.old.port }
    ensures closed { handle.old.port ≡ None → (result ≡ scq_closed) × (ticket.new ≡ ticket.old) }
    ensures none { (x : PortStanding) → handle.old.port ≡ Some x → x.pass.spent ≡ None
        → (result ≡ scq_ok) × (ticket.new ≡ ticket.old) }
    ensures spent { (x : PortStanding) (t : ℕ) → handle.old.port ≡ Some x → x.pass.spent ≡ Some t
        → (result ≡ scq_spent) × (ticket.new ≡ t) }
{
    let Some(port) = taken(handle, alloc) else {
        return CLOSED;
    };
    let spent = port.spent();
    put(handle, port);
    match spent {
        Some(kept) => {
            *ticket = kept;
            SPENT
        }
        None => OK,
    }
}

/// How many buffers a queue has.
#[unsafe(no_mangle)]
pub extern "C" fn scq_capacity(alloc: Global, handle: &mut Handle, out: &mut u32) -> u32
    ensures same { handle.new.port ≡ handle.old.port }
    ensures closed { handle.old.port ≡ None → (result ≡ scq_closed) × (out.new ≡ out.old) }
    ensures capacity { (x : PortStanding) → handle.old.port ≡ Some x
        → (result ≡ scq_ok) × (out.new ≡ n_of x.pass.queue.setup.order) }
{
    let Some(port) = taken(handle, alloc) else {
        return CLOSED;
    };
    *out = port.capacity();
    put(handle, port);
    OK
}

/// Counts the values on a topic, and tells how many.
#[inline(always)]
fn count_into(port: &mut Port, topic: u32, out: &mut u32) -> u32
    ensures { OfCount topic result out.old out.new port.old port.new }
{
    match port.count(topic) {
        Some(count) => {
            *out = count;
            OK
        }
        None => NO_TOPIC,
    }
}

/// About how many buffers stand on a topic.
#[unsafe(no_mangle)]
pub extern "C" fn scq_count(alloc: Global, handle: &mut Handle, topic: u32, out: &mut u32) -> u32
    ensures closed { handle.old.port ≡ None → (result ≡ scq_closed) × (handle.new.port ≡ None)
        × (out.new ≡ out.old) }
    ensures answered { (x : PortStanding) → handle.old.port ≡ Some x
        → (y : PortStanding) × (handle.new.port ≡ Some y)
        × OfCount topic result out.old out.new x y }
{
    let Some(mut port) = taken(handle, alloc) else {
        return CLOSED;
    };
    let answer = count_into(&mut port, topic, out);
    put(handle, port);
    answer
}

/// Closes a port, and tells whether the queue closed with it; where it did, with the counts of all
/// ports.
fn end_of(port: Port, out: &mut End, counts: &mut [Tally])
    ensures { OfEnd port out.new counts.old counts.new }
{
    let (ended, closed) = port.close();
    let last = match closed {
        Some(closed) => {
            write_out(closed.counts.as_slice(), counts);
            drop(closed);
            1
        }
        None => 0,
    };
    *out = End { last, ended };
}

/// Closes a port: what it holds is given back, as `Port::close` says. Where 1 is told the queue
/// closed with this port, and the counts of all passes are written, in the order of their numbers,
/// as many as fit. No clause says that some port is told so, or that anything is freed.
#[unsafe(no_mangle)]
pub extern "C" fn scq_end(
    alloc: Global,
    handle: &mut Handle,
    out: &mut End,
    counts: &mut [Tally],
) -> u32
    ensures closes { handle.new.port ≡ None }
    ensures closed { handle.old.port ≡ None
        → (result ≡ scq_closed) × (out.new ≡ out.old) × (counts.new ≡ counts.old) }
    ensures answered { (x : PortStanding) → handle.old.port ≡ Some x
        → (result ≡ scq_ok) × OfEnd x out.new counts.old counts.new }
{
    match taken(handle, alloc) {
        Some(port) => {
            end_of(Box::into_inner(port), out, counts);
            OK
        }
        None => CLOSED,
    }
}
