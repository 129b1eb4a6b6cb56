//! The Gots that overtake, and the wrong Empties.

ghost use Rattle.std.specs.Prelude.{◌≡◌, ◌<◌, ◌↔◌, ℕ, List, IsTrue, MatchOption, length, IfOk};
ghost use Rattle.scq_hist.specs.Exports.{IsInOrderAt, IsEmptyRightAt, IsPutGotAt, NoPutGotAt};
ghost use Rattle.scq_hist.specs.Exports.{IsEmptyAt, NoEmptyAt};
ghost use Rattle.scq_check.specs.Exports.{AreQueuesAt, AreTallies, AreOfLawful, HasEvent};

use crate::queues::{Queue, Queues};
use crate::tables::Tables;
use scq_hist::{Call, Event, PutName, Tally, nothing_end};
use scq_word::{Bytes, NoMemory};
use std::alloc::Global;

/// For each event the tally of its call's queue just before it.
pub(crate) fn tallies_before(
    alloc: Global,
    tables: &Tables,
    opening: &[Bytes],
    events: &[Event],
) -> Result<Vec<Tally>, NoMemory>
    requires { AreOfLawful events.now tables.now }
    ensures { IfOk result (λ tallies.
        AreTallies opening.now events.now (length events.now) tallies.items) }
{
    let mut queues = Queues::new(alloc, tables, opening, events);
    let mut tallies = Vec::with_capacity(alloc, events.len())?;
    for e in 0..events.len() {
        tallies.push(queues.get(tables.queue_of(events, e)).tally)?;
        queues.add(tables, events, e)?;
    }
    Ok(tallies)
}

// The seat's put that the get which ends at this position has got: the position of its Start, and
// its queue.
pub(crate) fn put_got_at(tables: &Tables, events: &[Event], e: usize) -> Option<(usize, u32)>
    requires { HasEvent events.now tables.now e }
    ensures { MatchOption result
        (NoPutGotAt events.now e)
        (λ put. IsPutGotAt events.now e put.1 put.0) }
{
    match tables.get_ending_at(events, e) {
        Some((PutName::Of { seat, number }, _)) => match tables.put_named(events, seat, number) {
            Some((start, queue, _)) => Some((start, queue)),
            None => None,
        },
        Some((PutName::Opening { .. }, _)) => None,
        None => None,
    }
}

/// Whether all that precede the put which the get that ends at this position has got are claimed by
/// then.
pub(crate) fn is_in_order_at(
    tables: &Tables,
    events: &[Event],
    tallies: &[Tally],
    queues: &Queues,
    e: usize,
) -> bool
    requires event { HasEvent events.now tables.now e }
    requires many { length tallies.now ≡ length events.now }
    ensures { (opening : List (List ℕ))
        → AreTallies opening events.now (length events.now) tallies.now
        → AreQueuesAt opening events.now e queues.now
        → (IsTrue result ↔ IsInOrderAt opening events.now e) }
{
    match put_got_at(tables, events, e) {
        None => true,
        Some((start, queue)) => {
            let at_get = Queue {
                tally: tallies[start],
                ..queues.get(queue)
            };
            at_get.is_claimed(e)
        }
    }
}

// The get that ends with Nothing at this position: the position of its Start, and its queue.
pub(crate) fn empty_at(tables: &Tables, events: &[Event], e: usize) -> Option<(usize, u32)>
    requires { HasEvent events.now tables.now e }
    ensures { MatchOption result (NoEmptyAt events.now e) (λ get.
        IsEmptyAt events.now e get.1 get.0) }
{
    nothing_end(&events[e])?;
    let call = tables.call_of(events, e);
    match call.1 {
        Call::Get { queue } => Some((call.0, *queue)),
        Call::Put { .. } => None,
    }
}

/// Whether an Empty that ends at this position, if one does, is right.
pub(crate) fn is_empty_right_at(
    tables: &Tables,
    events: &[Event],
    queues: &Queues,
    e: usize,
) -> bool
    requires { HasEvent events.now tables.now e }
    ensures { (opening : List (List ℕ))
        → AreQueuesAt opening events.now e queues.now
        → (IsTrue result ↔ IsEmptyRightAt opening events.now e) }
{
    match empty_at(tables, events, e) {
        None => true,
        Some((start, queue)) => queues.get(queue).was_claimed(start, e),
    }
}
