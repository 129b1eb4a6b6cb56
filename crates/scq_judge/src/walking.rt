//! Whether what is written down are orders of a history's calls. Each order is gone through once,
//! with a sequential queue beside it.

ghost use Rattle.std.specs.Prelude.{◌≡◌, ◌<◌, ◌++◌, ◌↔◌, [], ◌∷◌, ℕ, Bool, List, IsTrue, IfOk, IfSome, length};
ghost use Rattle.scq_hist.specs.declared.events.Reply.TheVariants.{Spent};
ghost use Rattle.scq_order.specs.Exports.{queue_of};
ghost use Rattle.scq_judge.specs.Ordering.{opening_of, start_at, AreOrders};
ghost use Rattle.scq_judge.specs.Sequential.{held_by, held_from};
ghost use Rattle.scq_judge.specs.Walking.{IsHistory, IsToOrder, AreTakenFrom, IsTaken};
ghost use Rattle.scq_judge.specs.Walking.{AreAllPlaced, IsPlacedAt};

use crate::own_calls::{EndedCall, OwnCalls};
use crate::sequential::Sequential;
use scq_hist::{Call, Event, PutName, Reply};
use scq_word::{Bytes, NoMemory};
use std::alloc::Global;

/// An order of the calls of one queue: the positions of their Ends.
#[derive(Drop)]
pub(crate) struct QueueOrder {
    pub queue: u32,
    pub ends: Vec<usize>,
}

/// A history, and of each of its events the call that it belongs to.
#[derive(Clone, Copy)]
pub(crate) struct History<'a> {
    pub opening: &'a [Bytes],
    pub events: &'a [Event],
    pub calls: &'a OwnCalls,
}

/// What a sequential queue holds behind the calls that it has taken, and the latest of their
/// Starts.
#[derive(Drop)]
struct Walk<'a> {
    queue: Sequential<'a>,
    latest: usize,
}

/// The queue of a call.
pub(crate) fn call_queue(call: &Call) -> u32
    ensures { result ≡ queue_of call.now }
{
    match call {
        Call::Put { queue, .. } => *queue,
        Call::Get { queue } => *queue,
    }
}

/// Whether a call was refused.
pub(crate) fn is_spent(reply: &Reply) -> bool
    ensures { IsTrue result ↔ (reply.now ≡ Spent) }
{
    match reply {
        Reply::Spent => true,
        _ => false,
    }
}

// Whether the call is one of this queue that has a place in its order.
fn is_to_order(ended: EndedCall<'_>, queue: u32) -> bool
    ensures { IsTrue result → IsToOrder queue ended.entry }
{
    call_queue(ended.call) == queue && !is_spent(ended.reply)
}

// The tokens that a queue holds at first.
fn opening_of(opening: &[Bytes], queue: u32) -> &[Bytes]
    ensures { result.now ≡ opening_of opening.entry.now queue }
{
    if queue == 0 { opening } else { &opening[..0] }
}

// A queue that holds these tokens, if their numbers fit.
fn open<'a>(alloc: Global, opening: &'a [Bytes]) -> Result<Option<Sequential<'a>>, NoMemory>
    ensures { IfOk result (λ queue. IfSome queue (λ queue.
        held_by queue ≡ held_from 0 opening.entry.now)) }
{
    let mut queue = Sequential::empty(alloc);
    for j in 0..opening.len() {
        let Ok(number) = u32::try_from(j) else {
            return Ok(None);
        };
        queue.put(PutName::Opening { number }, &opening[j])?;
    }
    Ok(Some(queue))
}

impl<'a> Walk<'a> {
    // Takes the call that ends at this position, marks its Start, and says whether it may stand
    // there: it is one of the queue that isn't marked yet, it ended behind the Starts of those
    // before it, and its reply is the queue's.
    fn take(
        &mut self,
        history: History<'a>,
        queue: u32,
        placed: &mut [bool],
        e: usize,
    ) -> Result<bool, NoMemory>
        requires history { IsHistory history }
        requires places { length placed.old ≡ length history.events.now }
        ensures { IfOk result (λ fits. IsTrue fits → (ends : List ℕ) (old : List Bool)
            → AreTakenFrom history.entry.opening.now history.entry.events.now queue ends
            (held_by self.old.queue) self.old.latest old placed.old
            → AreTakenFrom history.entry.opening.now history.entry.events.now queue
            (ends ++ e ∷ []) (held_by self.new.queue) self.new.latest old placed.new) }
    {
        let Some(ended) = history.calls.ended(history.events, e) else {
            return Ok(false);
        };
        let start = ended.own.start;
        if !is_to_order(ended, queue) || placed[start] || e <= self.latest {
            return Ok(false);
        }
        let plain = self.queue.take(ended)?;
        placed[start] = true;
        self.latest = self.latest.max(start);
        Ok(plain)
    }
}

// Whether this is an order of its queue, as far as the calls go that it has, which are marked.
fn is_order(
    alloc: Global,
    history: History<'_>,
    order: &QueueOrder,
    placed: &mut [bool],
) -> Result<bool, NoMemory>
    requires history { IsHistory history }
    requires places { length placed.old ≡ length history.events.now }
    ensures { IfOk result (λ is. IsTrue is
        → IsTaken history.entry.opening.now history.entry.events.now order.now placed.old
        placed.new) }
{
    let Some(opened) = open(alloc, opening_of(history.opening, order.queue))? else {
        return Ok(false);
    };
    let mut walk = Walk {
        queue: opened,
        latest: 0,
    };
    let ends = order.ends.as_slice();
    for e in ends {
        let fits = walk.take(history, order.queue, placed, *e)?;
        if !fits {
            return Ok(false);
        }
    }
    Ok(true)
}

// Whether the Start of each call is marked that has a place in an order.
fn are_all_placed(history: History<'_>, placed: &[bool]) -> bool
    requires history { IsHistory history }
    requires places { length placed.now ≡ length history.events.now }
    ensures { IsTrue result → AreAllPlaced history.entry.events.now placed.now
        (length history.entry.events.now) }
{
    for e in 0..history.events.len() {
        if !is_placed(history, placed, e) {
            return false;
        }
    }
    true
}

// Whether that of the call is that ends at this position.
fn is_placed(history: History<'_>, placed: &[bool], e: usize) -> bool
    requires history { IsHistory history }
    requires places { length placed.now ≡ length history.events.now }
    ensures { IsTrue result → IsPlacedAt history.entry.events.now placed.now e }
{
    match history.calls.ended(history.events, e) {
        Some(ended) => is_spent(ended.reply) || placed[ended.own.start],
        None => true,
    }
}

/// Whether they are orders of all queues.
pub(crate) fn are_orders(
    alloc: Global,
    history: History<'_>,
    orders: &[QueueOrder],
) -> Result<bool, NoMemory>
    requires { IsHistory history }
    ensures { IfOk result (λ are. IsTrue are
        → AreOrders history.entry.opening.now history.entry.events.now orders.now) }
{
    let mut placed = vec![in alloc; false; history.events.len()]?;
    let mut least = 0;
    for i in 0..orders.len() {
        let order = &orders[i];
        let queue = u64::from(order.queue);
        if queue < least {
            return Ok(false);
        }
        let taken = is_order(alloc, history, order, &mut placed)?;
        if !taken {
            return Ok(false);
        }
        least = queue + 1;
    }
    Ok(are_all_placed(history, &placed))
}
