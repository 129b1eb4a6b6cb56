//! Two passes of a queue in turn: one tells the other what it sent, in one of the ways, and the
//! gate closes once both have retired.
ghost use Rattle.std.specs.Prelude.{◌≡◌, ◌≤◌, [], None, vec_capacity};
ghost use Rattle.scq_queue.specs.Exports.{first_passes};

use crate::calls::{lent, made, sent, took};
use crate::replies;
use crate::replies::{Reply, show_closed};
use crate::ways::{Way, tell, way_of};
use anyhow::{Context, Result, anyhow};
use scq_band::Lifted;
use scq_queue::{Closed, HeapBuffer, Held, Pass, Queue};
use scq_word::BufferMut;
use std::alloc::{AllocError, Global};

/// Whether the gate was closed at first; for each of the passes, the first of which had retired,
/// once the other was told so; and for each once both had, in the other order.
#[derive(Clone, Copy)]
struct Gates {
    at_first: bool,
    by_one: (bool, bool),
    by_both: (bool, bool),
}

/// What the passes were answered: the index lent, the places of the send and of the take, and
/// whether the gate was closed.
#[derive(Clone, Copy)]
struct Answers {
    lent: Reply,
    sent: Reply,
    taken: Reply,
    gates: Gates,
}

/// Lets values go.
fn let_go<B: BufferMut + Drop>(mut values: Vec<Held<B>>) {
    while let Some(held) = values.pop() {
        let _buffer = held.into_buffer();
    }
    values.destroy_empty();
}

/// The first retires and tells the second, which retires and tells the first. Each asks the gate.
fn retire_in_turn<B: BufferMut>(
    queue: &Queue<B>,
    first: &mut Pass<B>,
    second: &mut Pass<B>,
    way: Way,
) -> Gates
    requires first { (first.old.queue ≡ queue.now) × (first.old.retired ≡ None) }
    requires second { (second.old.queue ≡ queue.now) × (second.old.retired ≡ None) }
    ensures first { (first.new.queue ≡ queue.now) × (first.new.held ≡ first.old.held) }
    ensures second { (second.new.queue ≡ queue.now) × (second.new.held ≡ second.old.held) }
{
    let at_first = queue.closed(first);
    queue.retire(first);
    let itself = queue.closed(first);
    tell(queue, first, second, way);
    let told = queue.closed(second);
    queue.retire(second);
    let itself_last = queue.closed(second);
    tell(queue, second, first, way);
    let told_last = queue.closed(first);
    Gates {
        at_first,
        by_one: (itself, told),
        by_both: (itself_last, told_last),
    }
}

/// The first pass sends and tells the second, which takes; then both retire. The queue closes with
/// the value that the second holds. Nothing where nothing could be sent.
fn run<B: BufferMut + Drop>(
    queue: Queue<B>,
    mut passes: Vec<Pass<B>>,
    mut sender: Vec<Held<B>>,
    mut taker: Vec<Held<B>>,
    way: Way,
) -> Option<(Answers, Closed<B>)>
where
    B::Place: Drop,
    requires setup { (queue.setup.rings ≡ 2) × (queue.setup.seats ≡ 2) }
    requires passes { passes.items ≡ first_passes queue 2 }
    requires sender { (sender.items ≡ []) × (1 ≤ vec_capacity sender) }
    requires taker { (taker.items ≡ []) × (1 ≤ vec_capacity taker) }
{
    let Some(mut second) = passes.pop() else {
        unreachable!()
    };
    let Some(mut first) = passes.pop() else {
        unreachable!()
    };
    let index = lent(&queue, &mut first, &mut sender);
    let place = sent(&queue, &mut first, 0, &mut sender);
    if !sender.is_empty() {
        let_go(sender);
        taker.destroy_empty();
        queue.abandon();
        return None;
    }
    sender.destroy_empty();
    tell(&queue, &mut first, &mut second, way);
    let got = took(&queue, &mut second, 0, &mut taker);
    let gates = retire_in_turn(&queue, &mut first, &mut second, way);
    passes.push_reserved(first);
    passes.push_reserved(second);
    let closed = queue.close(passes, taker);
    let answers = Answers {
        lent: index,
        sent: place,
        taken: got,
        gates,
    };
    Some((answers, closed))
}

/// Adds what the gate was read as.
fn show_gates(into: &mut String, gates: Gates) -> Result<(), AllocError> {
    let Gates {
        at_first,
        by_one: (itself, told),
        by_both: (itself_last, told_last),
    } = gates;
    write!(
        into,
        "{at_first}, {itself} {told}, {itself_last} {told_last}"
    )
}

fn show_answers(into: &mut String, answers: Answers) -> Result<(), AllocError> {
    replies::tell(into, answers.lent)?;
    replies::tell(into, answers.sent)?;
    replies::tell(into, answers.taken)?;
    show_gates(into, answers.gates)
}

fn show_told(
    into: &mut String,
    answers: Answers,
    closed: &Closed<HeapBuffer>,
) -> Result<(), AllocError> {
    show_answers(into, answers)?;
    show_closed(into, closed)
}

/// What two passes of a new queue are answered, and what it closes with.
fn answers_in(alloc: Global, way: Way) -> Result<(Answers, Closed<HeapBuffer>)> {
    let sender = Vec::with_capacity(alloc, 1)?;
    let Ok(taker) = Vec::with_capacity(alloc, 1) else {
        sender.destroy_empty();
        return Err(anyhow!("no memory"));
    };
    match made(alloc, 2, 1 << 60) {
        Ok((queue, passes)) => {
            run(queue, passes, sender, taker, way).context("nothing was sent")
        }
        Err(fail) => {
            sender.destroy_empty();
            taker.destroy_empty();
            Err(fail)
        }
    }
}

/// `WAY`: what the passes were answered, of which each tells the other in this way, and what the
/// queue closed with.
pub fn told(alloc: Global, into: &mut String, given: &str) -> Result<()> {
    let (answers, closed) = answers_in(alloc, way_of(given)?)?;
    Ok(show_told(into, answers, &closed)?)
}
