//! Calls of one pass of a queue. A value that was got goes on top of those that are held, and the
//! one on top is sent or given back.
ghost use Rattle.std.specs.Prelude.{◌≡◌, ◌+◌, ◌<◌, ◌≤◌, [], IfOk, vec_len, vec_capacity};
ghost use Rattle.scq_queue.specs.Exports.{first_passes};
ghost use Rattle.scq_queue.specs.HoldsJust.{HoldsJust};

use crate::replies::{Reply, of_lend, of_take, show, show_closed, tell};
use anyhow::{Context, Result, anyhow, ensure};
use rows_text::field;
use scq_queue::{Closed, HeapBuffer, Held, Pass, Queue};
use scq_word::{BufferMut, Setup};
use std::alloc::{AllocError, Global};

/// Is lent a value, which goes on top.
pub fn lent<B: BufferMut>(queue: &Queue<B>, pass: &mut Pass<B>, values: &mut Vec<Held<B>>) -> Reply
    requires stack { HoldsJust queue.now pass.old values.old.items }
    requires room { vec_len values.old < vec_capacity values.old }
    ensures stack { HoldsJust queue.now pass.new values.new.items }
{
    match queue.lend(pass) {
        Ok(held) => {
            let index = held.index();
            values.push_reserved(held);
            Reply::Index(index)
        }
        Err(refusal) => of_lend(refusal),
    }
}

/// Takes a value, which goes on top.
pub fn took<B: BufferMut>(
    queue: &Queue<B>,
    pass: &mut Pass<B>,
    topic: u32,
    values: &mut Vec<Held<B>>,
) -> Reply
    requires stack { HoldsJust queue.now pass.old values.old.items }
    requires topic { topic + 1 < queue.now.setup.rings }
    requires room { vec_len values.old < vec_capacity values.old }
    ensures stack { HoldsJust queue.now pass.new values.new.items }
{
    match queue.take(pass, topic) {
        Ok((place, held)) => {
            values.push_reserved(held);
            Reply::Place(place)
        }
        Err(refusal) => of_take(refusal),
    }
}

/// Sends the value on top; where it comes back it is on top again.
pub fn sent<B: BufferMut>(
    queue: &Queue<B>,
    pass: &mut Pass<B>,
    topic: u32,
    values: &mut Vec<Held<B>>,
) -> Reply
    requires stack { HoldsJust queue.now pass.old values.old.items }
    requires topic { topic + 1 < queue.now.setup.rings }
    ensures stack { HoldsJust queue.now pass.new values.new.items }
{
    let Some(held) = values.pop() else {
        return Reply::Odd;
    };
    match queue.send(pass, topic, held) {
        Ok(place) => Reply::Place(place),
        Err((held, spent)) => {
            values.push_reserved(held);
            Reply::Spent(spent.ticket)
        }
    }
}

/// Gives the value on top back; where it comes back it is on top again.
fn gave<B: BufferMut>(queue: &Queue<B>, pass: &mut Pass<B>, values: &mut Vec<Held<B>>) -> Reply
    requires stack { HoldsJust queue.now pass.old values.old.items }
    ensures stack { HoldsJust queue.now pass.new values.new.items }
{
    let Some(held) = values.pop() else {
        return Reply::Odd;
    };
    match queue.give_back(pass, held) {
        Ok(()) => Reply::Back,
        Err((held, spent)) => {
            values.push_reserved(held);
            Reply::Spent(spent.ticket)
        }
    }
}

/// Writes two bytes into the value on top.
fn wrote<B: BufferMut>(queue: &Queue<B>, pass: &Pass<B>, values: &mut Vec<Held<B>>, text: &str)
    requires stack { HoldsJust queue.now pass.now values.old.items }
    ensures stack { HoldsJust queue.now pass.now values.new.items }
{
    let Some(mut held) = values.pop() else {
        return;
    };
    write(held.bytes_mut(), text.as_bytes());
    values.push_reserved(held);
}

fn write(bytes: &mut [u8], text: &[u8]) {
    let mut at = 0;
    while at < bytes.len() && at < text.len() {
        bytes[at] = text[at];
        at += 1;
    }
}

/// The reply to one call. One that gets a value is odd where there is no room for it.
fn reply_to<B: BufferMut>(
    queue: &Queue<B>,
    pass: &mut Pass<B>,
    values: &mut Vec<Held<B>>,
    call: &str,
) -> Reply
    requires stack { HoldsJust queue.now pass.old values.old.items }
    requires rings { 2 ≤ queue.now.setup.rings }
    ensures stack { HoldsJust queue.now pass.new values.new.items }
{
    if let Some(text) = call.strip_prefix("write ") {
        wrote(queue, pass, values, text);
        return Reply::Written;
    }
    match call {
        "give" => gave(queue, pass, values),
        "send 0" => sent(queue, pass, 0, values),
        "lend" if values.len() < values.capacity() => lent(queue, pass, values),
        "take 0" if values.len() < values.capacity() => took(queue, pass, 0, values),
        _ => Reply::Odd,
    }
}

/// Adds the bytes of the value on top.
fn read<B: BufferMut>(into: &mut String, values: &Vec<Held<B>>) -> Result<(), AllocError> {
    if let Some(held) = values.last() {
        show(into, held.bytes())?;
    }
    into.push_str(";")
}

/// Makes calls, and adds the replies to them.
fn replies<B: BufferMut>(
    into: &mut String,
    queue: &Queue<B>,
    pass: &mut Pass<B>,
    values: &mut Vec<Held<B>>,
    calls: &str,
) -> Result<(), AllocError>
    requires stack { HoldsJust queue.now pass.old values.old.items }
    requires rings { 2 ≤ queue.now.setup.rings }
    ensures stack { HoldsJust queue.now pass.new values.new.items }
{
    for text in calls.split("; ") {
        let added = if text == "read" {
            read(into, values)
        } else {
            tell(into, reply_to(queue, pass, values, text))
        };
        added?;
    }
    Ok(())
}

/// Makes calls of the last pass of a new queue, and closes the queue.
fn run<B: BufferMut>(
    into: &mut String,
    queue: Queue<B>,
    mut passes: Vec<Pass<B>>,
    mut values: Vec<Held<B>>,
    calls: &str,
) -> (Result<(), AllocError>, Closed<B>)
    requires setup { (queue.setup.rings ≡ 2) × (1 ≤ queue.setup.seats) }
    requires passes { passes.items ≡ first_passes queue queue.setup.seats }
    requires values { values.items ≡ [] }
{
    let Some(mut pass) = passes.pop() else {
        unreachable!()
    };
    let got = replies(into, &queue, &mut pass, &mut values, calls);
    passes.push_reserved(pass);
    let closed = queue.close(passes, values);
    (got, closed)
}

/// Two buffers of two zero bytes.
fn two_buffers(alloc: Global) -> Result<Vec<HeapBuffer>>
    ensures { IfOk result (λ buffers. vec_len buffers ≡ 2) }
{
    let mut buffers = Vec::with_capacity(alloc, 2)?;
    buffers.push(HeapBuffer::new(alloc, 2)?)?;
    buffers.push(HeapBuffer::new(alloc, 2)?)?;
    Ok(buffers)
}

/// A queue with two rings and so many passes over two buffers of two zero bytes.
pub fn made(
    alloc: Global,
    passes: u32,
    limit: u64,
) -> Result<(Queue<HeapBuffer>, Vec<Pass<HeapBuffer>>)>
    ensures setup { IfOk result (λ made. (made.0.setup.rings ≡ 2) × (made.0.setup.seats ≡ passes)) }
    ensures passes { IfOk result (λ made. made.1.items ≡ first_passes made.0 passes) }
{
    let setup = Setup::new(1, 2, passes, limit)?;
    match Queue::make(alloc, setup, two_buffers(alloc)?) {
        Ok(made) => Ok(made),
        Err(_) => Err(anyhow!("no memory")),
    }
}

/// Makes calls of the last of so many passes of a queue with this limit.
fn called_of(
    alloc: Global,
    into: &mut String,
    seats: u32,
    limit: u64,
    calls: &str,
) -> Result<Closed<HeapBuffer>>
    requires { 1 ≤ seats }
{
    let values = Vec::with_capacity(alloc, 3)?;
    let (queue, passes) = match made(alloc, seats, limit) {
        Ok(made) => made,
        Err(fail) => {
            values.destroy_empty();
            return Err(fail);
        }
    };
    let (got, closed) = run(into, queue, passes, values, calls);
    got?;
    Ok(closed)
}

/// `PASSES LIMIT; CALL; ..`, of the last pass on two rings over two buffers of two bytes: the reply
/// to each call, the bytes on top for `read`; and what the queue closed with.
pub fn called(alloc: Global, into: &mut String, given: &str) -> Result<()> {
    let (setup, calls) = given.split_once("; ").context("a setup and calls")?;
    let seats = field(setup, 0).parse::<u32>()?;
    let limit = field(setup, 1).parse::<u64>()?;
    ensure!(1 <= seats, "a pass");
    let closed = called_of(alloc, into, seats, limit, calls)?;
    Ok(show_closed(into, &closed)?)
}
