//! Two passes on one thread, of which one takes behind a mark of the other (`marks`). And two
//! threads on one queue of two buffers, twice. First they hand each other notes, so that each call
//! stands behind the one before it (`rounds`). Then one sends the numbers from 1 to 100, and sums
//! itself those for which no buffer is free; the other takes numbers and sums them; what is left
//! when both are done is taken then. Who sums a number differs from run to run, and the sum
//! doesn't.
#![tactic(auto)]

mod marks;
mod rounds;

ghost use Rattle.std.specs.Prelude.{◌≡◌, ◌<◌, ◌≤◌, [], ◌∷◌, ◌++◌, IfOk, vec_len, vec_capacity};
ghost use Rattle.std.specs.Option.{option_to_list};
ghost use Rattle.scq_queue.specs.Exports.{first_passes};
ghost use Rattle.scq_queue.specs.HoldsJust.{HoldsJust};
ghost use Rattle.example_queue.specs.Values.{values_in, IsMadeAnew};

use anyhow::{Result, anyhow};
use marks::tell_by_a_mark;
use rounds::{NUMBERS, make_rounds};
use scq_queue::{Closed, HeapBuffer, Held, Pass, Queue};
use scq_word::Setup;
use std::alloc::Global;
use std::marker::Brand;
use std::sync::Wait;
use std::thread::{Threads, join};

/// The last number.
const LAST: u8 = 100;

/// How many buffers the queue has.
const BUFFERS: u32 = 2;

/// How often the taking thread looks for a number.
const LOOKS: u32 = 10_000;

/// A queue with its passes, and room for the values that they hold at the end.
struct Made {
    queue: Queue<HeapBuffer>,
    passes: Vec<Pass<HeapBuffer>>,
    values: Vec<Held<HeapBuffer>>,
}

/// A pass after its work, with what its thread found. Where tickets have run out it may still hold
/// a value.
struct Worked<T> {
    pass: Pass<HeapBuffer>,
    found: T,
    held: Option<Held<HeapBuffer>>,
}

/// Sends a number: whether a buffer was free for it. Where tickets have run out the buffer comes
/// back.
fn sent(
    queue: &Queue<HeapBuffer>,
    pass: &mut Pass<HeapBuffer>,
    number: u8,
) -> Result<bool, Held<HeapBuffer>>
    requires rings { queue.now.setup.rings ≡ 2 }
    requires pass { HoldsJust queue.now pass.old [] }
    ensures pass { HoldsJust queue.now pass.new (values_in result) }
{
    match queue.lend(pass) {
        Ok(mut held) => {
            held.bytes_mut().fill(number);
            match queue.send(pass, 0, held) {
                Ok(_) => Ok(true),
                Err((held, _)) => Err(held),
            }
        }
        Err(_) => Ok(false),
    }
}

/// Takes a number, if there is one, and gives its buffer back. Where tickets have run out the
/// buffer comes back.
fn taken(
    queue: &Queue<HeapBuffer>,
    pass: &mut Pass<HeapBuffer>,
) -> Result<Option<u8>, Held<HeapBuffer>>
    requires rings { queue.now.setup.rings ≡ 2 }
    requires pass { HoldsJust queue.now pass.old [] }
    ensures pass { HoldsJust queue.now pass.new (values_in result) }
{
    match queue.take(pass, 0) {
        Ok((_, held)) => {
            let number = held.bytes().first().copied();
            match queue.give_back(pass, held) {
                Ok(()) => Ok(number),
                Err((held, _)) => Err(held),
            }
        }
        Err(_) => Ok(None),
    }
}

/// Sends the numbers, and sums those that aren't sent.
fn send_numbers(queue: &Queue<HeapBuffer>, mut pass: Pass<HeapBuffer>) -> Worked<u64>
    requires rings { queue.now.setup.rings ≡ 2 }
    requires pass { HoldsJust queue.now pass [] }
    ensures { HoldsJust queue.now result.pass (option_to_list result.held) }
{
    let mut sum = 0u64;
    'numbers: for number in 1..=LAST {
        match sent(queue, &mut pass, number) {
            Ok(true) => {}
            Ok(false) => sum = sum.wrapping_add(u64::from(number)),
            Err(held) => {
                return Worked {
                    pass,
                    found: sum.wrapping_add(sum_from(number)),
                    held: Some(held),
                };
            }
        }
    }
    Worked {
        pass,
        found: sum,
        held: None,
    }
}

/// The sum of the numbers from this one on.
fn sum_from(first: u8) -> u64 {
    let mut sum = 0u64;
    for number in first..=LAST {
        sum = sum.wrapping_add(u64::from(number));
    }
    sum
}

/// Looks so often for a number, and sums those that it takes.
fn take_numbers(queue: &Queue<HeapBuffer>, mut pass: Pass<HeapBuffer>, looks: u32) -> Worked<u64>
    requires rings { queue.now.setup.rings ≡ 2 }
    requires pass { HoldsJust queue.now pass [] }
    ensures { HoldsJust queue.now result.pass (option_to_list result.held) }
{
    let mut sum = 0u64;
    'looks: for _ in 0..looks {
        match taken(queue, &mut pass) {
            Ok(Some(number)) => sum = sum.wrapping_add(u64::from(number)),
            Ok(None) => {}
            Err(held) => {
                return Worked {
                    pass,
                    found: sum,
                    held: Some(held),
                };
            }
        }
    }
    Worked {
        pass,
        found: sum,
        held: None,
    }
}

/// Takes what is left.
fn take_rest(queue: &Queue<HeapBuffer>, before: Worked<u64>) -> Worked<u64>
    requires rings { queue.now.setup.rings ≡ 2 }
    requires pass { HoldsJust queue.now before.pass (option_to_list before.held) }
    ensures { HoldsJust queue.now result.pass (option_to_list result.held) }
{
    let Worked { pass, found, held } = before;
    if let Some(held) = held {
        return Worked {
            pass,
            found,
            held: Some(held),
        };
    }
    let mut rest = take_numbers(queue, pass, BUFFERS + 1);
    rest.found = rest.found.wrapping_add(found);
    rest
}

/// Each pass in a thread of its own.
fn work<R: Threads>(
    rt: &R,
    queue: &Queue<HeapBuffer>,
    sender: Pass<HeapBuffer>,
    taker: Pass<HeapBuffer>,
) -> (Worked<u64>, Worked<u64>)
    requires rings { queue.now.setup.rings ≡ 2 }
    requires sender { HoldsJust queue.now sender [] }
    requires taker { HoldsJust queue.now taker [] }
    ensures sender { HoldsJust queue.now result.0.pass (option_to_list result.0.held) }
    ensures taker { HoldsJust queue.now result.1.pass (option_to_list result.1.held) }
{
    join(
        rt,
        || -> Worked<u64>
            requires { (queue.now.setup.rings ≡ 2) × HoldsJust queue.now sender [] }
            ensures { HoldsJust queue.entry.now result.pass (option_to_list result.held) }
        { send_numbers(queue, sender) },
        || -> Worked<u64>
            requires { (queue.now.setup.rings ≡ 2) × HoldsJust queue.now taker [] }
            ensures { HoldsJust queue.entry.now result.pass (option_to_list result.held) }
        { take_numbers(queue, taker, LOOKS) },
    )
}

/// Runs both threads, takes what is left, and closes the queue.
fn run<R: Threads>(rt: &R, mut made: Made) -> (u64, Closed<HeapBuffer>)
    requires new { IsMadeAnew made }
{
    let (sender, taker) = two_of(&mut made.passes);
    let (sender, taker) = work(rt, &made.queue, sender, taker);
    let taker = take_rest(&made.queue, taker);
    let (sent, taken) = give_both(sender, taker, &mut made.passes, &mut made.values);
    let Made {
        queue,
        passes,
        values,
    } = made;
    (sent.wrapping_add(taken), queue.close(passes, values))
}

/// Takes both passes out.
fn two_of(passes: &mut Vec<Pass<HeapBuffer>>) -> (Pass<HeapBuffer>, Pass<HeapBuffer>)
    requires { vec_len passes.old ≡ 2 }
    ensures both { passes.old.items ≡ result.0 ∷ result.1 ∷ [] }
    ensures none { passes.new.items ≡ [] }
    ensures room { vec_capacity passes.new ≡ vec_capacity passes.old }
{
    let Some(second) = passes.pop() else {
        unreachable!()
    };
    let Some(first) = passes.pop() else {
        unreachable!()
    };
    (first, second)
}

/// A pass and the value that it holds, if any, behind those that are there.
fn give_in(
    pass: Pass<HeapBuffer>,
    held: Option<Held<HeapBuffer>>,
    passes: &mut Vec<Pass<HeapBuffer>>,
    values: &mut Vec<Held<HeapBuffer>>,
)
    requires passes { vec_len passes.old < vec_capacity passes.old }
    requires values { vec_len values.old < vec_capacity values.old }
    ensures passes { passes.new.items ≡ passes.old.items ++ pass ∷ [] }
    ensures values { values.new.items ≡ values.old.items ++ option_to_list held }
    ensures room { (vec_capacity passes.new ≡ vec_capacity passes.old)
        × (vec_capacity values.new ≡ vec_capacity values.old) }
{
    passes.push_reserved(pass);
    if let Some(held) = held {
        values.push_reserved(held);
    }
}

/// The same of two threads' passes, with what these found.
fn give_both<T>(
    first: Worked<T>,
    second: Worked<T>,
    passes: &mut Vec<Pass<HeapBuffer>>,
    values: &mut Vec<Held<HeapBuffer>>,
) -> (T, T)
    requires passes { (passes.old.items ≡ []) × (2 ≤ vec_capacity passes.old) }
    requires values { (values.old.items ≡ []) × (2 ≤ vec_capacity values.old) }
    ensures passes { passes.new.items ≡ first.pass ∷ second.pass ∷ [] }
    ensures values { values.new.items
        ≡ option_to_list first.held ++ option_to_list second.held }
{
    let Worked { pass, found, held } = first;
    give_in(pass, held, passes, values);
    let by_first = found;
    let Worked { pass, found, held } = second;
    give_in(pass, held, passes, values);
    (by_first, found)
}

/// A queue with one topic and two passes, over two buffers of one byte.
fn make(alloc: Global) -> Result<Made>
    ensures { IfOk result IsMadeAnew }
{
    let setup = Setup::new(1, 2, 2, 1 << 60)?;
    let mut buffers = Vec::with_capacity(alloc, 2)?;
    buffers.push(HeapBuffer::new(alloc, 1)?)?;
    buffers.push(HeapBuffer::new(alloc, 1)?)?;
    let values = Vec::with_capacity(alloc, 2)?;
    match Queue::make(alloc, setup, buffers) {
        Ok((queue, passes)) => Ok(Made {
            queue,
            passes,
            values,
        }),
        Err(_) => {
            values.destroy_empty();
            Err(anyhow!("no memory for the queue"))
        }
    }
}

fn main(rt: HostRuntime) -> Result<()> {
    let alloc = rt.alloc();
    let number = tell_by_a_mark(make(alloc)?).ok_or(anyhow!("nothing was taken"))?;
    println!(rt; "behind a mark: take {number}")?;
    let (sends, takes) = make_rounds::<Brand, _>(&rt, alloc, make(alloc)?).ok_or(anyhow!(
        "no memory for the channels"
    ))?;
    for (send, take) in sends.iter().zip(takes.iter()) {
        println!(rt; "send {send}, take {take}")?;
    }
    let (sum, closed) = run(&rt, make(alloc)?);
    println!(rt; "the numbers from 1 to {LAST} are {sum} together")?;
    for (ring, left) in closed.left.iter().enumerate() {
        println!(rt; "ring {ring}: {left} left")?;
    }
    Ok(())
}
