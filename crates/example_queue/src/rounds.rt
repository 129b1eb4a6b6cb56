//! Notes that go between two threads through channels of the kit. One thread sends a number, and
//! then a note of what its pass knows; the other learns the note before it takes, so it finds what
//! it was told of, and sends a note back, which the first learns before it sends again. So each
//! call was learned of before the next began, and the notes alone tell the one order that `close`
//! promises.
ghost use Rattle.std.specs.Prelude.{◌≡◌, ◌≤◌, [], ◌∷◌, Some, vec_capacity};
ghost use Rattle.std.specs.Option.{option_to_list};
ghost use Rattle.scq_queue.specs.Exports.{first_passes};
ghost use Rattle.scq_queue.specs.HoldsJust.{HoldsJust};
ghost use Rattle.example_queue.specs.Values.{IsMadeAnew};

use crate::{Made, Worked, give_both, sent, taken, two_of};
use crossbeam_channel::{Receiver, Sender, bounded};
use scq_queue::{HeapBuffer, Note, Pass, Queue};
use std::alloc::Global;
use std::marker::{Brand, PhantomData};
use std::sync::Wait;
use std::thread::{Threads, join};

/// How many numbers are sent so.
pub const NUMBERS: usize = 3;

/// The queue that notes are of, by its table.
pub trait Home {
    ghost use Rattle.std.specs.Prelude.{Option};
    ghost use Rattle.atomic_table.specs.Seated.{TableId};

    ghost table: { Option TableId };
}

impl Home for Brand {
    ghost use Rattle.std.specs.Prelude.{None};

    ghost table = { None };
}

/// What one thread tells the other: what its pass knew.
#[derive(Drop)]
struct Told<H: Home> {
    note: Note,
    home: PhantomData<H>,
    ghost own: { H.table ≡ Some note.table },
}

/// A pass after its rounds, with the numbers of its calls, 0 where there was none.
type Half = Worked<[u8; NUMBERS]>;

/// What the pass knows now, to be sent.
fn what_it_knows<H: Home>(queue: &Queue<HeapBuffer>, pass: &mut Pass<HeapBuffer>) -> Told<H>
    requires home { H.table ≡ Some queue.now.table }
    requires pass { pass.old.queue ≡ queue.now }
    ensures { pass.new ≡ pass.old }
{
    Told {
        note: queue.note(pass),
        home: PhantomData,
    }
}

/// From then on the pass knows what it was told.
fn learn<H: Home>(queue: &Queue<HeapBuffer>, pass: &mut Pass<HeapBuffer>, told: Told<H>)
    requires home { H.table ≡ Some queue.now.table }
    requires pass { HoldsJust queue.now pass.old [] }
    ensures { HoldsJust queue.now pass.new [] }
{
    let Told { note, home: _ } = told;
    queue.learn(pass, note);
}

/// Sends the numbers, each once it has learned that the one before was taken.
fn send_rounds<H: Home, R: Wait>(
    rt: &R,
    queue: &Queue<HeapBuffer>,
    mut pass: Pass<HeapBuffer>,
    to: Sender<Told<H>, Global>,
    back: Receiver<Told<H>, Global>,
) -> Half
    requires home { H.table ≡ Some queue.now.table }
    requires rings { queue.now.setup.rings ≡ 2 }
    requires pass { HoldsJust queue.now pass [] }
    ensures { HoldsJust queue.now result.pass (option_to_list result.held) }
{
    let mut numbers = [0u8; NUMBERS];
    'rounds: for round in 0..NUMBERS {
        let number = round as u8 + 1;
        match sent(queue, &mut pass, number) {
            Ok(true) => numbers[round] = number,
            Ok(false) => break,
            Err(held) => {
                return Worked {
                    pass,
                    found: numbers,
                    held: Some(held),
                };
            }
        }
        if to.send(rt, what_it_knows(queue, &mut pass)).is_err() {
            break;
        }
        match back.recv(rt) {
            Ok(told) => learn(queue, &mut pass, told),
            Err(_) => break,
        }
    }
    Worked {
        pass,
        found: numbers,
        held: None,
    }
}

/// Takes each number that it is told of, and tells that it did.
fn take_rounds<H: Home, R: Wait>(
    rt: &R,
    queue: &Queue<HeapBuffer>,
    mut pass: Pass<HeapBuffer>,
    from: Receiver<Told<H>, Global>,
    back: Sender<Told<H>, Global>,
) -> Half
    requires home { H.table ≡ Some queue.now.table }
    requires rings { queue.now.setup.rings ≡ 2 }
    requires pass { HoldsJust queue.now pass [] }
    ensures { HoldsJust queue.now result.pass (option_to_list result.held) }
{
    let mut numbers = [0u8; NUMBERS];
    'rounds: for round in 0..NUMBERS {
        match from.recv(rt) {
            Ok(told) => learn(queue, &mut pass, told),
            Err(_) => break,
        }
        match taken(queue, &mut pass) {
            Ok(Some(number)) => numbers[round] = number,
            Ok(None) => break,
            Err(held) => {
                return Worked {
                    pass,
                    found: numbers,
                    held: Some(held),
                };
            }
        }
        if back.send(rt, what_it_knows(queue, &mut pass)).is_err() {
            break;
        }
    }
    Worked {
        pass,
        found: numbers,
        held: None,
    }
}

/// Each pass in a thread of its own, with a channel each way.
fn work<H: Home + Send, R: Threads + Wait + Sync>(
    rt: &R,
    queue: &Queue<HeapBuffer>,
    sender: (
        Pass<HeapBuffer>,
        Sender<Told<H>, Global>,
        Receiver<Told<H>, Global>,
    ),
    taker: (
        Pass<HeapBuffer>,
        Receiver<Told<H>, Global>,
        Sender<Told<H>, Global>,
    ),
) -> (Half, Half)
    requires home { H.table ≡ Some queue.now.table }
    requires rings { queue.now.setup.rings ≡ 2 }
    requires sender { HoldsJust queue.now sender.0 [] }
    requires taker { HoldsJust queue.now taker.0 [] }
    ensures sender { HoldsJust queue.now result.0.pass (option_to_list result.0.held) }
    ensures taker { HoldsJust queue.now result.1.pass (option_to_list result.1.held) }
{
    let (first, to, back) = sender;
    let (second, from, reply) = taker;
    join(
        rt,
        || -> Half
            requires { (H.table ≡ Some queue.now.table) × (queue.now.setup.rings ≡ 2)
                × HoldsJust queue.now first [] }
            ensures { HoldsJust queue.entry.now result.pass (option_to_list result.held) }
        { send_rounds(rt, queue, first, to, back) },
        || -> Half
            requires { (H.table ≡ Some queue.now.table) × (queue.now.setup.rings ≡ 2)
                × HoldsJust queue.now second [] }
            ensures { HoldsJust queue.entry.now result.pass (option_to_list result.held) }
        { take_rounds(rt, queue, second, from, reply) },
    )
}

/// Makes the rounds and closes the queue: the numbers that were sent, and those that were taken.
/// None where there is no memory for the channels.
pub fn make_rounds<H: Home + Send, R: Threads + Wait + Sync>(
    rt: &R,
    alloc: Global,
    mut made: Made,
) -> Option<([u8; NUMBERS], [u8; NUMBERS])>
    requires home { H.table ≡ Some made.queue.table }
    requires new { IsMadeAnew made }
{
    let (sender, taker) = two_of(&mut made.passes);
    let (Ok((to, from)), Ok((back, reply))) = (bounded(alloc, 1), bounded(alloc, 1)) else {
        made.passes.push_reserved(sender);
        made.passes.push_reserved(taker);
        let Made {
            queue,
            passes,
            values,
        } = made;
        let _closed = queue.close(passes, values);
        return None;
    };
    let (sender, taker) = work::<H, R>(rt, &made.queue, (sender, to, reply), (taker, from, back));
    let numbers = give_both(sender, taker, &mut made.passes, &mut made.values);
    let Made {
        queue,
        passes,
        values,
    } = made;
    let _closed = queue.close(passes, values);
    Some(numbers)
}
