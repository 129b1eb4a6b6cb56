//! How C opens a queue.
ghost use Rattle.std.specs.Prelude.{◌≡◌, ℕ, ◌+◌, ◌*◌, ◌^◌, ◌≤◌, map, length, true, false, Some};
ghost use Rattle.std.specs.Prelude.{None, Err, IfOk, IfSome, All, vec_len};
ghost use Rattle.scq_word.specs.Exports.{IsOutside, n_of, most_order, most_topics};
ghost use Rattle.scq_port.specs.Exports.{AreOpened};
ghost use Rattle.scq_c.specs.Answers.{OfOpen, IsClosed, ports_of, memories_of};

use crate::answers::{
    BAD_HOLD, BAD_LIMIT, BAD_ORDER, BAD_PORTS, BAD_SIZE, BAD_TOPICS, IS_OPEN, NO_MEMORY, OK,
};
use crate::c_port::{CPort, Memory};
use crate::handle::{is_open, put};
use scq_port::{Port, open as open_ports};
use scq_word::{MOST_TOPICS, Setup, SetupFault};
use std::alloc::Global;

/// Whether one of these ports is open.
fn any_open(ports: &mut [CPort], alloc: Global) -> bool
    ensures same { ports_of ports.new ≡ ports_of ports.old }
    ensures memories { memories_of ports.new ≡ memories_of ports.old }
    ensures open { (result ≡ true) → All IsClosed ports.old → ⊥ }
    ensures closed { (result ≡ false) → All IsClosed ports.old }
{
    let mut k = 0;
    while k < ports.len() {
        if is_open(&mut ports[k].handle, alloc) {
            return true;
        }
        k += 1;
    }
    false
}

/// The setup of a queue with so many topics and ports.
fn setup_of(order: u32, topics: u32, ports: usize, limit: u64) -> Result<Setup, SetupFault>
    ensures made { IfOk result (λ setup.
        (setup.order ≡ order) × (setup.rings ≡ topics + 1) × (setup.seats ≡ ports)
        × (setup.limit ≡ limit)
        × (2 ≤ setup.rings)) }
    ensures bad_order { result ≡ Err SetupFault.BadOrder → IsOutside 1 most_order order }
    ensures bad_topics { result ≡ Err SetupFault.BadRings → IsOutside 1 most_topics topics }
    ensures bad_ports { result ≡ Err SetupFault.BadSeats → IsOutside 1 4096 ports }
    ensures bad_limit { result ≡ Err SetupFault.BadLimit
        → IsOutside (8 * n_of order) (2 ^ 60) limit }
{
    if topics < 1 || topics > MOST_TOPICS {
        return Err(SetupFault::BadRings);
    }
    let Ok(seats) = u32::try_from(ports) else {
        return Err(SetupFault::BadSeats);
    };
    Setup::new(order, topics + 1, seats, limit)
}

/// The ports of a new queue in their order, each in a box.
fn boxed(alloc: Global, setup: Setup, hold: u32) -> Option<Vec<Box<Port>>>
    requires { 2 ≤ setup.rings }
    ensures { IfSome result (λ boxes. AreOpened setup hold (map (λ b. b.value) boxes.items)) }
{
    let Ok(mut ports) = open_ports(alloc, setup, hold) else {
        return None;
    };
    let Ok(mut boxes) = Vec::with_capacity(alloc, ports.len()) else {
        return None;
    };
    ports.reverse();
    while let Some(port) = ports.pop() {
        let Ok(boxed) = Box::new(alloc, port) else {
            return None;
        };
        boxes.push_reserved(boxed);
    }
    Some(boxes)
}

/// Tells a port where the buffers' bytes are.
fn tell_one(port: &mut CPort, memory: &Memory)
    ensures same { port.new.handle ≡ port.old.handle }
    ensures told { port.new.memory ≡ memory.now }
{
    port.memory = *memory;
}

/// Tells each of these ports where the buffers' bytes are.
fn tell(ports: &mut [CPort], memory: &Memory)
    ensures same { ports_of ports.new ≡ ports_of ports.old }
    ensures told { All (λ p. p.memory ≡ memory.now) ports.new }
{
    let mut k = 0;
    while k < ports.len() {
        tell_one(&mut ports[k], memory);
        k += 1;
    }
}

/// Puts each of these ports into the handle of its number.
fn fill(ports: &mut [CPort], mut boxes: Vec<Box<Port>>)
    requires closed { All IsClosed ports.old }
    requires count { vec_len boxes ≡ length ports.old }
    ensures ports { ports_of ports.new ≡ map (λ b. Some b.value) boxes.items }
    ensures memories { memories_of ports.new ≡ memories_of ports.old }
{
    while let Some(port) = boxes.pop() {
        put(&mut ports[boxes.len()].handle, port);
    }
}

/// Opens a queue: the ports of a new one, each of which is told where C has the buffers' bytes.
#[unsafe(no_mangle)]
pub extern "C" fn scq_open_over(
    alloc: Global,
    order: u32,
    topics: u32,
    hold: u32,
    limit: u64,
    memory: &Memory,
    ports: &mut [CPort],
) -> u32
    ensures { OfOpen order topics hold limit memory.now result ports.old ports.new }
{
    let setup = match setup_of(order, topics, ports.len(), limit) {
        Ok(setup) => setup,
        Err(SetupFault::BadOrder) => return BAD_ORDER,
        Err(SetupFault::BadRings) => return BAD_TOPICS,
        Err(SetupFault::BadSeats) => return BAD_PORTS,
        Err(SetupFault::BadLimit) => return BAD_LIMIT,
    };
    if memory.len < 1 || memory.stride < memory.len {
        return BAD_SIZE;
    }
    if hold < 1 || hold > setup.shape().n() {
        return BAD_HOLD;
    }
    if any_open(ports, alloc) {
        return IS_OPEN;
    }
    let Some(boxes) = boxed(alloc, setup, hold) else {
        return NO_MEMORY;
    };
    fill(ports, boxes);
    tell(ports, memory);
    OK
}
