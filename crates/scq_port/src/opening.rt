//! How a queue is made with its ports.
ghost use Rattle.std.specs.Prelude.{◌≡◌, ℕ, ◌<◌, ◌≤◌, ◌+◌, [], map, replicate, IfOk, vec_len};
ghost use Rattle.std.specs.Arc.{arc_value};
ghost use Rattle.scq_word.specs.Exports.{n_of};
ghost use Rattle.scq_queue.specs.Exports.{first_passes};
ghost use Rattle.scq_port.specs.Exports.{numbers_below, buffer_bytes, AreOpened, new_port};
ghost use Rattle.scq_port.specs.Exports.{HoldsNothing};

use crate::hand::Hand;
use crate::owner::Owner;
use crate::port::{APART, Port};
use crate::port_buffer::PortBuffer;
use scq_queue::{Held, Pass, Queue};
use scq_word::{NoMemory, Setup};
use std::alloc::Global;
use std::sync::Arc;

/// So many buffers, in the order of their numbers.
fn buffers(alloc: Global, count: u32) -> Result<Vec<PortBuffer>, NoMemory>
    ensures numbers { IfOk result (λ made. map buffer_bytes made.items ≡ numbers_below count) }
    ensures count { IfOk result (λ made. vec_len made ≡ count) }
{
    let mut made = Vec::with_capacity(alloc, count as usize)?;
    while made.len() < count as usize {
        let number = made.len() as u32;
        made.push_reserved(PortBuffer::new(number));
    }
    Ok(made)
}

// How many places of a hand stay free behind those of its indices: two lines of 64 bytes.
const PLACES_APART: usize = 16;

/// A hand without values, with a place for each of so many indices.
fn empty_hand(alloc: Global, places: u32, hold: u32) -> Result<Hand, NoMemory>
    ensures { IfOk result (λ hand.
        (hand.slots.items ≡ replicate places None) × (hand.room ≡ hold) × (hand.hold ≡ hold)) }
{
    let mut slots = Vec::with_capacity(alloc, places as usize + PLACES_APART)?;
    while slots.len() < places as usize {
        slots.push_reserved(None);
    }
    Ok(Hand {
        slots,
        room: hold,
        hold,
    })
}

/// A port over the pass of this number, which holds nothing; it may hold so many values.
fn port_of(
    alloc: Global,
    owner: &Arc<Owner, Global>,
    pass: Pass<PortBuffer>,
    setup: Setup,
    hold: u32,
    number: u32,
) -> Result<Port, NoMemory>
    requires setup { (arc_value owner.now).queue.setup ≡ setup }
    requires rings { 2 ≤ setup.rings }
    requires low { number < setup.seats }
    requires number { pass.number ≡ number }
    requires fresh { HoldsNothing (arc_value owner.now).queue pass }
    ensures { IfOk result (λ port. port ≡ new_port hold pass) }
{
    let owner = Arc::try_clone(owner)?;
    let hand = empty_hand(alloc, setup.shape().n(), hold)?;
    let topics = setup.rings() - 1;
    Ok(Port {
        before: [0; APART],
        owner,
        pass,
        hand,
        topics,
        sends: topics,
        number,
        awake: true,
        behind: [0; APART],
    })
}

/// A port over each of these passes, in their order.
fn ports_of(
    alloc: Global,
    owner: &Arc<Owner, Global>,
    mut passes: Vec<Pass<PortBuffer>>,
    setup: Setup,
    hold: u32,
) -> Result<Vec<Port>, NoMemory>
    requires setup { (arc_value owner.now).queue.setup ≡ setup }
    requires rings { 2 ≤ setup.rings }
    requires passes { passes.items ≡ first_passes (arc_value owner.now).queue setup.seats }
    ensures { IfOk result (λ ports. ports.items ≡ map (new_port hold) passes.items) }
{
    let mut ports = Vec::with_capacity(alloc, passes.len())?;
    passes.reverse();
    while let Some(pass) = passes.pop() {
        let number = ports.len() as u32;
        ports.push(port_of(alloc, owner, pass, setup, hold, number)?)?;
    }
    Ok(ports)
}

/// A queue over 2^order buffers, by its ports, as many as the setup has seats and in the order of
/// their numbers, each of which may hold `hold` values. Topic t is ring t + 1, so there is one
/// topic less than rings. Where memory is refused nothing is left.
pub fn open(alloc: Global, setup: Setup, hold: u32) -> Result<Vec<Port>, NoMemory>
    requires rings { 2 ≤ setup.rings }
    ensures { IfOk result (λ ports. AreOpened setup hold ports.items) }
{
    let buffers = buffers(alloc, setup.shape().n())?;
    let Ok((queue, passes)) = Queue::make(alloc, setup, buffers) else {
        return Err(NoMemory);
    };
    let owner = Arc::new(alloc, Owner::new(alloc, queue, setup)?)?;
    ports_of(alloc, &owner, passes, setup, hold)
}
