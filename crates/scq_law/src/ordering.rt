//! The one-thread order of a ring.

ghost use Rattle.std.specs.Prelude.{◌≡◌, ℕ, ◌<◌, Err, IfOk, OnOk, MatchOption, map, vec_len};
ghost use Rattle.std.specs.List.{All};
ghost use Rattle.std.specs.List.Sorted.{IsPermutation};
ghost use Rattle.scq_word.specs.Exports.{n_of};
ghost use Rattle.scq_core.specs.declared.step.Step.{Step as StepOf};
ghost use Rattle.scq_core.specs.Exports.{machine_of};
ghost use Rattle.scq_law.specs.Exports.{AllIdle, StopsAt, AreInKeyOrder, IsMarkedRun};
ghost use Rattle.scq_law.specs.Exports.{IsLinearization, IsOneOrder, run_of, IsFinishedRun};
ghost use Rattle.scq_law.specs.Exports.{IsUnfinished, IsLowestBusy};
ghost use Rattle.scq_law.specs.declared.marks.Member.{Member as TheMember};

use crate::marking::{Marking, members_of};
use crate::marks::Member;
use crate::ordered::{OrderFault, Ordered};
use scq_core::{ApplyFault, State, Step};
use scq_word::{Bytes, NoMemory, Setup};
use std::alloc::Global;

/// Makes the steps one after another from the start, where the opening contents stand in ring 0,
/// and answers the one-thread order of the calls of one ring, its queue. Every call must have
/// ended. Calls that ended with Spent are left out. In the order each reply is a plain queue's, and
/// a call that ended before another started stands before it.
pub fn one_order(
    alloc: Global,
    setup: Setup,
    opening: Vec<Bytes>,
    steps: &[(u32, Step)],
    queue: u32,
) -> Result<Vec<Ordered>, OrderFault>
    requires opening { vec_len opening ≡ n_of setup.order }
    requires seats { All (λ (x : ℕ × StepOf). x.0 < setup.seats) steps.now }
    requires queue { queue < setup.rings }
    ensures finished { OnOk result (IsFinishedRun (run_of setup opening.items steps.now)) }
    ensures order { IfOk result (λ order.
        IsLinearization (run_of setup opening.items steps.now) queue order.items) }
    ensures plain { IfOk result (λ order.
        IsOneOrder (run_of setup opening.items steps.now) queue order.items) }
    ensures not_enabled { (at : ℕ) → result ≡ Err (OrderFault.NotEnabled at)
        → StopsAt setup opening.items steps.now at }
    ensures unfinished { (seat : ℕ) → result ≡ Err (OrderFault.Unfinished seat)
        → IsUnfinished (run_of setup opening.items steps.now) seat }
{
    let marking = marked(alloc, setup, opening, steps, queue)?;
    if let Some(seat) = busy_seat(&marking.state) {
        return Err(OrderFault::Unfinished { seat });
    }
    let mut members = members_of(marking);
    sort_members(&mut members)?;
    Ok(ordered(alloc, &members)?)
}

/// The run of the steps, and what is marked of it.
fn marked(
    alloc: Global,
    setup: Setup,
    opening: Vec<Bytes>,
    steps: &[(u32, Step)],
    ring: u32,
) -> Result<Marking, OrderFault>
    requires opening { vec_len opening ≡ n_of setup.order }
    requires seats { All (λ (x : ℕ × StepOf). x.0 < setup.seats) steps.now }
    requires ring { ring < setup.rings }
    ensures run { IfOk result (IsMarkedRun setup opening.items steps.now ring) }
    ensures not_enabled { (at : ℕ) → result ≡ Err (OrderFault.NotEnabled at)
        → StopsAt setup opening.items steps.now at }
    ensures no_seat { (seat : ℕ) → result ≡ Err (OrderFault.Unfinished seat) → ⊥ }
{
    let mut marking = Marking::first(alloc, setup, opening, ring)?;
    for (at, (seat, step)) in steps.iter().enumerate() {
        match marking.make(*seat, step, at as u64 + 1) {
            Ok(()) => {}
            Err(ApplyFault::NotEnabled) => return Err(OrderFault::NotEnabled { at: at as u64 }),
            Err(ApplyFault::NoMemory) => return Err(OrderFault::NoMemory),
        }
    }
    Ok(marking)
}

/// The lowest seat that is in the middle of a call.
fn busy_seat(state: &State) -> Option<u32>
    ensures { MatchOption result (AllIdle state.now.setup (machine_of state.now))
        (IsLowestBusy state.now.setup (machine_of state.now)) }
{
    for seat in 0..state.setup().seats() {
        if !state.idle(seat) {
            return Some(seat);
        }
    }
    None
}

/// Puts members in the order of their keys.
fn sort_members(members: &mut Vec<Member>) -> Result<(), NoMemory>
    ensures same { OnOk result (IsPermutation members.old.items members.new.items) }
    ensures sorted { OnOk result (AreInKeyOrder members.new.items) }
{
    members.sort_by_key(|member| member.key)?;
    Ok(())
}

/// What the members are, in their order.
fn ordered(alloc: Global, members: &Vec<Member>) -> Result<Vec<Ordered>, NoMemory>
    ensures { IfOk result (λ list.
        list.items ≡ map (λ (m : TheMember). m.ordered) members.now.items) }
{
    let mut list = Vec::new(alloc);
    for member in members {
        list.push(member.ordered)?;
    }
    Ok(list)
}
