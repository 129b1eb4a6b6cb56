//! The one-thread orders of a schedule's run, written as a text.

ghost use Rattle.std.specs.Prelude.{◌≡◌, ◌⊎◌, ◌++◌, ◌<◌, ◌≤◌, [], ℕ, List, Err, IfOk, OnOk, IfErr};
ghost use Rattle.std.specs.List.{All};
ghost use Rattle.scq_core.specs.Exports.{machine_of};
ghost use Rattle.scq_lines.specs.Exports.{lines_of};
ghost use Rattle.scq_law.specs.Exports.{IsLinearization, IsFinishedRun, IsUnfinished};
ghost use Rattle.scq_replay.specs.OrderSteps.{run_of_schedule, ScheduleLeads, IsScheduleOf};
ghost use Rattle.scq_replay.specs.OrderSteps.{IsAdded};
ghost use Rattle.scq_replay.specs.OrderSteps.{IsNumberedCall};
ghost use Rattle.scq_replay.specs.OrderText.{member_words, member_line, ring_lines, IsOrderText};
ghost use Rattle.scq_replay.specs.OrderText.{HasNoOrders};
ghost use Rattle.scq_replay.specs.Replay.{schedule_start, HasSetup, Gives};
ghost use Rattle.scq_replay.specs.Steps.{LineIsRefused};
ghost use Rattle.scq_replay.specs.declared.replaying.ScheduleFault.TheVariants.{
  Unfinished as IsUnended,
};
ghost use Rattle.scq_replay.specs.declared.replaying.ScheduleFault.TheVariants.{NoMemory as Wanted};

use crate::ScheduleFault;
use crate::printing::{add_number, add_reply};
use crate::stepping::{first_line, make_step, no_contents, turn_of_line};
use scq_core::{State, Step};
use scq_law::{OrderFault, Ordered, one_order};
use scq_lines::next_line;
use scq_word::{Bytes, NoMemory};
use std::alloc::Global;

/// The steps of a schedule so far, and the state that they have led to.
#[derive(Drop)]
pub(crate) struct Schedule {
    pub(crate) steps: Vec<(u32, Step)>,
    pub(crate) state: State,
}

/// Runs a schedule in which every call ends, and writes the one-thread order of each ring: `ring
/// R`, and then a line for each member, which is `opening J`, or a call's seat, its number and its
/// reply. Calls that ended with Spent are left out. The first line with a fault is refused; where
/// there is none, the lowest seat whose call has not ended.
pub fn order_text(alloc: Global, text: &[u8]) -> Result<Bytes, ScheduleFault>
    ensures written { IfOk result (λ written. IsOrderText (lines_of text.now) written) }
    ensures refused { IfErr result (λ fault.
        (fault ≡ Wanted) ⊎ HasNoOrders (lines_of text.now) fault) }
{
    let schedule = schedule_of(alloc, text)?;
    let mut written = Vec::new(alloc);
    for ring in 0..schedule.state.setup().rings() {
        let order = order_of(alloc, &schedule, ring)?;
        add_ring(&mut written, ring, &order, &schedule.state)?;
    }
    Ok(Bytes::from(written))
}

/// What the lines say, run to its end.
fn schedule_of(alloc: Global, text: &[u8]) -> Result<Schedule, ScheduleFault>
    ensures schedule { IfOk result (IsScheduleOf (lines_of text.now)) }
    ensures refused { IfErr result (λ fault.
        (fault ≡ Wanted) ⊎ Gives (lines_of text.now) (Err fault)) }
{
    let (setup, lines) = first_line(text)?;
    let state = State::start(alloc, setup, no_contents(alloc, &setup)?)?;
    let steps = Vec::new(alloc);
    with_lines(alloc, Schedule { steps, state }, lines)
}

/// The steps that lines say, from the start of a setup. What they give is what a text gives that
/// they are the rest of.
fn with_lines(alloc: Global, start: Schedule, lines: &[u8]) -> Result<Schedule, ScheduleFault>
    requires none { start.steps.items ≡ [] }
    requires start { machine_of start.state ≡ schedule_start start.state.setup }
    ensures schedule { (text : List (List ℕ)) → HasSetup text start.state.setup (lines_of lines.now)
        → IfOk result (IsScheduleOf text) }
    ensures refused { (text : List (List ℕ)) → HasSetup text start.state.setup (lines_of lines.now)
        → IfErr result (λ fault. (fault ≡ Wanted) ⊎ Gives text (Err fault)) }
{
    let mut schedule = start;
    let mut number = 1;
    let mut rest = lines;
    'lines: while let Some((line, more)) = next_line(rest) {
        schedule.add_line(alloc, number, line)?;
        number += 1;
        rest = more;
    }
    Ok(schedule)
}

impl Schedule {
    /// Makes the step of this number, which a line says.
    fn add_line(&mut self, alloc: Global, number: u32, line: &[u8]) -> Result<(), ScheduleFault>
        requires { number ≤ 10001 }
        ensures setup { self.new.state.setup ≡ self.old.state.setup }
        ensures few { OnOk result (number ≤ 10000) }
        ensures added { OnOk result
            (IsAdded self.old.state.setup number line.now self.old self.new) }
        ensures refused { IfErr result (λ fault. (fault ≡ Wanted)
            ⊎ LineIsRefused self.old.state.setup number line.now (machine_of self.old.state)
            fault) }
    {
        let (seat, step) = turn_of_line(alloc, &self.state.setup(), number, line)?;
        make_step(&mut self.state, number, seat, &step)?;
        self.steps
            .push((seat, step))
            .map_err(|_| ScheduleFault::NoMemory)?;
        Ok(())
    }
}

/// The order of a ring.
fn order_of(alloc: Global, schedule: &Schedule, ring: u32) -> Result<Vec<Ordered>, ScheduleFault>
    requires leads { ScheduleLeads schedule.now }
    requires ring { ring < schedule.now.state.setup.rings }
    ensures finished { OnOk result (IsFinishedRun (run_of_schedule schedule.now)) }
    ensures order { IfOk result (λ order.
        IsLinearization (run_of_schedule schedule.now) ring order.items) }
    ensures refused { IfErr result (λ fault. (fault ≡ Wanted)
        ⊎ ((seat : ℕ) × (fault ≡ IsUnended seat)
        × IsUnfinished (run_of_schedule schedule.now) seat)) }
{
    let setup = schedule.state.setup();
    let opening = no_contents(alloc, &setup)?;
    match one_order(alloc, setup, opening, &schedule.steps, ring) {
        Ok(order) => Ok(order),
        Err(OrderFault::Unfinished { seat }) => Err(ScheduleFault::Unfinished { seat }),
        Err(OrderFault::NoMemory) => Err(ScheduleFault::NoMemory),
        Err(OrderFault::NotEnabled { .. }) => unreachable!(),
    }
}

/// Adds the lines of a ring.
fn add_ring(
    text: &mut Vec<u8>,
    ring: u32,
    order: &Vec<Ordered>,
    state: &State,
) -> Result<(), NoMemory>
    requires { All (IsNumberedCall state.now.setup) order.now.items }
    ensures { OnOk result (text.new.items
        ≡ text.old.items ++ ring_lines (machine_of state.now) ring order.now.items) }
{
    add_number(text, b"ring ", u64::from(ring))?;
    text.extend_from_slice(b"\n")?;
    for member in order {
        add_member(text, member, state)?;
    }
    Ok(())
}

fn add_member(text: &mut Vec<u8>, member: &Ordered, state: &State) -> Result<(), NoMemory>
    requires { IsNumberedCall state.now.setup member.now }
    ensures { OnOk result (text.new.items
        ≡ text.old.items ++ member_line (machine_of state.now) member.now) }
{
    add_words(text, member, state)?;
    text.extend_from_slice(b"\n")?;
    Ok(())
}

fn add_words(text: &mut Vec<u8>, member: &Ordered, state: &State) -> Result<(), NoMemory>
    requires { IsNumberedCall state.now.setup member.now }
    ensures { OnOk result (text.new.items
        ≡ text.old.items ++ member_words (machine_of state.now) member.now) }
{
    match member {
        Ordered::Opening { number } => add_number(text, b"opening ", u64::from(*number)),
        Ordered::Call { seat, number } => {
            add_number(text, b"", u64::from(*seat))?;
            add_number(text, b" ", *number)?;
            add_reply(text, state.calls(*seat).get(*number as usize - 1))
        }
    }
}
