//! The lines of a schedule, read and made one by one.

ghost use Rattle.std.specs.Prelude.{◌≡◌, ◌⊎◌, ◌+◌, ◌<◌, ◌≤◌, [], ℕ, Some, None, Err, IfOk, OnOk};
ghost use Rattle.std.specs.Prelude.{IfErr, IfSome, replicate, vec_len};
ghost use Rattle.scq_word.specs.Exports.{n_of};
ghost use Rattle.scq_core.specs.Exports.{IsReachable, machine_of, step_of};
ghost use Rattle.scq_lines.specs.Exports.{lines_of};
ghost use Rattle.scq_replay.specs.Printed.{begins_on};
ghost use Rattle.scq_replay.specs.Replay.{turn_of_line, HasSetup, Gives};
ghost use Rattle.scq_replay.specs.declared.replaying.ScheduleFault.TheVariants.{BadLine};
ghost use Rattle.scq_replay.specs.declared.replaying.ScheduleFault.TheVariants.{
  NotEnabled as IsNotEnabled,
};
ghost use Rattle.scq_replay.specs.declared.replaying.ScheduleFault.TheVariants.{NoMemory as Wanted};

use crate::ScheduleFault;
use crate::schedule::{read_setup, read_turn};
use scq_core::{ApplyFault, State, Step};
use scq_lines::next_line;
use scq_word::{Bytes, NoMemory, Setup};
use std::alloc::Global;

// The most steps of a schedule.
const MOST_STEPS: u32 = 10_000;

/// The setup that the first line says, and the lines behind it.
pub(crate) fn first_line(text: &[u8]) -> Result<(Setup, &[u8]), ScheduleFault>
    ensures setup { IfOk result (λ cut. HasSetup (lines_of text.now) cut.0 (lines_of cut.1.now)) }
    ensures refused { IfErr result (λ fault. Gives (lines_of text.now) (Err fault)) }
{
    let Some((line, steps)) = next_line(text) else {
        return Err(ScheduleFault::BadLine { line: 1 });
    };
    match read_setup(line) {
        Some(setup) => Ok((setup, steps)),
        None => Err(ScheduleFault::BadLine { line: 1 }),
    }
}

/// As many empty contents as the setup has indices.
pub(crate) fn no_contents(alloc: Global, setup: &Setup) -> Result<Vec<Bytes>, NoMemory>
    ensures many { IfOk result (λ contents. vec_len contents ≡ n_of setup.now.order) }
    ensures none { IfOk result (λ contents. contents.items ≡ replicate (n_of setup.now.order) []) }
{
    let mut contents = Vec::new(alloc);
    for _ in 0..setup.shape().n() {
        contents.push(Bytes::from(Vec::new(alloc)))?;
    }
    Ok(contents)
}

/// The seat and its step of this number, from 1, which a line says.
pub(crate) fn turn_of_line(
    alloc: Global,
    setup: &Setup,
    number: u32,
    line: &[u8],
) -> Result<(u32, Step), ScheduleFault>
    requires { number ≤ 10001 }
    ensures says { IfOk result (λ turn. turn_of_line setup.now number line.now ≡ Some turn) }
    ensures few { OnOk result (number ≤ 10000) }
    ensures seat { IfOk result (λ turn. turn.0 < setup.now.seats) }
    ensures ring { IfOk result (λ turn.
        IfSome (begins_on turn.1) (λ ring. ring < setup.now.rings)) }
    ensures refused { IfErr result (λ fault. (fault ≡ Wanted)
        ⊎ ((fault ≡ BadLine (number + 1)) × (turn_of_line setup.now number line.now ≡ None))) }
{
    if number > MOST_STEPS {
        return Err(ScheduleFault::BadLine { line: number + 1 });
    }
    match read_turn(alloc, setup, line)? {
        Some(turn) => Ok(turn),
        None => Err(ScheduleFault::BadLine { line: number + 1 }),
    }
}

/// Makes the step of this number.
pub(crate) fn make_step(
    state: &mut State,
    number: u32,
    seat: u32,
    step: &Step,
) -> Result<(), ScheduleFault>
    requires seat { seat < state.old.setup.seats }
    requires number { number ≤ 10000 }
    ensures leads { OnOk result (step_of state.old.setup (machine_of state.old) seat step.now
        ≡ Some (machine_of state.new)) }
    ensures setup { state.new.setup ≡ state.old.setup }
    ensures reachable { IsReachable state.new.setup (machine_of state.new) }
    ensures refused { IfErr result (λ fault. (fault ≡ Wanted)
        ⊎ ((fault ≡ IsNotEnabled (number + 1))
        × (step_of state.old.setup (machine_of state.old) seat step.now ≡ None))) }
{
    match state.apply(seat, step) {
        Ok(()) => Ok(()),
        Err(ApplyFault::NotEnabled) => Err(ScheduleFault::NotEnabled { line: number + 1 }),
        Err(ApplyFault::NoMemory) => Err(ScheduleFault::NoMemory),
    }
}
