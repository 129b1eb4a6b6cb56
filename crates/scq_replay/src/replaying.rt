//! A schedule run from its start, and printed.

ghost use Rattle.std.specs.Prelude.{◌≡◌, ◌⊎◌, ◌≤◌, ℕ, Ok, Err, IfOk, OnOk, IfErr};
ghost use Rattle.scq_core.specs.Exports.{IsReachable, machine_of};
ghost use Rattle.scq_lines.specs.Exports.{lines_of};
ghost use Rattle.scq_replay.specs.Replay.{steps_from, Gives};
ghost use Rattle.scq_replay.specs.Steps.{IsMade, LineIsRefused};
ghost use Rattle.scq_replay.specs.declared.replaying.ScheduleFault.TheVariants.{NoMemory as Wanted};

use crate::printing::{add_step, call_ring};
use crate::stepping::{first_line, make_step, no_contents, turn_of_line};
use scq_core::State;
use scq_lines::next_line;
use scq_word::{Bytes, NoMemory, Setup};
use std::alloc::Global;
use thiserror::Error;

/// Why a schedule was not run to its end: the first line with a fault, from 1. Where an order is
/// asked for and no line has one: the lowest seat whose call has not ended. Or memory was wanted.
#[derive(Clone, Copy, Debug, Error)]
pub enum ScheduleFault {
    /// The line is not of the form, or is one line too many; or there is no first line.
    #[error("line {line}: not understood")]
    BadLine { line: u32 },
    /// No line of the step table allows the step after the ones before it.
    #[error("line {line}: step not enabled")]
    NotEnabled { line: u32 },
    /// After all steps this seat, the lowest such, is in the middle of a call.
    #[error("seat {seat}: call not ended")]
    Unfinished { seat: u32 },
    #[error("out of memory")]
    NoMemory,
}

impl From<NoMemory> for ScheduleFault {
    ghost use Rattle.scq_replay.specs.declared.replaying.ScheduleFault.TheVariants.{
      NoMemory as Wanted,
    };

    ghost from_gives = { λ _ fault. fault ≡ Wanted };

    fn from(_: NoMemory) -> ScheduleFault {
        ScheduleFault::NoMemory
    }
}

/// Runs a schedule and prints its steps: line 1 is `setup ORDER RINGS SEATS LIMIT`, and at most
/// 10,000 lines are a step each. A printed line has the words of the call's ring after the step,
/// and the reply where the step ends its call. All opening contents are empty. The first line with
/// a fault is refused.
pub fn schedule_text(alloc: Global, text: &[u8]) -> Result<Bytes, ScheduleFault>
    ensures printed { IfOk result (λ printed. Gives (lines_of text.now) (Ok printed)) }
    ensures refused { IfErr result (λ fault.
        (fault ≡ Wanted) ⊎ Gives (lines_of text.now) (Err fault)) }
    ensures of_line { (seat : ℕ) → result ≡ Err (ScheduleFault.Unfinished seat) → ⊥ }
{
    let (setup, steps) = first_line(text)?;
    let state = State::start(alloc, setup, no_contents(alloc, &setup)?)?;
    steps_text(alloc, &setup, state, steps)
}

// Runs and prints the steps that lines say.
fn steps_text(
    alloc: Global,
    setup: &Setup,
    start: State,
    text: &[u8],
) -> Result<Bytes, ScheduleFault>
    requires setup { start.setup ≡ setup.now }
    requires reachable { IsReachable start.setup (machine_of start) }
    ensures printed { IfOk result (λ printed.
        steps_from setup.now (machine_of start) 1 (lines_of text.now) ≡ Ok printed) }
    ensures refused { IfErr result (λ fault. (fault ≡ Wanted)
        ⊎ (steps_from setup.now (machine_of start) 1 (lines_of text.now) ≡ Err fault)) }
{
    let mut state = start;
    let mut printed = Vec::new(alloc);
    let mut number = 1;
    let mut rest = text;
    'lines: while let Some((line, more)) = next_line(rest) {
        print_step(alloc, setup, &mut state, &mut printed, number, line)?;
        number += 1;
        rest = more;
    }
    Ok(Bytes::from(printed))
}

// Makes the step of this number, which a line says, and prints it.
fn print_step(
    alloc: Global,
    setup: &Setup,
    state: &mut State,
    printed: &mut Vec<u8>,
    number: u32,
    line: &[u8],
) -> Result<(), ScheduleFault>
    requires setup { state.old.setup ≡ setup.now }
    requires reachable { IsReachable state.old.setup (machine_of state.old) }
    requires number { number ≤ 10001 }
    ensures setup { state.new.setup ≡ setup.now }
    ensures reachable { IsReachable state.new.setup (machine_of state.new) }
    ensures few { OnOk result (number ≤ 10000) }
    ensures made { OnOk result (IsMade setup.now number line.now (machine_of state.old)
        (machine_of state.new) printed.old.items printed.new.items) }
    ensures refused { IfErr result (λ fault. (fault ≡ Wanted)
        ⊎ LineIsRefused setup.now number line.now (machine_of state.old) fault) }
{
    let (seat, step) = turn_of_line(alloc, setup, number, line)?;
    let ring = call_ring(state, seat, &step);
    make_step(state, number, seat, &step)?;
    add_step(
        printed,
        number,
        seat,
        &step,
        ring,
        setup.shape().slots(),
        state,
    )?;
    Ok(())
}
