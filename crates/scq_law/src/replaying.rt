//! Replays a list of steps from the start.

ghost use Rattle.std.specs.Prelude.{◌≡◌, ℕ, ◌<◌, List, [], Err, IfOk, OnOk, vec_len};
ghost use Rattle.std.specs.List.{All};
ghost use Rattle.scq_word.specs.Exports.{n_of};
ghost use Rattle.scq_core.specs.declared.step.Step.{Step as StepOf};
ghost use Rattle.scq_law.specs.Exports.{IsRecording, ReplaysRun, StopsAt, ObeysLaws, ObeysRunLaws};

use crate::recording::Recording;
use crate::replayed::{ReplayFault, Replayed};
use scq_core::{ApplyFault, Step};
use scq_word::{Bytes, Setup};
use std::alloc::Global;

/// Makes the steps one after another from the start, where the opening contents stand in ring 0,
/// and answers what is recorded of them. After each run the laws of the machine hold.
pub fn replay(
    alloc: Global,
    setup: Setup,
    opening: Vec<Bytes>,
    steps: &[(u32, Step)],
) -> Result<Replayed, ReplayFault>
    requires opening { vec_len opening ≡ n_of setup.order }
    requires seats { All (λ (x : ℕ × StepOf). x.0 < setup.seats) steps.now }

    ensures run { IfOk result (ReplaysRun setup opening.items steps.now) }
    ensures not_enabled { (at : ℕ) → result ≡ Err (ReplayFault.NotEnabled at)
        → StopsAt setup opening.items steps.now at }
    ensures laws { IfOk result (ObeysLaws setup opening.items steps.now) }
    ensures all_along { ObeysRunLaws setup opening.items steps.now }
{
    let mut recording = Recording::first(alloc, setup, opening)?;
    make_all(&mut recording, &setup, steps)?;
    Ok(recording.replayed())
}

/// Makes these steps one after another from the start.
fn make_all(
    recording: &mut Recording,
    setup: &Setup,
    steps: &[(u32, Step)],
) -> Result<(), ReplayFault>
    requires first { (opening : List (List ℕ)) × IsRecording setup.now opening [] recording.old }
    requires seats { All (λ (x : ℕ × StepOf). x.0 < setup.now.seats) steps.now }
    ensures made { (opening : List (List ℕ)) → IsRecording setup.now opening [] recording.old
        → OnOk result (IsRecording setup.now opening steps.now recording.new) }
    ensures not_enabled { (opening : List (List ℕ)) (at : ℕ)
        → IsRecording setup.now opening [] recording.old
        → result ≡ Err (ReplayFault.NotEnabled at) → StopsAt setup.now opening steps.now at }
{
    for (at, (seat, step)) in steps.iter().enumerate() {
        match recording.make(setup, *seat, step) {
            Ok(()) => {}
            Err(ApplyFault::NotEnabled) => return Err(ReplayFault::NotEnabled { at: at as u64 }),
            Err(ApplyFault::NoMemory) => return Err(ReplayFault::NoMemory),
        }
    }
    Ok(())
}
