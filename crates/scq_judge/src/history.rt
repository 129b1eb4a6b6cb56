//! The history that recordings are merged to.

ghost use Rattle.std.specs.Prelude.{◌≡◌, ◌⊎◌, length, IfOk, IfErr};
ghost use Rattle.scq_hist.specs.Exports.{IsLawful};
ghost use Rattle.scq_judge.specs.Runs.{AreOfOneRun};
ghost use Rattle.scq_judge.specs.Seats.{EachSeatInOneFile};
ghost use Rattle.scq_judge.specs.Judged.{IsCauseIn, IsLawfulHistory, IsUnlawfulAt};

use crate::judging::{JudgeFault, Shared, sharing};
use crate::merging::{Merged, merge};
use crate::recorded::{Place, Recorded};
use crate::runs::first_other_run;
use crate::seats::first_apart;
use scq_check::first_unlawful;
use scq_word::NoMemory;
use std::alloc::Global;

/// The lawful history that what was read is merged to.
pub(crate) fn lawful_history(alloc: Global, recorded: Recorded) -> Result<Merged, JudgeFault>
    ensures history { IfOk result (λ merged. IsLawfulHistory recorded merged.opening.items
        merged.events.items merged.places.items) }
    ensures refused { IfErr result (IsCauseIn recorded) }
{
    match first_other_run(recorded.runs()) {
        Some((run, first)) => Err(JudgeFault::TwoRuns {
            file: run.file,
            run: run.number,
            other_file: first.file,
            other_run: first.number,
        }),
        None => history_of_one_run(alloc, recorded),
    }
}

// The same, where the files are of one run.
fn history_of_one_run(alloc: Global, recorded: Recorded) -> Result<Merged, JudgeFault>
    requires { AreOfOneRun recorded.runs }
    ensures history { IfOk result (λ merged. IsLawfulHistory recorded merged.opening.items
        merged.events.items merged.places.items) }
    ensures refused { IfErr result (IsCauseIn recorded) }
{
    match first_apart(alloc, recorded.events()) {
        Ok(None) => history_apart(alloc, recorded),
        Ok(Some(apart)) => Err(sharing(Shared::Seat, apart.place, apart.other)),
        Err(NoMemory) => Err(JudgeFault::NoMemory),
    }
}

// The same, where each seat's events stand in one file.
fn history_apart(alloc: Global, recorded: Recorded) -> Result<Merged, JudgeFault>
    requires runs { AreOfOneRun recorded.runs }
    requires seats { EachSeatInOneFile recorded.events }
    ensures history { IfOk result (λ merged. IsLawfulHistory recorded merged.opening.items
        merged.events.items merged.places.items) }
    ensures refused { IfErr result (IsCauseIn recorded) }
{
    match merge(alloc, recorded) {
        Ok(merged) => lawful(alloc, merged),
        Err(fault) => Err(JudgeFault::from(fault)),
    }
}

// The merged history, if it is lawful.
fn lawful(alloc: Global, merged: Merged) -> Result<Merged, JudgeFault>
    requires { length merged.places.items ≡ length merged.events.items }
    ensures same { IfOk result (λ history. history ≡ merged) }
    ensures lawful { IfOk result (λ history. IsLawful merged.events.items) }
    ensures refused { IfErr result (λ fault.
        (fault ≡ JudgeFault.NoMemory)
        ⊎ IsUnlawfulAt merged.events.items merged.places.items fault) }
{
    let first = first_unlawful(alloc, merged.events.as_slice())?;
    match first {
        Some(e) => {
            let Place { file, line } = merged.places[e];
            Err(JudgeFault::Unlawful { file, line })
        }
        None => Ok(merged),
    }
}
