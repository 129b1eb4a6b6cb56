//! The verdict of every run of the machine.

ghost use Rattle.std.specs.Prelude.{◌≡◌, ℕ, ◌<◌, None, Err, IfOk, OnOk, IsSome, vec_len};
ghost use Rattle.std.specs.List.{All};
ghost use Rattle.scq_word.specs.Exports.{n_of};
ghost use Rattle.scq_core.specs.declared.step.Step.{Step as StepOf};
ghost use Rattle.scq_law.specs.Exports.{recorded_of, StopsAt};

use scq_check::{Verdict, judge};
use scq_core::Step;
use scq_law::{ReplayFault, replay};
use scq_word::{Bytes, NoMemory, Setup};
use std::alloc::Global;

/// Makes the steps one after another from the start, where the opening contents stand in ring 0,
/// and judges the history of the run. Each aspect of it holds.
pub fn judge_run(
    alloc: Global,
    setup: Setup,
    opening: Vec<Bytes>,
    steps: &[(u32, Step)],
) -> Result<Verdict, ReplayFault>
    requires opening { vec_len opening ≡ n_of setup.order }
    requires seats { All (λ (x : ℕ × StepOf). x.0 < setup.seats) steps.now }
    ensures run { OnOk result (IsSome (recorded_of setup opening.items steps.now)) }
    ensures not_enabled { (at : ℕ) → result ≡ Err (ReplayFault.NotEnabled at)
        → StopsAt setup opening.items steps.now at }
    ensures fresh { IfOk result (λ verdict. verdict.fresh ≡ None) }
    ensures once { IfOk result (λ verdict. verdict.once ≡ None) }
    ensures in_order { IfOk result (λ verdict. verdict.in_order ≡ None) }
    ensures empty_right { IfOk result (λ verdict. verdict.empty_right ≡ None) }
{
    let tokens = copied(alloc, &opening)?;
    let replayed = replay(alloc, setup, opening, steps)?;
    Ok(judge(alloc, &tokens, &replayed.events)?)
}

fn copied(alloc: Global, contents: &Vec<Bytes>) -> Result<Vec<Bytes>, NoMemory>
    ensures { IfOk result (λ copy. copy.items ≡ contents.now.items) }
{
    let mut copy = Vec::new(alloc);
    copy.reserve_exact(contents.len())?;
    for content in contents {
        copy.push(Bytes::copy_of(alloc, content.bytes())?)?;
    }
    Ok(copy)
}
