//! Files of two runs.

ghost use Rattle.std.specs.Prelude.{MatchOption};
ghost use Rattle.scq_judge.specs.Exports.{AreOfOneRun, IsOfAnotherRun};

use crate::recorded::RunOf;

/// The first file that is of another run than the first that tells its run, and this one.
pub(crate) fn first_other_run(runs: &[RunOf]) -> Option<(RunOf, RunOf)>
    ensures { MatchOption result (AreOfOneRun runs.now) (λ pair.
        IsOfAnotherRun runs.now pair.0 pair.1) }
{
    let first = *runs.first()?;
    for run in runs {
        if run.number != first.number {
            return Some((*run, first));
        }
    }
    None
}
