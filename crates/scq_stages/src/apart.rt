//! The work of all workers, each in a thread.
ghost use Rattle.std.specs.Prelude.{◌≡◌, ℕ, ◌+◌, ◌<◌, ◌≤◌, None, length, slice_index_or};
ghost use Rattle.std.specs.List.{All};
ghost use Rattle.scq_block.specs.Exports.{bytes_of};
ghost use Rattle.scq_passes.specs.Exports.{HasLeftSwept, IsGivenBack};
ghost use Rattle.scq_files.specs.Exports.{IsNew, ids_of};
ghost use Rattle.scq_stages.specs.Exports.{IsToBegin, HasRunAt};

use crate::StageJob;
use crate::running::run;
use crate::worker::StageDesk;
use scq_block::Frame;
use scq_files::work_apart;
use scq_outside::Source;
use scq_queue::Queue;
use std::alloc::Global;
use std::thread::Threads;

/// The work of all workers, each in a thread, of which none waits. The desks come back in their
/// order.
pub(crate) fn run_all<R: Threads + Sync, S: Source>(
    rt: &R,
    alloc: Global,
    job: &StageJob,
    queue: &Queue<Frame>,
    desks: Vec<StageDesk<S>>,
) -> Vec<StageDesk<S>>
    requires some { 0 < length desks.items }
    requires rings { queue.now.setup.rings ≡ 3 }
    requires room { All (λ b. job.now.size + 24 ≤ length b.bytes.items) queue.now.given }
    requires fresh { All (λ d. IsToBegin queue.now d.worker) desks.items }
    requires unread { All (λ d. All IsNew d.files.items) desks.items }
    ensures count { length result.items ≡ length desks.items }
    ensures same { (w : ℕ) (d : _) → w < length desks.items
        → ids_of (slice_index_or result.items w d).files.items
        ≡ ids_of (slice_index_or desks.items w d).files.items }
    ensures numbers { (w : ℕ) (d : _) → w < length desks.items
        → (slice_index_or result.items w d).worker.worker.pass.number
        ≡ (slice_index_or desks.items w d).worker.worker.pass.number }
    ensures run { All (HasRunAt queue.now job.now.size S.Source) result.items }
    ensures behind { All (λ d. d.worker.worker.pass.spent ≡ None
        → HasLeftSwept bytes_of IsGivenBack 2 64 d.worker.worker.pass) result.items }
{
    let run_one = |_: usize, desk: &mut StageDesk<S>|
        requires { (queue.now.setup.rings ≡ 3)
            × All (λ b. job.now.size + 24 ≤ length b.bytes.items) queue.now.given
            × IsToBegin queue.now desk.now.worker × All IsNew desk.now.files.items }
        ensures { (ids_of desk.exit.now.files.items ≡ ids_of desk.entry.now.files.items)
            × (desk.exit.now.worker.worker.pass.number ≡ desk.entry.now.worker.worker.pass.number)
            × HasRunAt queue.entry.now job.entry.now.size S.Source desk.exit.now
            × (desk.exit.now.worker.worker.pass.spent ≡ None
            → HasLeftSwept bytes_of IsGivenBack 2 64 desk.exit.now.worker.worker.pass) }
    { run(desk, alloc, job, queue) };
    work_apart(rt, desks, &run_one)
}
