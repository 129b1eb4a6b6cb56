//! Workers that leave early in place of waiting.
ghost use Rattle.std.specs.Prelude.{◌≡◌, ℕ, ◌+◌, ◌<◌, ◌≤◌, None, length, slice_index_or};
ghost use Rattle.std.specs.List.{All};
ghost use Rattle.scq_block.specs.Exports.{bytes_of};
ghost use Rattle.scq_passes.specs.Exports.{HasLeftSwept, IsReturn};
ghost use Rattle.scq_worker.specs.Exports.{IsToBegin, HasRunAt};
ghost use Rattle.scq_files.specs.Exports.{IsNew, ids_of};

use scq_block::Frame;
use scq_files::work_apart;
use scq_outside::Source;
use scq_queue::Queue;
use scq_worker::{Gate, Job, WorkDesk, run};
use std::alloc::Global;
use std::thread::Threads;

/// The work of all workers, each in a thread, of which none waits. The desks come back in their
/// order.
pub fn run_apart<R: Threads + Sync, S: Source, G: Gate + Sync>(
    rt: &R,
    alloc: Global,
    job: &Job,
    queue: &Queue<Frame>,
    gate: &G,
    desks: Vec<WorkDesk<S>>,
) -> Vec<WorkDesk<S>>
    requires some { 0 < length desks.items }
    requires rings { queue.now.setup.rings ≡ length job.now.topics + 2 }
    requires room { All (λ b. job.now.size + 24 ≤ length b.bytes.items) queue.now.given }
    requires fresh { All (λ d. IsToBegin queue.now d.worker) desks.items }
    requires unread { All (λ d. All IsNew d.files.items) desks.items }
    ensures count { length result.items ≡ length desks.items }
    ensures same { (w : ℕ) (d : _) → w < length desks.items
        → ids_of (slice_index_or result.items w d).files.items
        ≡ ids_of (slice_index_or desks.items w d).files.items }
    ensures numbers { (w : ℕ) (d : _) → w < length desks.items
        → (slice_index_or result.items w d).worker.worker.pass.number
        ≡ (slice_index_or desks.items w d).worker.worker.pass.number }
    ensures run { All (HasRunAt queue.now job.now S.Source) result.items }
    ensures behind { All (λ d. d.worker.worker.pass.spent ≡ None
        → HasLeftSwept bytes_of IsReturn (length job.now.topics
        + 1) 64 d.worker.worker.pass) result.items }
{
    let run_one = |_: usize, desk: &mut WorkDesk<S>|
        requires { (queue.now.setup.rings ≡ length job.now.topics + 2)
            × All (λ b. job.now.size + 24 ≤ length b.bytes.items) queue.now.given
            × IsToBegin queue.now desk.now.worker × All IsNew desk.now.files.items }
        ensures { (ids_of desk.exit.now.files.items ≡ ids_of desk.entry.now.files.items)
            × (desk.exit.now.worker.worker.pass.number ≡ desk.entry.now.worker.worker.pass.number)
            × HasRunAt queue.entry.now job.entry.now S.Source desk.exit.now
            × (desk.exit.now.worker.worker.pass.spent ≡ None
            → HasLeftSwept bytes_of IsReturn (length job.entry.now.topics
            + 1) 64 desk.exit.now.worker.worker.pass) }
    { run(desk, alloc, job, queue, gate) };
    work_apart(rt, desks, &run_one)
}
