//! A worker's whole work, at its desk.
ghost use Rattle.std.specs.Prelude.{◌≡◌, ◌+◌, ◌≤◌, [], length, None, IfErr, OnOk, All};
ghost use Rattle.scq_block.specs.Exports.{bytes_of};
ghost use Rattle.scq_files.specs.Exports.{AreRead, IsNew, StopsAtAFault, ids_of, all_given};
ghost use Rattle.scq_passes.specs.Exports.{Suits, HasLeftSwept, IsGivenBack};
ghost use Rattle.scq_stages.specs.Exports.{IsToBegin, IsAtWork, IsDone, HasStopped, HasRunAt};

use crate::StageJob;
use crate::leaving::leave;
use crate::reading::Calls;
use crate::worker::Worker;
use scq_block::Frame;
use scq_desk::Seat;
use scq_files::{Desk, OwnFile, read_files};
use scq_outside::Source;
use scq_passes::AtLimit;
use scq_queue::Queue;
use scq_topics::Topics;
use scq_word::BufferMut;
use std::alloc::Global;

/// Reads files and passes their messages on, and then moves what is in first until nothing is
/// there.
fn work<S: Source>(
    worker: &mut Worker<Frame>,
    alloc: Global,
    job: &StageJob,
    queue: &Queue<Frame>,
    topics: &Topics,
    files: &mut [OwnFile<S>],
) -> Result<(), AtLimit<Frame>>
    requires suits { Suits queue.now 1 worker.old.pass }
    requires stays { worker.old.pass.retired ≡ None }
    requires room { All (λ b. job.now.size + 24 ≤ length b.bytes.items) queue.now.given }
    requires topics { topics.now ≡ [] }
    requires unread { All IsNew files.old }
    ensures same { ids_of files.new ≡ ids_of files.old }
    ensures read { AreRead topics.now job.now.size S.Source files.new }
    ensures stops { StopsAtAFault files.new }
    ensures suits { OnOk result (Suits queue.now 1 worker.new.pass) }
    ensures stays { OnOk result (worker.new.pass.retired ≡ None) }
    ensures done { OnOk result
        (IsAtWork [] worker.old.pass worker.old.members.items worker.old.starved
        → IsDone (all_given files.new) worker.new.pass worker.new.members.items
        worker.new.starved) }
    ensures left { IfErr result (λ l.
        IsAtWork [] worker.old.pass worker.old.members.items worker.old.starved
        → HasStopped queue.now (length (all_given files.new)) worker.new.pass l.held) }
    ensures number { worker.new.pass.number ≡ worker.old.pass.number }
{
    let with = Calls { alloc, job, queue };
    read_files(worker, &with, &mut (), alloc, topics, job.size, files)?;
    worker.empty_first(queue)
}

/// The worker's whole work: it reads its files and passes their messages on, moves what is in
/// first, retires, and sweeps until it leaves. Where it met a ticket past the limit, it retires at
/// once where it hasn't yet, leaves, and keeps the value that came back.
pub(crate) fn run<S: Source>(
    desk: &mut Desk<Seat<Worker<Frame>, Frame>, S>,
    alloc: Global,
    job: &StageJob,
    queue: &Queue<Frame>,
)
    requires rings { queue.now.setup.rings ≡ 3 }
    requires room { All (λ b. job.now.size + 24 ≤ length b.bytes.items) queue.now.given }
    requires fresh { IsToBegin queue.now desk.old.worker }
    requires unread { All IsNew desk.old.files.items }
    ensures same { ids_of desk.new.files.items ≡ ids_of desk.old.files.items }
    ensures run { HasRunAt queue.now job.now.size S.Source desk.new }
    ensures behind { desk.new.worker.worker.pass.spent ≡ None
        → HasLeftSwept bytes_of IsGivenBack 2 64 desk.new.worker.worker.pass }
    ensures number { desk.new.worker.worker.pass.number ≡ desk.old.worker.worker.pass.number }
{
    let topics = Topics::none();
    let files = desk.files.as_mut_slice();
    match work(&mut desk.worker.worker, alloc, job, queue, &topics, files) {
        Ok(()) => {
            if let Err(at_limit) = leave(&mut desk.worker.worker, alloc, queue) {
                desk.worker.keep(at_limit);
            }
        }
        Err(at_limit) => {
            queue.retire(&mut desk.worker.worker.pass);
            desk.worker.keep(at_limit);
        }
    }
}
