//! What a worker does at its desk: all that one thread does.
ghost use Rattle.std.specs.Prelude.{◌≡◌, ◌≤◌, ◌+◌, [], length, None, IfErr, OnOk, All};
ghost use Rattle.scq_block.specs.Exports.{bytes_of};
ghost use Rattle.scq_files.specs.Exports.{IsNew, ids_of, all_given, WereRead};
ghost use Rattle.scq_worker.specs.Bells.{but_wakes, RingsEachSend};
ghost use Rattle.scq_worker.specs.Opening.{NoneIsOpen};
ghost use Rattle.scq_worker.specs.Passing.{parts_in};
ghost use Rattle.scq_worker.specs.Reading.{HasGathered, HasStoppedIn, IsSameWorker};
ghost use Rattle.scq_worker.specs.Seats.{IsToBegin};
ghost use Rattle.scq_worker.specs.Desks.{HasProducedAt, IsToSweepAt, HasRunAt};
ghost use Rattle.scq_passes.specs.Exports.{HasLeftSwept, IsReturn};

use crate::bell::{Bell, NoBell};
use crate::worker::{Calls, Takes, Worker};
use crate::{Gate, Job, Point};
use scq_block::Frame;
use scq_desk::Seat;
use scq_files::{Desk, read_files};
use scq_outside::Source;
use scq_passes::{AtLimit, sweep_out};
use scq_queue::Queue;
use std::alloc::Global;

/// A desk at which such a worker sits.
pub type WorkDesk<S> = Desk<Seat<Worker<Frame>, Frame>, S>;

/// It reads its files and passes their messages on, and retires. Where it met a ticket past the
/// limit, it retires at once, and keeps the value that came back: as it asks no more whether all
/// have retired, it wakes all others there, for it may be the last.
pub fn produce<S: Source, G: Gate, T, W: Bell<T>>(
    desk: &mut WorkDesk<S>,
    alloc: Global,
    job: &Job,
    queue: &Queue<Frame>,
    gate: &G,
    bell: &W,
    stand: &mut T,
)
    requires rings { queue.now.setup.rings ≡ length job.now.topics + 2 }
    requires room { All (λ b. job.now.size + 24 ≤ length b.bytes.items) queue.now.given }
    requires fresh { IsToBegin queue.now desk.old.worker }
    requires unread { All IsNew desk.old.files.items }
    requires bell { W.fits bell.now (but_wakes (W.seen stand.old)) job.now.workers }
    ensures same { ids_of desk.new.files.items ≡ ids_of desk.old.files.items }
    ensures produced { HasProducedAt queue.now job.now S.Source desk.new }
    ensures number { desk.new.worker.worker.pass.number ≡ desk.old.worker.worker.pass.number }
    ensures bell { but_wakes (W.seen stand.new) ≡ but_wakes (W.seen stand.old) }
    ensures rung { desk.new.worker.worker.pass.spent ≡ None
        → RingsEachSend (W.seen stand.old).worker job.now.workers desk.new.worker.worker.pass
        (W.seen stand.old).wakes (W.seen stand.new).wakes }
{
    match pass_all_on(desk, alloc, job, queue, gate, bell, stand) {
        Ok(()) => desk.worker.worker.retire(queue),
        Err(at_limit) => {
            desk.worker.worker.retire(queue);
            bell.after_retire(stand, &desk.worker.worker.pass, job.workers);
            desk.worker.keep(at_limit);
        }
    }
}

/// It reads its files and passes their messages on, so that no part stays open.
fn pass_all_on<S: Source, G: Gate, T, W: Bell<T>>(
    desk: &mut WorkDesk<S>,
    alloc: Global,
    job: &Job,
    queue: &Queue<Frame>,
    gate: &G,
    bell: &W,
    stand: &mut T,
) -> Result<(), AtLimit<Frame>>
    requires rings { queue.now.setup.rings ≡ length job.now.topics + 2 }
    requires room { All (λ b. job.now.size + 24 ≤ length b.bytes.items) queue.now.given }
    requires fresh { IsToBegin queue.now desk.old.worker }
    requires unread { All IsNew desk.old.files.items }
    requires bell { W.fits bell.now (but_wakes (W.seen stand.old)) job.now.workers }
    ensures files { WereRead job.now.topics job.now.longest S.Source desk.old.files.items
        desk.new.files.items }
    ensures gathered { OnOk result (HasGathered queue.now job.now
        (parts_in job.now.size (all_given desk.new.files.items)) desk.old.worker.worker
        desk.new.worker.worker (W.seen stand.old) (W.seen stand.new)) }
    ensures closed { OnOk result (NoneIsOpen desk.new.worker.worker.opens.items) }
    ensures stopped { IfErr result (λ l. HasStoppedIn queue.now job.now
        (parts_in job.now.size (all_given desk.new.files.items)) desk.old.worker.worker
        desk.new.worker.worker l.held) }
    ensures kept { desk.new.worker.kept ≡ desk.old.worker.kept }
    ensures still { IsSameWorker desk.old.worker.worker desk.new.worker.worker (W.seen stand.old)
        (W.seen stand.new) }
{
    let with = Calls {
        alloc,
        job,
        queue,
        gate,
        bell,
    };
    let worker = &mut desk.worker.worker;
    let files = desk.files.as_mut_slice();
    read_files(worker, &with, stand, alloc, &job.topics, job.longest, files)?;
    desk.worker
        .worker
        .pass_all_open(alloc, job, queue, gate, bell, stand)?;
    Ok(())
}

/// The worker's whole work: it reads its files and passes their messages on, retires, and sweeps
/// until it leaves. Where it met a ticket past the limit, it leaves at once, and keeps the value
/// that came back.
pub fn run<S: Source, G: Gate>(
    desk: &mut WorkDesk<S>,
    alloc: Global,
    job: &Job,
    queue: &Queue<Frame>,
    gate: &G,
)
    requires rings { queue.now.setup.rings ≡ length job.now.topics + 2 }
    requires room { All (λ b. job.now.size + 24 ≤ length b.bytes.items) queue.now.given }
    requires fresh { IsToBegin queue.now desk.old.worker }
    requires unread { All IsNew desk.old.files.items }
    ensures same { ids_of desk.new.files.items ≡ ids_of desk.old.files.items }
    ensures run { HasRunAt queue.now job.now S.Source desk.new }
    ensures behind { desk.new.worker.worker.pass.spent ≡ None
        → HasLeftSwept bytes_of IsReturn (length job.now.topics
        + 1) 64 desk.new.worker.worker.pass }
    ensures number { desk.new.worker.worker.pass.number ≡ desk.old.worker.worker.pass.number }
{
    let mut nobody = NoBell;
    produce(desk, alloc, job, queue, gate, &NoBell, &mut nobody);
    match desk.worker.worker.pass.spent() {
        Some(_) => {}
        None => leave(desk, alloc, job, queue, gate),
    }
}

/// It sweeps until it leaves.
fn leave<S: Source, G: Gate>(
    desk: &mut WorkDesk<S>,
    alloc: Global,
    job: &Job,
    queue: &Queue<Frame>,
    gate: &G,
)
    requires sweep { IsToSweepAt queue.now job.now S.Source desk.old }
    ensures same { desk.new.files.items ≡ desk.old.files.items }
    ensures run { HasRunAt queue.now job.now S.Source desk.new }
    ensures behind { desk.new.worker.worker.pass.spent ≡ None
        → HasLeftSwept bytes_of IsReturn (length job.now.topics
        + 1) 64 desk.new.worker.worker.pass }
    ensures number { desk.new.worker.worker.pass.number ≡ desk.old.worker.worker.pass.number }
{
    let with = Takes {
        alloc,
        job,
        queue,
        gate,
    };
    match sweep_out(&mut desk.worker.worker, &with, job.topics.len() + 1) {
        Ok(()) => gate.at(desk.worker.worker.number, Point::BeforeLeave),
        Err(at_limit) => desk.worker.keep(at_limit),
    }
}
