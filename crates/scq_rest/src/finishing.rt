//! What a worker that may rest does once it has retired.
ghost use Rattle.std.specs.Prelude.{◌≡◌, ◌+◌, length, None};
ghost use Rattle.scq_block.specs.Exports.{bytes_of};
ghost use Rattle.scq_worker.specs.Exports.{HasProducedAt, HasRunAt, takes_behind};
ghost use Rattle.scq_worker.specs.Exports.{asked_once, others_more_where};
ghost use Rattle.scq_queue.specs.Exports.{sends_of};
ghost use Rattle.scq_rest.specs.Exports.{HasWaited};

use crate::awaited::Awaited;
use crate::sweeping::sweep_and_rest;
use scq_block::Frame;
use scq_outside::Source;
use scq_park::{Crew, Stand};
use scq_queue::Queue;
use scq_worker::{Gate, Job, Point, Takes, WorkDesk};
use std::alloc::Global;
use std::sync::Wait;

/// Once it has retired: it sweeps, and rests after each sweep that took nothing, until all have
/// retired. Where its first question is answered so, it wakes all others. Where no wake comes it
/// never returns.
pub fn finish<S: Source, G: Gate, R: Wait>(
    desk: &mut WorkDesk<S>,
    rt: &R,
    alloc: Global,
    job: &Job,
    queue: &Queue<Frame>,
    gate: &G,
    crew: &Crew,
    stand: &mut Stand,
    awaited: &Awaited,
)
    requires produced { HasProducedAt queue.now job.now S.Source desk.old }
    requires stand { (stand.old.crew ≡ crew.now) × (stand.old.rests ≡ 0) }
    requires workers { length crew.now ≡ job.now.workers }
    requires none { awaited.now ≡ 0 }
    ensures same { desk.new.files.items ≡ desk.old.files.items }
    ensures run { HasRunAt queue.now job.now S.Source desk.new }
    ensures waited { HasWaited bytes_of (length job.now.topics
        + 1) (takes_behind job.now.most) stand.new.rests desk.new.worker.worker.pass }
    ensures number { desk.new.worker.worker.pass.number ≡ desk.old.worker.worker.pass.number }
    ensures stand { (stand.new.crew ≡ stand.old.crew) × (stand.new.worker ≡ stand.old.worker) }
    ensures rung { desk.new.worker.worker.pass.spent ≡ None → stand.new.wakes
        ≡ others_more_where (asked_once desk.new.worker.worker.pass) stand.old.worker
        job.now.workers stand.old.wakes }
    ensures unsent { desk.new.worker.worker.pass.spent ≡ None
        → (desk.old.worker.worker.pass.spent ≡ None)
        × (sends_of desk.new.worker.worker.pass.calls
        ≡ sends_of desk.old.worker.worker.pass.calls) }
{
    match desk.worker.worker.pass.spent() {
        Some(_) => {}
        None => {
            let with = Takes {
                alloc,
                job,
                queue,
                gate,
            };
            let worker = &mut desk.worker.worker;
            let topics = job.topics.len() + 1;
            match sweep_and_rest(worker, &with, topics, rt, crew, stand, job.workers, awaited) {
                Ok(()) => gate.at(desk.worker.worker.number, Point::BeforeLeave),
                Err(at_limit) => desk.worker.keep(at_limit),
            }
        }
    }
}
