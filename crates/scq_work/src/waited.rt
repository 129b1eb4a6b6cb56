//! The work of workers that wait in place of leaving early, as `work` else.
ghost use Rattle.std.specs.Prelude.{◌≡◌, ◌+◌, ◌^◌, ◌≤◌, None, length, vec_len, IfOk, IfSome};
ghost use Rattle.std.specs.Prelude.{IsErrOf, IsSome, IsSomeAnd, OnSome};
ghost use Rattle.std.specs.List.{All};
ghost use Rattle.scq_block.specs.Exports.{AreAllOf};
ghost use Rattle.scq_queue.specs.Exports.{first_passes};
ghost use Rattle.scq_work.specs.Ends.{EndsWork};
ghost use Rattle.scq_desk.specs.Exports.{IsRoomFor};
ghost use Rattle.scq_park.specs.Exports.{first_posts};
ghost use Rattle.scq_rest.specs.Exports.{HasRoom, HaveWaited};
ghost use Rattle.scq_worker.specs.Exports.{takes_behind};

use crate::WorkEnd;
use crate::winding::wind_up;
use crate::working::setup_of;
use scq_block::{Block, Frame};
use scq_collect::Answers;
use scq_desk::{End, EndFault, Room, lay_out, make_room};
use scq_outside::Source;
use scq_park::{Crew, Rested, Stand};
use scq_passes::make_queue;
use scq_queue::{Pass, Queue};
use scq_rest::{RestingRoom, make_resting_room, run_resting};
use scq_word::NoMemory;
use scq_worker::{Gate, Job, Worker};
use std::alloc::Global;
use std::sync::Wait;
use std::thread::Threads;

/// Of each worker, in the order of their numbers: whether it saw that all had retired, and how
/// often it rested and was woken.
#[derive(Drop)]
pub struct Waited {
    pub saw: Vec<bool>,
    pub rested: Vec<Rested>,
}

/// How the work of workers that wait ended. `waited` is None only at want of memory.
#[derive(Drop)]
pub struct WaitEnd<S> {
    pub end: WorkEnd<S>,
    pub waited: Option<Waited>,
}

impl<S> WaitEnd<S> {
    ghost use Rattle.std.specs.Prelude.{◌≡◌, None, Err};

    /// The end where no memory was found for a crew, its room or its queue.
    fn starved(sources: Vec<S>) -> WaitEnd<S>
        ensures sources { result.end.sources ≡ sources }
        ensures fault { result.end.result ≡ Err EndFault.NoMemory }
        ensures left { (result.end.left ≡ None) × (result.end.passes ≡ None) }
        ensures waited { result.waited ≡ None }
    {
        WaitEnd {
            end: End::starved(sources),
            waited: None,
        }
    }
}

/// What the work needs beside its crew: room, and a queue over the frames of one block with a pass
/// for each worker.
struct Made<S: Source> {
    resting_room: RestingRoom<S>,
    room: Room<Answers, Worker<Frame>, S>,
    block: Block,
    queue: Queue<Frame>,
    passes: Vec<Pass<Frame>>,
}

fn make_all<S: Source>(alloc: Global, job: &Job, files: usize) -> Result<Made<S>, NoMemory>
    ensures setup { IfOk result (λ made.
        (made.queue.setup.order ≡ job.now.order)
        × (made.queue.setup.rings ≡ length job.now.topics + 2)
        × (made.queue.setup.seats ≡ job.now.workers) × (made.queue.setup.limit ≡ 2 ^ 60)) }
    ensures frames { IfOk result (λ made.
        All (λ f. job.now.size + 24 ≤ length f.bytes.items) made.queue.given) }
    ensures all { IfOk result (λ made. AreAllOf made.block made.queue.given) }
    ensures passes { IfOk result (λ made.
        made.passes.items ≡ first_passes made.queue made.queue.setup.seats) }
    ensures work_room { IfOk result (λ made. IsRoomFor job.now.workers files made.room) }
    ensures resting_room { IfOk result (λ made. HasRoom job.now.workers made.resting_room) }
{
    let resting_room = make_resting_room(alloc, job.workers)?;
    let room = make_room(alloc, job.workers, files)?;
    match make_queue(alloc, setup_of(job), job.size) {
        Ok((block, queue, passes)) => Ok(Made {
            resting_room,
            room,
            block,
            queue,
            passes,
        }),
        Err(NoMemory) => {
            room.destroy_empty();
            Err(NoMemory)
        }
    }
}

/// Answers the messages of all sources as `work` does, but that a worker that finds nothing to take
/// rests until another wakes it, and leaves only once it was told that all have retired. Where no
/// wake comes it never returns.
pub fn work_waiting<R: Threads + Wait + Sync, S: Source, G: Gate + Sync>(
    rt: &R,
    alloc: Global,
    job: &Job,
    sources: Vec<S>,
    gate: &G,
) -> WaitEnd<S>
    requires { vec_len sources ≤ 64 }
    ensures end { EndsWork job.now S.Source sources.items result.end }

    // Each worker was told that all had retired, rested no more often than it was woken, and took
    // in vain no more often than one does that rests after each sweep that took nothing.
    ensures waited { IfSome result.waited (λ waited. IsSomeAnd result.end.passes (λ passes.
        HaveWaited (length job.now.topics + 1) (takes_behind job.now.most) job.now.workers
        passes.value.items waited.saw.items waited.rested.items)) }
    ensures unwaited { result.waited ≡ None → IsErrOf result.end.result EndFault.NoMemory }
    ensures both { OnSome result.waited (IsSome result.end.left) }
{
    let Ok((crew, stands)) = Crew::make(alloc, job.workers) else {
        return WaitEnd::starved(sources);
    };
    match make_all(alloc, job, sources.len()) {
        Ok(made) => wait_in(rt, alloc, job, sources, gate, crew, stands, made),
        Err(NoMemory) => {
            let _rested = crew.close(stands);
            WaitEnd::starved(sources)
        }
    }
}

/// The same, once there are a crew, room and a queue.
fn wait_in<R: Threads + Wait + Sync, S: Source, G: Gate + Sync>(
    rt: &R,
    alloc: Global,
    job: &Job,
    sources: Vec<S>,
    gate: &G,
    crew: Crew,
    stands: Vec<Stand>,
    made: Made<S>,
) -> WaitEnd<S>
    requires few { vec_len sources ≤ 64 }
    requires setup { (made.queue.setup.order ≡ job.now.order)
        × (made.queue.setup.rings ≡ length job.now.topics + 2)
        × (made.queue.setup.seats ≡ job.now.workers) × (made.queue.setup.limit ≡ 2 ^ 60) }
    requires frames { All (λ f. job.now.size + 24 ≤ length f.bytes.items) made.queue.given }
    requires all { AreAllOf made.block made.queue.given }
    requires passes { made.passes.items ≡ first_passes made.queue made.queue.setup.seats }
    requires work_room { IsRoomFor job.now.workers (vec_len sources) made.room }
    requires resting_room { HasRoom job.now.workers made.resting_room }
    requires crew { length crew ≡ job.now.workers }
    requires stands { stands.items ≡ first_posts crew job.now.workers }
    ensures end { EndsWork job.now S.Source sources.items result.end }
    ensures waited { IfSome result.waited (λ waited. IsSomeAnd result.end.passes (λ passes.
        HaveWaited (length job.now.topics + 1) (takes_behind job.now.most) job.now.workers
        passes.value.items waited.saw.items waited.rested.items)) }
    ensures there { IsSome result.waited }
    ensures closed { IsSome result.end.left }
{
    let Made {
        resting_room,
        room,
        block,
        queue,
        passes,
    } = made;
    let (laid, desks) = lay_out(alloc, job.workers, &queue, passes, sources, room);
    let (desks, stands) = run_resting(
        rt,
        alloc,
        job,
        &queue,
        gate,
        &crew,
        stands,
        resting_room,
        desks,
    );
    let (end, saw) = wind_up(job, laid, block, queue, desks);
    let rested = crew.close(stands);
    WaitEnd {
        end,
        waited: Some(Waited { saw, rested }),
    }
}
