//! The threads of workers that may rest: what each is given, and hands back.
ghost use Rattle.std.specs.Prelude.{◌≡◌, ◌+◌, ◌<◌, IfOk, IfErr};
ghost use Rattle.scq_rest.specs.Threads.{task, CanBegin, HandsBack};

use crate::awaited::Awaited;
use crate::finishing::finish;
use scq_band::Lifted;
use scq_block::Frame;
use scq_desk::Seat;
use scq_files::Desk;
use scq_outside::Source;
use scq_park::{Crew, Stand};
use scq_queue::Queue;
use scq_worker::{Gate, Job, WorkDesk, produce};
use std::alloc::Global;
use std::snapshot::Snapshot;
use std::sync::Wait;
use std::sync::atomic::{AtomicBool, Ordering};
use std::thread::{Promise, PromisedHandle, Scope, Threads};

/// A worker's desk, with the stand by which it rests and wakes others.
pub struct Work<S: Source> {
    pub desk: WorkDesk<S>,
    pub stand: Stand,
}

/// A value that it keeps is let go, and the frame with it.
impl<S: Source> Drop for Work<S> {
    fn drop(self) {
        let Work {
            desk,
            stand: _stand,
        } = self;
        let Desk {
            worker: seat,
            files: _files,
        } = desk;
        let Seat {
            worker: _worker,
            kept,
        } = seat;
        if let Some(held) = kept {
            held.into_buffer().abandon();
        }
    }
}

impl<S: Source> Work<S> {
    ghost use Rattle.std.specs.Prelude.{◌≡◌};
    ghost use Rattle.scq_rest.specs.Threads.{task, CanStart, IsGiven, HasReadAndRetired, HasBegun};
    ghost use Rattle.scq_rest.specs.Threads.{HasDone};

    /// Its parts.
    pub fn into_parts(self) -> (WorkDesk<S>, Stand)
        ensures { (result.0 ≡ self.desk) × (result.1 ≡ self.stand) }
    {
        let Work { desk, stand } = self;
        (desk, stand)
    }

    /// It reads its files and passes their messages on, and retires. It wakes others, and never
    /// rests. From then on it isn't awaited.
    pub fn produce<G: Gate>(
        &mut self,
        alloc: Global,
        job: &Job,
        queue: &Queue<Frame>,
        gate: &G,
        crew: &Crew,
        awaited: &mut Awaited,
    )
        requires ready { CanStart (task queue.now job.now crew.now S.Source) }
        requires given { IsGiven (task queue.now job.now crew.now S.Source) self.old }
        requires awaited { 0 < awaited.old }
        ensures begun { HasBegun
            (task queue.now job.now crew.now S.Source) self.old self.new }
        ensures awaited { awaited.new + 1 ≡ awaited.old }
    {
        let desk = &mut self.desk;
        produce(desk, alloc, job, queue, gate, crew, &mut self.stand);
        awaited.one_less();
    }

    /// It sweeps and rests until all have retired. None of the workers that its thread runs may be
    /// awaited then.
    pub fn finish<G: Gate, R: Wait>(
        &mut self,
        rt: &R,
        alloc: Global,
        job: &Job,
        queue: &Queue<Frame>,
        gate: &G,
        crew: &Crew,
        awaited: &Awaited,
    )
        requires begun { HasReadAndRetired (task queue.now job.now crew.now S.Source) self.old }
        requires none { awaited.now ≡ 0 }
        ensures { (given : _)
            → HasBegun (task queue.now job.now crew.now S.Source) given self.old
            → HasDone (task queue.now job.now crew.now S.Source) given self.new }
    {
        let desk = &mut self.desk;
        let stand = &mut self.stand;
        finish(desk, rt, alloc, job, queue, gate, crew, stand, awaited);
    }
}

/// How the thread of a worker ends: it did its work, or nothing.
#[derive(Drop)]
pub enum HandedBack<S: Source> {
    Worked(Work<S>),
    Unbegun(Work<S>),
}

/// What a worker was given, for contracts alone: it has no bytes when the program runs.
#[derive(Drop)]
pub struct WorksOn<S: Source> {
    pub queue: Snapshot<Queue<Frame>>,
    pub job: Snapshot<Job>,
    pub crew: Snapshot<Crew>,
    pub work: Snapshot<Work<S>>,
}

impl<S: Source> Promise<HandedBack<S>> for WorksOn<S> {
    ghost kept_by = { λ p end.
        HandsBack (task p.queue.value p.job.value p.crew.value S.Source) p.work.value end };
}

impl<S: Source> WorksOn<S> {
    ghost use Rattle.std.specs.Prelude.{◌≡◌};

    /// So it is of these.
    pub fn of(job: &Job, queue: &Queue<Frame>, crew: &Crew, work: &Work<S>) -> WorksOn<S>
        ensures shared { (result.queue.value ≡ queue.now) × (result.job.value ≡ job.now)
            × (result.crew.value ≡ crew.now) }
        ensures own { result.work.value ≡ work.now }
    {
        WorksOn {
            queue: Snapshot::of(queue),
            job: Snapshot::of(job),
            crew: Snapshot::of(crew),
            work: Snapshot::of(work),
        }
    }
}

/// What a thread does: the whole work, or nothing where it is held back.
fn work_there<R: Wait, S: Source, G: Gate>(
    rt: &R,
    alloc: Global,
    job: &Job,
    queue: &Queue<Frame>,
    gate: &G,
    crew: &Crew,
    held_back: &AtomicBool,
    given: Work<S>,
) -> HandedBack<S>
    requires begins { CanBegin (task queue.now job.now crew.now S.Source) given }
    ensures { HandsBack (task queue.now job.now crew.now S.Source) given result }
{
    if held_back.load(Ordering::SeqCst) {
        return HandedBack::Unbegun(given);
    }
    let mut work = given;
    let mut awaited = Awaited::of(1);
    work.produce(alloc, job, queue, gate, crew, &mut awaited);
    work.finish(rt, alloc, job, queue, gate, crew, &awaited);
    HandedBack::Worked(work)
}

/// Starts a worker in a thread of its own. Where no thread can be made, what it was given comes
/// back: the thread's closure is then called here, held back.
pub fn start<'s, E, R: Threads + Wait + Sync + 's, S: Source + 's, G: Gate + Sync + 's>(
    rt: &'s R,
    scope: &Scope<'s, E>,
    alloc: Global,
    job: &'s Job,
    queue: &'s Queue<Frame>,
    gate: &'s G,
    crew: &'s Crew,
    held_back: &'s AtomicBool,
    given: Work<S>,
) -> Result<PromisedHandle<HandedBack<S>, WorksOn<S>>, HandedBack<S>>
    requires begins { CanBegin (task queue.now job.now crew.now S.Source) given }
    ensures shared { IfOk result (λ h.
        (h.promise.queue.value ≡ queue.now) × (h.promise.job.value ≡ job.now)
        × (h.promise.crew.value ≡ crew.now)) }
    ensures own { IfOk result (λ h. h.promise.work.value ≡ given) }
    ensures back { IfErr result
        (HandsBack (task queue.now job.now crew.now S.Source) given) }
{
    let promise = WorksOn::of(job, queue, crew, &given);
    let job_there = move || -> HandedBack<S>
        requires { CanBegin (task queue.now job.now crew.now S.Source) given }
        ensures { HandsBack
            (task queue.entry.now job.entry.now crew.entry.now S.Source) given result }
    { work_there(rt, alloc, job, queue, gate, crew, held_back, given) };
    match scope.spawn_with(promise, job_there) {
        Ok(handle) => Ok(handle),
        Err(refused) => {
            held_back.store(true, Ordering::SeqCst);
            Err((refused.value)())
        }
    }
}
