//! The workers beside the first: each in a thread of its own, or with the caller where none could
//! be made.
ghost use Rattle.std.specs.Prelude.{◌≡◌, ◌+◌, ◌<◌, ◌≤◌, [], length, map, sum_by, All, vec_len};
ghost use Rattle.std.specs.Prelude.{vec_capacity};
ghost use Rattle.std.specs.List.{AllZip};
ghost use Rattle.scq_rest.specs.Threads.{task, CanStart, IsGiven, HasBegun, HasDone};
ghost use Rattle.scq_rest.specs.Places.{given_to, here, HasWork, IsUntouched, CanAllBegin};
ghost use Rattle.scq_rest.specs.Places.{HaveDone};

use crate::awaited::Awaited;
use crate::threads::{HandedBack, Work, WorksOn, start};
use scq_block::Frame;
use scq_outside::Source;
use scq_park::Crew;
use scq_queue::Queue;
use scq_worker::{Gate, Job};
use std::alloc::Global;
use std::sync::Wait;
use std::sync::atomic::AtomicBool;
use std::thread;
use std::thread::{PromisedHandle, Scope, Threads};

/// A worker in a thread of its own; one whose thread could not be made, and which the caller runs;
/// and one that has done its work.
#[derive(Drop)]
pub enum Runner<S: Source> {
    Started(PromisedHandle<HandedBack<S>, WorksOn<S>>),
    Here { was: WorksOn<S>, work: Work<S> },
    Done { was: WorksOn<S>, work: Work<S> },
}

/// Starts a worker. Where it has no thread of its own the caller runs it, and it is awaited still.
fn begin<'s, E, R: Threads + Wait + Sync + 's, S: Source + 's, G: Gate + Sync + 's>(
    rt: &'s R,
    scope: &Scope<'s, E>,
    alloc: Global,
    job: &'s Job,
    queue: &'s Queue<Frame>,
    gate: &'s G,
    crew: &'s Crew,
    held_back: &'s AtomicBool,
    given: Work<S>,
    awaited: &mut Awaited,
) -> Runner<S>
    requires ready { CanStart (task queue.now job.now crew.now S.Source) }
    requires given { IsGiven (task queue.now job.now crew.now S.Source) given }
    requires awaited { 0 < awaited.old }
    ensures given { given_to result ≡ given }
    ensures stands { HasWork IsUntouched queue.now job.now crew.now S.Source result }
    ensures awaited { awaited.new + 1 ≡ awaited.old + here result }
{
    let was = WorksOn::of(job, queue, crew, &given);
    match start(rt, scope, alloc, job, queue, gate, crew, held_back, given) {
        Ok(handle) => {
            awaited.one_less();
            Runner::Started(handle)
        }
        Err(HandedBack::Unbegun(work)) => Runner::Here { was, work },
        Err(HandedBack::Worked(work)) => {
            awaited.one_less();
            Runner::Done { was, work }
        }
    }
}

impl<S: Source> Runner<S> {
    /// Reads its files and retires, where the caller runs it.
    fn produce<G: Gate>(
        &mut self,
        alloc: Global,
        job: &Job,
        queue: &Queue<Frame>,
        gate: &G,
        crew: &Crew,
        awaited: &mut Awaited,
    )
        requires ready { CanStart (task queue.now job.now crew.now S.Source) }
        requires stands { HasWork IsUntouched queue.now job.now crew.now S.Source self.old }
        requires awaited { here self.old ≤ awaited.old }
        ensures given { given_to self.new ≡ given_to self.old }
        ensures stands { HasWork HasBegun queue.now job.now crew.now S.Source self.new }
        ensures awaited { awaited.new + here self.old ≡ awaited.old }
    {
        match self {
            Runner::Started(_) => {}
            Runner::Here { work, .. } => work.produce(alloc, job, queue, gate, crew, awaited),
            Runner::Done { .. } => {}
        }
    }

    /// Sweeps and rests until it may leave, where the caller runs it.
    fn finish<G: Gate, R: Wait>(
        &mut self,
        rt: &R,
        alloc: Global,
        job: &Job,
        queue: &Queue<Frame>,
        gate: &G,
        crew: &Crew,
        awaited: &Awaited,
    )
        requires stands { HasWork HasBegun queue.now job.now crew.now S.Source self.old }
        requires none { awaited.now ≡ 0 }
        ensures given { given_to self.new ≡ given_to self.old }
        ensures stands { HasWork HasDone queue.now job.now crew.now S.Source self.new }
    {
        match self {
            Runner::Started(_) => {}
            Runner::Here { work, .. } => {
                work.finish(rt, alloc, job, queue, gate, crew, awaited);
            }
            Runner::Done { .. } => {}
        }
    }

    /// What it has at its end. The caller waits for its thread, where it has one.
    fn end<G: Gate, R: Threads + Wait>(
        self,
        rt: &R,
        alloc: Global,
        job: &Job,
        queue: &Queue<Frame>,
        gate: &G,
        crew: &Crew,
        awaited: &mut Awaited,
    ) -> Work<S>
        requires ready { CanStart (task queue.now job.now crew.now S.Source) }
        requires stands { HasWork HasDone queue.now job.now crew.now S.Source self }
        requires none { awaited.old ≡ 0 }
        ensures none { awaited.new ≡ 0 }
        ensures done { HasDone (task queue.now job.now crew.now S.Source) (given_to self) result }
    {
        match self {
            Runner::Started(handle) => match handle.join(rt) {
                HandedBack::Worked(work) => work,
                HandedBack::Unbegun(given) => {
                    let mut work = given;
                    awaited.one_more();
                    work.produce(alloc, job, queue, gate, crew, awaited);
                    work.finish(rt, alloc, job, queue, gate, crew, awaited);
                    work
                }
            },
            Runner::Here { work, .. } => work,
            Runner::Done { work, .. } => work,
        }
    }
}

/// All that the caller runs read their files and retire, so that none of them is awaited then.
fn produce_all<S: Source, G: Gate>(
    places: &mut [Runner<S>],
    alloc: Global,
    job: &Job,
    queue: &Queue<Frame>,
    gate: &G,
    crew: &Crew,
    awaited: &mut Awaited,
)
    requires ready { CanStart (task queue.now job.now crew.now S.Source) }
    requires stands { All
        (HasWork IsUntouched queue.now job.now crew.now S.Source) places.old }
    requires awaited { awaited.old ≡ sum_by here places.old }
    ensures none { awaited.new ≡ 0 }
    ensures given { map given_to places.new ≡ map given_to places.old }
    ensures stands { All
        (HasWork HasBegun queue.now job.now crew.now S.Source) places.new }
{
    'places: for place in places.iter_mut() {
        place.produce(alloc, job, queue, gate, crew, awaited);
    }
}

fn finish_all<S: Source, G: Gate, R: Wait>(
    places: &mut [Runner<S>],
    rt: &R,
    alloc: Global,
    job: &Job,
    queue: &Queue<Frame>,
    gate: &G,
    crew: &Crew,
    awaited: &Awaited,
)
    requires stands { All
        (HasWork HasBegun queue.now job.now crew.now S.Source) places.old }
    requires none { awaited.now ≡ 0 }
    ensures given { map given_to places.new ≡ map given_to places.old }
    ensures stands { All
        (HasWork HasDone queue.now job.now crew.now S.Source) places.new }
{
    'places: for place in places.iter_mut() {
        place.finish(rt, alloc, job, queue, gate, crew, awaited);
    }
}

/// Starts all, in their order. The places are put into an empty list with room. Those that the
/// caller runs are awaited still.
fn begin_all<'s, E, R: Threads + Wait + Sync + 's, S: Source + 's, G: Gate + Sync + 's>(
    rt: &'s R,
    scope: &Scope<'s, E>,
    alloc: Global,
    job: &'s Job,
    queue: &'s Queue<Frame>,
    gate: &'s G,
    crew: &'s Crew,
    flags: &'s [AtomicBool],
    mut given: Vec<Work<S>>,
    places: &mut Vec<Runner<S>>,
    awaited: &mut Awaited,
)
    requires ready { CanStart (task queue.now job.now crew.now S.Source) }
    requires given { All
        (IsGiven (task queue.now job.now crew.now S.Source)) given.items }
    requires flags { vec_len given ≤ length flags.now }
    requires empty { places.old.items ≡ [] }
    requires room { vec_len given ≤ vec_capacity places.old }
    requires awaited { vec_len given ≤ awaited.old }
    ensures given { map given_to places.new.items ≡ given.items }
    ensures stands { All
        (HasWork IsUntouched queue.now job.now crew.now S.Source) places.new.items }
    ensures awaited { awaited.new + vec_len given ≡ awaited.old + sum_by here places.new.items }
{
    given.reverse();
    'starts: while let Some(work) = given.pop() {
        let held_back = &flags[given.len()];
        places.push_reserved(begin(
            rt, scope, alloc, job, queue, gate, crew, held_back, work, awaited,
        ));
    }
}

/// Ends all, in their order: what they have is put into an empty list with room.
fn end_all<S: Source, G: Gate, R: Threads + Wait>(
    mut places: Vec<Runner<S>>,
    rt: &R,
    alloc: Global,
    job: &Job,
    queue: &Queue<Frame>,
    gate: &G,
    crew: &Crew,
    ends: &mut Vec<Work<S>>,
    awaited: &mut Awaited,
)
    requires ready { CanStart (task queue.now job.now crew.now S.Source) }
    requires none { awaited.old ≡ 0 }
    requires stands { All
        (HasWork HasDone queue.now job.now crew.now S.Source) places.items }
    requires empty { ends.old.items ≡ [] }
    requires room { vec_len places ≤ vec_capacity ends.old }
    ensures { AllZip (HasDone (task queue.now job.now crew.now S.Source))
        (map given_to places.items) ends.new.items }
{
    places.reverse();
    'ends: while let Some(place) = places.pop() {
        ends.push_reserved(place.end(rt, alloc, job, queue, gate, crew, awaited));
    }
}

/// The work of all in one scope: the caller has the first worker, and each whose thread could not
/// be made. It produces and retires for all of these before it rests for any.
fn all_in<'s, E, R: Threads + Wait + Sync + 's, S: Source + 's, G: Gate + Sync + 's>(
    rt: &'s R,
    scope: &Scope<'s, E>,
    alloc: Global,
    job: &'s Job,
    queue: &'s Queue<Frame>,
    gate: &'s G,
    crew: &'s Crew,
    flags: &'s [AtomicBool],
    mut first: Work<S>,
    given: Vec<Work<S>>,
    mut places: Vec<Runner<S>>,
    mut ends: Vec<Work<S>>,
) -> (Work<S>, Vec<Work<S>>)
    requires begins { CanAllBegin (task queue.now job.now crew.now S.Source)
        (length flags.now) first given places ends }
    ensures { HaveDone (task queue.now job.now crew.now S.Source) first given result.0 result.1 }
{
    let mut awaited = Awaited::of(1 + given.len());
    begin_all(
        rt,
        scope,
        alloc,
        job,
        queue,
        gate,
        crew,
        flags,
        given,
        &mut places,
        &mut awaited,
    );
    first.produce(alloc, job, queue, gate, crew, &mut awaited);
    produce_all(
        places.as_mut_slice(),
        alloc,
        job,
        queue,
        gate,
        crew,
        &mut awaited,
    );
    first.finish(rt, alloc, job, queue, gate, crew, &awaited);
    finish_all(
        places.as_mut_slice(),
        rt,
        alloc,
        job,
        queue,
        gate,
        crew,
        &awaited,
    );
    end_all(
        places,
        rt,
        alloc,
        job,
        queue,
        gate,
        crew,
        &mut ends,
        &mut awaited,
    );
    (first, ends)
}

/// The work of all. What they have at their ends comes back in their order.
pub fn run_all<R: Threads + Wait + Sync, S: Source, G: Gate + Sync>(
    rt: &R,
    alloc: Global,
    job: &Job,
    queue: &Queue<Frame>,
    gate: &G,
    crew: &Crew,
    flags: &[AtomicBool],
    first: Work<S>,
    given: Vec<Work<S>>,
    places: Vec<Runner<S>>,
    ends: Vec<Work<S>>,
) -> (Work<S>, Vec<Work<S>>)
    requires begins { CanAllBegin (task queue.now job.now crew.now S.Source)
        (length flags.now) first given places ends }
    ensures { HaveDone (task queue.now job.now crew.now S.Source) first given result.0 result.1 }
{
    thread::scope(
        thread::scope_env(),
        rt,
        move |scope| -> (Work<S>, Vec<Work<S>>)
            requires { CanAllBegin (task queue.now job.now crew.now S.Source)
                (length flags.now) first given places ends }
            ensures { HaveDone
                (task queue.entry.now job.entry.now crew.entry.now S.Source) first
                given result.0 result.1 }
        {
            all_in(
                rt, scope, alloc, job, queue, gate, crew, flags, first, given, places, ends,
            )
        },
    )
}
