//! Workers that wait in place of leaving early.
ghost use Rattle.std.specs.Prelude.{◌≡◌, ℕ, ◌+◌, ◌<◌, ◌≤◌, ◌++◌, ◌∷◌, [], length, map, reverse};
ghost use Rattle.std.specs.Prelude.{slice_index_or, vec_len, vec_capacity, IfOk};
ghost use Rattle.std.specs.List.{All};
ghost use Rattle.scq_park.specs.Exports.{first_posts};
ghost use Rattle.scq_worker.specs.Exports.{takes_behind, IsToBegin, HasRunAt};
ghost use Rattle.scq_files.specs.Exports.{IsNew, ids_of};
ghost use Rattle.scq_rest.specs.Resting.{HasRoom, AreSettled};

use crate::places::{Runner, run_all};
use crate::threads::Work;
use scq_block::Frame;
use scq_outside::Source;
use scq_park::{Crew, Stand};
use scq_queue::Queue;
use scq_word::NoMemory;
use scq_worker::{Gate, Job, WorkDesk};
use std::alloc::Global;
use std::sync::Wait;
use std::sync::atomic::AtomicBool;
use std::thread::Threads;

/// Room for what the threads of workers are given and hand back: empty lists, and a flag for each
/// worker.
#[derive(Drop)]
pub struct RestingRoom<S: Source> {
    pub flags: Vec<AtomicBool>,
    pub given: Vec<Work<S>>,
    pub places: Vec<Runner<S>>,
    pub ends: Vec<Work<S>>,
}

/// Room for so many workers.
pub fn make_resting_room<S: Source>(alloc: Global, workers: u32) -> Result<RestingRoom<S>, NoMemory>
    ensures { IfOk result (λ resting_room. HasRoom workers resting_room) }
{
    let count = workers as usize;
    let flags = make_flags(alloc, count)?;
    let given = Vec::with_capacity(alloc, count)?;
    let places = Vec::with_capacity(alloc, count)?;
    let ends = Vec::with_capacity(alloc, count)?;
    Ok(RestingRoom {
        flags,
        given,
        places,
        ends,
    })
}

fn make_flags(alloc: Global, count: usize) -> Result<Vec<AtomicBool>, NoMemory>
    ensures { IfOk result (λ flags. length flags.items ≡ count) }
{
    let mut flags = Vec::with_capacity(alloc, count)?;
    'flags: for _flag in 0..count {
        flags.push_reserved(AtomicBool::new(false));
    }
    Ok(flags)
}

/// The work of all workers of a crew, whose desks and stands come back in their order.
pub fn run_resting<R: Threads + Wait + Sync, S: Source, G: Gate + Sync>(
    rt: &R,
    alloc: Global,
    job: &Job,
    queue: &Queue<Frame>,
    gate: &G,
    crew: &Crew,
    stands: Vec<Stand>,
    resting_room: RestingRoom<S>,
    desks: Vec<WorkDesk<S>>,
) -> (Vec<WorkDesk<S>>, Vec<Stand>)
    requires workers { (length desks.items ≡ job.now.workers)
        × (length crew.now ≡ job.now.workers) }
    requires stands { stands.items ≡ first_posts crew.now job.now.workers }
    requires resting_room { HasRoom job.now.workers resting_room }
    requires rings { queue.now.setup.rings ≡ length job.now.topics + 2 }
    requires room { All (λ b. job.now.size + 24 ≤ length b.bytes.items) queue.now.given }
    requires fresh { All (λ d. IsToBegin queue.now d.worker) desks.items }
    requires unread { All (λ d. All IsNew d.files.items) desks.items }
    ensures count { length result.0.items ≡ length desks.items }
    ensures same { (w : ℕ) (d : _) → w < length desks.items
        → ids_of (slice_index_or result.0.items w d).files.items
        ≡ ids_of (slice_index_or desks.items w d).files.items }
    ensures numbers { (w : ℕ) (d : _) → w < length desks.items
        → (slice_index_or result.0.items w d).worker.worker.pass.number
        ≡ (slice_index_or desks.items w d).worker.worker.pass.number }
    ensures run { All (HasRunAt queue.now job.now S.Source) result.0.items }
    ensures settled { AreSettled crew.now (length job.now.topics
        + 1) (takes_behind job.now.most) result.1.items
        (map (λ d. d.worker.worker.pass) result.0.items) }
{
    let RestingRoom {
        flags,
        given,
        places,
        ends,
    } = resting_room;
    let mut desks = desks;
    let mut stands = stands;
    let mut given = given;
    let first = pair(&mut desks, &mut stands, &mut given);
    let (first, ends) = run_all(
        rt,
        alloc,
        job,
        queue,
        gate,
        crew,
        flags.as_slice(),
        first,
        given,
        places,
        ends,
    );
    take_apart(first, ends, &mut desks, &mut stands);
    (desks, stands)
}

/// Puts each desk together with its stand: the first, and the others, in order, in an empty list
/// with room. The lists of both are left empty, with their room.
fn pair<S: Source>(
    desks: &mut Vec<WorkDesk<S>>,
    stands: &mut Vec<Stand>,
    given: &mut Vec<Work<S>>,
) -> Work<S>
    requires some { 0 < vec_len desks.old }
    requires many { vec_len stands.old ≡ vec_len desks.old }
    requires empty { given.old.items ≡ [] }
    requires room { vec_len desks.old ≤ vec_capacity given.old }
    ensures desks { desks.old.items ≡ map (λ w. w.desk) (result ∷ given.new.items) }
    ensures stands { stands.old.items ≡ map (λ w. w.stand) (result ∷ given.new.items) }
    ensures emptied { (desks.new.items ≡ []) × (stands.new.items ≡ []) }
    ensures kept { (vec_capacity desks.new ≡ vec_capacity desks.old)
        × (vec_capacity stands.new ≡ vec_capacity stands.old) }
{
    desks.reverse();
    stands.reverse();
    let first = pair_last(desks, stands);
    pair_all(desks, stands, given);
    first
}

/// The last desk with the last stand.
fn pair_last<S: Source>(desks: &mut Vec<WorkDesk<S>>, stands: &mut Vec<Stand>) -> Work<S>
    requires some { 0 < vec_len desks.old }
    requires many { vec_len stands.old ≡ vec_len desks.old }
    ensures desk { desks.old.items ≡ desks.new.items ++ result.desk ∷ [] }
    ensures stand { stands.old.items ≡ stands.new.items ++ result.stand ∷ [] }
    ensures lens { (vec_len desks.new + 1 ≡ vec_len desks.old)
        × (vec_len stands.new + 1 ≡ vec_len stands.old) }
    ensures kept { (vec_capacity desks.new ≡ vec_capacity desks.old)
        × (vec_capacity stands.new ≡ vec_capacity stands.old) }
{
    let Some(desk) = desks.pop() else {
        unreachable!();
    };
    let Some(stand) = stands.pop() else {
        unreachable!();
    };
    Work { desk, stand }
}

/// All desks with their stands, from the last to the first.
fn pair_all<S: Source>(
    desks: &mut Vec<WorkDesk<S>>,
    stands: &mut Vec<Stand>,
    given: &mut Vec<Work<S>>,
)
    requires many { vec_len stands.old ≡ vec_len desks.old }
    requires empty { given.old.items ≡ [] }
    requires room { vec_len desks.old ≤ vec_capacity given.old }
    ensures desks { map (λ w. w.desk) given.new.items ≡ reverse desks.old.items }
    ensures stands { map (λ w. w.stand) given.new.items ≡ reverse stands.old.items }
    ensures emptied { (desks.new.items ≡ []) × (stands.new.items ≡ []) }
    ensures kept { (vec_capacity desks.new ≡ vec_capacity desks.old)
        × (vec_capacity stands.new ≡ vec_capacity stands.old) }
{
    'pairs: while let Some(desk) = desks.pop() {
        let Some(stand) = stands.pop() else {
            unreachable!();
        };
        given.push_reserved(Work { desk, stand });
    }
}

/// Takes desks and stands apart again, in order: the first, and the others. They are put into empty
/// lists with room.
fn take_apart<S: Source>(
    first: Work<S>,
    ends: Vec<Work<S>>,
    desks: &mut Vec<WorkDesk<S>>,
    stands: &mut Vec<Stand>,
)
    requires empty { (desks.old.items ≡ []) × (stands.old.items ≡ []) }
    requires room { (vec_len ends < vec_capacity desks.old)
        × (vec_len ends < vec_capacity stands.old) }
    ensures desks { desks.new.items ≡ map (λ w. w.desk) (first ∷ ends.items) }
    ensures stands { stands.new.items ≡ map (λ w. w.stand) (first ∷ ends.items) }
{
    put_apart(first, desks, stands);
    take_all_apart(ends, desks, stands);
}

/// Puts a desk and its stand behind others.
fn put_apart<S: Source>(work: Work<S>, desks: &mut Vec<WorkDesk<S>>, stands: &mut Vec<Stand>)
    requires room { (vec_len desks.old < vec_capacity desks.old)
        × (vec_len stands.old < vec_capacity stands.old) }
    ensures desks { desks.new.items ≡ desks.old.items ++ work.desk ∷ [] }
    ensures stands { stands.new.items ≡ stands.old.items ++ work.stand ∷ [] }
    ensures lens { (vec_len desks.new ≡ vec_len desks.old + 1)
        × (vec_len stands.new ≡ vec_len stands.old + 1) }
    ensures kept { (vec_capacity desks.new ≡ vec_capacity desks.old)
        × (vec_capacity stands.new ≡ vec_capacity stands.old) }
{
    let (desk, stand) = work.into_parts();
    desks.push_reserved(desk);
    stands.push_reserved(stand);
}

/// Puts all desks and their stands behind others, in order.
fn take_all_apart<S: Source>(
    ends: Vec<Work<S>>,
    desks: &mut Vec<WorkDesk<S>>,
    stands: &mut Vec<Stand>,
)
    requires room { (vec_len desks.old + vec_len ends ≤ vec_capacity desks.old)
        × (vec_len stands.old + vec_len ends ≤ vec_capacity stands.old) }
    ensures desks { desks.new.items ≡ desks.old.items ++ map (λ w. w.desk) ends.items }
    ensures stands { stands.new.items ≡ stands.old.items ++ map (λ w. w.stand) ends.items }
{
    let mut ends = ends;
    ends.reverse();
    'ends: while let Some(work) = ends.pop() {
        put_apart(work, desks, stands);
    }
}
