//! The work of all workers together.
ghost use Rattle.std.specs.Prelude.{◌≡◌, ◌+◌, ◌^◌, ◌≤◌, length, vec_len, IfSome};
ghost use Rattle.std.specs.List.{All};
ghost use Rattle.scq_block.specs.Exports.{bytes_of};
ghost use Rattle.scq_passes.specs.Exports.{HasLeftSwept, IsReturn};
ghost use Rattle.scq_work.specs.Ends.{EndsWork};

use crate::WorkEnd;
use crate::apart::run_apart;
use crate::winding::wind_up;
use scq_desk::{End, lay_out, make_room};
use scq_outside::Source;
use scq_passes::make_queue;
use scq_word::{NoMemory, Setup};
use scq_worker::{Gate, Job};
use std::alloc::Global;
use std::thread::Threads;

/// The limit of the queue's tickets, which no work comes near.
const LIMIT: u64 = 1 << 60;

/// The setup of the queue of a job: a topic for each declared one, and one for all others.
pub(crate) fn setup_of(job: &Job) -> Setup
    ensures order { result.order ≡ job.now.order }
    ensures rings { result.rings ≡ length job.now.topics + 2 }
    ensures seats { result.seats ≡ job.now.workers }
    ensures limit { result.limit ≡ 2 ^ 60 }
{
    match Setup::new(job.order, job.topics.len() + 2, job.workers, LIMIT) {
        Ok(setup) => setup,
        Err(_) => unreachable!(),
    }
}

/// Answers the messages of all sources by the job's workers, each of which reads its own files:
/// file f, from 1, is that of worker (f - 1) mod the number of workers. They share a queue of
/// buffers, and call the gate, on which no clause depends. There are at most 64 sources. As many
/// come back in every case, each of them what the one of its place may have become.
pub fn work<R: Threads + Sync, S: Source, G: Gate + Sync>(
    rt: &R,
    alloc: Global,
    job: &Job,
    sources: Vec<S>,
    gate: &G,
) -> WorkEnd<S>
    requires { vec_len sources ≤ 64 }
    ensures end { EndsWork job.now S.Source sources.items result }

    // Each worker asked before each of its sweeps whether all had retired, and left after one
    // before which they had, or after 64 in a row that took nothing. How often it asked and what it
    // read last is its pass's; what it read before is a possible past.
    ensures behind { IfSome result.passes (λ passes.
        All (HasLeftSwept bytes_of IsReturn (length job.now.topics + 1) 64) passes.value.items) }
{
    let Ok(room) = make_room(alloc, job.workers, sources.len()) else {
        return End::starved(sources);
    };
    match make_queue(alloc, setup_of(job), job.size) {
        Ok((block, queue, passes)) => {
            let (laid, desks) = lay_out(alloc, job.workers, &queue, passes, sources, room);
            let desks = run_apart(rt, alloc, job, &queue, gate, desks);
            let (end, _saw) = wind_up(job, laid, block, queue, desks);
            end
        }
        Err(NoMemory) => {
            room.destroy_empty();
            End::starved(sources)
        }
    }
}
