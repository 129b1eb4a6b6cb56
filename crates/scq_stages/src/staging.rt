//! The stages over all files.
ghost use Rattle.std.specs.Prelude.{◌≡◌, ◌^◌, ◌≤◌, vec_len, IfSome};
ghost use Rattle.std.specs.List.{All};
ghost use Rattle.scq_block.specs.Exports.{bytes_of};
ghost use Rattle.scq_passes.specs.Exports.{HasLeftSwept, IsGivenBack};
ghost use Rattle.scq_stages.specs.Ends.{EndsStages};

use crate::apart::run_all;
use crate::winding::wind_up;
use crate::{StageEnd, StageJob};
use scq_desk::{End, lay_out, make_room};
use scq_outside::Source;
use scq_passes::make_queue;
use scq_word::{NoMemory, Setup};
use std::alloc::Global;
use std::thread::Threads;

/// The limit of the queue's tickets, which no work comes near.
const LIMIT: u64 = 1 << 60;

/// A ring for the buffers that nobody holds, one for the first stage and one for the second.
const RINGS: u32 = 3;

/// The setup of the stages' queue.
fn setup_of(job: &StageJob) -> Setup
    ensures order { result.order ≡ job.now.order }
    ensures rings { result.rings ≡ 3 }
    ensures seats { result.seats ≡ job.now.workers }
    ensures limit { result.limit ≡ 2 ^ 60 }
{
    match Setup::new(job.order, RINGS, job.workers, LIMIT) {
        Ok(setup) => setup,
        Err(_) => unreachable!(),
    }
}

/// Takes the messages of all sources through both stages by the job's workers, each of which reads
/// its own files: file f, from 1, is that of worker (f - 1) mod the number of workers. They share a
/// queue of buffers. The sources come back in their order in every case.
pub fn stage_work<R: Threads + Sync, S: Source>(
    rt: &R,
    alloc: Global,
    job: &StageJob,
    sources: Vec<S>,
) -> StageEnd<S>
    requires { vec_len sources ≤ 64 }
    ensures end { EndsStages job.now S.Source sources.items result }

    // Each worker asked before each of its sweeps whether all had retired, and left after one
    // before which they had, or after 64 in a row that took nothing.
    ensures behind { IfSome result.passes (λ passes.
        All (HasLeftSwept bytes_of IsGivenBack 2 64) passes.value.items) }
{
    let Ok(room) = make_room(alloc, job.workers, sources.len()) else {
        return End::starved(sources);
    };
    match make_queue(alloc, setup_of(job), job.size) {
        Ok((block, queue, passes)) => {
            let (laid, desks) = lay_out(alloc, job.workers, &queue, passes, sources, room);
            let desks = run_all(rt, alloc, job, &queue, desks);
            wind_up(job, laid, block, queue, desks)
        }
        Err(NoMemory) => {
            room.destroy_empty();
            End::starved(sources)
        }
    }
}
