//! The end of the stages, once each worker has done its own work.
ghost use Rattle.std.specs.Prelude.{◌≡◌, ℕ, ◌^◌, ◌<◌, length, map, slice_index_or};
ghost use Rattle.std.specs.Prelude.{IfSome, IsSome};
ghost use Rattle.std.specs.List.{All};
ghost use Rattle.scq_block.specs.Exports.{AreAllOf};
ghost use Rattle.scq_files.specs.Exports.{AreDealt};
ghost use Rattle.scq_desk.specs.Exports.{IsLaid};
ghost use Rattle.scq_stages.specs.Exports.{EndsStages, HasRunAt};

use crate::worker::StageDesk;
use crate::{Finished, StageEnd, StageJob, Staged};
use scq_block::{Block, Frame};
use scq_desk::{End, LaidOut, WoundUp, conclude, wind_up_desks};
use scq_outside::Source;
use scq_queue::Queue;

/// Ends the stages once each worker has done its own work: the files are gathered, the queue is
/// closed and its block merged, in every answer.
pub(crate) fn wind_up<S: Source>(
    job: &StageJob,
    laid: LaidOut<Vec<Finished>, S>,
    block: Block,
    queue: Queue<Frame>,
    desks: Vec<StageDesk<S>>,
) -> StageEnd<S>
    requires laid { IsLaid job.now.workers laid }
    requires setup { (queue.setup.order ≡ job.now.order) × (queue.setup.rings ≡ 3)
        × (queue.setup.seats ≡ job.now.workers)
        × (queue.setup.limit ≡ 2 ^ 60) }
    requires all { AreAllOf block queue.given }
    requires count { length desks.items ≡ job.now.workers }
    requires dealt { AreDealt 1 laid.was.value.items desks.items }
    requires numbers { (w : ℕ) (d : _) → w < length desks.items
        → (slice_index_or desks.items w d).worker.worker.pass.number ≡ w }
    requires run { All (HasRunAt queue job.now.size S.Source) desks.items }
    ensures end { EndsStages job.now S.Source laid.was.value.items result }
    ensures passes { IfSome result.passes (λ passes.
        passes.value.items ≡ map (λ d. d.worker.worker.pass) desks.items) }
    ensures there { IsSome result.passes }
    ensures closed { IsSome result.left }
{
    let WoundUp {
        sources,
        fault,
        starved,
        lists,
        counts,
        left,
        saw: _,
        passes,
        closing,
        frames,
    } = wind_up_desks(laid, block, queue, desks);
    let staged = Staged {
        counts,
        done: lists,
        passes,
    };
    End {
        sources,
        result: conclude(staged, starved, fault),
        left: Some(left),
        passes: Some(closing),
        frames: Some(frames),
    }
}
