//! How the work of all workers ends.
ghost use Rattle.std.specs.Prelude.{◌≡◌, ℕ, ◌+◌, ◌^◌, ◌<◌, ◌≤◌, length, map};
ghost use Rattle.std.specs.Prelude.{slice_index_or, IfSome, IsSome};
ghost use Rattle.std.specs.List.{All};
ghost use Rattle.scq_block.specs.Exports.{AreAllOf};
ghost use Rattle.scq_queue.specs.Exports.{was_told};
ghost use Rattle.scq_files.specs.Exports.{AreDealt};
ghost use Rattle.scq_desk.specs.Exports.{IsLaid};
ghost use Rattle.scq_worker.specs.Exports.{HasRunAt};
ghost use Rattle.scq_work.specs.Exports.{EndsWork};

use crate::{WorkEnd, Worked};
use scq_block::{Block, Frame};
use scq_collect::Answers;
use scq_desk::{End, LaidOut, WoundUp, conclude, wind_up_desks};
use scq_outside::Source;
use scq_queue::Queue;
use scq_worker::{Job, WorkDesk};

/// Ends the work of all workers once each has done its own: the files are gathered, the queue is
/// closed and its block merged, in every answer. With the end comes, of each worker, whether it saw
/// that all had retired.
pub(crate) fn wind_up<S: Source>(
    job: &Job,
    laid: LaidOut<Answers, S>,
    block: Block,
    queue: Queue<Frame>,
    desks: Vec<WorkDesk<S>>,
) -> (WorkEnd<S>, Vec<bool>)
    requires laid { IsLaid job.now.workers laid }
    requires setup { (queue.setup.order ≡ job.now.order)
        × (queue.setup.rings ≡ length job.now.topics + 2) × (queue.setup.seats ≡ job.now.workers)
        × (queue.setup.limit ≡ 2 ^ 60) }
    requires all { AreAllOf block queue.given }
    requires count { length desks.items ≡ job.now.workers }
    requires dealt { AreDealt 1 laid.was.value.items desks.items }
    requires numbers { (w : ℕ) (d : _) → w < length desks.items
        → (slice_index_or desks.items w d).worker.worker.pass.number ≡ w }
    requires run { All (HasRunAt queue job.now S.Source) desks.items }
    ensures end { EndsWork job.now S.Source laid.was.value.items result.0 }
    ensures passes { IfSome result.0.passes (λ passes.
        passes.value.items ≡ map (λ d. d.worker.worker.pass) desks.items) }
    ensures saw { IfSome result.0.passes (λ passes.
        result.1.items ≡ map (λ p. was_told p.gate) passes.value.items) }
    ensures there { IsSome result.0.passes }
    ensures closed { IsSome result.0.left }
{
    let WoundUp {
        sources,
        fault,
        starved,
        lists,
        counts,
        left,
        saw,
        passes,
        closing,
        frames,
    } = wind_up_desks(laid, block, queue, desks);
    let worked = Worked {
        counts,
        answered: lists,
        passes,
    };
    let end = End {
        sources,
        result: conclude(worked, starved, fault),
        left: Some(left),
        passes: Some(closing),
        frames: Some(frames),
    };
    (end, saw)
}
