ghost use Rattle.std.specs.Prelude.{◌≡◌, ◌^◌};
ghost use Rattle.scq_passes.specs.Exports.{IsJob};
ghost use Rattle.scq_worker.specs.Exports.{most_together};

use scq_stages::StageJob;
use scq_topics::Topics;
use scq_work::Job;

/// The job of numbers that are in their ranges. Parts go together where `batch` says so.
pub fn job_of(order: u32, size: u32, workers: u32, topics: Topics, batch: bool) -> Job
    requires { IsJob order size workers }
    ensures size { result.size ≡ size }
    ensures longest { result.longest ≡ 2 ^ 20 }
    ensures most { result.most ≡ most_together size batch }
    ensures workers { result.workers ≡ workers }
    ensures order { result.order ≡ order }
    ensures topics { result.topics ≡ topics }
{
    match Job::new(order, size, workers, topics, batch) {
        Some(job) => job,
        None => unreachable!(),
    }
}

/// The job of stages, likewise.
pub fn stage_job_of(order: u32, size: u32, workers: u32) -> StageJob
    requires { IsJob order size workers }
    ensures order { result.order ≡ order }
    ensures size { result.size ≡ size }
    ensures workers { result.workers ≡ workers }
{
    match StageJob::new(order, size, workers) {
        Some(job) => job,
        None => unreachable!(),
    }
}
