ghost use Rattle.std.specs.Prelude.{◌≡◌, ◌≤◌, ◌+◌, ◌^◌};
ghost use Rattle.scq_passes.specs.Exports.{IsJob};
ghost use Rattle.scq_worker.specs.Opening.{most_together};

use scq_topics::Topics;
use scq_word::MOST_RUN_ORDER;

/// How many bytes a payload may have.
const LONGEST: u32 = 1 << 20;

/// How many bytes the parts of a value may have together where they are several: more is slower.
const MOST: u32 = 4096 + 24;

/// What workers are to do: messages are answered by `workers` workers through 2^order buffers. A
/// payload may have `longest` bytes, and goes through the buffers in parts of at most `size`. Parts
/// that go together have at most `most` bytes, each with 24 for its numbers: none do where that is
/// 0.
#[derive(Drop)]
pub struct Job {
    pub order: u32,
    pub size: u32,
    pub longest: u32,
    pub most: u32,
    pub workers: u32,
    pub topics: Topics,
    pub ghost valid: { IsJob order size workers },
    pub ghost limit: { longest ≡ 2 ^ 20 },
    pub ghost room: { most ≤ size + 24 },
}

impl Job {
    ghost use Rattle.std.specs.Prelude.{◌≡◌, ◌^◌, ◌↔◌, IsNone, IfSome};

    /// None exactly where the order isn't in `1..=MOST_RUN_ORDER`, the size isn't in 1 to 65,536, or
    /// the workers aren't in 1 to 4,096. Parts go together where `batch` says so.
    pub fn new(order: u32, size: u32, workers: u32, topics: Topics, batch: bool) -> Option<Job>
        ensures refused { IsNone result ↔ ¬ IsJob order size workers }
        ensures numbers { IfSome result (λ job. (job.order ≡ order) × (job.size ≡ size)
            × (job.workers ≡ workers)) }
        ensures longest { IfSome result (λ job. job.longest ≡ 2 ^ 20) }
        ensures most { IfSome result (λ job. job.most ≡ most_together size batch) }
        ensures topics { IfSome result (λ job. job.topics ≡ topics) }
    {
        if !(1..=MOST_RUN_ORDER).contains(&order) || !(1..=65_536).contains(&size) {
            return None;
        }
        if !(1..=4096).contains(&workers) {
            return None;
        }
        Some(Job {
            order,
            size,
            longest: LONGEST,
            most: most_together(size, batch),
            workers,
            topics,
        })
    }
}

/// How many bytes the parts of a value may have together where they are several.
fn most_together(size: u32, batch: bool) -> u32
    requires { size ≤ 2 ^ 16 }
    ensures { result ≡ most_together size batch }
{
    if batch { (size + 24).min(MOST) } else { 0 }
}
