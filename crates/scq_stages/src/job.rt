ghost use Rattle.scq_passes.specs.Exports.{IsJob};

use scq_word::MOST_RUN_ORDER;

/// What workers of stages are to do: messages of at most `size` bytes go through both stages in
/// 2^order buffers, by `workers` workers.
#[derive(Clone, Copy)]
pub struct StageJob {
    pub order: u32,
    pub size: u32,
    pub workers: u32,
    pub ghost valid: { IsJob order size workers },
}

impl StageJob {
    ghost use Rattle.std.specs.Prelude.{◌≡◌, ◌↔◌, IsNone, IfSome};

    /// None exactly where the order isn't in `1..=MOST_RUN_ORDER`, the size isn't in 1 to 65,536, or
    /// the workers aren't in 1 to 4,096.
    pub fn new(order: u32, size: u32, workers: u32) -> Option<StageJob>
        ensures refused { IsNone result ↔ ¬ IsJob order size workers }
        ensures order { IfSome result (λ job. job.order ≡ order) }
        ensures size { IfSome result (λ job. job.size ≡ size) }
        ensures workers { IfSome result (λ job. job.workers ≡ workers) }
    {
        if !(1..=MOST_RUN_ORDER).contains(&order) || !(1..=65_536).contains(&size) {
            return None;
        }
        if !(1..=4096).contains(&workers) {
            return None;
        }
        Some(StageJob {
            order,
            size,
            workers,
        })
    }
}
