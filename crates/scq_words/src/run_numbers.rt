ghost use Rattle.std.specs.Prelude.{◌≡◌, ◌≤◌, IfOk};
ghost use Rattle.std.specs.Result.{result_err};
ghost use Rattle.scq_word.specs.Exports.{most_run_order};
ghost use Rattle.scq_words.specs.Asked.{first_of_tests, numbers_tests, workers_or};
ghost use Rattle.scq_words.specs.Numbers.{number_or, text_in};

use crate::WordsFault;
use crate::number::optional_number;
use crate::workers::workers_of;
use scq_word::MOST_RUN_ORDER;

/// The numbers of a run.
pub struct RunNumbers {
    pub workers: u32,
    pub order: u32,
    pub size: u32,
}

/// Tests the numbers of a run in their order.
pub fn numbers_of(
    workers: Option<&str>,
    order: Option<&str>,
    size: Option<&str>,
) -> Result<RunNumbers, WordsFault>
    ensures refused { result_err result ≡ first_of_tests
        (numbers_tests (text_in workers.entry) (text_in order.entry) (text_in size.entry)) }
    ensures workers { IfOk result (λ numbers. numbers.workers
        ≡ workers_or (number_or 6 (text_in order.entry)) (text_in workers.entry)) }
    ensures order { IfOk result (λ numbers. numbers.order ≡ number_or 6 (text_in order.entry)) }
    ensures size { IfOk result (λ numbers. numbers.size ≡ number_or 65536 (text_in size.entry)) }
    ensures few_workers { IfOk result (λ numbers.
        (1 ≤ numbers.workers) × (numbers.workers ≤ 4096)) }
    ensures small_order { IfOk result (λ numbers.
        (1 ≤ numbers.order) × (numbers.order ≤ most_run_order)) }
    ensures small_size { IfOk result (λ numbers.
        (1 ≤ numbers.size) × (numbers.size ≤ 65536)) }
{
    let given = optional_number(workers, 0, 1, 4096, WordsFault::Workers)?;
    let order = optional_number(order, 6, 1, MOST_RUN_ORDER, WordsFault::Order)?;
    let size = optional_number(size, 65536, 1, 65536, WordsFault::Size)?;
    Ok(RunNumbers {
        workers: workers_of(workers, given, order),
        order,
        size,
    })
}
