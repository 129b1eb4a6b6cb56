ghost use Rattle.std.specs.Prelude.{◌≡◌, ◌⊎◌, ◌≤◌, ◌++◌, decimal, sum_by, OnOk, OnErr};
ghost use Rattle.std.specs.Prelude.{map, string_bytes};
ghost use Rattle.scq_outside.specs.Exports.{Rose};
ghost use Rattle.scq_service.specs.Reports.{counts_line, directs_in, workers_report, reported};
ghost use Rattle.scq_service.specs.Naming.{caused_lines};
ghost use Rattle.scq_service.specs.Reports.{worker_line};
ghost use Rattle.scq_service.specs.Writing.{written_with, WrotePart};

use crate::Fault;
use crate::naming::report_named;
use crate::writing::write_all;
use itoa::Buffer;
use scq_collect::Answers;
use scq_outside::{Cause, Failed, Sink};
use scq_queue::Counts;
use scq_work::Worked;

/// What all workers did together. A sum may pass 64 bits, since any numbers may stand in counts.
#[derive(Clone, Copy)]
struct Sums {
    sent: u128,
    taken: u128,
}

/// Writes what each worker sent, took and answered directly, and what all did together: a line for
/// each worker, numbered from 1, and one for all. It takes no memory.
pub fn report_workers<K: Sink>(
    sink: &mut K,
    counts: &[Counts],
    lists: &[Answers],
) -> Result<(), Failed>
    ensures whole { OnOk result (K.written sink.new
        ≡ written_with (K.written sink.old) (workers_report counts.now lists.now)) }
    ensures part { WrotePart (K.written sink.old) (K.written sink.new)
        (workers_report counts.now lists.now) }
    ensures kept { OnOk result (K.faults sink.new ≡ K.faults sink.old) }
    ensures rose { OnErr result (Rose (K.faults sink.old) (K.faults sink.new)) }
{
    'workers: for at in 0..counts.len().min(lists.len()) {
        write_worker(sink, at as u64 + 1, &counts[at], &lists[at])?;
    }
    write_all(sink, b"all")?;
    let sums = sums_of(counts);
    write_counts(sink, sums.sent, sums.taken, directs_of(lists))
}

/// Reports how a run ended: its fault, where it has one, with the lines behind it; or else what the
/// workers did, where that is asked for. Nothing depends on whether the sink takes it.
pub fn report_run<K: Sink>(
    sink: &mut K,
    run_alone: bool,
    words: &[String],
    names: &[String],
    cause: Option<Cause>,
    fault: &Option<Fault>,
    worked: &Option<Worked>,
    asks: bool,
)
    ensures reported { Rose (K.faults sink.old) (K.faults sink.new)
        ⊎ (K.written sink.new
        ≡ written_with (K.written sink.old)
        (reported asks (caused_lines run_alone (map string_bytes words.now)
        (map string_bytes names.now) cause) fault.now worked.now)) }
    ensures front { WrotePart (K.written sink.old) (K.written sink.new)
        (reported asks (caused_lines run_alone (map string_bytes words.now)
        (map string_bytes names.now) cause) fault.now worked.now) }
{
    if let Some(fault) = fault {
        let _ = report_named(sink, run_alone, words, names, cause, fault);
        return;
    }
    if let Some(worked) = worked
        && asks
    {
        let lists = worked.answered.as_slice();
        let _ = report_workers(sink, worked.counts.as_slice(), lists);
    }
}

fn sums_of(counts: &[Counts]) -> Sums
    ensures sent { result.sent ≡ sum_by (λ c. c.sent) counts.now }
    ensures taken { result.taken ≡ sum_by (λ c. c.taken) counts.now }
{
    let mut sums = Sums { sent: 0, taken: 0 };
    'workers: for worker in counts {
        sums.sent += wide(worker.sent);
        sums.taken += wide(worker.taken);
    }
    sums
}

/// How many parts all workers answered directly.
fn directs_of(lists: &[Answers]) -> u128
    ensures { result ≡ sum_by directs_in lists.now }
{
    let mut sum = 0;
    'lists: for list in lists {
        sum += direct_in(list);
    }
    sum
}

/// How many parts were answered directly in a worker's list.
fn direct_in(list: &Answers) -> u128
    ensures same { result ≡ directs_in list.now }
    ensures small { result ≤ 18446744073709551615 }
{
    wide(list.direct() as u64)
}

fn wide(number: u64) -> u128
    ensures same { result ≡ number }
    ensures small { result ≤ 18446744073709551615 }
{
    u128::from(number)
}

fn write_worker<K: Sink>(
    sink: &mut K,
    number: u64,
    counts: &Counts,
    list: &Answers,
) -> Result<(), Failed>
    ensures whole { OnOk result (K.written sink.new
        ≡ written_with (K.written sink.old) (worker_line number (counts.now, list.now))) }
    ensures part { WrotePart (K.written sink.old) (K.written sink.new)
        (worker_line number (counts.now, list.now)) }
    ensures kept { OnOk result (K.faults sink.new ≡ K.faults sink.old) }
    ensures rose { OnErr result (Rose (K.faults sink.old) (K.faults sink.new)) }
{
    write_named(sink, b"worker ", wide(number))?;
    write_counts(sink, wide(counts.sent), wide(counts.taken), direct_in(list))
}

fn write_counts<K: Sink>(sink: &mut K, sent: u128, taken: u128, direct: u128) -> Result<(), Failed>
    ensures whole { OnOk result (K.written sink.new
        ≡ written_with (K.written sink.old) (counts_line sent taken direct)) }
    ensures part { WrotePart (K.written sink.old) (K.written sink.new)
        (counts_line sent taken direct) }
    ensures kept { OnOk result (K.faults sink.new ≡ K.faults sink.old) }
    ensures rose { OnErr result (Rose (K.faults sink.old) (K.faults sink.new)) }
{
    write_named(sink, b" sent ", sent)?;
    write_named(sink, b" taken ", taken)?;
    write_named(sink, b" direct ", direct)?;
    write_all(sink, b"\n")
}

/// Writes a name and then a number.
fn write_named<K: Sink>(sink: &mut K, name: &[u8], number: u128) -> Result<(), Failed>
    ensures whole { OnOk result (K.written sink.new
        ≡ written_with (K.written sink.old) (name.now ++ decimal number)) }
    ensures part { WrotePart (K.written sink.old) (K.written sink.new) (name.now
        ++ decimal number) }
    ensures kept { OnOk result (K.faults sink.new ≡ K.faults sink.old) }
    ensures rose { OnErr result (Rose (K.faults sink.old) (K.faults sink.new)) }
{
    write_all(sink, name)?;
    write_all(sink, Buffer::new().format(number).as_bytes())
}
