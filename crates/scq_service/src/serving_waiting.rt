//! The service whose idle workers wait in place of leaving early.
ghost use Rattle.std.specs.Prelude.{◌≡◌, None, Some, false, is_some, IfSome, IsSome, IsSomeAnd};
ghost use Rattle.std.specs.Prelude.{OnSome, map, string_bytes, true};
ghost use Rattle.scq_words.specs.Exports.{asked_for_run, is_taken_for_run};
ghost use Rattle.scq_service.specs.Exports.{IsSeenAt, LeavesNothing, WaitedAs, WorkedAs, EndsAs};
ghost use Rattle.scq_service.specs.Exports.{inputs_of, wrote_of, status_of, asks_report, reported};
ghost use Rattle.scq_service.specs.Exports.{EndsWellWhereCalm, WorkersWaited, IsOutcomeOf};
ghost use Rattle.scq_service.specs.Exports.{HasReported, fault_lines, lines_behind, names_in};
ghost use Rattle.scq_service.specs.Exports.{cause_told, files_asked};

use crate::commands::run_files_waiting;
use crate::job::job_of;
use crate::naming::Names;
use crate::serving::Ran;
use crate::worker_report::report_run;
use crate::{Fault, Outcome};
use scq_outside::{Files, Sink};
use scq_words::{WordsError, WordsFault, read_run_words};
use scq_work::Gate;
use std::alloc::Global;
use std::sync::Wait;
use std::thread::Threads;

/// Runs what the words ask for as `serve` does, but that `run` alone is understood, and that a
/// worker that finds nothing to take rests until another wakes it. Where no wake comes it never
/// returns.
pub fn serve_waiting<R: Threads + Wait + Sync, F: Files, K: Sink, G: Gate + Sync>(
    rt: &R,
    alloc: Global,
    words: &[String],
    files: &mut F,
    out: &mut K,
    err: &mut K,
    gate: &G,
) -> Outcome<F::Src>
    ensures outcome { IsOutcomeOf F.Src.Source (asked_for_run (map string_bytes words.now))
        (inputs_of F.Files files.old files.new result.sources.items result.read)
        (wrote_of K.Sink out.old out.new) result }
    ensures waited { WorkersWaited (asked_for_run (map string_bytes words.now)) result }

    // No messages go through stages.
    ensures unstaged { result.staged ≡ None }

    // `clap` refuses no words that it is said to take.
    ensures taken { result.fault ≡ Some (Fault.Words WordsFault.NotUnderstood)
        → is_taken_for_run (map string_bytes words.now) ≡ false }

    // Where nothing stood in the way of what was asked, and each source told its content, it ends
    // as `EndsWellWhereCalm` says.
    ensures complete { EndsWellWhereCalm F.Src.Source (asked_for_run (map string_bytes words.now))
        (inputs_of F.Files files.old files.new result.sources.items result.read)
        (wrote_of K.Sink out.old out.new) result }

    // `err` gets the fault's line and the lines behind it, or at status 0 the lines of the workers
    // where they are asked for.
    ensures reported { HasReported (wrote_of K.Sink err.old err.new)
        (reported (asks_report (asked_for_run (map string_bytes words.now)))
        (lines_behind true (map string_bytes words.now)
        (asked_for_run (map string_bytes words.now)) result.cause) result.fault result.worked) }

    // The cause that stands there is what the object says that failed: of a file that wasn't got
    // the files, of a read the source of its file, of a write `out`, each as it is at the end.
    ensures caused { result.cause ≡ cause_told F.Src.cause result.sources.items (F.cause files.new)
        (K.cause out.new) result.fault }
{
    let Ran {
        outcome,
        report,
        names,
    } = run_waiting(rt, alloc, words, files, out, gate);
    report_run(
        err,
        true,
        words,
        names.as_slice(),
        outcome.cause,
        &outcome.fault,
        &outcome.worked,
        report,
    );
    outcome
}

/// Runs what the words ask for, and reports no fault yet.
fn run_waiting<R: Threads + Wait + Sync, F: Files, K: Sink, G: Gate + Sync>(
    rt: &R,
    alloc: Global,
    words: &[String],
    files: &mut F,
    out: &mut K,
    gate: &G,
) -> Ran<F::Src>
    ensures status { result.outcome.status ≡ status_of result.outcome.fault }
    ensures end { EndsAs F.Src.Source
        (asked_for_run (map string_bytes words.now)) result.outcome.got.items
        (inputs_of F.Files files.old files.new result.outcome.sources.items
        result.outcome.read)
        (wrote_of K.Sink out.old out.new) result.outcome.fault }
    ensures worked { WorkedAs F.Src.Source
        (asked_for_run (map string_bytes words.now)) result.outcome.got.items
        (inputs_of F.Files files.old files.new result.outcome.sources.items
        result.outcome.read) result.outcome.fault result.outcome.worked }
    ensures left { IfSome result.outcome.left (λ left.
        IsSomeAnd result.outcome.passes (λ passes. IsSomeAnd result.outcome.frames (λ frames.
        LeavesNothing (asked_for_run
        (map string_bytes words.now)) passes.value.items frames.value.items left.items))) }
    ensures seen { IsSeenAt (asked_for_run (map string_bytes words.now)) result.outcome.fault
        (is_some result.outcome.left) }
    ensures same { IfSome result.outcome.worked (λ w.
        IsSomeAnd result.outcome.passes (λ passes. passes.value.items ≡ w.passes.value.items)) }
    ensures waited { IfSome result.outcome.waited (λ waited.
        IsSomeAnd result.outcome.passes (λ passes.
        WaitedAs (asked_for_run (map string_bytes words.now)) passes.value.items waited.saw.items
        waited.rested.items)) }
    ensures attended { IsSeenAt (asked_for_run (map string_bytes words.now)) result.outcome.fault
        (is_some result.outcome.waited) }
    ensures both { OnSome result.outcome.waited (IsSome result.outcome.left) }
    ensures unstaged { result.outcome.staged ≡ None }
    ensures taken { result.outcome.fault ≡ Some (Fault.Words WordsFault.NotUnderstood)
        → is_taken_for_run (map string_bytes words.now) ≡ false }
    ensures report { result.outcome.fault ≡ None
        → result.report ≡ asks_report (asked_for_run (map string_bytes words.now)) }
    ensures named { IfSome result.outcome.fault (λ fault.
        fault_lines true (map string_bytes words.now) (names_in result.names) fault
        ≡ fault_lines true (map string_bytes words.now)
        (files_asked (asked_for_run (map string_bytes words.now))) fault) }
    ensures caused { result.outcome.cause ≡ cause_told F.Src.cause result.outcome.sources.items
        (F.cause files.new) (K.cause out.new) result.outcome.fault }
{
    match read_run_words(alloc, words) {
        Ok(asked) => {
            let job = job_of(
                asked.order,
                asked.size,
                asked.workers,
                asked.topics,
                asked.batch,
            );
            let names = asked.files.as_slice();
            Ran {
                outcome: run_files_waiting(rt, alloc, &job, names, files, out, gate),
                report: asked.report,
                names: Names::These(asked.files),
            }
        }
        Err(WordsError::Refused(fault)) => {
            Ran::quiet(
                Outcome::at(Vec::new(alloc), Fault::Words(fault)),
                Names::Nothing,
            )
        }
        Err(WordsError::NoMemory) => Ran::quiet(
            Outcome::at(Vec::new(alloc), Fault::NoMemory),
            Names::Nothing,
        ),
    }
}
