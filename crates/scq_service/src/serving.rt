ghost use Rattle.std.specs.Prelude.{◌≡◌, None, Some, false, is_some, IfSome, IsSomeAnd, map};
ghost use Rattle.std.specs.Prelude.{string_bytes};
ghost use Rattle.scq_words.specs.Exports.{asked, is_accepted};
ghost use Rattle.scq_service.specs.Answers.{IsSeenAt, LeavesNothing, StagedAs, WorkedAs};
ghost use Rattle.scq_service.specs.Ends.{EndsAs, inputs_of, wrote_of};
ghost use Rattle.scq_service.specs.Faults.{status_of};
ghost use Rattle.scq_service.specs.Names.{names_in};
ghost use Rattle.scq_service.specs.Naming.{cause_told, fault_lines, files_asked, lines_behind};
ghost use Rattle.scq_service.specs.Reports.{asks_report, reported};
ghost use Rattle.scq_service.specs.Serving.{EndsWellWhereCalm, IsOutcomeOf, HasReported};

use crate::commands::{run_files, run_judge, run_self, run_stages, run_text};
use crate::job::{job_of, stage_job_of};
use crate::naming::Names;
use crate::worker_report::report_run;
use crate::{Fault, Outcome};
use scq_outside::{Files, Sink};
use scq_words::{Request, SelfRequest, WordsError, WordsFault, read_words};
use scq_work::Gate;
use std::alloc::Global;
use std::thread::Threads;

/// Runs what the words ask for: gets the sources of the files that they name, up to the first that
/// isn't got, answers their messages, or takes them through stages, or answers those of a generated
/// file, by as many workers as they ask for; or judges recordings, or checks or replays one text;
/// and writes the output, or the summary, once it is whole. At a fault it writes its line to `err`,
/// and behind it lines that name the files, or the word or the text, that it is about, and tell the
/// system's cause. That this takes no memory, and that a failing `err` changes nothing, no clause
/// says. Workers share a queue of buffers. Those of `run` and `self` call the gate, on which no
/// clause depends. What each worker sent, took and answered directly is reported to `err` too, of
/// `run` at status 0, where it is asked for.
pub fn serve<R: Threads + Sync, F: Files, K: Sink, G: Gate + Sync>(
    rt: &R,
    alloc: Global,
    words: &[String],
    files: &mut F,
    out: &mut K,
    err: &mut K,
    gate: &G,
) -> Outcome<F::Src>
    ensures outcome { IsOutcomeOf F.Src.Source (asked (map string_bytes words.now))
        (inputs_of F.Files files.old files.new result.sources.items result.read)
        (wrote_of K.Sink out.old out.new) result }

    // What the workers of stages finished is there exactly where the whole text was made, and is
    // what becomes of the messages. Where it is there, nothing is stranded in their queue.
    ensures staged { StagedAs F.Src.Source (asked (map string_bytes words.now)) result.got.items
        (inputs_of F.Files files.old files.new result.sources.items result.read)
        result.fault result.staged }

    // No worker of it waits, so nothing is told of waiting.
    ensures leaves { result.waited ≡ None }

    // Words that `clap` is said to take are never NotUnderstood.
    ensures taken { result.fault ≡ Some (Fault.Words WordsFault.NotUnderstood)
        → is_accepted (map string_bytes words.now) ≡ false }

    // Where nothing stood in the way of what was asked, and each source told its content, it ends
    // as `EndsWellWhereCalm` says, which says nothing of `judge`.
    ensures complete { EndsWellWhereCalm F.Src.Source (asked (map string_bytes words.now))
        (inputs_of F.Files files.old files.new result.sources.items result.read)
        (wrote_of K.Sink out.old out.new) result }

    // `err` gets the fault's line and the lines behind it, or at status 0 the lines of the workers
    // where they are asked for.
    ensures reported { HasReported (wrote_of K.Sink err.old err.new)
        (reported (asks_report (asked (map string_bytes words.now)))
        (lines_behind false (map string_bytes words.now)
        (asked (map string_bytes words.now)) result.cause) result.fault result.worked) }

    // The cause that stands there is what the object says that failed: of a file that wasn't got
    // the files, of a read the source of its file, of a write `out`, each as it is at the end.
    ensures caused { result.cause ≡ cause_told F.Src.cause result.sources.items (F.cause files.new)
        (K.cause out.new) result.fault }
{
    let Ran {
        outcome,
        report,
        names,
    } = run(rt, alloc, words, files, out, gate);
    report_run(
        err,
        false,
        words,
        names.as_slice(),
        outcome.cause,
        &outcome.fault,
        &outcome.worked,
        report,
    );
    outcome
}

/// How a run ended, whether the words ask for the lines of the workers, and the files' names.
#[derive(Drop)]
pub(crate) struct Ran<S> {
    pub outcome: Outcome<S>,
    pub report: bool,
    pub names: Names,
}

impl<S> Ran<S> {
    ghost use Rattle.std.specs.Prelude.{◌≡◌, false};

    /// A run over files of these names whose workers are not reported.
    pub fn quiet(outcome: Outcome<S>, names: Names) -> Ran<S>
        ensures outcome { result.outcome ≡ outcome }
        ensures report { result.report ≡ false }
        ensures names { result.names ≡ names }
    {
        Ran {
            outcome,
            report: false,
            names,
        }
    }
}

/// Runs what the words ask for, and reports no fault yet.
fn run<R: Threads + Sync, F: Files, K: Sink, G: Gate + Sync>(
    rt: &R,
    alloc: Global,
    words: &[String],
    files: &mut F,
    out: &mut K,
    gate: &G,
) -> Ran<F::Src>
    ensures status { result.outcome.status ≡ status_of result.outcome.fault }
    ensures end { EndsAs F.Src.Source (asked (map string_bytes words.now)) result.outcome.got.items
        (inputs_of F.Files files.old files.new result.outcome.sources.items
        result.outcome.read)
        (wrote_of K.Sink out.old out.new) result.outcome.fault }
    ensures worked { WorkedAs F.Src.Source
        (asked (map string_bytes words.now)) result.outcome.got.items
        (inputs_of F.Files files.old files.new result.outcome.sources.items
        result.outcome.read) result.outcome.fault result.outcome.worked }
    ensures staged { StagedAs F.Src.Source
        (asked (map string_bytes words.now)) result.outcome.got.items
        (inputs_of F.Files files.old files.new result.outcome.sources.items
        result.outcome.read) result.outcome.fault result.outcome.staged }
    ensures left { IfSome result.outcome.left (λ left.
        IsSomeAnd result.outcome.passes (λ passes. IsSomeAnd result.outcome.frames (λ frames.
        LeavesNothing (asked
        (map string_bytes words.now)) passes.value.items frames.value.items left.items))) }
    ensures seen { IsSeenAt (asked (map string_bytes words.now)) result.outcome.fault
        (is_some result.outcome.left) }
    ensures same { IfSome result.outcome.worked (λ w.
        IsSomeAnd result.outcome.passes (λ passes. passes.value.items ≡ w.passes.value.items)) }
    ensures leaves { result.outcome.waited ≡ None }
    ensures taken { result.outcome.fault ≡ Some (Fault.Words WordsFault.NotUnderstood)
        → is_accepted (map string_bytes words.now) ≡ false }
    ensures report { result.outcome.fault ≡ None
        → result.report ≡ asks_report (asked (map string_bytes words.now)) }
    ensures named { IfSome result.outcome.fault (λ fault.
        fault_lines false (map string_bytes words.now) (names_in result.names) fault
        ≡ fault_lines false (map string_bytes words.now)
        (files_asked (asked (map string_bytes words.now))) fault) }
    ensures caused { result.outcome.cause ≡ cause_told F.Src.cause result.outcome.sources.items
        (F.cause files.new) (K.cause out.new) result.outcome.fault }
{
    match read_words(alloc, words) {
        Ok(Request::Run(asked)) => {
            let job = job_of(
                asked.order,
                asked.size,
                asked.workers,
                asked.topics,
                asked.batch,
            );
            let names = asked.files.as_slice();
            Ran {
                outcome: run_files(rt, alloc, &job, names, files, out, gate),
                report: asked.report,
                names: Names::These(asked.files),
            }
        }
        Ok(Request::SelfRun(asked)) => {
            let SelfRequest {
                seed,
                lines,
                workers,
            } = asked;
            Ran::quiet(
                run_self(rt, alloc, seed, lines, workers, out, gate),
                Names::Nothing,
            )
        }
        Ok(Request::Judge(asked)) => {
            let names = asked.files.as_slice();
            Ran::quiet(
                run_judge(
                    alloc,
                    asked.room,
                    asked.strict,
                    asked.order,
                    names,
                    files,
                    out,
                ),
                Names::These(asked.files),
            )
        }
        Ok(Request::Text(asked)) => {
            let name = asked.file.as_str();
            Ran::quiet(
                run_text(alloc, asked.command, name, files, out),
                Names::One(asked.file),
            )
        }
        Ok(Request::Stages(asked)) => {
            let job = stage_job_of(asked.order, asked.size, asked.workers);
            let names = asked.files.as_slice();
            Ran::quiet(
                run_stages(rt, alloc, &job, names, files, out),
                Names::These(asked.files),
            )
        }
        Err(WordsError::Refused(fault)) => {
            Ran::quiet(
                Outcome::at(Vec::new(alloc), Fault::Words(fault)),
                Names::Nothing,
            )
        }
        Err(WordsError::NoMemory) => Ran::quiet(
            Outcome::at(Vec::new(alloc), Fault::NoMemory),
            Names::Nothing,
        ),
    }
}
