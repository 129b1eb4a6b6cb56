//! The run over files, whose workers leave early or rest.
ghost use Rattle.std.specs.Prelude.{◌≡◌, ℕ, ◌+◌, ◌≤◌, List, Some, length, map, string_bytes, IfOk};
ghost use Rattle.std.specs.Prelude.{IfSome, IsNone, IsSome, IsSomeAnd, OnSome, All};
ghost use Rattle.std.specs.List.Sorted.{IsPermutation};
ghost use Rattle.scq_collect.specs.Exports.{messages_to, part_answers, without_way, members_of};
ghost use Rattle.scq_collect.specs.Exports.{one_thread_output};
ghost use Rattle.scq_rest.specs.Exports.{HaveWaited};
ghost use Rattle.scq_worker.specs.Exports.{takes_behind};
ghost use Rattle.scq_service.specs.Exports.{TellsWork, EndsOver, cause_told, inputs_of, wrote_of};

use crate::reading::{run_work, run_work_waiting};
use crate::writing::write_text;
use crate::{Fault, Outcome};
use scq_collect::{Text, output_in_pieces};
use scq_outside::{Failed, Files, Sink};
use scq_word::NoMemory;
use scq_work::{Gate, Job, Worked};
use std::alloc::Global;
use std::sync::Wait;
use std::thread::Threads;

/// Reads the files, answers their messages, and writes the output once it is whole.
pub fn run_files<R: Threads + Sync, F: Files, K: Sink, G: Gate + Sync>(
    rt: &R,
    alloc: Global,
    job: &Job,
    names: &[String],
    files: &mut F,
    out: &mut K,
    gate: &G,
) -> Outcome<F::Src>
    requires { length names.now ≤ 64 }
    ensures tells { TellsWork job.now F.Src.Source (map string_bytes names.now)
        (inputs_of F.Files files.old files.new result.sources.items result.read) result }
    ensures ends { EndsOver job.now.longest (one_thread_output job.now.topics) F.Src.Source
        (map string_bytes names.now) result.got.items
        (inputs_of F.Files files.old files.new result.sources.items result.read)
        (wrote_of K.Sink out.old out.new) result.fault }
    ensures caused { result.cause ≡ cause_told F.Src.cause result.sources.items (F.cause files.new)
        (K.cause out.new) result.fault }
    ensures leaves { IsNone result.waited }
{
    let outcome = run_work(rt, alloc, job, names, files, gate);
    let text = match &outcome.worked {
        Some(worked) => text_of(rt, alloc, job, worked),
        None => return outcome,
    };
    match text {
        Ok(text) => match write_text(out, &text) {
            Ok(()) => outcome,
            Err(Failed) => outcome.unwritten(out.cause()),
        },
        Err(NoMemory) => outcome.starved(),
    }
}

/// The same by workers that rest in place of leaving early.
pub fn run_files_waiting<R: Threads + Wait + Sync, F: Files, K: Sink, G: Gate + Sync>(
    rt: &R,
    alloc: Global,
    job: &Job,
    names: &[String],
    files: &mut F,
    out: &mut K,
    gate: &G,
) -> Outcome<F::Src>
    requires { length names.now ≤ 64 }
    ensures tells { TellsWork job.now F.Src.Source (map string_bytes names.now)
        (inputs_of F.Files files.old files.new result.sources.items result.read) result }
    ensures ends { EndsOver job.now.longest (one_thread_output job.now.topics) F.Src.Source
        (map string_bytes names.now) result.got.items
        (inputs_of F.Files files.old files.new result.sources.items result.read)
        (wrote_of K.Sink out.old out.new) result.fault }
    ensures caused { result.cause ≡ cause_told F.Src.cause result.sources.items (F.cause files.new)
        (K.cause out.new) result.fault }
    ensures waited { IfSome result.waited (λ waited. IsSomeAnd result.passes (λ passes.
        HaveWaited (length job.now.topics + 1) (takes_behind job.now.most) job.now.workers
        passes.value.items waited.saw.items waited.rested.items)) }
    ensures waits { IsNone result.waited → result.fault ≡ Some Fault.NoMemory }
    ensures both { OnSome result.waited (IsSome result.left) }
{
    let outcome = run_work_waiting(rt, alloc, job, names, files, gate);
    let text = match &outcome.worked {
        Some(worked) => text_of(rt, alloc, job, worked),
        None => return outcome,
    };
    match text {
        Ok(text) => match write_text(out, &text) {
            Ok(()) => outcome,
            Err(Failed) => outcome.unwritten(out.cause()),
        },
        Err(NoMemory) => outcome.starved(),
    }
}

/// What is written of what workers answered, made by as many threads.
fn text_of<R: Threads + Sync>(
    rt: &R,
    alloc: Global,
    job: &Job,
    worked: &Worked,
) -> Result<Text, NoMemory>
    requires { All (λ a. a.topic ≤ length job.now.topics) (members_of worked.now.answered.items) }
    ensures { (contents : List (List ℕ))
        → IsPermutation (map without_way (members_of worked.now.answered.items))
        (part_answers job.now.topics job.now.size (messages_to job.now.topics 1 contents))
        → IfOk result (λ text. text ≡ one_thread_output job.now.topics contents) }
{
    let lists = worked.answered.as_slice();
    output_in_pieces(rt, alloc, &job.topics, lists, job.workers)
}
