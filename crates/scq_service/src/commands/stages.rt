//! The run over files whose messages go through two stages.
ghost use Rattle.std.specs.Prelude.{◌≡◌, ℕ, ◌≤◌, List, Option, length, map, string_bytes, IfOk};
ghost use Rattle.std.specs.List.Sorted.{IsPermutation};
ghost use Rattle.scq_stages.specs.Exports.{EndsStages, finished_in, one_thread_stage_output};
ghost use Rattle.scq_stages.specs.Exports.{all_handled, without_way};
ghost use Rattle.scq_service.specs.Exports.{HaveAllCome, HaveCome, TellsStages, EndsOver};
ghost use Rattle.scq_service.specs.Exports.{ReadsOver, cause_told, inputs_of, wrote_of};
ghost use Rattle.scq_outside.specs.declared.cause.Cause.{Cause as TheCause};

use crate::reading::get_sources;
use crate::writing::write_all;
use crate::{Fault, Outcome};
use scq_desk::End;
use scq_outside::{Failed, Files, Sink};
use scq_stages::{StageEnd, StageJob, Staged, stage_output, stage_work};
use scq_word::{Bytes, NoMemory};
use std::alloc::Global;
use std::snapshot::Snapshot;
use std::thread::Threads;

/// Reads the files, takes their messages through both stages, and writes what becomes of them once
/// it is whole.
pub fn run_stages<R: Threads + Sync, F: Files, K: Sink>(
    rt: &R,
    alloc: Global,
    job: &StageJob,
    names: &[String],
    files: &mut F,
    out: &mut K,
) -> Outcome<F::Src>
    requires { length names.now ≤ 64 }
    ensures tells { TellsStages job.now F.Src.Source (map string_bytes names.now)
        (inputs_of F.Files files.old files.new result.sources.items result.read) result }
    ensures ends { EndsOver job.now.size one_thread_stage_output F.Src.Source
        (map string_bytes names.now) result.got.items
        (inputs_of F.Files files.old files.new result.sources.items result.read)
        (wrote_of K.Sink out.old out.new) result.fault }
    ensures caused { result.cause ≡ cause_told F.Src.cause result.sources.items (F.cause files.new)
        (K.cause out.new) result.fault }
{
    let outcome = stage_files(rt, alloc, job, names, files);
    let text = match &outcome.staged {
        Some(staged) => text_of(alloc, staged),
        None => return outcome,
    };
    match text {
        Ok(text) => match write_all(out, text.bytes()) {
            Ok(()) => outcome,
            Err(Failed) => outcome.unwritten(out.cause()),
        },
        Err(NoMemory) => outcome.starved(),
    }
}

/// What is written of what workers finished.
fn text_of(alloc: Global, staged: &Staged) -> Result<Bytes, NoMemory>
    ensures { (contents : List (List ℕ))
        → IsPermutation (map without_way (finished_in staged.now.done.items))
        (all_handled 1 contents)
        → IfOk result (λ text. text ≡ one_thread_stage_output contents) }
{
    let lists = staged.done.as_slice();
    stage_output(alloc, lists)
}

/// Gets the sources of the files, up to the first that isn't got, and takes the messages of those
/// that it got through both stages. Each source is asked for once and read at most once.
fn stage_files<R: Threads + Sync, F: Files>(
    rt: &R,
    alloc: Global,
    job: &StageJob,
    names: &[String],
    files: &mut F,
) -> Outcome<F::Src>
    requires few { length names.now ≤ 64 }
    ensures tells { TellsStages job.now F.Src.Source (map string_bytes names.now)
        (inputs_of F.Files files.old files.new result.sources.items result.read) result }
    ensures ends { ReadsOver job.now.size F.Src.Source (map string_bytes names.now)
        result.got.items
        (inputs_of F.Files files.old files.new result.sources.items result.read) result.fault }
    ensures caused { (sink : Option TheCause) → result.cause
        ≡ cause_told F.Src.cause result.sources.items (F.cause files.new) sink result.fault }
{
    let Ok(mut sources) = Vec::with_capacity(alloc, names.len()) else {
        return Outcome::at(Vec::new(alloc), Fault::NoMemory);
    };
    let was = Snapshot::of(files);
    let all = get_sources(names, files, &mut sources);
    let count = sources.len();
    let got = Snapshot::of(&sources);
    let end = stage_work(rt, alloc, job, sources);
    conclude(job, names, &was, files, all, count, got, end)
}

/// The end of a run, by the end of its workers. `was` is what the files were before any source was
/// got, `got` the sources as they were then, and `all` says whether all were got.
fn conclude<F: Files>(
    job: &StageJob,
    names: &[String],
    was: &Snapshot<F>,
    files: &F,
    all: bool,
    count: usize,
    got: Snapshot<Vec<F::Src>>,
    end: StageEnd<F::Src>,
) -> Outcome<F::Src>
    requires few { count ≤ 64 }
    requires number { count ≡ length got.value.items }
    requires come { HaveCome F.Src.Source (map string_bytes names.now)
        (inputs_of F.Files was.now.value files.now got.value.items 0) }
    requires all { HaveAllCome (map string_bytes names.now)
        (inputs_of F.Files was.now.value files.now got.value.items 0) all }
    requires end { EndsStages job.now F.Src.Source got.value.items end }
    ensures tells { TellsStages job.now F.Src.Source (map string_bytes names.now)
        (inputs_of F.Files was.now.value files.now result.sources.items result.read) result }
    ensures ends { ReadsOver job.now.size F.Src.Source (map string_bytes names.now)
        result.got.items
        (inputs_of F.Files was.now.value files.now result.sources.items result.read) result.fault }
    ensures caused { (sink : Option TheCause) → result.cause
        ≡ cause_told F.Src.cause result.sources.items (F.cause files.now) sink result.fault }
{
    let End {
        sources,
        result,
        left: _,
        passes: _,
        frames: _,
    } = end;
    match result {
        Ok(staged) => {
            if all {
                Outcome::finished(sources, staged).behind(got, None, None, None, None)
            } else {
                let file = count as u32 + 1;
                Outcome::unopened(sources, file, files.cause()).behind(got, None, None, None, None)
            }
        }
        Err(fault) => {
            Outcome::of_work(sources, job.size, fault).behind(got, None, None, None, None)
        }
    }
}
