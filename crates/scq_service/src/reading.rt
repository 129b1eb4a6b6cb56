//! The files of a run: their sources, and what the workers' end makes of it.
ghost use Rattle.std.specs.Prelude.{◌≡◌, ◌+◌, ◌≤◌, [], Option, Some, None, length, map};
ghost use Rattle.std.specs.Prelude.{vec_len, vec_capacity, IfSome, IsErrOf, IsNone, IsSome};
ghost use Rattle.std.specs.Prelude.{IsSomeAnd, OnSome, string_bytes};
ghost use Rattle.scq_work.specs.Exports.{EndsWork};
ghost use Rattle.scq_rest.specs.Exports.{HaveWaited};
ghost use Rattle.scq_worker.specs.Exports.{takes_behind};
ghost use Rattle.scq_service.specs.Exports.{HaveCome, HaveAllCome, TellsWork, ReadsOver, inputs_of};
ghost use Rattle.scq_service.specs.Exports.{cause_told};
ghost use Rattle.scq_outside.specs.declared.cause.Cause.{Cause as TheCause};

use crate::{Fault, Outcome};
use scq_desk::{End, EndFault};
use scq_outside::{Failed, Files};
use scq_work::{Gate, Job, WaitEnd, Waited, WorkEnd, work, work_waiting};
use std::alloc::Global;
use std::snapshot::Snapshot;
use std::sync::Wait;
use std::thread::Threads;

/// Gets the sources of the files in order, up to the first that isn't got, and says whether all
/// were got. Each is asked for once, and none is read.
pub(crate) fn get_sources<F: Files>(
    names: &[String],
    files: &mut F,
    sources: &mut Vec<F::Src>,
) -> bool
    requires none { (sources.old.items ≡ []) × (vec_len sources.old ≡ 0) }
    requires room { length names.now ≤ vec_capacity sources.old }
    ensures count { (vec_len sources.new ≡ length sources.new.items)
        × (vec_len sources.new ≤ length names.now) }
    ensures come { HaveCome F.Src.Source (map string_bytes names.now)
        (inputs_of F.Files files.old files.new sources.new.items 0) }
    ensures all { HaveAllCome (map string_bytes names.now)
        (inputs_of F.Files files.old files.new sources.new.items 0) result }
{
    'files: for name in names {
        match files.source(name.as_str()) {
            Ok(source) => sources.push_reserved(source),
            Err(Failed) => return false,
        }
    }
    true
}

/// Gets the sources of the files, up to the first that isn't got, and answers the messages of those
/// that it got. Each source is asked for once and read at most once.
pub fn run_work<R: Threads + Sync, F: Files, G: Gate + Sync>(
    rt: &R,
    alloc: Global,
    job: &Job,
    names: &[String],
    files: &mut F,
    gate: &G,
) -> Outcome<F::Src>
    requires few { length names.now ≤ 64 }
    ensures tells { TellsWork job.now F.Src.Source (map string_bytes names.now)
        (inputs_of F.Files files.old files.new result.sources.items result.read) result }
    ensures ends { ReadsOver job.now.longest F.Src.Source (map string_bytes names.now)
        result.got.items
        (inputs_of F.Files files.old files.new result.sources.items result.read) result.fault }
    ensures caused { (sink : Option TheCause) → result.cause
        ≡ cause_told F.Src.cause result.sources.items (F.cause files.new) sink result.fault }
    ensures leaves { IsNone result.waited }
{
    let Ok(mut sources) = Vec::with_capacity(alloc, names.len()) else {
        return Outcome::at(Vec::new(alloc), Fault::NoMemory);
    };
    let was = Snapshot::of(files);
    let all = get_sources(names, files, &mut sources);
    let count = sources.len();
    let got = Snapshot::of(&sources);
    let end = work(rt, alloc, job, sources, gate);
    conclude(job, names, &was, files, all, count, got, end, None)
}

/// The same by workers that rest in place of leaving early.
pub fn run_work_waiting<R: Threads + Wait + Sync, F: Files, G: Gate + Sync>(
    rt: &R,
    alloc: Global,
    job: &Job,
    names: &[String],
    files: &mut F,
    gate: &G,
) -> Outcome<F::Src>
    requires few { length names.now ≤ 64 }
    ensures tells { TellsWork job.now F.Src.Source (map string_bytes names.now)
        (inputs_of F.Files files.old files.new result.sources.items result.read) result }
    ensures ends { ReadsOver job.now.longest F.Src.Source (map string_bytes names.now)
        result.got.items
        (inputs_of F.Files files.old files.new result.sources.items result.read) result.fault }
    ensures caused { (sink : Option TheCause) → result.cause
        ≡ cause_told F.Src.cause result.sources.items (F.cause files.new) sink result.fault }
    ensures waited { IfSome result.waited (λ waited. IsSomeAnd result.passes (λ passes.
        HaveWaited (length job.now.topics + 1) (takes_behind job.now.most) job.now.workers
        passes.value.items waited.saw.items waited.rested.items)) }
    ensures waits { IsNone result.waited → result.fault ≡ Some Fault.NoMemory }
    ensures attended { OnSome result.worked (IsSome result.waited) }
    ensures both { OnSome result.waited (IsSome result.left) }
{
    let Ok(mut sources) = Vec::with_capacity(alloc, names.len()) else {
        return Outcome::at(Vec::new(alloc), Fault::NoMemory);
    };
    let was = Snapshot::of(files);
    let all = get_sources(names, files, &mut sources);
    let count = sources.len();
    let got = Snapshot::of(&sources);
    let WaitEnd { end, waited } = work_waiting(rt, alloc, job, sources, gate);
    conclude(job, names, &was, files, all, count, got, end, waited)
}

/// The end of a run, by the end of its workers. `was` is what the files were before any source was
/// got, `got` the sources as they were then, and `all` says whether all were got.
fn conclude<F: Files>(
    job: &Job,
    names: &[String],
    was: &Snapshot<F>,
    files: &F,
    all: bool,
    count: usize,
    got: Snapshot<Vec<F::Src>>,
    end: WorkEnd<F::Src>,
    waited: Option<Waited>,
) -> Outcome<F::Src>
    requires few { count ≤ 64 }
    requires number { count ≡ length got.value.items }
    requires come { HaveCome F.Src.Source (map string_bytes names.now)
        (inputs_of F.Files was.now.value files.now got.value.items 0) }
    requires all { HaveAllCome (map string_bytes names.now)
        (inputs_of F.Files was.now.value files.now got.value.items 0) all }
    requires end { EndsWork job.now F.Src.Source got.value.items end }
    ensures tells { TellsWork job.now F.Src.Source (map string_bytes names.now)
        (inputs_of F.Files was.now.value files.now result.sources.items result.read) result }
    ensures ends { ReadsOver job.now.longest F.Src.Source (map string_bytes names.now)
        result.got.items
        (inputs_of F.Files was.now.value files.now result.sources.items result.read) result.fault }
    ensures caused { (sink : Option TheCause) → result.cause
        ≡ cause_told F.Src.cause result.sources.items (F.cause files.now) sink result.fault }
    ensures waited { result.waited ≡ waited }
    ensures closed { (result.left ≡ end.left) × (result.passes ≡ end.passes)
        × (result.frames ≡ end.frames) }
    ensures wanting { IsErrOf end.result EndFault.NoMemory
        → (result.fault ≡ Some Fault.NoMemory) × (result.worked ≡ None) }
{
    let End {
        sources,
        result,
        left,
        passes,
        frames,
    } = end;
    match result {
        Ok(worked) => {
            if all {
                Outcome::answered(sources, worked).behind(got, left, passes, frames, waited)
            } else {
                let file = count as u32 + 1;
                Outcome::unopened(sources, file, files.cause()).behind(
                    got, left, passes, frames, waited,
                )
            }
        }
        Err(fault) => Outcome::of_work(sources, job.longest, fault).behind(
            got, left, passes, frames, waited,
        ),
    }
}
