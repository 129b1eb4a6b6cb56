//! The command `judge`, which reads recordings.

ghost use Rattle.std.specs.Prelude.{◌≡◌, ◌≤◌, ◌==◌, ℕ, List, Option, Some, None, length, map};
ghost use Rattle.std.specs.Prelude.{string_bytes, true, IfOk, IfErr};
ghost use Rattle.scq_judge.specs.Exports.{HaveContents, AreReadWhole};
ghost use Rattle.scq_service.specs.Answers.{HasNoWorkers};
ghost use Rattle.scq_service.specs.Ends.{EndsRecorded, EndsUntold, HasGotSources, HaveAll};
ghost use Rattle.scq_service.specs.Ends.{end_of_report, inputs_of, wrote_of, IsWritten};
ghost use Rattle.scq_service.specs.Ends.{IsToldOf, IsToWrite, IsUntoldOf};
ghost use Rattle.scq_service.specs.Faults.{status_of};
ghost use Rattle.scq_service.specs.Naming.{cause_of_read, cause_of_write, cause_told};
ghost use Rattle.scq_outside.specs.declared.cause.Cause.{Cause as TheCause};

use crate::writing::write_all;
use crate::{Fault, LetGo, Outcome, Sources};
use scq_judge::{Finding, JudgeFault, Judged, Ordered, Reader};
use scq_outside::{Cause, Failed, Files, Sink, Source};
use std::alloc::Global;

/// Gets the files of recordings one after the other and reads each to its end before it gets the
/// next, so that at most one is open at a time, and writes the report of their merged history. At
/// the first file with a fault of its own, or that isn't got, it ends, and gets none behind it.
/// Where it is told for how many values each queue had room, refused puts are judged too. A strict
/// run ends with a fault where a line of the report, which is written, doesn't hold. Where an order
/// is asked for it is written in the report's place, and where none was found nothing is.
pub fn run_judge<F: Files, K: Sink>(
    alloc: Global,
    room: Option<u32>,
    strict: bool,
    order: bool,
    names: &[String],
    files: &mut F,
    out: &mut K,
) -> Outcome<F::Src>
    requires { length names.now ≤ 4096 }
    ensures status { result.status ≡ status_of result.fault }
    ensures got { HasGotSources F.Src.Source (map string_bytes names.now) result.got.items
        (inputs_of F.Files files.old files.new result.sources.items result.read) }
    ensures ends { EndsRecorded F.Src.Source room strict order (map string_bytes names.now)
        result.got.items
        (inputs_of F.Files files.old files.new result.sources.items result.read)
        (wrote_of K.Sink out.old out.new) result.fault }
    ensures caused { result.cause ≡ cause_told F.Src.cause result.sources.items (F.cause files.new)
        (K.cause out.new) result.fault }
    ensures workless { HasNoWorkers result }
{
    let Reported {
        report,
        cause,
        got,
        sources,
    } = report_on(alloc, room, order, names, files);
    match report {
        Ok(judged) => {
            let end = write_report(out, strict, &judged);
            let cause = of_write(out.cause(), &end);
            ended(alloc, end, got, sources, cause)
        }
        Err(fault) => ended(alloc, Some(fault), got, sources, cause),
    }
}

/// The end of a run over these sources, with this cause.
fn ended<S: Source>(
    alloc: Global,
    end: Option<Fault>,
    got: Sources<S>,
    sources: LetGo<S>,
    cause: Option<Cause>,
) -> Outcome<S>
    ensures status { result.status ≡ status_of end }
    ensures fault { result.fault ≡ end }
    ensures cause { result.cause ≡ cause }
    ensures got { result.got ≡ got }
    ensures sources { result.sources ≡ sources }
    ensures read { result.read ≡ 0 }
    ensures workless { HasNoWorkers result }
{
    match end {
        None => Outcome::whole(Vec::new(alloc)).over(got, sources, cause),
        Some(fault) => Outcome::at(Vec::new(alloc), fault).over(got, sources, cause),
    }
}

/// Writes a report, and says how the run ends.
fn write_report<K: Sink>(out: &mut K, strict: bool, judged: &Judged) -> Option<Fault>
    ensures { IsWritten strict judged.now (wrote_of K.Sink out.old out.new) result }
{
    match write_all(out, judged.text.bytes()) {
        Ok(()) => end_of_report(strict, judged.worst),
        Err(Failed) => Some(Fault::WriteFault),
    }
}

/// How a run ends whose report was written, by the worst that one of its lines says.
fn end_of_report(strict: bool, worst: Finding) -> Option<Fault>
    ensures { result ≡ end_of_report strict worst }
{
    match worst {
        Finding::Fails if strict => Some(Fault::AspectFails),
        Finding::NotTested if strict => Some(Fault::NotTested),
        _ => None,
    }
}

/// What a sink says of its last fault, where this is a write to it that failed.
fn of_write(cause: Option<Cause>, end: &Option<Fault>) -> Option<Cause>
    ensures { result ≡ cause_of_write cause end.now }
{
    match end {
        Some(Fault::WriteFault) => cause,
        _ => None,
    }
}

/// What is to be written of recordings, or why nothing is, with what the system says of it, and, for
/// contracts alone, the sources that were got, as they were then and as they were let go.
#[derive(Drop)]
struct Reported<S> {
    report: Result<Judged, Fault>,
    cause: Option<Cause>,
    got: Sources<S>,
    sources: LetGo<S>,
}

/// Gets each file, reads it and lets it go, and tells what all of them say.
fn report_on<F: Files>(
    alloc: Global,
    room: Option<u32>,
    order: bool,
    names: &[String],
    files: &mut F,
) -> Reported<F::Src>
    requires { length names.now ≤ 4096 }
    ensures got { HasGotSources F.Src.Source (map string_bytes names.now) result.got.items
        (inputs_of F.Files files.old files.new result.sources.items 0) }
    ensures all { IfOk result.report (λ _. HaveAll (map string_bytes names.now)
        (inputs_of F.Files files.old files.new result.sources.items 0)) }
    ensures whole { IfOk result.report (λ _. AreReadWhole F.Src.faults F.Src.ends F.Src.left
        (length (map string_bytes names.now)) result.got.items result.sources.items) }
    ensures judged { IfOk result.report (λ judged. (contents : List (List ℕ))
        → HaveContents F.Src.left result.got.items contents
        → IsToWrite room order (map string_bytes names.now) contents judged) }
    ensures holds { IfOk result.report (λ judged. order ≡ true
        → judged.worst ≡ Finding.Holds) }
    ensures refused { IfErr result.report
        (EndsUntold F.Src.Source order (map string_bytes names.now) result.got.items
        (inputs_of F.Files files.old files.new result.sources.items 0)) }
    ensures caused { IfErr result.report (λ fault. (sink : Option TheCause) → result.cause
        ≡ cause_told F.Src.cause result.sources.items (F.cause files.new) sink (Some fault)) }
{
    let mut reader = Reader::new(alloc, names.len() == 1);
    let mut got = Sources::none();
    let mut sources = LetGo::none();
    let mut file = 0;
    'files: for name in names {
        file += 1;
        match files.source(name.as_str()) {
            Ok(mut source) => {
                got = got.with(&source);
                let read = reader.read(alloc, &mut source);
                let cause = source.cause();
                sources = sources.and(source);
                match read {
                    Ok(()) => {}
                    Err(fault) => {
                        return Reported {
                            report: Err(Fault::from(fault)),
                            cause: of_read(cause, &fault),
                            got,
                            sources,
                        };
                    }
                }
            }
            Err(Failed) => {
                return Reported {
                    report: Err(Fault::OpenFault { file }),
                    cause: files.cause(),
                    got,
                    sources,
                };
            }
        }
    }
    Reported {
        report: tell(alloc, reader, room, order, names),
        cause: None,
        got,
        sources,
    }
}

/// What is to be written of recordings that were read: their report, or, where it is asked for, an
/// order, which shows that nothing fails.
fn tell(
    alloc: Global,
    reader: Reader,
    room: Option<u32>,
    order: bool,
    names: &[String],
) -> Result<Judged, Fault>
    ensures told { IfOk result
        (IsToldOf room order (map string_bytes names.now) reader.recorded) }
    ensures holds { IfOk result (λ told. order ≡ true → told.worst ≡ Finding.Holds) }
    ensures untold { IfErr result (IsUntoldOf order reader.recorded) }
{
    if order {
        match reader.order(alloc)? {
            Ordered::Order(text) => Ok(Judged {
                text,
                worst: Finding::Holds,
            }),
            Ordered::NotLinearizable => Err(Fault::NotLinearizable),
            Ordered::NeverEnded => Err(Fault::NeverEnded),
            Ordered::NotFound => Err(Fault::NotFound),
        }
    } else {
        Ok(reader.judge(alloc, room, names)?)
    }
}

/// What a source says of its last fault, where this is a read of it that failed.
fn of_read(cause: Option<Cause>, fault: &JudgeFault) -> Option<Cause>
    ensures { result ≡ cause_of_read cause fault.now }
{
    match fault {
        JudgeFault::ReadFault { .. } => cause,
        _ => None,
    }
}
