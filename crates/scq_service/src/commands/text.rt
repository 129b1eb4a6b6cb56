//! The commands that read one whole file, `check` and `replay`.
ghost use Rattle.std.specs.Prelude.{◌≡◌, ◌⊎◌, Option, None, Ok, Err, IfOk, IfErr};
ghost use Rattle.scq_lines.specs.Exports.{lines_of};
ghost use Rattle.scq_words.specs.declared.text_request.TextCommand.{TextCommand as TheCommand};
ghost use Rattle.scq_service.specs.Answers.{HasNoWorkers};
ghost use Rattle.scq_service.specs.Ends.{Wrote, IsUnwritten, EndsWhole, IfContent, FileIsReadWhole};
ghost use Rattle.scq_service.specs.Ends.{inputs_of, wrote_of};
ghost use Rattle.scq_service.specs.Faults.{status_of};
ghost use Rattle.scq_service.specs.Telling.{Tells, IsOfText};
ghost use Rattle.scq_service.specs.Naming.{cause_told};
ghost use Rattle.scq_outside.specs.declared.cause.Cause.{Cause as TheCause};

use crate::writing::write_all;
use crate::{Fault, Outcome};
use scq_check::{HistoryFault, judge, read_history, verdict_text};
use scq_outside::{Failed, Files, ReadAllFault, Sink, read_all};
use scq_replay::{ScheduleFault, order_text, schedule_text};
use scq_word::Bytes;
use scq_words::TextCommand;
use std::alloc::Global;
use std::snapshot::Snapshot;

/// The greatest number of bytes of the file.
pub(crate) const MOST_TEXT: u64 = 1 << 24;

/// Gets the file, reads it whole, and writes what its text tells.
pub fn run_text<F: Files, K: Sink>(
    alloc: Global,
    command: TextCommand,
    name: &str,
    files: &mut F,
    out: &mut K,
) -> Outcome<F::Src>
    ensures status { result.status ≡ status_of result.fault }
    ensures ends { EndsWhole command F.Src.Source name.now result.got.items
        (inputs_of F.Files files.old files.new result.sources.items result.read)
        (wrote_of K.Sink out.old out.new) result.fault }
    ensures caused { result.cause ≡ cause_told F.Src.cause result.sources.items (F.cause files.new)
        (K.cause out.new) result.fault }
    ensures workless { HasNoWorkers result }
{
    match read_one(alloc, name, files) {
        Ok(whole) => match tell(alloc, command, whole.text.bytes()) {
            Ok(told) => match write_all(out, told.bytes()) {
                Ok(()) => Outcome::whole(whole.sources).behind(whole.got, None, None, None, None),
                Err(Failed) => Outcome::whole(whole.sources)
                    .behind(whole.got, None, None, None, None)
                    .unwritten(out.cause()),
            },
            Err(fault) => Outcome::at(whole.sources, fault).behind(
                whole.got, None, None, None, None,
            ),
        },
        Err(outcome) => outcome,
    }
}

/// The source of the file, in a list, the same as it was when it was got, and all that it gave.
#[derive(Drop)]
struct Whole<S> {
    sources: Vec<S>,
    got: Snapshot<Vec<S>>,
    text: Bytes,
}

/// Gets the file and reads it to its end, or says how the run ends.
fn read_one<F: Files>(
    alloc: Global,
    name: &str,
    files: &mut F,
) -> Result<Whole<F::Src>, Outcome<F::Src>>
    ensures whole { IfOk result (λ whole.
        FileIsReadWhole F.Src.Source name.now whole.got.value.items
        (inputs_of F.Files files.old files.new whole.sources.items 0)) }
    ensures text { IfOk result (λ whole.
        IfContent F.Src.left whole.got.value.items (λ content. content ≡ whole.text)) }
    ensures status { IfErr result (λ outcome. outcome.status ≡ status_of outcome.fault) }
    ensures worked { IfErr result (λ outcome. outcome.worked ≡ None) }
    ensures unstaged { IfErr result (λ outcome. outcome.staged ≡ None) }
    ensures left { IfErr result (λ outcome. outcome.left ≡ None) }
    ensures leaves { IfErr result (λ outcome. outcome.waited ≡ None) }
    ensures caused { IfErr result (λ outcome. (sink : Option TheCause) → outcome.cause
        ≡ cause_told F.Src.cause outcome.sources.items (F.cause files.new) sink outcome.fault) }
    ensures ends { IfErr result (λ outcome. (command : TheCommand) (w : Wrote) → IsUnwritten w
        → EndsWhole command F.Src.Source name.now outcome.got.items
        (inputs_of F.Files files.old files.new outcome.sources.items outcome.read) w
        outcome.fault) }
{
    let Ok(mut sources) = Vec::with_capacity(alloc, 1) else {
        return Err(Outcome::at(Vec::new(alloc), Fault::NoMemory));
    };
    let Ok(source) = files.source(name) else {
        return Err(Outcome::unopened(sources, 1, files.cause()));
    };
    sources.push_reserved(source);
    let got = Snapshot::of(&sources);
    match read_all(alloc, &mut sources[0], MOST_TEXT) {
        Ok(text) => Ok(Whole { sources, got, text }),
        Err(fault) => Err(Outcome::of_text(sources, fault).behind(got, None, None, None, None)),
    }
}

/// What the text tells the command, or its first line with a fault.
fn tell(alloc: Global, command: TextCommand, text: &[u8]) -> Result<Bytes, Fault>
    ensures told { IfOk result (λ told. Tells command (lines_of text.now) (Ok told)) }
    ensures refused { IfErr result (λ fault.
        (fault ≡ Fault.NoMemory)
        ⊎ (Tells command (lines_of text.now) (Err fault) × IsOfText command fault)) }
{
    match command {
        TextCommand::Check => judged(alloc, text),
        TextCommand::Replay => Ok(schedule_text(alloc, text)?),
        TextCommand::Order => Ok(order_text(alloc, text)?),
    }
}

/// The text of a history's verdict.
fn judged(alloc: Global, text: &[u8]) -> Result<Bytes, Fault>
    ensures told { IfOk result (λ told. Tells TextCommand.Check (lines_of text.now) (Ok told)) }
    ensures refused { IfErr result (λ fault. (fault ≡ Fault.NoMemory)
        ⊎ (Tells TextCommand.Check (lines_of text.now) (Err fault)
        × IsOfText TextCommand.Check fault)) }
{
    let history = read_history(alloc, text)?;
    let verdict = judge(alloc, history.opening.as_slice(), history.events.as_slice())?;
    Ok(verdict_text(alloc, &verdict)?)
}
