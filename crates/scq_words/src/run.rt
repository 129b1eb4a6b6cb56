ghost use Rattle.std.specs.Prelude.{◌≡◌, ◌≤◌, None, Some, length, map};
ghost use Rattle.std.specs.Prelude.{string_bytes, IfOk, IsErrOf};
ghost use Rattle.std.specs.Result.{result_err};
ghost use Rattle.scq_words.specs.declared.fault.WordsFault.{WordsFault as TheFault};
ghost use Rattle.scq_words.specs.Exports.{asked_of_run, first_of_tests, is_given, refused_topics};
ghost use Rattle.scq_words.specs.Exports.{run, run_asked, asked_run, run_tests, texts_of_run};
ghost use Rattle.scq_words.specs.Exports.{topics_or_none, run_app, text_in, Answered, IsRunInRange};
ghost use Rattle.clap.specs.Words.{takes};

use crate::files::{MOST_FILES, files_of};
use crate::parsing::{parse, run_command};
use crate::run_numbers::{RunNumbers, numbers_of};
use crate::{RunRequest, WordsError, WordsFault};
use scq_topics::Topics;
use std::alloc::Global;

/// What the words after `run` ask for.
pub fn read_run(alloc: Global, words: &[String]) -> Result<RunRequest, WordsError>
    ensures { let words = map string_bytes words.now in
        Answered (λ request. run (asked_run request)) (asked_of_run words)
        (takes run_app words) result }
{
    let matches = parse(run_command(alloc), words)?;
    let workers = matches.get_str("workers");
    let order = matches.get_str("order");
    let size = matches.get_str("size");
    let topics = matches.get_str("topics");
    let batch = matches.get_str("batch");
    let report = matches.get_str("report");
    let files = matches.get_strs("files").unwrap_or(&[]);
    check_run(alloc, workers, order, size, topics, batch, report, files)
}

/// Makes the tests in their order.
fn check_run(
    alloc: Global,
    workers: Option<&str>,
    order: Option<&str>,
    size: Option<&str>,
    topics: Option<&str>,
    batch: Option<&str>,
    report: Option<&str>,
    files: &[&str],
) -> Result<RunRequest, WordsError>
    ensures request { let texts =
        texts_of_run (text_in workers.entry) (text_in order.entry) (text_in size.entry)
        (text_in topics.entry)
        (text_in batch.entry) (text_in report.entry) (map (λ name. name.now) files.now) in
        IfOk result (λ request.
        (first_of_tests (run_tests texts) ≡ None) × (run_asked texts ≡ asked_run request)) }
    ensures refused { let texts =
        texts_of_run (text_in workers.entry) (text_in order.entry) (text_in size.entry)
        (text_in topics.entry)
        (text_in batch.entry) (text_in report.entry) (map (λ name. name.now) files.now) in
        (fault : TheFault) → IsErrOf result (WordsError.Refused fault)
        → first_of_tests (run_tests texts) ≡ Some fault }
    ensures ranges { IfOk result (λ request. IsRunInRange (asked_run request)) }
{
    let RunNumbers {
        workers,
        order,
        size,
    } = numbers_of(workers, order, size)?;
    let topics = topics_of(topics)?;
    let files = files_of(alloc, files, MOST_FILES, WordsFault::TooManyFiles)?;
    Ok(RunRequest {
        workers,
        order,
        size,
        topics,
        batch: is_given(batch),
        report: is_given(report),
        files,
    })
}

/// Whether a flag is given: its text is `true` then.
pub fn is_given(text: Option<&str>) -> bool
    ensures { result ≡ is_given (text_in text.entry) }
{
    match text {
        Some(text) => text == "true",
        None => false,
    }
}

/// The declared topics, or none where no text is given.
fn topics_of(text: Option<&str>) -> Result<Topics, WordsFault>
    ensures refused { result_err result ≡ refused_topics (text_in text.entry) }
    ensures topics { IfOk result (λ topics. topics ≡ topics_or_none (text_in text.entry)) }
    ensures few { IfOk result (λ topics. length topics ≤ 16) }
{
    match text {
        Some(text) => match Topics::read(text) {
            Ok(topics) => Ok(topics),
            Err(fault) => Err(WordsFault::Topics(fault)),
        },
        None => Ok(Topics::none()),
    }
}
