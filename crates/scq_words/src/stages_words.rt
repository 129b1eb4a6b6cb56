ghost use Rattle.std.specs.Prelude.{◌≡◌, None, Some, map, string_bytes, IfOk};
ghost use Rattle.std.specs.Prelude.{IsErrOf};
ghost use Rattle.clap.specs.Words.{takes};
ghost use Rattle.scq_words.specs.declared.fault.WordsFault.{WordsFault as TheFault};
ghost use Rattle.scq_words.specs.Exports.{asked_of_stages, first_of_tests, staged, stages_asked};
ghost use Rattle.scq_words.specs.Exports.{stages_of, stages_tests, texts_of_stages, stages_app};
ghost use Rattle.scq_words.specs.Exports.{text_in, Answered, IsStagesInRange};

use crate::files::{MOST_FILES, files_of};
use crate::parsing::{parse, stages_command};
use crate::run_numbers::{RunNumbers, numbers_of};
use crate::{StagesRequest, WordsError, WordsFault};
use std::alloc::Global;

/// What the words after `stages` ask for.
pub fn read_stages(alloc: Global, words: &[String]) -> Result<StagesRequest, WordsError>
    ensures { let words = map string_bytes words.now in
        Answered (λ request. staged (stages_of request)) (asked_of_stages words)
        (takes stages_app words) result }
{
    let matches = parse(stages_command(alloc), words)?;
    let workers = matches.get_str("workers");
    let order = matches.get_str("order");
    let size = matches.get_str("size");
    let files = matches.get_strs("files").unwrap_or(&[]);
    check_stages(alloc, workers, order, size, files)
}

/// Makes the tests in their order.
fn check_stages(
    alloc: Global,
    workers: Option<&str>,
    order: Option<&str>,
    size: Option<&str>,
    files: &[&str],
) -> Result<StagesRequest, WordsError>
    ensures request { let texts =
        texts_of_stages (text_in workers.entry) (text_in order.entry) (text_in size.entry)
        (map (λ name. name.now) files.now) in
        IfOk result (λ request. (first_of_tests (stages_tests texts) ≡ None)
        × (stages_asked texts ≡ stages_of request)) }
    ensures refused { let texts =
        texts_of_stages (text_in workers.entry) (text_in order.entry) (text_in size.entry)
        (map (λ name. name.now) files.now) in
        (fault : TheFault) → IsErrOf result (WordsError.Refused fault)
        → first_of_tests (stages_tests texts) ≡ Some fault }
    ensures ranges { IfOk result (λ request. IsStagesInRange (stages_of request)) }
{
    let RunNumbers {
        workers,
        order,
        size,
    } = numbers_of(workers, order, size)?;
    let files = files_of(alloc, files, MOST_FILES, WordsFault::TooManyFiles)?;
    Ok(StagesRequest {
        workers,
        order,
        size,
        files,
    })
}
