ghost use Rattle.std.specs.Prelude.{◌≡◌, map, string_bytes, IfOk};
ghost use Rattle.std.specs.Result.{result_err};
ghost use Rattle.scq_words.specs.Asked.{asked_of_self, first_of_tests, generated, self_asked};
ghost use Rattle.scq_words.specs.Asked.{self_of, self_tests, texts_of_self};
ghost use Rattle.clap.specs.Words.{takes};
ghost use Rattle.scq_words.specs.Commands.{self_app};
ghost use Rattle.scq_words.specs.Numbers.{text_in};
ghost use Rattle.scq_words.specs.Parsing.{Answered};
ghost use Rattle.scq_words.specs.Ranges.{IsSelfInRange};

use crate::number::optional_number;
use crate::parsing::{parse, self_command};
use crate::workers::workers_of;
use crate::{SelfRequest, WordsError, WordsFault};
use std::alloc::Global;

/// The order of the rings that a generated file goes through.
const ORDER: u32 = 6;

/// What the words after `self` ask for.
pub fn read_self(alloc: Global, words: &[String]) -> Result<SelfRequest, WordsError>
    ensures { let words = map string_bytes words.now in
        Answered (λ request. generated (self_of request)) (asked_of_self words)
        (takes self_app words) result }
{
    let matches = parse(self_command(alloc), words)?;
    let seed = matches.get_str("seed");
    let lines = matches.get_str("lines");
    let workers = matches.get_str("workers");
    match check_self(seed, lines, workers) {
        Ok(request) => Ok(request),
        Err(fault) => Err(WordsError::Refused(fault)),
    }
}

/// Makes the tests in their order.
fn check_self(
    seed: Option<&str>,
    lines: Option<&str>,
    workers: Option<&str>,
) -> Result<SelfRequest, WordsFault>
    ensures request { IfOk result (λ request.
        self_asked (texts_of_self (text_in seed.entry) (text_in lines.entry)
        (text_in workers.entry)) ≡ self_of request) }
    ensures refused { result_err result
        ≡ first_of_tests
        (self_tests (texts_of_self (text_in seed.entry) (text_in lines.entry)
        (text_in workers.entry))) }
    ensures ranges { IfOk result (λ request. IsSelfInRange (self_of request)) }
{
    let seed = optional_number(seed, 0, 0, 2147483647, WordsFault::Seed)?;
    let lines = optional_number(lines, 1, 1, 1000000, WordsFault::Lines)?;
    let given = optional_number(workers, 0, 1, 4096, WordsFault::Workers)?;
    let workers = workers_of(workers, given, ORDER);
    Ok(SelfRequest {
        seed,
        lines,
        workers,
    })
}
