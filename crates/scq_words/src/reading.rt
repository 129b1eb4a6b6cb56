ghost use Rattle.std.specs.Prelude.{◌≡◌, Ok, Err, false, map, string_bytes, IfOk, IsErrOf};
ghost use Rattle.scq_words.specs.declared.fault.WordsFault.{WordsFault as TheFault};
ghost use Rattle.scq_words.specs.Exports.{asked, asked_by, asked_for_run, run, asked_run};
ghost use Rattle.scq_words.specs.Exports.{IsInRange, IsRunInRange, is_accepted, is_taken_for_run};

use crate::judge_words::read_judge;
use crate::run::read_run;
use crate::self_words::read_self;
use crate::stages_words::read_stages;
use crate::text_request::read_text;
use crate::{Request, RunRequest, TextCommand, WordsError, WordsFault};
use std::alloc::Global;

/// What the words ask for, which are the program's arguments without its own name. They are refused
/// by the first test that holds, in the order of `WordsFault`'s table in docs/FORMATS.md; want of
/// memory may come at any time.
pub fn read_words(alloc: Global, words: &[String]) -> Result<Request, WordsError>
    ensures request { IfOk result (λ request.
        asked (map string_bytes words.now) ≡ Ok (asked_by request)) }
    ensures refused { (fault : TheFault) → IsErrOf result (WordsError.Refused fault)
        → asked (map string_bytes words.now) ≡ Err fault }

    // `clap` refuses no words that it is said to take. What is asked is in its ranges.
    ensures taken { IsErrOf result (WordsError.Refused WordsFault.NotUnderstood)
        → is_accepted (map string_bytes words.now) ≡ false }
    ensures ranges { IfOk result (λ request. IsInRange (asked_by request)) }
{
    match words {
        [command, rest @ ..] => match command.as_str() {
            "run" => read_run(alloc, rest).map(Request::Run),
            "self" => read_self(alloc, rest).map(Request::SelfRun),
            "judge" => read_judge(alloc, rest).map(Request::Judge),
            "check" => read_text(alloc, TextCommand::Check, rest).map(Request::Text),
            "replay" => read_text(alloc, TextCommand::Replay, rest).map(Request::Text),
            "stages" => read_stages(alloc, rest).map(Request::Stages),
            _ => Err(WordsError::Refused(WordsFault::NotUnderstood)),
        },
        [] => Err(WordsError::Refused(WordsFault::NotUnderstood)),
    }
}

/// The same for a program that understands `run` alone.
pub fn read_run_words(alloc: Global, words: &[String]) -> Result<RunRequest, WordsError>
    ensures request { IfOk result (λ request.
        asked_for_run (map string_bytes words.now) ≡ Ok (run (asked_run request))) }
    ensures refused { (fault : TheFault) → IsErrOf result (WordsError.Refused fault)
        → asked_for_run (map string_bytes words.now) ≡ Err fault }
    ensures taken { IsErrOf result (WordsError.Refused WordsFault.NotUnderstood)
        → is_taken_for_run (map string_bytes words.now) ≡ false }
    ensures ranges { IfOk result (λ request. IsRunInRange (asked_run request)) }
{
    match words {
        [command, rest @ ..] => match command.as_str() {
            "run" => read_run(alloc, rest),
            _ => Err(WordsError::Refused(WordsFault::NotUnderstood)),
        },
        [] => Err(WordsError::Refused(WordsFault::NotUnderstood)),
    }
}
