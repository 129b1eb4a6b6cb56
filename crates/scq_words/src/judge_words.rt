ghost use Rattle.std.specs.Prelude.{◌≡◌, ◌≤◌, None, Some, map};
ghost use Rattle.std.specs.Prelude.{string_bytes, IfOk, IfSome, IsErrOf};
ghost use Rattle.scq_words.specs.declared.fault.WordsFault.{WordsFault as TheFault};
ghost use Rattle.scq_words.specs.Exports.{asked_of_judge, first_of_tests, judge_of, judge_tests};
ghost use Rattle.scq_words.specs.Exports.{judge_asked, judge_takes, judged, room_of};
ghost use Rattle.scq_words.specs.Exports.{is_beside, texts_of_judge};
ghost use Rattle.scq_words.specs.Exports.{number_or};
ghost use Rattle.scq_words.specs.Exports.{text_in, Answered, IsJudgeInRange};

use crate::files::{MOST_RECORDINGS, files_of};
use crate::number::optional_number;
use crate::parsing::{judge_command, parse};
use crate::request::JudgeRequest;
use crate::run::is_given;
use crate::{WordsError, WordsFault};
use std::alloc::Global;

/// What the words after `judge` ask for.
pub(crate) fn read_judge(alloc: Global, words: &[String]) -> Result<JudgeRequest, WordsError>
    ensures { let words = map string_bytes words.now in
        Answered (λ request. judged (judge_of request)) (asked_of_judge words)
        (judge_takes words) result }
{
    let matches = parse(judge_command(alloc), words)?;
    let room = matches.get_str("room");
    let strict = matches.get_str("strict");
    let order = matches.get_str("order");
    let files = matches.get_strs("files").unwrap_or(&[]);
    check_judge(alloc, room, strict, order, files)
}

/// Makes the tests in their order.
fn check_judge(
    alloc: Global,
    room: Option<&str>,
    strict: Option<&str>,
    order: Option<&str>,
    files: &[&str],
) -> Result<JudgeRequest, WordsError>
    ensures request { let texts =
        texts_of_judge (text_in room.entry) (text_in strict.entry) (text_in order.entry)
        (map (λ name. name.now) files.now) in
        IfOk result (λ request.
        (first_of_tests (judge_tests texts) ≡ None) × (judge_asked texts ≡ judge_of request)) }
    ensures refused { let texts =
        texts_of_judge (text_in room.entry) (text_in strict.entry) (text_in order.entry)
        (map (λ name. name.now) files.now) in
        (fault : TheFault) → IsErrOf result (WordsError.Refused fault)
        → first_of_tests (judge_tests texts) ≡ Some fault }
    ensures ranges { IfOk result (λ request. IsJudgeInRange (judge_of request)) }
{
    if is_beside(room, strict, order) {
        return Err(WordsError::Refused(WordsFault::NotUnderstood));
    }
    let number = optional_number(room, 1, 1, u32::MAX, WordsFault::Room)?;
    let files = files_of(alloc, files, MOST_RECORDINGS, WordsFault::TooManyRecordings)?;
    Ok(JudgeRequest {
        room: room_given(room, number),
        strict: is_given(strict),
        order: is_given(order),
        files,
    })
}

// Whether an order is asked for together with what is asked of a report.
fn is_beside(room: Option<&str>, strict: Option<&str>, order: Option<&str>) -> bool
    ensures { result
        ≡ is_beside (text_in room.entry) (text_in strict.entry) (text_in order.entry) }
{
    is_given(order) && (room.is_some() || is_given(strict))
}

// The room, if it is given.
fn room_given(text: Option<&str>, number: u32) -> Option<u32>
    requires { number ≡ number_or 1 (text_in text) }
    ensures room { result ≡ room_of (text_in text.entry) }
    ensures range { (1 ≤ number) × (number ≤ 4294967295)
        → IfSome result (λ n. (1 ≤ n) × (n ≤ 4294967295)) }
{
    match text {
        None => None,
        Some(_) => Some(number),
    }
}
