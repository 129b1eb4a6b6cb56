ghost use Rattle.std.specs.Prelude.{◌≡◌, map, string_bytes};
ghost use Rattle.clap.specs.Words.{takes};
ghost use Rattle.scq_words.specs.Commands.{text_app};
ghost use Rattle.scq_words.specs.Asked.{asked_of_text, text_of, whole, with_flag};
ghost use Rattle.scq_words.specs.Parsing.{Answered};

use crate::parsing::{parse, text_command};
use crate::run::is_given;
use crate::{WordsError, WordsFault};
use std::alloc::Global;

/// A command that reads one whole file, and writes what its text tells.
#[derive(Clone, Copy, Debug, PartialEq, Eq)]
pub enum TextCommand {
    /// Judges the history that the file holds.
    Check,
    /// Runs the schedule that the file holds.
    Replay,
    /// Runs it, and writes the one-thread order of each ring.
    Order,
}

/// What is asked of one file, which has a name.
#[derive(Drop)]
pub struct TextRequest {
    pub command: TextCommand,
    pub file: String,
}

/// What the words after the command, which is `check` or `replay`, ask for.
pub(crate) fn read_text(
    alloc: Global,
    command: TextCommand,
    words: &[String],
) -> Result<TextRequest, WordsError>
    ensures { let words = map string_bytes words.now in
        Answered (λ request. whole (text_of request)) (asked_of_text command words)
        (takes (text_app command) words) result }
{
    let matches = parse(text_command(alloc, command), words)?;
    let name = matches.get_str("file").unwrap_or("");
    if name.is_empty() {
        return Err(WordsError::Refused(WordsFault::NoName { file: 1 }));
    }
    let command = with_flag(command, is_given(matches.get_str("order")));
    let file = String::from_str(alloc, name)?;
    Ok(TextRequest { command, file })
}

/// `replay` asks for orders where the flag is given.
fn with_flag(command: TextCommand, given: bool) -> TextCommand
    ensures { result ≡ with_flag command given }
{
    match command {
        TextCommand::Replay if given => TextCommand::Order,
        command => command,
    }
}
