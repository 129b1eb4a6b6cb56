ghost use Rattle.std.specs.Prelude.{◌≡◌, ◌≢◌, IfOk, map, string_bytes, true, false};
ghost use Rattle.clap.specs.Words.{App, Rule, app_of, is_simple_and_free, kind_of, rule_of};
ghost use Rattle.clap.specs.Words.{with_rule};
ghost use Rattle.scq_words.specs.Exports.{file_rule, files_rule, flag_rule, judge_app, named_app};
ghost use Rattle.scq_words.specs.Exports.{numbers_app, option_rule, plain_app, required_rule};
ghost use Rattle.scq_words.specs.Exports.{run_app, self_app, stages_app, text_app, Parses};

use crate::{TextCommand, WordsError, WordsFault};
use clap::error::ErrorKind;
use clap::{Arg, ArgAction, ArgMatches, Command, Error};
use std::alloc::{AllocError, Global};

/// The matches of the words, or the one fault of words that this command refuses.
pub fn parse<'a>(
    command: Result<Command<'a>, AllocError>,
    words: &'a [String],
) -> Result<ArgMatches<'a>, WordsError>
    ensures { (app : App) → is_simple_and_free app ≡ true
        → IfOk command.entry (λ command. app_of command ≡ app)
        → Parses app (map string_bytes words.entry.now) result }
{
    match command?.try_get_matches_from(words) {
        Ok(matches) => Ok(matches),
        Err(error) => Err(error_of(&error)),
    }
}

pub fn run_command<'a>(alloc: Global) -> Result<Command<'a>, AllocError>
    ensures { IfOk result (λ command. app_of command ≡ run_app) }
{
    let numbers = numbers_command(alloc, "run");
    let topics = with(numbers, option(alloc, "topics"));
    let batch = with(topics, flag(alloc, "batch"));
    let report = with(batch, flag(alloc, "report"));
    with(report, files(alloc))
}

/// A command with the options that are numbers of a run.
fn numbers_command<'a>(alloc: Global, name: &'a str) -> Result<Command<'a>, AllocError>
    ensures { IfOk result (λ command. app_of command ≡ numbers_app name.entry.now) }
{
    let workers = with(Ok(plain_command(alloc, name)), option(alloc, "workers"));
    let order = with(workers, option(alloc, "order"));
    with(order, option(alloc, "size"))
}

pub fn stages_command<'a>(alloc: Global) -> Result<Command<'a>, AllocError>
    ensures { IfOk result (λ command. app_of command ≡ stages_app) }
{
    with(numbers_command(alloc, "stages"), files(alloc))
}

pub fn self_command<'a>(alloc: Global) -> Result<Command<'a>, AllocError>
    ensures { IfOk result (λ command. app_of command ≡ self_app) }
{
    let seed = with(
        Ok(plain_command(alloc, "self")),
        required_option(alloc, "seed"),
    );
    let lines = with(seed, required_option(alloc, "lines"));
    with(lines, option(alloc, "workers"))
}

pub fn judge_command<'a>(alloc: Global) -> Result<Command<'a>, AllocError>
    ensures { IfOk result (λ command. app_of command ≡ judge_app) }
{
    let room = with(Ok(plain_command(alloc, "judge")), option(alloc, "room"));
    let strict = with(room, flag(alloc, "strict"));
    let order = with(strict, flag(alloc, "order"));
    with(order, files(alloc))
}

/// A command that takes one file.
pub fn text_command<'a>(alloc: Global, command: TextCommand) -> Result<Command<'a>, AllocError>
    ensures { IfOk result (λ app. app_of app ≡ text_app command) }
{
    with(named_command(alloc, command), file(alloc))
}

fn named_command<'a>(alloc: Global, command: TextCommand) -> Result<Command<'a>, AllocError>
    ensures { IfOk result (λ app. app_of app ≡ named_app command) }
{
    match command {
        TextCommand::Check => Ok(plain_command(alloc, "check")),
        TextCommand::Replay | TextCommand::Order => {
            with(Ok(plain_command(alloc, "replay")), flag(alloc, "order"))
        }
    }
}

/// A command that reads the words as they are, with neither help nor version.
fn plain_command<'a>(alloc: Global, name: &'a str) -> Command<'a>
    ensures { app_of result ≡ plain_app name.entry.now }
{
    Command::new(alloc, name)
        .no_binary_name(true)
        .disable_help_flag(true)
        .disable_version_flag(true)
}

/// The command with an argument more, which is not for commands below it.
fn with<'a>(
    command: Result<Command<'a>, AllocError>,
    arg: Arg<'a>,
) -> Result<Command<'a>, AllocError>
    ensures { (app : App) (rule : Rule) → arg.entry.global ≡ false
        → IfOk command.entry (λ command. app_of command ≡ app) → rule_of arg.entry ≡ rule
        → IfOk result (λ command. app_of command ≡ with_rule app rule) }
{
    command?.arg(arg)
}

/// One or more files.
fn files<'a>(alloc: Global) -> Arg<'a>
    ensures rule { rule_of result ≡ files_rule }
    ensures local { result.global ≡ false }
{
    Arg::new(alloc, "files")
        .required(true)
        .action(ArgAction::Append)
}

/// The one file.
fn file<'a>(alloc: Global) -> Arg<'a>
    ensures rule { rule_of result ≡ file_rule }
    ensures local { result.global ≡ false }
{
    Arg::new(alloc, "file").required(true)
}

/// `--name VALUE` or `--name=VALUE`.
fn option<'a>(alloc: Global, name: &'a str) -> Arg<'a>
    ensures rule { rule_of result ≡ option_rule name.entry.now }
    ensures local { result.global ≡ false }
{
    Arg::new(alloc, name).long(name)
}

/// The same, which must be given.
fn required_option<'a>(alloc: Global, name: &'a str) -> Arg<'a>
    ensures rule { rule_of result ≡ required_rule name.entry.now }
    ensures local { result.global ≡ false }
{
    option(alloc, name).required(true)
}

/// `--name`.
fn flag<'a>(alloc: Global, name: &'a str) -> Arg<'a>
    ensures rule { rule_of result ≡ flag_rule name.entry.now }
    ensures local { result.global ≡ false }
{
    option(alloc, name).action(ArgAction::SetTrue)
}

/// Want of memory stays one; every other error is that the words are not understood.
fn error_of(error: &Error) -> WordsError
    ensures { result ≢ WordsError.NoMemory
        → (result ≡ WordsError.Refused WordsFault.NotUnderstood)
        × (kind_of error.now ≢ ErrorKind.OutOfMemory) }
{
    match error.kind() {
        ErrorKind::OutOfMemory => WordsError::NoMemory,
        _ => WordsError::Refused(WordsFault::NotUnderstood),
    }
}
