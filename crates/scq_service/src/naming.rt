//! The lines behind a fault's line, which name the files that it numbers, say what was tested of
//! the words, and tell the system's cause. They take no memory.
ghost use Rattle.std.specs.Prelude.{◌≡◌, ◌<◌, ◌++◌, [], codes, map, string_bytes};
ghost use Rattle.scq_judge.specs.Telling.{hex_digit};
ghost use Rattle.scq_service.specs.Exports.{is_plain, file_line, fault_line, shown};
ghost use Rattle.scq_service.specs.Exports.{name_line, shown_byte, HasWritten};
ghost use Rattle.scq_service.specs.Exports.{command_line, fault_lines, is_line, option_line};
ghost use Rattle.scq_service.specs.Exports.{text_is, word_line, words_lines};
ghost use Rattle.scq_service.specs.Exports.{cause_line, cause_words, caused_lines};

use crate::Fault;
use crate::reporting::{write_about, write_fault, write_part};
use scq_outside::{Cause, Failed, Sink};
use scq_words::{WordsFault, is_command, option_text};
use std::slice;

/// The names of the files that are asked for.
#[derive(Drop)]
pub(crate) enum Names {
    Nothing,
    One(String),
    These(Vec<String>),
}

impl Names {
    ghost use Rattle.std.specs.Prelude.{◌≡◌, map, string_bytes};
    ghost use Rattle.scq_service.specs.Names.{names_in};

    pub fn as_slice(&self) -> &[String]
        ensures { map string_bytes result.now ≡ names_in self.now }
    {
        match self {
            Names::Nothing => &[],
            Names::One(name) => slice::from_ref(name),
            Names::These(names) => names.as_slice(),
        }
    }
}

/// Writes the line about a fault, and the lines behind it.
pub(crate) fn report_named<K: Sink>(
    sink: &mut K,
    run_alone: bool,
    words: &[String],
    names: &[String],
    cause: Option<Cause>,
    fault: &Fault,
) -> Result<(), Failed>
    ensures { HasWritten K.Sink sink.old sink.new (fault_line fault.now
        ++ caused_lines run_alone (map string_bytes words.now) (map string_bytes names.now) cause
        fault.now) result }
{
    write_fault(sink, fault)?;
    write_caused(sink, run_alone, words, names, cause, fault)
}

fn write_caused<K: Sink>(
    sink: &mut K,
    run_alone: bool,
    words: &[String],
    names: &[String],
    cause: Option<Cause>,
    fault: &Fault,
) -> Result<(), Failed>
    ensures { HasWritten K.Sink sink.old sink.new
        (caused_lines run_alone (map string_bytes words.now) (map string_bytes names.now) cause
        fault.now) result }
{
    write_behind(sink, run_alone, words, names, fault)?;
    write_cause(sink, cause)
}

fn write_behind<K: Sink>(
    sink: &mut K,
    run_alone: bool,
    words: &[String],
    names: &[String],
    fault: &Fault,
) -> Result<(), Failed>
    ensures { HasWritten K.Sink sink.old sink.new
        (fault_lines run_alone (map string_bytes words.now) (map string_bytes names.now) fault.now)
        result }
{
    match fault {
        Fault::Words(fault) => write_words(sink, run_alone, words, fault),
        Fault::OpenFault { file } => write_name(sink, names, *file),
        Fault::ReadFault { file } => write_name(sink, names, *file),
        Fault::TooLong { file, .. } => write_name(sink, names, *file),
        Fault::TooLarge { file, .. } => write_name(sink, names, *file),
        Fault::WriteFault => Ok(()),
        Fault::BadLine { .. } => Ok(()),
        Fault::NotEnabled { .. } => Ok(()),
        Fault::Unlawful { .. } => Ok(()),
        Fault::Unfinished { .. } => Ok(()),
        Fault::BadLineOf { file, .. } => write_name(sink, names, *file),
        Fault::SharedOf {
            file,
            other_file,
            ..
        } => write_both(sink, names, *file, *other_file),
        Fault::TwoRunsOf {
            file,
            other_file,
            ..
        } => write_both(sink, names, *file, *other_file),
        Fault::UnlawfulOf { file, .. } => write_name(sink, names, *file),
        Fault::AspectFails => Ok(()),
        Fault::NotTested => Ok(()),
        Fault::NotLinearizable => Ok(()),
        Fault::NeverEnded => Ok(()),
        Fault::NotFound => Ok(()),
        Fault::NoMemory => Ok(()),
    }
}

/// Writes which words are refused, as far as that is known.
fn write_words<K: Sink>(
    sink: &mut K,
    run_alone: bool,
    words: &[String],
    fault: &WordsFault,
) -> Result<(), Failed>
    ensures { HasWritten K.Sink sink.old sink.new
        (words_lines run_alone (map string_bytes words.now) fault.now) result }
{
    match fault {
        WordsFault::NotUnderstood => write_command(sink, run_alone, words),
        WordsFault::Workers => write_option(sink, b"workers", b"--workers", words),
        WordsFault::Order => write_option(sink, b"order", b"--order", words),
        WordsFault::Size => write_option(sink, b"size", b"--size", words),
        WordsFault::Topics(_) => write_option(sink, b"topics", b"--topics", words),
        WordsFault::Seed => write_option(sink, b"seed", b"--seed", words),
        WordsFault::Lines => write_option(sink, b"lines", b"--lines", words),
        WordsFault::Room => write_option(sink, b"room", b"--room", words),
        WordsFault::TooManyFiles => Ok(()),
        WordsFault::TooManyRecordings => Ok(()),
        WordsFault::NoName { .. } => Ok(()),
    }
}

/// Writes the first word, where it is no command.
fn write_command<K: Sink>(sink: &mut K, run_alone: bool, words: &[String]) -> Result<(), Failed>
    ensures { HasWritten K.Sink sink.old sink.new
        (command_line run_alone (map string_bytes words.now)) result }
{
    match words {
        [word, ..] => write_word(sink, run_alone, word.as_str()),
        [] => Ok(()),
    }
}

fn write_word<K: Sink>(sink: &mut K, run_alone: bool, word: &str) -> Result<(), Failed>
    ensures { HasWritten K.Sink sink.old sink.new (word_line run_alone word.now) result }
{
    if is_command(word, run_alone) {
        Ok(())
    } else {
        write_is(sink, b"word 1", word.as_bytes())
    }
}

/// Writes the text of an option, where it is given.
fn write_option<K: Sink>(
    sink: &mut K,
    name: &[u8],
    option: &[u8],
    words: &[String],
) -> Result<(), Failed>
    ensures { HasWritten K.Sink sink.old sink.new
        (option_line name.now option.now (map string_bytes words.now)) result }
{
    match option_text(words, option) {
        Some(text) => write_is(sink, name, text),
        None => Ok(()),
    }
}

/// Writes what the system says of a fault, where it is known.
fn write_cause<K: Sink>(sink: &mut K, cause: Option<Cause>) -> Result<(), Failed>
    ensures { HasWritten K.Sink sink.old sink.new (cause_line cause) result }
{
    match cause {
        Some(cause) => write_is(sink, b"cause", cause_words(cause)),
        None => Ok(()),
    }
}

fn cause_words(cause: Cause) -> &'static [u8]
    ensures { result.now ≡ cause_words cause }
{
    match cause {
        Cause::NotFound => b"not found",
        Cause::PermissionDenied => b"permission denied",
        Cause::NotADirectory => b"not a directory",
        Cause::IsADirectory => b"a directory",
        Cause::FilesystemLoop => b"filesystem loop",
        Cause::InvalidFilename => b"invalid filename",
        Cause::InvalidInput => b"invalid input",
        Cause::StaleNetworkFileHandle => b"stale network file handle",
        Cause::WouldBlock => b"operation would block",
        Cause::ConnectionReset => b"connection reset",
        Cause::TimedOut => b"timed out",
        Cause::BrokenPipe => b"broken pipe",
        Cause::StorageFull => b"no storage space",
        Cause::QuotaExceeded => b"quota exceeded",
        Cause::FileTooLarge => b"file too large",
        Cause::ReadOnlyFilesystem => b"read-only filesystem",
        Cause::ResourceBusy => b"resource busy",
        Cause::OutOfMemory => b"out of memory",
    }
}

/// Writes a name, and what it is.
fn write_is<K: Sink>(sink: &mut K, name: &[u8], text: &[u8]) -> Result<(), Failed>
    ensures { HasWritten K.Sink sink.old sink.new (is_line name.now text.now) result }
{
    write_part(sink, name)?;
    write_text(sink, text)
}

/// Writes the names of two files.
fn write_both<K: Sink>(
    sink: &mut K,
    names: &[String],
    file: u32,
    other_file: u32,
) -> Result<(), Failed>
    ensures { HasWritten K.Sink sink.old sink.new (name_line (map string_bytes names.now) file
        ++ name_line (map string_bytes names.now) other_file) result }
{
    write_name(sink, names, file)?;
    write_name(sink, names, other_file)
}

/// Writes the name of a file, where it is one of these.
fn write_name<K: Sink>(sink: &mut K, names: &[String], file: u32) -> Result<(), Failed>
    ensures { HasWritten K.Sink sink.old sink.new (name_line (map string_bytes names.now) file)
        result }
{
    match names.get((file as usize).saturating_sub(1)) {
        Some(name) => write_named(sink, file, name.as_str()),
        None => Ok(()),
    }
}

fn write_named<K: Sink>(sink: &mut K, file: u32, name: &str) -> Result<(), Failed>
    ensures { HasWritten K.Sink sink.old sink.new (file_line file [] ++ text_is name.now) result }
{
    write_about(sink, file, b"")?;
    write_text(sink, name.as_bytes())
}

/// Writes ` is `, a text and the line's end.
fn write_text<K: Sink>(sink: &mut K, text: &[u8]) -> Result<(), Failed>
    ensures { HasWritten K.Sink sink.old sink.new (text_is text.now) result }
{
    write_part(sink, b" is ")?;
    write_ended(sink, text)
}

fn write_ended<K: Sink>(sink: &mut K, text: &[u8]) -> Result<(), Failed>
    ensures { HasWritten K.Sink sink.old sink.new (shown text.now ++ codes "\n") result }
{
    write_shown(sink, text)?;
    write_part(sink, b"\n")
}

/// Writes a text byte by byte, since what is escaped has no place of its own.
fn write_shown<K: Sink>(sink: &mut K, text: &[u8]) -> Result<(), Failed>
    ensures { HasWritten K.Sink sink.old sink.new (shown text.now) result }
{
    for byte in text {
        write_byte(sink, *byte)?;
    }
    Ok(())
}

fn write_byte<K: Sink>(sink: &mut K, byte: u8) -> Result<(), Failed>
    ensures { HasWritten K.Sink sink.old sink.new (shown_byte byte) result }
{
    if is_plain(byte) {
        write_part(sink, &[byte])
    } else {
        write_part(
            sink,
            &[b'\\', b'x', hex_digit(byte / 16), hex_digit(byte % 16)],
        )
    }
}

/// Whether a byte is written as it is: it is none of ASCII's control characters, nor the backslash.
fn is_plain(byte: u8) -> bool
    ensures { result ≡ is_plain byte }
{
    !(byte < 32 || byte == b'\\' || byte == 127)
}

fn hex_digit(number: u8) -> u8
    requires { number < 16 }
    ensures { result ≡ hex_digit number }
{
    if number < 10 {
        number + b'0'
    } else {
        number - 10 + b'a'
    }
}
