ghost use Rattle.std.specs.Prelude.{◌≡◌, ◌++◌, codes, decimal, OnOk, OnErr};
ghost use Rattle.scq_outside.specs.Exports.{Rose};
ghost use Rattle.scq_service.specs.Exports.{entry_line, fault_line, file_line, limit_line};
ghost use Rattle.scq_service.specs.Exports.{payload_line, place_line, run_line, seat_line};
ghost use Rattle.scq_service.specs.Exports.{shared_words, text_line, topics_line, words_line};
ghost use Rattle.scq_service.specs.Exports.{written_with, WrotePart, HasWritten};

use crate::Fault;
use crate::writing::write_all;
use itoa::Buffer;
use scq_judge::Shared;
use scq_outside::{Failed, Sink};
use scq_topics::TopicFault;
use scq_words::WordsFault;

/// Writes the line about a fault. It takes no memory, so that want of memory can be reported too.
pub fn report<K: Sink>(sink: &mut K, fault: &Fault) -> Result<(), Failed>
    ensures whole { OnOk result (K.written sink.new
        ≡ written_with (K.written sink.old) (fault_line fault.now)) }
    ensures part { WrotePart (K.written sink.old) (K.written sink.new) (fault_line fault.now) }
    ensures kept { OnOk result (K.faults sink.new ≡ K.faults sink.old) }
    ensures rose { OnErr result (Rose (K.faults sink.old) (K.faults sink.new)) }
{
    write_fault(sink, fault)
}

pub(crate) fn write_fault<K: Sink>(sink: &mut K, fault: &Fault) -> Result<(), Failed>
    ensures { HasWritten K.Sink sink.old sink.new (fault_line fault.now) result }
{
    match fault {
        Fault::Words(fault) => write_words(sink, fault),
        Fault::OpenFault { file } => write_about(sink, *file, b": cannot open\n"),
        Fault::ReadFault { file } => write_about(sink, *file, b": read fault\n"),
        Fault::TooLong {
            file,
            line,
            len,
            limit,
        } => write_too_long(sink, *file, *line, *len, *limit),
        Fault::TooLarge { file, limit } => write_too_large(sink, *file, *limit),
        Fault::WriteFault => write_part(sink, b"write fault\n"),
        Fault::BadLine { line } => write_of_line(sink, *line, b": not understood\n"),
        Fault::NotEnabled { line } => write_of_line(sink, *line, b": step not enabled\n"),
        Fault::Unlawful { line } => write_of_line(sink, *line, b": event out of place\n"),
        Fault::Unfinished { seat } => write_of_seat(sink, *seat, b": call not ended\n"),
        Fault::BadLineOf { file, line } => write_of_place(
            sink,
            *file,
            *line,
            b": not understood\n",
        ),
        Fault::SharedOf {
            what,
            file,
            line,
            other_file,
            other_line,
        } => write_of_shared(sink, *what, *file, *line, *other_file, *other_line),
        Fault::TwoRunsOf {
            file,
            run,
            other_file,
            other_run,
        } => write_of_runs(sink, *file, *run, *other_file, *other_run),
        Fault::UnlawfulOf { file, line } => {
            write_of_place(sink, *file, *line, b": event out of place\n")
        }
        Fault::AspectFails => write_part(sink, b"an aspect fails\n"),
        Fault::NotTested => write_part(sink, b"an aspect was not tested\n"),
        Fault::NotLinearizable => write_part(sink, b"not linearizable\n"),
        Fault::NeverEnded => write_part(sink, b"calls never ended\n"),
        Fault::NotFound => write_part(sink, b"no order found\n"),
        Fault::NoMemory => write_part(sink, b"out of memory\n"),
    }
}

fn write_words<K: Sink>(sink: &mut K, fault: &WordsFault) -> Result<(), Failed>
    ensures { HasWritten K.Sink sink.old sink.new (words_line fault.now) result }
{
    match fault {
        WordsFault::NotUnderstood => write_part(sink, b"words not understood\n"),
        WordsFault::Workers => write_part(sink, b"workers is not in 1..4096\n"),
        WordsFault::Order => write_part(sink, b"order is not in 1..12\n"),
        WordsFault::Size => write_part(sink, b"size is not in 1..65536\n"),
        WordsFault::Topics(fault) => write_topics(sink, fault),
        WordsFault::TooManyFiles => write_part(sink, b"more than 64 files\n"),
        WordsFault::TooManyRecordings => write_part(sink, b"more than 4096 files\n"),
        WordsFault::NoName { file } => write_about(sink, *file, b" has no name\n"),
        WordsFault::Seed => write_part(sink, b"seed is not in 0..2147483647\n"),
        WordsFault::Lines => write_part(sink, b"lines is not in 1..1000000\n"),
        WordsFault::Room => write_part(sink, b"room is not in 1..4294967295\n"),
    }
}

fn write_topics<K: Sink>(sink: &mut K, fault: &TopicFault) -> Result<(), Failed>
    ensures { HasWritten K.Sink sink.old sink.new (topics_line fault.now) result }
{
    match fault {
        TopicFault::TooMany { at } => write_entry(sink, *at, b": too many\n"),
        TopicFault::BadName { at } => write_entry(sink, *at, b": bad name\n"),
        TopicFault::BadKind { at } => write_entry(sink, *at, b": bad kind\n"),
        TopicFault::Twice { at } => write_entry(sink, *at, b": named twice\n"),
    }
}

fn write_too_long<K: Sink>(
    sink: &mut K,
    file: u32,
    line: u32,
    len: u64,
    limit: u32,
) -> Result<(), Failed>
    ensures { HasWritten K.Sink sink.old sink.new (file_line file (codes " line ")
        ++ payload_line line len limit) result }
{
    write_about(sink, file, b" line ")?;
    write_payload(sink, line, len, limit)
}

fn write_payload<K: Sink>(sink: &mut K, line: u32, len: u64, limit: u32) -> Result<(), Failed>
    ensures { HasWritten K.Sink sink.old sink.new (payload_line line len limit) result }
{
    write_number(sink, line, b": payload of ")?;
    write_limit(sink, len, limit)
}

fn write_limit<K: Sink>(sink: &mut K, len: u64, limit: u32) -> Result<(), Failed>
    ensures { HasWritten K.Sink sink.old sink.new (limit_line len limit) result }
{
    write_count(sink, len, b" bytes, limit ")?;
    write_number(sink, limit, b"\n")
}

fn write_too_large<K: Sink>(sink: &mut K, file: u32, limit: u64) -> Result<(), Failed>
    ensures { HasWritten K.Sink sink.old sink.new (file_line file (codes ": more than ")
        ++ (decimal limit ++ codes " bytes\n")) result }
{
    write_about(sink, file, b": more than ")?;
    write_count(sink, limit, b" bytes\n")
}

pub(crate) fn write_about<K: Sink>(sink: &mut K, file: u32, what: &[u8]) -> Result<(), Failed>
    ensures { HasWritten K.Sink sink.old sink.new (file_line file what.now) result }
{
    write_numbered(sink, b"file ", file, what)
}

fn write_of_line<K: Sink>(sink: &mut K, line: u32, what: &[u8]) -> Result<(), Failed>
    ensures { HasWritten K.Sink sink.old sink.new (text_line line what.now) result }
{
    write_numbered(sink, b"line ", line, what)
}

fn write_of_place<K: Sink>(sink: &mut K, file: u32, line: u32, what: &[u8]) -> Result<(), Failed>
    ensures { HasWritten K.Sink sink.old sink.new (place_line file line what.now) result }
{
    write_about(sink, file, b" line ")?;
    write_number(sink, line, what)
}

fn write_of_shared<K: Sink>(
    sink: &mut K,
    what: Shared,
    file: u32,
    line: u32,
    other_file: u32,
    other_line: u32,
) -> Result<(), Failed>
    ensures { HasWritten K.Sink sink.old sink.new (place_line file line (shared_words what)
        ++ place_line other_file other_line (codes "\n")) result }
{
    write_shared(sink, what, file, line)?;
    write_of_place(sink, other_file, other_line, b"\n")
}

fn write_shared<K: Sink>(sink: &mut K, what: Shared, file: u32, line: u32) -> Result<(), Failed>
    ensures { HasWritten K.Sink sink.old sink.new (place_line file line (shared_words what))
        result }
{
    match what {
        Shared::Stamp => write_of_place(sink, file, line, b": same stamp as "),
        Shared::Seat => write_of_place(sink, file, line, b": same seat as "),
    }
}

fn write_of_runs<K: Sink>(
    sink: &mut K,
    file: u32,
    run: u64,
    other_file: u32,
    other_run: u64,
) -> Result<(), Failed>
    ensures { HasWritten K.Sink sink.old sink.new (run_line file run (codes ", ")
        ++ run_line other_file other_run (codes "\n")) result }
{
    write_run(sink, file, run, b", ")?;
    write_run(sink, other_file, other_run, b"\n")
}

fn write_run<K: Sink>(sink: &mut K, file: u32, run: u64, what: &[u8]) -> Result<(), Failed>
    ensures { HasWritten K.Sink sink.old sink.new (run_line file run what.now) result }
{
    write_about(sink, file, b" is of run ")?;
    write_count(sink, run, what)
}

fn write_of_seat<K: Sink>(sink: &mut K, seat: u32, what: &[u8]) -> Result<(), Failed>
    ensures { HasWritten K.Sink sink.old sink.new (seat_line seat what.now) result }
{
    write_numbered(sink, b"seat ", seat, what)
}

fn write_entry<K: Sink>(sink: &mut K, at: u32, what: &[u8]) -> Result<(), Failed>
    ensures { HasWritten K.Sink sink.old sink.new (entry_line at what.now) result }
{
    write_numbered(sink, b"topics entry ", at, what)
}

/// Writes a name, a number, and what follows it.
fn write_numbered<K: Sink>(
    sink: &mut K,
    name: &[u8],
    number: u32,
    what: &[u8],
) -> Result<(), Failed>
    ensures { HasWritten K.Sink sink.old sink.new (name.now ++ (decimal number ++ what.now))
        result }
{
    write_part(sink, name)?;
    write_number(sink, number, what)
}

fn write_number<K: Sink>(sink: &mut K, number: u32, what: &[u8]) -> Result<(), Failed>
    ensures { HasWritten K.Sink sink.old sink.new (decimal number ++ what.now) result }
{
    write_count(sink, u64::from(number), what)
}

fn write_count<K: Sink>(sink: &mut K, count: u64, what: &[u8]) -> Result<(), Failed>
    ensures { HasWritten K.Sink sink.old sink.new (decimal count ++ what.now) result }
{
    write_part(sink, Buffer::new().format(count).as_bytes())?;
    write_part(sink, what)
}

/// Writes a part of a line.
pub(crate) fn write_part<K: Sink>(sink: &mut K, bytes: &[u8]) -> Result<(), Failed>
    ensures { HasWritten K.Sink sink.old sink.new bytes.now result }
{
    write_all(sink, bytes)
}
