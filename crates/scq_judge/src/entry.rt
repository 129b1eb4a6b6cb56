//! What a line of a recording says.

ghost use Rattle.std.specs.Prelude.{◌≡◌, ◌∷◌, codes, IfOk};
ghost use Rattle.std.specs.Str.{bytes_eq};
ghost use Rattle.scq_lines.specs.Exports.{fields_after};
ghost use Rattle.scq_judge.specs.Entry.{without_stamp, run_in, stamped, said_by};

use scq_check::{Bounds, Line, read_fields};
use scq_hist::Event;
use scq_lines::{first_field, next_field, number};
use scq_word::{Bytes, NoMemory};
use std::alloc::Global;

/// Any seat, queue and number of an opening token that a `u32` holds.
const WIDE: Bounds = Bounds {
    seat: u32::MAX,
    queue: u32::MAX,
    token: u32::MAX,
};

/// The most bytes of a line. No line of the form has as many.
pub(crate) const MOST_LINE: usize = 1024;

/// What a line says.
#[derive(Drop)]
pub(crate) enum Entry {
    /// The number of the run that the file is of.
    Run { number: u64 },
    Opening { content: Bytes },
    Happens { stamp: Option<u64>, event: Event },
}

/// What a line says, where it is of the form: a first field that is a number is a stamp.
pub(crate) fn read_entry(alloc: Global, line: &[u8]) -> Result<Option<Entry>, NoMemory>
    ensures { IfOk result (λ entry. entry ≡ said_by line.now) }
{
    if line.len() > MOST_LINE {
        return Ok(None);
    }
    let (field, rest) = first_field(line);
    match number(field) {
        None if is_run(field) => Ok(run(rest)),
        None => Ok(bare(read_fields(alloc, WIDE, field, rest)?)),
        Some(stamp) => match next_field(rest) {
            None => Ok(None),
            Some((word, rest)) => Ok(stamped(stamp, read_fields(alloc, WIDE, word, rest)?)),
        },
    }
}

// Whether a field is the word in front of the run's number.
fn is_run(field: &[u8]) -> bool
    ensures { result ≡ bytes_eq field.now (codes "run") }
{
    field == b"run".as_slice()
}

// `run R`, from the space on.
fn run(rest: &[u8]) -> Option<Entry>
    ensures { result ≡ run_in (fields_after rest.now) }
{
    let (field, rest) = next_field(rest)?;
    if next_field(rest).is_some() {
        return None;
    }
    let number = number(field)?;
    Some(Entry::Run { number })
}

fn bare(line: Option<Line>) -> Option<Entry>
    ensures { result ≡ without_stamp line }
{
    match line {
        Some(Line::Opening { content }) => Some(Entry::Opening { content }),
        Some(Line::Happens { event }) => Some(Entry::Happens { stamp: None, event }),
        None => None,
    }
}

fn stamped(stamp: u64, line: Option<Line>) -> Option<Entry>
    ensures { result ≡ stamped stamp line }
{
    match line {
        Some(Line::Happens { event }) => Some(Entry::Happens {
            stamp: Some(stamp),
            event,
        }),
        _ => None,
    }
}
