//! The text of a history, read line by line.

ghost use Rattle.std.specs.Prelude.{◌≡◌, ℕ, [], ◌∷◌, ◌++◌, true, false, Some, Err, IfOk, OnOk};
ghost use Rattle.scq_hist.specs.Exports.{IsLawful};
ghost use Rattle.scq_lines.specs.Exports.{lines_of};
ghost use Rattle.scq_check.specs.Line.{line_of};
ghost use Rattle.scq_check.specs.HistoryText.{tokens_in, events_in, may_follow, IsHistory};
ghost use Rattle.scq_check.specs.HistoryText.{IsBadLine, IsUnlawfulLine};
ghost use Rattle.scq_check.specs.declared.line.Line.TheVariants.{Opening, Happens};

use crate::line::{Line, SMALL, read_line};
use scq_hist::{Event, is_lawful_at};
use scq_lines::next_line;
use scq_word::{Bytes, NoMemory};
use std::alloc::{AllocFailed, Global};
use thiserror::Error;

// The most opening tokens of a history.
const MOST_TOKENS: usize = 4096;

// The most events of a history.
const MOST_EVENTS: usize = 1000;

/// A history: the contents of the tokens that stand in queue 0 before its events, and the events.
#[derive(Drop)]
pub struct History {
    pub opening: Vec<Bytes>,
    pub events: Vec<Event>,
}

/// Why a text is no history: the first line with a fault, from 1. Or memory was wanted.
#[derive(Clone, Copy, Debug, Error)]
pub enum HistoryFault {
    /// The line is not of the form, is an opening token behind an event, or is one line too many.
    #[error("line {line}: not understood")]
    BadLine { line: u32 },
    /// The events up to this line are not lawful, and those before it are.
    #[error("line {line}: event out of place")]
    Unlawful { line: u32 },
    #[error("out of memory")]
    NoMemory,
}

impl From<NoMemory> for HistoryFault {
    ghost use Rattle.scq_check.specs.declared.history.HistoryFault.TheVariants.{NoMemory as Wanted};

    ghost from_gives = { λ _ fault. fault ≡ Wanted };

    fn from(_: NoMemory) -> HistoryFault {
        HistoryFault::NoMemory
    }
}

impl<T: Drop> From<AllocFailed<T>> for HistoryFault {
    ghost use Rattle.scq_check.specs.declared.history.HistoryFault.TheVariants.{NoMemory as Wanted};

    ghost from_gives = { λ _ fault. fault ≡ Wanted };

    fn from(_: AllocFailed<T>) -> HistoryFault {
        HistoryFault::NoMemory
    }
}

/// Reads a history: at most 4,096 lines `opening X`, and then at most 1,000 events, one a line. The
/// first line with a fault is refused. The empty text is a history without events.
pub fn read_history(alloc: Global, text: &[u8]) -> Result<History, HistoryFault>
    ensures history { OnOk result (IsHistory (lines_of text.now)) }
    ensures opening { IfOk result (λ history.
        history.opening.items ≡ tokens_in (lines_of text.now)) }
    ensures events { IfOk result (λ history. history.events.items ≡ events_in (lines_of text.now)) }
    ensures lawful { IfOk result (λ history. IsLawful history.events.items) }
    ensures bad_line { (line : ℕ) → result ≡ Err (HistoryFault.BadLine line)
        → IsBadLine (lines_of text.now) line }
    ensures unlawful { (line : ℕ) → result ≡ Err (HistoryFault.Unlawful line)
        → IsUnlawfulLine (lines_of text.now) line }
{
    let mut history = History {
        opening: Vec::new(alloc),
        events: Vec::new(alloc),
    };
    let mut number = 0;
    let mut rest = text;
    'lines: while let Some((line, more)) = next_line(rest) {
        number += 1;
        add_line(alloc, &mut history, number, line)?;
        rest = more;
    }
    Ok(history)
}

// Adds what the line of this number says. After an `Err` the history may have the line's event.
fn add_line(
    alloc: Global,
    history: &mut History,
    number: u32,
    line: &[u8],
) -> Result<(), HistoryFault>
    requires { IsLawful history.old.events.items }
    ensures next { OnOk result
        (may_follow history.old.opening.items history.old.events.items (line_of line.now) ≡ true) }
    ensures opening { OnOk result (history.new.opening.items
        ≡ history.old.opening.items ++ tokens_in (line.now ∷ [])) }
    ensures events { OnOk result (history.new.events.items
        ≡ history.old.events.items ++ events_in (line.now ∷ [])) }
    ensures lawful { OnOk result (IsLawful history.new.events.items) }
    ensures bad_line { (at : ℕ) → result ≡ Err (HistoryFault.BadLine at)
        → (at ≡ number) × (may_follow history.old.opening.items history.old.events.items
        (line_of line.now) ≡ false) }
    ensures unlawful { (at : ℕ) → result ≡ Err (HistoryFault.Unlawful at)
        → (at ≡ number) ×
        (may_follow history.old.opening.items history.old.events.items (line_of line.now) ≡ true)
        × ¬ IsLawful (history.old.events.items ++ events_in (line.now ∷ [])) }
{
    match read_line(alloc, SMALL, line)? {
        Some(Line::Opening { content }) => add_token(history, number, content),
        Some(Line::Happens { event }) => add_event(history, number, event),
        None => Err(HistoryFault::BadLine { line: number }),
    }
}

fn add_token(history: &mut History, number: u32, content: Bytes) -> Result<(), HistoryFault>
    ensures next { OnOk result (may_follow history.old.opening.items history.old.events.items
        (Some (Opening content)) ≡ true) }
    ensures opening { OnOk result (history.new.opening.items
        ≡ history.old.opening.items ++ content ∷ []) }
    ensures events { OnOk result (history.new.events.items ≡ history.old.events.items) }
    ensures bad_line { (at : ℕ) → result ≡ Err (HistoryFault.BadLine at)
        → (at ≡ number) × (may_follow history.old.opening.items history.old.events.items
        (Some (Opening content)) ≡ false) }
    ensures never_unlawful { (at : ℕ) → ¬ (result ≡ Err (HistoryFault.Unlawful at)) }
{
    if !history.events.is_empty() || history.opening.len() >= MOST_TOKENS {
        return Err(HistoryFault::BadLine { line: number });
    }
    history.opening.push(content)?;
    Ok(())
}

fn add_event(history: &mut History, number: u32, event: Event) -> Result<(), HistoryFault>
    requires { IsLawful history.old.events.items }
    ensures next { OnOk result (may_follow history.old.opening.items history.old.events.items
        (Some (Happens event)) ≡ true) }
    ensures opening { OnOk result (history.new.opening.items ≡ history.old.opening.items) }
    ensures events { OnOk result (history.new.events.items
        ≡ history.old.events.items ++ event ∷ []) }
    ensures lawful { OnOk result (IsLawful history.new.events.items) }
    ensures bad_line { (at : ℕ) → result ≡ Err (HistoryFault.BadLine at)
        → (at ≡ number) × (may_follow history.old.opening.items history.old.events.items
        (Some (Happens event)) ≡ false) }
    ensures unlawful { (at : ℕ) → result ≡ Err (HistoryFault.Unlawful at)
        → (at ≡ number) × (may_follow history.old.opening.items history.old.events.items
        (Some (Happens event)) ≡ true)
        × ¬ IsLawful (history.old.events.items ++ event ∷ []) }
{
    let last = history.events.len();
    if last >= MOST_EVENTS {
        return Err(HistoryFault::BadLine { line: number });
    }
    history.events.push(event)?;
    if !is_lawful_at(&history.events, last) {
        return Err(HistoryFault::Unlawful { line: number });
    }
    Ok(())
}
