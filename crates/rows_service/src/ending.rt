//! How the run of a row ended, and what of it isn't as wanted.

use crate::files::{RowFiles, RowSource};
use crate::gates::RowGate;
use crate::row::{Row, Wanted};
use rows_text::field;
use scq_outside::MemSink;
use scq_service::{Outcome, serve, serve_waiting};
use scq_stages::Staged;
use scq_word::NoMemory;
use scq_work::Worked;
use std::alloc::Global;
use std::sync::Wait;
use std::thread::Threads;

/// The first thing that isn't as a row wants it.
pub type Difference = Option<&'static str>;

/// What a run left.
#[derive(Drop)]
struct Ending {
    told: Told,
    output: MemSink,
    errors: MemSink,
    met: bool,
}

/// What of an outcome is compared: the status, what all workers together sent, took and found no
/// buffer for, and whether as much is left in each ring as the row wants.
#[derive(Clone, Copy, Drop)]
struct Told {
    status: u8,
    counts: Option<[u64; 3]>,
    has_left: bool,
}

/// Runs a row, and tells the first thing that isn't as it and its status want it.
pub fn difference_of<R: Threads + Wait + Sync>(
    rt: &R,
    alloc: Global,
    row: &Row,
    status: u8,
) -> Result<Difference, NoMemory> {
    let ending = ending_of(rt, alloc, row)?;
    Ok(ending.difference(&row.wanted, status))
}

/// Runs a row.
fn ending_of<R: Threads + Wait + Sync>(
    rt: &R,
    alloc: Global,
    row: &Row,
) -> Result<Ending, NoMemory> {
    let gate = RowGate::new(row.how.meeting);
    let mut files = RowFiles::new(alloc, row.files.as_slice(), row.how.reads, &gate)?;
    let mut output = row.how.writes.sink(alloc, row.how.room)?;
    let mut errors = row.how.error_writes.sink(alloc, row.how.room)?;
    let told = told_by(rt, alloc, row, &mut files, &mut output, &mut errors, &gate);
    Ok(Ending {
        told,
        output,
        errors,
        met: gate.is_met(),
    })
}

/// Serves the words of a row.
fn told_by<R: Threads + Wait + Sync>(
    rt: &R,
    alloc: Global,
    row: &Row,
    files: &mut RowFiles,
    out: &mut MemSink,
    err: &mut MemSink,
    gate: &RowGate,
) -> Told {
    let words = row.words.as_slice();
    let outcome = if row.how.waits {
        serve_waiting(rt, alloc, words, files, out, err, gate)
    } else {
        serve(rt, alloc, words, files, out, err, gate)
    };
    told_of(&outcome, row.wanted.left.as_slice())
}

fn told_of(outcome: &Outcome<RowSource>, left: &[u64]) -> Told {
    Told {
        status: outcome.status,
        counts: counts_of(&outcome.worked, &outcome.staged),
        has_left: has_left(&outcome.left, left),
    }
}

/// Whether so many buffers are left in each ring of the workers' queue.
fn has_left(own: &Option<Vec<u64>>, rings: &[u64]) -> bool {
    match own {
        Some(own) => own.as_slice() == rings,
        None => false,
    }
}

impl Ending {
    /// The first thing that isn't as the row and its status want it.
    fn difference(&self, wanted: &Wanted, status: u8) -> Difference {
        if self.told.status != status {
            Some("the status")
        } else if self.output.bytes() != wanted.output.as_slice() {
            Some("the output")
        } else if !self.has_errors(wanted) {
            Some("what is written to the errors")
        } else if !self.met {
            Some("how often workers met")
        } else {
            self.told.difference(wanted)
        }
    }

    /// Whether the errors are those of the row, of which it may have the fault's line alone; or a
    /// report that adds up to the messages that are answered. Where parts share buffers, a report
    /// may count fewer of these than there are parts.
    fn has_errors(&self, wanted: &Wanted) -> bool {
        let errors = self.errors.bytes();
        if wanted.reports {
            let messages = answered(self.output.bytes());
            adds_up(passed_in(errors), messages, wanted.batches)
        } else if wanted.batches && self.told.status == 0 {
            passed_in(errors) <= passed_in(wanted.errors.as_slice())
        } else {
            let wanted = wanted.errors.as_slice();
            errors == wanted || self.told.status != 0 && first_line(errors) == wanted
        }
    }
}

impl Told {
    /// What of the counts and of what is left isn't as the row wants it, where it says that.
    fn difference(&self, wanted: &Wanted) -> Difference {
        if !wanted.counts.is_empty() && !self.has_counts(wanted.counts.as_slice()) {
            Some("what workers sent, took and found no buffer for")
        } else if !wanted.left.is_empty() && !self.has_left {
            Some("what is left in the queue")
        } else {
            None
        }
    }

    /// Whether all workers together have these counts.
    fn has_counts(&self, counts: &[u64]) -> bool {
        match &self.counts {
            Some(own) => own.as_slice() == counts,
            None => false,
        }
    }
}

/// Whether a report has passed on the messages, or no more of them where parts share buffers.
fn adds_up(passed: Option<u64>, messages: u64, batches: bool) -> bool {
    match passed {
        Some(passed) => passed == messages || batches && passed <= messages,
        None => false,
    }
}

/// What all workers together sent, took and found no buffer for, whatever they made.
fn counts_of(worked: &Option<Worked>, staged: &Option<Staged>) -> Option<[u64; 3]> {
    let counts = match (worked, staged) {
        (Some(worked), _) => &worked.counts,
        (None, Some(staged)) => &staged.counts,
        (None, None) => return None,
    };
    let (mut sent, mut taken, mut full) = (0u64, 0u64, 0u64);
    for each in counts {
        sent = sent.saturating_add(each.sent);
        taken = taken.saturating_add(each.taken);
        full = full.saturating_add(each.full);
    }
    Some([sent, taken, full])
}

/// The first line, with its end.
fn first_line(text: &[u8]) -> &[u8] {
    match text.iter().position(|byte| *byte == b'\n') {
        Some(at) => &text[..at + 1],
        None => text,
    }
}

fn last_line(text: &[u8]) -> Option<&str> {
    std::str::from_utf8(text).ok()?.lines().last()
}

/// How many a report tells in its last line that were sent or answered directly; none where that
/// tells another number taken than sent.
fn passed_in(report: &[u8]) -> Option<u64> {
    let last = last_line(report)?;
    let sent = number_behind(last, "all sent ")?;
    if number_behind(last, " taken ") != Some(sent) {
        return None;
    }
    Some(sent.saturating_add(number_behind(last, " direct ")?))
}

/// How many messages an output answers: its lines but those of totals.
fn answered(output: &[u8]) -> u64 {
    let mut count = 0u64;
    let mut begins = true;
    for byte in output {
        if begins && byte.is_ascii_digit() {
            count = count.saturating_add(1);
        }
        begins = *byte == b'\n';
    }
    count
}

/// The number behind a word of a line.
fn number_behind(line: &str, word: &str) -> Option<u64> {
    let (_, rest) = line.split_once(word)?;
    field(rest, 0).trim().parse().ok()
}
