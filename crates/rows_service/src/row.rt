//! A row: what the service is given, and what is to come of it. Its lines, each a mark and, after a
//! space, a text:
//!
//! - `$` words of the command line, with a space between them, and `+` more of the last of them;
//! - `<` the name of a file, then for each line of its content a `|`, or `endless` where it gives
//!   lines that never end, and `cut` where its reads alone go otherwise than `reads` says;
//! - `>` a line of the output, `!` a line of the errors; `?` in place of these where the errors are
//!   a report, which has to add up;
//! - `reads`, `writes`, `errors`: the greatest piece that a read or a write moves, and which call
//!   of each object fails, 0 for none;
//! - `room`: how many bytes fit the output;
//! - `waits`: workers that find nothing to take wait in place of leaving early;
//! - `meets`: its two workers meet at each point of the gate; `hands`: the first one's part is
//!   taken by the other; `reads_meet`: the first reads of its two files wait for one another;
//!   `wakes`: the second one, whose file is empty, rests until the first, which has read nothing,
//!   sends or retires;
//! - `counts`: how many messages all workers together sent, took and found no buffer for; without
//!   this line that isn't compared;
//! - `left`: how many buffers are left in each ring of the workers' queue; without this line that
//!   isn't compared;
//! - `=` the status, which ends the row.
//!
//! `rows_text` has what stands for bytes that aren't seen.

use crate::files::{Cut, RowFile};
use crate::gates::Meeting;
use anyhow::{Context, Result, anyhow};
use rows_text::{add_line, word_of};
use std::alloc::Global;

/// The word by which short parts share a buffer.
pub const BATCH: &str = "--batch";

/// As many bytes as a sink has room for.
const ROOM: u64 = 1 << 17;

#[derive(Drop)]
pub struct Row {
    pub words: Vec<String>,
    pub files: Vec<RowFile>,
    pub how: How,
    pub wanted: Wanted,
}

/// How reads, writes and workers go.
#[derive(Clone, Copy, Drop)]
pub struct How {
    pub reads: Cut,
    pub writes: Cut,
    pub error_writes: Cut,
    pub room: u64,
    /// Its workers wait in place of leaving early.
    pub waits: bool,
    /// Where its workers wait for one another.
    pub meeting: Meeting,
}

/// What is to come of a row.
#[derive(Drop)]
pub struct Wanted {
    pub output: Vec<u8>,
    pub errors: Vec<u8>,
    /// The errors are a report of workers.
    pub reports: bool,
    /// It is a row of `run` to which the word `--batch` was added.
    pub batches: bool,
    /// What all workers sent, took and found no buffer for, where it is compared.
    pub counts: Vec<u64>,
    /// What is left in each ring, where it is compared.
    pub left: Vec<u64>,
}

impl How {
    const PLAIN: How = How {
        reads: Cut::WHOLE,
        writes: Cut::WHOLE,
        error_writes: Cut::WHOLE,
        room: ROOM,
        waits: false,
        meeting: Meeting::Nowhere,
    };

    /// With what a line says.
    fn with(self, mark: &str, text: &str) -> Result<How> {
        Ok(match mark {
            "waits" => How {
                waits: true,
                ..self
            },
            "reads" => How {
                reads: Cut::of(text)?,
                ..self
            },
            "writes" => How {
                writes: Cut::of(text)?,
                ..self
            },
            "errors" => How {
                error_writes: Cut::of(text)?,
                ..self
            },
            "room" => How {
                room: text.parse::<u32>()?.into(),
                ..self
            },
            _ => How {
                meeting: meeting_of(mark)?,
                ..self
            },
        })
    }
}

fn meeting_of(mark: &str) -> Result<Meeting> {
    match mark {
        "meets" => Ok(Meeting::AtPoints),
        "hands" => Ok(Meeting::Handing),
        "reads_meet" => Ok(Meeting::Reading),
        "wakes" => Ok(Meeting::Waking),
        _ => Err(anyhow!("a line of no row")),
    }
}

impl Wanted {
    fn new(alloc: Global) -> Wanted {
        Wanted {
            output: Vec::new(alloc),
            errors: Vec::new(alloc),
            reports: false,
            batches: false,
            counts: Vec::new(alloc),
            left: Vec::new(alloc),
        }
    }

    /// Adds what a line says; that of `?` is that the errors are a report.
    fn add(&mut self, mark: &str, text: &str) -> Result<()> {
        match mark {
            ">" => add_line(&mut self.output, text),
            "!" => add_line(&mut self.errors, text),
            "left" => add_numbers(&mut self.left, text),
            "counts" => add_numbers(&mut self.counts, text),
            _ => {
                self.reports = true;
                Ok(())
            }
        }
    }
}

impl Row {
    /// No words, no files, and nothing written.
    pub fn new(alloc: Global) -> Row {
        Row {
            words: Vec::new(alloc),
            files: Vec::new(alloc),
            how: How::PLAIN,
            wanted: Wanted::new(alloc),
        }
    }

    /// Adds what a line says.
    pub fn add_line(&mut self, alloc: Global, line: &str) -> Result<()> {
        let (mark, text) = line.split_once(' ').unwrap_or((line, ""));
        match mark {
            "$" => add_words(alloc, &mut self.words, text),
            "+" => add_to_word(alloc, &mut self.words, text),
            "<" => add_file(alloc, &mut self.files, text),
            "|" | "endless" | "cut" => add_to_file(&mut self.files, mark, text),
            ">" | "!" | "?" | "left" | "counts" => self.wanted.add(mark, text),
            _ => {
                self.how = self.how.with(mark, text)?;
                Ok(())
            }
        }
    }

    /// Adds the word by which short parts share a buffer to a row of `run` that hasn't got it.
    /// Whether it was added.
    pub fn add_batch(&mut self, alloc: Global) -> Result<bool> {
        if has_batch(&self.words) {
            return Ok(false);
        }
        if !self.words.is_empty() && self.words[0].as_str() == "run" {
            self.words.insert(1, word_of(alloc, BATCH)?)?;
            self.wanted.batches = true;
        }
        Ok(self.wanted.batches)
    }
}

fn add_words(alloc: Global, words: &mut Vec<String>, text: &str) -> Result<()> {
    for word in text.split(' ') {
        words.push(word_of(alloc, word)?)?;
    }
    Ok(())
}

/// Adds to the last word.
fn add_to_word(alloc: Global, words: &mut Vec<String>, text: &str) -> Result<()> {
    let word = words.last_mut().context("more of no word")?;
    word.push_str(&word_of(alloc, text)?)?;
    Ok(())
}

/// Adds an empty file of this name.
fn add_file(alloc: Global, files: &mut Vec<RowFile>, name: &str) -> Result<()> {
    let first = files.is_empty();
    files.push(RowFile::new(alloc, word_of(alloc, name)?, first))?;
    Ok(())
}

/// Adds what a line says of the last file.
fn add_to_file(files: &mut Vec<RowFile>, mark: &str, text: &str) -> Result<()> {
    files
        .last_mut()
        .context("a line of no file")?
        .add(mark, text)
}

/// Adds numbers with a space between them.
fn add_numbers(numbers: &mut Vec<u64>, text: &str) -> Result<()> {
    for number in text.split(' ') {
        numbers.push(number.parse::<u64>()?)?;
    }
    Ok(())
}

fn has_batch(words: &[String]) -> bool {
    for word in words {
        if word.as_str() == BATCH {
            return true;
        }
    }
    false
}
