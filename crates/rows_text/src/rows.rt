//! Rows of calls. A row is a line `CALL GIVEN`, a `+` and more of what is given for each further
//! line, and after a `=` the wanted answer; before it a `>` and a part of the answer may stand.

use crate::add_said;
use anyhow::{Result, ensure};
use std::alloc::Global;
use std::fs;
use std::rt::Files;

/// What rows can call.
pub trait Calls {
    /// Adds what a call answers.
    fn add_answer(&self, alloc: Global, into: &mut String, call: &str, given: &str) -> Result<()>;
}

/// A field of what is given, cut at spaces.
pub fn field(given: &str, number: usize) -> &str {
    given.split(' ').nth(number).unwrap_or("")
}

/// The row that is being read, the number of its last line, and how many rows were run.
#[derive(Drop)]
struct Rows {
    call: String,
    given: String,
    wanted: Vec<u8>,
    is_read: bool,
    line: u64,
    count: u64,
}

impl Rows {
    fn new(alloc: Global) -> Rows {
        Rows {
            call: String::new(alloc),
            given: String::new(alloc),
            wanted: Vec::new(alloc),
            is_read: true,
            line: 0,
            count: 0,
        }
    }

    /// Reads a line, and tells whether the row ends there.
    fn read(&mut self, line: &str) -> bool {
        self.line = self.line.saturating_add(1);
        let (mark, text) = line.split_once(' ').unwrap_or((line, ""));
        match mark {
            "" | "#" => {}
            "+" => self.is_read &= self.given.push_str(text).is_ok(),
            ">" => self.want(text),
            "=" => {
                self.want(text);
                return true;
            }
            _ => self.begin(mark, text),
        }
        false
    }

    fn begin(&mut self, call: &str, given: &str) {
        self.call.clear();
        self.given.clear();
        self.is_read &= self.call.push_str(call).is_ok() & self.given.push_str(given).is_ok();
    }

    fn want(&mut self, text: &str) {
        self.is_read &= add_said(&mut self.wanted, text);
    }

    /// Whether this is the wanted answer. None is wanted behind it.
    fn wants(&mut self, answer: &str) -> bool {
        let is_wanted = answer.as_bytes() == self.wanted.as_slice();
        self.wanted.clear();
        is_wanted
    }

    /// Runs the row.
    fn run<R: Print, C: Calls>(
        &mut self,
        rt: &R,
        alloc: Global,
        calls: &C,
        name: &str,
    ) -> Result<()> {
        ensure!(self.is_read, "a row of bytes, or memory");
        self.count = self.count.saturating_add(1);
        let mut answer = String::new(alloc);
        calls.add_answer(alloc, &mut answer, &self.call, &self.given)?;
        if self.wants(&answer) {
            Ok(())
        } else {
            print_other(rt, name, self.line, &answer)
        }
    }
}

fn print_other<R: Print>(rt: &R, name: &str, line: u64, answer: &str) -> Result<()> {
    println!(rt; "{name} line {line}: the answer is {answer}")?;
    Ok(())
}

/// Runs the rows of a file, and prints those that are answered otherwise and how many there are.
pub fn run_file<R: Files + AllocGlobal + Print, C: Calls>(
    rt: &R,
    calls: &C,
    name: &str,
) -> Result<()> {
    let text = fs::read_to_string(rt, name)?;
    let mut rows = Rows::new(rt.alloc());
    for line in text.lines() {
        if rows.read(line) {
            rows.run(rt, rt.alloc(), calls, name)?;
        }
    }
    let count = rows.count;
    println!(rt; "{name}: {count} rows")?;
    Ok(())
}
