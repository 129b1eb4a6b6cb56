//! Runs the service over rows that stand in files: the words of a command line, the files that it
//! names, and what is to come of it. It prints each row that ends otherwise, and how many rows of
//! each file ran. Of the files behind the argument `--batch` it runs each row of `run` with that
//! word, to the same end. `row.rt` has the form of a row.
#![tactic(auto)]

mod ending;
mod files;
mod gates;
mod row;
mod timed;

use anyhow::{Context, Result, anyhow};
use ending::{Difference, difference_of};
use row::{BATCH, Row};
use std::alloc::Global;
use std::sync::Wait;
use std::thread::Threads;
use std::time::Clock;
use std::{env, fs};
use timed::difference_in_time;

fn main(rt: HostRuntime) -> Result<()> {
    let mut batch = false;
    for name in env::args(&rt)?.skip(1) {
        if name.as_str() == BATCH {
            batch = true;
        } else {
            let text = fs::read_to_string(&rt, &name)?;
            run_file(rt, rt.alloc(), &name, &text, batch)?;
        }
    }
    Ok(())
}

/// Runs the rows of a file, and prints how many there are.
fn run_file<R: Threads + Wait + Sync + Print + Clock + Copy + Send + 'static>(
    rt: R,
    alloc: Global,
    name: &str,
    text: &str,
    batch: bool,
) -> Result<()> {
    let rows = run_rows(rt, alloc, name, text, batch)?;
    let word = if batch { " with --batch" } else { "" };
    println!(rt; "{name}{word}: {rows} rows")?;
    Ok(())
}

/// Runs the rows of a file, where `batch` is set those of `run` alone and with that word, prints
/// those that end otherwise, and tells how many there are. Behind one that doesn't end no more are
/// run.
fn run_rows<R: Threads + Wait + Sync + Print + Clock + Copy + Send + 'static>(
    rt: R,
    alloc: Global,
    name: &str,
    text: &str,
    batch: bool,
) -> Result<u64> {
    let mut rows = 0u64;
    let mut row = Row::new(alloc);
    for (at, line) in text.lines().enumerate() {
        if let Some(status) = line.strip_prefix("= ") {
            let ended = std::mem::replace(&mut row, Row::new(alloc));
            let (runs, difference) = run_row(rt, alloc, ended, status, batch)?;
            tell(&rt, name, at.saturating_add(1), difference)?;
            rows = rows.saturating_add(runs);
        } else if !line.is_empty() && !line.starts_with('#') {
            row.add_line(alloc, line)?;
        }
    }
    Ok(rows)
}

/// Runs a row, which is one or, where it can't get the word, none. What isn't as wanted, or None
/// where it doesn't end.
fn run_row<R: Threads + Wait + Sync + Clock + Copy + Send + 'static>(
    rt: R,
    alloc: Global,
    mut row: Row,
    status: &str,
    batch: bool,
) -> Result<(u64, Option<Difference>)> {
    let status = status.parse::<u8>().context("a status")?;
    if batch && !row.add_batch(alloc)? {
        return Ok((0, Some(None)));
    }
    let difference = if row.how.waits {
        difference_in_time(rt, alloc, row, status)?
    } else {
        Some(difference_of(&rt, alloc, &row, status)?)
    };
    Ok((1, difference))
}

/// Prints what isn't as wanted.
fn tell<R: Print>(rt: &R, name: &str, line: usize, difference: Option<Difference>) -> Result<()> {
    match difference {
        Some(Some(what)) => println!(rt; "{name} line {line}: {what} is not as wanted")?,
        Some(None) => {}
        None => {
            println!(rt; "{name} line {line}: it hasn't ended")?;
            return Err(anyhow!("a row doesn't end"));
        }
    }
    Ok(())
}
