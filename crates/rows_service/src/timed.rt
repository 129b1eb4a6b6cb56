//! Rows that may never end: where a wake is lost, a worker rests for ever. Each runs in a thread of
//! its own, which is left to itself where it takes too long.

use crate::ending::{Difference, difference_of};
use crate::row::Row;
use anyhow::Result;
use scq_word::NoMemory;
use std::alloc::Global;
use std::sync::atomic::{AtomicBool, Ordering};
use std::sync::{Arc, Wait};
use std::thread;
use std::thread::Threads;
use std::time::{Clock, Duration};

/// How often it is asked whether a row has ended, a millisecond after the other.
const LOOKS: u32 = 20_000;

/// Runs a row as `difference_of` does. None where it hasn't ended after 20 seconds.
pub fn difference_in_time<R: Threads + Wait + Sync + Clock + Copy + Send + 'static>(
    rt: R,
    alloc: Global,
    row: Row,
    status: u8,
) -> Result<Option<Difference>> {
    let ended = Arc::new(alloc, AtomicBool::new(false))?;
    let theirs = Arc::try_clone(&ended)?;
    let there = move || -> Result<Difference, NoMemory> {
        let difference = difference_of(&rt, alloc, &row, status);
        theirs.store(true, Ordering::SeqCst);
        difference
    };
    let runs = thread::spawn(&rt, there)?;
    for _ in 0..LOOKS {
        if ended.load(Ordering::SeqCst) {
            return Ok(Some(runs.join(&rt)?));
        }
        thread::sleep(&rt, Duration::from_millis(1));
    }
    Ok(None)
}
