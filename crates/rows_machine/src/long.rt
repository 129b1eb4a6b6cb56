//! Runs and copies so many that a call which gave up at some length would be seen. They are made
//! here, so that no file has them.

use crate::replays::{replayed, show_counts};
use crate::schedules::push_steps;
use crate::steps::show_ring;
use anyhow::{Context, Result};
use scq_core::State;
use scq_law::Replayed;
use scq_word::NoMemory;
use std::alloc::Global;

/// A number of times, and the steps behind it.
fn times_of(given: &str) -> Result<(u32, &str)> {
    let (times, round) = given
        .split_once("; ")
        .context("a number of times and steps")?;
    Ok((times.parse::<u32>()?, round))
}

/// What was replayed by seat 0, of steps that stand so often behind one another.
fn often(alloc: Global, times: u32, round: &str) -> Result<Replayed> {
    let mut steps = Vec::new(alloc);
    'rounds: for _ in 0..times {
        push_steps(alloc, 0, round, &mut steps)?;
    }
    Ok(replayed(alloc, 1 << 60, &steps)?)
}

/// Adds ring 0 as a copy of a state has it.
fn show_copy(into: &mut String, state: &State) -> Result<()> {
    let copy = state.copy()?;
    show_ring(into, &copy, 0)
}

fn show_replayed(into: &mut String, replayed: &Replayed) -> Result<()> {
    write!(into, "{} events; ", replayed.events.len())?;
    show_copy(into, &replayed.state)?;
    Ok(show_counts(into, replayed, 0)?)
}

/// `TIMES; STEPS`: seat 0 makes the steps so often, in one replay. How many events there are, and
/// ring 0 as a copy of the state has it, with its resets and fails.
pub fn repeated(alloc: Global, into: &mut String, given: &str) -> Result<()> {
    let (times, round) = times_of(given)?;
    let replayed = often(alloc, times, round)?;
    show_replayed(into, &replayed)
}

fn copy_often(state: &mut State, times: u32) -> Result<(), NoMemory> {
    for _ in 0..times {
        *state = state.copy()?;
    }
    Ok(())
}

/// `TIMES; STEPS`: ring 0 after the steps of seat 0, as a copy has it that is the last of so many,
/// each made of the one before.
pub fn copied(alloc: Global, into: &mut String, given: &str) -> Result<()> {
    let (times, round) = times_of(given)?;
    let mut replayed = often(alloc, 1, round)?;
    copy_often(&mut replayed.state, times)?;
    show_ring(into, &replayed.state, 0)
}
