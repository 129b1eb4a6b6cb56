//! Replays a schedule of the queue's machine, and prints the words of ring 1 after each step. Each
//! line replays all steps so far, as one would to ask what became of a run that was cut there.
#![tactic(auto)]

ghost use Rattle.std.specs.Prelude.{◌≡◌, ℕ, ◌<◌, IfOk, vec_len};
ghost use Rattle.std.specs.List.{All};
ghost use Rattle.scq_word.specs.Exports.{n_of};
ghost use Rattle.scq_core.specs.declared.step.Step.{Step as StepOf};

mod schedule;

use anyhow::{Context, Result, anyhow};
use schedule::step_of;
use scq_core::{State, Step};
use scq_law::replay;
use scq_word::{Bytes, Setup};
use std::alloc::Global;
use std::{env, fs};

fn main(rt: HostRuntime) -> Result<()> {
    let alloc = rt.alloc();
    let setup = Setup::new(1, 2, 2, 1 << 60)?;
    let name = env::args(&rt)?.nth(1).context("no schedule is named")?;
    let text = fs::read_to_string(&rt, &name)?;
    let mut steps = Vec::new(alloc);
    for line in text.lines() {
        push_step(alloc, &setup, line, &mut steps)?;
        let state = state_after(alloc, setup, &steps)?;
        println!(rt; "{line}: {}", words_of(alloc, &state)?)?;
    }
    Ok(())
}

/// Adds the step of a line, which is a seat and its step.
fn push_step(alloc: Global, setup: &Setup, line: &str, steps: &mut Vec<(u32, Step)>) -> Result<()>
    requires { All (λ (x : ℕ × StepOf). x.0 < setup.now.seats) steps.old.items }
    ensures { All (λ (x : ℕ × StepOf). x.0 < setup.now.seats) steps.new.items }
{
    let (seat, step) = line.split_once(' ').context("a line of one word")?;
    let seat = seat.parse::<u32>()?;
    if seat >= setup.seats() {
        return Err(anyhow!("no such seat"));
    }
    let step = step_of(alloc, step)?;
    steps.push((seat, step))?;
    Ok(())
}

/// The state that the steps lead to from the start, where each index stands for an empty message.
fn state_after(alloc: Global, setup: Setup, steps: &[(u32, Step)]) -> Result<State>
    requires { All (λ (x : ℕ × StepOf). x.0 < setup.seats) steps.now }
    ensures { IfOk result (λ state. state.setup ≡ setup) }
{
    let opening = empty_messages(alloc, &setup)?;
    let replayed = replay(alloc, setup, opening, steps)?;
    Ok(replayed.state)
}

/// As many as there are indices.
fn empty_messages(alloc: Global, setup: &Setup) -> Result<Vec<Bytes>>
    ensures { IfOk result (λ opening. vec_len opening ≡ n_of setup.now.order) }
{
    let mut opening = Vec::new(alloc);
    for _ in 0..setup.shape().n() {
        opening.push(Bytes::from(Vec::new(alloc)))?;
    }
    Ok(opening)
}

/// The words of ring 1.
fn words_of(alloc: Global, state: &State) -> Result<String>
    requires rings { 1 < state.now.setup.rings }
    requires order { state.now.setup.order ≡ 1 }
{
    let (head, tail, threshold) = (state.head(1), state.tail(1), state.threshold(1));
    let mut text = format!(in alloc; "head {head}, tail {tail}, threshold {threshold}, entries")?;
    for slot in 0..4 {
        text.push_str(&format!(in alloc; " {}", state.entry(1, slot))?)?;
    }
    Ok(text)
}
