//! Replays of schedules, line by line.
ghost use Rattle.std.specs.Prelude.{◌≡◌, ℕ, ◌^◌, ◌<◌, ◌≤◌, IfOk};
ghost use Rattle.std.specs.List.{All};
ghost use Rattle.scq_core.specs.declared.step.Step.{Step as StepOf};
ghost use Rattle.scq_hist.specs.Exports.{IsLawful};

use crate::schedules::{opening, push_steps, two_of_each};
use crate::steps::{Part, part_of, show_ring, text_of};
use anyhow::{Context, Result, anyhow, ensure};
use scq_core::{Ended, State, Step};
use scq_hist::{Call, Event, PutName, Reply, empty_right, fresh, in_order, lawful_calls, once};
use scq_law::{ReplayFault, Replayed, replay};
use scq_word::Bytes;
use std::alloc::{AllocError, Global};

/// From the start of a setup with two indices, rings and seats, and the opening contents `a` and
/// `b`.
pub fn replayed(alloc: Global, limit: u64, steps: &[(u32, Step)]) -> Result<Replayed, ReplayFault>
    requires seats { All (λ (x : ℕ × StepOf). x.0 < 2) steps.now }
    requires limit { (16 ≤ limit) × (limit ≤ 2 ^ 60) }
    ensures lawful { IfOk result (λ replayed. IsLawful replayed.events.items) }
    ensures seats { IfOk result (λ replayed. replayed.state.setup.seats ≡ 2) }
{
    replay(alloc, two_of_each(limit), opening(alloc)?, steps)
}

/// The resets or the fails of a ring.
fn count(counts: &[u64], ring: u32) -> u64 {
    counts.get(ring as usize).copied().unwrap_or(u64::MAX)
}

/// Adds the resets and fails of a ring.
pub fn show_counts(into: &mut String, replayed: &Replayed, ring: u32) -> Result<(), AllocError> {
    let resets = count(&replayed.resets, ring);
    let fails = count(&replayed.fails, ring);
    write!(into, " {resets}/{fails}")
}

/// Adds the newest call of a seat, or `-` in the middle of one.
fn show_call(into: &mut String, state: &State, seat: u32) -> Result<(), AllocError>
    requires { seat < state.now.setup.seats }
{
    if state.idle(seat) {
        show_newest(into, state.last(seat))
    } else {
        into.push_str(" -")
    }
}

fn show_newest(into: &mut String, last: Option<&Ended>) -> Result<(), AllocError> {
    match last {
        None => into.push_str(" no call"),
        Some(Ended::Done { place, .. }) => write!(into, " done {place}"),
        Some(Ended::Got { place, content, .. }) => {
            let text = text_of(content);
            write!(into, " got {place} {text}")
        }
        Some(Ended::Nothing { .. }) => into.push_str(" nothing"),
        Some(Ended::Spent { ticket, .. }) => write!(into, " spent {ticket}"),
    }
}

fn show_event(into: &mut String, event: &Event) -> Result<(), AllocError> {
    match event {
        Event::Start { seat, call } => show_start(into, *seat, call),
        Event::End { seat, reply } => show_end(into, *seat, reply),
    }
}

fn show_start(into: &mut String, seat: u32, call: &Call) -> Result<(), AllocError> {
    match call {
        Call::Put { queue, content } => {
            let text = text_of(content);
            write!(into, " {seat} put {queue} {text},")
        }
        Call::Get { queue } => write!(into, " {seat} get {queue},"),
    }
}

fn show_end(into: &mut String, seat: u32, reply: &Reply) -> Result<(), AllocError> {
    match reply {
        Reply::Done => write!(into, " {seat} done,"),
        Reply::Got { name, content } => show_got(into, seat, name, text_of(content)),
        Reply::Nothing => write!(into, " {seat} nothing,"),
        Reply::Spent => write!(into, " {seat} spent,"),
    }
}

fn show_got(into: &mut String, seat: u32, name: &PutName, text: &str) -> Result<(), AllocError> {
    match name {
        PutName::Opening { number } => write!(into, " {seat} got token {number} {text},"),
        PutName::Of { seat: of, number } => write!(into, " {seat} got {of}.{number} {text},"),
    }
}

fn show_events(into: &mut String, events: &[Event]) -> Result<(), AllocError> {
    into.push_str(":")?;
    for event in events {
        show_event(into, event)?;
    }
    Ok(())
}

/// Whether a history passes the five tests. Of steps that can't all be made there is none: what
/// stops is told where it stands.
fn passes(alloc: Global, limit: u64, steps: &[(u32, Step)]) -> Result<bool>
    requires seats { All (λ (x : ℕ × StepOf). x.0 < 2) steps.now }
    requires limit { (16 ≤ limit) × (limit ≤ 2 ^ 60) }
{
    match replayed(alloc, limit, steps) {
        Ok(replayed) => Ok(is_right(&opening(alloc)?, &replayed.events)),
        Err(ReplayFault::NotEnabled { .. }) => Ok(true),
        Err(fault) => Err(fault.into()),
    }
}

fn is_right(tokens: &[Bytes], events: &[Event]) -> bool
    requires { IsLawful events.now }
{
    lawful_calls(events)
        && fresh(tokens, events)
        && once(events)
        && in_order(tokens, events)
        && empty_right(tokens, events)
}

/// Whether the history of each cut of the steps passes them.
fn all_pass(alloc: Global, limit: u64, steps: &[(u32, Step)]) -> Result<bool>
    requires seats { All (λ (x : ℕ × StepOf). x.0 < 2) steps.now }
    requires limit { (16 ≤ limit) × (limit ≤ 2 ^ 60) }
{
    for cut in 0..steps.len() {
        if !passes(alloc, limit, &steps[..cut])? {
            return Ok(false);
        }
    }
    passes(alloc, limit, steps)
}

/// Adds the resets and fails of a line's ring, its seat's newest call, and events.
fn show_calls(
    into: &mut String,
    line: &Part,
    replayed: &Replayed,
    events: &[Event],
) -> Result<(), AllocError>
    requires { line.now.seat < replayed.now.state.setup.seats }
{
    show_counts(into, replayed, line.ring)?;
    show_call(into, &replayed.state, line.seat)?;
    show_events(into, events)
}

/// Adds what was replayed up to a line, with the events after those that were seen before, and
/// tells how many events there are.
fn show_replayed(into: &mut String, line: &Part, seen: usize, replayed: &Replayed) -> Result<usize>
    requires { line.now.seat < replayed.now.state.setup.seats }
{
    show_ring(into, &replayed.state, line.ring)?;
    let events = replayed.events.get(seen..).context("no events")?;
    show_calls(into, line, replayed, events)?;
    Ok(replayed.events.len())
}

/// Adds where the steps stop.
fn show_stop(into: &mut String, line: &Part, seen: usize, at: u64) -> Result<usize> {
    write!(into, "{} stops at {at}:", line.ring)?;
    Ok(seen)
}

/// Adds what a line has to say of the steps up to it, and tells how many events there are then. A
/// line that stops is the last.
fn show_line(
    alloc: Global,
    into: &mut String,
    limit: u64,
    line: &Part,
    seen: usize,
    steps: &[(u32, Step)],
) -> Result<usize>
    requires seat { line.now.seat < 2 }
    requires seats { All (λ (x : ℕ × StepOf). x.0 < 2) steps.now }
    requires limit { (16 ≤ limit) × (limit ≤ 2 ^ 60) }
{
    match replayed(alloc, limit, steps) {
        Ok(replayed) => show_replayed(into, line, seen, &replayed),
        Err(ReplayFault::NotEnabled { at }) => show_stop(into, line, seen, at),
        Err(ReplayFault::NoMemory) => Err(anyhow!("memory")),
    }
}

/// Adds a line behind the steps before it, and tells how many events there are then.
fn add_line(
    alloc: Global,
    into: &mut String,
    limit: u64,
    line: &str,
    seen: usize,
    steps: &mut Vec<(u32, Step)>,
) -> Result<usize>
    requires seats { All (λ (x : ℕ × StepOf). x.0 < 2) steps.old.items }
    requires limit { (16 ≤ limit) × (limit ≤ 2 ^ 60) }
    ensures { All (λ (x : ℕ × StepOf). x.0 < 2) steps.new.items }
{
    let line = part_of(line);
    ensure!(line.seat < 2, "no such seat");
    push_steps(alloc, line.seat, line.steps, steps)?;
    into.push_str("; ")?;
    show_line(alloc, into, limit, &line, seen, steps)
}

/// Adds each line, and tells the steps of all.
fn add_lines(alloc: Global, into: &mut String, limit: u64, lines: &str) -> Result<Vec<(u32, Step)>>
    requires { (16 ≤ limit) × (limit ≤ 2 ^ 60) }
    ensures { IfOk result (λ steps. All (λ (x : ℕ × StepOf). x.0 < 2) steps.items) }
{
    let mut steps = Vec::new(alloc);
    let mut seen = 0;
    for line in lines.split("; ") {
        seen = add_line(alloc, into, limit, line, seen, &mut steps)?;
    }
    Ok(steps)
}

/// `LIMIT; SEAT STEPS @RING; ..`: after each line the ring with its Head, Tail, Threshold and
/// entries, its resets and fails, what the seat's newest call was, or `-` where it is in the middle
/// of one, and behind `:` the events that the line adds. Where the line's last step is not enabled,
/// the ring and the position of that step stand there. The put `1.2` is the second of seat 1, and
/// `token 0` the first opening put. Behind all lines stands whether the history of each cut passes
/// the tests of histories.
pub fn replayed_lines(alloc: Global, into: &mut String, given: &str) -> Result<()> {
    let (limit, lines) = given.split_once("; ").unwrap_or((given, ""));
    let limit = limit.parse::<u64>()?;
    ensure!(16 <= limit && limit <= 1 << 60, "a limit");
    let steps = add_lines(alloc, into, limit, lines)?;
    let passes = all_pass(alloc, limit, &steps)?;
    into.push_str(if passes { " passes" } else { "" })?;
    Ok(())
}
