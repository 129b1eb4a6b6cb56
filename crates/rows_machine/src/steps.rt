//! Steps of the machine, made one by one.
ghost use Rattle.std.specs.Prelude.{◌<◌};

use anyhow::{Context, Result, ensure};
use rows_text::field;
use scq_core::{ApplyFault, Ended, State, Step};
use scq_word::{Bytes, NoMemory, Setup};
use std::alloc::{AllocError, Global};

/// The number that a text says. Where it says none this is the greatest, and no seat, ring or index
/// has that.
pub fn number(text: &str) -> u32 {
    text.parse().unwrap_or(u32::MAX)
}

/// A step as rows say it.
pub fn step_of(alloc: Global, text: &str) -> Result<Step> {
    let (name, of) = text.split_once('/').unwrap_or((text, ""));
    match name {
        "E1" => Ok(put_of(alloc, of)?),
        "D1" => Ok(Step::D1 { ring: number(of) }),
        _ => bare_step(name).context("no such step"),
    }
}

/// The step that begins a put, of its ring, its index and its content.
fn put_of(alloc: Global, of: &str) -> Result<Step, NoMemory> {
    Ok(Step::E1 {
        ring: number(part_at(of, 0)),
        index: number(part_at(of, 1)),
        content: Bytes::copy_of(alloc, part_at(of, 2).as_bytes())?,
    })
}

/// A part of a step, which is cut at slashes.
fn part_at(step: &str, at: usize) -> &str {
    step.split('/').nth(at).unwrap_or("")
}

fn bare_step(name: &str) -> Option<Step> {
    if name.starts_with('E') {
        put_step(name)
    } else {
        get_step(name)
    }
}

fn put_step(name: &str) -> Option<Step> {
    match name {
        "E1Again" => Some(Step::E1Again),
        "E2" => Some(Step::E2),
        "E3" => Some(Step::E3),
        "E4" => Some(Step::E4),
        "E5" => Some(Step::E5),
        "E6" => Some(Step::E6),
        _ => None,
    }
}

fn get_step(name: &str) -> Option<Step> {
    match name {
        "D2" => Some(Step::D2),
        "D3" => Some(Step::D3),
        "D4" => Some(Step::D4),
        "D5" => Some(Step::D5),
        "D6" => Some(Step::D6),
        "D7" => Some(Step::D7),
        "D8" => Some(Step::D8),
        "D9" => Some(Step::D9),
        "D10" => Some(Step::D10),
        _ => None,
    }
}

/// Whether the machine makes a step. No seat makes one that isn't there.
fn is_made(state: &mut State, seat: u32, step: &Step) -> Result<bool, NoMemory> {
    if seat >= state.setup().seats() {
        return Ok(false);
    }
    match state.apply(seat, step) {
        Ok(()) => Ok(true),
        Err(ApplyFault::NotEnabled) => Ok(false),
        Err(ApplyFault::NoMemory) => Err(NoMemory),
    }
}

/// Whether the machine makes a copy of a step.
fn is_made_by_copy(alloc: Global, state: &mut State, seat: u32, word: &str) -> Result<bool> {
    let step = step_of(alloc, word)?;
    let copy = step.copy(alloc)?;
    Ok(is_made(state, seat, &copy)?)
}

/// The state after a step, made by a copy of the step on a copy of the state: so a state is copied
/// at each phase and after each kind of call. A step behind `!` has to be refused.
fn stepped(alloc: Global, state: &State, seat: u32, word: &str) -> Result<State> {
    let refused = word.strip_prefix("!");
    let mut copy = state.copy()?;
    let made = is_made_by_copy(alloc, &mut copy, seat, refused.unwrap_or(word))?;
    ensure!(
        made == refused.is_none(),
        "a step is made that is not enabled, or is refused"
    );
    Ok(copy)
}

/// Makes the steps of a part.
fn make(alloc: Global, state: &mut State, part: &Part) -> Result<()> {
    for word in part.steps.split_whitespace() {
        *state = stepped(alloc, state, part.seat, word)?;
    }
    Ok(())
}

/// The text of a content, or `?` where it is none.
pub fn text_of(content: &Bytes) -> &str {
    std::str::from_utf8(content.bytes()).unwrap_or("?")
}

/// Adds the newest call, as a copy of it says.
fn show_newest(alloc: Global, into: &mut String, last: Option<&Ended>) -> Result<()> {
    match last {
        Some(ended) => show_ended(into, &ended.copy(alloc)?)?,
        None => into.push_str("no call")?,
    }
    Ok(())
}

fn show_ended(into: &mut String, ended: &Ended) -> Result<(), AllocError> {
    match ended {
        Ended::Done {
            ring,
            place,
            content,
        } => {
            let text = text_of(content);
            write!(into, "done {ring} {place} {text}")
        }
        Ended::Got {
            ring,
            place,
            content,
        } => {
            let text = text_of(content);
            write!(into, "got {ring} {place} {text}")
        }
        Ended::Nothing { ring } => write!(into, "nothing {ring}"),
        Ended::Spent { ring, ticket, put } => write!(into, "spent {ring} {ticket} {put}"),
    }
}

/// Adds the indices in the seat's hand, or `-`.
fn show_hand(into: &mut String, state: &State, seat: u32) -> Result<(), AllocError>
    requires { seat < state.now.setup.seats }
{
    let mut empty = "- ";
    for index in 0..state.setup().shape().n() {
        if state.in_hand(seat, index) {
            write!(into, "{index}")?;
            empty = " ";
        }
    }
    into.push_str(empty)
}

/// Adds the step that the seat makes next, or its newest call.
fn show_call(alloc: Global, into: &mut String, state: &State, seat: u32) -> Result<()>
    requires { seat < state.now.setup.seats }
{
    match state.next_step(seat) {
        Some(step) => {
            let ring = state.ring_of(seat).context("a step on no ring")?;
            write!(into, "at {step:?} on {ring}")?;
            Ok(())
        }
        None => show_newest(alloc, into, state.last(seat)),
    }
}

/// Adds the spent ticket that a seat keeps.
fn show_spent(into: &mut String, spent: Option<u64>) -> Result<(), AllocError> {
    match spent {
        Some(ticket) => write!(into, " keeps {ticket}"),
        None => Ok(()),
    }
}

/// Whether the seat is idle just where it makes no next step.
fn is_idle_between(state: &State, seat: u32) -> bool
    requires { seat < state.now.setup.seats }
{
    state.idle(seat) == state.next_step(seat).is_none()
}

fn show_seat(alloc: Global, into: &mut String, state: &State, seat: u32) -> Result<()> {
    ensure!(seat < state.setup().seats(), "no such seat");
    ensure!(is_idle_between(state, seat), "idle in the middle of a call");
    show_hand(into, state, seat)?;
    show_call(alloc, into, state, seat)?;
    show_spent(into, state.spent(seat))?;
    Ok(())
}

/// Adds a ring with its Head, Tail, Threshold and entries.
pub fn show_ring(into: &mut String, state: &State, ring: u32) -> Result<()> {
    ensure!(ring < state.setup().rings(), "no such ring");
    let (head, tail) = (state.head(ring), state.tail(ring));
    let threshold = state.threshold(ring);
    write!(into, "{ring} {head} {tail} {threshold}")?;
    show_entries(into, state, ring)?;
    Ok(())
}

fn show_entries(into: &mut String, state: &State, ring: u32) -> Result<(), AllocError>
    requires { ring < state.now.setup.rings }
{
    for slot in 0..state.setup().shape().slots() {
        write!(into, " {}", state.entry(ring, slot))?;
    }
    Ok(())
}

/// The contents a, b and so on.
fn contents(alloc: Global, n: u32) -> Result<Vec<Bytes>, NoMemory> {
    let mut contents = Vec::new(alloc);
    for index in 0..n {
        contents.push(Bytes::copy_of(alloc, [97 + (index % 26) as u8].as_slice())?)?;
    }
    Ok(contents)
}

/// A setup with two rings and two seats, of an order and a limit.
fn setup_of(given: &str) -> Result<Setup> {
    let limit = field(given, 1).parse::<u64>()?;
    Ok(Setup::new(number(field(given, 0)), 2, 2, limit)?)
}

/// The start of a setup, and the opening contents a, b and so on.
fn started(alloc: Global, setup: Setup) -> Result<State> {
    let n = setup.shape().n();
    let opening = contents(alloc, n)?;
    ensure!(
        opening.len() == n as usize,
        "not as many contents as indices"
    );
    let state = State::start(alloc, setup, opening)?;
    ensure!(
        state.opening().len() == n as usize,
        "opening contents are lost"
    );
    Ok(state)
}

/// A part of what is given, taken apart.
#[derive(Drop)]
pub struct Part<'a> {
    pub seat: u32,
    pub steps: &'a str,
    pub ring: u32,
}

/// `SEAT STEPS @RING`, or `SEAT @RING` where no step is made.
pub fn part_of(text: &str) -> Part<'_> {
    let (made, ring) = text.split_once(" @").unwrap_or((text, ""));
    let (seat, steps) = made.split_once(' ').unwrap_or((made, ""));
    Part {
        seat: number(seat),
        steps,
        ring: number(ring),
    }
}

/// Makes the steps of a part, and adds what stands after it.
fn show_part(alloc: Global, into: &mut String, state: &mut State, text: &str) -> Result<()> {
    let part = part_of(text);
    make(alloc, state, &part)?;
    into.push_str("; ")?;
    show_ring(into, state, part.ring)?;
    into.push_str(" | ")?;
    show_seat(alloc, into, state, part.seat)
}

/// `ORDER LIMIT; SEAT STEPS @RING; ..`: after each part the ring's Head, Tail, Threshold and
/// entries, and behind `|` the indices in the seat's hand, or `-`, and its newest call, or the step
/// that it makes next. `E1/1/0/x` is E1 on ring 1 of index 0 with content x, `D1/1` is D1 on ring
/// 1, and a step behind `!` must not be enabled.
pub fn stepped_through(alloc: Global, into: &mut String, given: &str) -> Result<()> {
    let (setup, parts) = given.split_once("; ").unwrap_or((given, ""));
    let mut state = started(alloc, setup_of(setup)?)?;
    for text in parts.split("; ") {
        show_part(alloc, into, &mut state, text)?;
    }
    Ok(())
}
