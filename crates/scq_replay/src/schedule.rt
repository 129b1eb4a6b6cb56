//! The lines of a schedule, read one by one.

ghost use Rattle.std.specs.Prelude.{◌≡◌, [], ◌∷◌, ◌<◌, ℕ, None, IfOk, IfSome, MatchOption};
ghost use Rattle.std.specs.Str.{bytes_eq};
ghost use Rattle.scq_word.specs.declared.setup.Setup.{Setup as SetupOf};
ghost use Rattle.scq_lines.specs.Exports.{fields_of, fields_after};
ghost use Rattle.scq_replay.specs.Schedule.{setup_said, IsSetupLine, bare_step, step_said, turn_in};
ghost use Rattle.scq_replay.specs.Printed.{begins_on};

use scq_core::Step;
use scq_lines::{content, first_field, next_field, number, number_below};
use scq_word::{NoMemory, Setup};
use std::alloc::Global;

// The highest order of a schedule.
const MOST_ORDER: u64 = 4;

// The most rings of a schedule.
const MOST_RINGS: u64 = 18;

// The most bytes of a content.
const MOST_CONTENT: u32 = 16;

/// The numbers of a setup as its line says them.
#[derive(Clone, Copy)]
pub(crate) struct SetupNumbers {
    order: u64,
    rings: u64,
    seats: u64,
    limit: u64,
}

// Whether a field is this word.
fn is_word(field: &[u8], word: &[u8]) -> bool
    ensures { result ≡ bytes_eq field.now word.now }
{
    field == word
}

/// The setup that a line says.
pub(crate) fn read_setup(line: &[u8]) -> Option<Setup>
    ensures { MatchOption result ((setup : SetupOf)
        → ¬ IsSetupLine line.now setup) (IsSetupLine line.now) }
{
    let numbers = setup_numbers(line)?;
    let SetupNumbers {
        order,
        rings,
        seats,
        limit,
    } = numbers;
    if order > MOST_ORDER || rings > MOST_RINGS || seats > u64::from(u32::MAX) {
        return None;
    }
    match Setup::new(order as u32, rings as u32, seats as u32, limit) {
        Ok(setup) => Some(setup),
        Err(_) => None,
    }
}

fn setup_numbers(line: &[u8]) -> Option<SetupNumbers>
    ensures { result ≡ setup_said (fields_of line.now) }
{
    let (word, rest) = first_field(line);
    let (order, rest) = next_field(rest)?;
    let (rings, rest) = next_field(rest)?;
    let (seats, rest) = next_field(rest)?;
    let (limit, rest) = next_field(rest)?;
    if next_field(rest).is_some() {
        return None;
    }
    numbers_of(word, order, rings, seats, limit)
}

fn numbers_of(
    word: &[u8],
    order: &[u8],
    rings: &[u8],
    seats: &[u8],
    limit: &[u8],
) -> Option<SetupNumbers>
    ensures { result ≡ setup_said (word.now ∷ order.now ∷ rings.now ∷ seats.now ∷ limit.now ∷ []) }
{
    if !is_word(word, b"setup") {
        return None;
    }
    Some(SetupNumbers {
        order: number(order)?,
        rings: number(rings)?,
        seats: number(seats)?,
        limit: number(limit)?,
    })
}

/// The seat and its step that a line says.
pub(crate) fn read_turn(
    alloc: Global,
    setup: &Setup,
    line: &[u8],
) -> Result<Option<(u32, Step)>, NoMemory>
    ensures turn { IfOk result (λ turn. turn ≡ turn_in setup.now line.now) }
    ensures seat { IfOk result (λ turn. IfSome turn (λ turn. turn.0 < setup.now.seats)) }
    ensures ring { IfOk result (λ turn.
        IfSome turn (λ turn. IfSome (begins_on turn.1) (λ ring. ring < setup.now.rings))) }
{
    let (seat, rest) = first_field(line);
    let Some(seat) = number_below(setup.seats(), seat) else {
        return Ok(None);
    };
    match read_step(alloc, setup, rest)? {
        Some(step) => Ok(Some((seat, step))),
        None => Ok(None),
    }
}

fn read_step(alloc: Global, setup: &Setup, rest: &[u8]) -> Result<Option<Step>, NoMemory>
    ensures step { IfOk result (λ step. step ≡ step_said setup.now (fields_after rest.now)) }
    ensures ring { IfOk result (λ step.
        IfSome step (λ step. IfSome (begins_on step) (λ ring. ring < setup.now.rings))) }
{
    let Some((name, rest)) = next_field(rest) else {
        return Ok(None);
    };
    let Some((ring, rest)) = next_field(rest) else {
        return Ok(bare_step(name));
    };
    match next_field(rest) {
        None => Ok(get(setup, name, ring)),
        Some((index, rest)) => put(alloc, setup, name, ring, index, rest),
    }
}

// `D1 R`
fn get(setup: &Setup, name: &[u8], ring: &[u8]) -> Option<Step>
    ensures step { result ≡ step_said setup.now (name.now ∷ ring.now ∷ []) }
    ensures ring { IfSome result (λ step.
        IfSome (begins_on step) (λ ring. ring < setup.now.rings)) }
{
    match number_below(setup.rings(), ring) {
        Some(ring) if is_word(name, b"D1") => Some(Step::D1 { ring }),
        _ => None,
    }
}

// `E1 R I X`, where X is still to come.
fn put(
    alloc: Global,
    setup: &Setup,
    name: &[u8],
    ring: &[u8],
    index: &[u8],
    rest: &[u8],
) -> Result<Option<Step>, NoMemory>
    ensures step { IfOk result (λ step.
        step ≡ step_said setup.now (name.now ∷ ring.now ∷ index.now ∷ fields_after rest.now)) }
    ensures ring { IfOk result (λ step.
        IfSome step (λ step. IfSome (begins_on step) (λ ring. ring < setup.now.rings))) }
{
    let Some((field, rest)) = next_field(rest) else {
        return Ok(None);
    };
    if !is_word(name, b"E1") || next_field(rest).is_some() {
        return Ok(None);
    }
    let Some(ring) = number_below(setup.rings(), ring) else {
        return Ok(None);
    };
    let Some(index) = number_below(setup.shape().n(), index) else {
        return Ok(None);
    };
    match content(alloc, MOST_CONTENT, field)? {
        Some(content) => Ok(Some(Step::E1 {
            ring,
            index,
            content,
        })),
        None => Ok(None),
    }
}

fn bare_step(name: &[u8]) -> Option<Step>
    ensures step { result ≡ bare_step name.now }
    ensures ring { IfSome result (λ step. begins_on step ≡ None) }
{
    match name {
        b"E1" => Some(Step::E1Again),
        b"E2" => Some(Step::E2),
        b"E3" => Some(Step::E3),
        b"E4" => Some(Step::E4),
        b"E5" => Some(Step::E5),
        b"E6" => Some(Step::E6),
        b"D2" => Some(Step::D2),
        b"D3" => Some(Step::D3),
        b"D4" => Some(Step::D4),
        b"D5" => Some(Step::D5),
        b"D6" => Some(Step::D6),
        b"D7" => Some(Step::D7),
        b"D8" => Some(Step::D8),
        b"D9" => Some(Step::D9),
        b"D10" => Some(Step::D10),
        _ => None,
    }
}
