//! Steps of seats in a setup with two indices, rings and seats.
ghost use Rattle.std.specs.Prelude.{◌≡◌, ℕ, ◌^◌, ◌<◌, ◌≤◌, IfOk, vec_len};
ghost use Rattle.std.specs.List.{All};
ghost use Rattle.scq_core.specs.declared.step.Step.{Step as StepOf};

use crate::steps::{number, step_of};
use anyhow::{Result, ensure};
use scq_core::Step;
use scq_word::{Bytes, NoMemory, Setup};
use std::alloc::Global;

/// A setup with two indices, rings and seats.
pub fn two_of_each(limit: u64) -> Setup
    requires { (16 ≤ limit) × (limit ≤ 2 ^ 60) }
    ensures { (result.order ≡ 1) × (result.rings ≡ 2) × (result.seats ≡ 2) }
{
    Setup {
        order: 1,
        rings: 2,
        seats: 2,
        limit,
    }
}

/// The opening contents.
pub fn opening(alloc: Global) -> Result<Vec<Bytes>, NoMemory>
    ensures { IfOk result (λ opening. vec_len opening ≡ 2) }
{
    let mut opening = Vec::new(alloc);
    opening.push(Bytes::copy_of(alloc, b"a")?)?;
    opening.push(Bytes::copy_of(alloc, b"b")?)?;
    Ok(opening)
}

/// The number of a seat or of a ring.
pub fn one_of_two(text: &str) -> Result<u32>
    ensures { IfOk result (λ number. number < 2) }
{
    let number = number(text);
    ensure!(number < 2, "no such seat or ring");
    Ok(number)
}

/// Steps of this seat.
pub fn push_steps(alloc: Global, seat: u32, text: &str, steps: &mut Vec<(u32, Step)>) -> Result<()>
    requires seat { seat < 2 }
    requires seats { All (λ (x : ℕ × StepOf). x.0 < 2) steps.old.items }
    ensures { All (λ (x : ℕ × StepOf). x.0 < 2) steps.new.items }
{
    for word in text.split_whitespace() {
        steps.push((seat, step_of(alloc, word)?))?;
    }
    Ok(())
}
