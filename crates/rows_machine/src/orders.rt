//! One-thread orders of the calls of schedules.
ghost use Rattle.std.specs.Prelude.{◌≡◌, ℕ, ◌<◌, IfOk};
ghost use Rattle.std.specs.List.{All};
ghost use Rattle.scq_core.specs.declared.step.Step.{Step as StepOf};

use crate::schedules::{one_of_two, opening, push_steps, two_of_each};
use anyhow::Result;
use scq_core::Step;
use scq_law::{OrderFault, Ordered, one_order};
use std::alloc::{AllocError, Global};

/// The steps of one seat.
fn push_piece(alloc: Global, piece: &str, steps: &mut Vec<(u32, Step)>) -> Result<()>
    requires { All (λ (x : ℕ × StepOf). x.0 < 2) steps.old.items }
    ensures { All (λ (x : ℕ × StepOf). x.0 < 2) steps.new.items }
{
    let (seat, words) = piece.split_once(' ').unwrap_or((piece, ""));
    push_steps(alloc, one_of_two(seat)?, words, steps)
}

fn steps_of(alloc: Global, text: &str) -> Result<Vec<(u32, Step)>>
    ensures { IfOk result (λ steps. All (λ (x : ℕ × StepOf). x.0 < 2) steps.items) }
{
    let mut steps = Vec::new(alloc);
    for piece in text.split("; ") {
        push_piece(alloc, piece, &mut steps)?;
    }
    Ok(steps)
}

/// The order of a ring, from the start of a setup with two indices, rings and seats, where 16 is
/// the limit of tickets.
fn order_of(alloc: Global, steps: &[(u32, Step)], queue: u32) -> Result<Vec<Ordered>, OrderFault>
    requires seats { All (λ (x : ℕ × StepOf). x.0 < 2) steps.now }
    requires queue { queue < 2 }
{
    one_order(alloc, two_of_each(16), opening(alloc)?, steps, queue)
}

fn show_call(into: &mut String, ordered: &Ordered) -> Result<(), AllocError> {
    match ordered {
        Ordered::Opening { number } => write!(into, "t{number} "),
        Ordered::Call { seat, number } => write!(into, "{seat}.{number} "),
    }
}

fn show_order(into: &mut String, order: &[Ordered]) -> Result<(), AllocError> {
    for ordered in order {
        show_call(into, ordered)?;
    }
    Ok(())
}

/// Adds an order, or why there is none.
fn show(into: &mut String, order: Result<Vec<Ordered>, OrderFault>) -> Result<(), AllocError> {
    match order {
        Ok(order) => show_order(into, &order),
        Err(fault) => write!(into, "{fault}"),
    }
}

/// `RING; SEAT STEPS; ..`: the order of the ring's calls, or why there is none. `t0` is the first
/// opening put, and `1.2` the second call of seat 1. The limit of tickets is 16.
pub fn ordered(alloc: Global, into: &mut String, given: &str) -> Result<()> {
    let (ring, pieces) = given.split_once("; ").unwrap_or((given, ""));
    let ring = one_of_two(ring)?;
    let steps = steps_of(alloc, pieces)?;
    Ok(show(into, order_of(alloc, &steps, ring))?)
}
