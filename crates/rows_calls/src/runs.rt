//! Runs judged.
ghost use Rattle.std.specs.Prelude.{◌≡◌, ℕ, ◌<◌, IfOk, vec_len};
ghost use Rattle.std.specs.List.{All};
ghost use Rattle.scq_core.specs.declared.step.Step.{Step as StepOf};

use crate::row::Row;
use scq_check::{Verdict, verdict_text};
use scq_core::Step;
use scq_replay::judge_run;
use scq_word::{Bytes, NoMemory, Setup};
use std::alloc::Global;

/// A get that takes nothing, and one step more, which isn't enabled.
const STEPS: [(u32, Step); 5] = [
    (0, Step::D1 { ring: 0 }),
    (0, Step::D2),
    (0, Step::D3),
    (0, Step::D4),
    (0, Step::E2),
];

fn opening(alloc: Global) -> Result<Vec<Bytes>, NoMemory>
    ensures { IfOk result (λ opening. vec_len opening ≡ 2) }
{
    let mut opening = Vec::new(alloc);
    opening.push(Bytes::copy_of(alloc, b"a")?)?;
    opening.push(Bytes::copy_of(alloc, b"b")?)?;
    Ok(opening)
}

/// Adds the verdict of a run of one seat, or why there is none.
fn put_judged(row: &mut Row, steps: &[(u32, Step)])
    requires { All (λ (x : ℕ × StepOf). x.0 < 1) steps.now }
{
    let setup = Setup {
        order: 1,
        rings: 2,
        seats: 1,
        limit: 1000,
    };
    let Ok(opening) = opening(row.alloc) else {
        return row.fail();
    };
    match judge_run(row.alloc, setup, opening, steps) {
        Ok(verdict) => put_verdict(row, &verdict),
        Err(fault) => row.put_value(&fault),
    }
}

fn put_verdict(row: &mut Row, verdict: &Verdict) {
    match verdict_text(row.alloc, verdict) {
        Ok(text) => row.put_bytes(text.bytes()),
        Err(_) => row.fail(),
    }
}

/// `more` is a get and a step that isn't enabled, `alone` that step, and anything else the get.
pub fn run(row: &mut Row, given: &str) {
    let steps = &STEPS[..];
    match given {
        "alone" => put_judged(row, &steps[4..]),
        "more" => put_judged(row, steps),
        _ => put_judged(row, &steps[..4]),
    }
}
