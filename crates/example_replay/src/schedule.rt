//! The steps of a schedule as text: `E1 RING INDEX CONTENT` and `D1 RING` begin a call, `E1` draws
//! the next ticket of an enqueue, and the other steps, `E2` to `E6` and `D2` to `D10`, are their
//! names alone.

use anyhow::{Context, Result, anyhow};
use scq_core::Step;
use scq_word::Bytes;
use std::alloc::Global;

pub fn step_of(alloc: Global, text: &str) -> Result<Step> {
    let mut words = text.split(' ');
    let name = words.next().context("no step")?;
    match (name, words.next(), words.next(), words.next()) {
        ("E1", Some(ring), Some(index), Some(content)) => Ok(Step::E1 {
            ring: ring.parse::<u32>()?,
            index: index.parse::<u32>()?,
            content: Bytes::from(Vec::from_slice(alloc, content.as_bytes())?),
        }),
        ("D1", Some(ring), None, None) => Ok(Step::D1 {
            ring: ring.parse::<u32>()?,
        }),
        (_, None, None, None) => bare_step(name).context("no such step"),
        _ => Err(anyhow!("words that the step doesn't have")),
    }
}

fn bare_step(name: &str) -> Option<Step> {
    match name {
        "E1" => Some(Step::E1Again),
        "E2" => Some(Step::E2),
        "E3" => Some(Step::E3),
        "E4" => Some(Step::E4),
        "E5" => Some(Step::E5),
        "E6" => Some(Step::E6),
        "D2" => Some(Step::D2),
        "D3" => Some(Step::D3),
        "D4" => Some(Step::D4),
        "D5" => Some(Step::D5),
        "D6" => Some(Step::D6),
        "D7" => Some(Step::D7),
        "D8" => Some(Step::D8),
        "D9" => Some(Step::D9),
        "D10" => Some(Step::D10),
        _ => None,
    }
}
