//! Runs calls of the band, of the queue and of its ports over rows that stand in files, prints each
//! row whose answer is another, and how many rows of each file ran; and then lets two threads pass
//! indices round, and two workers of a crew rest and wake each other. `calls.rt` and `pair.rt` have
//! the calls of the queue, `ports.rt` those of its ports, `moves.rt` those of the band, and
//! `rows_text` has the form of a row.
#![tactic(auto)]

mod bands;
mod calls;
mod crews;
mod moves;
mod pair;
mod ports;
mod replies;
mod threads;
mod ways;

use anyhow::{Result, anyhow};
use bands::lifted;
use calls::called;
use crews::{in_turn, woken};
use moves::moves;
use pair::told;
use ports::ported;
use rows_text::{Calls, run_file};
use std::alloc::Global;
use std::env;
use std::sync::Wait;
use std::thread::Threads;
use threads::two_threads;

/// The calls of the band, of the queue and of its ports.
struct Queues;

impl Calls for Queues {
    fn add_answer(&self, alloc: Global, into: &mut String, call: &str, given: &str) -> Result<()> {
        match call {
            "moves" => moves(alloc, into, given),
            "lifted" => lifted(alloc, into),
            "called" => called(alloc, into, given),
            "told" => told(alloc, into, given),
            "ported" => ported(alloc, into, given),
            _ => Err(anyhow!("no such call")),
        }
    }
}

/// How often each of two threads passes an index there and back.
const ROUNDS: u32 = 20_000;

/// How often each of two workers wakes the other.
const WAKES: u32 = 1_000;

fn run_threads<R: Threads + Wait + Sync + Print>(rt: &R, alloc: Global) -> Result<()> {
    let kept = two_threads(rt, alloc, ROUNDS)?;
    println!(rt; "two threads: {kept}")?;
    let rested = woken(rt, alloc)?;
    println!(rt; "a crew of two, rests and wakes: {rested}")?;
    let rested = in_turn(rt, alloc, WAKES)?;
    println!(rt; "two threads of a crew, in turn: {rested}")?;
    Ok(())
}

fn main(rt: HostRuntime) -> Result<()> {
    for name in env::args(&rt)?.skip(1) {
        run_file(&rt, &Queues, &name)?;
    }
    run_threads(&rt, rt.alloc())
}
