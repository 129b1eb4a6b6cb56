//! Crews of two workers: what their calls do on one thread, and that two threads that rest in turn
//! wake each other.
ghost use Rattle.std.specs.Prelude.{◌≡◌, ◌<◌, ◌≤◌, [], length, vec_capacity};
ghost use Rattle.scq_park.specs.Exports.{first_post, first_posts};

use anyhow::Result;
use scq_park::{Crew, Rested, Stand};
use std::alloc::{AllocError, Global};
use std::sync::Wait;
use std::thread::{Threads, join};

/// The stands of a crew of two, and the list that they stood in.
fn two_of(crew: &Crew, mut stands: Vec<Stand>) -> (Vec<Stand>, Stand, Stand)
    requires { stands.items ≡ first_posts crew.now 2 }
    ensures room { (result.0.items ≡ []) × (2 ≤ vec_capacity result.0) }
    ensures first { result.1 ≡ first_post crew.now 0 }
    ensures second { result.2 ≡ first_post crew.now 1 }
{
    let Some(second) = stands.pop() else {
        unreachable!()
    };
    let Some(first) = stands.pop() else {
        unreachable!()
    };
    (stands, first, second)
}

/// Closes a crew of two.
fn close_two(crew: Crew, mut stands: Vec<Stand>, first: Stand, second: Stand) -> Vec<Rested>
    requires two { length crew ≡ 2 }
    requires room { (stands.items ≡ []) × (2 ≤ vec_capacity stands) }
    requires first { (first.crew ≡ crew) × (first.worker ≡ 0) }
    requires second { (second.crew ≡ crew) × (second.worker ≡ 1) }
{
    stands.push_reserved(first);
    stands.push_reserved(second);
    crew.close(stands)
}

/// The first worker wakes the second twice, which rests once.
fn woken_twice<R: Wait>(rt: &R, crew: Crew, stands: Vec<Stand>) -> Vec<Rested>
    requires two { length crew ≡ 2 }
    requires stands { stands.items ≡ first_posts crew 2 }
{
    let (stands, mut first, mut second) = two_of(&crew, stands);
    crew.wake(&mut first, 1);
    crew.wake(&mut first, 1);
    crew.rest(rt, &mut second);
    close_two(crew, stands, first, second)
}

/// Adds how often a worker rested, and was woken.
fn show_rested(into: &mut String, its: &Rested) -> Result<(), AllocError> {
    let comma = if into.is_empty() { "" } else { ", " };
    let (rests, wakes) = (its.rests(), its.wakes());
    write!(into, "{comma}{rests} {wakes}")
}

/// How often each worker rested, and was woken.
fn counted(alloc: Global, rested: &[Rested]) -> Result<String, AllocError> {
    let mut text = String::new(alloc);
    for its in rested {
        show_rested(&mut text, its)?;
    }
    Ok(text)
}

/// One rest takes two wakes.
pub fn woken<R: Wait>(rt: &R, alloc: Global) -> Result<String> {
    let (crew, stands) = Crew::make(alloc, 2)?;
    let rested = woken_twice(rt, crew, stands);
    Ok(counted(alloc, rested.as_slice())?)
}

/// Wakes the other and rests, so many times; or rests first.
fn take_turns<R: Wait>(
    rt: &R,
    crew: &Crew,
    stand: Stand,
    other: u32,
    begins: bool,
    rounds: u32,
) -> Stand
    requires stand { stand.crew ≡ crew.now }
    requires other { other < length crew.now }
    ensures { (result.crew ≡ crew.now) × (result.worker ≡ stand.worker) }
{
    let mut stand = stand;
    if begins {
        crew.wake(&mut stand, other);
    }
    for _ in 0..rounds {
        crew.rest(rt, &mut stand);
        crew.wake(&mut stand, other);
    }
    stand
}

/// Two workers wake each other in turn, each in a thread of its own.
fn both<R: Threads + Wait + Sync>(
    rt: &R,
    crew: Crew,
    stands: Vec<Stand>,
    rounds: u32,
) -> Vec<Rested>
    requires two { length crew ≡ 2 }
    requires stands { stands.items ≡ first_posts crew 2 }
{
    let (stands, first, second) = two_of(&crew, stands);
    let (first, second) = apart(rt, &crew, first, second, rounds);
    close_two(crew, stands, first, second)
}

fn apart<R: Threads + Wait + Sync>(
    rt: &R,
    crew: &Crew,
    first: Stand,
    second: Stand,
    rounds: u32,
) -> (Stand, Stand)
    requires two { length crew.now ≡ 2 }
    requires first { (first.crew ≡ crew.now) × (first.worker ≡ 0) }
    requires second { (second.crew ≡ crew.now) × (second.worker ≡ 1) }
    ensures first { (result.0.crew ≡ crew.now) × (result.0.worker ≡ 0) }
    ensures second { (result.1.crew ≡ crew.now) × (result.1.worker ≡ 1) }
{
    join(
        rt,
        || -> Stand
            requires { (length crew.now ≡ 2) × (first.crew ≡ crew.now) × (first.worker ≡ 0) }
            ensures { (result.crew ≡ crew.entry.now) × (result.worker ≡ 0) }
        { take_turns(rt, crew, first, 1, true, rounds) },
        || -> Stand
            requires { (length crew.now ≡ 2) × (second.crew ≡ crew.now) × (second.worker ≡ 1) }
            ensures { (result.crew ≡ crew.entry.now) × (result.worker ≡ 1) }
        { take_turns(rt, crew, second, 0, false, rounds) },
    )
}

/// Two threads wake each other in turn so many times. Where a wake is lost, this hangs.
pub fn in_turn<R: Threads + Wait + Sync>(rt: &R, alloc: Global, rounds: u32) -> Result<String> {
    let (crew, stands) = Crew::make(alloc, 2)?;
    let rested = both(rt, crew, stands, rounds);
    Ok(counted(alloc, rested.as_slice())?)
}
