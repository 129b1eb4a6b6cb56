//! Runs the machine over rows that stand in files: steps made one by one, schedules replayed, and
//! orders of their calls. It prints each row whose answer is another, and how many rows of each
//! file ran. `rows_text` has the form of a row. Of a file `*.schedule`, which is a schedule as `scq
//! replay` reads it, it prints how long no call ends.
#![tactic(auto)]

mod long;
mod orders;
mod replays;
mod schedules;
mod steps;
mod windows;

use anyhow::{Result, anyhow};
use long::{copied, repeated};
use orders::ordered;
use replays::replayed_lines;
use rows_text::{Calls, run_file};
use std::alloc::Global;
use std::{env, fs};
use steps::stepped_through;
use windows::longest_window;

/// The calls of the machine.
struct Machine;

impl Calls for Machine {
    fn add_answer(&self, alloc: Global, into: &mut String, call: &str, given: &str) -> Result<()> {
        match call {
            "steps" => stepped_through(alloc, into, given),
            "replayed" => replayed_lines(alloc, into, given),
            "ordered" => ordered(alloc, into, given),
            "repeated" => repeated(alloc, into, given),
            "copied" => copied(alloc, into, given),
            _ => Err(anyhow!("no such call")),
        }
    }
}

fn tell_window(rt: HostRuntime, name: &str) -> Result<()> {
    let schedule = fs::read_to_string(&rt, name)?;
    let window = longest_window(rt.alloc(), &schedule)?;
    println!(rt; "{name}: {window}")?;
    Ok(())
}

fn main(rt: HostRuntime) -> Result<()> {
    for name in env::args(&rt)?.skip(1) {
        if name.ends_with(".schedule") {
            tell_window(rt, &name)?;
        } else {
            run_file(&rt, &Machine, &name)?;
        }
    }
    Ok(())
}
