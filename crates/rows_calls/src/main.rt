//! Runs calls of the libraries over rows that stand in files, prints each row whose answer is
//! another, and how many rows of each file ran; and then reads files of the system and writes to
//! its streams. `calls.rt` has the calls, and `rows_text` the form of a row.
#![tactic(auto)]

mod answers;
mod buffers;
mod calls;
mod entries;
mod faults;
mod framed;
mod histories;
mod lined;
mod outside;
mod row;
mod runs;
mod staged;
mod topical;
mod worded;

use anyhow::{Context, Result};
use calls::Libraries;
use outside::{on_stream, put_file, put_whole};
use row::Row;
use rows_text::run_file;
use scq_outside::StdStream;
use std::env;

fn main(rt: HostRuntime) -> Result<()> {
    for name in env::args(&rt)?.skip(1) {
        run_file(&rt, &Libraries, &name)?;
    }
    // A name is taken as it stands, with the spaces at its ends.
    read_file(&rt, "outside.txt")?;
    read_file(&rt, " outside ")?;
    read_whole(&rt, 4096)?;
    read_whole(&rt, 10_000)?;
    write_stream(&rt, StdStream::Output(rt.stdout()))?;
    write_stream(&rt, StdStream::Errors(rt.stderr()))
}

fn read_file(rt: &HostRuntime, name: &str) -> Result<()> {
    let mut row = Row::new(rt.alloc());
    put_file(&mut row, rt, rt.stdin(), name);
    let given = row.answer().context("a file of the system")?;
    println!(rt; "file: {given:?}")?;
    Ok(())
}

fn read_whole(rt: &HostRuntime, bytes: u32) -> Result<()> {
    let mut row = Row::new(rt.alloc());
    put_whole(&mut row, rt, rt.stdin(), bytes);
    let given = row.answer().context("a file of the system")?;
    println!(rt; "file of {bytes} bytes: {given}")?;
    Ok(())
}

fn write_stream(rt: &HostRuntime, stream: StdStream) -> Result<()> {
    let (taken, bytes) = on_stream(rt, stream);
    println!(rt; "stream: {taken}, {bytes} bytes")?;
    Ok(())
}
