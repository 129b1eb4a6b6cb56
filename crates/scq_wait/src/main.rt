//! The program `scq_wait`, which takes the words of `scq run` and lets idle workers wait in place
//! of leaving early: it makes the real files, standard output and standard error, calls
//! `serve_waiting` of `scq_service`, whose contract says what is written and why, and ends with its
//! status. It has no contract of its own: what a real file or stream holds, no clause can say.
#![tactic(auto)]

use scq_outside::{DiskFiles, StdSink, StdStream};
use scq_service::{Fault, report, serve_waiting};
use scq_work::FreeGate;
use std::alloc::{AllocError, Global};
use std::env::Env;
use std::process::ExitCode;
use std::{env, io};

fn main(rt: HostRuntime) -> ExitCode {
    let alloc = rt.alloc();
    let mut files = DiskFiles::new(&rt, rt.stdin());
    let mut out = StdSink::new(StdStream::Output(rt.stdout()));
    let mut err = StdSink::new(StdStream::Errors(rt.stderr()));
    let status = match words(&rt, alloc) {
        Ok(words) => serve_waiting(
            &rt, alloc, &words, &mut files, &mut out, &mut err, &FreeGate,
        )
        .status,
        Err(AllocError) => {
            let _ = report(&mut err, &Fault::NoMemory);
            Fault::NoMemory.status()
        }
    };
    ExitCode::from(status)
}

/// The program's arguments without its own name. Where one isn't text there are none, since then
/// the words aren't understood.
fn words(rt: &(impl Env + AllocGlobal), alloc: Global) -> Result<Vec<String>, AllocError> {
    match env::args(rt) {
        Ok(mut args) => {
            let _ = args.next();
            args.collect(alloc)
        }
        Err(error) if error.kind() == io::ErrorKind::OutOfMemory => Err(AllocError),
        Err(_) => Ok(Vec::new(alloc)),
    }
}
