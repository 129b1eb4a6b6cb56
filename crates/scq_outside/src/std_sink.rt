ghost use Rattle.std.specs.Prelude.{◌≡◌, ◌⊎◌, ◌<◌, ◌≤◌, None, length, IfOk, OnOk, IsErr};
ghost use Rattle.scq_outside.specs.Counts.{Rose, RoseWhere, last_count};

use crate::tried::Tried;
use crate::uninterrupted::write_uninterrupted;
use crate::{Cause, Failed, Sink};
use std::io::{self, Stderr, Stdout, Write};

/// Standard output or standard error, as one type.
#[derive(Drop)]
pub enum StdStream {
    Output(Stdout),
    Errors(Stderr),
}

impl Write for StdStream {
    fn write(&mut self, piece: &[u8]) -> io::Result<usize> {
        match self {
            StdStream::Output(stdout) => stdout.write(piece),
            StdStream::Errors(stderr) => stderr.write(piece),
        }
    }

    fn flush(&mut self) -> io::Result<()> {
        match self {
            StdStream::Output(stdout) => stdout.flush(),
            StdStream::Errors(stderr) => stderr.flush(),
        }
    }
}

/// A stream of the system without a buffer. What it took isn't visible. A write that a signal
/// interrupts took nothing, and is made again; no other is.
#[derive(Drop)]
pub struct StdSink<W: Write + Drop> {
    stream: Tried<W>,
    faults: u64,
}

impl<W: Write + Drop> StdSink<W> {
    pub fn new(stream: W) -> StdSink<W>
        ensures { ⟦<StdSink<W> as Sink>⟧.faults result ≡ 0 }
    {
        StdSink {
            stream: Tried::new(stream),
            faults: 0,
        }
    }

    /// Counts a write that failed.
    fn count(&mut self) -> Failed
        ensures counted { Rose self.old.faults self.new.faults
            × (self.old.faults ≤ self.new.faults) }
        ensures stream { self.new.stream ≡ self.old.stream }
    {
        self.faults = self.faults.saturating_add(1);
        Failed
    }
}

impl<W: Write + Drop> Sink for StdSink<W> {
    ghost faults = { λ sink. sink.faults };

    ghost written = { λ _. None };

    ghost cause = { λ sink. sink.stream.cause };

    fn cause(&self) -> Option<Cause> {
        self.stream.cause()
    }

    /// Of the tries that a call makes one was not interrupted: its answer is the call's.
    fn write(&mut self, piece: &[u8]) -> Result<usize, Failed>
        requires { 0 < length piece.now }
        ensures some { IfOk result (λ k. 0 < k) }
        ensures within { IfOk result (λ k. k ≤ length piece.now) }
        ensures counted { RoseWhere (IsErr result) self.old.faults self.new.faults
            × (self.old.faults ≤ self.new.faults) }
        ensures told { OnOk result (self.new.stream.cause ≡ self.old.stream.cause) }
        ensures once { Rose self.old.stream.settled self.new.stream.settled
            ⊎ (IsErr result × (self.new.stream.settled ≡ self.old.stream.settled)
            × (last_count ≤ self.new.stream.interrupted)) }
    {
        match write_uninterrupted(&mut self.stream, piece) {
            Ok(count) if count > 0 => Ok(count),
            Ok(_) => {
                self.stream.keep(None);
                Err(self.count())
            }
            Err(_) => Err(self.count()),
        }
    }
}
