//! What is read from or written to, with counts of how each try ended.
ghost use Rattle.std.specs.Prelude.{◌≡◌, None, take, IfOk, OnErr};
ghost use Rattle.std.specs.Io.{ReadsAtMost, WritesAtMost};
ghost use Rattle.std.specs.Io.KnownBytes.{Keeps, Appends, Consumes};
ghost use Rattle.scq_outside.specs.Tries.{CountsTry};

use crate::Cause;
use std::io::{self, ErrorKind, Read, Write};
use std::marker::Model;

/// A device with two counts, which stand still at the last value of a u64: of the tries that a
/// signal interrupted, and of those that it didn't. Contracts say by them which tries are made
/// again. And it keeps what is known of the last try that failed, but for those that a signal
/// interrupted.
#[derive(Drop)]
pub struct Tried<D> {
    device: D,
    settled: u64,
    interrupted: u64,
    cause: Option<Cause>,
}

impl<D> Model for Tried<D> {
    ghost use Rattle.scq_outside.specs.Tries.{Tries};

    ghost Value = { Tries D };

    ghost view = { λ t.
        record {
          device = t.device;
          settled = t.settled;
          interrupted = t.interrupted;
          cause = t.cause;
        } };
}

impl<D> Tried<D> {
    /// No try was made yet.
    pub fn new(device: D) -> Tried<D>
        ensures { result ≡ record {
          device = device;
          settled = 0;
          interrupted = 0;
          cause = None;
        } }
    {
        Tried {
            device,
            settled: 0,
            interrupted: 0,
            cause: None,
        }
    }

    /// What the last try that failed failed by, where that is known.
    pub fn cause(&self) -> Option<Cause>
        ensures { result ≡ self.now.cause }
    {
        self.cause
    }

    /// Keeps this of a call that failed by no try.
    pub fn keep(&mut self, cause: Option<Cause>)
        ensures cause { self.new.cause ≡ cause }
        ensures device { self.new.device ≡ self.old.device }
        ensures counts { (self.new.settled ≡ self.old.settled)
            × (self.new.interrupted ≡ self.old.interrupted) }
    {
        self.cause = cause;
    }

    /// Counts a try that ended so.
    fn count(&mut self, ended: &io::Result<usize>)
        ensures counted { CountsTry ended.now self.old self.new }
        ensures device { self.new.device ≡ self.old.device }
    {
        match ended {
            Err(error) if error.kind() == ErrorKind::Interrupted => {
                self.interrupted = self.interrupted.saturating_add(1);
            }
            Err(error) => {
                self.settled = self.settled.saturating_add(1);
                self.cause = Cause::of(error.kind());
            }
            Ok(_) => self.settled = self.settled.saturating_add(1),
        }
    }
}

impl<R: Read> Tried<R> {
    /// Tries once to read.
    pub fn try_read(&mut self, into: &mut [u8]) -> io::Result<usize>
        ensures within { ReadsAtMost result into.new }
        ensures moved { IfOk result (λ k. Consumes (R.remaining self.old.device)
            (R.remaining self.new.device) (take k into.new)) }
        ensures unmoved { OnErr result
            (Keeps (R.remaining self.old.device) (R.remaining self.new.device)) }
        ensures counted { CountsTry result self.old self.new }
    {
        let result = self.device.read(into);
        self.count(&result);
        result
    }
}

impl<W: Write> Tried<W> {
    /// Tries once to write.
    pub fn try_write(&mut self, piece: &[u8]) -> io::Result<usize>
        ensures within { WritesAtMost result piece.now }
        ensures appended { IfOk result (λ k. Appends (W.contents self.old.device)
            (W.contents self.new.device) (take k piece.now)) }
        ensures unwritten { OnErr result
            (Keeps (W.contents self.old.device) (W.contents self.new.device)) }
        ensures counted { CountsTry result self.old self.new }
    {
        let result = self.device.write(piece);
        self.count(&result);
        result
    }
}
