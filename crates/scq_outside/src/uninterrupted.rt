//! A read and a write of std that are made again where a signal interrupts them, and nowhere else.
ghost use Rattle.std.specs.Prelude.{◌≡◌, ◌≢◌, take, IfOk, IfErr, OnErr};
ghost use Rattle.std.specs.Io.{ReadsAtMost, WritesAtMost};
ghost use Rattle.std.specs.Io.KnownBytes.{Keeps, Appends, Consumes};
ghost use Rattle.std.specs.IoError.{error_kind};
ghost use Rattle.scq_outside.specs.Causes.{cause_after};
ghost use Rattle.scq_outside.specs.Tries.{SettlesOnce};

use crate::Cause;
use crate::tried::Tried;
use std::io::{self, Error, ErrorKind, Read, Write};

/// One read. Where a signal interrupts it, nothing was taken of the reader, and it is made again:
/// each try but the last was interrupted.
pub fn read_uninterrupted<R: Read>(reader: &mut Tried<R>, into: &mut [u8]) -> io::Result<usize>
    ensures within { ReadsAtMost result into.new }
    ensures moved { IfOk result (λ k. Consumes (R.remaining reader.old.device)
        (R.remaining reader.new.device) (take k into.new)) }
    ensures unmoved { OnErr result
        (Keeps (R.remaining reader.old.device) (R.remaining reader.new.device)) }
    ensures again { IfErr result (λ error. error_kind error ≢ ErrorKind.Interrupted) }
    ensures once { SettlesOnce result reader.old reader.new }
    ensures told { reader.new.cause ≡ cause_after result reader.old.cause }
{
    'tries: for _try in 0..u64::MAX {
        match reader.try_read(into) {
            Err(error) if error.kind() == ErrorKind::Interrupted => {}
            done => return done,
        }
    }
    reader.keep(Cause::of(ErrorKind::TimedOut));
    Err(Error::from(ErrorKind::TimedOut))
}

/// One write. Where a signal interrupts it, the writer took nothing, and it is made again: each try
/// but the last was interrupted.
pub fn write_uninterrupted<W: Write>(writer: &mut Tried<W>, piece: &[u8]) -> io::Result<usize>
    ensures within { WritesAtMost result piece.now }
    ensures appended { IfOk result (λ k. Appends (W.contents writer.old.device)
        (W.contents writer.new.device) (take k piece.now)) }
    ensures unwritten { OnErr result
        (Keeps (W.contents writer.old.device) (W.contents writer.new.device)) }
    ensures again { IfErr result (λ error. error_kind error ≢ ErrorKind.Interrupted) }
    ensures once { SettlesOnce result writer.old writer.new }
    ensures told { writer.new.cause ≡ cause_after result writer.old.cause }
{
    'tries: for _try in 0..u64::MAX {
        match writer.try_write(piece) {
            Err(error) if error.kind() == ErrorKind::Interrupted => {}
            done => return done,
        }
    }
    writer.keep(Cause::of(ErrorKind::TimedOut));
    Err(Error::from(ErrorKind::TimedOut))
}
