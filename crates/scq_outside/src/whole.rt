//! A source read to its end.
ghost use Rattle.std.specs.Prelude.{◌≡◌, ◌^◌, ◌<◌, IfOk, IfErr, OnOk, OnErr, IsErrOf};
ghost use Rattle.scq_outside.specs.Counts.{RoseWhere, Rose};
ghost use Rattle.scq_outside.specs.Taking.{TookAll, TookUntil};

use crate::{ReadAllFault, Source};
use scq_word::{Bytes, NoMemory};
use std::alloc::Global;

/// The most bytes that one read is asked for.
const PIECE: usize = 4096;

/// All bytes that are left of a source, where they are at most `most`. It reads one byte more at
/// most.
pub fn read_all<S: Source>(alloc: Global, source: &mut S, most: u64) -> Result<Bytes, ReadAllFault>
    requires { most < 2 ^ 31 }
    ensures all { IfOk result (TookAll most (S.left source.old) (S.left source.new)) }
    ensures until { IfErr result (TookUntil most (S.left source.old) (S.left source.new)) }
    ensures ended { OnOk result (Rose (S.ends source.old) (S.ends source.new)) }
    ensures not_ended { OnErr result (S.ends source.new ≡ S.ends source.old) }
    ensures faults { RoseWhere (IsErrOf result ReadAllFault.ReadFault)
        (S.faults source.old) (S.faults source.new) }
{
    let limit = most as usize + 1;
    let mut bytes = Vec::new(alloc);
    let mut piece = [0; PIECE];
    'reads: loop {
        let wanted = PIECE.min(limit - bytes.len());
        let count = source.read(&mut piece[..wanted])?;
        if count == 0 {
            return Ok(Bytes::from(bytes));
        }
        bytes
            .extend_from_slice(&piece[..count])
            .map_err(|_| NoMemory)?;
        if bytes.len() == limit {
            return Err(ReadAllFault::TooLarge {
                bytes: limit as u64,
            });
        }
    }
}
