//! The fault of all workers.
ghost use Rattle.std.specs.Prelude.{◌≡◌};
ghost use Rattle.scq_desk.specs.Faults.{fault_of_workers};

use scq_frames::FrameFault;

/// Why workers make nothing of the messages. Files and lines are numbered from 1.
#[derive(Clone, Copy, Debug, PartialEq, Eq)]
pub enum EndFault {
    /// A read of this file failed.
    Read { file: u32 },
    /// This line of this file has a payload of so many bytes, more than a payload may have.
    TooLong { file: u32, line: u32, len: u64 },
    /// So many bytes of this file were read, one more than a file may have.
    TooLarge { file: u32, bytes: u64 },
    NoMemory,
}

/// The fault of the workers: want of memory where any met it, else the first one.
pub(crate) fn fault_of_all(starved: bool, first: Option<(u32, FrameFault)>) -> Option<EndFault>
    ensures { result ≡ fault_of_workers starved first }
{
    if starved {
        return Some(EndFault::NoMemory);
    }
    let (file, fault) = first?;
    Some(match fault {
        FrameFault::ReadFault => EndFault::Read { file },
        FrameFault::TooLong { line, len } => EndFault::TooLong { file, line, len },
        FrameFault::TooLarge { bytes } => EndFault::TooLarge { file, bytes },
        FrameFault::NoMemory => EndFault::NoMemory,
    })
}
