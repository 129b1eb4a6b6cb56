use scq_outside::Failed;
use scq_word::NoMemory;
use thiserror::Error;

/// Why a framer gives no further message.
#[derive(Clone, Copy, Debug, PartialEq, Eq, Error)]
pub enum FrameFault {
    /// A read failed: the source's count of faults rose.
    #[error("a read failed")]
    ReadFault,
    /// A line's payload has so many bytes, more than the framer allows. Lines are numbered from 1.
    #[error("line {line}: payload of {len} bytes is too long")]
    TooLong { line: u32, len: u64 },
    /// So many bytes were read, one more than the framer's limit.
    #[error("more bytes than the limit: {bytes} were read")]
    TooLarge { bytes: u64 },
    /// Memory was wanted and not there.
    #[error("out of memory")]
    NoMemory,
}

impl From<Failed> for FrameFault {
    ghost use Rattle.std.specs.Prelude.{◌≡◌};
    ghost use Rattle.scq_frames.specs.declared.fault.FrameFault.TheVariants.{ReadFault};

    ghost from_gives = { λ _ fault. fault ≡ ReadFault };

    fn from(_: Failed) -> FrameFault {
        FrameFault::ReadFault
    }
}

impl From<NoMemory> for FrameFault {
    ghost use Rattle.std.specs.Prelude.{◌≡◌};
    ghost use Rattle.scq_frames.specs.declared.fault.FrameFault.TheVariants.{NoMemory};

    ghost from_gives = { λ _ fault. fault ≡ NoMemory };

    fn from(_: NoMemory) -> FrameFault {
        FrameFault::NoMemory
    }
}
