use crate::Failed;
use scq_word::NoMemory;
use thiserror::Error;

/// Why a source was not read to its end.
#[derive(Clone, Copy, Debug, PartialEq, Eq, Error)]
pub enum ReadAllFault {
    /// A read failed: the source's count of faults rose.
    #[error("a read failed")]
    ReadFault,
    /// So many bytes were read, one more than the limit.
    #[error("more bytes than the limit: {bytes} were read")]
    TooLarge { bytes: u64 },
    /// Memory was wanted and not there.
    #[error("out of memory")]
    NoMemory,
}

impl From<Failed> for ReadAllFault {
    ghost use Rattle.std.specs.Prelude.{◌≡◌};
    ghost use Rattle.scq_outside.specs.declared.read_all_fault.ReadAllFault.TheVariants.{ReadFault};

    ghost from_gives = { λ _ fault. fault ≡ ReadFault };

    fn from(_: Failed) -> ReadAllFault {
        ReadAllFault::ReadFault
    }
}

impl From<NoMemory> for ReadAllFault {
    ghost use Rattle.std.specs.Prelude.{◌≡◌};
    ghost use Rattle.scq_outside.specs.declared.read_all_fault.ReadAllFault.TheVariants.{
      NoMemory as Wanted,
    };

    ghost from_gives = { λ _ fault. fault ≡ Wanted };

    fn from(_: NoMemory) -> ReadAllFault {
        ReadAllFault::NoMemory
    }
}
