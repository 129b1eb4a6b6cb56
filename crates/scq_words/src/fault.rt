use scq_topics::TopicFault;
use std::alloc::AllocError;
use thiserror::Error;

/// Why the words of a command line are refused. The text is the line that the program reports.
#[derive(Clone, Copy, Debug, PartialEq, Eq, Error)]
pub enum WordsFault {
    /// There is no such command, or an argument is unknown, missing, given twice or without a
    /// value.
    #[error("words not understood")]
    NotUnderstood,
    #[error("workers is not in 1..4096")]
    Workers,
    #[error("order is not in 1..12")]
    Order,
    #[error("size is not in 1..65536")]
    Size,
    /// An entry of the topics is refused.
    #[error("{0}")]
    Topics(TopicFault),
    #[error("more than 64 files")]
    TooManyFiles,
    /// So of `judge`, which reads one file after the other.
    #[error("more than 4096 files")]
    TooManyRecordings,
    /// This file, numbered from 1, is the empty text.
    #[error("file {file} has no name")]
    NoName { file: u32 },
    #[error("seed is not in 0..2147483647")]
    Seed,
    #[error("lines is not in 1..1000000")]
    Lines,
    #[error("room is not in 1..4294967295")]
    Room,
}

/// Why no request was read.
#[derive(Clone, Copy, Debug, PartialEq, Eq, Error)]
pub enum WordsError {
    /// The words are refused.
    #[error("{0}")]
    Refused(WordsFault),
    /// Memory was wanted and not there.
    #[error("out of memory")]
    NoMemory,
}

impl From<WordsFault> for WordsError {
    ghost use Rattle.std.specs.Prelude.{◌≡◌};
    ghost use Rattle.scq_words.specs.declared.fault.WordsError.TheVariants.{Refused};

    ghost from_gives = { λ fault error. error ≡ Refused fault };

    fn from(fault: WordsFault) -> WordsError {
        WordsError::Refused(fault)
    }
}

impl From<AllocError> for WordsError {
    ghost use Rattle.std.specs.Prelude.{◌≡◌};
    ghost use Rattle.scq_words.specs.declared.fault.WordsError.TheVariants.{NoMemory};

    ghost from_gives = { λ _ error. error ≡ NoMemory };

    fn from(_: AllocError) -> WordsError {
        WordsError::NoMemory
    }
}
