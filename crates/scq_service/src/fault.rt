use scq_check::HistoryFault;
use scq_judge::{JudgeFault, Shared};
use scq_replay::ScheduleFault;
use scq_word::NoMemory;
use scq_words::WordsFault;

/// The greatest number of bytes of a recording.
const MOST_RECORDING: u64 = (1 << 31) - 2;

/// Why the program ends with another status than 0. Files and lines are numbered from 1.
#[derive(Clone, Copy, Debug, PartialEq, Eq)]
pub enum Fault {
    Words(WordsFault),
    /// The source of this file wasn't got.
    OpenFault {
        file: u32,
    },
    /// A read of this file failed.
    ReadFault {
        file: u32,
    },
    /// This line of this file has a payload of so many bytes, more than the limit.
    TooLong {
        file: u32,
        line: u32,
        len: u64,
        limit: u32,
    },
    /// This file has more bytes than the limit.
    TooLarge {
        file: u32,
        limit: u64,
    },
    WriteFault,
    /// This line of a history or schedule is not of the form, or is one line too many.
    BadLine {
        line: u32,
    },
    /// The step of this line of a schedule is not enabled.
    NotEnabled {
        line: u32,
    },
    /// After all steps of a schedule whose orders are asked for, this seat is in the middle of a
    /// call.
    Unfinished {
        seat: u32,
    },
    /// The event of this line of a history is out of place.
    Unlawful {
        line: u32,
    },
    /// This line of this file of recordings is not of the form, or may not stand there.
    BadLineOf {
        file: u32,
        line: u32,
    },
    /// The event of this line of this file of recordings has the stamp or the seat of one in
    /// another file.
    SharedOf {
        what: Shared,
        file: u32,
        line: u32,
        other_file: u32,
        other_line: u32,
    },
    /// This file of recordings is of another run than the other file.
    TwoRunsOf {
        file: u32,
        run: u64,
        other_file: u32,
        other_run: u64,
    },
    /// The event of this line of this file of recordings is out of place.
    UnlawfulOf {
        file: u32,
        line: u32,
    },
    /// A line of the report, which was written, fails.
    AspectFails,
    /// A line of the report, which was written, says `not tested`, and none fails.
    NotTested,
    /// Recordings whose orders are asked for are not linearizable.
    NotLinearizable,
    /// A call of theirs never ended, which leaves open whether they are.
    NeverEnded,
    /// They are, but no order was found.
    NotFound,
    NoMemory,
}

impl Fault {
    ghost use Rattle.std.specs.Prelude.{◌≡◌};
    ghost use Rattle.scq_service.specs.Faults.{status_of_fault};

    pub fn status(&self) -> u8
        ensures { result ≡ status_of_fault self.now }
    {
        match self {
            Fault::TooLong { .. } => 1,
            Fault::Words(_) => 2,
            Fault::OpenFault { .. } | Fault::ReadFault { .. } => 3,
            Fault::WriteFault => 4,
            Fault::NoMemory => 5,
            Fault::TooLarge { .. } => 6,
            Fault::BadLine { .. } | Fault::BadLineOf { .. } => 8,
            Fault::SharedOf { .. } | Fault::TwoRunsOf { .. } => 8,
            Fault::NotEnabled { .. } => 9,
            Fault::Unlawful { .. } | Fault::UnlawfulOf { .. } => 10,
            Fault::Unfinished { .. } | Fault::NeverEnded => 11,
            Fault::AspectFails | Fault::NotLinearizable => 12,
            Fault::NotTested => 13,
            Fault::NotFound => 14,
        }
    }
}

impl From<NoMemory> for Fault {
    ghost use Rattle.std.specs.Prelude.{◌≡◌};
    ghost use Rattle.scq_service.specs.declared.fault.Fault.TheVariants.{NoMemory as Wanted};

    ghost from_gives = { λ _ fault. fault ≡ Wanted };

    fn from(_: NoMemory) -> Fault {
        Fault::NoMemory
    }
}

impl From<HistoryFault> for Fault {
    ghost use Rattle.std.specs.Prelude.{◌≡◌};
    ghost use Rattle.scq_service.specs.Faults.{fault_of_history};

    ghost from_gives = { λ refused fault. fault ≡ fault_of_history refused };

    fn from(refused: HistoryFault) -> Fault {
        match refused {
            HistoryFault::BadLine { line } => Fault::BadLine { line },
            HistoryFault::Unlawful { line } => Fault::Unlawful { line },
            HistoryFault::NoMemory => Fault::NoMemory,
        }
    }
}

impl From<ScheduleFault> for Fault {
    ghost use Rattle.std.specs.Prelude.{◌≡◌};
    ghost use Rattle.scq_service.specs.Faults.{fault_of_schedule};

    ghost from_gives = { λ refused fault. fault ≡ fault_of_schedule refused };

    fn from(refused: ScheduleFault) -> Fault {
        match refused {
            ScheduleFault::BadLine { line } => Fault::BadLine { line },
            ScheduleFault::NotEnabled { line } => Fault::NotEnabled { line },
            ScheduleFault::Unfinished { seat } => Fault::Unfinished { seat },
            ScheduleFault::NoMemory => Fault::NoMemory,
        }
    }
}

impl From<JudgeFault> for Fault {
    ghost use Rattle.std.specs.Prelude.{◌≡◌};
    ghost use Rattle.scq_service.specs.Faults.{fault_of_judge};

    ghost from_gives = { λ refused fault. fault ≡ fault_of_judge refused };

    fn from(refused: JudgeFault) -> Fault {
        match refused {
            JudgeFault::BadLine { file, line } => Fault::BadLineOf { file, line },
            JudgeFault::Shared {
                what,
                file,
                line,
                other_file,
                other_line,
            } => Fault::SharedOf {
                what,
                file,
                line,
                other_file,
                other_line,
            },
            JudgeFault::TwoRuns {
                file,
                run,
                other_file,
                other_run,
            } => Fault::TwoRunsOf {
                file,
                run,
                other_file,
                other_run,
            },
            JudgeFault::Unlawful { file, line } => Fault::UnlawfulOf { file, line },
            JudgeFault::ReadFault { file } => Fault::ReadFault { file },
            JudgeFault::TooLarge { file } => Fault::TooLarge {
                file,
                limit: MOST_RECORDING,
            },
            JudgeFault::NoMemory => Fault::NoMemory,
        }
    }
}
