//! What faults say.

use crate::row::Row;
use scq_check::HistoryFault;
use scq_core::ApplyFault;
use scq_frames::FrameFault;
use scq_law::ReplayFault;
use scq_outside::{Failed, ReadAllFault};
use scq_replay::ScheduleFault;
use scq_word::{NoMemory, SetupFault};
use scq_words::{WordsError, WordsFault};

/// `TYPE VARIANT`, whose numbers are 7 and 8: what the fault says.
pub fn fault_text(row: &mut Row, given: &str) {
    let (of, variant) = given.split_once(' ').unwrap_or((given, ""));
    match of {
        "NoMemory" => row.put_value(&NoMemory),
        "Failed" => row.put_value(&Failed),
        "ReadAll" => row.put_value(&ReadAllFault::NoMemory),
        "Setup" => row.put_value(&setup(variant)),
        "Apply" => row.put_value(&apply(variant)),
        _ => text_of_reader(row, of, variant),
    }
}

/// The same of what is read and replayed.
fn text_of_reader(row: &mut Row, of: &str, variant: &str) {
    match of {
        "Replay" => row.put_value(&replay(variant)),
        "Frame" => row.put_value(&frame(variant)),
        "History" => row.put_value(&history(variant)),
        "Schedule" => row.put_value(&schedule(variant)),
        _ => row.put_value(&words(variant)),
    }
}

fn setup(variant: &str) -> SetupFault {
    match variant {
        "BadOrder" => SetupFault::BadOrder,
        "BadRings" => SetupFault::BadRings,
        "BadSeats" => SetupFault::BadSeats,
        _ => SetupFault::BadLimit,
    }
}

fn apply(variant: &str) -> ApplyFault {
    match variant {
        "NotEnabled" => ApplyFault::NotEnabled,
        _ => ApplyFault::NoMemory,
    }
}

fn replay(variant: &str) -> ReplayFault {
    match variant {
        "NotEnabled" => ReplayFault::NotEnabled { at: 7 },
        _ => ReplayFault::NoMemory,
    }
}

fn frame(variant: &str) -> FrameFault {
    match variant {
        "ReadFault" => FrameFault::ReadFault,
        "TooLong" => FrameFault::TooLong { line: 7, len: 8 },
        "TooLarge" => FrameFault::TooLarge { bytes: 7 },
        _ => FrameFault::NoMemory,
    }
}

fn history(variant: &str) -> HistoryFault {
    match variant {
        "BadLine" => HistoryFault::BadLine { line: 7 },
        "Unlawful" => HistoryFault::Unlawful { line: 7 },
        _ => HistoryFault::NoMemory,
    }
}

fn schedule(variant: &str) -> ScheduleFault {
    match variant {
        "BadLine" => ScheduleFault::BadLine { line: 7 },
        "NotEnabled" => ScheduleFault::NotEnabled { line: 7 },
        _ => ScheduleFault::NoMemory,
    }
}

fn words(variant: &str) -> WordsError {
    match variant {
        "TooManyFiles" => WordsError::Refused(WordsFault::TooManyFiles),
        "TooManyRecordings" => WordsError::Refused(WordsFault::TooManyRecordings),
        _ => WordsError::NoMemory,
    }
}
