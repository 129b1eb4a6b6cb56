//! What a replay answers.

ghost use Rattle.std.specs.Prelude.{◌≡◌};

use scq_core::State;
use scq_hist::Event;
use scq_word::NoMemory;
use thiserror::Error;

/// What is recorded of a run: the state that it led to, its history, and for each ring how many
/// puts have ended with Done there, and how many attempts to dequeue have failed since the last of
/// these, or since the start.
#[derive(Drop)]
pub struct Replayed {
    pub state: State,
    pub events: Vec<Event>,
    pub resets: Vec<u64>,
    pub fails: Vec<u64>,
}

/// Why steps were not replayed: the one at this position, from 0, is the first that is not enabled.
/// Or memory was wanted.
#[derive(Clone, Copy, Debug, PartialEq, Eq, Error)]
pub enum ReplayFault {
    #[error("step {at} is not enabled")]
    NotEnabled { at: u64 },
    #[error("out of memory")]
    NoMemory,
}

impl From<NoMemory> for ReplayFault {
    ghost use Rattle.scq_law.specs.declared.replayed.ReplayFault.TheVariants.{NoMemory as Wanted};

    ghost from_gives = { λ _ fault. fault ≡ Wanted };

    fn from(_: NoMemory) -> ReplayFault {
        ReplayFault::NoMemory
    }
}
