//! What an order lists, and why there is none.

ghost use Rattle.std.specs.Prelude.{◌≡◌};

use scq_word::NoMemory;
use thiserror::Error;

/// A member of a ring's one-thread order.
#[derive(Clone, Copy, PartialEq, Eq)]
pub enum Ordered {
    /// An opening put of ring 0, by its index.
    Opening { number: u32 },
    /// A call, by its seat and its number, which counts the seat's ended calls from 1 over all
    /// rings.
    Call { seat: u32, number: u64 },
}

/// Why steps have no one-thread order. Or memory was wanted.
#[derive(Clone, Copy, Debug, PartialEq, Eq, Error)]
pub enum OrderFault {
    /// The step at this position, from 0, is the first that is not enabled.
    #[error("step {at} is not enabled")]
    NotEnabled { at: u64 },
    /// After all steps this seat, the lowest such, is in the middle of a call.
    #[error("seat {seat} has a call under way")]
    Unfinished { seat: u32 },
    #[error("out of memory")]
    NoMemory,
}

impl From<NoMemory> for OrderFault {
    ghost use Rattle.scq_law.specs.declared.ordered.OrderFault.TheVariants.{NoMemory as Wanted};

    ghost from_gives = { λ _ fault. fault ≡ Wanted };

    fn from(_: NoMemory) -> OrderFault {
        OrderFault::NoMemory
    }
}
