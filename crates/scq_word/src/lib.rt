//! The words that every crate above speaks with: bytes that contracts see as a list, buffers that
//! are written in place, setups, and the words of a ring's entries and tickets. It stands on `std`
//! alone, and on `thiserror` for the text of a fault. The layers above use: packing and unpacking
//! an entry are inverse, each change of an entry raises its rank, and want of memory is the one
//! answer without a cause.
#![tactic(auto)]

mod bounds;
mod buffer;
mod bytes;
mod entry;
pub mod laws;
mod most;
mod setup;
mod shape;
mod words;

pub use bounds::limit_for;
pub use buffer::{Buffer, BufferMut, BufferRef};
pub use bytes::{Bytes, NoMemory};
pub use entry::Entry;
pub use most::{MOST_LIMIT_ORDER, MOST_ORDER, MOST_RINGS, MOST_RUN_ORDER, MOST_TOPICS};
pub use setup::{Setup, SetupFault};
pub use shape::Shape;
pub use words::{cycle_of, pack, rank, slot_of, unpack};
