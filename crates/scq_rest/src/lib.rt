//! Workers that rest in place of leaving early: one that finds nothing to take rests until another
//! wakes it, and leaves only once it was told that all have retired. Each has a thread of its own
//! where one could be made, and a stand of the crew, by which it rests and wakes others.
#![tactic(auto)]

mod awaited;
mod finishing;
mod places;
mod resting;
mod sweeping;
mod threads;

pub use resting::{RestingRoom, make_resting_room, run_resting};
