//! The machine of the Scalable Circular Queue: rings of indices, the seats that make calls on them,
//! and the sixteen kinds of step that calls are made of, each on one word of one ring. No threads.
//! It stands on `scq_word` for the words and sizes. The layers above use two clauses:
//! `State::apply` is the step table, and every state of the type is one that steps reach.
#![tactic(auto)]

mod advance;
mod copies;
mod ended;
pub mod laws;
mod next;
mod phase;
mod ring;
mod seat;
mod slot;
mod state;
mod step;
mod table;
mod turn;

pub use advance::ApplyFault;
pub use ended::Ended;
pub use phase::Phase;
pub use state::State;
pub use step::Step;
pub use table::{ZERO_LEVEL, filled, passed, reset_level};
