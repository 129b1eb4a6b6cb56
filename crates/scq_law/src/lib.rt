//! The laws of the machine over every run and on every reachable state. It stands on `scq_core` for
//! the machine and on `scq_hist` for histories. What a run is, and what is recorded of it, stands
//! in `specs/Run.antt`; the laws on states stand in the other files of `specs/`, and the layers
//! above cite them as the contracts of the modules `laws`, `bounds`, `counts`, `calls` and `runs`.
//! That the history of every run has the four aspects is a contract of the module `history`.
//!
//! `one_order` answers the one-thread order of a ring, for every run whose calls have all ended: it
//! keeps which call ended before another started, and in it each reply is a plain queue's. What the
//! order is stands in `specs/Points.antt` and `specs/Order.antt`, and its laws are the contracts of
//! the module `orders`.
#![tactic(auto)]

mod act;
pub mod bounds;
pub mod calls;
pub mod counts;
pub mod history;
pub mod laws;
mod marking;
mod marks;
mod note;
mod ordered;
mod ordering;
pub mod orders;
mod recording;
mod replayed;
mod replaying;
pub mod runs;

pub use act::ended;
pub use ordered::{OrderFault, Ordered};
pub use ordering::one_order;
pub use replayed::{ReplayFault, Replayed};
pub use replaying::replay;
