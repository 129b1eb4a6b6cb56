//! What one worker does, in one thread: it reads the files on its desk and passes their messages
//! on part by part (`produce`), retires, and sweeps until it leaves (`run`). It is told whom to
//! wake by a `Bell`; how workers rest stands in `scq_rest`, and how they work side by side in
//! `scq_work`.
#![tactic(auto)]

mod bell;
mod desk;
mod gate;
mod job;
mod worker;

pub use bell::{Bell, NoBell, wake_others};
pub use desk::{WorkDesk, produce, run};
pub use gate::{FreeGate, Gate, Point};
pub use job::Job;
pub use worker::{Takes, Worker};
