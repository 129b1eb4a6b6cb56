//! Workers: the messages of files, answered part by part by several threads that share a queue over
//! the frames of one block.
#![tactic(auto)]

mod apart;
mod waited;
mod winding;
mod worked;
mod working;

pub use scq_worker::{FreeGate, Gate, Job, Point};
pub use waited::{WaitEnd, Waited, work_waiting};
pub use worked::{WorkEnd, Worked};
pub use working::work;
