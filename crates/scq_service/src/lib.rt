//! The service: what a command line asks for, answered and written. It stands on `scq_words` for
//! what is asked, on `scq_work` and `scq_stages` for workers, on `scq_collect` for the text of
//! answers, on `scq_self` for a generated file, on `scq_judge` for recordings, and on `scq_outside`
//! for files and sinks. The program calls `serve`, whose contract is the promise of the whole: at
//! status 0 the output is that of one thread, and each other status comes only where its cause
//! holds.
#![tactic(auto)]

mod commands;
mod fault;
mod job;
mod naming;
mod outcome;
mod reading;
mod reporting;
mod serving;
mod serving_waiting;
mod sources;
mod worker_report;
mod writing;

pub use fault::Fault;
pub use outcome::Outcome;
pub use reporting::report;
pub use serving::serve;
pub use serving_waiting::serve_waiting;
pub use sources::{LetGo, Sources};
