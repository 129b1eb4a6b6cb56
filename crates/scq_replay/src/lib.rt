//! Schedules of the machine that others have written, run and printed; the one-thread orders of
//! their runs; and the verdict of every run. It stands on `scq_core` for the machine, on `scq_law`
//! for its runs and orders, on `scq_check` for verdicts and on `scq_lines` for lines and fields.
//! The layers above use that `schedule_text` prints the words of the one run that a schedule names,
//! that `order_text` writes the orders of that run, and that both refuse exactly the first line
//! with a fault.
#![tactic(auto)]

mod judging;
mod ordering;
mod printing;
mod replaying;
mod schedule;
mod stepping;

pub use judging::judge_run;
pub use ordering::order_text;
pub use replaying::{ScheduleFault, schedule_text};
