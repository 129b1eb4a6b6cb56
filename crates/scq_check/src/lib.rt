// A judge of histories that others have recorded. A history is read from its text, and of each of
// the four aspects is said whether it holds, or at which event it first breaks. `first_unlawful`
// and `judge` make tables of a history, so they take memory, and time that grows little faster than
// the history; the tests of `scq_hist` take no memory and answer the same. It stands on `scq_hist`
// for the events and the aspects, and on `scq_lines` for lines and fields. The layers above use
// that `read_history` refuses exactly the first line with a fault, and that a verdict is none
// exactly where the aspect's definition holds.
#![tactic(auto)]

mod by_name;
mod calls;
mod counterparts;
mod endings;
mod failures;
mod freshness;
mod full;
mod gots;
mod history;
mod lawful;
mod line;
mod order;
mod puts;
mod queues;
mod refused;
mod tables;
mod tokens;
mod verdicts;
mod waiting;

pub use counterparts::{Counterparts, Origin};
pub use endings::{Ending, Endings};
pub use failures::Failures;
pub use full::find_room_breaches;
pub use history::{History, HistoryFault, read_history};
pub use lawful::first_unlawful;
pub use line::{Bounds, Line, read_fields};
pub use verdicts::{Breaches, Verdict, find_breaches, judge, verdict_text};
pub use waiting::Waiting;
