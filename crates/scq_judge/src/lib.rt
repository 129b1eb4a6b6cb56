//! A judge of recorded histories of any length: the files that threads wrote, one event a line,
//! each with its stamp. Files are read one after the other, in pieces, their events merged in the
//! order of the stamps and judged by tables, and of each aspect the report says how many events
//! break it and where the first stands. It stands on `scq_check` for the lines and the verdicts, on
//! `scq_hist` for the aspects, on `scq_order` for what they mean together, and on `scq_outside` for
//! files. The layer above uses that what is read is `recording_of` the contents, that the merged
//! list has the same events with rising stamps, that the report counts what breaks each definition,
//! and that it tells of a complete history whether it is linearizable.
#![tactic(auto)]

mod counting;
mod entry;
mod finding;
mod history;
mod judging;
mod linearizable;
mod merging;
mod order_finding;
mod order_text;
mod ordering;
mod own_calls;
mod reader;
mod reading;
mod recorded;
mod runs;
mod seats;
mod sequential;
mod teller;
mod telling;
mod text;
mod walking;

pub use counting::Counts;
pub use finding::Finding;
pub use judging::{JudgeFault, Judged, Report, Shared};
pub use ordering::Ordered;
pub use reader::Reader;
pub use recorded::{Place, RunOf};
