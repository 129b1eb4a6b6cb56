//! The queue: fixed buffers that threads pass to one another, on one ring of the indices that
//! nobody holds and one ring for each topic. A queue is made with its passes; a thread makes calls
//! with a pass of its own. It lends a buffer, writes it in place and sends it on a topic; or takes
//! one from a topic, reads it and gives it back. It stands on `scq_band`, whose rings these are.
//! What a pass did is seen as its record and the lists of its sends, takes and Full replies
//! (`specs/Passes`, `specs/Lists`); what all passes did together is told where the queue closes
//! (`specs/Closing`). The layer above uses these alone.
#![tactic(auto)]

mod abandoning;
mod calls;
mod closing;
mod counting;
mod counts;
mod fulls;
mod heap_buffer;
mod held;
mod marks;
mod notes;
mod pass;
mod queue;
mod values;

pub use calls::{LendRefusal, TakeRefusal};
pub use closing::Closed;
pub use counts::Counts;
pub use heap_buffer::HeapBuffer;
pub use held::Held;
pub use marks::Mark;
pub use notes::Note;
pub use pass::Pass;
pub use queue::Queue;
pub use scq_band::Spent;
