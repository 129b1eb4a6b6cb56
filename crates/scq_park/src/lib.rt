//! A crew of threads that may rest: each worker has a parker of its own, on which it rests until
//! another wakes it. The parker's rule counts (`specs/Rule`): the rests and the token together are
//! at most the wakes, summed over all views of the parker. A worker makes calls with a stand of its
//! own, which has a pass to each worker's parker; what contracts see of it stands in `specs/Crews`.
//! Where the crew closes, it tells how often each worker rested and was woken. That a wake arrives,
//! or that a worker that rests ever goes on, no clause says. It stands on the parker with a rule of
//! `crossbeam_utils`. Only `Crew::rest` may wait.
#![tactic(auto)]

mod closing;
mod crew;
mod making;
mod passes;
mod rested;
mod rule;
mod stand;
mod waker;

pub use crew::Crew;
pub use rested::Rested;
pub use stand::Stand;
