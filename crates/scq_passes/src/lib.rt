//! The passes of workers: what is said of one pass's record, and of the passes of all workers
//! together once their queue is closed. A worker lends and sends, takes from topics, and puts what
//! it took on a ring again; what it sends, which puts follow its takes, and what it makes of what
//! it takes are told by the layer above. It stands on `scq_queue`, whose passes these are, on
//! `scq_block` for the frames of a queue, and cites facts on lists of `scq_collect`. The layer
//! above uses `make_queue` and the definitions: how Full replies and takes stand in a record
//! (`specs/Records`), what calls make of a pass (`specs/Calls`), how a worker sweeps and leaves
//! (`specs/Leaving`, `specs/Waiting`), what becomes of what is passed on and of what is taken
//! (`specs/PassedOn`, `specs/Becoming`), and what all passes did together (`specs/Together`,
//! `specs/AllPasses`).
#![tactic(auto)]

mod at_limit;
mod making;
mod sweeping;
mod taker;

pub use at_limit::AtLimit;
pub use making::make_queue;
pub use sweeping::{sweep, sweep_out};
pub use taker::Taker;
