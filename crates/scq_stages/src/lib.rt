//! Stages: two handlers through which messages go one after the other, in place. `redact` and
//! `squeeze` change bytes where they lie.
//!
//! `stage_work` takes the messages of files through both, by workers that share a queue of buffers.
//! A worker sends each message of its files to the first ring, or does both stages itself where no
//! buffer is free. What it takes from the first ring it redacts and moves to the second, and, once
//! it has retired, finishes; what it takes from the second it squeezes and finishes. `HaveFinished`
//! (`specs/AllStages`) says what all lists have to do with the messages and with what the workers'
//! passes did. `stage_output` writes the members of all lists in order of file and line, with a
//! total: where they have each message of the files once, in whatever division, the text is that of
//! one thread.
//!
//! It stands on `scq_files` for the files of workers and their desks, on `scq_passes`, `scq_queue`
//! and `scq_block` for the queue, on `scq_frames` for messages and their bytes, on `scq_collect`
//! for the order of members, on `scq_word` for bytes, and on `itoa` for numbers.
#![tactic(auto)]

mod apart;
mod finished;
mod handling;
mod in_place;
mod job;
mod leaving;
mod ordering;
mod passing;
mod reading;
mod running;
mod staged;
mod staging;
mod taken;
mod taking;
mod text;
mod winding;
mod worker;

pub use finished::{Finished, StageWay};
pub use in_place::{redact, squeeze};
pub use job::StageJob;
pub use staged::{StageEnd, Staged};
pub use staging::stage_work;
pub use text::stage_output;
