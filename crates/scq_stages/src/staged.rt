//! How the stages over all files end.
use crate::Finished;
use scq_block::Frame;
use scq_desk::End;
use scq_queue::{Counts, Pass};
use std::snapshot::Snapshot;

/// What workers finished, message by message: each list is that of one worker, in the order of
/// their numbers. And how often each sent, took and found no buffer free.
///
/// For contracts alone it has the workers' passes as they were when the queue was closed: they have
/// no bytes when the program runs.
#[derive(Drop)]
pub struct Staged {
    pub counts: Vec<Counts>,
    pub done: Vec<Vec<Finished>>,
    pub passes: Snapshot<Vec<Pass<Frame>>>,
}

/// How the stages ended.
pub type StageEnd<S> = End<Staged, S>;
