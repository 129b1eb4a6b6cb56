//! How the work of all workers ends.
use scq_block::Frame;
use scq_collect::Answers;
use scq_desk::End;
use scq_queue::{Counts, Pass};
use std::snapshot::Snapshot;

/// What workers answered, part by part: each list is that of one worker, in the order of their
/// numbers. And how many buffers each sent, took and found none for.
///
/// For contracts alone it has the workers' passes as they were when the queue was closed: they have
/// no bytes when the program runs.
#[derive(Drop)]
pub struct Worked {
    pub counts: Vec<Counts>,
    pub answered: Vec<Answers>,
    pub passes: Snapshot<Vec<Pass<Frame>>>,
}

/// How the work ended.
pub type WorkEnd<S> = End<Worked, S>;
