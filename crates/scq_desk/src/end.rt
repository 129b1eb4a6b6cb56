//! How the work of all workers ends.
ghost use Rattle.std.specs.Prelude.{◌≡◌, false, None, Some, IfOk, IfErr};
ghost use Rattle.scq_desk.specs.Faults.{fault_of_workers};

use crate::fault::{EndFault, fault_of_all};
use scq_block::Frame;
use scq_frames::FrameFault;
use scq_queue::Pass;
use std::snapshot::Snapshot;

/// How the work ended: the sources in their order, in every case, and what was made or why nothing
/// was.
#[derive(Drop)]
pub struct End<T, S> {
    pub sources: Vec<S>,
    pub result: Result<T, EndFault>,
    /// How many indices were left in each ring of the queue when it was closed, whatever the answer
    /// is. None only at want of memory, where there was no queue.
    pub left: Option<Vec<u64>>,
    /// For contracts alone, and where `left` is there, the workers' passes as they were then.
    pub passes: Option<Snapshot<Vec<Pass<Frame>>>>,
    /// Likewise the queue's buffers as they came back, in the order of their indices, before their
    /// block was merged.
    pub frames: Option<Snapshot<Vec<Frame>>>,
}

impl<T, S> End<T, S> {
    ghost use Rattle.std.specs.Prelude.{◌≡◌, None, Err};

    /// The end where no memory was found for a queue.
    pub fn starved(sources: Vec<S>) -> End<T, S>
        ensures sources { result.sources ≡ sources }
        ensures fault { result.result ≡ Err EndFault.NoMemory }
        ensures left { (result.left ≡ None) × (result.passes ≡ None) × (result.frames ≡ None) }
    {
        End {
            sources,
            result: Err(EndFault::NoMemory),
            left: None,
            passes: None,
            frames: None,
        }
    }
}

/// What was made, where no worker wanted memory and no file has a fault.
pub fn conclude<T: Drop>(
    made: T,
    starved: bool,
    first: Option<(u32, FrameFault)>,
) -> Result<T, EndFault>
    ensures ok { IfOk result (λ m. (m ≡ made) × (starved ≡ false) × (first ≡ None)) }
    ensures err { IfErr result (λ f. fault_of_workers starved first ≡ Some f) }
{
    match fault_of_all(starved, first) {
        Some(fault) => Err(fault),
        None => Ok(made),
    }
}
