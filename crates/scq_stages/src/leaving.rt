//! How a worker leaves: it retires, and then sweeps.
ghost use Rattle.std.specs.Prelude.{◌≡◌, ℕ, ◌<◌, List, false, None, IfErr, OnOk};
ghost use Rattle.scq_frames.specs.declared.message.Message.{Message as TheMessage};
ghost use Rattle.scq_block.specs.Exports.{bytes_of};
ghost use Rattle.scq_queue.specs.Exports.{known_on};
ghost use Rattle.scq_passes.specs.Exports.{IsGivenBack, Suits, HasLeftSo, after_retire};
ghost use Rattle.scq_passes.specs.Exports.{HasSweptLast};
ghost use Rattle.scq_stages.specs.Steps.{HasGivenBack};
ghost use Rattle.scq_stages.specs.Working.{HasFewStageCalls, IsDone, IsLeaving};

use crate::worker::Worker;
use scq_block::Frame;
use scq_passes::{AtLimit, Taker, sweep_out};
use scq_queue::Queue;
use std::alloc::Global;

/// How many topics there are: first and second.
const TOPICS: u32 = 2;

/// What a worker makes its calls with while it sweeps.
#[derive(Clone, Copy)]
struct Takes<'a> {
    alloc: Global,
    queue: &'a Queue<Frame>,
}

impl<'a> Taker<Takes<'a>, Frame> for Worker<Frame> {
    ghost use Rattle.scq_passes.proofs.PassLemmas.{taken-along};
    ghost use Rattle.scq_stages.specs.Sweeping.{FinishesOn, LeavesOn};

    ghost pass = { λ w. w.pass };

    ghost queue = { λ c. c.queue.now };

    ghost declared = { λ c. 1 };

    ghost follows = { IsGivenBack };

    ghost made = { λ c old new. FinishesOn old new };

    ghost left = { λ c old new kept. LeavesOn old new kept };

    /// Takes once from first or from second. What it got goes through what stages are left, is
    /// finished and given back.
    fn take_once(&mut self, with: &Takes<'a>, topic: u32) -> Result<bool, AtLimit<Frame>> {
        self.finish_one(with.alloc, with.queue, topic)
    }

    fn closed(&mut self, with: &Takes<'a>) -> bool {
        with.queue.closed(&mut self.pass)
    }

    ghost gives_back = { λ topic bytes ring later by. by };

    ghost made_none = { λ c old first back was. was };

    ghost made_along = { λ c old mid new taken later one more first back was.
        more first (taken-along first.pass old.pass mid.pass back taken) (one first back was) };

    ghost left_along = { λ c old mid new kept taken made left first back was.
        left first (taken-along first.pass old.pass mid.pass back taken) (made first back was) };
}

/// Retires, and sweeps until it leaves.
pub(crate) fn leave(
    worker: &mut Worker<Frame>,
    alloc: Global,
    queue: &Queue<Frame>,
) -> Result<(), AtLimit<Frame>>
    requires suits { Suits queue.now 1 worker.old.pass }
    requires stays { worker.old.pass.retired ≡ None }
    ensures taken { OnOk result (HasGivenBack (after_retire worker.old.pass) worker.new.pass) }
    ensures empty { OnOk result ((t : ℕ) → t < 2
        → (known_on t worker.new.pass).finished < (known_on t worker.new.pass).head) }
    ensures swept { OnOk result (HasSweptLast bytes_of queue.now IsGivenBack 2 64
        (after_retire worker.old.pass) worker.new.pass) }
    ensures leaving { OnOk result ((messages : List TheMessage)
        → IsDone messages worker.old.pass worker.old.members.items worker.old.starved
        → IsLeaving messages worker.old.pass worker.new.pass worker.new.members.items
        worker.new.starved) }
    ensures left { IfErr result (λ l. (messages : ℕ)
        → HasLeftSo HasFewStageCalls messages messages
        (after_retire worker.old.pass) worker.new.pass l.held) }
    ensures starved { worker.new.starved ≡ false → worker.old.starved ≡ false }
{
    queue.retire(&mut worker.pass);
    let with = Takes { alloc, queue };
    sweep_out(worker, &with, TOPICS)
}
