//! How a worker retires, and how it takes where it sweeps.
ghost use Rattle.std.specs.Prelude.{◌≡◌, length, None};
ghost use Rattle.scq_passes.specs.Exports.{after_retire};

use crate::worker::Worker;
use crate::{Gate, Job};
use scq_block::Frame;
use scq_passes::{AtLimit, Taker};
use scq_queue::Queue;
use scq_word::BufferMut;
use std::alloc::Global;

/// What a worker makes its calls with while it sweeps.
#[derive(Drop)]
pub struct Takes<'a, G> {
    pub alloc: Global,
    pub job: &'a Job,
    pub queue: &'a Queue<Frame>,
    pub gate: &'a G,
}

impl<'a, G: Gate> Taker<Takes<'a, G>, Frame> for Worker<Frame> {
    ghost use Rattle.std.proofs.Common.{refl, ◌∙◌};
    ghost use Rattle.scq_passes.specs.Records.{IsReturn};
    ghost use Rattle.scq_passes.proofs.LeftLemmas.{left-taken};
    ghost use Rattle.scq_worker.specs.Sweeping.{HasAnsweredAll, HasLeftAt};

    ghost pass = { λ w. w.pass };

    ghost queue = { λ c. c.queue.now };

    ghost declared = { λ c. length c.job.now.topics };

    ghost follows = { IsReturn };

    ghost made = { λ c old new. HasAnsweredAll c.job.now.topics old new };

    ghost left = { λ c old new kept. HasLeftAt old new kept };

    /// Takes once from a topic. What it got it answers and gives back.
    fn take_once(&mut self, with: &Takes<'a, G>, topic: u32) -> Result<bool, AtLimit<Frame>> {
        self.take_one(with.alloc, with.job, with.queue, with.gate, topic)
    }

    fn closed(&mut self, with: &Takes<'a, G>) -> bool {
        with.queue.closed(&mut self.pass)
    }

    ghost gives_back = { λ topic bytes ring later by. by.0 };

    ghost made_none = { λ c old. record {
      answered = λ fed. record { takes = λ so. so; directs = refl };
      fed = λ fed. fed;
    } };

    ghost made_along = { λ c old mid new taken later one more. record {
      answered = λ fed. record {
        takes = λ so. (more.answered fed).takes ((one.answered (more.fed fed)).takes so);
        directs = (more.answered fed).directs ∙ (one.answered (more.fed fed)).directs;
      };
      fed = λ fed. one.fed (more.fed fed);
    } };

    ghost left_along = { λ c old mid new kept taken made left parts.
        left-taken parts parts old.pass mid.pass new.pass kept taken (left parts) };
}

impl<B: BufferMut> Worker<B> {
    /// Retires.
    pub fn retire(&mut self, queue: &Queue<B>)
        requires pass { self.old.pass.queue ≡ queue.now }
        requires stays { self.old.pass.retired ≡ None }
        ensures pass { self.new.pass ≡ after_retire self.old.pass }
        ensures same { (self.new.members ≡ self.old.members)
            × (self.new.starved ≡ self.old.starved) × (self.new.number ≡ self.old.number) }
    {
        queue.retire(&mut self.pass);
    }
}
