//! How a worker reads its files: it passes each message on.
ghost use Rattle.std.specs.Prelude.{◌≡◌, ◌+◌, ◌≤◌, length, None, All};
ghost use Rattle.scq_passes.specs.Exports.{Suits};

use crate::bell::Bell;
use crate::worker::Worker;
use crate::{Gate, Job};
use scq_block::Frame;
use scq_files::Handler;
use scq_frames::Message;
use scq_passes::AtLimit;
use scq_queue::Queue;
use std::alloc::Global;

/// What a worker makes its calls with while it reads its files.
#[derive(Drop)]
pub(crate) struct Calls<'a, G, W> {
    pub alloc: Global,
    pub job: &'a Job,
    pub queue: &'a Queue<Frame>,
    pub gate: &'a G,
    pub bell: &'a W,
}

impl<'a, G: Gate, T, W: Bell<T>> Handler<Calls<'a, G, W>, T> for Worker<Frame> {
    ghost use Rattle.std.proofs.Common.{sym, subst};
    ghost use Rattle.std.proofs.lemmas.Grind.{flat_map-append};
    ghost use Rattle.scq_frames.specs.Parts.{all_parts};
    ghost use Rattle.scq_worker.specs.Bells.{but_wakes, same-worker};
    ghost use Rattle.scq_worker.specs.Opening.{AreOpen, NoneIsOpen};
    ghost use Rattle.scq_worker.specs.Passing.{parts_in};
    ghost use Rattle.scq_worker.specs.Reading.{HasGathered, gathered-along, gathered-nothing};
    ghost use Rattle.scq_worker.specs.Reading.{HasStoppedIn, stopped-along, ClosesWhereFull};
    ghost use Rattle.scq_worker.specs.Reading.{IsSameWorker, still-along, still-same};

    type Stop = AtLimit<Frame>;

    ghost ready = { λ c t w. Suits c.queue.now (length c.job.now.topics) w.pass
        × (w.pass.retired ≡ None)
        × All (λ b. c.job.now.size + 24 ≤ length b.bytes.items) c.queue.now.given
        × W.fits c.bell.now (but_wakes (W.seen t)) c.job.now.workers
        × AreOpen c.job.now.most (length c.job.now.topics + 1) w.opens.items };

    ghost takes = { λ c m. (m.topic ≤ length c.job.now.topics)
        × (length m.payload ≤ c.job.now.longest) };

    ghost handled = { λ c ms t old s new.
        HasGathered c.queue.now c.job.now (parts_in c.job.now.size ms) old new (W.seen t)
        (W.seen s) × IsSameWorker old new (W.seen t) (W.seen s) };

    ghost stopped = { λ c ms t old s new stop.
        HasStoppedIn c.queue.now c.job.now (parts_in c.job.now.size ms) old new stop.held
        × IsSameWorker old new (W.seen t) (W.seen s) };

    ghost puts_off = { λ c m old new.
        ClosesWhereFull c.job.now.most m.topic (all_parts c.job.now.size m) old new };

    ghost wanted = { λ w. w.starved };

    ghost rested = { λ w. NoneIsOpen w.opens.items };

    /// Passes a message on.
    fn handle(
        &mut self,
        with: &Calls<'a, G, W>,
        beside: &mut T,
        message: &Message,
    ) -> Result<(), AtLimit<Frame>> {
        self.pass_on(
            with.alloc, with.job, with.queue, with.gate, with.bell, beside, message,
        )
    }

    /// Passes on what it has gathered.
    fn pause(&mut self, with: &Calls<'a, G, W>, beside: &mut T) -> Result<(), AtLimit<Frame>> {
        self.pass_all_open(
            with.alloc, with.job, with.queue, with.gate, with.bell, beside,
        )
    }

    fn starved(&self) -> bool
        ensures { result ≡ self.now.starved }
    {
        self.starved
    }

    ghost none_handled = { λ c t w ready. (
      gathered-nothing c.queue.now c.job.now w (W.seen t) ready.0 ready.1 ready.4,
      still-same w (W.seen t),
    ) };

    ghost stays_ready = { λ c ms t s old new ready its. (
      its.0.goes.suits,
      its.0.goes.stays,
      ready.2,
      subst (λ k. W.fits c.bell.now k c.job.now.workers) (sym its.1.bell) ready.3,
      its.0.opens,
    ) };

    ghost more_handled = { λ c ms ns t s u old mid new one more.
        let parts = parts_in c.job.now.size in (
          subst (λ l. HasGathered c.queue.now c.job.now l old new (W.seen t) (W.seen u))
              (sym (flat_map-append (all_parts c.job.now.size) ms ns))
              (gathered-along c.queue.now c.job.now (parts ms) (parts ns) old mid new
              (W.seen t) (W.seen s) (W.seen u) (same-worker (W.seen t) (W.seen s) one.1.bell)
              one.0 more.0),
          still-along old mid new (W.seen t) (W.seen s) (W.seen u) one.1 more.1,
        ) };

    ghost then_stopped = { λ c ms ns t s u old mid new stop one more.
        let parts = parts_in c.job.now.size in (
          subst (λ l. HasStoppedIn c.queue.now c.job.now l old new stop.held)
              (sym (flat_map-append (all_parts c.job.now.size) ms ns))
              (stopped-along c.queue.now c.job.now (parts ms) (parts ns) old mid new
              (W.seen t) (W.seen s) stop.held one.0 more.0),
          still-along old mid new (W.seen t) (W.seen s) (W.seen u) one.1 more.1,
        ) };
}
