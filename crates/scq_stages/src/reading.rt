//! How a worker reads its files: it passes each message on.
ghost use Rattle.std.specs.Prelude.{◌≡◌, ◌+◌, ◌≤◌, length, None, All};
ghost use Rattle.scq_passes.specs.Exports.{Suits};

use crate::StageJob;
use crate::worker::Worker;
use scq_block::Frame;
use scq_files::Handler;
use scq_frames::Message;
use scq_passes::AtLimit;
use scq_queue::{LendRefusal, Queue};
use std::alloc::Global;

/// What a worker makes its calls with while it reads its files.
#[derive(Clone, Copy)]
pub(crate) struct Calls<'a> {
    pub alloc: Global,
    pub job: &'a StageJob,
    pub queue: &'a Queue<Frame>,
}

impl<'a> Handler<Calls<'a>, ()> for Worker<Frame> {
    ghost use Rattle.scq_desk.specs.GoingOn.{gone-none, gone-along, gone-stopped};
    ghost use Rattle.scq_stages.specs.Reading.{IsAt, IsOver, HasGoneOn, HasStoppedAt};

    type Stop = AtLimit<Frame>;

    ghost ready = { λ c none w. Suits c.queue.now 1 w.pass × (w.pass.retired ≡ None)
        × All (λ b. c.job.now.size + 24 ≤ length b.bytes.items) c.queue.now.given };

    ghost takes = { λ c m. (m.topic ≡ 0) × (length m.payload ≤ c.job.now.size) };

    ghost handled = { λ c ms none old nothing new. HasGoneOn c.queue.now ms old new };

    ghost stopped = { λ c ms none old nothing new stop.
        HasStoppedAt c.queue.now ms old new stop.held };

    ghost puts_off = { λ _ _ _ _. Unit {0} };

    ghost wanted = { λ w. w.starved };

    ghost rested = { λ _. Unit {0} };

    /// Sends a message to first in a buffer that nobody holds, or, where there is none, does both
    /// stages to it itself and helps.
    fn handle(
        &mut self,
        with: &Calls<'a>,
        _beside: &mut (),
        message: &Message,
    ) -> Result<(), AtLimit<Frame>> {
        match with.queue.lend(&mut self.pass) {
            Ok(held) => {
                self.send_in(with.job, with.queue, message, held)?;
                Ok(())
            }
            Err(LendRefusal::Full { head }) => {
                self.finish_directly(with.alloc, message, head);
                self.help(with.alloc, with.queue)?;
                Ok(())
            }
            Err(LendRefusal::Spent { .. }) => Err(AtLimit { held: None }),
        }
    }

    /// It puts nothing off.
    fn pause(&mut self, _with: &Calls<'a>, _beside: &mut ()) -> Result<(), AtLimit<Frame>> {
        Ok(())
    }

    fn starved(&self) -> bool
        ensures { result ≡ self.now.starved }
    {
        self.starved
    }

    ghost none_handled = { λ c none w ready.
        gone-none (λ w. w.pass) (λ w. w.starved) (IsAt c.queue.now) c.queue.now 1 w ready.0
        ready.1 };

    ghost stays_ready = { λ c ms none nothing old new ready its.
        (its.suits, its.stays, ready.2) };

    ghost more_handled = { λ c ms ns t s u old mid new one more.
        gone-along (λ w. w.pass) (λ w. w.starved) (IsAt c.queue.now) c.queue.now 1 ms ns old mid
        new one more };

    ghost then_stopped = { λ c ms ns t s u old mid new stop one more.
        gone-stopped (λ w. w.pass) (λ w. w.starved) (IsAt c.queue.now) c.queue.now 1
        (IsOver c.queue.now) ms ns old mid new stop.held one more };
}
