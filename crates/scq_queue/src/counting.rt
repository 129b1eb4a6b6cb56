//! About how many values stand on a topic.
ghost use Rattle.std.specs.Prelude.{◌≡◌, suc, ◌+◌, ◌<◌, ◌≤◌};
ghost use Rattle.scq_word.specs.Exports.{n_of};
ghost use Rattle.scq_band.specs.Exports.{opening_of, WasCountedInRun};
ghost use Rattle.scq_queue.specs.Passes.{having_seen, caller_of};

use crate::pass::Pass;
use crate::queue::Queue;
use scq_word::Buffer;

impl<B: Buffer> Queue<B> {
    /// How many buffers it has.
    #[inline(always)]
    pub fn capacity(&self) -> u32
        ensures { result ≡ n_of self.now.setup.order }
    {
        self.band.capacity()
    }

    /// About how many values stand on a topic: a hint, as other passes send and take meanwhile. It
    /// is the topic's Tail less its Head, each as it stood at a moment of its own, Head's before
    /// Tail's; and no more than there are buffers. Tickets that found nothing or were not used
    /// count too, so it may be too high, and where takes have drawn tickets past Tail, too low: so
    /// 0 doesn't say Empty. The pass is shown the run at both moments, as by two looks. Wait-free:
    /// two steps.
    pub fn count(&self, pass: &mut Pass<B>, topic: u32) -> u32
        requires pass { pass.old.queue ≡ self.now }
        requires topic { topic + 1 < self.now.setup.rings }
        ensures same { pass.new ≡ having_seen pass.new.seen pass.old }
        ensures at_most { result ≤ n_of self.now.setup.order }
        ensures counted { WasCountedInRun self.now.setup (opening_of B.contents self.now.given)
            (suc topic) result (caller_of pass.old) (caller_of pass.new) }
    {
        self.band.count(&mut pass.seat, topic + 1)
    }
}
