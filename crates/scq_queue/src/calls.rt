//! The calls that pass buffers on.
ghost use Rattle.std.specs.Prelude.{◌≡◌, ℕ, suc, ◌+◌, ◌<◌, Some, None, Err, IfOk, IfErr};
ghost use Rattle.scq_queue.specs.Passes.{IsHeldBy, WasGivenBack};
ghost use Rattle.scq_queue.specs.Calls.{CameOff, WasLentOfQueue, WasPutOn, FoundTopicEmpty};
ghost use Rattle.scq_queue.specs.Calls.{FoundNoneFree, GetWasSpent, PutWasSpent, IsInRun};

use crate::counts::count;
use crate::fulls::once_more;
use crate::held::Held;
use crate::pass::Pass;
use crate::queue::Queue;
use crate::values::{get, put};
use scq_band::{DeqRefusal, Spent};
use scq_word::Buffer;

/// Why no buffer was lent: none was free, the free ring's Head being at or past this number; or the
/// pass keeps a ticket at or past the limit.
#[derive(Clone, Copy, Debug, PartialEq, Eq)]
pub enum LendRefusal {
    Full { head: u64 },
    Spent { ticket: u64 },
}

/// Why nothing was taken: the topic was empty, its ring's Head being at or past this number; or the
/// pass keeps a ticket at or past the limit.
#[derive(Clone, Copy, Debug, PartialEq, Eq)]
pub enum TakeRefusal {
    Empty { head: u64 },
    Spent { ticket: u64 },
}

// Each call of a pass that keeps no spent ticket is a call in a run (the clause `run`): all that
// the pass had seen lies before the call's first step, and the call's last step is the last that
// the pass has seen from then on. So a pass's own calls lie in one run; that calls of two passes do
// say `meet` and `close`.
impl<B: Buffer> Queue<B> {
    /// Lends the pass a free buffer, which it didn't hold, with whatever bytes stand in it. That no
    /// other pass holds it, nor a topic has it, is told of all passes together by `close`.
    ///
    /// Full where there was none: the free ring's Head is past each place at which the pass knew a
    /// buffer to be given back. In a run that has the call, after its last step Head was at or past
    /// the number answered; and at a moment inside the call each buffer that was free at first
    /// or had been given back was lent by a call begun by then, or had another such call, still
    /// under way when this one ends, to itself (the field `in_run`). Spent where the ticket that
    /// was drawn is at or past the limit; the pass keeps it, and from then on it is answered and
    /// the pass stays as it is.
    #[inline(always)]
    pub fn lend(&self, pass: &mut Pass<B>) -> Result<Held<B>, LendRefusal>
        requires pass { pass.old.queue ≡ self.now }
        ensures own { (pass.new.queue ≡ pass.old.queue) × (pass.new.number ≡ pass.old.number) }
        ensures lent { IfOk result (λ held.
            WasLentOfQueue B.contents B.IsSameBuffer self.now pass.old pass.new held) }
        ensures full { (head : ℕ) → result ≡ Err (LendRefusal.Full head)
            → FoundNoneFree B.contents self.now head pass.old pass.new }
        ensures spent { (ticket : ℕ) → result ≡ Err (LendRefusal.Spent ticket)
            → GetWasSpent self.now 0 ticket pass.old pass.new }
        ensures run { pass.old.spent ≡ None → IsInRun B.contents self.now pass.old pass.new }
        ensures kept { (ticket : ℕ) → pass.old.spent ≡ Some ticket
            → (result ≡ Err (LendRefusal.Spent ticket)) × (pass.new ≡ pass.old) }
    {
        match get(&self.band, &mut pass.seat, 0) {
            Ok((_, held)) => Ok(held),
            Err(refusal) => match refusal {
                DeqRefusal::Empty { head } => {
                    once_more(&mut pass.fulls, head);
                    count(&mut pass.counts.full);
                    Err(LendRefusal::Full { head })
                }
                DeqRefusal::Spent { ticket } => Err(LendRefusal::Spent { ticket }),
            },
        }
    }

    /// Sends a value that the pass holds on a topic, with the bytes that stand in it: answers its
    /// place, which is below the limit and above each place of a send of this topic that the pass
    /// knew.
    ///
    /// Spent as with `lend`; the value comes back as it was.
    #[inline(always)]
    pub fn send(
        &self,
        pass: &mut Pass<B>,
        topic: u32,
        held: Held<B>,
    ) -> Result<u64, (Held<B>, Spent)>
        requires pass { pass.old.queue ≡ self.now }
        requires topic { topic + 1 < self.now.setup.rings }
        requires held { IsHeldBy pass.old held }
        requires stays { pass.old.retired ≡ None }
        ensures own { (pass.new.queue ≡ pass.old.queue) × (pass.new.number ≡ pass.old.number) }
        ensures sent { IfOk result (λ place. WasPutOn self.now (suc topic) place held.index
            (B.contents held.buffer) pass.old pass.new) }
        ensures back { IfErr result (λ refused. refused.0 ≡ held) }
        ensures spent { IfErr result (λ refused.
            PutWasSpent self.now (suc topic) refused.1.ticket pass.old pass.new) }
        ensures run { pass.old.spent ≡ None → IsInRun B.contents self.now pass.old pass.new }
        ensures kept { (ticket : ℕ) → pass.old.spent ≡ Some ticket
            → (result ≡ Err (held, record { ticket = ticket })) × (pass.new ≡ pass.old) }
    {
        match put(&self.band, &mut pass.seat, topic + 1, held) {
            Ok(place) => {
                count(&mut pass.counts.sent);
                Ok(place)
            }
            Err(refused) => Err(refused),
        }
    }

    /// Takes a value from a topic: answers its place, which is below the limit and not below the
    /// head of this topic that the pass knew, and the value. That its bytes are those that were
    /// sent there is told of all passes together by `close`.
    ///
    /// Empty where there was none: the topic's Head is past each place of a send that the pass knew
    /// to be finished. In a run that has the call, after its last step Head was at or past the
    /// number answered; and at a moment inside the call each send that had ended was taken by a
    /// call begun by then, or had another such call, still under way when this one ends, to itself
    /// (the field `in_run`). Spent as with `lend`.
    #[inline(always)]
    pub fn take(&self, pass: &mut Pass<B>, topic: u32) -> Result<(u64, Held<B>), TakeRefusal>
        requires pass { pass.old.queue ≡ self.now }
        requires topic { topic + 1 < self.now.setup.rings }
        ensures own { (pass.new.queue ≡ pass.old.queue) × (pass.new.number ≡ pass.old.number) }
        ensures took { IfOk result (λ r. CameOff B.contents B.IsSameBuffer self.now (suc topic) r.0
            pass.old pass.new r.1) }
        ensures empty { (head : ℕ) → result ≡ Err (TakeRefusal.Empty head)
            → FoundTopicEmpty B.contents self.now topic head pass.old pass.new }
        ensures spent { (ticket : ℕ) → result ≡ Err (TakeRefusal.Spent ticket)
            → GetWasSpent self.now (suc topic) ticket pass.old pass.new }
        ensures run { pass.old.spent ≡ None → IsInRun B.contents self.now pass.old pass.new }
        ensures kept { (ticket : ℕ) → pass.old.spent ≡ Some ticket
            → (result ≡ Err (TakeRefusal.Spent ticket)) × (pass.new ≡ pass.old) }
    {
        let (place, held) = match get(&self.band, &mut pass.seat, topic + 1) {
            Ok(got) => got,
            Err(DeqRefusal::Empty { head }) => return Err(TakeRefusal::Empty { head }),
            Err(DeqRefusal::Spent { ticket }) => return Err(TakeRefusal::Spent { ticket }),
        };
        count(&mut pass.counts.taken);
        Ok((place, held))
    }

    /// Gives a value back that the pass holds, so that it can be lent again.
    ///
    /// Spent as with `lend`; the value comes back as it was.
    #[inline(always)]
    pub fn give_back(&self, pass: &mut Pass<B>, held: Held<B>) -> Result<(), (Held<B>, Spent)>
        requires pass { pass.old.queue ≡ self.now }
        requires held { IsHeldBy pass.old held }
        ensures own { (pass.new.queue ≡ pass.old.queue) × (pass.new.number ≡ pass.old.number) }
        ensures given { IfOk result (λ _.
            WasGivenBack (B.contents held.buffer) held.index pass.old pass.new) }
        ensures back { IfErr result (λ refused. refused.0 ≡ held) }
        ensures spent { IfErr result (λ refused.
            PutWasSpent self.now 0 refused.1.ticket pass.old pass.new) }
        ensures run { pass.old.spent ≡ None → IsInRun B.contents self.now pass.old pass.new }
        ensures kept { (ticket : ℕ) → pass.old.spent ≡ Some ticket
            → (result ≡ Err (held, record { ticket = ticket })) × (pass.new ≡ pass.old) }
    {
        let _place = match put(&self.band, &mut pass.seat, 0, held) {
            Ok(place) => place,
            Err(refused) => return Err(refused),
        };
        Ok(())
    }
}
