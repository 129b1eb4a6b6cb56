//! A port.
ghost use Rattle.std.specs.Prelude.{◌≡◌, ◌==◌, ℕ, suc, ◌+◌, ◌<◌, ◌≤◌, length, map, Some, None, Err};
ghost use Rattle.std.specs.Prelude.{IfOk, IfErr, IfSome};
ghost use Rattle.scq_word.specs.Exports.{n_of};
ghost use Rattle.scq_queue.specs.Exports.{counts_of, lists_of};
ghost use Rattle.scq_port.specs.Calls.{PortHasRetired, HasAsked, HasCounted, retired_port, IsLent};
ghost use Rattle.scq_port.specs.Calls.{ValueIsTaken, IsSent, ValueIsGivenBack, WasFull};
ghost use Rattle.scq_port.specs.Calls.{WasEmpty, IsSpentGet, IsSpentPut, HasNoRoom, HasTopic};
ghost use Rattle.scq_port.specs.Calls.{HasNoTopic, HoldsNoSuch, HasPassEnded};
ghost use Rattle.scq_port.specs.Ports.{buffer_bytes};
ghost use Rattle.scq_port.specs.Closed.{HasClosedPorts};

use crate::ended::Ended;
use crate::hand::Hand;
use crate::holding;
use crate::letting_go::let_go;
use crate::owner::Owner;
use crate::port_buffer::PortBuffer;
use crate::refusals::{GiveBackRefusal, LendRefusal, SendRefusal, TakeRefusal};
use crate::retiring::retire;
use scq_queue::{Closed, Counts, Pass};
use std::alloc::Global;
use std::marker::Model;
use std::snapshot::Snapshot;
use std::sync::Arc;

/// How many words stay free before a port and behind it: two lines of 64 bytes, so that no port's
/// calls write in a line that another port uses.
pub(crate) const APART: usize = 16;

/// A pass with its queue and the values that it holds. One call at a time is made with it, by
/// whichever thread has it. Where it is dropped it gives back what it holds, and the last port of a
/// queue frees it.
///
/// It takes from the topics below `topics`, and sends on those below `sends`: all, or none where it
/// has retired. `before` and `behind` are never used.
pub struct Port {
    pub(crate) before: [u64; APART],
    pub(crate) owner: Arc<Owner, Global>,
    pub(crate) pass: Pass<PortBuffer>,
    pub(crate) hand: Hand,
    pub(crate) topics: u32,
    pub(crate) sends: u32,
    pub(crate) number: u32,
    pub(crate) awake: bool,
    pub(crate) behind: [u64; APART],
}

impl Model for Port {
    ghost use Rattle.scq_port.specs.Ports.{PortStanding};

    ghost Value = { PortStanding };

    ghost use Rattle.std.specs.Arc.{arc_value};
    ghost use Rattle.scq_port.specs.Kept.{seen_as, IsPort};

    ghost view = { λ p. seen_as p.pass p.hand };

    ghost invariant = { λ p.
        IsPort (arc_value p.owner).queue p.pass p.hand p.topics p.sends p.number p.awake };
}

impl Port {
    /// Lends a free buffer: answers its index.
    ///
    /// NoRoom where the port holds as many values as it may. Full and Spent as with `scq_queue`.
    #[inline(always)]
    pub fn lend(&mut self) -> Result<u32, LendRefusal>
        ensures lent { IfOk result (λ index. IsLent index self.old self.new) }
        ensures no_room { result ≡ Err LendRefusal.NoRoom → HasNoRoom self.old self.new }
        ensures full { (head : ℕ) → result ≡ Err (LendRefusal.Full head)
            → WasFull head self.old self.new }
        ensures spent { (ticket : ℕ) → result ≡ Err (LendRefusal.Spent ticket)
            → IsSpentGet 0 ticket self.old self.new }
    {
        if self.hand.room == 0 {
            return Err(LendRefusal::NoRoom);
        }
        holding::lend(&self.owner.queue, &mut self.pass, &mut self.hand)
    }

    /// Takes a value from a topic: answers its place and its index.
    ///
    /// NoTopic where there are not so many topics, NoRoom as with `lend`. Empty and Spent as with
    /// `scq_queue`.
    #[inline(always)]
    pub fn take(&mut self, topic: u32) -> Result<(u64, u32), TakeRefusal>
        ensures taken { IfOk result (λ r. ValueIsTaken topic r.0 r.1 self.old self.new) }
        ensures no_topic { result ≡ Err TakeRefusal.NoTopic → HasNoTopic topic self.old self.new }
        ensures no_room { result ≡ Err TakeRefusal.NoRoom
            → HasNoRoom self.old self.new × HasTopic topic self.old }
        ensures empty { (head : ℕ) → result ≡ Err (TakeRefusal.Empty head)
            → WasEmpty topic head self.old self.new }
        ensures spent { (ticket : ℕ) → result ≡ Err (TakeRefusal.Spent ticket)
            → IsSpentGet (suc topic) ticket self.old self.new }
    {
        if (topic >= self.topics) | (self.hand.room == 0) {
            if topic >= self.topics {
                return Err(TakeRefusal::NoTopic);
            }
            return Err(TakeRefusal::NoRoom);
        }
        holding::take(&self.owner.queue, &mut self.pass, topic, &mut self.hand)
    }

    /// Sends the value of an index on a topic: answers its place.
    ///
    /// NoTopic where there are not so many topics, Retired where the port has retired, NotHeld
    /// where it holds no value of this index. Spent as with `scq_queue`; then the port still holds
    /// the value.
    #[inline(always)]
    pub fn send(&mut self, index: u32, topic: u32) -> Result<u64, SendRefusal>
        ensures sent { IfOk result (λ place. IsSent index topic place self.old self.new) }
        ensures no_topic { result ≡ Err SendRefusal.NoTopic → HasNoTopic topic self.old self.new }
        ensures retired { result ≡ Err SendRefusal.Retired
            → PortHasRetired self.old self.new × HasTopic topic self.old }
        ensures not_held { result ≡ Err SendRefusal.NotHeld
            → HoldsNoSuch index self.old self.new × HasTopic topic self.old
            × (self.old.pass.retired ≡ None) }
        ensures spent { (ticket : ℕ) → result ≡ Err (SendRefusal.Spent ticket)
            → IsSpentPut (suc topic) ticket self.old self.new }
    {
        if topic >= self.sends {
            if topic >= self.topics {
                return Err(SendRefusal::NoTopic);
            }
            return Err(SendRefusal::Retired);
        }
        holding::send(
            &self.owner.queue,
            &mut self.pass,
            index,
            topic,
            &mut self.hand,
        )
    }

    /// Gives the value of an index back, so that it can be lent again.
    ///
    /// NotHeld and Spent as with `send`.
    #[inline(always)]
    pub fn give_back(&mut self, index: u32) -> Result<(), GiveBackRefusal>
        ensures given { IfOk result (λ _. ValueIsGivenBack index self.old self.new) }
        ensures not_held { result ≡ Err GiveBackRefusal.NotHeld
            → HoldsNoSuch index self.old self.new }
        ensures spent { (ticket : ℕ) → result ≡ Err (GiveBackRefusal.Spent ticket)
            → IsSpentPut 0 ticket self.old self.new }
    {
        holding::give_back(&self.owner.queue, &mut self.pass, index, &mut self.hand)
    }

    /// Retires the port: it sends no more. It still lends, takes and gives back.
    pub fn retire(&mut self)
        ensures { self.new ≡ retired_port self.old }
    {
        retire(&self.owner.queue, &mut self.pass, self.awake);
        self.awake = false;
        self.sends = 0;
    }

    /// Whether the count of its queue's ports that are awake was read as 0, at this call's one
    /// step.
    pub fn all_retired(&mut self) -> bool
        ensures { (found : ℕ) × HasAsked found self.old self.new × (result ≡ (found == 0)) }
    {
        self.owner.queue.closed(&mut self.pass)
    }

    /// How many buffers its queue has.
    pub fn capacity(&self) -> u32
        ensures { result ≡ n_of self.now.pass.queue.setup.order }
    {
        self.owner.queue.capacity()
    }

    /// About how many values stand on a topic, as `Queue::count` says; None where there are not so
    /// many topics.
    pub fn count(&mut self, topic: u32) -> Option<u32>
        ensures counted { IfSome result (λ count. HasCounted topic count self.old self.new) }
        ensures no_topic { result ≡ None → HasNoTopic topic self.old self.new }
    {
        if topic >= self.topics {
            return None;
        }
        Some(self.owner.queue.count(&mut self.pass, topic))
    }

    /// How many sends, takes and Full replies it had.
    pub fn counts(&self) -> Counts
        ensures { result ≡ counts_of (lists_of self.now.pass) }
    {
        self.pass.counts()
    }

    /// The ticket at or past the limit that it keeps. From then on each call on a ring answers
    /// Spent with it.
    pub fn spent(&self) -> Option<u64>
        ensures { result ≡ self.now.pass.spent }
    {
        self.pass.spent()
    }

    /// Closes the port, as dropping it does: retires it, gives back what it holds, and answers how
    /// it ended, for contracts alone. The last port of a queue that closes closes the queue, and is
    /// told of all passes together. That some port is told no clause says.
    ///
    /// Where the pass keeps a spent ticket, or draws one, what can't be given back goes with it,
    /// and back to the queue where that closes.
    pub fn close(self) -> (Ended, Option<Closed<PortBuffer>>)
        ensures ended { HasPassEnded (retired_port self) result.0.its }
        ensures same { result.0.closed ≡ result.1 }
        ensures closed { IfSome result.1 (λ closed.
            HasClosedPorts self.pass.queue result.0.its closed.passes.value.items
            closed.left.items (map buffer_bytes closed.buffers.items)) }
        ensures counts { IfSome result.1 (λ closed.
            closed.counts.items ≡ map (λ p. counts_of (lists_of p)) closed.passes.value.items) }
    {
        let left = self.leave();
        let ended = Ended::of(&left);
        (ended, left.1)
    }

    /// Takes the port apart, and leaves its pass where the last one finds it. Answers what the pass
    /// was then, and what the queue closed with.
    fn leave(self) -> (Snapshot<Pass<PortBuffer>>, Option<Closed<PortBuffer>>)
        ensures ended { HasPassEnded (retired_port self) result.0.value }
        ensures closed { IfSome result.1 (λ closed.
            HasClosedPorts self.pass.queue result.0.value closed.passes.value.items
            closed.left.items (map buffer_bytes closed.buffers.items)) }
        ensures counts { IfSome result.1 (λ closed.
            closed.counts.items ≡ map (λ p. counts_of (lists_of p)) closed.passes.value.items) }
    {
        let Port {
            before: _,
            owner,
            mut pass,
            hand,
            topics: _,
            sends: _,
            number,
            awake,
            behind: _,
        } = self;
        retire(&owner.queue, &mut pass, awake);
        let (ended, leaving) = let_go(owner.alloc, &owner.queue, pass, hand);
        let last = Snapshot::of(&leaving);
        let Some(token) = owner.ends.leave(number, leaving) else {
            return (ended, None);
        };
        // who gets the queue back closes it
        let Some(owner) = Arc::into_inner(owner) else {
            return (ended, None);
        };
        let closed = owner.close(token, last);
        (ended, closed)
    }
}

impl Drop for Port {
    fn drop(self) {
        let _ended = self.close();
    }
}
