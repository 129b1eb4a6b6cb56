//! The calls of a pass together with the values that it holds.
ghost use Rattle.std.specs.Prelude.{◌≡◌, ℕ, suc, ◌+◌, ◌<◌, ◌≤◌, [], length, Some, None, Err, IfOk};
ghost use Rattle.std.specs.Prelude.{◌≢◌};
ghost use Rattle.scq_port.specs.Exports.{IsLent, ValueIsTaken, IsSent, ValueIsGivenBack, WasFull};
ghost use Rattle.scq_port.specs.Exports.{WasEmpty, IsSpentGet, IsSpentPut, HoldsNoSuch, KeepsHand};
ghost use Rattle.scq_port.specs.Exports.{StillKeeps, seen_as, AreNumbered};

use crate::hand::Hand;
use crate::port_buffer::PortBuffer;
use crate::refusals::{GiveBackRefusal, LendRefusal, SendRefusal, TakeRefusal};
use scq_queue::{Pass, Queue};

/// Is lent a value: answers its index.
#[inline(always)]
pub(crate) fn lend(
    queue: &Queue<PortBuffer>,
    pass: &mut Pass<PortBuffer>,
    hand: &mut Hand,
) -> Result<u32, LendRefusal>
    requires numbers { AreNumbered queue.now }
    requires kept { KeepsHand queue.now pass.old hand.old }
    requires room { 0 < hand.old.room }
    ensures kept { StillKeeps queue.now pass.old pass.new hand.new }
    ensures lent { IfOk result (λ index.
        IsLent index (seen_as pass.old hand.old) (seen_as pass.new hand.new)) }
    ensures no_room { result ≢ Err LendRefusal.NoRoom }
    ensures full { (head : ℕ) → result ≡ Err (LendRefusal.Full head)
        → WasFull head (seen_as pass.old hand.old) (seen_as pass.new hand.new) }
    ensures spent { (ticket : ℕ) → result ≡ Err (LendRefusal.Spent ticket)
        → IsSpentGet 0 ticket (seen_as pass.old hand.old) (seen_as pass.new hand.new) }
{
    match queue.lend(pass) {
        Ok(held) => {
            hand.room -= 1;
            Ok(hand.put_in(held))
        }
        Err(scq_queue::LendRefusal::Full { head }) => Err(LendRefusal::Full { head }),
        Err(scq_queue::LendRefusal::Spent { ticket }) => Err(LendRefusal::Spent { ticket }),
    }
}

/// Takes a value from a topic: answers its place and its index.
#[inline(always)]
pub(crate) fn take(
    queue: &Queue<PortBuffer>,
    pass: &mut Pass<PortBuffer>,
    topic: u32,
    hand: &mut Hand,
) -> Result<(u64, u32), TakeRefusal>
    requires numbers { AreNumbered queue.now }
    requires kept { KeepsHand queue.now pass.old hand.old }
    requires topic { topic + 1 < queue.now.setup.rings }
    requires room { 0 < hand.old.room }
    ensures kept { StillKeeps queue.now pass.old pass.new hand.new }
    ensures taken { IfOk result (λ r.
        ValueIsTaken topic r.0 r.1 (seen_as pass.old hand.old) (seen_as pass.new hand.new)) }
    ensures tested { (result ≢ Err TakeRefusal.NoTopic) × (result ≢ Err TakeRefusal.NoRoom) }
    ensures empty { (head : ℕ) → result ≡ Err (TakeRefusal.Empty head)
        → WasEmpty topic head (seen_as pass.old hand.old) (seen_as pass.new hand.new) }
    ensures spent { (ticket : ℕ) → result ≡ Err (TakeRefusal.Spent ticket)
        → IsSpentGet (suc topic) ticket (seen_as pass.old hand.old) (seen_as pass.new hand.new) }
{
    match queue.take(pass, topic) {
        Ok((place, held)) => {
            hand.room -= 1;
            Ok((place, hand.put_in(held)))
        }
        Err(scq_queue::TakeRefusal::Empty { head }) => Err(TakeRefusal::Empty { head }),
        Err(scq_queue::TakeRefusal::Spent { ticket }) => Err(TakeRefusal::Spent { ticket }),
    }
}

/// Sends the value of an index on a topic: answers its place. Where it is refused the value is held
/// as before.
#[inline(always)]
pub(crate) fn send(
    queue: &Queue<PortBuffer>,
    pass: &mut Pass<PortBuffer>,
    index: u32,
    topic: u32,
    hand: &mut Hand,
) -> Result<u64, SendRefusal>
    requires kept { KeepsHand queue.now pass.old hand.old }
    requires topic { topic + 1 < queue.now.setup.rings }
    requires awake { pass.old.retired ≡ None }
    ensures kept { StillKeeps queue.now pass.old pass.new hand.new }
    ensures sent { IfOk result (λ place.
        IsSent index topic place (seen_as pass.old hand.old) (seen_as pass.new hand.new)) }
    ensures tested { (result ≢ Err SendRefusal.NoTopic) × (result ≢ Err SendRefusal.Retired) }
    ensures not_held { result ≡ Err SendRefusal.NotHeld
        → HoldsNoSuch index (seen_as pass.old hand.old) (seen_as pass.new hand.new) }
    ensures spent { (ticket : ℕ) → result ≡ Err (SendRefusal.Spent ticket)
        → IsSpentPut (suc topic) ticket (seen_as pass.old hand.old) (seen_as pass.new hand.new) }
{
    let Some(held) = hand.take_out(index) else {
        return Err(SendRefusal::NotHeld);
    };
    match queue.send(pass, topic, held) {
        Ok(place) => {
            hand.room += 1;
            Ok(place)
        }
        Err((held, spent)) => {
            hand.put_in(held);
            Err(SendRefusal::Spent {
                ticket: spent.ticket,
            })
        }
    }
}

/// Gives the value of an index back. Where it is refused the value is held as before.
#[inline(always)]
pub(crate) fn give_back(
    queue: &Queue<PortBuffer>,
    pass: &mut Pass<PortBuffer>,
    index: u32,
    hand: &mut Hand,
) -> Result<(), GiveBackRefusal>
    requires kept { KeepsHand queue.now pass.old hand.old }
    ensures kept { StillKeeps queue.now pass.old pass.new hand.new }
    ensures given { IfOk result (λ _.
        ValueIsGivenBack index (seen_as pass.old hand.old) (seen_as pass.new hand.new)) }
    ensures not_held { result ≡ Err GiveBackRefusal.NotHeld
        → HoldsNoSuch index (seen_as pass.old hand.old) (seen_as pass.new hand.new) }
    ensures spent { (ticket : ℕ) → result ≡ Err (GiveBackRefusal.Spent ticket)
        → IsSpentPut 0 ticket (seen_as pass.old hand.old) (seen_as pass.new hand.new) }
{
    let Some(held) = hand.take_out(index) else {
        return Err(GiveBackRefusal::NotHeld);
    };
    match queue.give_back(pass, held) {
        Ok(()) => {
            hand.room += 1;
            Ok(())
        }
        Err((held, spent)) => {
            hand.put_in(held);
            Err(GiveBackRefusal::Spent {
                ticket: spent.ticket,
            })
        }
    }
}
