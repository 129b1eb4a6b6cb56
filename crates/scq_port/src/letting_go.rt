//! What becomes of the values that a port holds where it is closed.
ghost use Rattle.std.specs.Prelude.{◌≡◌};
ghost use Rattle.scq_port.specs.Exports.{HasPassEnded, IsPassOf, KeepsHand, seen_as};

use crate::hand::Hand;
use crate::leaving::Leaving;
use crate::port_buffer::PortBuffer;
use scq_queue::{Pass, Queue};
use std::alloc::Global;
use std::snapshot::Snapshot;

/// Gives back what a pass holds, and answers what the pass was then, for contracts alone, with the
/// pass. Where a ticket is spent, so that nothing more can be given back, it keeps what is left.
pub(crate) fn let_go(
    alloc: Global,
    queue: &Queue<PortBuffer>,
    mut pass: Pass<PortBuffer>,
    hand: Hand,
) -> (Snapshot<Pass<PortBuffer>>, Leaving)
    requires kept { KeepsHand queue.now pass hand }
    ensures ended { HasPassEnded (seen_as pass hand) result.0.value }
    ensures left { result.1 ≡ result.0.value }
    ensures own { IsPassOf queue.now pass.number result.1 }
{
    let Hand {
        mut slots,
        room: _,
        hold: _,
    } = hand;
    while let Some(slot) = slots.pop() {
        if let Some(held) = slot {
            if let Err((held, _)) = queue.give_back(&mut pass, held) {
                slots.push_reserved(Some(held));
                return (Snapshot::of(&pass), Leaving { pass, slots });
            }
        }
    }
    slots.destroy_empty();
    let slots = Vec::new(alloc);
    (Snapshot::of(&pass), Leaving { pass, slots })
}
