//! A pass that leaves its port, with the values that it couldn't give back.
ghost use Rattle.std.specs.Prelude.{◌≡◌, IfSome};
ghost use Rattle.scq_port.specs.Kept.{AreAdded};

use crate::port_buffer::PortBuffer;
use scq_band::Lifted;
use scq_queue::{Held, Pass};
use std::marker::Model;

/// The pass of a port that closed, with the values that it still holds, as a ticket was spent: each
/// stands in `slots` at its index.
pub struct Leaving {
    pub(crate) pass: Pass<PortBuffer>,
    pub(crate) slots: Vec<Option<Held<PortBuffer>>>,
}

impl Model for Leaving {
    ghost use Rattle.scq_queue.specs.Passes.{PassStanding};
    ghost use Rattle.scq_port.specs.declared.port_buffer.PortBuffer.{PortBuffer};

    ghost Value = { PassStanding PortBuffer };

    ghost use Rattle.scq_port.specs.Kept.{LetsGo};

    ghost view = { λ l. l.pass };

    ghost invariant = { λ l. LetsGo l.pass.queue l.pass l.slots.items };
}

impl Leaving {
    /// Puts its values behind others, and answers its pass; None where there isn't room for them.
    pub(crate) fn unpack(self, values: &mut Vec<Held<PortBuffer>>) -> Option<Pass<PortBuffer>>
        ensures pass { IfSome result (λ p. p ≡ self) }
        ensures added { IfSome result (λ p.
            AreAdded self.queue self values.old.items values.new.items) }
    {
        let Leaving { pass, mut slots } = self;
        while let Some(slot) = slots.pop() {
            if let Some(value) = slot {
                if values.len() >= values.capacity() {
                    drop(value.into_buffer());
                    drop_slots(slots);
                    return None;
                }
                values.push_reserved(value);
            }
        }
        slots.destroy_empty();
        Some(pass)
    }
}

impl Drop for Leaving {
    fn drop(self) {
        let Leaving { pass: _pass, slots } = self;
        drop_slots(slots);
    }
}

/// Lets go of values.
pub(crate) fn drop_values(mut values: Vec<Held<PortBuffer>>) {
    while let Some(value) = values.pop() {
        drop(value.into_buffer());
    }
    values.destroy_empty();
}

fn drop_slots(mut slots: Vec<Option<Held<PortBuffer>>>) {
    while let Some(slot) = slots.pop() {
        if let Some(value) = slot {
            drop(value.into_buffer());
        }
    }
    slots.destroy_empty();
}
