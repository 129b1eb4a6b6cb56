//! How a port ended, in words that C may have: with no type parameter.
ghost use Rattle.std.specs.Prelude.{◌≡◌, Option};
ghost use Rattle.scq_queue.specs.Exports.{PassStanding};
ghost use Rattle.scq_queue.specs.declared.closing.Closed.{Closed};
ghost use Rattle.scq_port.specs.declared.port_buffer.PortBuffer.{PortBuffer};
ghost use Rattle.scq_port.specs.declared.port_buffer.PortPlace.{PortPlace};

use crate::port_buffer::PortBuffer;
use scq_queue::{Closed, Pass};
use std::marker::Model;
use std::snapshot::Snapshot;

/// What only this crate makes.
#[repr(C)]
#[derive(Drop)]
pub struct Made {}

/// How a port ended, for contracts alone: what its pass was then, and what the queue closed with,
/// or None where it did not close. Only a port's close makes one. It has no bytes when the program
/// runs.
#[repr(C)]
#[derive(Drop)]
pub struct Ended {
    made: Made,
    pub ghost its: { PassStanding PortBuffer },
    pub ghost closed: { Option (Closed PortBuffer PortPlace) },
}

impl Model for Ended {
    ghost use base.Fml.{ftrue};

    ghost also_owns = { λ _. ftrue };
}

impl Ended {
    /// The end of the pass that is shown, with what the queue closed with.
    pub(crate) fn of(answer: &(Snapshot<Pass<PortBuffer>>, Option<Closed<PortBuffer>>)) -> Ended
        ensures { (result.its ≡ answer.now.0.value) × (result.closed ≡ answer.now.1) }
    {
        let _ = answer;
        Ended { made: Made {} }
    }
}
