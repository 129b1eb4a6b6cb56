//! How a port's pass retires.
ghost use Rattle.std.specs.Prelude.{◌≡◌, ℕ, Bool, is_none, List, Option};
ghost use Rattle.scq_port.specs.Exports.{retired_pass, Keeps, Value};

use crate::port_buffer::PortBuffer;
use scq_queue::{Pass, Queue};

/// Retires a pass that hasn't: it sends no more.
pub(crate) fn retire(queue: &Queue<PortBuffer>, pass: &mut Pass<PortBuffer>, awake: bool)
    requires own { pass.old.queue ≡ queue.now }
    requires awake { awake ≡ is_none pass.old.retired }
    ensures retired { pass.new ≡ retired_pass pass.old }
    ensures number { pass.new.number ≡ pass.old.number }
    ensures kept { (slots : List (Option Value)) (room hold : ℕ)
        → Keeps queue.now pass.old slots room hold → Keeps queue.now pass.new slots room hold }
{
    if awake {
        queue.retire(pass);
    }
}
