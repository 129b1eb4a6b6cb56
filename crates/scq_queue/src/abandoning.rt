//! The end of a pass, and of a queue, where not all come back.
ghost use Rattle.std.specs.Prelude.{◌≡◌, ℕ, Some, None, slice_get};
ghost use Rattle.scq_band.specs.Exports.{in_hand, with_buffer};
ghost use Rattle.scq_queue.specs.Passes.{HeldStanding, IsHeldBy};

use crate::held::Held;
use crate::pass::Pass;
use crate::queue::Queue;
use scq_band::{Band, Seat};
use scq_word::Buffer;

/// Lays the buffer of a value in the place that it has in the seat's hand.
fn lay_down<B: Buffer>(band: &Band<B>, seat: &mut Seat<B>, held: Held<B>)
    requires seat { seat.old.band ≡ band.now }
    requires own { held.queue ≡ band.now }
    requires lifted { in_hand seat.old.hand held.index ≡ Some None }
    ensures laid { seat.new
        ≡ record seat.old { hand = with_buffer held.index (Some held.buffer) seat.old.hand } }
{
    held.is_given();
    let Held {
        index,
        buffer,
        owner: _owner,
    } = held;
    band.lay(seat, index, buffer);
}

impl<B: Buffer> Queue<B> {
    /// A pass goes for good, with what it holds: `held` has values of it, each at its index. Their
    /// buffers stay with the queue, which lends them to nobody any more, and go where it goes: a
    /// buffer is laid in its slot, since none may be let go of where its type isn't `Drop`. Takes
    /// no memory.
    pub fn leave(&self, pass: Pass<B>, mut held: Vec<Option<Held<B>>>)
        requires pass { pass.queue ≡ self.now }
        requires held { (i : ℕ) (h : HeldStanding B) → slice_get held.items i ≡ Some (Some h)
            → (h.index ≡ i) × IsHeldBy pass h }
    {
        let Pass {
            mut seat,
            fulls: _fulls,
            counts: _counts,
            saw: _saw,
        } = pass;
        while let Some(place) = held.pop() {
            if let Some(value) = place {
                lay_down(&self.band, &mut seat, value);
            }
        }
        held.destroy_empty();
    }
}

impl<B: Buffer + Drop> Queue<B>
where
    B::Place: Drop,
{
    /// Lets the queue go, and with it the buffers that nobody holds. It asks for no pass; where all
    /// come back, `close` says what they did.
    pub fn abandon(self) {
        let Queue {
            band: _band,
            seats: _seats,
            counts: _counts,
            saw: _saw,
        } = self;
    }
}
