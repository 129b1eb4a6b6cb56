//! The queue that ports share.
ghost use Rattle.std.specs.Prelude.{◌≡◌, ◌<◌, ◌≤◌, [], map, IfOk, IfSome, vec_capacity};
ghost use Rattle.scq_queue.specs.Exports.{counts_of, lists_of};
ghost use Rattle.scq_port.specs.Ports.{AreNumbered, buffer_bytes};
ghost use Rattle.scq_port.specs.Ends.{laid_at};
ghost use Rattle.scq_port.specs.Closed.{HasClosedPorts};

use crate::ends::{EndToken, Ends};
use crate::leaving::Leaving;
use crate::port_buffer::PortBuffer;
use scq_queue::{Closed, Held, Pass, Queue};
use scq_word::{NoMemory, Setup};
use std::alloc::Global;
use std::snapshot::Snapshot;

/// A queue, and the slots in which its ports leave their passes when they close. Where the last
/// port closes it ends in `close`; where it is dropped, nobody is told.
///
/// `passes` and `values` are empty lists, with room for what `close` needs.
pub struct Owner {
    pub(crate) queue: Queue<PortBuffer>,
    pub(crate) ends: Ends,
    passes: Vec<Pass<PortBuffer>>,
    values: Vec<Held<PortBuffer>>,
    pub(crate) alloc: Global,
    pub ghost own: { ends.table.shared.key.value ≡ queue },
    ghost empty: { (passes.items ≡ []) × (values.items ≡ []) },
    ghost room: { queue.setup.seats ≤ vec_capacity passes },
    pub ghost numbers: { AreNumbered queue },
}

impl Owner {
    /// An owner of a queue of this setup.
    pub(crate) fn new(
        alloc: Global,
        queue: Queue<PortBuffer>,
        setup: Setup,
    ) -> Result<Owner, NoMemory>
        requires setup { setup ≡ queue.setup }
        requires numbers { AreNumbered queue }
        ensures { IfOk result (λ owner. owner.queue ≡ queue) }
    {
        match make_rooms(alloc, &queue, setup) {
            Ok(
                Rooms {
                    ends,
                    passes,
                    values,
                },
            ) => Ok(Owner {
                queue,
                ends,
                passes,
                values,
                alloc,
            }),
            Err(refused) => {
                queue.abandon();
                Err(refused)
            }
        }
    }

    /// Closes the queue, where all ports have left their passes, as the one of this token did.
    ///
    /// None where one of them has not, which the last port doesn't meet: each has left its pass
    /// before it lets go of its share.
    pub(crate) fn close(
        self,
        token: EndToken,
        last: Snapshot<Leaving>,
    ) -> Option<Closed<PortBuffer>>
        requires own { token.table_id ≡ self.ends.table.shared.table_id }
        requires laid { token.me.0 ≡ laid_at last.value.number last.value }
        requires low { last.value.number < self.queue.setup.seats }
        ensures closed { IfSome result (λ closed.
            HasClosedPorts self.queue last.value closed.passes.value.items closed.left.items
            (map buffer_bytes closed.buffers.items)) }
        ensures counts { IfSome result (λ closed.
            closed.counts.items ≡ map (λ p. counts_of (lists_of p)) closed.passes.value.items) }
    {
        let Owner {
            queue,
            ends,
            passes,
            values,
            alloc: _,
        } = self;
        match ends.gather(token, passes, values, last) {
            Some((passes, values)) => Some(queue.close(passes, values)),
            None => {
                queue.abandon();
                None
            }
        }
    }
}

/// What an owner has beside its queue.
struct Rooms {
    ends: Ends,
    passes: Vec<Pass<PortBuffer>>,
    values: Vec<Held<PortBuffer>>,
}

/// Slots for the ports of a queue of this setup, and empty lists with room for its passes and for
/// as many values as it has buffers.
fn make_rooms(alloc: Global, queue: &Queue<PortBuffer>, setup: Setup) -> Result<Rooms, NoMemory>
    requires setup { setup ≡ queue.now.setup }
    ensures ends { IfOk result (λ made. made.ends.table.shared.key.value ≡ queue.now) }
    ensures empty { IfOk result (λ made. (made.passes.items ≡ []) × (made.values.items ≡ [])) }
    ensures room { IfOk result (λ made. queue.now.setup.seats ≤ vec_capacity made.passes) }
{
    let ends = Ends::new(alloc, queue, setup.seats())?;
    let passes = Vec::with_capacity(alloc, setup.seats() as usize)?;
    let values = Vec::with_capacity(alloc, setup.shape().n() as usize)?;
    Ok(Rooms {
        ends,
        passes,
        values,
    })
}

impl Drop for Owner {
    fn drop(self) {
        let Owner {
            queue,
            ends: _ends,
            passes: _passes,
            values,
            alloc: _,
        } = self;
        values.destroy_empty();
        queue.abandon();
    }
}
