//! What a port has seen of the run of all ports, carried to another: a mark; and how two ports of a
//! queue meet. Each is the queue's call of this name for the ports' passes.
ghost use Rattle.std.specs.Prelude.{◌≡◌};
ghost use Rattle.scq_band.specs.Exports.{opening_of, IsMomentInRun, HaveMet, HaveSeenOneRun};
ghost use Rattle.scq_band.specs.Exports.{both_seen};
ghost use Rattle.scq_queue.specs.Exports.{caller_of};
ghost use Rattle.scq_port.specs.Ports.{buffer_bytes};
ghost use Rattle.scq_port.specs.Calls.{port_having_seen};

use crate::port::Port;
use scq_queue::Mark;

impl Port {
    /// Shows the port the run of all ports as it is now. All that it had seen are prefixes of it;
    /// that it has calls of ports that told this one nothing no clause says.
    pub fn look(&mut self)
        ensures same { self.new ≡ port_having_seen self.new.pass.seen self.old }
        ensures moment { IsMomentInRun self.old.pass.queue.setup
            (opening_of buffer_bytes self.old.pass.queue.given)
            (caller_of self.old.pass) (caller_of self.new.pass) }
    {
        self.owner.queue.look(&mut self.pass);
    }

    /// A mark of what the port has seen.
    pub fn mark(&mut self) -> Mark
        ensures same { self.new ≡ self.old }
        ensures mark { (result.table ≡ self.old.pass.queue.table)
            × (result.seen ≡ self.old.pass.seen) }
    {
        self.owner.queue.mark(&mut self.pass)
    }

    /// The port has seen what the mark's port had. So who takes Empty behind a mark is right about
    /// each send that had ended there.
    pub fn heed(&mut self, mark: Mark)
        requires mark { mark.table ≡ self.old.pass.queue.table }
        ensures { self.new ≡ port_having_seen (both_seen self.old.pass.seen mark.seen) self.old }
    {
        self.owner.queue.heed(&mut self.pass, mark);
    }

    /// Two ports of one queue meet: what they had seen are prefixes of one run, which both have
    /// seen from now on.
    pub fn meet(&mut self, other: &mut Port)
        requires own { other.old.pass.queue ≡ self.old.pass.queue }
        ensures one { self.new ≡ port_having_seen self.new.pass.seen self.old }
        ensures other { other.new ≡ port_having_seen other.new.pass.seen other.old }
        ensures met { HaveMet self.old.pass.queue.setup
            (opening_of buffer_bytes self.old.pass.queue.given)
            (caller_of self.old.pass) (caller_of other.old.pass)
            (caller_of self.new.pass) (caller_of other.new.pass) }
        ensures comparable { HaveSeenOneRun self.old.pass.seen other.old.pass.seen }
    {
        self.owner.queue.meet(&mut self.pass, &mut other.pass);
    }
}
