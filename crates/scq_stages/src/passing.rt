//! How a worker sends a message to first, and what it does with what is in first when it has read
//! its files.
ghost use Rattle.std.specs.Prelude.{◌≡◌, ℕ, ◌+◌, ◌≤◌, List, length, None, IfErr, OnOk};
ghost use Rattle.scq_frames.specs.declared.message.Message.{Message as TheMessage};
ghost use Rattle.scq_queue.specs.Exports.{IsHeldBy, after_put, having_seen};
ghost use Rattle.scq_passes.specs.Exports.{Suits};
ghost use Rattle.scq_desk.specs.Exports.{CameBack};
ghost use Rattle.scq_stages.specs.Exports.{SendsToFirst, IsAtWork, IsDone, HasStopped};

use crate::StageJob;
use crate::worker::{FIRST, Worker};
use scq_frames::{Message, encode};
use scq_passes::AtLimit;
use scq_queue::{Held, Queue};
use scq_word::BufferMut;

impl<B: BufferMut> Worker<B> {
    /// Sends a message to first in a value that it holds.
    pub(crate) fn send_in(
        &mut self,
        job: &StageJob,
        queue: &Queue<B>,
        message: &Message,
        held: Held<B>,
    ) -> Result<(), AtLimit<B>>
        requires pass { (self.old.pass.queue ≡ queue.now) × (self.old.pass.spent ≡ None)
            × (self.old.pass.retired ≡ None) }
        requires rings { queue.now.setup.rings ≡ 3 }
        requires topic { message.now.topic ≡ 0 }
        requires short { length message.now.payload ≤ job.now.size }
        requires held { IsHeldBy self.old.pass held }
        requires room { job.now.size + 24 ≤ length (B.contents held.buffer) }
        ensures sent { OnOk result ((place : ℕ) × (bytes : List ℕ)
            × (self.new.pass
            ≡ having_seen self.new.pass.seen (after_put 1 held.index place bytes self.old.pass))
            × SendsToFirst message.now (record { topic = 0; place = place; bytes = bytes })) }
        ensures back { IfErr result (λ l.
            CameBack 1 held self.old.pass self.new.pass l.held) }
        ensures same { (self.new.members.items ≡ self.old.members.items)
            × (self.new.starved ≡ self.old.starved) }
    {
        // Its numbers are read here, so that it is known of each that it is one of 32 bits, as
        // encode writes it.
        let _file = message.file;
        let _line = message.line;
        let _topic = message.topic;
        let mut held = held;
        encode(message, job.size, 1, held.bytes_mut());
        match queue.send(&mut self.pass, FIRST, held) {
            Ok(_) => Ok(()),
            Err((held, _)) => Err(AtLimit { held: Some(held) }),
        }
    }

    /// Moves what is in first until nothing is there.
    pub(crate) fn empty_first(&mut self, queue: &Queue<B>) -> Result<(), AtLimit<B>>
        requires suits { Suits queue.now 1 self.old.pass }
        requires stays { self.old.pass.retired ≡ None }
        ensures suits { OnOk result (Suits queue.now 1 self.new.pass) }
        ensures stays { OnOk result (self.new.pass.retired ≡ None) }
        ensures done { OnOk result ((messages : List TheMessage)
            → IsAtWork messages self.old.pass self.old.members.items self.old.starved
            → IsDone messages self.new.pass self.new.members.items self.new.starved) }
        ensures left { IfErr result (λ l. (messages : List TheMessage)
            → IsAtWork messages self.old.pass self.old.members.items self.old.starved
            → HasStopped queue.now (length messages) self.new.pass l.held) }
        ensures same { (self.new.members.items ≡ self.old.members.items)
            × (self.new.starved ≡ self.old.starved) }
        ensures number { self.new.pass.number ≡ self.old.pass.number }
    {
        'moves: while self.move_one(queue)? {}
        Ok(())
    }
}
