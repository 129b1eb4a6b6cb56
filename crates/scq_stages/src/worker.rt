//! A worker of the stages: what it makes of a message itself, and of what it takes.
ghost use Rattle.std.specs.Prelude.{◌≡◌, ℕ, suc, ◌+◌, ◌≤◌, ◌++◌, ◌∷◌, [], true, false, length};
ghost use Rattle.std.specs.Prelude.{take, drop, None, IfOk, IfErr, OnOk};
ghost use Rattle.scq_frames.specs.Exports.{BeginsWith, part_at};
ghost use Rattle.scq_band.specs.Exports.{opening_of, IsCallInRun};
ghost use Rattle.scq_queue.specs.Exports.{caller_of, IsHeldBy, WasGivenBack, after_put};
ghost use Rattle.scq_queue.specs.Exports.{having_seen};
ghost use Rattle.scq_passes.specs.Exports.{Suits};
ghost use Rattle.scq_desk.specs.Exports.{CameBack};
ghost use Rattle.scq_stages.specs.Stages.{redacted, squeezed, both as the_both};
ghost use Rattle.scq_stages.specs.Members.{finished};
ghost use Rattle.scq_stages.specs.Passing.{whole_of};

use crate::finished::{Finished, StageWay};
use crate::handling::Rest;
use crate::in_place::{redact, squeeze};
use scq_block::Frame;
use scq_desk::{Seat, Sits};
use scq_files::Desk;
use scq_frames::Message;
use scq_passes::AtLimit;
use scq_queue::{Held, Pass, Queue};
use scq_word::{Buffer, BufferMut, Bytes, NoMemory};
use std::alloc::Global;

/// The topic to which messages are sent.
pub(crate) const FIRST: u32 = 0;

/// The topic to which they are moved, redacted.
pub(crate) const SECOND: u32 = 1;

/// A worker: the pass by which it makes its calls, what it has finished, and whether it wanted
/// memory.
#[derive(Drop)]
pub struct Worker<B: Buffer> {
    pub pass: Pass<B>,
    pub members: Vec<Finished>,
    pub starved: bool,
}

/// Does both stages to bytes. What is left of them comes first, so many.
fn finish_bytes(bytes: &mut [u8]) -> usize
    ensures left { take result bytes.new ≡ the_both bytes.old }
    ensures within { result ≤ length bytes.old }
{
    redact(bytes);
    squeeze(bytes)
}

/// What both stages leave of bytes, which stay as they are.
fn both(alloc: Global, payload: &[u8]) -> Result<Bytes, NoMemory>
    ensures { IfOk result (λ left. left ≡ the_both payload.now) }
{
    let mut bytes = Vec::from_slice(alloc, payload)?;
    let len = finish_bytes(bytes.as_mut_slice());
    bytes.truncate(len);
    Ok(Bytes::from(bytes))
}

/// A desk at which such a worker sits.
pub type StageDesk<S> = Desk<Seat<Worker<Frame>, Frame>, S>;

impl<B: Buffer> Sits<Pass<B>, Vec<Finished>> for Worker<B> {
    ghost pass_of = { λ w. w.pass };

    ghost list_of = { λ w. w.members };

    ghost has_none = { λ w. w.members.items ≡ [] };

    ghost starved_of = { λ w. w.starved };

    fn begin(alloc: Global, _number: u32, pass: Pass<B>) -> Worker<B>
        ensures pass { result.pass ≡ pass }
        ensures list { result.members.items ≡ [] }
    {
        Worker {
            pass,
            members: Vec::new(alloc),
            starved: false,
        }
    }

    fn come_apart(self) -> (Pass<B>, Vec<Finished>, bool) {
        let Worker {
            pass,
            members,
            starved,
        } = self;
        (pass, members, starved)
    }
}

impl<B: BufferMut> Worker<B> {
    /// Puts a member behind the list, where there was memory for it and for its payload.
    fn list(&mut self, file: u32, line: u32, payload: Result<Bytes, NoMemory>, way: StageWay)
        ensures listed { IfOk payload (λ bytes. self.new.starved ≡ false
            → self.new.members.items ≡ self.old.members.items
            ++ record { file = file; line = line; payload = bytes; way = way } ∷ []) }
        ensures wanted { IfErr payload (λ _. self.new.starved ≡ true) }
        ensures starved { self.new.starved ≡ false → self.old.starved ≡ false }
        ensures same { self.new.pass ≡ self.old.pass }
    {
        match payload {
            Ok(payload) => {
                let member = Finished {
                    file,
                    line,
                    payload,
                    way,
                };
                if self.members.push(member).is_err() {
                    self.starved = true;
                }
            }
            Err(_) => self.starved = true,
        }
    }

    /// Finishes what is left of a part: copies its bytes, so many behind its numbers. It gives up
    /// where it wanted memory before.
    pub(crate) fn finish(&mut self, alloc: Global, rest: Rest, bytes: &[u8], way: StageWay)
        requires { 24 + rest.len ≤ length bytes.now }
        ensures listed { self.new.starved ≡ false → self.new.members.items ≡ self.old.members.items
            ++ record {
              file = rest.file;
              line = rest.line;
              payload =
                  take rest.len (drop 24 bytes.now);
              way = way;
            } ∷ [] }
        ensures starved { self.new.starved ≡ false → self.old.starved ≡ false }
        ensures same { self.new.pass ≡ self.old.pass }
    {
        if self.starved {
            return;
        }
        let left = Bytes::copy_of(alloc, &bytes[24..24 + rest.len]);
        self.list(rest.file, rest.line, left, way);
    }

    /// Does both stages to a message itself, where no buffer was free: with this head of the ring
    /// of free buffers.
    pub(crate) fn finish_directly(&mut self, alloc: Global, message: &Message, head: u64)
        ensures listed { self.new.starved ≡ false
            → self.new.members.items
            ≡ self.old.members.items
            ++ finished (StageWay.Direct head) the_both (whole_of message.now) ∷ [] }
        ensures starved { self.new.starved ≡ false → self.old.starved ≡ false }
        ensures same { self.new.pass ≡ self.old.pass }
    {
        let left = both(alloc, message.payload.bytes());
        self.list(message.file, message.line, left, StageWay::Direct { head });
    }

    /// Gives back what it took.
    pub(crate) fn give_back(&mut self, queue: &Queue<B>, held: Held<B>) -> Result<(), AtLimit<B>>
        requires pass { (self.old.pass.queue ≡ queue.now) × (self.old.pass.spent ≡ None) }
        requires held { IsHeldBy self.old.pass held }
        ensures given { OnOk result
            (WasGivenBack (B.contents held.buffer) held.index self.old.pass self.new.pass) }
        ensures run { IsCallInRun queue.now.setup (opening_of B.contents queue.now.given)
            (caller_of self.old.pass) (caller_of self.new.pass) }
        ensures back { IfErr result (λ l.
            CameBack 0 held self.old.pass self.new.pass l.held) }
        ensures same { (self.new.members.items ≡ self.old.members.items)
            × (self.new.starved ≡ self.old.starved) }
    {
        match queue.give_back(&mut self.pass, held) {
            Ok(()) => Ok(()),
            Err((held, _)) => Err(AtLimit { held: Some(held) }),
        }
    }

    /// Sends what it took from first to second, as it is now.
    pub(crate) fn send_on(&mut self, queue: &Queue<B>, held: Held<B>) -> Result<(), AtLimit<B>>
        requires pass { (self.old.pass.queue ≡ queue.now) × (self.old.pass.spent ≡ None)
            × (self.old.pass.retired ≡ None) }
        requires rings { queue.now.setup.rings ≡ 3 }
        requires held { IsHeldBy self.old.pass held }
        ensures sent { OnOk result ((place : ℕ)
            × (self.new.pass
            ≡ having_seen self.new.pass.seen
            (after_put 2 held.index place (B.contents held.buffer) self.old.pass))) }
        ensures back { IfErr result (λ l.
            CameBack 2 held self.old.pass self.new.pass l.held) }
        ensures same { (self.new.members.items ≡ self.old.members.items)
            × (self.new.starved ≡ self.old.starved) }
    {
        match queue.send(&mut self.pass, SECOND, held) {
            Ok(_) => Ok(()),
            Err((held, _)) => Err(AtLimit { held: Some(held) }),
        }
    }
}
