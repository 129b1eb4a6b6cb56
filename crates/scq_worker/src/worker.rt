ghost use Rattle.std.specs.Prelude.{◌≡◌, ◌≤◌, ◌<◌, ◌+◌, ◌++◌, ◌∷◌, ◌==◌, ℕ, suc, List, true, false};
ghost use Rattle.std.specs.Prelude.{[], length, filter, count_by, Some, None, Ok, if◌then◌else◌};
ghost use Rattle.std.specs.Prelude.{IfOk, IfErr, OnOk, map, All};
ghost use Rattle.scq_collect.specs.Exports.{text_of_part};
ghost use Rattle.scq_frames.specs.Exports.{parts_at, part_of_view};
ghost use Rattle.scq_queue.specs.Exports.{Placed, IsHeldBy, after_put};
ghost use Rattle.scq_queue.specs.Exports.{having_seen};
ghost use Rattle.scq_passes.specs.Exports.{is_take, HasOnlyCalled, TookNothing, HasEmptied};
ghost use Rattle.scq_passes.specs.Exports.{HasTakenFrom, TookInVain, Suits, HasTaken, HasLeft};
ghost use Rattle.scq_desk.specs.Exports.{CameBack};
ghost use Rattle.scq_worker.specs.Members.{answered, answers_by, numbered_way};
ghost use Rattle.scq_worker.specs.Members.{is_taken, is_direct, AnswersSoFar, CarriesParts};
ghost use Rattle.scq_worker.specs.Loads.{parts_of_load, IsLoad};
ghost use Rattle.scq_worker.specs.Passing.{Sends};
ghost use Rattle.scq_worker.specs.Sweeping.{HasLeftAt, HasTakenAll, KeepsItsOwn};
ghost use Rattle.scq_worker.specs.Working.{HasAnswered};

mod load;
mod passing;
mod reading;
mod sweeping;

use crate::bell::Bell;
use crate::{Gate, Job, Point};
pub(crate) use load::Load;
pub(crate) use reading::Calls;
use scq_collect::{Answers, Given, PartView, Way};
use scq_desk::Sits;
use scq_frames::{Batch, View, encode_alone, next_part, view_of};
use scq_passes::AtLimit;
use scq_queue::{Held, Pass, Queue, TakeRefusal};
use scq_topics::{ReplyBytes, reply};
use scq_word::{Buffer, BufferMut, NoMemory};
use std::alloc::Global;
pub use sweeping::Takes;

/// A worker: the pass by which it makes its calls, the parts that it has gathered on each topic and
/// is to pass on together, what it has answered, and whether it wanted memory.
#[derive(Drop)]
pub struct Worker<B: Buffer> {
    pub number: u32,
    pub pass: Pass<B>,
    pub opens: Vec<Batch>,
    pub members: Answers,
    pub starved: bool,
}

impl<B: Buffer> Sits<Pass<B>, Answers> for Worker<B> {
    ghost pass_of = { λ w. w.pass };

    ghost list_of = { λ w. w.members };

    ghost has_none = { λ w. (w.members ≡ []) × (w.opens.items ≡ []) };

    ghost starved_of = { λ w. w.starved };

    fn begin(alloc: Global, number: u32, pass: Pass<B>) -> Worker<B>
        ensures pass { result.pass ≡ pass }
        ensures list { (result.members ≡ []) × (result.opens.items ≡ []) }
    {
        Worker {
            number,
            pass,
            opens: Vec::new(alloc),
            members: Answers::new(alloc),
            starved: false,
        }
    }

    fn come_apart(self) -> (Pass<B>, Answers, bool) {
        let Worker {
            number: _,
            pass,
            opens: _,
            members,
            starved,
        } = self;
        (pass, members, starved)
    }
}

/// The text of a part: the reply to it where it is its whole message, else its bytes.
fn text_of(alloc: Global, job: &Job, part: View<'_>) -> Result<ReplyBytes, NoMemory>
    requires { part.topic ≤ length job.now.topics }
    ensures { IfOk result (λ text. text ≡ text_of_part job.now.topics (part_of_view part.entry)) }
{
    if part.parts == 1 {
        let kind = job.topics.kind(part.topic);
        return reply(alloc, kind, part.payload);
    }
    ReplyBytes::copy_of(alloc, part.payload)
}

/// The way of the part with this number in a value, where this is the way of the part in front.
fn numbered(way: Way, number: u64) -> Way
    ensures { result ≡ numbered_way way number }
{
    match way {
        Way::Taken { place, .. } => Way::Taken { place, number },
        Way::Direct { head } => Way::Direct { head },
    }
}

impl<B: BufferMut> Worker<B> {
    /// Puts the answer to this part behind the list.
    fn answer(&mut self, alloc: Global, job: &Job, part: View<'_>, way: Way)
        requires { part.topic ≤ length job.now.topics }
        ensures listed { self.new.starved ≡ false
            → self.new.members
            ≡ self.old.members ++ answered job.now.topics way (part_of_view part.entry) ∷ [] }
        ensures starved { self.new.starved ≡ false → self.old.starved ≡ false }
        ensures same { (self.new.pass ≡ self.old.pass) × (self.new.number ≡ self.old.number)
            × (self.new.opens ≡ self.old.opens) }
    {
        match text_of(alloc, job, part) {
            Ok(text) => {
                let answer = PartView {
                    file: part.file,
                    line: part.line,
                    topic: part.topic,
                    part: part.part,
                    parts: part.parts,
                    bytes: part.payload.len() as u64,
                    text: text.bytes(),
                };
                if self.members.push(Given { answer, way }).is_err() {
                    self.starved = true;
                }
            }
            Err(_) => self.starved = true,
        }
    }

    /// Answers each part in the bytes of a value, in order, where it is on one of the job's topics.
    /// The way is that of the part in front.
    fn answer_parts(&mut self, alloc: Global, job: &Job, bytes: &[u8], way: Way)
        ensures listed { self.new.starved ≡ false
            → self.new.members
            ≡ self.old.members ++ answers_by job.now.topics way (parts_at bytes.now) }
        ensures starved { self.new.starved ≡ false → self.old.starved ≡ false }
        ensures same { (self.new.pass ≡ self.old.pass) × (self.new.number ≡ self.old.number)
            × (self.new.opens ≡ self.old.opens) }
    {
        let mut rest = bytes;
        let mut number = 0;
        'parts: while let Some((part, behind)) = next_part(rest) {
            if part.topic <= job.topics.len() {
                self.answer(alloc, job, part, numbered(way, number));
            }
            rest = behind;
            number += 1;
        }
    }

    /// Answers what was taken at a place: each part in the value, in order, where it is on one of
    /// the job's topics.
    fn answer_taken(&mut self, alloc: Global, job: &Job, place: u64, bytes: &[u8])
        ensures takes { self.new.starved ≡ false → (topic : ℕ) (takes : List Placed)
            → AnswersSoFar job.now.topics takes (filter is_taken self.old.members)
            → AnswersSoFar job.now.topics (takes
            ++ record { topic = topic; place = place; bytes = bytes.now }
            ∷ []) (filter is_taken self.new.members) }
        ensures directs { self.new.starved ≡ false
            → filter is_direct self.new.members ≡ filter is_direct self.old.members }
        ensures starved { self.new.starved ≡ false → self.old.starved ≡ false }
        ensures same { (self.new.pass ≡ self.old.pass) × (self.new.number ≡ self.old.number)
            × (self.new.opens ≡ self.old.opens) }
    {
        if self.starved {
            return;
        }
        self.answer_parts(alloc, job, bytes, Way::Taken { place, number: 0 });
    }

    /// Takes once from a topic. What it got it answers and gives back. Whether it got anything.
    fn take_one<G: Gate>(
        &mut self,
        alloc: Global,
        job: &Job,
        queue: &Queue<B>,
        gate: &G,
        topic: u32,
    ) -> Result<bool, AtLimit<B>>
        requires suits { Suits queue.now (length job.now.topics) self.old.pass }
        requires topic { topic ≤ length job.now.topics }
        ensures taken { OnOk result (HasTaken self.old.pass self.new.pass) }
        ensures one { OnOk result ((t : ℕ)
            → count_by (is_take t) self.new.pass.calls
            ≡ count_by (is_take t) self.old.pass.calls + (if topic == t then 1 else 0)) }
        ensures answered { OnOk result (self.new.starved ≡ false
            → HasAnswered job.now.topics self.old.pass self.new.pass self.old.members
            self.new.members) }
        ensures some { result ≡ Ok true
            → HasTakenFrom queue.now.setup.limit topic self.old.pass self.new.pass
            × TookInVain 0 self.old.pass self.new.pass }
        ensures none { result ≡ Ok false → HasEmptied topic self.old.pass self.new.pass
            × TookNothing self.old.pass self.new.pass }
        ensures vain { OnOk result (TookInVain 1 self.old.pass self.new.pass) }
        ensures only { OnOk result
            (HasOnlyCalled B.contents queue.now self.old.pass self.new.pass) }
        ensures left { IfErr result (λ l. (parts : ℕ)
            → HasLeft parts parts self.old.pass self.new.pass l.held) }
        ensures starved { self.new.starved ≡ false → self.old.starved ≡ false }
        ensures number { self.new.number ≡ self.old.number }
        ensures opens { self.new.opens ≡ self.old.opens }
    {
        gate.at(self.number, Point::BeforeTake);
        match queue.take(&mut self.pass, topic) {
            Ok((place, held)) => {
                self.answer_taken(alloc, job, place, held.bytes());
                match queue.give_back(&mut self.pass, held) {
                    Ok(()) => Ok(true),
                    Err((held, _)) => Err(AtLimit { held: Some(held) }),
                }
            }
            Err(TakeRefusal::Empty { .. }) => Ok(false),
            Err(TakeRefusal::Spent { .. }) => Err(AtLimit { held: None }),
        }
    }

    /// Takes once from each topic.
    pub fn help<G: Gate>(
        &mut self,
        alloc: Global,
        job: &Job,
        queue: &Queue<B>,
        gate: &G,
    ) -> Result<(), AtLimit<B>>
        requires { Suits queue.now (length job.now.topics) self.old.pass }
        ensures took { OnOk result
            (HasTakenAll job.now.topics (length job.now.topics + 1) self.old self.new) }
        ensures each { OnOk result ((t : ℕ) → t < length job.now.topics + 1
            → count_by (is_take t) self.new.pass.calls
            ≡ count_by (is_take t) self.old.pass.calls + 1) }
        ensures left { IfErr result (λ l. HasLeftAt self.old self.new l.held) }
        ensures kept { KeepsItsOwn self.old self.new }
    {
        'topics: for topic in 0..job.topics.len() + 1 {
            self.take_one(alloc, job, queue, gate, topic)?;
        }
        Ok(())
    }

    /// Answers each part of a load directly, where no buffer was free: with this head of the ring
    /// of free buffers.
    fn answer_directly(&mut self, alloc: Global, job: &Job, topic: u32, load: Load<'_>, head: u64)
        requires known { topic ≤ length job.now.topics }
        requires load { IsLoad job.now.size job.now.longest job.now.most topic load }
        ensures listed { self.new.starved ≡ false
            → self.new.members
            ≡ self.old.members
            ++ map (answered job.now.topics (Way.Direct head))
            (parts_of_load job.now.size load.entry) }
        ensures starved { self.new.starved ≡ false → self.old.starved ≡ false }
        ensures same { (self.new.pass ≡ self.old.pass) × (self.new.number ≡ self.old.number)
            × (self.new.opens ≡ self.old.opens) }
    {
        let way = Way::Direct { head };
        match load {
            Load::Alone { message, part } => {
                self.answer(alloc, job, view_of(message, job.size, part), way);
            }
            Load::Together(batch) => self.answer_parts(alloc, job, batch.bytes(), way),
        }
    }

    /// Sends a load on a topic in a value that it holds.
    fn send_in(
        &mut self,
        job: &Job,
        queue: &Queue<B>,
        topic: u32,
        load: Load<'_>,
        held: Held<B>,
    ) -> Result<(), AtLimit<B>>
        requires pass { (self.old.pass.queue ≡ queue.now) × (self.old.pass.spent ≡ None)
            × (self.old.pass.retired ≡ None) }
        requires topic { topic + 1 < queue.now.setup.rings }
        requires load { IsLoad job.now.size job.now.longest job.now.most topic load }
        requires held { IsHeldBy self.old.pass held }
        requires room { job.now.size + 24 ≤ length (B.contents held.buffer) }
        ensures sent { OnOk result ((place : ℕ) × (bytes : List ℕ)
            × (self.new.pass ≡ having_seen self.new.pass.seen (after_put
            (suc topic) held.index place bytes self.old.pass))
            × Sends (parts_of_load job.now.size load.entry)
            (record { topic = topic; place = place; bytes = bytes })) }
        ensures back { IfErr result (λ l.
            CameBack (suc topic) held self.old.pass self.new.pass l.held) }
        ensures same { (self.new.members ≡ self.old.members)
            × (self.new.starved ≡ self.old.starved) × (self.new.number ≡ self.old.number)
            × (self.new.opens ≡ self.old.opens) }
    {
        let mut held = held;
        write_load(job, topic, load, held.bytes_mut());
        match queue.send(&mut self.pass, topic, held) {
            Ok(_) => Ok(()),
            Err((held, _)) => Err(AtLimit { held: Some(held) }),
        }
    }
}

/// Writes the parts of a load to the front, and the end mark behind them.
fn write_load(job: &Job, topic: u32, load: Load<'_>, into: &mut [u8])
    requires load { IsLoad job.now.size job.now.longest job.now.most topic load }
    requires room { job.now.size + 24 ≤ length into.old }
    ensures carries { CarriesParts into.new (parts_of_load job.now.size load.entry) }
    ensures topic { All (λ p. p.topic ≡ topic) (parts_of_load job.now.size load.entry) }
    ensures len { length into.new ≡ length into.old }
{
    match load {
        Load::Alone { message, part } => {
            // Its numbers are read here, so that it is known of each that it is one of 32 bits, as
            // they are written.
            let _file = message.file;
            let _line = message.line;
            encode_alone(message, job.size, part, into);
        }
        Load::Together(batch) => batch.write(into),
    }
}
