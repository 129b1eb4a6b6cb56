//! What a worker does with each message of its files: it gathers its parts, and passes them on,
//! several in one value where they fit.
ghost use Rattle.std.specs.Prelude.{◌≡◌, ◌≤◌, ◌<◌, ◌+◌, ◌++◌, ◌∷◌, ◌==◌, ℕ, true, false, []};
ghost use Rattle.std.specs.Prelude.{count_by, length, max, None, IfErr, OnOk, All, if◌then◌else◌};
ghost use Rattle.std.specs.Prelude.{◌↔◌, IfOk, IsTrue, OnErr};
ghost use Rattle.scq_frames.specs.Exports.{IsNumbered, all_parts, parts_of as the_parts_of};
ghost use Rattle.scq_frames.specs.Exports.{part_of};
ghost use Rattle.scq_passes.specs.Exports.{is_take, Suits};
ghost use Rattle.scq_worker.specs.Exports.{parts_of_load, IsLoad, AreOpen, IsOpen, NoneIsOpen};
ghost use Rattle.scq_worker.specs.Exports.{open_on, takes_behind, KeepsCalling, HasGathered};
ghost use Rattle.scq_worker.specs.Exports.{HasPassedOn, HasStoppedBehind, HasStoppedIn};
ghost use Rattle.scq_worker.specs.Exports.{IsSameWorker, HasLeftAt, HasTakenAll, KeepsItsOwn};
ghost use Rattle.scq_worker.specs.Exports.{but_wakes, FitsBehind, ClosesWhereFull};

use crate::bell::Bell;
use crate::worker::{Load, Worker};
use crate::{Gate, Job, Point};
use scq_frames::{Batch, Message, parts_of, view_of};
use scq_passes::AtLimit;
use scq_queue::{LendRefusal, Queue};
use scq_word::{BufferMut, NoMemory};
use std::alloc::Global;
use std::mem;

/// Adds a part of a message to those that are open on its topic, where it is of the same file and
/// fits behind them: whether it did. Where memory is wanted they stay as they were.
fn add_to(batch: &mut Batch, job: &Job, message: &Message, part: u32) -> Result<bool, NoMemory>
    requires short { length message.now.payload ≤ job.now.longest }
    requires numbered { IsNumbered part (the_parts_of job.now.size message.now.payload) }
    requires opens { IsOpen job.now.most message.now.topic batch.old }
    ensures opens { IsOpen job.now.most message.now.topic batch.new }
    ensures fits { IfOk result (λ added. IsTrue added
        ↔ FitsBehind job.now.most batch.old (part_of job.now.size message.now part)) }
    ensures added { result ≡ Ok true
        → batch.new ≡ batch.old ++ part_of job.now.size message.now part ∷ [] }
    ensures none { result ≡ Ok false → batch.new ≡ batch.old }
    ensures kept { OnErr result (batch.new ≡ batch.old) }
{
    let view = view_of(message, job.size, part);
    if !batch.has_room(view.file, view.payload.len(), job.most as usize) {
        return Ok(false);
    }
    batch.push(message, job.size, part)?;
    Ok(true)
}

impl<B: BufferMut> Worker<B> {
    /// Behind a send on a topic takes once from it, where parts go together.
    fn take_behind<G: Gate>(
        &mut self,
        alloc: Global,
        job: &Job,
        queue: &Queue<B>,
        gate: &G,
        topic: u32,
    ) -> Result<(), AtLimit<B>>
        requires suits { Suits queue.now (length job.now.topics) self.old.pass }
        requires topic { topic ≤ length job.now.topics }
        ensures took { OnOk result (HasTakenAll job.now.topics (takes_behind job.now.most) self.old
            self.new) }
        ensures one { OnOk result ((t : ℕ)
            → count_by (is_take t) self.new.pass.calls
            ≡ count_by (is_take t) self.old.pass.calls
            + (if topic == t then takes_behind job.now.most else 0)) }
        ensures left { IfErr result (λ l. HasLeftAt self.old self.new l.held) }
        ensures kept { KeepsItsOwn self.old self.new }
    {
        if job.most > 0 {
            self.take_one(alloc, job, queue, gate, topic)?;
        }
        Ok(())
    }

    /// Passes on what is to go in one value: sends it in a buffer that nobody holds, or, where
    /// there is none, answers it itself and helps.
    fn pass_load<G: Gate, T, W: Bell<T>>(
        &mut self,
        alloc: Global,
        job: &Job,
        queue: &Queue<B>,
        gate: &G,
        bell: &W,
        stand: &mut T,
        topic: u32,
        load: Load<'_>,
    ) -> Result<(), AtLimit<B>>
        requires suits { Suits queue.now (length job.now.topics) self.old.pass }
        requires stays { self.old.pass.retired ≡ None }
        requires topic { topic ≤ length job.now.topics }
        requires load { IsLoad job.now.size job.now.longest job.now.most topic load }
        requires room { All (λ b. job.now.size + 24 ≤ length (B.contents b)) queue.now.given }
        requires bell { W.fits bell.now (but_wakes (W.seen stand.old)) job.now.workers }
        ensures goes { OnOk result (KeepsCalling queue.now job.now self.old self.new
            (W.seen stand.old) (W.seen stand.new)) }
        ensures passed { OnOk result
            (HasPassedOn job.now (parts_of_load job.now.size load.entry) self.old self.new) }
        ensures left { IfErr result (λ l.
            HasStoppedBehind queue.now job.now self.old self.new l.held) }
        ensures still { IsSameWorker self.old self.new (W.seen stand.old) (W.seen stand.new) }
        ensures opens { self.new.opens ≡ self.old.opens }
    {
        match queue.lend(&mut self.pass) {
            Ok(held) => {
                self.send_in(job, queue, topic, load, held)?;
                bell.after_send(stand, &self.pass, job.workers);
                gate.at(self.number, Point::AfterSend);
                self.take_behind(alloc, job, queue, gate, topic)?;
                Ok(())
            }
            Err(LendRefusal::Full { head }) => {
                self.answer_directly(alloc, job, topic, load, head);
                self.help(alloc, job, queue, gate)?;
                Ok(())
            }
            Err(LendRefusal::Spent { .. }) => Err(AtLimit { held: None }),
        }
    }

    /// Whether parts are open on a topic.
    fn has_open(&self, topic: u32) -> bool
        ensures some { result ≡ true → (topic < length self.now.opens.items)
            × (0 < length (open_on topic self.now.opens.items)) }
        ensures none { result ≡ false → open_on topic self.now.opens.items ≡ [] }
    {
        match self.opens.get(topic as usize) {
            Some(batch) => !batch.is_empty(),
            None => false,
        }
    }

    /// Passes on the parts that are open on a topic, where there are any.
    fn pass_open<G: Gate, T, W: Bell<T>>(
        &mut self,
        alloc: Global,
        job: &Job,
        queue: &Queue<B>,
        gate: &G,
        bell: &W,
        stand: &mut T,
        topic: u32,
    ) -> Result<(), AtLimit<B>>
        requires suits { Suits queue.now (length job.now.topics) self.old.pass }
        requires stays { self.old.pass.retired ≡ None }
        requires topic { topic ≤ length job.now.topics }
        requires room { All (λ b. job.now.size + 24 ≤ length (B.contents b)) queue.now.given }
        requires bell { W.fits bell.now (but_wakes (W.seen stand.old)) job.now.workers }
        requires opens { AreOpen job.now.most (length job.now.topics + 1) self.old.opens.items }
        ensures gathered { OnOk result (HasGathered queue.now job.now [] self.old self.new
            (W.seen stand.old) (W.seen stand.new)) }
        ensures closed { OnOk result ((t : ℕ) → open_on t self.new.opens.items
            ≡ if t == topic then [] else open_on t self.old.opens.items) }
        ensures whole { OnOk result (0 < length (open_on topic self.old.opens.items)
            → HasPassedOn job.now (open_on topic self.old.opens.items) self.old self.new) }
        ensures left { IfErr result (λ l.
            HasStoppedIn queue.now job.now [] self.old self.new l.held) }
        ensures still { IsSameWorker self.old self.new (W.seen stand.old) (W.seen stand.new) }
    {
        if !self.has_open(topic) {
            return Ok(());
        }
        let mut batch = mem::replace(&mut self.opens[topic as usize], Batch::new(alloc));
        let load = Load::Together(&batch);
        self.pass_load(alloc, job, queue, gate, bell, stand, topic, load)?;
        batch.clear();
        self.opens[topic as usize] = batch;
        Ok(())
    }

    /// Passes on all parts that are open.
    pub fn pass_all_open<G: Gate, T, W: Bell<T>>(
        &mut self,
        alloc: Global,
        job: &Job,
        queue: &Queue<B>,
        gate: &G,
        bell: &W,
        stand: &mut T,
    ) -> Result<(), AtLimit<B>>
        requires suits { Suits queue.now (length job.now.topics) self.old.pass }
        requires stays { self.old.pass.retired ≡ None }
        requires room { All (λ b. job.now.size + 24 ≤ length (B.contents b)) queue.now.given }
        requires bell { W.fits bell.now (but_wakes (W.seen stand.old)) job.now.workers }
        requires opens { AreOpen job.now.most (length job.now.topics + 1) self.old.opens.items }
        ensures gathered { OnOk result (HasGathered queue.now job.now [] self.old self.new
            (W.seen stand.old) (W.seen stand.new)) }
        ensures closed { OnOk result (NoneIsOpen self.new.opens.items) }
        ensures left { IfErr result (λ l.
            HasStoppedIn queue.now job.now [] self.old self.new l.held) }
        ensures still { IsSameWorker self.old self.new (W.seen stand.old) (W.seen stand.new) }
    {
        'topics: for topic in 0..job.topics.len() + 1 {
            self.pass_open(alloc, job, queue, gate, bell, stand, topic)?;
        }
        Ok(())
    }

    /// Begins batches up to that of a topic: whether there was memory for them.
    fn begin_up_to(&mut self, alloc: Global, topic: u32) -> bool
        ensures long { result ≡ true → topic < length self.new.opens.items }
        ensures few { length self.new.opens.items ≤ max (length self.old.opens.items) (topic + 1) }
        ensures opens { (t : ℕ) → open_on t self.new.opens.items ≡ open_on t self.old.opens.items }
        ensures same { (self.new.pass ≡ self.old.pass) × (self.new.members ≡ self.old.members)
            × (self.new.starved ≡ self.old.starved) × (self.new.number ≡ self.old.number) }
    {
        'topics: while self.opens.len() <= topic as usize {
            if self.opens.push(Batch::new(alloc)).is_err() {
                return false;
            }
        }
        true
    }

    /// Adds a part of a message to those that are open on its topic, where it fits behind them:
    /// whether it did. It doesn't where it wants memory.
    fn gather(&mut self, alloc: Global, job: &Job, message: &Message, part: u32) -> bool
        requires topic { message.now.topic ≤ length job.now.topics }
        requires short { length message.now.payload ≤ job.now.longest }
        requires numbered { IsNumbered part (the_parts_of job.now.size message.now.payload) }
        requires opens { AreOpen job.now.most (length job.now.topics + 1) self.old.opens.items }
        ensures opens { AreOpen job.now.most (length job.now.topics + 1) self.new.opens.items }
        ensures added { result ≡ true → (t : ℕ) → open_on t self.new.opens.items
            ≡ open_on t self.old.opens.items
            ++ (if t == message.now.topic then part_of job.now.size message.now part ∷ [] else []) }
        ensures fits { result ≡ true → FitsBehind job.now.most
            (open_on message.now.topic self.old.opens.items)
            (part_of job.now.size message.now part) }
        ensures full { result ≡ false → self.new.starved ≡ false → FitsBehind job.now.most
            (open_on message.now.topic self.old.opens.items)
            (part_of job.now.size message.now part) → ⊥ }
        ensures none { result ≡ false
            → (t : ℕ) → open_on t self.new.opens.items ≡ open_on t self.old.opens.items }
        ensures same { (self.new.pass ≡ self.old.pass) × (self.new.members ≡ self.old.members)
            × (self.new.starved ≡ false → self.old.starved ≡ false)
            × (self.new.number ≡ self.old.number) }
    {
        if job.most == 0 {
            return false;
        }
        if !self.begin_up_to(alloc, message.topic) {
            self.starved = true;
            return false;
        }
        match add_to(&mut self.opens[message.topic as usize], job, message, part) {
            Ok(added) => added,
            Err(_) => {
                self.starved = true;
                false
            }
        }
    }

    /// Passes a part of a message on: gathers it with those that are open on its topic, or, where
    /// it doesn't fit behind them, passes these on first. Alone it goes where there is no room for
    /// it then.
    fn pass_part<G: Gate, T, W: Bell<T>>(
        &mut self,
        alloc: Global,
        job: &Job,
        queue: &Queue<B>,
        gate: &G,
        bell: &W,
        stand: &mut T,
        message: &Message,
        part: u32,
    ) -> Result<(), AtLimit<B>>
        requires suits { Suits queue.now (length job.now.topics) self.old.pass }
        requires stays { self.old.pass.retired ≡ None }
        requires topic { message.now.topic ≤ length job.now.topics }
        requires short { length message.now.payload ≤ job.now.longest }
        requires numbered { IsNumbered part (the_parts_of job.now.size message.now.payload) }
        requires room { All (λ b. job.now.size + 24 ≤ length (B.contents b)) queue.now.given }
        requires bell { W.fits bell.now (but_wakes (W.seen stand.old)) job.now.workers }
        requires opens { AreOpen job.now.most (length job.now.topics + 1) self.old.opens.items }
        ensures gathered { OnOk result (HasGathered queue.now job.now
            (part_of job.now.size message.now part ∷ []) self.old self.new
            (W.seen stand.old) (W.seen stand.new)) }
        ensures closes { OnOk result (ClosesWhereFull job.now.most message.now.topic
            (part_of job.now.size message.now part ∷ []) self.old self.new) }
        ensures left { IfErr result (λ l. HasStoppedIn queue.now job.now
            (part_of job.now.size message.now part ∷ []) self.old self.new l.held) }
        ensures still { IsSameWorker self.old self.new (W.seen stand.old) (W.seen stand.new) }
    {
        if self.gather(alloc, job, message, part) {
            return Ok(());
        }
        let topic = message.topic;
        self.pass_open(alloc, job, queue, gate, bell, stand, topic)?;
        if self.gather(alloc, job, message, part) {
            return Ok(());
        }
        let load = Load::Alone { message, part };
        self.pass_load(alloc, job, queue, gate, bell, stand, topic, load)?;
        Ok(())
    }

    /// Passes a message on, one part after the other.
    pub fn pass_on<G: Gate, T, W: Bell<T>>(
        &mut self,
        alloc: Global,
        job: &Job,
        queue: &Queue<B>,
        gate: &G,
        bell: &W,
        stand: &mut T,
        message: &Message,
    ) -> Result<(), AtLimit<B>>
        requires suits { Suits queue.now (length job.now.topics) self.old.pass }
        requires stays { self.old.pass.retired ≡ None }
        requires topic { message.now.topic ≤ length job.now.topics }
        requires short { length message.now.payload ≤ job.now.longest }
        requires room { All (λ b. job.now.size + 24 ≤ length (B.contents b)) queue.now.given }
        requires bell { W.fits bell.now (but_wakes (W.seen stand.old)) job.now.workers }
        requires opens { AreOpen job.now.most (length job.now.topics + 1) self.old.opens.items }
        ensures gathered { OnOk result (HasGathered queue.now job.now
            (all_parts job.now.size message.now) self.old self.new
            (W.seen stand.old) (W.seen stand.new)) }
        ensures closes { OnOk result (ClosesWhereFull job.now.most message.now.topic
            (all_parts job.now.size message.now) self.old self.new) }
        ensures left { IfErr result (λ l. HasStoppedIn queue.now job.now
            (all_parts job.now.size message.now) self.old self.new l.held) }
        ensures still { IsSameWorker self.old self.new (W.seen stand.old) (W.seen stand.new) }
    {
        let parts = parts_of(message, job.size);
        'parts: for before in 0..parts {
            self.pass_part(alloc, job, queue, gate, bell, stand, message, before + 1)?;
        }
        Ok(())
    }
}
