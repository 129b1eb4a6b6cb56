//! What a worker makes of what it takes.
ghost use Rattle.std.specs.Prelude.{◌≡◌, ◌⊎◌, ℕ, suc, ◌<◌, ◌≤◌, ◌++◌, ◌∷◌, List, [], true, false};
ghost use Rattle.std.specs.Prelude.{None, Ok, IfErr, IfSome, OnOk};
ghost use Rattle.std.specs.List.{filter_map};
ghost use Rattle.scq_core.specs.declared.ended.Ended.{Ended as TheEnded};
ghost use Rattle.scq_frames.specs.Exports.{BeginsWith, part_at};
ghost use Rattle.scq_band.specs.Exports.{opening_of, IsCallInRun};
ghost use Rattle.scq_queue.specs.Exports.{caller_of, known_on, IsHeldBy, WasGivenBack, after_put};
ghost use Rattle.scq_queue.specs.Exports.{having_seen};
ghost use Rattle.scq_passes.specs.Exports.{Suits, HasLeftSo, since, HasOnlyCalled, TookNothing};
ghost use Rattle.scq_passes.specs.Exports.{HasEmptied, HasTakenFrom, TookInVain};
ghost use Rattle.scq_desk.specs.Exports.{CameBack};
ghost use Rattle.scq_stages.specs.Exports.{redacted, stages_left, after_stage, finished, way_from};
ghost use Rattle.scq_stages.specs.Exports.{first, second, take_topic, HasTakenOrMoved, HasMovedIts};
ghost use Rattle.scq_stages.specs.Exports.{HasTakenOne, HasFinishedOne, HasFinishedOnlySeconds};
ghost use Rattle.scq_stages.specs.Exports.{HasFewStageCalls};

use crate::finished::StageWay;
use crate::taken::{finish_in, redact_in};
use crate::worker::{FIRST, SECOND, Worker};
use scq_passes::AtLimit;
use scq_queue::{Held, Queue, TakeRefusal};
use scq_word::BufferMut;
use std::alloc::Global;

/// How what was taken from this topic at this place came to a list.
fn way_at(topic: u32, place: u64) -> StageWay
    ensures { result ≡ way_from topic place }
{
    if topic == FIRST {
        StageWay::First { place }
    } else {
        StageWay::Second { place }
    }
}

impl<B: BufferMut> Worker<B> {
    /// Ends what was taken from this topic at this place: does the stages that are left to it,
    /// finishes it and gives it back.
    fn end_taken(
        &mut self,
        alloc: Global,
        queue: &Queue<B>,
        topic: u32,
        place: u64,
        held: Held<B>,
    ) -> Result<(), AtLimit<B>>
        requires pass { (self.old.pass.queue ≡ queue.now) × (self.old.pass.spent ≡ None) }
        requires held { IsHeldBy self.old.pass held }
        ensures given { OnOk result ((later : List ℕ)
            × WasGivenBack later held.index self.old.pass self.new.pass) }
        ensures run { IsCallInRun queue.now.setup (opening_of B.contents queue.now.given)
            (caller_of self.old.pass) (caller_of self.new.pass) }
        ensures finished { self.new.starved ≡ false
            → IfSome (part_at (B.contents held.buffer)) (λ part.
            self.new.members.items
            ≡ self.old.members.items ++ finished (way_from topic place) (stages_left topic) part
            ∷ []) }
        ensures passed_over { part_at (B.contents held.buffer) ≡ None
            → self.new.members.items ≡ self.old.members.items }
        ensures back { IfErr result (λ l.
            CameBack 0 held self.old.pass self.new.pass l.held) }
        ensures starved { self.new.starved ≡ false → self.old.starved ≡ false }
    {
        let mut held = held;
        if let Some(rest) = finish_in(&mut held, topic) {
            self.finish(alloc, rest, held.bytes(), way_at(topic, place));
        }
        self.give_back(queue, held)
    }

    /// Moves what was taken from first to second, redacted. What is no part goes back.
    fn move_on(&mut self, queue: &Queue<B>, held: Held<B>) -> Result<(), AtLimit<B>>
        requires pass { (self.old.pass.queue ≡ queue.now) × (self.old.pass.spent ≡ None)
            × (self.old.pass.retired ≡ None) }
        requires rings { queue.now.setup.rings ≡ 3 }
        requires held { IsHeldBy self.old.pass held }
        ensures moved { OnOk result
            (IfSome (part_at (B.contents held.buffer)) (λ part. (place : ℕ) × (bytes : List ℕ)
            × (self.new.pass
            ≡ having_seen self.new.pass.seen
            (after_put (suc second) held.index place bytes self.old.pass))
            × BeginsWith bytes (after_stage redacted part))) }
        ensures passed_over { OnOk result (part_at (B.contents held.buffer) ≡ None
            → (later : List ℕ) × WasGivenBack later held.index self.old.pass self.new.pass) }
        ensures gates { OnOk result (self.new.pass.gates ≡ self.old.pass.gates) }
        ensures back { IfErr result (λ l. (ring : ℕ) × ((ring ≡ 0) ⊎ (ring ≡ suc second))
            × CameBack ring held self.old.pass self.new.pass l.held) }
        ensures same { (self.new.members.items ≡ self.old.members.items)
            × (self.new.starved ≡ self.old.starved) }
    {
        let mut held = held;
        if redact_in(&mut held) {
            self.send_on(queue, held)
        } else {
            self.give_back(queue, held)
        }
    }

    /// Takes once from first, before the pass retires. What it got it redacts and sends to second.
    /// Whether it got anything.
    pub(crate) fn move_one(&mut self, queue: &Queue<B>) -> Result<bool, AtLimit<B>>
        requires suits { Suits queue.now 1 self.old.pass }
        requires stays { self.old.pass.retired ≡ None }
        ensures taken { OnOk result (HasTakenOrMoved self.old.pass self.new.pass) }
        ensures one { OnOk result (filter_map take_topic (since self.old.pass self.new.pass)
            ≡ first ∷ []) }
        ensures moves { OnOk result (HasMovedIts self.old.pass self.new.pass) }
        ensures gates { OnOk result (self.new.pass.gates ≡ self.old.pass.gates) }
        ensures helped { OnOk result
            (HasFinishedOnlySeconds self.old.pass self.new.pass self.old.members.items
            self.new.members.items) }
        ensures same { (self.new.members.items ≡ self.old.members.items)
            × (self.new.starved ≡ self.old.starved) }
        ensures some { result ≡ Ok true
            → ((known_on first self.old.pass).head < (known_on first self.new.pass).head)
            × ((known_on first self.old.pass).head < queue.now.setup.limit) }
        ensures last { result ≡ Ok false
            → (self.new.pass.calls ≡ self.old.pass.calls ++ TheEnded.Nothing (suc first) ∷ [])
            × ((known_on first self.new.pass).finished < (known_on first self.new.pass).head) }
        ensures left { IfErr result (λ l. (messages : ℕ)
            → HasLeftSo HasFewStageCalls messages messages self.old.pass self.new.pass l.held) }
    {
        match queue.take(&mut self.pass, FIRST) {
            Ok((_, held)) => {
                self.move_on(queue, held)?;
                Ok(true)
            }
            Err(TakeRefusal::Empty { .. }) => Ok(false),
            Err(TakeRefusal::Spent { .. }) => Err(AtLimit { held: None }),
        }
    }

    /// Takes once from this topic. What it got goes through the stages that are left, is finished
    /// and given back. Whether it got anything.
    pub(crate) fn finish_one(
        &mut self,
        alloc: Global,
        queue: &Queue<B>,
        topic: u32,
    ) -> Result<bool, AtLimit<B>>
        requires suits { Suits queue.now 1 self.old.pass }
        requires topic { topic ≤ 1 }
        ensures taken { OnOk result (HasTakenOne topic self.old.pass self.new.pass) }
        ensures finished { OnOk result (self.new.starved ≡ false
            → HasFinishedOne topic self.old.pass self.new.pass self.old.members.items
            self.new.members.items) }
        ensures some { result ≡ Ok true
            → HasTakenFrom queue.now.setup.limit topic self.old.pass self.new.pass
            × TookInVain 0 self.old.pass self.new.pass }
        ensures none { result ≡ Ok false → HasEmptied topic self.old.pass self.new.pass
            × TookNothing self.old.pass self.new.pass }
        ensures only { OnOk result
            (HasOnlyCalled B.contents queue.now self.old.pass self.new.pass) }
        ensures left { IfErr result (λ l. (messages : ℕ)
            → HasLeftSo HasFewStageCalls messages messages self.old.pass self.new.pass l.held) }
        ensures starved { self.new.starved ≡ false → self.old.starved ≡ false }
    {
        match queue.take(&mut self.pass, topic) {
            Ok((place, held)) => {
                self.end_taken(alloc, queue, topic, place, held)?;
                Ok(true)
            }
            Err(TakeRefusal::Empty { .. }) => Ok(false),
            Err(TakeRefusal::Spent { .. }) => Err(AtLimit { held: None }),
        }
    }

    /// Takes once from second and then once from first.
    pub(crate) fn help(&mut self, alloc: Global, queue: &Queue<B>) -> Result<(), AtLimit<B>>
        requires suits { Suits queue.now 1 self.old.pass }
        requires stays { self.old.pass.retired ≡ None }
        ensures taken { OnOk result (HasTakenOrMoved self.old.pass self.new.pass) }
        ensures each { OnOk result (filter_map take_topic (since self.old.pass self.new.pass)
            ≡ second ∷ first ∷ []) }
        ensures moves { OnOk result (HasMovedIts self.old.pass self.new.pass) }
        ensures gates { OnOk result (self.new.pass.gates ≡ self.old.pass.gates) }
        ensures helped { OnOk result (self.new.starved ≡ false
            → HasFinishedOnlySeconds self.old.pass self.new.pass self.old.members.items
            self.new.members.items) }
        ensures left { IfErr result (λ l. (messages : ℕ)
            → HasLeftSo HasFewStageCalls messages messages self.old.pass self.new.pass l.held) }
        ensures starved { self.new.starved ≡ false → self.old.starved ≡ false }
    {
        self.finish_one(alloc, queue, SECOND)?;
        self.move_one(queue)?;
        Ok(())
    }
}
