//! A run made step by step, with what is marked of it for the order of one ring.

ghost use Rattle.std.specs.Prelude.{◌≡◌, ◌+◌, ◌<◌, ◌^◌, ℕ, [], None, Some, Err, IfOk, OnOk};
ghost use Rattle.std.specs.Prelude.{vec_len, slice_index};
ghost use Rattle.scq_word.specs.Exports.{n_of};
ghost use Rattle.scq_core.specs.Exports.{machine_of, start_of, step_of};
ghost use Rattle.scq_law.specs.Notes.{AddsStep, IsUnmarked, tokens_of};

use crate::act::ended;
use crate::marks::{Marks, Member};
use crate::note::note_of;
use scq_core::{ApplyFault, State, Step};
use scq_word::{Bytes, NoMemory, Setup};
use std::alloc::Global;

/// The state that the steps so far have led to, and what is marked of them.
#[derive(Drop)]
pub(crate) struct Marking {
    pub(crate) state: State,
    pub(crate) marks: Marks,
}

impl Marking {
    /// Before the first step.
    pub(crate) fn first(
        alloc: Global,
        setup: Setup,
        opening: Vec<Bytes>,
        ring: u32,
    ) -> Result<Marking, NoMemory>
        requires { vec_len opening ≡ n_of setup.order }
        ensures setup { IfOk result (λ marking. marking.state.setup ≡ setup) }
        ensures machine { IfOk result (λ marking.
            machine_of marking.state ≡ start_of setup opening.items) }
        ensures marks { IfOk result (λ marking. IsUnmarked setup ring marking.marks) }
    {
        let members = tokens(alloc, &setup, ring)?;
        let marks = Marks::none(alloc, ring, setup.seats(), members)?;
        let state = State::start(alloc, setup, opening)?;
        Ok(Marking { state, marks })
    }

    /// One more step, at this point.
    pub(crate) fn make(&mut self, seat: u32, step: &Step, point: u64) -> Result<(), ApplyFault>
        requires seat { seat < self.old.state.setup.seats }
        requires ring { self.old.marks.ring < self.old.state.setup.rings }
        requires calls { vec_len self.old.marks.calls ≡ self.old.state.setup.seats }
        requires room { slice_index self.old.marks.calls.items seat + 1 < 2 ^ 64 }
        ensures step { OnOk result
            (step_of self.old.state.setup (machine_of self.old.state) seat step.now
            ≡ Some (machine_of self.new.state)) }
        ensures setup { OnOk result (self.new.state.setup ≡ self.old.state.setup) }
        ensures marks { OnOk result (AddsStep self.old.state.setup seat step.now
            (machine_of self.old.state) (machine_of self.new.state) point
            self.old.marks self.new.marks) }
        ensures not_enabled { result ≡ Err ApplyFault.NotEnabled
            → step_of self.old.state.setup (machine_of self.old.state) seat step.now ≡ None }
    {
        let note = note_of(&self.state, self.marks.ring, seat, step);
        self.state.apply(seat, step)?;
        self.marks.note(note, seat, point)?;
        self.marks.finish(seat, ended(&self.state, seat))?;
        Ok(())
    }
}

/// The members that were marked.
pub(crate) fn members_of(marking: Marking) -> Vec<Member>
    ensures { result.items ≡ marking.marks.members.items }
{
    let Marking { marks, .. } = marking;
    let Marks { members, .. } = marks;
    members
}

/// The opening puts, which stand on ring 0.
fn tokens(alloc: Global, setup: &Setup, ring: u32) -> Result<Vec<Member>, NoMemory>
    ensures { IfOk result (λ members. members.items ≡ tokens_of setup.now ring) }
{
    let mut members = Vec::new(alloc);
    if ring == 0 {
        let slots = u64::from(setup.shape().slots());
        for number in 0..setup.shape().n() {
            members.push(Member::opening(slots, number))?;
        }
    }
    Ok(members)
}
