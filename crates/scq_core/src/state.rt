//! The states of the machine that steps reach.

ghost use Rattle.std.specs.Option.{option_copied};
ghost use Rattle.std.specs.Prelude.{◌≡◌, ℕ, pos, ◌+ℤ◌, IsTrue, length, slice_get, ◌-◌, ◌^◌, ◌<◌};
ghost use Rattle.std.specs.Prelude.{◌↔◌, replicate, Some, None, Err, IfOk, OnOk, OnErr, vec_len};
ghost use Rattle.scq_word.specs.Exports.{n_of};
ghost use Rattle.scq_core.specs.Start.{idle_part};
ghost use Rattle.scq_core.specs.Fresh.{IsStart};

use crate::advance::{ApplyFault, advance};
use crate::copies::copied_list;
use crate::ended::Ended;
use crate::phase::Phase;
use crate::ring::Ring;
use crate::seat::Seat;
use crate::slot::Cell;
use crate::step::Step;
use crate::table::{ZERO_LEVEL, ring_of};
use scq_word::{Bytes, NoMemory, Setup};
use std::alloc::Global;
use std::marker::Model;

/// A state of the machine that steps reach from the start.
#[derive(Drop)]
pub struct State {
    setup: Setup,
    rings: Vec<Ring>,
    seats: Vec<Seat>,
    opening: Vec<Bytes>,
}

impl Model for State {
    ghost use Rattle.scq_core.specs.StateLists.{StateLists, IsState};

    ghost Value = { StateLists };

    ghost view = { λ s. record {
      setup = s.setup;
      rings = s.rings.items;
      seats =
          s.seats.items;
      opening = s.opening.items;
    } };

    ghost invariant = { λ s. IsState (record {
      setup = s.setup;
      rings = s.rings.items;
      seats =
          s.seats.items;
      opening = s.opening.items;
    }) };
}

impl State {
    ghost use Rattle.scq_core.specs.declared.phase.Phase.TheVariants.{Idle};
    ghost use Rattle.scq_core.specs.declared.slot.Cell.TheVariants.{Entry as EntryCell};
    ghost use Rattle.scq_word.specs.Entries.{IsIndexOrMark};
    ghost use Rattle.scq_core.specs.Table.{step_of, next_step, ring_slots, zero_level, holds_index};
    ghost use Rattle.scq_core.specs.Turn.{ring_under_way, TakesMemory};
    ghost use Rattle.scq_core.specs.Start.{start_of};
    ghost use Rattle.scq_core.specs.Reach.{IsReachable};
    ghost use Rattle.scq_core.specs.StateLists.{machine_of, ring_in, no_slot, IsCellOf};
    ghost use Rattle.scq_core.specs.Rings.{word_in};

    /// Ring 0 full with the opening contents, all other rings empty, each seat idle with an empty
    /// hand.
    pub fn start(alloc: Global, setup: Setup, opening: Vec<Bytes>) -> Result<State, NoMemory>
        requires { vec_len opening ≡ n_of setup.order }
        ensures setup { IfOk result (λ state. state.setup ≡ setup) }
        ensures machine { IfOk result (λ state. machine_of state ≡ start_of setup opening.items) }
        ensures reachable { IfOk result (λ state. IsReachable state.setup (machine_of state)) }
    {
        let rings = start_rings(alloc, &setup, &opening)?;
        let seats = idle_seats(alloc, &setup)?;
        Ok(State {
            setup,
            rings,
            seats,
            opening,
        })
    }

    /// One step of a seat. After an `Err` the state is unchanged. Memory is taken only by a step
    /// that copies a content or ends its call.
    pub fn apply(&mut self, seat: u32, step: &Step) -> Result<(), ApplyFault>
        requires { seat < self.old.setup.seats }
        ensures ok { OnOk result (step_of self.old.setup (machine_of self.old) seat step.now
            ≡ Some (machine_of self.new)) }
        ensures setup { self.new.setup ≡ self.old.setup }
        ensures not_enabled { (result ≡ Err ApplyFault.NotEnabled)
            ↔ (step_of self.old.setup (machine_of self.old) seat step.now ≡ None) }
        ensures no_memory { (result ≡ Err ApplyFault.NoMemory)
            → TakesMemory self.old.setup (machine_of self.old) seat step.now }
        ensures err { OnErr result (self.new ≡ self.old) }
        ensures reachable { IsReachable self.new.setup (machine_of self.new) }
    {
        advance(
            &self.setup,
            &mut self.rings,
            &mut self.seats[seat as usize],
            step,
        )
    }

    /// An equal state.
    pub fn copy(&self) -> Result<State, NoMemory>
        ensures { IfOk result (λ copy. copy ≡ self.now) }
    {
        let alloc = *self.rings.allocator();
        Ok(State {
            setup: self.setup,
            rings: copied_list(alloc, &self.rings)?,
            seats: copied_list(alloc, &self.seats)?,
            opening: copied_list(alloc, &self.opening)?,
        })
    }

    /// The word of a cell of this ring.
    fn word(&self, ring: u32, cell: Cell) -> u64
        requires ring { ring < self.now.setup.rings }
        requires cell { IsCellOf self.now.setup cell }
        ensures word { result
            ≡ word_in (no_slot self.now.setup) (ring_in self.now.setup self.now.rings ring) cell }
        ensures fits { (machine_of self.now).cells.threshold ring < 2 ^ 62 }
        ensures index { (slot : ℕ) → cell ≡ EntryCell slot
            → IsIndexOrMark self.now.setup.order result }
    {
        self.rings[ring as usize].read(cell)
    }

    /// The numbers that the state was started with.
    pub fn setup(&self) -> Setup
        ensures { result ≡ self.now.setup }
    {
        self.setup
    }

    /// The opening contents, in order of their index.
    pub fn opening(&self) -> &[Bytes]
        ensures { result.now ≡ self.now.opening }
    {
        self.opening.as_slice()
    }

    /// The ticket that the next dequeue of the ring draws.
    pub fn head(&self, ring: u32) -> u64
        requires { ring < self.now.setup.rings }
        ensures { result ≡ (machine_of self.now).cells.head ring }
    {
        self.word(ring, Cell::Head)
    }

    /// The ticket that the next enqueue of the ring draws.
    pub fn tail(&self, ring: u32) -> u64
        requires { ring < self.now.setup.rings }
        ensures { result ≡ (machine_of self.now).cells.tail ring }
    {
        self.word(ring, Cell::Tail)
    }

    /// Threshold as a signed number: the machine keeps it as `2^32` more.
    #[tactic(auto, unfolding(crate::specs::Table::zero_level))]
    pub fn threshold(&self, ring: u32) -> i64
        requires { ring < self.now.setup.rings }
        ensures { result +ℤ pos zero_level ≡ pos ((machine_of self.now).cells.threshold ring) }
    {
        self.word(ring, Cell::Threshold) as i64 - ZERO_LEVEL as i64
    }

    /// The word of an entry, which `unpack` takes.
    pub fn entry(&self, ring: u32, slot: u32) -> u64
        requires ring { ring < self.now.setup.rings }
        requires slot { slot < ring_slots self.now.setup }
        ensures word { result ≡ (machine_of self.now).cells.entries.word ring slot }
        ensures index { IsIndexOrMark self.now.setup.order result }
    {
        self.word(ring, Cell::Entry { slot })
    }

    /// Whether the seat has taken the index and not placed it since.
    pub fn in_hand(&self, seat: u32, index: u32) -> bool
        requires seat { seat < self.now.setup.seats }
        requires index { index < n_of self.now.setup.order }
        ensures { result ≡ holds_index ((machine_of self.now).part seat).hand index }
    {
        self.seats[seat as usize].holds(index)
    }

    /// Whether the seat is in the middle of no call.
    pub fn idle(&self, seat: u32) -> bool
        requires { seat < self.now.setup.seats }
        ensures { IsTrue result ↔ (((machine_of self.now).part seat).phase ≡ Idle) }
    {
        matches!(self.phase(seat), Phase::Idle)
    }

    /// What the seat is in the middle of.
    pub fn phase(&self, seat: u32) -> &Phase
        requires { seat < self.now.setup.seats }
        ensures { result.now ≡ ((machine_of self.now).part seat).phase }
    {
        self.seats[seat as usize].phase()
    }

    /// The one step that the seat makes next, where it is in the middle of a call.
    pub fn next_step(&self, seat: u32) -> Option<Step>
        requires { seat < self.now.setup.seats }
        ensures { result ≡ next_step ((machine_of self.now).part seat).phase }
    {
        self.phase(seat).next_step()
    }

    /// The spent ticket that the seat keeps.
    pub fn spent(&self, seat: u32) -> Option<u64>
        requires { seat < self.now.setup.seats }
        ensures { result ≡ ((machine_of self.now).part seat).spent }
    {
        self.seats[seat as usize].spent()
    }

    /// The ring of the call that the seat is in the middle of.
    pub fn ring_of(&self, seat: u32) -> Option<u32>
        requires { seat < self.now.setup.seats }
        ensures { result ≡ ring_under_way ((machine_of self.now).part seat).phase }
    {
        match self.phase(seat) {
            Phase::Idle => None,
            phase => Some(ring_of(phase)),
        }
    }

    /// The calls of the seat's record, oldest first.
    pub fn calls(&self, seat: u32) -> &[Ended]
        requires { seat < self.now.setup.seats }
        ensures { result.now ≡ ((machine_of self.now).part seat).calls }
    {
        self.seats[seat as usize].calls()
    }

    /// The newest call of the seat's record.
    pub fn last(&self, seat: u32) -> Option<&Ended>
        requires { seat < self.now.setup.seats }
        ensures { let calls = ((machine_of self.now).part seat).calls in
            option_copied result ≡ slice_get calls (length calls - 1) }
    {
        self.seats[seat as usize].last()
    }
}

/// Ring 0 full, and the others empty.
fn start_rings(alloc: Global, setup: &Setup, opening: &Vec<Bytes>) -> Result<Vec<Ring>, NoMemory>
    requires { vec_len opening.now ≡ n_of setup.now.order }
    ensures { IfOk result (λ rings.
        IsStart setup.now opening.now.items (setup.now.rings - 1) rings.items) }
{
    let mut rings = Vec::new(alloc);
    rings.reserve_exact(setup.rings() as usize)?;
    rings.push(Ring::full(alloc, setup, opening)?)?;
    for _ in 0..setup.rings() - 1 {
        rings.push(Ring::empty(alloc, setup)?)?;
    }
    Ok(rings)
}

/// As many idle seats as the setup has.
fn idle_seats(alloc: Global, setup: &Setup) -> Result<Vec<Seat>, NoMemory>
    ensures { IfOk result (λ seats. seats.items ≡ replicate setup.now.seats idle_part) }
{
    let mut seats = Vec::new(alloc);
    seats.reserve_exact(setup.seats() as usize)?;
    for _ in 0..setup.seats() {
        seats.push(Seat::idle(alloc))?;
    }
    Ok(seats)
}
