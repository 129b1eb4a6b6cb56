//! A seat's part of a state.

ghost use Rattle.std.specs.Option.{option_copied};
ghost use Rattle.std.specs.Prelude.{◌-◌, length, slice_get, ◌≡◌, ℕ, List, ◌<◌, true, vec_len};
ghost use Rattle.std.specs.Prelude.{vec_capacity, is_some, unwrap_or, IfOk, OnOk, OnErr};
ghost use Rattle.scq_core.specs.Table.{turn_of, after, stores, hand_without, holds_index};
ghost use Rattle.scq_core.specs.Start.{idle_part};
ghost use Rattle.scq_core.specs.Turn.{copied, ends_call, has_ended, seat_part, part_after, laid_by};
ghost use Rattle.scq_core.specs.Turn.{IsReady};
ghost use Rattle.scq_core.specs.declared.phase.Phase.{Phase as ThePhase};
ghost use Rattle.scq_core.specs.declared.phase.Phase.TheVariants.{Idle};

use crate::copies::{Copies, copied_list};
use crate::ended::Ended;
use crate::next::{Next, next_of};
use crate::phase::Phase;
use crate::step::Step;
use crate::table::ends_call;
use scq_word::{Bytes, NoMemory, Setup};
use std::alloc::Global;
use std::marker::Model;
use std::mem;

/// A seat's part: what it is in the middle of, the indices in its hand, the spent ticket that it
/// keeps, and the record of its ended calls.
#[derive(Drop)]
pub struct Seat {
    phase: Phase,
    hand: Vec<u32>,
    spent: Option<u64>,
    calls: Vec<Ended>,
}

impl Model for Seat {
    ghost use Rattle.scq_core.specs.Machine.{SeatPart};

    ghost Value = { SeatPart };

    ghost view = { λ s.
        record { phase = s.phase; hand = s.hand.items; spent = s.spent; calls = s.calls.items } };
}

impl Seat {
    /// In the middle of nothing, with an empty hand and an empty record.
    pub fn idle(alloc: Global) -> Seat
        ensures { result ≡ idle_part }
    {
        Seat {
            phase: Phase::Idle,
            hand: Vec::new(alloc),
            spent: None,
            calls: Vec::new(alloc),
        }
    }

    /// What the seat is in the middle of.
    pub fn phase(&self) -> &Phase
        ensures { result.now ≡ self.now.phase }
    {
        &self.phase
    }

    /// Whether the index is in its hand.
    pub fn holds(&self, index: u32) -> bool
        ensures { result ≡ holds_index self.now.hand index }
    {
        self.hand.contains(&index)
    }

    /// The spent ticket that it keeps.
    pub fn spent(&self) -> Option<u64>
        ensures { result ≡ self.now.spent }
    {
        self.spent
    }

    /// The calls of its record, oldest first.
    pub fn calls(&self) -> &[Ended]
        ensures { result.now ≡ self.now.calls }
    {
        self.calls.as_slice()
    }

    /// The newest call of its record.
    pub fn last(&self) -> Option<&Ended>
        ensures { option_copied result ≡ slice_get self.now.calls (length self.now.calls - 1) }
    {
        self.calls.last()
    }

    /// Whether a line of the table allows the step.
    pub fn allows(&self, setup: &Setup, step: &Step) -> bool
        ensures { result ≡ is_some (turn_of setup.now self.now step.now) }
    {
        match (&self.phase, step) {
            (Phase::Idle, Step::E1 { ring, index, .. }) => {
                self.spent.is_none()
                    && *ring < setup.rings()
                    && *index < setup.shape().n()
                    && self.hand.contains(index)
            }
            (Phase::Idle, Step::D1 { ring }) => self.spent.is_none() && *ring < setup.rings(),
            (Phase::AtE1 { .. }, Step::E1Again) => true,
            (Phase::AtE2 { .. }, Step::E2) => true,
            (Phase::AtE3 { .. }, Step::E3) => true,
            (Phase::AtE4 { .. }, Step::E4) => true,
            (Phase::AtE5 { .. }, Step::E5) => true,
            (Phase::AtE6 { .. }, Step::E6) => true,
            (Phase::AtD2 { .. }, Step::D2) => true,
            (Phase::AtD3 { .. }, Step::D3) => true,
            (Phase::AtD4 { .. }, Step::D4) => true,
            (Phase::AtD5 { .. }, Step::D5) => true,
            (Phase::AtD6 { .. }, Step::D6) => true,
            (Phase::AtD7 { .. }, Step::D7) => true,
            (Phase::AtD8 { .. }, Step::D8) => true,
            (Phase::AtD9 { .. }, Step::D9) => true,
            (Phase::AtD10 { .. }, Step::D10) => true,
            _ => false,
        }
    }

    /// The turn of a step that is allowed: the one that it begins, or what the seat is in the
    /// middle of.
    pub fn turn<'a>(&'a self, started: &'a Option<Phase>) -> &'a Phase
        ensures { result.now ≡ unwrap_or started.now self.now.phase }
    {
        match started {
            Some(turn) => turn,
            None => &self.phase,
        }
    }

    /// Makes the turn, which found this word. Answers the content that is to stand beside the
    /// entry, where the turn placed an index. After an `Err` the seat is unchanged.
    pub fn proceed(
        &mut self,
        setup: &Setup,
        started: Option<Phase>,
        found: u64,
        copy: Bytes,
    ) -> Result<Option<Bytes>, NoMemory>
        requires { IsReady setup.now (unwrap_or started self.old.phase) found }
        ensures part { OnOk result ((beside : List ℕ)
            → copied (unwrap_or started self.old.phase) beside ≡ copy
            → self.new ≡ after setup.now (unwrap_or started self.old.phase) found beside self.old) }
        ensures laid { IfOk result (λ laid. (beside : List ℕ)
            → copied (unwrap_or started self.old.phase) beside ≡ copy
            → unwrap_or laid beside ≡ stores (unwrap_or started self.old.phase) found beside) }
        ensures err { OnErr result ((self.new ≡ self.old)
            × (ends_call setup.now (unwrap_or started self.old.phase) found ≡ true)) }
    {
        let ending = ends_call(setup, self.turn(&started), found);
        make_room(&mut self.hand, &mut self.calls, ending)?;
        let resting = mem::replace(&mut self.phase, Phase::Idle);
        let turn = started.unwrap_or(resting);
        let next = next_of(setup, turn, found, copy);
        Ok(settle(
            &mut self.phase,
            &mut self.hand,
            &mut self.spent,
            &mut self.calls,
            next,
        ))
    }
}

impl Copies for Seat {
    fn copied(&self, alloc: Global) -> Result<Seat, NoMemory> {
        Ok(Seat {
            phase: self.phase.copy(alloc)?,
            hand: self.hand.as_slice().to_vec(alloc)?,
            spent: self.spent,
            calls: copied_list(alloc, &self.calls)?,
        })
    }
}

/// What becomes of the fields of an idle seat after a turn. Answers the content that is to stand
/// beside the entry, where the turn placed an index.
fn settle(
    phase: &mut Phase,
    hand: &mut Vec<u32>,
    spent: &mut Option<u64>,
    calls: &mut Vec<Ended>,
    next: Next,
) -> Option<Bytes>
    requires idle { phase.old ≡ Idle }
    requires room { has_ended next ≡ true
        → (vec_len hand.old < vec_capacity hand.old)
        × (vec_len calls.old < vec_capacity calls.old) }
    ensures part { (before : ThePhase)
        → seat_part phase.new hand.new.items spent.new calls.new.items
        ≡ part_after next (seat_part before hand.old.items spent.old calls.old.items) }
    ensures laid { result ≡ laid_by next }
{
    match next {
        Next::Goes(goes) => {
            *phase = goes;
            None
        }
        Next::Ends(ended) => {
            calls.push_reserved(ended);
            None
        }
        Next::Spends { ring, ticket, put } => {
            *spent = Some(ticket);
            calls.push_reserved(Ended::Spent { ring, ticket, put });
            None
        }
        Next::Places {
            ring,
            index,
            content,
            ticket,
            laid,
        } => {
            take_out(hand, index);
            *phase = Phase::AtE5 {
                ring,
                index,
                content,
                ticket,
            };
            Some(laid)
        }
        Next::Takes {
            ring,
            place,
            index,
            content,
        } => {
            hand.push_reserved(index);
            calls.push_reserved(Ended::Got {
                ring,
                place,
                content,
            });
            None
        }
    }
}

/// Room for what a call that ends puts into the hand and into the record.
fn make_room(hand: &mut Vec<u32>, calls: &mut Vec<Ended>, ending: bool) -> Result<(), NoMemory>
    ensures hand { hand.new.items ≡ hand.old.items }
    ensures calls { calls.new.items ≡ calls.old.items }
    ensures room { OnOk result (ending ≡ true
        → (vec_len hand.new < vec_capacity hand.new)
        × (vec_len calls.new < vec_capacity calls.new)) }
    ensures err { OnErr result (ending ≡ true) }
{
    if ending {
        hand.reserve(1)?;
        calls.reserve(1)?;
    }
    Ok(())
}

/// Takes an index out of a hand.
fn take_out(hand: &mut Vec<u32>, index: u32)
    ensures { hand.new.items ≡ hand_without index hand.old.items }
{
    hand.retain(|held| *held != index);
}
