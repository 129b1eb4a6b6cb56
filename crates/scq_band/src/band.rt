//! A band: the running rings, with their seats.
ghost use Rattle.std.specs.Prelude.{◌≡◌, ℕ, ◌<◌, ◌≤◌, ◌==◌, true, length, Some, None, All, IfOk};
ghost use Rattle.std.specs.Prelude.{IfErr, vec_len};
ghost use Rattle.scq_word.specs.Exports.{n_of};
ghost use Rattle.scq_band.specs.Rings.{IsRing};
ghost use Rattle.scq_band.specs.Buffers.{opening_of};
ghost use Rattle.scq_band.specs.RunSeen.{IsReadingInRun, with_retiree, AllWereSeenRetired};
ghost use Rattle.scq_band.specs.Standing.{first_standings, seat_after_look, having_seen, caller_of};

use crate::gate::{read_gate, retire};
use crate::making::{Memory, lay_all, lift_all, reserved};
use crate::ring::Ring;
use crate::rule::{Key, Rule};
use crate::seat::Seat;
use crate::slot::Slot;
use crate::splitting::split_all;
use crate::view::View;
use atomic_table::{Refused, Table};
use scq_word::{Buffer, NoMemory, Setup};
use std::alloc::Global;
use std::marker::Model;
use std::snapshot::Snapshot;

/// The running rings. Threads share it and make calls on it, each with a seat of its own.
///
/// `rings` has what a call needs to know of each ring, worked out once. `buffers` and `left` are
/// empty lists, with room for what `close` hands out.
#[derive(Drop)]
pub struct Band<B: Buffer> {
    pub(crate) table: Table<Slot<B>, View, Key<B>, Rule, Global>,
    pub(crate) setup: Setup,
    pub(crate) rings: Vec<Ring>,
    pub(crate) buffers: Vec<B>,
    pub(crate) left: Vec<u64>,
}

impl<B: Buffer> Model for Band<B> {
    ghost use Rattle.std.specs.Prelude.{vec_capacity};
    ghost use Rattle.scq_band.specs.Standing.{Identity};

    ghost Value = { Identity B };

    ghost use Rattle.scq_band.specs.Kept.{identity_of, IsBand};

    ghost view = { λ b. identity_of b.table.shared.table_id b.table.shared.key };

    ghost invariant = { λ b.
        IsBand b.table.shared.table_id b.table.shared.key b.setup b.rings.items b.buffers.items
        (vec_capacity b.buffers) b.left.items (vec_capacity b.left) };
}

impl<B: Buffer> Band<B> {
    /// A band with its seats, in the order of their numbers. Buffer i stands for index i; ring 0
    /// has all indices, in order. Without memory all buffers come back, in order.
    pub fn make(
        alloc: Global,
        setup: Setup,
        mut buffers: Vec<B>,
    ) -> Result<(Band<B>, Vec<Seat<B>>), (Vec<B>, NoMemory)>
        requires { vec_len buffers ≡ n_of setup.order }
        ensures band { IfOk result (λ made.
            (made.0.setup ≡ setup) × (made.0.given ≡ buffers.items)) }
        ensures seats { IfOk result (λ made. made.1.items ≡ first_standings made.0 setup.seats) }
        ensures own { IfOk result (λ made. All (λ s. s.band ≡ made.0) made.1.items) }
        ensures refused { IfErr result (λ refused. refused.0.items ≡ buffers.items) }
    {
        let Memory {
            words,
            left,
            rings,
            rooms,
        } = match reserved(alloc, setup) {
            Ok(memory) => memory,
            Err(wanted) => return Err((buffers, wanted)),
        };
        let Ok(mut slots) = Vec::with_capacity(alloc, buffers.len()) else {
            return Err((buffers, NoMemory));
        };
        let Ok(seats) = Vec::with_capacity(alloc, rooms.len()) else {
            slots.destroy_empty();
            return Err((buffers, NoMemory));
        };
        let key = Key {
            setup,
            given: Snapshot::of(&buffers),
        };
        lay_all(&mut buffers, &mut slots);
        match Table::new(alloc, words.as_slice(), slots, &key) {
            Ok((table, first)) => {
                let seats = split_all(&table.shared, first, &key, rooms, seats);
                let band = Band {
                    table,
                    setup,
                    rings,
                    buffers,
                    left,
                };
                Ok((band, seats))
            }
            Err(Refused { slots }) => {
                seats.destroy_empty();
                lift_all(slots, &mut buffers);
                Err((buffers, NoMemory))
            }
        }
    }

    // What a call needs to know of a ring.
    #[inline(always)]
    pub(crate) fn ring(&self, number: u32) -> &Ring
        requires { number < self.now.setup.rings }
        ensures number { result.now.number ≡ number }
        ensures ring { IsRing self.now.setup result.now }
    {
        &self.rings[number as usize]
    }

    /// The seat retires, and has seen that it has: so marks and notes of it carry that. Wait-free:
    /// one step.
    pub fn retire(&self, seat: &mut Seat<B>)
        requires seat { seat.old.band ≡ self.now }
        requires stays { seat.old.retired ≡ None }
        ensures { seat.new ≡ record seat.old {
          retired = Some (length seat.old.calls);
          seen = with_retiree (seat.old.number, length seat.old.calls) seat.old.seen;
        } }
    {
        retire(&self.table.shared, &mut seat.token);
    }

    /// Whether every seat had retired when the gate was read. The number that is read there, of the
    /// seats that haven't retired, never rises. The seat has then seen a run with all calls that
    /// the retired seats made before they retired. Where it had seen each seat retired, by marks,
    /// notes or readings, the answer is true (the clause `told`). Wait-free: one step.
    pub fn gate_closed(&self, seat: &mut Seat<B>) -> bool
        requires seat { seat.old.band ≡ self.now }
        ensures looked { (found : ℕ)
            × (seat.new ≡ having_seen seat.new.seen (seat_after_look found seat.old))
            × (result ≡ (found == 0)) }
        ensures in_run { (found : ℕ) → seat.new.gate ≡ Some found
            → IsReadingInRun self.now.setup (opening_of B.contents self.now.given) seat.old.retired
            (caller_of seat.old) (caller_of seat.new) found }
        ensures told { AllWereSeenRetired self.now.setup seat.old.seen → result ≡ true }
        ensures fell { (last found : ℕ) → seat.old.gate ≡ Some last → seat.new.gate ≡ Some found
            → found ≤ last }
        ensures own { (calls found : ℕ) → seat.old.retired ≡ Some calls → seat.new.gate ≡ Some found
            → found < self.now.setup.seats }
    {
        read_gate(&self.table.shared, &mut seat.token) == 0
    }
}
