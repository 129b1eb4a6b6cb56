//! Where ports leave their passes when they close, so that the last one finds all of them.
ghost use Rattle.std.specs.Prelude.{◌≡◌, ◌<◌, ◌≤◌, [], IfOk, IfSome, vec_capacity};
ghost use Rattle.scq_port.specs.Ends.{laid_at, IsPassOf, AreAllPasses};

use crate::leaving::{Leaving, drop_values};
use crate::port_buffer::PortBuffer;
use atomic_table::{Play, Refused, Seat, Table, TableRule};
use scq_queue::{Held, Pass, Queue};
use scq_word::NoMemory;
use std::alloc::Global;
use std::marker::Model;
use std::snapshot::Snapshot;

/// The word of a slot whose port has begun to close, and of one in which its pass lies; 0 before.
const BEGUN: u64 = 1;

const LAID: u64 = 2;

/// What a token of the table knows. No value of it is ever made: it is a type of the proofs.
pub struct Knows {}

impl Model for Knows {
    ghost use Rattle.scq_port.specs.Ends.{Claim, no_claim};

    ghost Value = { Claim };

    ghost view = { λ _. no_claim };
}

/// In each slot whose word is 2 lies a pass of the queue. The key is the queue.
pub struct EndRule {}

impl TableRule<Option<Leaving>, Knows, Snapshot<Queue<PortBuffer>>> for EndRule {
    ghost use Rattle.scq_port.specs.Ends.{EndsHold, no_claim};

    ghost holds = { λ key. EndsHold key.value };

    ghost first = { λ _. no_claim };
}

/// The step by which a port claims its slot.
struct Claims;

impl Play<Option<Leaving>, Knows> for Claims {
    ghost use Rattle.scq_port.specs.Ends.{HasClaimed};

    ghost then = { λ st me n later. HasClaimed st.word n later };
}

/// The step by which a port leaves what it laid in its slot.
struct Leaves;

impl Play<Option<Leaving>, Knows> for Leaves {
    ghost use Rattle.scq_port.specs.Ends.{HasLaid};

    ghost then = { λ st me n later. HasLaid st.word me.1 later.0 };
}

pub type EndToken = Seat<Option<Leaving>, Knows>;

/// A slot for each port of a queue.
#[derive(Drop)]
pub struct Ends {
    pub(crate) table: Table<Option<Leaving>, Knows, Snapshot<Queue<PortBuffer>>, EndRule, Global>,
    ghost words: { table.shared.table_id.words ≡ table.shared.table_id.slots },
    ghost slots: { table.shared.table_id.slots ≡ table.shared.key.value.setup.seats },
}

impl Ends {
    /// Slots for the ports of a queue, as many as it has seats, in which nothing lies.
    pub(crate) fn new(
        alloc: Global,
        queue: &Queue<PortBuffer>,
        seats: u32,
    ) -> Result<Ends, NoMemory>
        requires seats { seats ≡ queue.now.setup.seats }
        ensures { IfOk result (λ made. made.table.shared.key.value ≡ queue.now) }
    {
        let words: Vec<u64> = Vec::from_elem(alloc, 0, seats as usize)?;
        let mut slots: Vec<Option<Leaving>> = Vec::with_capacity(alloc, seats as usize)?;
        while slots.len() < seats as usize {
            slots.push_reserved(None);
        }
        let key = Snapshot::of(queue);
        match Table::new(alloc, words.as_slice(), slots, &key) {
            Ok((table, _first)) => Ok(Ends { table }),
            Err(Refused { slots: _ }) => Err(NoMemory),
        }
    }

    /// Leaves the pass of a port in the slot of its number. None where one was left there, which
    /// no port meets, as each closes once.
    pub(crate) fn leave(&self, number: u32, leaving: Leaving) -> Option<EndToken>
        requires pass { IsPassOf self.now.table.shared.key.value number leaving }
        requires low { number < self.now.table.shared.table_id.slots }
        ensures own { IfSome result (λ t. t.table_id ≡ self.now.table.shared.table_id) }
        ensures laid { IfSome result (λ t. t.me.0 ≡ laid_at number leaving) }
    {
        let shared = &self.table.shared;
        let slot = number as usize;
        let (found, mut token) = shared.swap_new_seat::<Claims>(slot, BEGUN);
        if found != 0 {
            return None;
        }
        drop(shared.exchange(&mut token, slot, Some(leaving)));
        shared.store::<Leaves>(&mut token, slot, LAID);
        Some(token)
    }

    /// All passes, in the order of their numbers, with that of the token, and the values that they
    /// hold, put into empty lists with room. None where one of them was not left, or where there
    /// isn't room for the values: the last port meets neither.
    #[tactic(auto, using(crate::proofs::Gathering::gathered_none))]
    pub(crate) fn gather(
        self,
        token: EndToken,
        mut passes: Vec<Pass<PortBuffer>>,
        mut values: Vec<Held<PortBuffer>>,
        last: Snapshot<Leaving>,
    ) -> Option<(Vec<Pass<PortBuffer>>, Vec<Held<PortBuffer>>)>
        requires own { token.table_id ≡ self.table.shared.table_id }
        requires laid { token.me.0 ≡ laid_at last.value.number last.value }
        requires low { last.value.number < self.table.shared.table_id.slots }
        requires empty { (passes.items ≡ []) × (values.items ≡ []) }
        requires room { self.table.shared.table_id.slots ≤ vec_capacity passes }
        ensures { IfSome result (λ found.
            AreAllPasses self.table.shared.key.value last.value found.0.items found.1.items) }
    {
        let Ends { table } = self;
        let mut closed = table.close_with(token);
        let mut slot = 0;
        while slot < closed.slot_count() {
            let laid = closed.take(slot);
            if closed.word(slot) == LAID {
                let Some(leaving) = laid else { unreachable!() };
                if let Some(pass) = leaving.unpack(&mut values) {
                    passes.push_reserved(pass);
                }
            }
            slot += 1;
        }
        closed.free();
        if passes.len() < slot {
            drop_values(values);
            return None;
        }
        Some((passes, values))
    }
}
