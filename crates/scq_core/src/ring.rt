//! One ring: its words, and the contents beside its entries.

ghost use Rattle.std.specs.Prelude.{◌≡◌, ℕ, ◌+◌, ◌<◌, IfOk, replicate, slice_set, unwrap_or};
ghost use Rattle.std.specs.Prelude.{vec_len};
ghost use Rattle.scq_word.specs.Exports.{n_of, packed};
ghost use Rattle.scq_core.specs.Table.{ring_slots, slot};
ghost use Rattle.scq_core.specs.StateLists.{no_slot};
ghost use Rattle.scq_core.specs.Fresh.{empty_ring, IsFullRing};
ghost use Rattle.scq_core.specs.Rings.{IsCell, word_in, content_in, ring_with};
ghost use Rattle.scq_core.specs.declared.slot.Slot.{Slot};

use crate::copies::{Copies, copied_list};
use crate::slot::{Cell, Slot};
use crate::table::{ZERO_LEVEL, reset_level};
use scq_word::{Bytes, Entry, NoMemory, Setup, pack, slot_of};
use std::alloc::Global;
use std::marker::Model;

/// The words of one ring and the contents beside its entries. Threshold is kept as 2^32 more than
/// its value, as the running word is.
#[derive(Drop)]
pub struct Ring {
    tail: u64,
    head: u64,
    threshold: u64,
    slots: Vec<Slot>,
}

impl Model for Ring {
    ghost use Rattle.scq_core.specs.Rings.{RingLists};

    ghost Value = { RingLists };

    ghost view = { λ r.
        record { tail = r.tail; head = r.head; threshold = r.threshold; slots = r.slots.items } };
}

impl Ring {
    /// A ring in which nothing was ever placed.
    #[tactic(auto, unfolding(crate::specs::Table::zero_level))]
    pub fn empty(alloc: Global, setup: &Setup) -> Result<Ring, NoMemory>
        ensures { IfOk result (λ ring. ring ≡ empty_ring setup.now) }
    {
        let first = u64::from(setup.shape().slots());
        Ok(Ring {
            tail: first,
            head: first,
            threshold: ZERO_LEVEL - 1,
            slots: unused(alloc, setup)?,
        })
    }

    /// A ring in which each index stands once, in order, as after as many puts.
    pub fn full(alloc: Global, setup: &Setup, opening: &Vec<Bytes>) -> Result<Ring, NoMemory>
        requires { vec_len opening.now ≡ n_of setup.now.order }
        ensures { IfOk result (λ ring. IsFullRing setup.now opening.now.items ring) }
    {
        let shape = setup.shape();
        let first = u64::from(shape.slots());
        let mut slots = unused(alloc, setup)?;
        for (index, content) in opening.iter().enumerate() {
            let copy = Bytes::copy_of(alloc, content.bytes())?;
            fill(setup, &mut slots, index as u32, copy);
        }
        Ok(Ring {
            tail: first + u64::from(shape.n()),
            head: first,
            threshold: reset_level(setup),
            slots,
        })
    }

    /// The word of a cell.
    pub fn read(&self, cell: Cell) -> u64
        requires { IsCell self.now cell }
        ensures { (past : Slot) → result ≡ word_in past self.now cell }
    {
        match cell {
            Cell::Tail => self.tail,
            Cell::Head => self.head,
            Cell::Threshold => self.threshold,
            Cell::Entry { slot } => self.slots[slot as usize].word,
        }
    }

    /// The content beside an entry; beside another word stands none.
    pub fn beside(&self, cell: Cell) -> &[u8]
        requires { IsCell self.now cell }
        ensures { (past : Slot) → result.now ≡ content_in past self.now cell }
    {
        match cell {
            Cell::Entry { slot } => self.slots[slot as usize].content.bytes(),
            _ => &[],
        }
    }

    /// Writes the word at a cell, and beside an entry the content, where one is given.
    pub fn write(&mut self, cell: Cell, word: u64, content: Option<Bytes>)
        requires { IsCell self.old cell }
        ensures { (past : Slot)
            → self.new ≡ ring_with self.old cell word
            (unwrap_or content (content_in past self.old cell)) }
    {
        match cell {
            Cell::Tail => self.tail = word,
            Cell::Head => self.head = word,
            Cell::Threshold => self.threshold = word,
            Cell::Entry { slot } => {
                let slot = &mut self.slots[slot as usize];
                slot.word = word;
                if let Some(content) = content {
                    slot.content = content;
                }
            }
        }
    }
}

impl Copies for Ring {
    fn copied(&self, alloc: Global) -> Result<Ring, NoMemory> {
        Ok(Ring {
            tail: self.tail,
            head: self.head,
            threshold: self.threshold,
            slots: copied_list(alloc, &self.slots)?,
        })
    }
}

/// The slots of a ring in which nothing was ever placed.
fn unused(alloc: Global, setup: &Setup) -> Result<Vec<Slot>, NoMemory>
    ensures { IfOk result (λ slots.
        slots.items ≡ replicate (ring_slots setup.now) (no_slot setup.now)) }
{
    let shape = setup.shape();
    let entry = Entry {
        cycle: 0,
        safe: true,
        index: None,
    };
    let word = pack(shape, entry);
    let mut slots = Vec::new(alloc);
    slots.reserve_exact(shape.slots() as usize)?;
    for _ in 0..shape.slots() {
        slots.push(Slot {
            word,
            content: Bytes::from(Vec::new(alloc)),
        })?;
    }
    Ok(slots)
}

/// Places an index at the ticket of the first round that has its number.
fn fill(setup: &Setup, slots: &mut Vec<Slot>, index: u32, content: Bytes)
    requires many { vec_len slots.old ≡ ring_slots setup.now }
    requires own { index < n_of setup.now.order }
    ensures { slots.new.items
        ≡ slice_set slots.old.items (slot setup.now (ring_slots setup.now + index))
        (record { word = packed (ring_slots setup.now) 1 1 index; content = content }) }
{
    let shape = setup.shape();
    let entry = Entry {
        cycle: 1,
        safe: true,
        index: Some(index),
    };
    let at = slot_of(shape, u64::from(shape.slots() + index)) as usize;
    slots[at] = Slot {
        word: pack(shape, entry),
        content,
    };
}
