//! The memory and the words that a band is made with.
ghost use Rattle.std.specs.Prelude.{◌≡◌, ◌+◌, ◌<◌, ◌≤◌, [], map, All, IfOk, vec_len, vec_capacity};
ghost use Rattle.scq_word.specs.Exports.{n_of};
ghost use Rattle.scq_core.specs.Exports.{read, threshold_of, start_cells};
ghost use Rattle.scq_band.specs.Numbers.{first_numbers};
ghost use Rattle.scq_band.specs.Homes.{full_slot};
ghost use Rattle.scq_band.specs.Rings.{AreRings};
ghost use Rattle.scq_band.specs.Making.{lifted, AllLaid, HoldsNone, IsRoom, IsMemory, IsOfStart};
ghost use Rattle.scq_band.specs.Making.{WordsAreOpened};

use crate::layout::{GATE, head_word, slot_word, tail_word, threshold_word, word_count};
use crate::numbers::Numbers;
use crate::ring::Ring;
use crate::slot::Slot;
use scq_core::{State, ZERO_LEVEL, reset_level};
use scq_word::{Buffer, Bytes, NoMemory, Setup};
use std::alloc::Global;

// How many cells of 32 bytes or less stay free behind what one seat writes, or all read: two lines
// of 64 bytes, so that no seat writes in a line that another uses.
const APART: usize = 8;

/// The room of one seat: which indices it has at the start, none, and what it knows then.
#[derive(Drop)]
pub struct Room {
    pub held: Vec<bool>,
    pub numbers: Vec<Numbers>,
}

/// The memory of a band, but for that of its table, slots and seats.
#[derive(Drop)]
pub struct Memory {
    pub words: Vec<u64>,
    pub left: Vec<u64>,
    pub rings: Vec<Ring>,
    pub rooms: Vec<Room>,
}

// What a seat knows of each ring at the start.
fn first_numbers(alloc: Global, setup: &Setup) -> Result<Vec<Numbers>, NoMemory>
    ensures { IfOk result (λ v. v.items ≡ first_numbers setup.now setup.now.rings) }
{
    let mut numbers = Vec::new(alloc);
    numbers.reserve_exact(setup.rings() as usize + APART)?;
    for ring in 0..setup.rings() {
        numbers.push(Numbers::first(setup, ring))?;
    }
    Ok(numbers)
}

// What a call needs to know of each ring.
fn rings(alloc: Global, setup: &Setup) -> Result<Vec<Ring>, NoMemory>
    ensures { IfOk result (λ v. AreRings setup.now setup.now.rings v.items) }
{
    let mut rings = Vec::new(alloc);
    rings.reserve_exact(setup.rings() as usize + APART)?;
    for number in 0..setup.rings() {
        rings.push(Ring::of(setup, number))?;
    }
    Ok(rings)
}

// A note for each index, and each says that the seat doesn't hold it.
fn none_held(alloc: Global, setup: &Setup) -> Result<Vec<bool>, NoMemory>
    ensures { IfOk result (λ v. HoldsNone setup.now v.items) }
{
    let n = setup.shape().n() as usize;
    let mut held = Vec::with_capacity(alloc, n + 32 * APART)?;
    held.resize(n, false)?;
    Ok(held)
}

fn one_room(alloc: Global, setup: &Setup) -> Result<Room, NoMemory>
    ensures { IfOk result (IsRoom setup.now) }
{
    Ok(Room {
        held: none_held(alloc, setup)?,
        numbers: first_numbers(alloc, setup)?,
    })
}

// The rooms of all seats.
fn rooms(alloc: Global, setup: &Setup) -> Result<Vec<Room>, NoMemory>
    ensures count { IfOk result (λ v. vec_len v ≡ setup.now.seats) }
    ensures rooms { IfOk result (λ v. All (IsRoom setup.now) v.items) }
{
    let mut rooms = Vec::new(alloc);
    rooms.reserve_exact(setup.seats() as usize)?;
    for _ in 0..setup.seats() {
        rooms.push(one_room(alloc, setup)?)?;
    }
    Ok(rooms)
}

// Contents without bytes: the words of the start are the same for all.
fn no_contents(alloc: Global, setup: &Setup) -> Result<Vec<Bytes>, NoMemory>
    ensures { IfOk result (λ v. vec_len v ≡ n_of setup.now.order) }
{
    let n = setup.shape().n() as usize;
    let mut contents = Vec::new(alloc);
    contents.reserve_exact(n)?;
    for _ in 0..n {
        contents.push(Bytes::from(Vec::new(alloc)))?;
    }
    Ok(contents)
}

// Threshold of a ring at the start.
#[tactic(auto, unfolding(scq_core::specs::Table::zero_level))]
fn first_threshold(setup: &Setup, ring: u32) -> u64
    ensures { result ≡ read (start_cells setup.now []) (threshold_of ring) }
{
    if ring == 0 {
        reset_level(setup)
    } else {
        ZERO_LEVEL - 1
    }
}

// Puts the words of a ring at the start where they stand.
fn open_ring(words: &mut Vec<u64>, state: &State, ring: u32)
    requires start { IsOfStart state.now }
    requires ring { ring < state.now.setup.rings }
    requires before { WordsAreOpened state.now.setup words.old.items ring 0 }
    ensures { WordsAreOpened state.now.setup words.new.items (ring + 1) 0 }
{
    let setup = state.setup();
    let tail = tail_word(&setup, ring);
    words[tail] = state.tail(ring);
    words[head_word(tail)] = state.head(ring);
    words[threshold_word(tail)] = first_threshold(&setup, ring);
    for slot in 0..setup.shape().slots() {
        words[slot_word(&setup, tail, slot)] = state.entry(ring, slot);
    }
}

// The words of the table at the start.
fn first_words(alloc: Global, setup: Setup) -> Result<Vec<u64>, NoMemory>
    ensures { IfOk result (λ v. WordsAreOpened setup v.items setup.rings 0) }
{
    let state = State::start(alloc, setup, no_contents(alloc, &setup)?)?;
    let mut words = vec![in alloc; 0; word_count(&setup)]?;
    words[GATE] = u64::from(setup.seats());
    for ring in 0..setup.rings() {
        open_ring(&mut words, &state, ring);
    }
    Ok(words)
}

/// All that is needed beside the table: its first words, a place for what is left in each ring, and
/// a room for each seat.
pub fn reserved(alloc: Global, setup: Setup) -> Result<Memory, NoMemory>
    ensures { IfOk result (IsMemory setup) }
{
    Ok(Memory {
        words: first_words(alloc, setup)?,
        left: Vec::with_capacity(alloc, setup.rings() as usize)?,
        rings: rings(alloc, &setup)?,
        rooms: rooms(alloc, &setup)?,
    })
}

/// The slots of these buffers, in their order. The list of the buffers is left empty, with its
/// room.
pub fn lay_all<B: Buffer>(buffers: &mut Vec<B>, slots: &mut Vec<Slot<B>>)
    requires empty { slots.old.items ≡ [] }
    requires room { vec_len buffers.old ≤ vec_capacity slots.old }
    ensures slots { slots.new.items ≡ map full_slot buffers.old.items }
    ensures emptied { buffers.new.items ≡ [] }
    ensures kept { vec_capacity buffers.new ≡ vec_capacity buffers.old }
{
    buffers.reverse();
    while let Some(buffer) = buffers.pop() {
        slots.push_reserved(Slot::of(buffer));
    }
}

/// The buffers of these slots, in their order.
pub fn lift_all<B: Buffer>(mut slots: Vec<Slot<B>>, buffers: &mut Vec<B>)
    requires laid { AllLaid slots.items }
    requires empty { buffers.old.items ≡ [] }
    requires room { vec_len slots ≤ vec_capacity buffers.old }
    ensures { buffers.new.items ≡ lifted slots.items }
{
    while let Some(slot) = slots.pop() {
        buffers.push_reserved(slot.lift());
    }
    slots.destroy_empty();
    buffers.reverse();
}
