//! The refused puts that had found a place, and the puts that had none, where it is known for how
//! many values each queue has room.

ghost use Rattle.std.specs.Prelude.{◌≡◌, ◌+◌, ◌<◌, ◌^◌, ◌↔◌, ◌⊎◌, ℕ, IsTrue, MatchOption};
ghost use Rattle.std.specs.Prelude.{length, IfOk, IfSome, OnOk};
ghost use Rattle.scq_hist.specs.Exports.{IsLawful};
ghost use Rattle.scq_check.specs.Failures.{AreFailures};
ghost use Rattle.scq_check.specs.Full.{AreGetters, IsTaking, IsFreeing, IsFilling, IsEmptying};
ghost use Rattle.scq_check.specs.Full.{IsPutAt, NoPutAt, IsGetAt, NoGetAt, IsUsedUp, HasPlace};
ghost use Rattle.scq_check.specs.Full.{AreKnown, held_at_start, places_in, KeepsRoomAt};
ghost use Rattle.scq_check.specs.Full.{untouched, ArePlacesOf, ArePlacesAt};
ghost use Rattle.scq_check.specs.Refused.{IsRefusals};
ghost use Rattle.scq_check.specs.Tables.{AreOfLawful, HasEvent, IsTables};

use crate::by_name::ByName;
use crate::failures::Failures;
use crate::queues::counted;
use crate::refused::{is_among, refusals};
use crate::tables::Tables;
use scq_hist::{Call, Event, got_name};
use scq_word::{Bytes, NoMemory};
use std::alloc::Global;
use std::collections::BTreeMap;

/// The places of a queue at a moment: how many puts that weren't refused have started, how many
/// gets that have got a put have ended, how many puts have ended with Done, how many gets have
/// started that get something or never end, and the last moment found so far at which no place was
/// free for certain, or 0.
#[derive(Clone, Copy)]
pub(crate) struct Places {
    pub(crate) taken: usize,
    pub(crate) freed: usize,
    pub(crate) done: usize,
    pub(crate) begun: usize,
    pub(crate) full_till: usize,
}

/// What is looked up of a history beside its tables: where each put that was refused ended, and at
/// which positions gets start that get something.
#[derive(Drop)]
pub(crate) struct Known {
    pub(crate) refusals: ByName,
    pub(crate) getters: Vec<bool>,
}

/// The places of all queues of whose calls there was an event.
#[derive(Drop)]
pub(crate) struct AllPlaces {
    known: BTreeMap<u32, Places>,
}

// The seat of the put of this queue that starts at this position.
fn putting(events: &[Event], queue: u32, s: usize) -> Option<u32>
    requires { s < length events.now }
    ensures { MatchOption result (NoPutAt events.now queue s) (IsPutAt events.now queue s) }
{
    match &events[s] {
        Event::Start {
            seat,
            call: Call::Put { queue: of, .. },
        } if *of == queue => Some(*seat),
        _ => None,
    }
}

// Whether a put of this queue that wasn't refused starts at this position.
fn takes(tables: &Tables, refusals: &ByName, events: &[Event], queue: u32, s: usize) -> bool
    requires tables { IsTables events.now tables.now }
    requires within { s < length events.now }
    requires refusals { IsRefusals events.now (length events.now) refusals.now }
    ensures { IsTrue result ↔ IsTaking events.now queue s }
{
    match putting(events, queue, s) {
        Some(seat) => !is_among(refusals, seat, tables.number(events, s)),
        None => false,
    }
}

// Whether a get of this queue ends at this position that is the first to have got its put.
fn frees(tables: &Tables, events: &[Event], queue: u32, e: usize) -> bool
    requires { HasEvent events.now tables.now e }
    ensures { IsTrue result ↔ IsFreeing events.now queue e }
{
    match tables.get_ending_at(events, e) {
        Some(_) => tables.queue_of(events, e) == queue,
        None => false,
    }
}

// Whether a put of this queue ends with Done at this position.
fn fills(tables: &Tables, events: &[Event], queue: u32, e: usize) -> bool
    requires { HasEvent events.now tables.now e }
    ensures { IsTrue result ↔ IsFilling events.now queue e }
{
    tables.done_put(events, queue, e).is_some()
}

// The seat of the get of this queue that starts at this position.
fn getting(events: &[Event], queue: u32, s: usize) -> Option<u32>
    requires { s < length events.now }
    ensures { MatchOption result (NoGetAt events.now queue s) (IsGetAt events.now queue s) }
{
    match &events[s] {
        Event::Start {
            seat,
            call: Call::Get { queue: of },
        } if *of == queue => Some(*seat),
        _ => None,
    }
}

// Whether a get of this queue starts at this position that gets something or never ends.
fn empties(tables: &Tables, getters: &[bool], events: &[Event], queue: u32, s: usize) -> bool
    requires tables { IsTables events.now tables.now }
    requires within { s < length events.now }
    requires getters { AreGetters events.now (length events.now) getters.now }
    ensures { IsTrue result ↔ IsEmptying events.now queue s }
{
    match getting(events, queue, s) {
        Some(_) => getters[s] || tables.never_ends(events, queue, s),
        None => false,
    }
}

// At which positions gets start that get something.
fn getters(alloc: Global, tables: &Tables, events: &[Event]) -> Result<Vec<bool>, NoMemory>
    requires { AreOfLawful events.now tables.now }
    ensures { IfOk result (λ flags. AreGetters events.now (length events.now) flags.items) }
{
    let mut flags = vec![in alloc; false; events.len()]?;
    for e in 0..events.len() {
        mark_getter(&mut flags, tables, events, e);
    }
    Ok(flags)
}

// From the Ends before position e to those up to it.
fn mark_getter(flags: &mut Vec<bool>, tables: &Tables, events: &[Event], e: usize)
    requires event { HasEvent events.now tables.now e }
    requires before { AreGetters events.now e flags.old.items }
    ensures { AreGetters events.now (e + 1) flags.new.items }
{
    if got_name(&events[e]).is_some() {
        let start = tables.call_of(events, e).0;
        flags[start] = true;
    }
}

// How many places of the queue the opening tokens have.
fn held_at_start(opening: &[Bytes], queue: u32) -> usize
    ensures { result ≡ held_at_start opening.now queue }
{
    if queue == 0 { opening.len() } else { 0 }
}

impl Places {
    // Whether no place is free for certain.
    fn is_used_up(self, room: u32, opening: &[Bytes], queue: u32) -> bool
        requires few_taken { self.taken < 2 ^ 63 }
        requires few_freed { self.freed < 2 ^ 63 }
        ensures { IsTrue result ↔ IsUsedUp room opening.now queue self }
    {
        room as usize + self.freed <= held_at_start(opening, queue) + self.taken
    }

    // Whether a put more that is answered Done has a place.
    fn has_place(self, room: u32, opening: &[Bytes], queue: u32) -> bool
        requires few_done { self.done < 2 ^ 63 }
        requires few_begun { self.begun < 2 ^ 63 }
        ensures { IsTrue result ↔ HasPlace room opening.now queue self }
    {
        held_at_start(opening, queue) + self.done + 1 <= room as usize + self.begun
    }

    // Whether now, or at a moment found before that comes after position `start`, no place was
    // free.
    fn was_used_up(self, room: u32, opening: &[Bytes], queue: u32, start: usize) -> bool
        requires few_taken { self.taken < 2 ^ 63 }
        requires few_freed { self.freed < 2 ^ 63 }
        ensures { IsTrue result
            ↔ (IsUsedUp room opening.now queue self ⊎ (start < self.full_till)) }
    {
        self.is_used_up(room, opening, queue) || start < self.full_till
    }

    // The last moment found up to this one at which no place was free. It is asked just before each
    // event of the queue: between two of them its numbers stay as they are, and the later moment of
    // the two tells.
    fn full_till_now(self, room: u32, opening: &[Bytes], queue: u32, moment: usize) -> usize
        requires few_taken { self.taken < 2 ^ 63 }
        requires few_freed { self.freed < 2 ^ 63 }
        ensures used_up { IsUsedUp room opening.now queue self → result ≡ moment }
        ensures left { ¬ (IsUsedUp room opening.now queue self) → result ≡ self.full_till }
    {
        if self.is_used_up(room, opening, queue) {
            moment
        } else {
            self.full_till
        }
    }

    // From just before the event at position e to just after it.
    fn after(
        self,
        tables: &Tables,
        known: &Known,
        room: u32,
        opening: &[Bytes],
        events: &[Event],
        queue: u32,
        e: usize,
    ) -> Places
        requires event { HasEvent events.now tables.now e }
        requires known { AreKnown events.now known.now }
        requires before { ArePlacesOf room opening.now events.now queue e self }
        ensures { ArePlacesOf room opening.now events.now queue (e + 1) result }
    {
        Places {
            taken: counted(self.taken, takes(tables, &known.refusals, events, queue, e)),
            freed: counted(self.freed, frees(tables, events, queue, e)),
            done: counted(self.done, fills(tables, events, queue, e)),
            begun: counted(
                self.begun,
                empties(tables, &known.getters, events, queue, e),
            ),
            full_till: self.full_till_now(room, opening, queue, e),
        }
    }
}

impl AllPlaces {
    fn get(&self, queue: u32) -> Places
        ensures { result ≡ places_in self.now queue }
    {
        match self.known.get(&queue) {
            Some(known) => *known,
            None => Places {
                taken: 0,
                freed: 0,
                done: 0,
                begun: 0,
                full_till: 0,
            },
        }
    }

    // Before any event.
    fn new(alloc: Global) -> AllPlaces
        ensures { (queue : ℕ) → places_in result queue ≡ untouched }
    {
        AllPlaces {
            known: BTreeMap::new(alloc),
        }
    }

    // From just before the event at position e to just after it.
    fn add(
        &mut self,
        tables: &Tables,
        known: &Known,
        room: u32,
        opening: &[Bytes],
        events: &[Event],
        e: usize,
    ) -> Result<(), NoMemory>
        requires event { HasEvent events.now tables.now e }
        requires known { AreKnown events.now known.now }
        requires before { ArePlacesAt room opening.now events.now e self.old }
        ensures { OnOk result (ArePlacesAt room opening.now events.now (e + 1) self.new) }
    {
        let queue = tables.queue_of(events, e);
        let before = self.get(queue);
        let after = before.after(tables, known, room, opening, events, queue, e);
        self.known.insert(queue, after)?;
        Ok(())
    }
}

// Whether the room is kept by the put that ends at this position, if one does.
fn keeps_room_at(
    tables: &Tables,
    room: u32,
    opening: &[Bytes],
    events: &[Event],
    places: &AllPlaces,
    e: usize,
) -> bool
    requires event { HasEvent events.now tables.now e }
    requires places { ArePlacesAt room opening.now events.now e places.now }
    ensures { IsTrue result ↔ KeepsRoomAt room opening.now events.now e }
{
    match tables.ended_put(events, e) {
        None => true,
        Some(put) => {
            let places = places.get(put.queue);
            if put.refused {
                places.was_used_up(room, opening, put.queue, put.start)
            } else {
                places.has_place(room, opening, put.queue)
            }
        }
    }
}

// What is looked up of a history beside its tables.
fn look_up(alloc: Global, tables: &Tables, events: &[Event]) -> Result<Known, NoMemory>
    requires { AreOfLawful events.now tables.now }
    ensures { IfOk result (AreKnown events.now) }
{
    Ok(Known {
        refusals: refusals(alloc, tables, events)?,
        getters: getters(alloc, tables, events)?,
    })
}

/// The puts of a lawful history that break the room: those that ended with Spent although at each
/// moment of their calls a place of their queue was free for certain, and those that ended with
/// Done although their queue held more values then than it has room for. Each queue has room for so
/// many, and the opening tokens are in queue 0 before the history. Time grows little faster than
/// the history's length.
pub fn find_room_breaches(
    alloc: Global,
    room: u32,
    opening: &[Bytes],
    events: &[Event],
) -> Result<Failures, NoMemory>
    requires { IsLawful events.now }
    ensures failures { IfOk result (AreFailures (KeepsRoomAt room opening.now events.now)) }
    ensures within { IfOk result (λ failures. IfSome failures.first (λ e. e < length events.now)) }
{
    let tables = Tables::new(alloc, events)?;
    let known = look_up(alloc, &tables, events)?;
    let mut places = AllPlaces::new(alloc);
    let mut failures = Failures::none();
    for e in 0..events.len() {
        failures = failures.with(e, keeps_room_at(&tables, room, opening, events, &places, e));
        places.add(&tables, &known, room, opening, events, e)?;
    }
    Ok(failures)
}
