//! Seats whose events stand in two files.

ghost use Rattle.std.specs.Prelude.{◌≡◌, ◌+◌, ◌<◌, ℕ, List, length, IfOk, OnOk, MatchOption};
ghost use Rattle.std.specs.BTreeMap.{get};
ghost use Rattle.std.specs.Ordering.{nat_cmp};
ghost use Rattle.scq_judge.specs.Seats.{event_seat, EventIsAt, EachSeatInOneFile, HasSeatOfAnother};
ghost use Rattle.scq_judge.specs.Seats.{AreHomes};
ghost use Rattle.scq_judge.specs.Seats.{IsAtHome, IsAway};
ghost use Rattle.scq_judge.specs.declared.recorded.Stamped.{Stamped as TheStamped};

use crate::recorded::{Place, Stamped};
use scq_hist::Event;
use scq_word::NoMemory;
use std::alloc::Global;
use std::collections::BTreeMap;

/// Where an event stands, and where one stands of the same seat in another file.
#[derive(Clone, Copy)]
pub(crate) struct Apart {
    pub(crate) place: Place,
    pub(crate) other: Place,
}

/// Where the first event of each seat stands.
#[derive(Drop)]
pub(crate) struct Homes {
    known: BTreeMap<u32, Place>,
}

fn seat_of(event: &Event) -> u32
    ensures { result ≡ event_seat event.now }
{
    match event {
        Event::Start { seat, .. } => *seat,
        Event::End { seat, .. } => *seat,
    }
}

// The seat and the place of the event at this position.
fn at(events: &[Stamped], i: usize) -> (u32, Place)
    requires { i < length events.now }
    ensures { EventIsAt events.now i result.0 result.1 }
{
    let stamped = &events[i];
    (seat_of(&stamped.event), stamped.place)
}

// The home, if it is in another file than the place.
fn if_elsewhere(home: Place, place: Place) -> Option<Place>
    ensures { MatchOption result (home.file ≡ place.file) (λ other.
        (other ≡ home) × (¬ (home.file ≡ place.file))) }
{
    if home.file == place.file {
        None
    } else {
        Some(home)
    }
}

impl Homes {
    fn new(alloc: Global) -> Homes
        ensures { (events : List TheStamped) → AreHomes events 0 result }
    {
        Homes {
            known: BTreeMap::new(alloc),
        }
    }

    fn get(&self, seat: u32) -> Option<Place>
        ensures { result ≡ get nat_cmp self.now.known seat }
    {
        self.known.get(&seat).copied()
    }

    // Where the first event stands of the seat that the event at this position is of, if that is in
    // another file.
    fn elsewhere(&self, events: &[Stamped], i: usize) -> Option<Place>
        requires within { i < length events.now }
        requires homes { AreHomes events.now i self.now }
        ensures { MatchOption result (IsAtHome events.now i) (IsAway events.now i) }
    {
        let (seat, place) = at(events, i);
        match self.get(seat) {
            None => None,
            Some(home) => if_elsewhere(home, place),
        }
    }

    // From the events before position i to those up to it.
    fn add(&mut self, events: &[Stamped], i: usize) -> Result<(), NoMemory>
        requires within { i < length events.now }
        requires at_home { IsAtHome events.now i }
        requires homes { AreHomes events.now i self.old }
        ensures { OnOk result (AreHomes events.now (i + 1) self.new) }
    {
        let (seat, place) = at(events, i);
        match self.get(seat) {
            Some(_) => Ok(()),
            None => {
                self.known.insert(seat, place)?;
                Ok(())
            }
        }
    }
}

/// The first event that is of a seat which has one in another file before it.
pub(crate) fn first_apart(alloc: Global, events: &[Stamped]) -> Result<Option<Apart>, NoMemory>
    ensures { IfOk result (λ found.
        MatchOption found (EachSeatInOneFile events.now) (λ apart.
        HasSeatOfAnother events.now apart.place apart.other)) }
{
    let mut homes = Homes::new(alloc);
    for i in 0..events.len() {
        if let Some(other) = homes.elsewhere(events, i) {
            let (_, place) = at(events, i);
            return Ok(Some(Apart { place, other }));
        }
        homes.add(events, i)?;
    }
    Ok(None)
}
