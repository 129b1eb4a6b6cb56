//! The events of all files in the order of their stamps.

ghost use Rattle.std.specs.Prelude.{◌≡◌, ◌<◌, ◌≤◌, ◌↔◌, IsTrue, map, length, IfOk, OnOk};
ghost use Rattle.std.specs.Prelude.{MatchOption, IsErrOf};
ghost use Rattle.std.specs.List.Sorted.{IsPermutation, IsNonDecreasingBy};
ghost use Rattle.scq_judge.specs.Merged.{RiseBelow, HasEqual, StampIsAbove, IsPlaceAt, IsMergeOf};
ghost use Rattle.scq_judge.specs.Merged.{HasStampOfAnother};

use crate::recorded::{Place, Recorded, Stamped};
use scq_hist::Event;
use scq_word::{Bytes, NoMemory};
use std::alloc::Global;

/// The opening tokens, and of all files the events in the order of their stamps with their places.
#[derive(Drop)]
pub(crate) struct Merged {
    pub opening: Vec<Bytes>,
    pub events: Vec<Event>,
    pub places: Vec<Place>,
}

/// Why recordings were not merged.
#[derive(Clone, Copy)]
pub(crate) enum MergeFault {
    /// The event of this place has the stamp of another, at the other place.
    SameStamp { place: Place, other: Place },
    NoMemory,
}

/// Merges recordings.
pub(crate) fn merge(alloc: Global, recorded: Recorded) -> Result<Merged, MergeFault>
    ensures opening { IfOk result (λ merged. merged.opening.items ≡ recorded.opening) }
    ensures merged { IfOk result (λ merged.
        IsMergeOf recorded.events merged.events.items merged.places.items) }
    ensures same_stamp { (place other : Place) → IsErrOf result (MergeFault.SameStamp place other)
        → HasStampOfAnother recorded.events place other }
{
    let (opening, mut stamped) = recorded.into_parts();
    if sort(&mut stamped).is_err() {
        return Err(MergeFault::NoMemory);
    }
    if let Some((place, other)) = first_equal(&stamped) {
        return Err(MergeFault::SameStamp { place, other });
    }
    match part(alloc, stamped) {
        Ok((events, places)) => Ok(Merged {
            opening,
            events,
            places,
        }),
        Err(NoMemory) => Err(MergeFault::NoMemory),
    }
}

fn sort(stamped: &mut Vec<Stamped>) -> Result<(), NoMemory>
    ensures same { IsPermutation stamped.old.items stamped.new.items }
    ensures sorted { OnOk result (IsNonDecreasingBy (λ s. s.stamp) stamped.new.items) }
{
    stamped.sort_by_key(|event| event.stamp)?;
    Ok(())
}

/// The places of the first event whose stamp is that of the one before it, and of that one.
fn first_equal(stamped: &[Stamped]) -> Option<(Place, Place)>
    requires { IsNonDecreasingBy (λ s. s.stamp) stamped.now }
    ensures { MatchOption result (RiseBelow stamped.now (length stamped.now)) (λ pair.
        HasEqual stamped.now pair.0 pair.1) }
{
    for i in 1..stamped.len() {
        if !is_above(stamped, i) {
            let place = place_at(stamped, i);
            let other = place_at(stamped, i - 1);
            return Some((place, other));
        }
    }
    None
}

// Whether the stamp of the event at this position is above that of the one before it.
fn is_above(stamped: &[Stamped], i: usize) -> bool
    requires later { 1 ≤ i }
    requires within { i < length stamped.now }
    ensures { IsTrue result ↔ StampIsAbove stamped.now i }
{
    stamped[i - 1].stamp < stamped[i].stamp
}

fn place_at(stamped: &[Stamped], i: usize) -> Place
    requires { i < length stamped.now }
    ensures { IsPlaceAt stamped.now i result }
{
    stamped[i].place
}

/// The events and their places, apart.
fn part(alloc: Global, stamped: Vec<Stamped>) -> Result<(Vec<Event>, Vec<Place>), NoMemory>
    ensures events { IfOk result (λ parts. parts.0.items ≡ map (λ s. s.event) stamped.items) }
    ensures places { IfOk result (λ parts. parts.1.items ≡ map (λ s. s.place) stamped.items) }
{
    let mut events = Vec::with_capacity(alloc, stamped.len())?;
    let mut places = Vec::with_capacity(alloc, stamped.len())?;
    let mut rest = stamped.into_iter();
    'parts: while let Some(Stamped { place, event, .. }) = rest.next() {
        events.push(event)?;
        places.push(place)?;
    }
    Ok((events, places))
}
