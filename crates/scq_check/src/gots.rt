//! The first Got that names each put.

ghost use Rattle.std.specs.Prelude.{◌≡◌, ◌+◌, ◌<◌, ℕ, None, Some, length, IfOk, OnOk, MatchOption};
ghost use Rattle.std.specs.Prelude.{if◌then◌else◌, is_some};
ghost use Rattle.scq_hist.specs.Exports.{IsGot, IsFirstNamed};
ghost use Rattle.scq_hist.specs.declared.events.PutName.{PutName};
ghost use Rattle.scq_check.specs.Gots.{found_in, is_same_put, IsGots};

use crate::by_name::ByName;
use scq_hist::{Event, PutName, got_name};
use scq_word::NoMemory;
use std::alloc::Global;
use std::collections::BTreeMap;

/// The position of the first End with Got that names each put, among the events so far.
#[derive(Drop)]
pub(crate) struct Gots {
    of_tokens: BTreeMap<u32, usize>,
    of_seats: ByName,
}

impl Gots {
    pub(crate) fn new(alloc: Global, events: &[Event]) -> Result<Gots, NoMemory>
        ensures { IfOk result (IsGots events.now (length events.now)) }
    {
        let mut gots = Gots {
            of_tokens: BTreeMap::new(alloc),
            of_seats: ByName::new(alloc),
        };
        for e in 0..events.len() {
            gots.add(events, e)?;
        }
        Ok(gots)
    }

    // From the events before position e to those up to it.
    fn add(&mut self, events: &[Event], e: usize) -> Result<(), NoMemory>
        requires within { e < length events.now }
        requires before { IsGots events.now e self.old }
        ensures { OnOk result (IsGots events.now (e + 1) self.new) }
    {
        if let Some(name) = got_name(&events[e]) {
            if !self.has(name) {
                self.set(name, e)?;
            }
        }
        Ok(())
    }

    // The position that is kept of this name.
    fn get(&self, name: PutName) -> Option<usize>
        ensures { result ≡ found_in self.now name }
    {
        match name {
            PutName::Opening { number } => self.of_tokens.get(&number).copied(),
            PutName::Of { seat, number } => self.of_seats.get(seat, number),
        }
    }

    // Whether a position is kept of this name.
    fn has(&self, name: PutName) -> bool
        ensures { result ≡ is_some (found_in self.now name) }
    {
        self.get(name).is_some()
    }

    #[tactic(auto, using(crate::proofs::Orders::same_number))]
    fn set(&mut self, name: PutName, e: usize) -> Result<(), NoMemory>
        ensures { OnOk result ((other : PutName)
            → found_in self.new other
            ≡ (if is_same_put name other then Some e else found_in self.old other)) }
    {
        match name {
            PutName::Opening { number } => {
                self.of_tokens.insert(number, e)?;
            }
            PutName::Of { seat, number } => self.of_seats.set(seat, number, e)?,
        }
        Ok(())
    }

    /// The position of the first End with Got that names this put.
    pub(crate) fn first(&self, events: &[Event], name: PutName) -> Option<usize>
        requires { IsGots events.now (length events.now) self.now }
        ensures { MatchOption result (¬ (IsGot events.now name)) (IsFirstNamed events.now name) }
    {
        self.get(name)
    }
}
