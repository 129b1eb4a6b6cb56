//! Positions by the names of seats' puts.

ghost use Rattle.std.specs.Prelude.{◌≡◌, ℕ, None, Some, OnOk, if◌then◌else◌};
ghost use Rattle.scq_check.specs.ByName.{same_name, place_in};

use scq_word::NoMemory;
use std::alloc::Global;
use std::collections::BTreeMap;

/// At most one position for each name: a seat, and the number of one of its puts.
#[derive(Drop)]
pub(crate) struct ByName {
    places: BTreeMap<(u32, u64), usize>,
}

impl ByName {
    pub(crate) fn new(alloc: Global) -> ByName
        ensures { (seat number : ℕ) → place_in result seat number ≡ None }
    {
        ByName {
            places: BTreeMap::new(alloc),
        }
    }

    pub(crate) fn get(&self, seat: u32, number: u64) -> Option<usize>
        ensures { result ≡ place_in self.now seat number }
    {
        self.places.get(&(seat, number)).copied()
    }

    /// Sets the position of a name.
    pub(crate) fn set(&mut self, seat: u32, number: u64, place: usize) -> Result<(), NoMemory>
        ensures { OnOk result ((k n : ℕ)
            → place_in self.new k n
            ≡ (if same_name (seat, number) (k, n) then Some place else place_in self.old k n)) }
    {
        self.places.insert((seat, number), place)?;
        Ok(())
    }
}
