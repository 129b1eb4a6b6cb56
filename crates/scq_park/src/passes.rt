//! The passes of a parker, with the counts that stand beside them at run time.
ghost use Rattle.std.specs.Prelude.{◌≡◌, ◌+◌, ◌-◌, ◌<◌, ◌≤◌, ◌^◌, min};
ghost use Rattle.std.specs.Arc.{arc_value};
ghost use Rattle.scq_park.specs.Rule.{deeds, once_woken, once_rested, one_part_less, added};
ghost use Rattle.scq_park.specs.Crews.{counted};
ghost use Rattle.scq_park.specs.Kept.{parker_deeds, one_rested};

use crate::rested::Rested;
use crate::rule::{Joins, Leaves, Parker, Rests, Settles, Shares, Unparker, View, Wakes};
use crossbeam_utils::sync::parker::Pass;
use std::marker::Model;
use std::sync::Wait;

/// A pass by which a worker is woken. `wakes` is how often it was.
#[derive(Drop)]
pub struct WakePass {
    pub pass: Pass<View>,
    pub wakes: u64,
}

impl Model for WakePass {
    ghost use Rattle.std.specs.Prelude.{◌≡◌};
    ghost use Rattle.scq_park.specs.Crews.{counted};
    ghost use Rattle.scq_park.specs.Kept.{ParkerDeeds, parker_deeds};

    ghost Value = { ParkerDeeds };

    ghost view = { λ p. parker_deeds p.pass.table_id p.pass.me.0 };

    ghost invariant = { λ p. p.wakes ≡ counted p.pass.me.0.woke };
}

/// A pass by which a worker rests. `rests` is how often it did.
#[derive(Drop)]
pub struct RestPass {
    pub pass: Pass<View>,
    pub rests: u64,
}

impl Model for RestPass {
    ghost use Rattle.std.specs.Prelude.{◌≡◌};
    ghost use Rattle.scq_park.specs.Crews.{counted};
    ghost use Rattle.scq_park.specs.Kept.{ParkerDeeds, parker_deeds};

    ghost Value = { ParkerDeeds };

    ghost view = { λ p. parker_deeds p.pass.table_id p.pass.me.0 };

    ghost invariant = { λ p. p.rests ≡ counted p.pass.me.0.rested };
}

/// One more, but for the last value, which stays.
fn count(number: &mut u64)
    ensures { number.new ≡ min (number.old + 1) (2 ^ 64 - 1) }
{
    *number = number.saturating_add(1);
}

/// One part of what a pass stands for.
pub fn share(unparker: &Unparker, pass: &mut Pass<View>) -> Pass<View>
    requires own { pass.old.table_id ≡ (arc_value unparker.now.state).shared.table_id }
    requires parts { 1 < pass.old.me.0.parts }
    ensures own { (pass.new.table_id ≡ pass.old.table_id) × (result.table_id ≡ pass.old.table_id) }
    ensures left { pass.new.me.0 ≡ one_part_less pass.old.me.0 }
    ensures shared { result.me.0 ≡ deeds 1 0 0 }
{
    unparker.split_pass::<Shares>(pass)
}

/// All that another pass stands for goes to a pass. The other made calls, so what it stands for is
/// cut off first.
fn take_in(unparker: &Unparker, pass: &mut Pass<View>, mut other: Pass<View>)
    requires own { pass.old.table_id ≡ (arc_value unparker.now.state).shared.table_id }
    requires other { other.table_id ≡ pass.old.table_id }
    requires parts { 0 < pass.old.me.0.parts }
    ensures own { pass.new.table_id ≡ pass.old.table_id }
    ensures joined { pass.new.me.0 ≡ added pass.old.me.0 other.me.0 }
{
    let whole = unparker.split_pass::<Leaves>(&mut other);
    unparker.join_pass::<Joins>(pass, whole);
}

impl WakePass {
    /// Sets the token.
    pub fn wake(&mut self, unparker: &Unparker)
        requires own { self.old.parker ≡ (arc_value unparker.now.state).shared.table_id }
        requires parts { 0 < self.old.deeds.parts }
        ensures { self.new ≡ parker_deeds self.old.parker (once_woken self.old.deeds) }
    {
        unparker.unpark_as::<Wakes>(&mut self.pass);
        count(&mut self.wakes);
    }

    /// A pass that has one part of this.
    pub fn cut(&mut self, unparker: &Unparker) -> WakePass
        requires own { self.old.parker ≡ (arc_value unparker.now.state).shared.table_id }
        requires parts { 1 < self.old.deeds.parts }
        ensures left { self.new ≡ parker_deeds self.old.parker (one_part_less self.old.deeds) }
        ensures cut { result ≡ parker_deeds self.old.parker (deeds 1 0 0) }
    {
        WakePass {
            pass: share(unparker, &mut self.pass),
            wakes: 0,
        }
    }

    /// All that another did is added.
    pub fn take(&mut self, unparker: &Unparker, other: WakePass)
        requires own { self.old.parker ≡ (arc_value unparker.now.state).shared.table_id }
        requires other { other.parker ≡ self.old.parker }
        requires parts { 0 < self.old.deeds.parts }
        ensures { self.new ≡ parker_deeds self.old.parker (added self.old.deeds other.deeds) }
    {
        let WakePass { pass, wakes } = other;
        take_in(unparker, &mut self.pass, pass);
        self.wakes = self.wakes.saturating_add(wakes);
    }

    /// With all wakes and all rests of a parker: how many they are. One wake more, which nobody
    /// counts, shows that the rests are at most the wakes.
    pub fn end(self, unparker: &Unparker, own: RestPass) -> Rested
        requires own { self.parker ≡ (arc_value unparker.now.state).shared.table_id }
        requires same { own.parker ≡ self.parker }
        requires all { self.deeds.parts ≡ 8191 }
        requires one { own.deeds ≡ one_rested own.deeds.rested }
        ensures counts { (result.rests ≡ counted own.deeds.rested)
            × (result.wakes ≡ counted self.deeds.woke) }
        ensures woken { result.rests ≤ result.wakes }
    {
        let WakePass { mut pass, wakes } = self;
        let RestPass { pass: other, rests } = own;
        take_in(unparker, &mut pass, other);
        unparker.unpark_as::<Settles>(&mut pass);
        Rested::new(rests, wakes)
    }
}

impl RestPass {
    /// Waits until the token is set, and takes it.
    pub fn rest<R: Wait>(&mut self, rt: &R, parker: &Parker)
        requires own { self.old.parker ≡ (arc_value parker.now.unparker.state).shared.table_id }
        requires parts { 0 < self.old.deeds.parts }
        ensures { self.new ≡ parker_deeds self.old.parker (once_rested self.old.deeds) }
    {
        parker.park_as::<Rests, R>(rt, &mut self.pass);
        count(&mut self.rests);
    }
}
