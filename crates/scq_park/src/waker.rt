//! A worker's parker as its crew has it, and as its stand has it.
ghost use Rattle.std.specs.Prelude.{◌≡◌, ◌<◌, ◌≤◌, IfOk};
ghost use Rattle.scq_park.specs.Rule.{deeds, once_woken, once_rested, one_part_less, added};
ghost use Rattle.scq_park.specs.Crews.{counted};
ghost use Rattle.scq_park.specs.Kept.{parker_deeds, one_rested};

use crate::passes::{RestPass, WakePass, share};
use crate::rested::Rested;
use crate::rule::{Parker, Unparker};
use scq_word::NoMemory;
use std::alloc::Global;
use std::marker::Model;
use std::sync::Wait;

/// What a worker is woken by, and a pass with what the stands don't have.
#[derive(Drop)]
pub struct Waker {
    unparker: Unparker,
    rest: WakePass,
}

impl Model for Waker {
    ghost use Rattle.std.specs.Prelude.{◌≡◌};
    ghost use Rattle.std.specs.Arc.{arc_value};
    ghost use Rattle.scq_park.specs.Kept.{ParkerDeeds};

    ghost Value = { ParkerDeeds };

    ghost view = { λ w. w.rest };

    ghost invariant = { λ w. w.rest.parker ≡ (arc_value w.unparker.state).shared.table_id };
}

/// What a worker rests on, and its pass there.
#[derive(Drop)]
pub struct Sleeper {
    parker: Parker,
    own: RestPass,
}

impl Model for Sleeper {
    ghost use Rattle.std.specs.Prelude.{◌≡◌};
    ghost use Rattle.std.specs.Arc.{arc_value};
    ghost use Rattle.scq_park.specs.Kept.{ParkerDeeds};

    ghost Value = { ParkerDeeds };

    ghost view = { λ s. s.own };

    ghost invariant = { λ s. s.own.parker ≡ (arc_value s.parker.unparker.state).shared.table_id };
}

/// A new parker: what its worker is woken by and what it rests on.
pub fn new_pair(alloc: Global) -> Result<(Waker, Sleeper), NoMemory>
    ensures waker { IfOk result (λ pair. pair.0.deeds ≡ deeds 8191 0 0) }
    ensures sleeper { IfOk result (λ pair. pair.1 ≡ parker_deeds pair.0.parker (deeds 1 0 0)) }
{
    let (parker, mut pass) = Parker::ruled(alloc)?;
    let unparker = parker.unparker().clone()?;
    let own = share(&unparker, &mut pass);
    let waker = Waker {
        unparker,
        rest: WakePass { pass, wakes: 0 },
    };
    let sleeper = Sleeper {
        parker,
        own: RestPass {
            pass: own,
            rests: 0,
        },
    };
    Ok((waker, sleeper))
}

impl Waker {
    /// Wakes the worker, by a pass to its parker.
    pub fn wake(&self, link: &mut WakePass)
        requires own { link.old.parker ≡ self.now.parker }
        requires parts { 0 < link.old.deeds.parts }
        ensures { link.new ≡ parker_deeds link.old.parker (once_woken link.old.deeds) }
    {
        link.wake(&self.unparker);
    }

    /// A pass to its parker.
    pub fn cut(&mut self) -> WakePass
        requires parts { 1 < self.old.deeds.parts }
        ensures left { self.new ≡ parker_deeds self.old.parker (one_part_less self.old.deeds) }
        ensures cut { result ≡ parker_deeds self.old.parker (deeds 1 0 0) }
    {
        self.rest.cut(&self.unparker)
    }

    /// A pass to its parker comes back.
    pub fn take(&mut self, link: WakePass)
        requires own { link.parker ≡ self.old.parker }
        requires parts { 0 < self.old.deeds.parts }
        ensures { self.new ≡ parker_deeds self.old.parker (added self.old.deeds link.deeds) }
    {
        self.rest.take(&self.unparker, link);
    }

    /// All passes to its parker have come back, and last the one of its worker.
    pub fn end(self, own: RestPass) -> Rested
        requires own { own.parker ≡ self.parker }
        requires all { self.deeds.parts ≡ 8191 }
        requires one { own.deeds ≡ one_rested own.deeds.rested }
        ensures counts { (result.rests ≡ counted own.deeds.rested)
            × (result.wakes ≡ counted self.deeds.woke) }
        ensures woken { result.rests ≤ result.wakes }
    {
        let Waker { unparker, rest } = self;
        rest.end(&unparker, own)
    }
}

impl Sleeper {
    /// Waits until its token is set, and takes it.
    pub fn rest<R: Wait>(&mut self, rt: &R)
        requires parts { 0 < self.old.deeds.parts }
        ensures { self.new ≡ parker_deeds self.old.parker (once_rested self.old.deeds) }
    {
        self.own.rest(rt, &self.parker);
    }

    /// Its pass.
    pub fn into_pass(self) -> RestPass
        ensures { result ≡ self }
    {
        let Sleeper {
            parker: _parker,
            own,
        } = self;
        own
    }
}
