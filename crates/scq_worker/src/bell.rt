//! Whom a worker wakes, and when.
ghost use Rattle.std.specs.Prelude.{◌≡◌, ℕ, ◌<◌, [], length, IsSome};
ghost use Rattle.scq_park.specs.Exports.{Post, post};
ghost use Rattle.scq_worker.specs.Bells.{but_wakes, next_of, woken_once_more, others_more};
ghost use Rattle.scq_worker.specs.Bells.{HasJustSent};

use scq_park::{Crew, Stand};
use scq_queue::Pass;
use scq_word::Buffer;

/// What a worker does for those who may rest. `T` is what it wakes them by, of which it has one of
/// its own. Clauses say whom it wakes, and not that a wake comes.
pub trait Bell<T> {
    /// What contracts see of it: whose it is, and how often each worker was woken by it.
    ghost seen: { T → Post };

    /// Whether one that is seen as this, whomever it woke, lets its worker wake each of so many.
    ghost fits: { Self → Post → ℕ → Type 0 };

    /// Its worker, one of so many, has sent a part, by this pass: it wakes the next one.
    fn after_send<B: Buffer>(&self, stand: &mut T, pass: &Pass<B>, workers: u32)
        requires fits { fits self.now (but_wakes (seen stand.old)) workers }
        requires sent { HasJustSent pass.now }
        ensures kept { but_wakes (seen stand.new) ≡ but_wakes (seen stand.old) }
        ensures rung { (seen stand.new).wakes
            ≡ woken_once_more (next_of (seen stand.old).worker workers) (seen stand.old).wakes };

    /// Its worker's pass has retired, and its worker is done: it wakes all others. Woken before,
    /// they would find it awake, and rest again.
    fn after_retire<B: Buffer>(&self, stand: &mut T, pass: &Pass<B>, workers: u32)
        requires fits { fits self.now (but_wakes (seen stand.old)) workers }
        requires retired { IsSome pass.now.retired }
        ensures kept { but_wakes (seen stand.new) ≡ but_wakes (seen stand.old) }
        ensures rung { (seen stand.new).wakes
            ≡ others_more (seen stand.old).worker workers (seen stand.old).wakes };
}

/// Nobody rests.
#[derive(Clone, Copy)]
pub struct NoBell;

impl Bell<NoBell> for NoBell {
    ghost seen = { λ _. post [] 0 [] 0 };

    ghost fits = { λ _ _ _. Unit {0} };

    fn after_send<B: Buffer>(&self, _stand: &mut NoBell, _pass: &Pass<B>, _workers: u32) {}

    fn after_retire<B: Buffer>(&self, _stand: &mut NoBell, _pass: &Pass<B>, _workers: u32) {}
}

/// After a send it wakes the next worker, and where it is done once it retired all others.
impl Bell<Stand> for Crew {
    ghost seen = { λ stand. stand };

    ghost fits = { λ crew stand workers.
        (stand.crew ≡ crew) × (length crew ≡ workers) × (0 < workers) };

    fn after_send<B: Buffer>(&self, stand: &mut Stand, _pass: &Pass<B>, workers: u32) {
        wake_next(self, stand, workers);
    }

    fn after_retire<B: Buffer>(&self, stand: &mut Stand, _pass: &Pass<B>, workers: u32) {
        wake_others(self, stand, workers);
    }
}

/// Wakes the worker behind the stand's. Behind the last is the first.
fn wake_next(crew: &Crew, stand: &mut Stand, workers: u32)
    requires stand { stand.old.crew ≡ crew.now }
    requires workers { length crew.now ≡ workers }
    requires some { 0 < workers }
    ensures kept { but_wakes stand.new ≡ but_wakes stand.old }
    ensures rung { stand.new.wakes
        ≡ woken_once_more (next_of stand.old.worker workers) stand.old.wakes }
{
    let next = stand.worker().saturating_add(1);
    if next < workers {
        crew.wake(stand, next);
    } else {
        crew.wake(stand, 0);
    }
}

/// Wakes each worker but the stand's.
pub fn wake_others(crew: &Crew, stand: &mut Stand, workers: u32)
    requires stand { stand.old.crew ≡ crew.now }
    requires workers { length crew.now ≡ workers }
    ensures kept { but_wakes stand.new ≡ but_wakes stand.old }
    ensures rung { stand.new.wakes ≡ others_more stand.old.worker workers stand.old.wakes }
{
    let number = stand.worker();
    'workers: for worker in 0..workers {
        if worker != number {
            crew.wake(stand, worker);
        }
    }
}
