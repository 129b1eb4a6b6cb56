//! A crew, and what its workers do with it.
ghost use Rattle.std.specs.Prelude.{◌≡◌, ◌+◌, ◌<◌, ◌≤◌, length, map, All, IfOk};
ghost use Rattle.scq_park.specs.Crews.{Post, first_posts, with_wake, with_rest, AreAll, no_wakes};
ghost use Rattle.scq_park.specs.Crews.{woken, ended};

use crate::closing::{all_ended, gather};
use crate::making::{pairs, stands_of};
use crate::passes::RestPass;
use crate::rested::Rested;
use crate::stand::Stand;
use crate::waker::Waker;
use scq_word::NoMemory;
use std::alloc::Global;
use std::marker::Model;
use std::sync::Wait;

/// The parkers of workers, which threads share. Contracts see it as its parkers, in order of
/// worker.
///
/// `owns` and `rested` are empty lists, with room for what `close` needs.
#[derive(Drop)]
pub struct Crew {
    wakers: Vec<Waker>,
    owns: Vec<RestPass>,
    rested: Vec<Rested>,
}

impl Model for Crew {
    ghost use Rattle.std.specs.Prelude.{List, map, vec_capacity};
    ghost use Rattle.atomic_table.specs.Seated.{TableId};
    ghost use Rattle.scq_park.specs.Kept.{parkers_of, IsCrew};

    ghost Value = { List TableId };

    ghost view = { λ c. parkers_of c.wakers.items };

    ghost invariant = { λ c. IsCrew c.wakers.items c.owns.items (vec_capacity c.owns) c.rested.items
        (vec_capacity c.rested) };
}

impl Crew {
    /// A crew of so many workers with their stands, in order of worker. No token is set.
    pub fn make(alloc: Global, workers: u32) -> Result<(Crew, Vec<Stand>), NoMemory>
        requires some { 1 ≤ workers }
        requires most { workers ≤ 4096 }
        ensures crew { IfOk result (λ made. length made.0 ≡ workers) }
        ensures stands { IfOk result (λ made. made.1.items ≡ first_posts made.0 workers) }
    {
        let count = workers as usize;
        let owns = Vec::with_capacity(alloc, count)?;
        let rested = Vec::with_capacity(alloc, count)?;
        let (mut wakers, sleepers) = pairs(alloc, count)?;
        let stands = stands_of(alloc, &mut wakers, sleepers)?;
        let crew = Crew {
            wakers,
            owns,
            rested,
        };
        Ok((crew, stands))
    }

    /// Sets the token of a worker. Where the worker rests, or rests next, it goes on.
    pub fn wake(&self, stand: &mut Stand, worker: u32)
        requires stand { stand.old.crew ≡ self.now }
        requires worker { worker < length self.now }
        ensures { stand.new ≡ with_wake worker stand.old }
    {
        let index = worker as usize;
        self.wakers[index].wake(&mut stand.links[index]);
    }

    /// Rests until the stand's worker is woken, unless it was since it last rested. When it
    /// returns, it has taken the token of its worker, once.
    pub fn rest<R: Wait>(&self, rt: &R, stand: &mut Stand)
        requires stand { stand.old.crew ≡ self.now }
        ensures { stand.new ≡ with_rest stand.old }
    {
        stand.sleeper.rest(rt);
    }

    /// Closes a crew whose stands all come back. They have to stand in the order of their workers,
    /// as `make` gave them, whatever order they came back in. For each worker, in that order, it
    /// says how often it rested, and how often all stands woke it, which is no less. Takes no
    /// memory.
    pub fn close(self, stands: Vec<Stand>) -> Vec<Rested>
        requires stands { AreAll self stands.items }
        ensures counts { result.items ≡ ended stands.items (woken (no_wakes self) stands.items) }
        ensures woken { All (λ r. r.rests ≤ r.wakes) result.items }
    {
        let Crew {
            mut wakers,
            mut owns,
            rested,
        } = self;
        gather(stands, &mut wakers, &mut owns);
        all_ended(wakers, owns, rested)
    }
}
