//! The parkers of a crew, and the stands of its workers.
ghost use Rattle.std.specs.Prelude.{◌≡◌, ◌+◌, ◌-◌, ◌<◌, ◌≤◌, [], map, All, IfOk, vec_len};
ghost use Rattle.std.specs.Prelude.{vec_capacity};
ghost use Rattle.scq_park.specs.Exports.{deeds, first_posts, parkers_of, first_link};
ghost use Rattle.scq_park.specs.Exports.{with_part_less, cut_below};

use crate::passes::WakePass;
use crate::stand::Stand;
use crate::waker::{Sleeper, Waker, new_pair};
use scq_word::NoMemory;
use std::alloc::Global;

/// So many parkers: what each worker is woken by, and what it rests on.
pub fn pairs(alloc: Global, count: usize) -> Result<(Vec<Waker>, Vec<Sleeper>), NoMemory>
    ensures count { IfOk result (λ made. vec_len made.0 ≡ count) }
    ensures wakers { IfOk result (λ made. All (λ w. w.deeds ≡ deeds 8191 0 0) made.0.items) }
    ensures sleepers { IfOk result (λ made. made.1.items ≡ map first_link made.0.items) }
{
    let mut wakers = Vec::with_capacity(alloc, count)?;
    let mut sleepers = Vec::with_capacity(alloc, count)?;
    for _ in 0..count {
        let (waker, sleeper) = new_pair(alloc)?;
        wakers.push_reserved(waker);
        sleepers.push_reserved(sleeper);
    }
    Ok((wakers, sleepers))
}

/// A pass to each parker.
fn row(alloc: Global, wakers: &mut Vec<Waker>) -> Result<Vec<WakePass>, NoMemory>
    requires parts { All (λ w. 1 < w.deeds.parts) wakers.old.items }
    ensures wakers { IfOk result (λ _. wakers.new.items ≡ map with_part_less wakers.old.items) }
    ensures row { IfOk result (λ links. links.items ≡ map first_link wakers.old.items) }
{
    let mut links = Vec::with_capacity(alloc, wakers.len())?;
    for worker in 0..wakers.len() {
        links.push_reserved(wakers[worker].cut());
    }
    Ok(links)
}

/// The stands of all workers, in order.
pub fn stands_of(
    alloc: Global,
    wakers: &mut Vec<Waker>,
    mut sleepers: Vec<Sleeper>,
) -> Result<Vec<Stand>, NoMemory>
    requires few { vec_len wakers.old ≤ 4096 }
    requires wakers { All (λ w. w.deeds ≡ deeds 8191 0 0) wakers.old.items }
    requires sleepers { sleepers.items ≡ map first_link wakers.old.items }
    ensures wakers { IfOk result (λ _.
        All (λ w. w.deeds ≡ deeds (8191 - vec_len wakers.old) 0 0) wakers.new.items) }
    ensures parkers { IfOk result (λ _. parkers_of wakers.new.items ≡ parkers_of wakers.old.items) }
    ensures stands { IfOk result (λ stands.
        stands.items ≡ first_posts (parkers_of wakers.old.items) (vec_len wakers.old)) }
{
    let mut stands = Vec::with_capacity(alloc, sleepers.len())?;
    sleepers.reverse();
    while let Some(sleeper) = sleepers.pop() {
        let worker = stands.len() as u32;
        let links = row(alloc, wakers)?;
        stands.push_reserved(Stand {
            worker,
            sleeper,
            links,
        });
    }
    Ok(stands)
}
