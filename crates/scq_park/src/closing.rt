//! The end of a crew: all passes come back to the parkers that they are of.
ghost use Rattle.std.specs.Prelude.{◌≡◌, ◌+◌, ◌<◌, ◌≤◌, [], length, map, All, vec_len};
ghost use Rattle.std.specs.Prelude.{vec_capacity};
ghost use Rattle.scq_park.specs.Exports.{parkers_of, AreFor, with_row, gathered, told};
ghost use Rattle.scq_park.specs.Exports.{told_by_post, EachEnds, rests_between};

use crate::passes::{RestPass, WakePass};
use crate::rested::Rested;
use crate::stand::Stand;
use crate::waker::Waker;

/// The passes of one stand come back, each to its parker.
fn take_row(wakers: &mut Vec<Waker>, mut links: Vec<WakePass>)
    requires links { AreFor links.items wakers.old.items }
    ensures { wakers.new.items ≡ with_row wakers.old.items (map (λ l. l.deeds.woke) links.items) }
{
    while let Some(link) = links.pop() {
        wakers[links.len()].take(link);
    }
}

/// The passes of all stands come back, each to its parker; those by which the workers rested are
/// put into an empty list with room.
pub fn gather(mut stands: Vec<Stand>, wakers: &mut Vec<Waker>, owns: &mut Vec<RestPass>)
    requires crew { All (λ s. s.crew ≡ parkers_of wakers.old.items) stands.items }
    requires parts { All (λ w. 0 < w.deeds.parts) wakers.old.items }
    requires empty { owns.old.items ≡ [] }
    requires room { vec_len stands ≤ vec_capacity owns.old }
    ensures wakers { wakers.new.items ≡ gathered wakers.old.items stands.items }
    ensures owns { map told owns.new.items ≡ map told_by_post stands.items }
    ensures wide { All (λ s. length s.wakes ≡ length s.crew) stands.items }
{
    stands.reverse();
    while let Some(stand) = stands.pop() {
        let Stand {
            worker: _,
            sleeper,
            links,
        } = stand;
        take_row(wakers, links);
        owns.push_reserved(sleeper.into_pass());
    }
}

/// The counts of all parkers, in their order, put into an empty list with room.
pub fn all_ended(
    mut wakers: Vec<Waker>,
    mut owns: Vec<RestPass>,
    mut rested: Vec<Rested>,
) -> Vec<Rested>
    requires ends { EachEnds wakers.items owns.items }
    requires empty { rested.items ≡ [] }
    requires room { vec_len owns ≤ vec_capacity rested }
    ensures counts { result.items ≡ rests_between wakers.items owns.items }
    ensures woken { All (λ r. r.rests ≤ r.wakes) result.items }
{
    wakers.reverse();
    owns.reverse();
    while let Some(own) = owns.pop() {
        let Some(waker) = wakers.pop() else {
            unreachable!()
        };
        rested.push_reserved(waker.end(own));
    }
    rested
}
