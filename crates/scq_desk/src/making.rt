//! Desks are made for workers.
ghost use Rattle.std.specs.Prelude.{◌≡◌, ◌^◌, ◌<◌, ◌≤◌, [], None, length, map, vec_len};
ghost use Rattle.std.specs.Prelude.{vec_capacity};
ghost use Rattle.std.specs.List.{All};
ghost use Rattle.scq_queue.specs.Exports.{first_passes};
ghost use Rattle.scq_desk.specs.Exports.{IsToBegin};

use crate::seat::{Seat, Sits};
use scq_block::Frame;
use scq_files::{Desk, OwnFile};
use scq_outside::Source;
use scq_queue::{Pass, Queue};
use std::alloc::Global;

/// A desk for each of the new passes of a queue, in their order, with one of the lists for files.
/// They are put into an empty list with room.
pub fn make_desks<L, W: Sits<Pass<Frame>, L>, S: Source>(
    alloc: Global,
    queue: &Queue<Frame>,
    mut passes: Vec<Pass<Frame>>,
    mut lists: Vec<Vec<OwnFile<S>>>,
    files: usize,
    desks: &mut Vec<Desk<Seat<W, Frame>, S>>,
)
    requires new { passes.items ≡ first_passes queue.now queue.now.setup.seats }
    requires count { (vec_len lists ≡ queue.now.setup.seats) × (queue.now.setup.seats < 2 ^ 32) }
    requires room { queue.now.setup.seats ≤ vec_capacity desks.old }
    requires none { desks.old.items ≡ [] }
    requires empty { All (λ list.
        (list.items ≡ []) × (vec_len list ≡ 0) × (files ≤ vec_capacity list)) lists.items }
    ensures count { length desks.new.items ≡ queue.now.setup.seats }
    ensures fresh { All (λ d. IsToBegin W.pass_of W.has_none queue.now d.worker) desks.new.items }
    ensures passes { map (λ d. W.pass_of d.worker.worker) desks.new.items
        ≡ first_passes queue.now queue.now.setup.seats }
    ensures empty { All (λ d. (d.files.items ≡ []) × (vec_len d.files ≡ 0)
        × (files ≤ vec_capacity d.files)) desks.new.items }
{
    passes.reverse();
    'passes: while let Some(pass) = passes.pop() {
        let number = desks.len() as u32;
        let Some(own) = lists.pop() else {
            unreachable!();
        };
        let worker = W::begin(alloc, number, pass);
        desks.push_reserved(Desk {
            worker: Seat { worker, kept: None },
            files: own,
        });
    }
}
