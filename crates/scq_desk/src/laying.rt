//! What work takes room for, and how it is laid out for the workers.
ghost use Rattle.std.specs.Prelude.{◌≡◌, ℕ, ◌<◌, ◌≤◌, [], length, slice_index_or, vec_len};
ghost use Rattle.std.specs.Prelude.{vec_capacity, IfOk};
ghost use Rattle.std.specs.List.{All};
ghost use Rattle.scq_queue.specs.Exports.{first_passes};
ghost use Rattle.scq_files.specs.Exports.{AreDealt, IsNew};
ghost use Rattle.scq_desk.specs.Rooms.{IsLaid, IsRoomFor};
ghost use Rattle.scq_desk.specs.Seats.{IsToBegin};

use crate::clearing::{LeftBehind, make_left};
use crate::making::make_desks;
use crate::seat::{Seat, Sits};
use scq_block::Frame;
use scq_files::{Desk, OwnFile, deal, make_lists};
use scq_outside::Source;
use scq_queue::{Pass, Queue};
use scq_word::NoMemory;
use std::alloc::Global;
use std::snapshot::Snapshot;

/// What the work needs room for, beside its queue: the lists of each worker's files, the desks, and
/// what the workers leave behind.
pub struct Room<L, W, S: Source> {
    pub files: Vec<Vec<OwnFile<S>>>,
    pub desks: Vec<Desk<Seat<W, Frame>, S>>,
    pub left: LeftBehind<L>,
}

impl<L: Drop, W, S: Source> Room<L, W, S> {
    ghost use Rattle.std.specs.Prelude.{◌≡◌, []};

    /// Lets go of the lists and desks, of which there are none yet.
    pub fn destroy_empty(self)
        requires { (self.desks.items ≡ []) × (self.left.held.items ≡ []) }
    {
        let Room {
            files: _,
            desks,
            left,
        } = self;
        desks.destroy_empty();
        left.destroy_empty();
    }
}

/// Room for so many workers, each of which may have so many files.
pub fn make_room<L: Drop, W, S: Source>(
    alloc: Global,
    workers: u32,
    files: usize,
) -> Result<Room<L, W, S>, NoMemory>
    ensures { IfOk result (IsRoomFor workers files) }
{
    let lists = make_lists(alloc, workers, files)?;
    let left = make_left(alloc, workers as usize)?;
    let Ok(desks) = Vec::with_capacity(alloc, workers as usize) else {
        left.destroy_empty();
        return Err(NoMemory);
    };
    Ok(Room {
        files: lists,
        desks,
        left,
    })
}

/// What waits on the work of all workers: what the sources were, their list, now empty, how many
/// there are, and room for what the workers leave behind.
pub struct LaidOut<L, S: Source> {
    pub was: Snapshot<Vec<S>>,
    pub sources: Vec<S>,
    pub count: usize,
    pub left: LeftBehind<L>,
}

/// Makes the desks of the workers, and deals the files to them.
pub fn lay_out<L: Drop, W: Sits<Pass<Frame>, L>, S: Source>(
    alloc: Global,
    workers: u32,
    queue: &Queue<Frame>,
    passes: Vec<Pass<Frame>>,
    sources: Vec<S>,
    room: Room<L, W, S>,
) -> (LaidOut<L, S>, Vec<Desk<Seat<W, Frame>, S>>)
    requires few { vec_len sources ≤ 64 }
    requires some { 0 < workers }
    requires seats { queue.now.setup.seats ≡ workers }
    requires passes { passes.items ≡ first_passes queue.now queue.now.setup.seats }
    requires room { IsRoomFor workers (vec_len sources) room }
    ensures laid { (result.0.was.value ≡ sources) × IsLaid workers result.0 }
    ensures count { length result.1.items ≡ workers }
    ensures fresh { All (λ d. IsToBegin W.pass_of W.has_none queue.now d.worker) result.1.items }
    ensures unread { All (λ d. All IsNew d.files.items) result.1.items }
    ensures dealt { AreDealt 1 result.0.was.value.items result.1.items }
    ensures numbers { (w : ℕ) (d : _) → w < length result.1.items
        → (W.pass_of (slice_index_or result.1.items w d).worker.worker).number ≡ w }
{
    let Room {
        files,
        mut desks,
        left,
    } = room;
    let was = Snapshot::of(&sources);
    let count = sources.len();
    let mut sources = sources;
    make_desks(alloc, queue, passes, files, count, &mut desks);
    deal(&was, &mut sources, desks.as_mut_slice());
    let laid = LaidOut {
        was,
        sources,
        count,
        left,
    };
    (laid, desks)
}
