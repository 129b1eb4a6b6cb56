//! The desks are cleared once the workers have left.
ghost use Rattle.std.specs.Prelude.{◌≡◌, ◌≤◌, [], false, map, flat_map, vec_len, vec_capacity};
ghost use Rattle.std.specs.Prelude.{IfOk};
ghost use Rattle.std.specs.List.{All};
ghost use Rattle.std.specs.Option.{option_to_list};
ghost use Rattle.scq_desk.specs.Rooms.{IsClean};

use crate::seat::{Seat, Sits};
use scq_block::Frame;
use scq_files::Desk;
use scq_outside::Source;
use scq_queue::{Held, Pass};
use scq_word::NoMemory;
use std::alloc::Global;

/// What workers leave behind, in the order of their numbers: their passes, the values that they
/// kept, their lists, and whether any wanted memory.
pub struct LeftBehind<L> {
    pub passes: Vec<Pass<Frame>>,
    pub held: Vec<Held<Frame>>,
    pub lists: Vec<L>,
    pub starved: bool,
}

impl<L: Drop> LeftBehind<L> {
    ghost use Rattle.std.specs.Prelude.{◌≡◌, ◌+◌, ◌<◌, ◌≤◌, ◌++◌, ◌∷◌, [], false, vec_len};
    ghost use Rattle.std.specs.Prelude.{vec_capacity};
    ghost use Rattle.std.specs.Option.{option_to_list};

    /// Lets go of the lists, which hold no value.
    pub fn destroy_empty(self)
        requires { self.held.items ≡ [] }
    {
        let LeftBehind {
            passes: _,
            held,
            lists: _,
            starved: _,
        } = self;
        held.destroy_empty();
    }

    /// Takes in what is on a desk, behind the others.
    fn take_in<W: Sits<Pass<Frame>, L>, S: Source>(&mut self, desk: Desk<Seat<W, Frame>, S>)
        requires passes { vec_len self.old.passes < vec_capacity self.old.passes }
        requires held { vec_len self.old.held < vec_capacity self.old.held }
        requires lists { vec_len self.old.lists < vec_capacity self.old.lists }
        ensures passes { self.new.passes.items
            ≡ self.old.passes.items ++ W.pass_of desk.worker.worker ∷ [] }
        ensures held { self.new.held.items
            ≡ self.old.held.items ++ option_to_list desk.worker.kept }
        ensures lists { self.new.lists.items
            ≡ self.old.lists.items ++ W.list_of desk.worker.worker ∷ [] }
        ensures starved { self.new.starved ≡ false
            → (self.old.starved ≡ false) × (W.starved_of desk.worker.worker ≡ false) }
        ensures passes_len { (vec_len self.new.passes ≡ vec_len self.old.passes + 1)
            × (vec_capacity self.new.passes ≡ vec_capacity self.old.passes) }
        ensures held_len { (vec_len self.new.held ≤ vec_len self.old.held + 1)
            × (vec_capacity self.new.held ≡ vec_capacity self.old.held) }
        ensures lists_len { (vec_len self.new.lists ≡ vec_len self.old.lists + 1)
            × (vec_capacity self.new.lists ≡ vec_capacity self.old.lists) }
    {
        let Desk { worker, files: _ } = desk;
        let Seat { worker, kept } = worker;
        let (pass, list, starved) = worker.come_apart();
        self.passes.push_reserved(pass);
        self.lists.push_reserved(list);
        self.starved = self.starved || starved;
        if let Some(value) = kept {
            self.held.push_reserved(value);
        }
    }
}

/// Room for what so many workers leave behind.
pub(crate) fn make_left<L: Drop>(alloc: Global, workers: usize) -> Result<LeftBehind<L>, NoMemory>
    ensures { IfOk result (IsClean workers) }
{
    let passes = Vec::with_capacity(alloc, workers)?;
    let lists = Vec::with_capacity(alloc, workers)?;
    let held = Vec::with_capacity(alloc, workers)?;
    Ok(LeftBehind {
        passes,
        held,
        lists,
        starved: false,
    })
}

/// Takes the desks apart. What the workers leave behind is put into empty lists with room.
pub(crate) fn clear<L: Drop, W: Sits<Pass<Frame>, L>, S: Source>(
    mut desks: Vec<Desk<Seat<W, Frame>, S>>,
    left: &mut LeftBehind<L>,
)
    requires clean { IsClean (vec_len desks) left.old }
    ensures passes { left.new.passes.items ≡ map (λ d. W.pass_of d.worker.worker) desks.items }
    ensures held { left.new.held.items ≡ flat_map (λ d. option_to_list d.worker.kept) desks.items }
    ensures lists { left.new.lists.items ≡ map (λ d. W.list_of d.worker.worker) desks.items }
    ensures starved { left.new.starved ≡ false
        → All (λ d. W.starved_of d.worker.worker ≡ false) desks.items }
{
    desks.reverse();
    'desks: while let Some(desk) = desks.pop() {
        left.take_in(desk);
    }
    desks.destroy_empty();
}
