//! The heads of the Full replies of a pass, for contracts alone.
ghost use Rattle.std.specs.Prelude.{◌≡◌, ◌∷◌, [], ◌++◌};
ghost use Rattle.scq_queue.specs.Kept.{heads_of};

use std::mem;
use std::snapshot::Snapshot;

/// Full was never answered, or once more after these times. A pass keeps a snapshot of it, which
/// has no bytes when the program runs.
#[derive(Drop)]
pub enum Fulls {
    Never,
    After { before: Snapshot<Fulls>, head: u64 },
}

/// Full was never answered.
pub fn never() -> Snapshot<Fulls>
    ensures { heads_of result.value ≡ [] }
{
    Snapshot::of(&Fulls::Never)
}

/// Full was answered once more, with this head.
pub fn once_more(fulls: &mut Snapshot<Fulls>, head: u64)
    ensures { heads_of fulls.new.value ≡ heads_of fulls.old.value ++ head ∷ [] }
{
    let before = mem::replace(fulls, never());
    *fulls = Snapshot::of(&Fulls::After { before, head });
}
