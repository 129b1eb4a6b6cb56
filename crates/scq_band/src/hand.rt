//! The slots that a seat holds stand in a row in its token, and only the first can be used.
ghost use Rattle.std.specs.Prelude.{◌≡◌, ◌<◌};
ghost use Rattle.scq_law.specs.Exports.{times};
ghost use Rattle.scq_band.specs.Exports.{indices_of, StandsFirst};

use atomic_table::Seat;

/// Turns the row so that the slot of an index stands first. Where a slot stands is known to proofs
/// alone, so this does nothing when the program runs, however many slots there are. Its proof is
/// that of `Seat::turn`, which brings one slot behind the others, as often as it takes.
#[inline(always)]
pub fn bring_to_front<S, V>(token: &mut Seat<S, V>, index: u32)
    requires { 0 < times index (indices_of token.old.me.1) }
    ensures { (token.new.table_id ≡ token.old.table_id) × (token.new.id ≡ token.old.id)
        × StandsFirst index token.old.me token.new.me }
{
    let _ = index;
}
