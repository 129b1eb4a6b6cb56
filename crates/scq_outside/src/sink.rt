ghost use Rattle.std.specs.Prelude.{◌≡◌, ℕ, ◌<◌, ◌≤◌, ◌++◌, List, Option, length, take, IfOk};
ghost use Rattle.std.specs.Prelude.{OnOk, OnErr, IsErr};
ghost use Rattle.std.specs.Option.{option_map};
ghost use Rattle.scq_outside.specs.Counts.{RoseWhere};
ghost use Rattle.scq_outside.specs.declared.cause.Cause.{Cause as TheCause};

use crate::{Cause, Failed};

/// What bytes are written to, piece by piece.
pub trait Sink {
    /// How often a write has failed. The count stands still at the last value of a u64.
    ghost faults: { Self → ℕ };

    /// The bytes that were written, where they are visible.
    ghost written: { Self → Option (List ℕ) };

    /// What the last write that failed failed by, where that is known.
    ghost cause: { Self → Option TheCause };

    fn cause(&self) -> Option<Cause>
        ensures { result ≡ cause self.now };

    /// Writes some of the piece, from its front, and answers how many bytes: at least 1. A device
    /// that takes nothing of the piece has failed.
    fn write(&mut self, piece: &[u8]) -> Result<usize, Failed>
        requires { 0 < length piece.now }
        ensures some { IfOk result (λ k. 0 < k) }
        ensures within { IfOk result (λ k. k ≤ length piece.now) }
        ensures appended { IfOk result (λ k.
            written self.new ≡ option_map (λ bytes. bytes ++ take k piece.now) (written self.old)) }

        // What is known of a fault stays known.
        ensures told { OnOk result (cause self.new ≡ cause self.old) }

        // After a fault the sink has what it had. Faults are counted, and nothing else is.
        ensures unwritten { OnErr result (written self.new ≡ written self.old) }
        ensures counted { RoseWhere (IsErr result) (faults self.old) (faults self.new)
            × (faults self.old ≤ faults self.new) };
}
