ghost use Rattle.std.specs.Prelude.{◌≡◌, ℕ, ◌<◌, ◌≤◌, ◌++◌, List, [], Option, Ok, length, take};
ghost use Rattle.std.specs.Prelude.{IfOk, OnOk, OnErr, IsErr, IfSome};
ghost use Rattle.std.specs.Option.{option_map};
ghost use Rattle.scq_outside.specs.Counts.{RoseWhere};
ghost use Rattle.scq_outside.specs.declared.cause.Cause.{Cause as TheCause};

use crate::Cause;
use thiserror::Error;

/// Reading, writing or opening failed. It comes only where the count of faults of the object rose.
#[derive(Clone, Copy, Debug, PartialEq, Eq, Error)]
#[error("reading, writing or opening failed")]
pub struct Failed;

/// What bytes are read from, piece by piece.
pub trait Source: Send + Drop {
    /// How often a read has failed. The count stands still at the last value of a u64.
    ghost faults: { Self → ℕ };

    /// How many reads have answered the end. The count stands still at the last value of a u64.
    ghost ends: { Self → ℕ };

    /// The bytes that are left, where they are visible.
    ghost left: { Self → Option (List ℕ) };

    /// What the last read that failed failed by, where that is known.
    ghost cause: { Self → Option TheCause };

    fn cause(&self) -> Option<Cause>
        ensures { result ≡ cause self.now };

    /// Reads at most as many bytes as `into` has, to its front, and answers how many. Of no bytes
    /// the answer means that the end is reached.
    fn read(&mut self, into: &mut [u8]) -> Result<usize, Failed>
        requires { 0 < length into.old }
        ensures within { IfOk result (λ k. k ≤ length into.new) }
        ensures moved { IfOk result (λ k.
            left self.old ≡ option_map (λ rest. take k into.new ++ rest) (left self.new)) }
        ensures end { IfOk result (λ k. k ≡ 0 → IfSome (left self.old) (λ bytes. bytes ≡ [])) }

        // An end that is answered is counted, and nothing else is: so that a caller can say that it
        // read no source again behind its end.
        ensures ended { RoseWhere (result ≡ Ok 0) (ends self.old) (ends self.new) }

        // What is known of a fault stays known.
        ensures told { OnOk result (cause self.new ≡ cause self.old) }

        // After a fault the source has what it had. Among faults this count counts each, and an
        // answer other than a fault it doesn't count.
        ensures unmoved { OnErr result (left self.new ≡ left self.old) }
        ensures counted { RoseWhere (IsErr result) (faults self.old) (faults self.new)
            × (faults self.old ≤ faults self.new) };
}
