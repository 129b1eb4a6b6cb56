//! Who takes from topics.
ghost use Rattle.std.specs.Prelude.{◌≡◌, ℕ, ◌≤◌, ◌==◌, List, Option, true, false, Some, Ok, IfErr};
ghost use Rattle.std.specs.Prelude.{OnOk};
ghost use Rattle.scq_band.specs.Exports.{opening_of, IsReadingInRun, Identity};
ghost use Rattle.scq_queue.specs.Exports.{HeldStanding, PassStanding, after_look, caller_of};
ghost use Rattle.scq_queue.specs.Exports.{having_seen};
ghost use Rattle.scq_passes.specs.Calls.{HasTakenFollowed, Suits};
ghost use Rattle.scq_passes.specs.Leaving.{HasOnlyCalled, TookNothing};
ghost use Rattle.scq_passes.specs.Records.{AreReturns};
ghost use Rattle.scq_passes.specs.Taking.{HasEmptied, HasTakenFrom};
ghost use Rattle.scq_passes.specs.Waiting.{TookInVain};

use crate::AtLimit;
use scq_word::Buffer;

/// Who takes from the topics of a queue by its pass, and makes something of what it took. It makes
/// its calls with a `C`.
pub trait Taker<C, B: Buffer> {
    /// Its pass.
    ghost pass: { Self → PassStanding B };

    /// The queue of the pass, and how many topics that has beside one.
    ghost queue: { C → Identity B };

    ghost declared: { C → ℕ };

    /// Which puts follow its takes.
    ghost follows: { ℕ → List ℕ → ℕ → List ℕ → Type 0 };

    /// What takes made of it beside its pass.
    ghost made: { C → Self → Self → Type 0 };

    /// What is known of it where it met a ticket past the limit, with the value that came back.
    ghost left: { C → Self → Self → Option (HeldStanding B) → Type 0 };

    /// Takes once from a topic. Whether it got anything.
    fn take_once(&mut self, with: &C, topic: u32) -> Result<bool, AtLimit<B>>
        requires suits { Suits (queue with.now) (declared with.now) (pass self.old) }
        requires topic { topic ≤ declared with.now }
        ensures taken { OnOk result (HasTakenFollowed follows (pass self.old) (pass self.new)) }
        ensures made { OnOk result (made with.now self.old self.new) }
        ensures only { OnOk result
            (HasOnlyCalled B.contents (queue with.now) (pass self.old) (pass self.new)) }
        ensures some { result ≡ Ok true
            → HasTakenFrom (queue with.now).setup.limit topic (pass self.old) (pass self.new)
            × TookInVain 0 (pass self.old) (pass self.new) }
        ensures none { result ≡ Ok false → HasEmptied topic (pass self.old) (pass self.new)
            × TookNothing (pass self.old) (pass self.new) }
        ensures left { IfErr result (λ l. left with.now self.old self.new l.held) };

    /// Asks whether all have retired.
    fn closed(&mut self, with: &C) -> bool
        requires { Suits (queue with.now) (declared with.now) (pass self.old) }
        ensures looked { (found : ℕ) × (pass self.new
            ≡ having_seen (pass self.new).seen (after_look found (pass self.old)))
            × (result ≡ (found == 0)) }
        ensures in_run { (found : ℕ) → (pass self.new).gate ≡ Some found → IsReadingInRun
            (queue with.now).setup (opening_of B.contents (queue with.now).given)
            (pass self.old).retired (caller_of (pass self.old)) (caller_of (pass self.new)) found }
        ensures made { made with.now self.old self.new };

    ghost gives_back: { AreReturns follows };

    ghost made_none: { (c : C) (old : Self) → made c old old };

    ghost made_along: { (c : C) (old mid new : Self)
        → HasTakenFollowed follows (pass old) (pass mid)
        → HasTakenFollowed follows (pass mid) (pass new)
        → made c old mid → made c mid new → made c old new };

    ghost left_along: { (c : C) (old mid new : Self) (kept : Option (HeldStanding B))
        → HasTakenFollowed follows (pass old) (pass mid) → made c old mid → left c mid new kept
        → left c old new kept };
}
