//! What is counted over rings, hands and records. The functions do nothing: each stands for its
//! contract.

ghost use Rattle.std.specs.Prelude.{ℕ, List};
ghost use Rattle.scq_word.specs.declared.setup.Setup.{Setup};
ghost use Rattle.scq_core.specs.declared.step.Step.{Step};
ghost use Rattle.scq_core.specs.Machine.{Machine};
ghost use Rattle.scq_core.specs.Exports.{IsReachable};
ghost use Rattle.scq_law.specs.Exports.{Recorded, IsRun, Balanced, AllKept, EnqueuesBegun};

/// On each ring the indices that are left and the gets that took one are as many as the puts that
/// placed one, the opening puts among them. A put has placed once its exchange has succeeded.
pub fn rings_are_balanced()
    ensures { (c : Setup) (m : Machine) → IsReachable c m → Balanced c m }
{}

/// The indices that are left in all rings and those that lie in hands are `n` together, so a hand
/// never holds more than `n`.
pub fn all_indices_are_kept()
    ensures { (c : Setup) (m : Machine) → IsReachable c m → AllKept c m }
{}

/// After each run, the enqueues begun on a ring, as the bound on tickets counts them, are the puts
/// of that ring whose Start is in the history, and the opening puts.
pub fn begun_enqueues_are_starts()
    ensures { (c : Setup) (opening : List (List ℕ)) (steps : List (ℕ × Step)) (recorded : Recorded)
        → IsRun c opening steps recorded → EnqueuesBegun c recorded.state recorded.events }
{}
