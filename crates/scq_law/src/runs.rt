//! Runs and the states that they lead to, and what holds along them. The functions do nothing: each
//! stands for its contract.

ghost use Rattle.std.specs.Prelude.{◌≡◌, ℕ, List};
ghost use Rattle.scq_word.specs.declared.setup.Setup.{Setup};
ghost use Rattle.scq_core.specs.declared.step.Step.{Step};
ghost use Rattle.scq_core.specs.Machine.{Machine};
ghost use Rattle.scq_core.specs.Exports.{IsReachable, RankRises, CountersRise};
ghost use Rattle.scq_law.specs.Exports.{IsLater, Recorded, IsRun, EndsRun};

/// The reachable states are those in which a run of the setup's seats ends.
pub fn runs_end_in_the_reachable_states()
    ensures reached { (c : Setup) (opening : List (List ℕ)) (steps : List (ℕ × Step))
        (recorded : Recorded)
        → IsRun c opening steps recorded → IsReachable c recorded.state }
    ensures no_others { (c : Setup) (m : Machine) → IsReachable c m → EndsRun c m }
{}

/// From a state to a later one each entry is as it was, or its rank rose, and Tail and Head have
/// not fallen.
pub fn ranks_and_counters_rise()
    ensures { (c : Setup) (m later : Machine) → IsReachable c m → IsLater c m later
        → RankRises c m.cells later.cells × CountersRise m.cells later.cells }
{}

/// No entry word comes back once it has changed.
pub fn words_never_come_back()
    ensures { (c : Setup) (m n later : Machine) (r s : ℕ) → IsReachable c m → IsLater c m n
        → IsLater c n later
        → later.cells.entries.word r s ≡ m.cells.entries.word r s
        → n.cells.entries.word r s ≡ m.cells.entries.word r s }
{}
