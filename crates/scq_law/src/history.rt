//! Laws of the history of every run, of any number of steps, where seats may stop for ever in the
//! middle of a call. The functions do nothing: each stands for its contract.

ghost use Rattle.std.specs.Prelude.{ℕ, List, [], ◌∷◌, ◌++◌};
ghost use Rattle.scq_word.specs.declared.setup.Setup.{Setup};
ghost use Rattle.scq_core.specs.declared.ended.Ended.{Ended};
ghost use Rattle.scq_core.specs.declared.ended.Ended.TheVariants.{Nothing};
ghost use Rattle.scq_core.specs.declared.step.Step.{Step};
ghost use Rattle.scq_hist.specs.Exports.{IsLawful, IsFresh, IsOnce, IsInOrder, IsEmptyRight};
ghost use Rattle.scq_law.specs.Exports.{Recorded, IsRun, HistoryHasAspects, HistoryShowsRecords};
ghost use Rattle.scq_law.specs.Exports.{IsPrefix, IsPrefixOfRun, IsRecordAfter, IsEmptyAtCall};

/// The events of each seat alternate, beginning with a Start, and each reply suits its call.
pub fn histories_are_lawful()
    ensures { (c : Setup) (opening : List (List ℕ)) (steps : List (ℕ × Step)) (recorded : Recorded)
        → IsRun c opening steps recorded → IsLawful recorded.events }
{}

/// Each Got names a put of the same queue and content that is an opening token or started before.
pub fn histories_are_fresh()
    ensures { (c : Setup) (opening : List (List ℕ)) (steps : List (ℕ × Step)) (recorded : Recorded)
        → IsRun c opening steps recorded → IsFresh opening recorded.events }
{}

/// No two Gots name the same put.
pub fn histories_are_once()
    ensures { (c : Setup) (opening : List (List ℕ)) (steps : List (ℕ × Step)) (recorded : Recorded)
        → IsRun c opening steps recorded → IsOnce recorded.events }
{}

/// No put is got before one that was put wholly before it, unless a get that is still under way may
/// have that one.
pub fn histories_are_in_order()
    ensures { (c : Setup) (opening : List (List ℕ)) (steps : List (ℕ × Step)) (recorded : Recorded)
        → IsRun c opening steps recorded → IsInOrder opening recorded.events }
{}

/// Each Nothing is right: at a moment inside its call each finished put of the queue had been got
/// by a get that had started, or isn't got at all, and those are matched one to one by other gets
/// of the queue that had started and are still under way.
pub fn empties_are_right()
    ensures { (c : Setup) (opening : List (List ℕ)) (steps : List (ℕ × Step)) (recorded : Recorded)
        → IsRun c opening steps recorded → IsEmptyRight opening recorded.events }
{}

/// The history of every run has the four aspects.
pub fn histories_have_aspects()
    ensures { (c : Setup) (opening : List (List ℕ)) (steps : List (ℕ × Step)) (recorded : Recorded)
        → IsRun c opening steps recorded → HistoryHasAspects opening recorded }
{}

/// The history of every run shows each seat's calls as its record has them, in order: ring,
/// content, and how each ended, where a Got names the put that placed where it took.
pub fn histories_show_records()
    ensures { (c : Setup) (opening : List (List ℕ)) (steps : List (ℕ × Step)) (recorded : Recorded)
        → IsRun c opening steps recorded → HistoryShowsRecords recorded }
{}

/// The first steps of every run are a run, and its history begins with theirs.
pub fn prefixes_are_runs()
    ensures { (c : Setup) (opening : List (List ℕ)) (short steps : List (ℕ × Step))
        (recorded : Recorded)
        → IsPrefix short steps → IsRun c opening steps recorded
        → IsPrefixOfRun c opening short recorded }
{}

/// Where one more call of a seat has ended with Nothing between two moments at which it rested, the
/// history has this call between them, and a moment inside it at which each put of the ring that
/// had ended is claimed; whether other seats' calls have ended or not.
pub fn empties_are_right_at_their_call()
    ensures { (c : Setup) (opening : List (List ℕ)) (before after : List (ℕ × Step)) (seat r : ℕ)
        (calls : List Ended) → IsPrefix before after
        → (was : IsRecordAfter c opening before seat calls)
        → (now : IsRecordAfter c opening after seat (calls ++ Nothing r ∷ []))
        → IsEmptyAtCall opening was.recorded.events now.recorded.events seat r }
{}
