//! The one-thread order as a fact on every finished run, of any number of steps. The functions do
//! nothing: each stands for its contract.

ghost use Rattle.std.specs.Prelude.{◌≡◌, ℕ, ◌+◌, ◌<◌, ◌≤◌, List, length, Some, slice_get};
ghost use Rattle.scq_core.specs.declared.ended.Ended.{Ended};
ghost use Rattle.scq_core.specs.declared.ended.Ended.TheVariants.{Nothing};
ghost use Rattle.scq_core.specs.declared.step.Step.{Step};
ghost use Rattle.scq_law.specs.declared.ordered.Ordered.{Ordered};
ghost use Rattle.scq_law.specs.declared.ordered.Ordered.TheVariants.{Call};
ghost use Rattle.scq_law.specs.Exports.{IsDecidingStep, IsFinishedRun, HasEnded, DrawsPut};
ghost use Rattle.scq_law.specs.Exports.{DrawsGet, EndedBefore, IsLinearization, IsOneOrder};
ghost use Rattle.scq_law.specs.Exports.{Recorded, IsRun, IsPrefix, IsRecordAfter, RestsAt};
ghost use Rattle.scq_law.specs.Exports.{CallsApart};
ghost use Rattle.scq_law.specs.RunSteps.{Run};

/// In every run whose calls have all ended, the order of each ring has all its calls but those that
/// ended with Spent, once, and the opening puts first, in the order of their numbers; a call that
/// ended before another started stands before it; each point lies between its call's first and last
/// step; and each reply is what a plain queue replies.
pub fn orders_are_plain_queues()
    ensures { (run : Run) (r : ℕ) (order : List Ordered) → IsFinishedRun run
        → IsLinearization run r order → IsOneOrder run r order }
{}

/// Every run whose calls have all ended has just one order of each ring.
pub fn orders_are_unique()
    ensures some { (run : Run) (r : ℕ) → IsFinishedRun run
        → (order : List Ordered) × IsLinearization run r order }
    ensures one { (run : Run) (r : ℕ) (order another : List Ordered) → IsLinearization run r order
        → IsLinearization run r another → order ≡ another }
{}

/// The call of a deciding step ends with Nothing, and each call that ended with Nothing has just
/// one deciding step.
pub fn nothings_decide_once()
    ensures ends { (run : Run) (d seat call r : ℕ) → IsFinishedRun run
        → IsDecidingStep run d seat call r → HasEnded run seat call (Nothing r) }
    ensures decides { (run : Run) (seat call r : ℕ) → IsFinishedRun run
        → HasEnded run seat call (Nothing r) → (d : ℕ) × IsDecidingStep run d seat call r }
    ensures once { (run : Run) (d e seat call r q : ℕ) → IsFinishedRun run
        → IsDecidingStep run d seat call r → IsDecidingStep run e seat call q → d ≡ e }
{}

/// A ticket below the limit is drawn once from each counter of a ring.
pub fn tickets_are_drawn_once()
    ensures puts { (run : Run) (i j seat k r p : ℕ) → IsFinishedRun run → DrawsPut run i seat r p
        → DrawsPut run j k r p → i ≡ j }
    ensures gets { (run : Run) (i j seat k r p : ℕ) → IsFinishedRun run → DrawsGet run i seat r p
        → DrawsGet run j k r p → i ≡ j }
{}

/// Where it is known that a seat was in the middle of no call after some steps of a run, and how
/// many calls stood in its record then, each step of these calls came before, and each step of its
/// later calls comes after.
pub fn calls_stand_apart()
    ensures { (run : Run) (recorded : Recorded) (moment seat calls : ℕ)
        → IsRun run.setup run.opening run.steps recorded → RestsAt run moment seat calls
        → CallsApart run moment seat calls }
{}

/// Where a seat's call stands in its record after the first steps of a run, and another seat's call
/// isn't in its record yet after those or more of them, though that seat is in the middle of none:
/// each step of the one comes before each of the other, and so it stands before it in the
/// one-thread order.
pub fn calls_seen_come_first()
    ensures apart { (run : Run) (recorded : Recorded) (seen begun : List (ℕ × Step)) (seat k : ℕ)
        (calls others : List Ended) (call x : ℕ)
        → IsRun run.setup run.opening run.steps recorded → IsPrefix seen begun
        → IsPrefix begun run.steps
        → IsRecordAfter run.setup run.opening seen seat calls → call < length calls
        → IsRecordAfter run.setup run.opening begun k others → length others ≤ x
        → EndedBefore run seat call k x }
    ensures in_order { (run : Run) (recorded : Recorded) (seen begun : List (ℕ × Step)) (seat k : ℕ)
        (calls others : List Ended) (call x : ℕ)
        → IsRun run.setup run.opening run.steps recorded → IsPrefix seen begun
        → IsPrefix begun run.steps
        → IsRecordAfter run.setup run.opening seen seat calls → call < length calls
        → IsRecordAfter run.setup run.opening begun k others → length others ≤ x
        → (r a b : ℕ) (order : List Ordered) → IsOneOrder run r order
        → slice_get order a ≡ Some (Call seat (call + 1))
        → slice_get order b ≡ Some (Call k (x + 1))
        → a < b }
{}
