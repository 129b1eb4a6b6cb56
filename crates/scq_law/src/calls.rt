//! Why each call ends, and after how many steps. The functions do nothing: each stands for its
//! contract.

ghost use Rattle.std.specs.Prelude.{ℕ, List};
ghost use Rattle.scq_word.specs.declared.setup.Setup.{Setup};
ghost use Rattle.scq_core.specs.declared.step.Step.{Step};
ghost use Rattle.scq_core.specs.Machine.{Machine};
ghost use Rattle.scq_core.specs.Exports.{IsReachable};
ghost use Rattle.scq_law.specs.Exports.{Recorded, IsRun, RetriesRise, CallsEnd, FewSteps};
ghost use Rattle.scq_law.specs.Exports.{HasProgress, DelayedByEnds, EndsAlone};

/// Why each loop of a call ends, in its seat's steps. The exchanges with one ticket: a failed one
/// found an entry of a higher rank, and is tried again only while that is below what the ticket's
/// cycle has. The tickets of one call: each is higher than the one before, and the call goes on
/// only below the limit. The catch-up of Tail: a failed exchange found it higher, and it is never
/// further past the limit than the number of seats.
pub fn retries_rise()
    ensures { (c : Setup) (m : Machine) → IsReachable c m → RetriesRise c m }
{}

/// Each call ends after a bounded number of its seat's steps, whatever the other seats do: each
/// step leaves the call fewer, and none has more left than a dequeue that begins, which are about
/// `15 L * L` for the limit `L` of tickets.
pub fn calls_end()
    ensures { (c : Setup) (m : Machine) → IsReachable c m → CallsEnd c m }
{}

/// So in each run, of any length, a seat makes at most that number of steps for each call that it
/// has ended, and for the one that it may have under way.
pub fn calls_take_few_steps()
    ensures { (c : Setup) (opening : List (List ℕ)) (steps : List (ℕ × Step)) (recorded : Recorded)
        → IsRun c opening steps recorded → FewSteps c steps recorded.state }
{}

/// Lock-freedom, with a bound: some call ends soon, whatever the seats do. Let `b` be
/// `6 * (R + n + k)`, for `n` indices, `k` seats and a Threshold that resets to `R`. Among any
/// `k * b + 1` steps of a run that follow one another one ends a call. A call that ends with Spent
/// counts as ended.
pub fn some_call_ends_soon()
    ensures { (c : Setup) (opening : List (List ℕ)) (steps : List (ℕ × Step))
        → HasProgress c opening steps }
{}

/// What delays a call: its seat makes at most `b` steps for it, `b` more for each put of another
/// seat that ends with Done on its ring meanwhile, and 6 more for each get of another that ends
/// there, got or nothing. An end with Spent, calls on other rings and seats that stopped cost it
/// nothing. So each ring by itself is lock-free.
pub fn calls_are_delayed_by_ends()
    ensures { (c : Setup) (opening : List (List ℕ)) (steps : List (ℕ × Step))
        → DelayedByEnds c opening steps }
{}

/// A call that runs alone ends within `10 * n + 3 * k + 3` steps, from any reachable state, also
/// where all other seats stopped in the middle of theirs: among so many steps of a run that follow
/// one another and are all of one seat, one ends a call of it.
pub fn calls_alone_end_soon()
    ensures { (c : Setup) (opening : List (List ℕ)) (steps : List (ℕ × Step))
        → EndsAlone c opening steps }
{}
