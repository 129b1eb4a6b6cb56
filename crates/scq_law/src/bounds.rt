//! How far a ring's counters are apart, and how many tickets a number of enqueues can use up. The
//! functions do nothing: each stands for its contract.

ghost use Rattle.std.specs.Prelude.{ℕ, List};
ghost use Rattle.scq_word.specs.declared.setup.Setup.{Setup};
ghost use Rattle.scq_core.specs.declared.step.Step.{Step};
ghost use Rattle.scq_core.specs.Machine.{Machine};
ghost use Rattle.scq_core.specs.Exports.{IsReachable, CountersBounded, ThresholdFloor};
ghost use Rattle.scq_law.specs.Exports.{Recorded, IsRun, WithinWindow, ThresholdCovers};
ghost use Rattle.scq_law.specs.Exports.{FailsBounded, TicketsBounded, NoneSpentWithinLimit};
ghost use Rattle.scq_law.specs.Exports.{SpentKept};

/// Tail, as far as it is below the limit, is at most `2n - 1` past Head on each ring of `n`
/// indices.
pub fn tail_is_within_the_window()
    ensures { (c : Setup) (m : Machine) → IsReachable c m → WithinWindow c m }
{}

/// With `q` attempts of a ring in flight, each finished place at or past Head has Threshold at
/// least `(place - Head) + q + 2`. An attempt is in flight from the draw of its ticket, below the
/// limit, until it has taken an index or lowered Threshold.
pub fn threshold_covers_the_finished()
    ensures { (c : Setup) (m : Machine) → IsReachable c m → ThresholdCovers c m }
{}

/// Threshold is at least `a - k`, where `a` of the `k` seats are in a dequeue of the ring that has
/// passed D1, and at most what a reset sets.
pub fn threshold_has_a_floor()
    ensures { (c : Setup) (m : Machine) → IsReachable c m → ThresholdFloor c m }
{}

/// Tail and Head pass the limit by at most the number of seats that keep a spent ticket.
pub fn counters_are_bounded()
    ensures { (c : Setup) (m : Machine) → IsReachable c m → CountersBounded c m }
{}

/// After each run, no more attempts to dequeue from a ring have failed since a put last ended there
/// with Done, or since the start, than what a reset sets and the number of seats together.
pub fn fails_are_bounded()
    ensures { (c : Setup) (opening : List (List ℕ)) (steps : List (ℕ × Step)) (recorded : Recorded)
        → IsRun c opening steps recorded → FailsBounded c recorded }
{}

/// Head is at most `bound(E) - 2n`, and Tail, as far as it is below the limit, at most `bound(E) -
/// 1`, where `E` enqueues were begun on the ring, the opening puts among them, and `bound(E) = 4n +
/// (E + 1) * (R + 1 + k) + k` for `k` seats and a Threshold that resets to `R`.
pub fn tickets_are_bounded()
    ensures { (c : Setup) (m : Machine) → IsReachable c m → TicketsBounded c m }
{}

/// While a ring's bound for the enqueues begun is within the limit, no call on that ring has ended
/// with Spent, whatever became of the other rings.
pub fn none_is_spent_within_the_bound()
    ensures { (c : Setup) (m : Machine) → IsReachable c m → NoneSpentWithinLimit c m }
{}

/// A seat that keeps a spent ticket ended its last call with it, on a ring whose bound for the
/// enqueues begun is past the limit; and a call that ended with Spent is its seat's last, whose
/// ticket it keeps.
pub fn spent_tickets_are_kept()
    ensures { (c : Setup) (m : Machine) → IsReachable c m → SpentKept c m }
{}
