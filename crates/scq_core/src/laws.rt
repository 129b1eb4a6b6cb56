//! Laws of the machine, for every setup and every state that steps reach. The functions do nothing:
//! each stands for its contract.

ghost use Rattle.std.specs.Prelude.{◌≡◌, ◌≢◌, ℕ, ◌<◌, List, Some, length};
ghost use Rattle.scq_word.specs.declared.setup.Setup.{Setup};
ghost use Rattle.scq_word.specs.Exports.{n_of};
ghost use Rattle.scq_core.specs.declared.phase.Phase.{Phase};
ghost use Rattle.scq_core.specs.declared.phase.Phase.TheVariants.{Idle};
ghost use Rattle.scq_core.specs.declared.step.Step.{Step};
ghost use Rattle.scq_core.specs.Exports.{read, turn_of, next_step, location_of, step_of, ring_of};
ghost use Rattle.scq_core.specs.Exports.{IsReady, start_of, IsReachable, ChangesOne, RankRises};
ghost use Rattle.scq_core.specs.Exports.{CountersRise, IsSteady, CatchUpLags, CountersBounded};
ghost use Rattle.scq_core.specs.Exports.{ThresholdFloor, CyclesBounded, WordsFit, RecordsGrow};
ghost use Rattle.scq_core.specs.Exports.{StartsFull};
ghost use Rattle.scq_core.specs.Machine.{Machine};

/// The start is reachable, with an opening content for each index.
pub fn start_is_reachable()
    ensures { (c : Setup) (opening : List (List ℕ)) → length opening ≡ n_of c.order
        → IsReachable c (start_of c opening) }
{}

/// The entries of the start by ticket: in ring 0 the slot of the ticket `2n + j` holds the index j,
/// safe, with cycle 1, and beside it the opening content j; each other entry was never used.
pub fn start_is_full_by_ticket()
    ensures { (c : Setup) (opening : List (List ℕ))
        → StartsFull c opening (start_of c opening).cells }
{}

/// An enabled step of a seat leads from a reachable state to a reachable state.
pub fn steps_stay_reachable()
    ensures { (c : Setup) (m later : Machine) (seat : ℕ) (step : Step) → IsReachable c m
        → seat < c.seats → step_of c m seat step ≡ Some later
        → IsReachable c later }
{}

/// A step changes at most one word of one ring, with the content beside it, and its own seat's
/// part.
pub fn steps_change_one_word()
    ensures { (c : Setup) (m later : Machine) (seat : ℕ) (step : Step)
        → step_of c m seat step ≡ Some later → ChangesOne m seat later }
{}

/// A seat in the middle of a call has exactly one enabled step, which is its phase.
pub fn calls_go_on()
    ensures enabled { (c : Setup) (m : Machine) (seat : ℕ) (step : Step)
        → next_step (m.part seat).phase ≡ Some step
        → turn_of c (m.part seat) step ≡ Some (m.part seat).phase }
    ensures alone { (c : Setup) (m : Machine) (seat : ℕ) (step : Step) (turn : Phase)
        → (m.part seat).phase ≢ Idle
        → turn_of c (m.part seat) step ≡ Some turn → next_step (m.part seat).phase ≡ Some step }
{}

/// What stands in a seat's record stays there: a step adds ended calls only at its end.
pub fn records_grow()
    ensures { (c : Setup) (m later : Machine) (seat : ℕ) (step : Step)
        → step_of c m seat step ≡ Some later → RecordsGrow m later }
{}

/// Each step leaves each entry as it is or raises its rank.
pub fn ranks_rise()
    ensures { (c : Setup) (m later : Machine) (seat : ℕ) (step : Step) → IsReachable c m
        → step_of c m seat step ≡ Some later
        → RankRises c m.cells later.cells }
{}

/// Tail and Head never fall.
pub fn counters_rise()
    ensures { (c : Setup) (m later : Machine) (seat : ℕ) (step : Step) → IsReachable c m
        → step_of c m seat step ≡ Some later
        → CountersRise m.cells later.cells }
{}

/// What each seat has by its phase: its ring, index and ticket are in range, its index is in its
/// hand, and what it loaded stands still or never comes back. A seat that keeps a spent ticket is
/// idle, and drew it at or past the limit.
pub fn seats_are_steady()
    ensures { (c : Setup) (m : Machine) → IsReachable c m → IsSteady c m }
{}

/// While a dequeue catches up, from its failed exchange on, Tail is past what it found there.
pub fn catch_ups_lag()
    ensures { (c : Setup) (m : Machine) → IsReachable c m → CatchUpLags m }
{}

/// Tail and Head pass the limit by at most one for each seat that keeps a spent ticket: so by at
/// most the number of seats.
pub fn counters_are_bounded()
    ensures { (c : Setup) (m : Machine) → IsReachable c m → CountersBounded c m }
{}

/// Threshold is at least `a - k`, where `a` of the `k` seats are in a dequeue of the ring that has
/// passed D1: so at least `-k`. It is no higher than a reset sets it.
pub fn threshold_has_a_floor()
    ensures { (c : Setup) (m : Machine) → IsReachable c m → ThresholdFloor c m }
{}

/// The cycle of each entry is that of a ticket below the limit.
pub fn cycles_are_bounded()
    ensures { (c : Setup) (m : Machine) → IsReachable c m → CyclesBounded c m.cells }
{}

/// Each word is one of 64 bits, with room for a step.
pub fn words_fit()
    ensures { (c : Setup) (m : Machine) → IsReachable c m → WordsFit c m.cells }
{}

/// An enabled turn of a reachable state is on one of the setup's rings, and has what its arithmetic
/// stands on: the counter that it finds has room, its ticket is below the limit, the entry that it
/// finds has an index of the ring or the mark, and Threshold is not yet at the bottom.
pub fn enabled_turns_are_ready()
    ensures ring { (c : Setup) (m : Machine) (seat : ℕ) (step : Step) (turn : Phase)
        → IsReachable c m
        → turn_of c (m.part seat) step ≡ Some turn → ring_of turn < c.rings }
    ensures ready { (c : Setup) (m : Machine) (seat : ℕ) (step : Step) (turn : Phase)
        → IsReachable c m
        → turn_of c (m.part seat) step ≡ Some turn
        → IsReady c turn (read m.cells (location_of c turn)) }
{}
