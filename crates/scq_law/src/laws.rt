//! Laws of every state that steps reach. The functions do nothing: each stands for its contract.

ghost use Rattle.std.specs.Prelude.{ℕ, ◌<◌, List};
ghost use Rattle.scq_word.specs.declared.setup.Setup.{Setup};
ghost use Rattle.scq_core.specs.Machine.{Machine};
ghost use Rattle.scq_core.specs.Exports.{IsReachable};
ghost use Rattle.scq_law.specs.Exports.{OneHand, PlacesLast, IsLater, Maker, IsPlacedBy, IsTaken};
ghost use Rattle.scq_law.specs.Exports.{AllIdle, PlacesOnce, EntriesMatchPlaces};

/// Each index is in the hand of one seat, once, or in one entry of one ring, and nowhere else.
pub fn one_hand()
    ensures { (c : Setup) (m : Machine) → IsReachable c m → OneHand c m }
{}

/// Each place of a ring is placed at most once, below Tail and the limit, and taken at most once,
/// below Head, with the content that was placed there. What was placed has been taken, or is at or
/// above Head, or just one seat looks at it, and just one of these holds. Nothing is placed at a
/// ticket that a dequeue gave up. Where a dequeue is about to take, an index stands, and what it is
/// about to answer is what was placed at its ticket.
pub fn places_once()
    ensures { (c : Setup) (m : Machine) → IsReachable c m → PlacesOnce c m }
{}

/// While all seats are idle, each place below Head has been taken, with the content that was placed
/// there.
pub fn places_below_head_are_taken()
    ensures { (c : Setup) (m : Machine) (r p : ℕ) (w : List ℕ) (a : Maker) → IsReachable c m
        → AllIdle c m → IsPlacedBy c m r p w a → p < m.cells.head r
        → IsTaken m r p w }
{}

/// Each entry with an index is that of a place which nobody has taken, with the content that was
/// placed there; and each place has been taken, or its index and content stand in its slot.
pub fn entries_match_places()
    ensures { (c : Setup) (m : Machine) → IsReachable c m → EntriesMatchPlaces c m }
{}

/// From a state to a later one what stands in a seat's record stays there, what was placed or taken
/// stays so, with its content and call, a place whose put has ended stays one, and at a ticket that
/// a dequeue gave up nothing is ever placed.
pub fn places_last()
    ensures { (c : Setup) (m n : Machine) → IsReachable c m → IsLater c m n → PlacesLast c m n }
{}
