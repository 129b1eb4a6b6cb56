//! Whether a history is linearizable.

ghost use Rattle.std.specs.Prelude.{◌≡◌, ℕ, List};
ghost use Rattle.scq_hist.specs.Exports.{IsCount, IsLawful};
ghost use Rattle.scq_hist.specs.declared.events.Event.{Event};
ghost use Rattle.scq_check.specs.Exports.{AreBreaches};
ghost use Rattle.scq_judge.specs.Counted.{NeverEnds};
ghost use Rattle.scq_judge.specs.Report.{IsOrderTold};
ghost use Rattle.scq_judge.specs.Right.{all_hold, none_breaks};

use scq_check::{Breaches, Failures};

// Whether no event breaks the aspect.
fn holds(failures: &Failures) -> bool
    ensures { result ≡ none_breaks failures.now.first }
{
    match failures.first {
        None => true,
        Some(_) => false,
    }
}

// Whether the four aspects hold, no put that was refused is got, and opening tokens are got in
// their order.
fn all_hold(breaches: &Breaches) -> bool
    ensures { result ≡ all_hold breaches.now }
{
    let in_order = holds(&breaches.in_order);
    let empty_right = holds(&breaches.empty_right);
    let opening = holds(&breaches.opening);
    let once = holds(&breaches.once);
    let accepted = holds(&breaches.accepted);
    holds(&breaches.fresh) && once && in_order && empty_right && accepted && opening
}

/// Whether the lawful history with these breaches, of which so many calls never end, is
/// linearizable, where each call has ended: just then a queue by itself has a sequential order if
/// all aspects hold.
pub(crate) fn is_linearizable(breaches: &Breaches, never_ended: usize) -> Option<bool>
    ensures { (opening : List (List ℕ)) (history : List Event) → IsLawful history
        → AreBreaches opening history breaches.now → IsCount (NeverEnds history) never_ended
        → IsOrderTold opening history result }
{
    if never_ended > 0 {
        return None;
    }
    Some(all_hold(breaches))
}
