//! Where messages begin and end, among spots in order.
ghost use Rattle.std.specs.Prelude.{◌≡◌, ◌≢◌, ℕ, ◌-◌, ◌<◌, ◌≤◌, ◌∷◌, length, take, drop};
ghost use Rattle.std.specs.Prelude.{slice_index_or, IsTrue};
ghost use Rattle.scq_collect.specs.Exports.{BeginsMessage, messages_in_order, plain};

use crate::spots::Spot;

/// Where the message ends that begins at this position.
pub fn message_end(spots: &[Spot<'_>], at: usize) -> usize
    requires { at < length spots.now }
    ensures within { (at < result) × (result ≤ length spots.now) }
    ensures message { messages_in_order (plain (drop at spots.now))
        ≡ plain (take (result - at) (drop at spots.now))
        ∷ messages_in_order (plain (drop result spots.now)) }
{
    next_start(spots, at + 1)
}

/// Whether a message begins with the first of them, or there are none.
pub fn begins_message(spots: &[Spot<'_>]) -> bool
    ensures { IsTrue result → BeginsMessage (plain spots.now) }
{
    spots.is_empty() || spots[0].part == 1
}

/// Where a message begins, from this position on: at a part 1, or at the end.
fn next_start(spots: &[Spot<'_>], from: usize) -> usize
    requires { from ≤ length spots.now }
    ensures within { (from ≤ result) × (result ≤ length spots.now) }
    ensures between { (k : ℕ) (d : _) → from ≤ k → k < result
        → (slice_index_or spots.now k d).part ≢ 1 }
    ensures begins { BeginsMessage (plain (drop result spots.now)) }
{
    let mut at = from;
    'parts: while at < spots.len() && spots[at].part != 1 {
        at += 1;
    }
    at
}
