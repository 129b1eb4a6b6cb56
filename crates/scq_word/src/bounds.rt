//! What depends on a ring's order and on the number of seats alone: the reset value, and the limit
//! that is enough for a number of puts.

ghost use Rattle.std.specs.Prelude.{◌≡◌, ℕ, ◌^◌, ◌<◌, ◌↔◌, IfSome, IsNone};
ghost use Rattle.scq_word.specs.Bounds.{reset_value, limit_for};
ghost use Rattle.scq_word.specs.Most.{most_limit_order};
ghost use Rattle.scq_word.specs.Ranges.{IsWithin};

use crate::shape::Shape;

/// The greatest limit of a setup.
const MOST_TICKETS: u64 = 1 << 60;

/// What Threshold is reset to once an index was placed: the window of a ring reaches `2n - 1`
/// tickets past Head, and a ticket is covered while that many dequeues, and one for each other
/// seat, may still fail. Where there are fewer seats than indices it is `3n - 1`, as Nikolaev's
/// queue has it.
#[tactic(auto, unfolding(crate::specs::Bounds::reset_value))]
pub(crate) fn reset_value(shape: Shape, seats: u32) -> u64
    ensures { result ≡ reset_value shape.order seats }
{
    let n = shape.n();
    u64::from(2 * n - 1) + u64::from(n.max(seats))
}

/// The limit with which so many puts on a ring never meet `Spent`, those of all seats together; on
/// ring 0 the n opening puts are in it beside them. The order is in `1..=MOST_LIMIT_ORDER` and the
/// seats in 1..=4096. None exactly where it would be past `2^60`, the greatest limit of a setup.
#[tactic(auto, unfolding(crate::specs::Bounds::reset_value))]
pub fn limit_for(order: u32, seats: u32, puts: u64) -> Option<u64>
    requires order { IsWithin 1 most_limit_order order }
    requires seats { IsWithin 1 4096 seats }
    ensures some { IfSome result (λ limit. limit ≡ limit_for order seats puts) }
    ensures none { IsNone result ↔ 2 ^ 60 < limit_for order seats puts }
{
    let shape = Shape::of(order);
    let n = u128::from(shape.n());
    let seats_too = u128::from(seats);
    let begun = u128::from(puts) + n;
    let each = u128::from(reset_value(shape, seats)) + 1 + seats_too;
    let limit = 4 * n + (begun + 1) * each + seats_too;
    if limit <= u128::from(MOST_TICKETS) {
        Some(limit as u64)
    } else {
        None
    }
}
