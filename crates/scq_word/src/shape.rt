//! The order of a ring, and the sizes that it gives.

ghost use Rattle.std.specs.Prelude.{◌≡◌, ℕ, ◌≤◌, ◌<◌, ◌+◌, ◌-◌, ◌*◌, ◌^◌, ◌↔◌, ◌⊎◌, IsSome, IfSome};
ghost use Rattle.std.specs.Prelude.{IsNone};
ghost use Rattle.scq_word.specs.Sizes.{n_of, slots_of};
ghost use Rattle.scq_word.specs.Words.{mark_of};
ghost use Rattle.scq_word.specs.Most.{most_order};
ghost use Rattle.scq_word.specs.Ranges.{IsWithin, IsOutside};

use crate::most::MOST_ORDER;

/// The order of a ring, 1 to `MOST_ORDER` by its type: the ring queues the indices below `2^order`.
/// With it stand numbers of it that calls need, worked out once: the bits of a slot, the mark, and
/// how tickets are laid out in columns.
#[derive(Clone, Copy, Debug, PartialEq, Eq)]
pub struct Shape {
    pub order: u32,
    pub(crate) bits: u32,
    pub(crate) column_bits: u32,
    pub(crate) row_mask: u64,
    pub(crate) mark: u64,
    ghost order_in_range: { (1 ≤ order) × (order ≤ most_order) },
    ghost bits_are: { bits ≡ order + 1 },
    ghost columns_are: { column_bits ≡ bits - 3 },
    ghost rows_are: { row_mask ≡ 2 ^ (bits - 3) - 1 },
    ghost mark_is: { mark ≡ 2 ^ bits - 1 },
}

impl Shape {
    /// None exactly where the order is not in `1..=MOST_ORDER`.
    pub fn new(order: u32) -> Option<Shape>
        ensures within { IsSome result ↔ IsWithin 1 most_order order }
        ensures outside { IsNone result ↔ IsOutside 1 most_order order }
        ensures order { IfSome result (λ shape. shape.order ≡ order) }
    {
        if order >= 1 && order <= MOST_ORDER {
            Some(Shape::of(order))
        } else {
            None
        }
    }

    /// The shape of an order in `1..=MOST_ORDER`.
    pub(crate) fn of(order: u32) -> Shape
        requires { (1 ≤ order) × (order ≤ most_order) }
        ensures { result.order ≡ order }
    {
        let bits = order + 1;
        let column_bits = bits.saturating_sub(3);
        Shape {
            order,
            bits,
            column_bits,
            row_mask: (1 << column_bits) - 1,
            mark: (1 << bits) - 1,
        }
    }

    /// The number of indices, `2^order`.
    pub fn n(&self) -> u32
        ensures { result ≡ n_of self.now.order }
    {
        1 << self.order
    }

    /// The number of slots, two for each index.
    pub fn slots(&self) -> u32
        ensures { result ≡ slots_of self.now.order }
    {
        2 * self.n()
    }

    /// The mark that says "no index": as many as the slots, less 1.
    pub fn none(&self) -> u32
        ensures { result ≡ mark_of (slots_of self.now.order) }
    {
        self.slots() - 1
    }
}
