//! Setups: the numbers that rings are made with.

ghost use Rattle.std.specs.Prelude.{◌≡◌, ℕ, ◌*◌, ◌^◌, ◌<◌, ◌≤◌, ◌↔◌, ◌⊎◌, IsOk, IfOk, Err};
ghost use Rattle.scq_word.specs.Sizes.{n_of};
ghost use Rattle.scq_word.specs.Bounds.{reset_value};
ghost use Rattle.scq_word.specs.Most.{most_order, most_rings};
ghost use Rattle.scq_word.specs.Ranges.{IsWithin, IsOutside};

use crate::bounds;
use crate::most::MOST_RINGS;
use crate::shape::Shape;
use thiserror::Error;

/// What rings are made with: `2^order` indices, so many rings, so many seats that make calls, and
/// the limit of their tickets. Valid by its type: the order is in `1..=MOST_ORDER`, the rings
/// in `1..=MOST_RINGS`, the seats in 1..=4096 whatever the order is, and the limit in `8n..=2^60`.
#[derive(Clone, Copy, Debug, PartialEq, Eq)]
pub struct Setup {
    pub order: u32,
    pub rings: u32,
    pub seats: u32,
    pub limit: u64,
    ghost order_in_range: { (1 ≤ order) × (order ≤ most_order) },
    ghost rings_in_range: { (1 ≤ rings) × (rings ≤ most_rings) },
    ghost seats_in_range: { (1 ≤ seats) × (seats ≤ 4096) },
    ghost limit_in_range: { (8 * n_of order ≤ limit) × (limit ≤ 2 ^ 60) },
}

/// Why there is no such setup. The tests are made in this order, so that each fault says that the
/// ones before it are not there.
#[derive(Clone, Copy, Debug, PartialEq, Eq, Error)]
pub enum SetupFault {
    #[error("order is not in 1..16")]
    BadOrder,
    #[error("rings are not in 1..32")]
    BadRings,
    #[error("seats are not in 1..4096")]
    BadSeats,
    #[error("limit is not in 8n..2^60")]
    BadLimit,
}

impl Setup {
    /// Tests the order, the rings, the seats and the limit, in this order, and answers the first
    /// that is out of range.
    pub fn new(order: u32, rings: u32, seats: u32, limit: u64) -> Result<Setup, SetupFault>
        ensures ok { IsOk result
            ↔ (IsWithin 1 most_order order × IsWithin 1 most_rings rings × IsWithin 1 4096 seats
            × IsWithin (8 * n_of order) (2 ^ 60) limit) }
        ensures made { IfOk result (λ setup.
            (setup.order ≡ order) × (setup.rings ≡ rings) × (setup.seats ≡ seats)
            × (setup.limit ≡ limit)) }

        ensures bad_order { (result ≡ Err SetupFault.BadOrder) ↔ IsOutside 1 most_order order }
        ensures bad_rings { (result ≡ Err SetupFault.BadRings)
            ↔ (IsWithin 1 most_order order × IsOutside 1 most_rings rings) }
        ensures bad_seats { (result ≡ Err SetupFault.BadSeats)
            ↔ (IsWithin 1 most_order order × IsWithin 1 most_rings rings
            × IsOutside 1 4096 seats) }
        ensures bad_limit { (result ≡ Err SetupFault.BadLimit)
            ↔ (IsWithin 1 most_order order × IsWithin 1 most_rings rings
            × IsWithin 1 4096 seats × IsOutside (8 * n_of order) (2 ^ 60) limit) }
    {
        let Some(shape) = Shape::new(order) else {
            return Err(SetupFault::BadOrder);
        };
        if rings < 1 || rings > MOST_RINGS {
            return Err(SetupFault::BadRings);
        }
        if seats < 1 || seats > 4096 {
            return Err(SetupFault::BadSeats);
        }
        if limit < 8 * u64::from(shape.n()) || limit > 1 << 60 {
            return Err(SetupFault::BadLimit);
        }
        Ok(Setup {
            order,
            rings,
            seats,
            limit,
        })
    }

    /// The order, with the sizes that it gives.
    pub fn shape(&self) -> Shape
        ensures { result.order ≡ self.now.order }
    {
        Shape::of(self.order)
    }

    /// The number of rings, 1 to `MOST_RINGS`.
    pub fn rings(&self) -> u32
        ensures { result ≡ self.now.rings }
    {
        self.rings
    }

    /// The number of seats, 1 to 4096.
    pub fn seats(&self) -> u32
        ensures { result ≡ self.now.seats }
    {
        self.seats
    }

    /// What Threshold is reset to once an index was placed.
    pub fn reset_value(&self) -> u64
        ensures { result ≡ reset_value self.now.order self.now.seats }
    {
        bounds::reset_value(self.shape(), self.seats)
    }

    /// The limit of tickets, `8n` to `2^60`.
    pub fn limit(&self) -> u64
        ensures { result ≡ self.now.limit }
    {
        self.limit
    }
}
