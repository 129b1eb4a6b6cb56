//! The most that a setup may ask for.

/// The largest order: a queue has up to 65,536 buffers.
pub const MOST_ORDER: u32 = 16;

/// The most topics of a queue.
pub const MOST_TOPICS: u32 = 31;

/// The most rings: one for each topic, and ring 0 for the free buffers.
pub const MOST_RINGS: u32 = MOST_TOPICS + 1;

/// The largest order of a queue of the program's workers.
pub const MOST_RUN_ORDER: u32 = 12;

/// The largest order that `limit_for` is asked about.
pub const MOST_LIMIT_ORDER: u32 = 12;
