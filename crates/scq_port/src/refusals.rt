//! Why a port's calls did nothing.

/// Why nothing was lent: the port holds as many values as it may; no buffer was free, the free
/// ring's Head being at or past this number; or the port keeps a ticket at or past the limit.
#[derive(Clone, Copy, Debug, PartialEq, Eq)]
pub enum LendRefusal {
    NoRoom,
    Full { head: u64 },
    Spent { ticket: u64 },
}

/// Why nothing was taken: there is no such topic; the port holds as many values as it may; the
/// topic was empty, its ring's Head being at or past this number; or the port keeps a ticket at or
/// past the limit.
#[derive(Clone, Copy, Debug, PartialEq, Eq)]
pub enum TakeRefusal {
    NoTopic,
    NoRoom,
    Empty { head: u64 },
    Spent { ticket: u64 },
}

/// Why nothing was sent: there is no such topic; the port has retired; it holds no value of this
/// index; or it keeps a ticket at or past the limit.
#[derive(Clone, Copy, Debug, PartialEq, Eq)]
pub enum SendRefusal {
    NoTopic,
    Retired,
    NotHeld,
    Spent { ticket: u64 },
}

/// Why nothing was given back: the port holds no value of this index; or it keeps a ticket at or
/// past the limit.
#[derive(Clone, Copy, Debug, PartialEq, Eq)]
pub enum GiveBackRefusal {
    NotHeld,
    Spent { ticket: u64 },
}
