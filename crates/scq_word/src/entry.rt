//! The parts of an entry.

/// What stands in a slot of a ring: the round of the ring that it belongs to, whether it is safe,
/// and an index where it has one. It is unsafe where a dequeue of a later round passed it while an
/// index stood there; then an enqueue may fill it only where Head is at most its ticket.
#[derive(Clone, Copy, Debug, PartialEq, Eq)]
pub struct Entry {
    pub cycle: u64,
    pub safe: bool,
    pub index: Option<u32>,
}
