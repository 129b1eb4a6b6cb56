//! A pass: the handle by which one thread makes calls.
ghost use Rattle.std.specs.Prelude.{◌≡◌, length};
ghost use Rattle.scq_queue.specs.Lists.{fulls_in, counts_of};
ghost use Rattle.scq_queue.specs.Passes.{lists_of, was_told};

use crate::counts::Counts;
use crate::fulls::Fulls;
use scq_band::Seat;
use scq_word::Buffer;
use std::marker::Model;
use std::snapshot::Snapshot;

/// A pass of a queue. One call at a time is made with it, by whichever thread has it. `saw` is what
/// its last reading of the gate answered.
#[derive(Drop)]
pub struct Pass<B: Buffer> {
    pub(crate) seat: Seat<B>,
    pub(crate) fulls: Snapshot<Fulls>,
    pub(crate) counts: Counts,
    pub(crate) saw: bool,
}

impl<B: Buffer> Model for Pass<B> {
    ghost use Rattle.scq_queue.specs.Passes.{PassStanding};

    ghost Value = { PassStanding B };

    ghost use Rattle.scq_queue.specs.Kept.{pass_over, heads_of, IsPass};

    ghost view = { λ p. pass_over p.seat (heads_of p.fulls.value) };

    ghost invariant = { λ p. IsPass p.seat (heads_of p.fulls.value) p.counts p.saw };
}

impl<B: Buffer> Pass<B> {
    /// How many sends, takes and Full replies it had.
    pub fn counts(&self) -> Counts
        ensures counts { result ≡ counts_of (lists_of self.now) }
        ensures fulls { length self.now.fulls ≡ fulls_in self.now.calls }
    {
        self.counts
    }

    /// Whether a `closed` of this pass answered true: so where its last reading was 0, since the
    /// number read never rises.
    pub fn saw_closed(&self) -> bool
        ensures { result ≡ was_told self.now.gate }
    {
        self.saw
    }

    /// The ticket at or past the limit that it keeps. From then on each call on a ring answers
    /// Spent with it.
    pub fn spent(&self) -> Option<u64>
        ensures { result ≡ self.now.spent }
    {
        self.seat.spent()
    }
}
