//! What is known of the rings.
ghost use Rattle.std.specs.Prelude.{◌≡◌, ◌+◌, ◌<◌, ◌≤◌, ◌^◌, IfSome};
ghost use Rattle.scq_band.specs.Numbers.{first_numbers_of, finishes, passes, drew, empties};
ghost use Rattle.scq_band.specs.Numbers.{larger};

use scq_word::Setup;

/// What a seat knows of one ring. Each number only rises, and stays true.
///
/// `finished` is the highest place at which it knows that an enqueue has ended, `seen` the highest
/// place at which it knows that an index was placed; as long as it knows of none, each is the
/// number before the ring's first place. `head` is a number that Head has reached.
#[derive(Clone, Copy, Debug, PartialEq, Eq)]
pub struct Numbers {
    pub finished: u64,
    pub seen: u64,
    pub head: u64,
}

impl Numbers {
    /// What is known before the first call.
    pub(crate) fn first(setup: &Setup, ring: u32) -> Numbers
        ensures { result ≡ first_numbers_of setup.now ring }
    {
        let slots = u64::from(setup.shape().slots());
        let opening = if ring == 0 {
            u64::from(setup.shape().n())
        } else {
            0
        };
        Numbers {
            finished: slots + opening - 1,
            seen: slots + opening - 1,
            head: slots,
        }
    }

    /// An enqueue of the seat's own has ended at a place, which is above all that it knew of.
    #[inline(always)]
    pub(crate) fn finishes(self, place: u64) -> Numbers
        requires above { self.seen < place }
        requires order { self.finished ≤ self.seen }
        ensures { result ≡ finishes place self }
    {
        Numbers {
            finished: place,
            seen: place,
            head: self.head,
        }
    }

    /// A ticket was drawn from Head.
    #[inline(always)]
    pub(crate) fn draws(self, ticket: u64) -> Numbers
        requires { ticket + 1 < 2 ^ 64 }
        ensures { result ≡ passes (ticket + 1) self }
    {
        Numbers {
            head: self.head.max(ticket + 1),
            ..self
        }
    }

    /// Nothing that is known to be finished was left, after the last ticket that was drawn, if any.
    #[inline(always)]
    pub(crate) fn finds_none(self, drawn: Option<u64>) -> Numbers
        requires finished { self.finished < 2 ^ 60 }
        requires drawn { IfSome drawn (λ ticket. ticket + 1 < 2 ^ 64) }
        ensures { result ≡ empties (drew drawn self) }
    {
        let past = match drawn {
            None => self,
            Some(ticket) => self.draws(ticket),
        };
        Numbers {
            head: past.head.max(past.finished + 1),
            ..past
        }
    }

    /// The larger of each number.
    pub(crate) fn larger(self, other: Numbers) -> Numbers
        ensures { result ≡ larger self other }
    {
        Numbers {
            finished: self.finished.max(other.finished),
            seen: self.seen.max(other.seen),
            head: self.head.max(other.head),
        }
    }
}
