//! About how many indices stand in a ring.
ghost use Rattle.std.specs.Prelude.{◌≡◌, ◌<◌, ◌≤◌};
ghost use Rattle.scq_word.specs.Exports.{n_of};
ghost use Rattle.scq_core.specs.Exports.{Location};
ghost use Rattle.scq_band.specs.Exports.{opening_of, at, IsLocation, word_count, WasFoundInRun};
ghost use Rattle.scq_band.specs.Exports.{WasCountedInRun, having_seen, caller_of};

use crate::band::Band;
use crate::marks::find;
use crate::seat::Seat;
use scq_word::Buffer;

impl<B: Buffer> Band<B> {
    /// How many buffers it has.
    #[inline(always)]
    pub fn capacity(&self) -> u32
        ensures { result ≡ n_of self.now.setup.order }
    {
        self.setup.shape().n()
    }

    /// What stands at a location of the machine, whose word this is, at one moment of the run.
    #[inline(always)]
    fn look_at(&self, seat: &mut Seat<B>, word: usize) -> u64
        requires seat { seat.old.band ≡ self.now }
        requires low { word < word_count self.now.setup }
        ensures same { seat.new ≡ having_seen seat.new.seen seat.old }
        ensures found { (l : Location) → IsLocation self.now.setup l → word ≡ at self.now.setup l
            → WasFoundInRun self.now.setup (opening_of B.contents self.now.given) l result
            (caller_of seat.old) (caller_of seat.new) }
    {
        find(&self.table.shared, &mut seat.token, word)
    }

    /// About how many indices stand in a ring: a hint, as others put and get meanwhile. It is Tail
    /// less Head, each as it stood at a moment of its own, Head's before Tail's; and no more than
    /// there are buffers. Tickets that found nothing or were not used count too, so it may be too
    /// high, and where gets have drawn tickets past Tail, too low. The seat has seen the run at
    /// both moments, as by two looks. Wait-free: two steps.
    pub fn count(&self, seat: &mut Seat<B>, ring: u32) -> u32
        requires seat { seat.old.band ≡ self.now }
        requires ring { ring < self.now.setup.rings }
        ensures same { seat.new ≡ having_seen seat.new.seen seat.old }
        ensures at_most { result ≤ n_of self.now.setup.order }
        ensures counted { WasCountedInRun self.now.setup (opening_of B.contents self.now.given) ring
            result (caller_of seat.old) (caller_of seat.new) }
    {
        let words = self.ring(ring);
        let head = self.look_at(seat, words.head());
        let tail = self.look_at(seat, words.tail);
        let between = tail.saturating_sub(head);
        let most = self.capacity();
        if between < u64::from(most) {
            between as u32
        } else {
            most
        }
    }
}
