//! The end of a queue: its passes and the values that are still held come back, and its buffers are
//! handed out.
ghost use Rattle.std.specs.Prelude.{◌≡◌, ◌≤◌, [], map, All, vec_len, vec_capacity};
ghost use Rattle.scq_band.specs.Exports.{IsOneRunToTheEnd, opening_of};
ghost use Rattle.scq_queue.specs.Lists.{counts_of};
ghost use Rattle.scq_queue.specs.Passes.{lists_of, was_told};
ghost use Rattle.scq_queue.specs.Closing.{AllFullsStand, AreTheHeld, records_of, all_held};
ghost use Rattle.scq_queue.specs.Closing.{callers_of, ComeBack, SentAndTook, NoneIsLost};
ghost use Rattle.scq_queue.specs.Closing.{KeptSpeakOfTheLimit, RetiredAsTold};
ghost use Rattle.scq_queue.specs.Kept.{seat_of_pass, HasGivenBuffer};

use crate::counts::Counts;
use crate::held::Held;
use crate::pass::Pass;
use crate::queue::Queue;
use scq_band::{BandClosed, Seat};
use scq_word::Buffer;
use std::snapshot::Snapshot;

/// What is left of a queue: its buffers in order of index, for each ring how many indices were left
/// in it, and of each pass the counts, and whether it saw that all had retired. `passes` are the
/// passes as they came, for contracts alone: it has no bytes when the program runs.
#[derive(Drop)]
pub struct Closed<B: Buffer> {
    pub buffers: Vec<B>,
    pub left: Vec<u64>,
    pub counts: Vec<Counts>,
    pub saw: Vec<bool>,
    pub passes: Snapshot<Vec<Pass<B>>>,
}

/// The seats of these passes, their counts and what they saw, in their order, put into empty lists
/// with room.
fn unpack<B: Buffer>(
    mut passes: Vec<Pass<B>>,
    seats: &mut Vec<Seat<B>>,
    counts: &mut Vec<Counts>,
    saw: &mut Vec<bool>,
)
    requires empty { (seats.old.items ≡ []) × (counts.old.items ≡ []) × (saw.old.items ≡ []) }
    requires room { (vec_len passes ≤ vec_capacity seats.old)
        × (vec_len passes ≤ vec_capacity counts.old) × (vec_len passes ≤ vec_capacity saw.old) }
    ensures seats { seats.new.items ≡ map seat_of_pass passes.items }
    ensures counts { counts.new.items ≡ map (λ p. counts_of (lists_of p)) passes.items }
    ensures saw { saw.new.items ≡ map (λ p. was_told p.gate) passes.items }
    ensures fulls { AllFullsStand passes.items }
{
    passes.reverse();
    while let Some(pass) = passes.pop() {
        let Pass {
            seat,
            fulls: _fulls,
            counts: its,
            saw: closed,
        } = pass;
        seats.push_reserved(seat);
        counts.push_reserved(its);
        saw.push_reserved(closed);
    }
    passes.destroy_empty();
}

/// For contracts alone: each value's buffer is the same as the one given for its index.
fn all_given<B: Buffer>(held: &[Held<B>])
    ensures { All (HasGivenBuffer B.IsSameBuffer) held.now }
{
    for value in held {
        value.is_given();
    }
}

impl<B: Buffer> Queue<B> {
    /// Closes a queue whose passes and held values all come back. All buffers are handed out. Takes
    /// no memory.
    ///
    /// The clauses read what the passes did together, in the order in which they are given. One run
    /// stands behind all their calls: what each pass had seen are prefixes of it, its history has
    /// the four aspects, and the calls of each ring, but those that ended with Spent, stand in one
    /// order in which every reply is a plain queue's.
    pub fn close(self, passes: Vec<Pass<B>>, held: Vec<Held<B>>) -> Closed<B>
        requires passes { All (λ p. p.queue ≡ self) passes.items }
        requires all { vec_len passes ≡ self.setup.seats }
        requires held { AreTheHeld self passes.items held.items }
        ensures run { IsOneRunToTheEnd self.setup (opening_of B.contents self.given)
            (callers_of passes.items) (records_of passes.items)
            (all_held passes.items) (map B.contents result.buffers.items) }
        ensures back { ComeBack B.contents B.IsSameBuffer self.given passes.items held.items
            result.buffers.items result.counts.items result.saw.items result.passes.value.items }
        ensures sent { SentAndTook self.setup passes.items result.left.items }
        ensures values { NoneIsLost self.setup (opening_of B.contents self.given) passes.items
            held.items result.left.items (map B.contents result.buffers.items) }
        ensures spent { KeptSpeakOfTheLimit self.setup passes.items }
        ensures retired { RetiredAsTold passes.items }
    {
        let Queue {
            band,
            mut seats,
            mut counts,
            mut saw,
        } = self;
        let given = Snapshot::of(&passes);
        all_given(&held);
        unpack(passes, &mut seats, &mut counts, &mut saw);
        let BandClosed { buffers, left } = band.close_lifted(seats, held);
        Closed {
            buffers,
            left,
            counts,
            saw,
            passes: given,
        }
    }
}
