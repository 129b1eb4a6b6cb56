//! Two passes on one thread, and what each can say of the other. The first sends a number; the
//! second heeds a mark of the first before it takes; then the two meet.
ghost use Rattle.std.specs.Prelude.{◌≡◌, ◌≤◌, [], ◌∷◌, None, IfOk, IfErr, vec_capacity};
ghost use Rattle.std.specs.Option.{option_to_list};
ghost use Rattle.scq_band.specs.Exports.{opening_of, IsCallInRun, both_seen};
ghost use Rattle.scq_queue.specs.HoldsJust.{HoldsJust};
ghost use Rattle.scq_queue.specs.Exports.{first_passes, having_seen, caller_of};
ghost use Rattle.example_queue.specs.Values.{IsMadeAnew};

use crate::{Made, give_in, sent, two_of};
use scq_queue::{HeapBuffer, Held, Mark, Pass, Queue, TakeRefusal};
use scq_word::Buffer;

/// The number that is sent.
const NUMBER: u8 = 7;

/// Sends the number. Where tickets have run out the buffer comes back.
fn number_sent(queue: &Queue<HeapBuffer>, pass: &mut Pass<HeapBuffer>) -> Option<Held<HeapBuffer>>
    requires rings { queue.now.setup.rings ≡ 2 }
    requires pass { HoldsJust queue.now pass.old [] }
    ensures { HoldsJust queue.now pass.new (option_to_list result) }
{
    match sent(queue, pass, NUMBER) {
        Ok(_) => None,
        Err(held) => Some(held),
    }
}

/// Takes behind a mark: all that the two passes had seen lies in the run before this take. So where
/// it finds nothing, each send that had ended there was taken, or was claimed by a take under way.
fn taken_behind<B: Buffer>(
    queue: &Queue<B>,
    pass: &mut Pass<B>,
    mark: Mark,
) -> Result<(u64, Held<B>), TakeRefusal>
    requires rings { queue.now.setup.rings ≡ 2 }
    requires pass { HoldsJust queue.now pass.old [] }
    requires mark { mark.table ≡ queue.now.table }
    ensures took { IfOk result (λ r. HoldsJust queue.now pass.new (r.1 ∷ [])) }
    ensures refused { IfErr result (λ _. HoldsJust queue.now pass.new []) }
    ensures behind { pass.old.spent ≡ None
        → IsCallInRun queue.now.setup (opening_of B.contents queue.now.given)
        (caller_of (having_seen (both_seen pass.old.seen mark.seen) pass.old))
        (caller_of pass.new) }
{
    queue.heed(pass, mark);
    queue.take(pass, 0)
}

/// Takes a number behind a mark, and the value that the pass then holds.
fn number_behind(
    queue: &Queue<HeapBuffer>,
    pass: &mut Pass<HeapBuffer>,
    mark: Mark,
) -> (Option<u8>, Option<Held<HeapBuffer>>)
    requires rings { queue.now.setup.rings ≡ 2 }
    requires pass { HoldsJust queue.now pass.old [] }
    requires mark { mark.table ≡ queue.now.table }
    ensures { HoldsJust queue.now pass.new (option_to_list result.1) }
{
    match taken_behind(queue, pass, mark) {
        Ok((_, held)) => (held.bytes().first().copied(), Some(held)),
        Err(_) => (None, None),
    }
}

/// The first pass sends, the second takes behind its mark, and they meet: from now on, of any two
/// runs that they had seen, one is a prefix of the other. The number that was taken.
pub fn tell_by_a_mark(mut made: Made) -> Option<u8>
    requires new { IsMadeAnew made }
{
    let (mut first, mut second) = two_of(&mut made.passes);
    let kept = number_sent(&made.queue, &mut first);
    let mark = made.queue.mark(&mut first);
    let (number, taken) = number_behind(&made.queue, &mut second, mark);
    made.queue.meet(&mut first, &mut second);
    give_in(first, kept, &mut made.passes, &mut made.values);
    give_in(second, taken, &mut made.passes, &mut made.values);
    let Made {
        queue,
        passes,
        values,
    } = made;
    let _closed = queue.close(passes, values);
    number
}
