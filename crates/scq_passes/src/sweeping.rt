//! Sweeps: topics are taken from until nothing is there.
ghost use Rattle.std.specs.Prelude.{◌≡◌, ◌+◌, ◌≤◌, ◌<◌, ℕ, true, false, Ok, IfErr, OnOk};
ghost use Rattle.scq_queue.specs.Exports.{known_on};
ghost use Rattle.scq_passes.specs.Calls.{HasTakenFollowed, Suits, takes_left};
ghost use Rattle.scq_passes.specs.Leaving.{HasOnlyCalled, HasSweptLast, TookNothing};
ghost use Rattle.scq_passes.specs.Taking.{HasEmptied, HasEmptiedAll, HasTakenFrom};
ghost use Rattle.scq_passes.specs.Waiting.{TookMore};

use crate::AtLimit;
use crate::taker::Taker;
use scq_word::Buffer;

/// How many sweeps in a row that take nothing let a worker leave.
const MOST_IDLE: u32 = 64;

/// Takes from a topic until nothing is there. Whether anything was.
fn sweep_topic<C, B: Buffer, T: Taker<C, B>>(
    taker: &mut T,
    with: &C,
    topic: u32,
) -> Result<bool, AtLimit<B>>
    requires suits { Suits (T.queue with.now) (T.declared with.now) (T.pass taker.old) }
    requires topic { topic ≤ T.declared with.now }
    ensures taken { OnOk result (HasTakenFollowed T.follows (T.pass taker.old) (T.pass taker.new)) }
    ensures made { OnOk result (T.made with.now taker.old taker.new) }
    ensures only { OnOk result
        (HasOnlyCalled B.contents (T.queue with.now) (T.pass taker.old) (T.pass taker.new)) }
    ensures emptied { OnOk result (HasEmptied topic (T.pass taker.old) (T.pass taker.new)) }
    ensures some { result ≡ Ok true → HasTakenFrom (T.queue with.now).setup.limit topic
        (T.pass taker.old) (T.pass taker.new) }
    ensures nothing { result ≡ Ok false → TookNothing (T.pass taker.old) (T.pass taker.new) }
    ensures left { IfErr result (λ l. T.left with.now taker.old taker.new l.held) }
{
    let mut some = false;
    'takes: loop {
        let more = taker.take_once(with, topic)?;
        if more {
            some = true;
        } else {
            return Ok(some);
        }
    }
}

/// Takes from each of so many topics until nothing is there. Whether anything was in any.
pub fn sweep<C, B: Buffer, T: Taker<C, B>>(
    taker: &mut T,
    with: &C,
    topics: u32,
) -> Result<bool, AtLimit<B>>
    requires suits { Suits (T.queue with.now) (T.declared with.now) (T.pass taker.old) }
    requires topics { topics ≡ T.declared with.now + 1 }
    ensures taken { OnOk result (HasTakenFollowed T.follows (T.pass taker.old) (T.pass taker.new)) }
    ensures made { OnOk result (T.made with.now taker.old taker.new) }
    ensures emptied { OnOk result (HasEmptiedAll topics (T.pass taker.old) (T.pass taker.new)
        × HasOnlyCalled B.contents (T.queue with.now) (T.pass taker.old) (T.pass taker.new)) }
    ensures some { result ≡ Ok true → TookMore (T.pass taker.old) (T.pass taker.new)
        × (takes_left (T.queue with.now).setup.limit topics (T.pass taker.new)
        < takes_left (T.queue with.now).setup.limit topics (T.pass taker.old)) }
    ensures nothing { result ≡ Ok false → TookNothing (T.pass taker.old) (T.pass taker.new) }
    ensures left { IfErr result (λ l. T.left with.now taker.old taker.new l.held) }
{
    let mut some = false;
    'swept: for topic in 0..topics {
        let more = sweep_topic(taker, with, topic)?;
        some = some || more;
    }
    Ok(some)
}

/// Sweeps so many topics, and leaves after a sweep before which every worker had retired, or after
/// 64 in a row that took nothing.
pub fn sweep_out<C, B: Buffer, T: Taker<C, B>>(
    taker: &mut T,
    with: &C,
    topics: u32,
) -> Result<(), AtLimit<B>>
    requires suits { Suits (T.queue with.now) (T.declared with.now) (T.pass taker.old) }
    requires topics { topics ≡ T.declared with.now + 1 }
    ensures taken { OnOk result (HasTakenFollowed T.follows (T.pass taker.old) (T.pass taker.new)) }
    ensures made { OnOk result (T.made with.now taker.old taker.new) }
    ensures past { OnOk result ((t : ℕ) → t < topics
        → (known_on t (T.pass taker.new)).finished < (known_on t (T.pass taker.new)).head) }
    ensures swept { OnOk result (HasSweptLast B.contents (T.queue with.now) T.follows topics 64
        (T.pass taker.old) (T.pass taker.new)) }
    ensures left { IfErr result (λ l. T.left with.now taker.old taker.new l.held) }
{
    let mut idle = 0;
    'sweeps: loop {
        let over = taker.closed(with);
        let some = sweep(taker, with, topics)?;
        idle = if some { 0 } else { idle + 1 };
        if over || idle == MOST_IDLE {
            break;
        }
    }
    Ok(())
}
