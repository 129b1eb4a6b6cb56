//! How a worker waits in place of leaving early, whoever it is.
ghost use Rattle.std.specs.Prelude.{◌≡◌, ◌==◌, ◌&&◌, ℕ, ◌+◌, length, IfErr, OnOk};
ghost use Rattle.scq_passes.specs.Exports.{HasTakenFollowed, Suits};
ghost use Rattle.scq_rest.specs.Exports.{HasSweptOut, HasSweptTold};
ghost use Rattle.scq_worker.specs.Exports.{but_wakes, others_more_where};

use crate::awaited::Awaited;
use scq_park::{Crew, Stand};
use scq_passes::{AtLimit, Taker, sweep};
use scq_word::Buffer;
use scq_worker::wake_others;
use std::sync::Wait;

/// Sweeps so many topics until all have retired, and rests once after each sweep that took nothing,
/// and after no other. It leaves only after a sweep before which all had retired: where no wake
/// comes it never returns: so no worker that this thread runs may be awaited by others.
///
/// Where its first question is answered so, it wakes all others, of so many. The last worker that
/// retires asks behind that, and so is one of those: whoever was told before that not all had
/// retired is woken behind its question, and asks again, whether it rests or is about to.
pub fn sweep_and_rest<C, B: Buffer, T: Taker<C, B>, R: Wait>(
    taker: &mut T,
    with: &C,
    topics: u32,
    rt: &R,
    crew: &Crew,
    stand: &mut Stand,
    workers: u32,
    _awaited: &Awaited,
) -> Result<(), AtLimit<B>>
    requires suits { Suits (T.queue with.now) (T.declared with.now) (T.pass taker.old) }
    requires topics { topics ≡ T.declared with.now + 1 }
    requires stand { stand.old.crew ≡ crew.now }
    requires workers { length crew.now ≡ workers }
    requires none { _awaited.now ≡ 0 }
    ensures taken { OnOk result (HasTakenFollowed T.follows (T.pass taker.old) (T.pass taker.new)) }
    ensures made { OnOk result (T.made with.now taker.old taker.new) }
    ensures out { OnOk result (HasSweptOut topics stand.old.rests stand.new.rests
        (T.pass taker.old) (T.pass taker.new)) }
    ensures swept { OnOk result ((rests : ℕ) × (stand.new.rests ≡ stand.old.rests + rests)
        × HasSweptTold B.contents (T.queue with.now) T.follows topics rests
        (T.pass taker.old) (T.pass taker.new)) }
    ensures left { IfErr result (λ l. T.left with.now taker.old taker.new l.held) }
    ensures stand { (stand.new.crew ≡ stand.old.crew) × (stand.new.worker ≡ stand.old.worker) }
    ensures rung { OnOk result (stand.new.wakes
        ≡ others_more_where ((T.pass taker.new).gates == (T.pass taker.old).gates + 1)
        stand.old.worker workers stand.old.wakes) }
{
    let mut first = true;
    'sweeps: for _ in rt.forever() {
        let over = taker.closed(with);
        wake_at_first(over, first, crew, stand, workers);
        first = false;
        let some = sweep(taker, with, topics)?;
        if over {
            return Ok(());
        }
        if !some {
            crew.rest(rt, stand);
        }
    }
    unreachable!()
}

/// Wakes all others, of so many workers, where all have retired, and this was asked first.
fn wake_at_first(over: bool, first: bool, crew: &Crew, stand: &mut Stand, workers: u32)
    requires stand { stand.old.crew ≡ crew.now }
    requires workers { length crew.now ≡ workers }
    ensures kept { but_wakes stand.new ≡ but_wakes stand.old }
    ensures rung { stand.new.wakes
        ≡ others_more_where (over && first) stand.old.worker workers stand.old.wakes }
{
    if over && first {
        wake_others(crew, stand, workers);
    }
}
