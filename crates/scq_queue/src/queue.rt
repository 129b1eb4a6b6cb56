//! A queue, and how it is made with its passes.
ghost use Rattle.std.specs.Prelude.{◌≡◌, ℕ, ◌<◌, ◌≤◌, ◌==◌, true, false, [], map, length, Some};
ghost use Rattle.std.specs.Prelude.{None, All, IfOk, IfErr, vec_len, vec_capacity};
ghost use Rattle.scq_word.specs.Exports.{n_of};
ghost use Rattle.scq_band.specs.Standing.{Standing};
ghost use Rattle.scq_band.specs.Exports.{opening_of, IsReadingInRun, with_retiree};
ghost use Rattle.scq_band.specs.Exports.{AllWereSeenRetired};
ghost use Rattle.scq_queue.specs.Passes.{first_passes, after_look, having_seen, caller_of};
ghost use Rattle.scq_queue.specs.Passes.{was_told};
ghost use Rattle.scq_queue.specs.Kept.{pass_over};

use crate::counts::Counts;
use crate::fulls::never;
use crate::pass::Pass;
use scq_band::{Band, Seat};
use scq_word::{Buffer, NoMemory, Setup};
use std::alloc::Global;
use std::marker::Model;

/// A queue of fixed buffers. Threads share it and make calls on it, each with a pass of its own. It
/// must be spent: it ends in `close`.
///
/// `seats`, `counts` and `saw` are empty lists, with room for what `close` needs.
pub struct Queue<B: Buffer> {
    pub(crate) band: Band<B>,
    pub(crate) seats: Vec<Seat<B>>,
    pub(crate) counts: Vec<Counts>,
    pub(crate) saw: Vec<bool>,
}

impl<B: Buffer> Model for Queue<B> {
    ghost use Rattle.std.specs.Prelude.{vec_capacity};
    ghost use Rattle.scq_band.specs.Standing.{Identity};

    ghost Value = { Identity B };

    ghost use Rattle.scq_queue.specs.Kept.{IsQueue};

    ghost view = { λ q. q.band };

    ghost invariant = { λ q. IsQueue q.band q.seats.items (vec_capacity q.seats) q.counts.items
        (vec_capacity q.counts) q.saw.items (vec_capacity q.saw) };
}

/// A pass over a seat that has made no call.
fn pass_of<B: Buffer>(seat: Seat<B>) -> Pass<B>
    requires { (seat.hand ≡ []) × (seat.calls ≡ []) × (was_told seat.gate ≡ false) }
    ensures { result ≡ pass_over seat [] }
{
    Pass {
        seat,
        fulls: never(),
        counts: Counts {
            sent: 0,
            taken: 0,
            full: 0,
        },
        saw: false,
    }
}

/// A pass over each of these seats, in their order. The list of the seats is left empty, with its
/// room.
fn passes_of<B: Buffer>(seats: &mut Vec<Seat<B>>, mut passes: Vec<Pass<B>>) -> Vec<Pass<B>>
    requires new { All (λ s.
        (s.hand ≡ []) × (s.calls ≡ []) × (was_told s.gate ≡ false)) seats.old.items }
    requires empty { passes.items ≡ [] }
    requires room { vec_len seats.old ≤ vec_capacity passes }
    ensures passes { result.items ≡ map (λ s. pass_over s []) seats.old.items }
    ensures emptied { seats.new.items ≡ [] }
    ensures kept { vec_capacity seats.new ≡ vec_capacity seats.old }
{
    seats.reverse();
    while let Some(seat) = seats.pop() {
        passes.push_reserved(pass_of(seat));
    }
    passes
}

impl<B: Buffer> Queue<B> {
    /// A queue with its passes, in the order of their numbers. Buffer i stands for index i; nobody
    /// holds any. Topic t is ring t + 1, so there is one topic less than rings. Without memory all
    /// buffers come back, in order.
    pub fn make(
        alloc: Global,
        setup: Setup,
        buffers: Vec<B>,
    ) -> Result<(Queue<B>, Vec<Pass<B>>), (Vec<B>, NoMemory)>
        requires rings { 2 ≤ setup.rings }
        requires count { vec_len buffers ≡ n_of setup.order }
        ensures queue { IfOk result (λ made.
            (made.0.setup ≡ setup) × (made.0.given ≡ buffers.items)) }
        ensures passes { IfOk result (λ made. made.1.items ≡ first_passes made.0 setup.seats) }
        ensures own { IfOk result (λ made. All (λ p. p.queue ≡ made.0) made.1.items) }
        ensures refused { IfErr result (λ refused. refused.0.items ≡ buffers.items) }
    {
        let passes = match Vec::with_capacity(alloc, setup.seats() as usize) {
            Ok(passes) => passes,
            Err(_) => return Err((buffers, NoMemory)),
        };
        let Ok(counts) = Vec::with_capacity(alloc, setup.seats() as usize) else {
            passes.destroy_empty();
            return Err((buffers, NoMemory));
        };
        let Ok(saw) = Vec::with_capacity(alloc, setup.seats() as usize) else {
            passes.destroy_empty();
            return Err((buffers, NoMemory));
        };
        match Band::make(alloc, setup, buffers) {
            Ok((band, mut seats)) => {
                let passes = passes_of(&mut seats, passes);
                let queue = Queue {
                    band,
                    seats,
                    counts,
                    saw,
                };
                Ok((queue, passes))
            }
            Err(refused) => {
                passes.destroy_empty();
                Err(refused)
            }
        }
    }

    /// The pass sends no more. It still lends, takes and gives back. Marks and notes of it carry
    /// that it has retired.
    pub fn retire(&self, pass: &mut Pass<B>)
        requires pass { pass.old.queue ≡ self.now }
        requires stays { pass.old.retired ≡ None }
        ensures { pass.new ≡ record pass.old {
          retired = Some (length pass.old.calls);
          seen = with_retiree (pass.old.number, length pass.old.calls) pass.old.seen;
        } }
    {
        self.band.retire(&mut pass.seat);
    }

    /// Whether every pass had retired: so where the number of those that had not, as it was read at
    /// this call's one step, was 0. It is kept, and never rises. The pass has then seen a run with
    /// all calls that the retired passes made before they retired. Where it had seen each pass
    /// retired, by marks, notes or readings, the answer is true (the clause `told`). Where a pass
    /// was told so, `close` says that every pass has retired.
    pub fn closed(&self, pass: &mut Pass<B>) -> bool
        requires pass { pass.old.queue ≡ self.now }
        ensures looked { (found : ℕ)
            × (pass.new ≡ having_seen pass.new.seen (after_look found pass.old))
            × (result ≡ (found == 0)) }
        ensures in_run { (found : ℕ) → pass.new.gate ≡ Some found
            → IsReadingInRun self.now.setup (opening_of B.contents self.now.given) pass.old.retired
            (caller_of pass.old) (caller_of pass.new) found }
        ensures told { AllWereSeenRetired self.now.setup pass.old.seen → result ≡ true }
        ensures fell { (last found : ℕ) → pass.old.gate ≡ Some last → pass.new.gate ≡ Some found
            → found ≤ last }
        ensures own { (calls found : ℕ) → pass.old.retired ≡ Some calls → pass.new.gate ≡ Some found
            → found < self.now.setup.seats }
    {
        let closed = self.band.gate_closed(&mut pass.seat);
        pass.saw = closed;
        closed
    }
}
