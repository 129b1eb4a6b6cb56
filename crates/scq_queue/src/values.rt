//! Values that a seat gets off a ring and puts on one. Their buffers are lifted while they are
//! held.
ghost use Rattle.std.specs.Prelude.{◌≡◌, ℕ, List, ◌<◌, Some, None, Err, IfOk, IfErr};
ghost use Rattle.scq_queue.specs.Exports.{IsHeldBy, CameOff, WasPutOn, FoundRingEmpty, GetWasSpent};
ghost use Rattle.scq_queue.specs.Exports.{IsInRun, PutWasSpent, pass_over, AreLifted, StaysLifted};

use crate::held::Held;
use scq_band::{Band, DeqRefusal, Seat, Spent};
use scq_word::Buffer;
use std::snapshot::Snapshot;

/// Gets a value off a ring: answers its place, and the value.
#[inline(always)]
pub fn get<B: Buffer>(
    band: &Band<B>,
    seat: &mut Seat<B>,
    ring: u32,
) -> Result<(u64, Held<B>), DeqRefusal>
    requires seat { seat.old.band ≡ band.now }
    requires lifted { AreLifted seat.old }
    requires ring { ring < band.now.setup.rings }
    ensures stays { StaysLifted seat.old seat.new }
    ensures got { IfOk result (λ r. (fulls : List ℕ) → CameOff B.contents B.IsSameBuffer band.now
        ring r.0 (pass_over seat.old fulls) (pass_over seat.new fulls) r.1) }
    ensures empty { (head : ℕ) → result ≡ Err (DeqRefusal.Empty head) → (fulls : List ℕ)
        → FoundRingEmpty B.contents band.now ring head (pass_over seat.old fulls)
        (pass_over seat.new fulls) }
    ensures spent { (ticket : ℕ) → result ≡ Err (DeqRefusal.Spent ticket) → (fulls : List ℕ)
        → GetWasSpent band.now ring ticket (pass_over seat.old fulls) (pass_over seat.new fulls) }
    ensures run { seat.old.spent ≡ None → (fulls : List ℕ)
        → IsInRun B.contents band.now (pass_over seat.old fulls) (pass_over seat.new fulls) }
    ensures kept { (ticket : ℕ) → seat.old.spent ≡ Some ticket
        → (result ≡ Err (DeqRefusal.Spent ticket)) × (seat.new ≡ seat.old) }
{
    match band.get(seat, ring) {
        Ok((place, index, buffer)) => {
            let held = Held {
                index,
                buffer,
                owner: Snapshot::of(seat),
            };
            Ok((place, held))
        }
        Err(refusal) => Err(refusal),
    }
}

/// Puts a value that the seat holds on a ring: answers its place. Where it is refused, it comes
/// back as it was.
#[inline(always)]
pub fn put<B: Buffer>(
    band: &Band<B>,
    seat: &mut Seat<B>,
    ring: u32,
    held: Held<B>,
) -> Result<u64, (Held<B>, Spent)>
    requires seat { seat.old.band ≡ band.now }
    requires lifted { AreLifted seat.old }
    requires ring { ring < band.now.setup.rings }
    requires held { (fulls : List ℕ) × IsHeldBy (pass_over seat.old fulls) held }
    ensures stays { StaysLifted seat.old seat.new }
    ensures put { IfOk result (λ place. (fulls : List ℕ) → WasPutOn band.now ring place held.index
        (B.contents held.buffer) (pass_over seat.old fulls) (pass_over seat.new fulls)) }
    ensures back { IfErr result (λ refused. refused.0 ≡ held) }
    ensures spent { IfErr result (λ refused. (fulls : List ℕ) → PutWasSpent band.now ring
        refused.1.ticket (pass_over seat.old fulls) (pass_over seat.new fulls)) }
    ensures run { seat.old.spent ≡ None → (fulls : List ℕ)
        → IsInRun B.contents band.now (pass_over seat.old fulls) (pass_over seat.new fulls) }
    ensures kept { (ticket : ℕ) → seat.old.spent ≡ Some ticket
        → (result ≡ Err (held, record { ticket = ticket })) × (seat.new ≡ seat.old) }
{
    let Held {
        index,
        buffer,
        owner,
    } = held;
    match band.put(seat, ring, index, buffer) {
        Ok(place) => Ok(place),
        Err((buffer, spent)) => {
            let held = Held {
                index,
                buffer,
                owner,
            };
            Err((held, spent))
        }
    }
}
