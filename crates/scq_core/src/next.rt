//! What becomes of a seat after its turn.

ghost use Rattle.std.specs.Prelude.{◌≡◌, ℕ, ◌<◌, false, nat_le, if◌then◌else◌, List};
ghost use Rattle.std.specs.Prelude.{None, unwrap_or};
ghost use Rattle.scq_core.specs.declared.phase.Phase.TheVariants.{AtE2, AtD3};
ghost use Rattle.scq_core.specs.declared.ended.Ended.TheVariants.{Done};
ghost use Rattle.scq_word.specs.Exports.{rank_in, IsIndexOrMark};
ghost use Rattle.scq_core.specs.Machine.{SeatPart};
ghost use Rattle.scq_core.specs.Table.{ring_slots, after, stores, goes_on, spends};
ghost use Rattle.scq_core.specs.Turn.{copied, ends_call, has_ended, part_after, laid_by, IsOfGet};
ghost use Rattle.scq_core.specs.Turn.{HasGivenUp, IsReady};

use crate::ended::Ended;
use crate::phase::Phase;
use crate::table::{ZERO_LEVEL, reset_level};
use scq_word::{Bytes, Setup, cycle_of, rank, unpack};

/// What becomes of a seat after a turn: its call goes on or ends, or keeps the ticket that it drew
/// at or past the limit. Or it has placed an index, which leaves its hand, and `laid` comes to
/// stand beside the entry; or it takes one, and its call ends so.
#[derive(Drop)]
pub enum Next {
    Goes(Phase),
    Ends(Ended),
    Spends {
        ring: u32,
        ticket: u64,
        put: bool,
    },
    Places {
        ring: u32,
        index: u32,
        content: Bytes,
        ticket: u64,
        laid: Bytes,
    },
    Takes {
        ring: u32,
        place: u64,
        index: u32,
        content: Bytes,
    },
}

/// What becomes of a seat after its turn, which found this word. `copy` is a copy of the content
/// that the turn may need twice: a put's own where it may place it, and the one beside the entry
/// where it is taken.
pub fn next_of(setup: &Setup, turn: Phase, found: u64, copy: Bytes) -> Next
    requires { IsReady setup.now turn found }
    ensures part { (beside : List ℕ) → copied turn beside ≡ copy
        → (p : SeatPart) → after setup.now turn found beside p ≡ part_after result p }
    ensures laid { (beside : List ℕ) → copied turn beside ≡ copy
        → unwrap_or (laid_by result) beside ≡ stores turn found beside }
    ensures ends { has_ended result ≡ ends_call setup.now turn found }
{
    match turn {
        Phase::AtE1 {
            ring,
            index,
            content,
            ..
        } => {
            let phase = Phase::AtE2 {
                ring,
                index,
                content,
                ticket: found,
                least: 0,
            };
            drawn(setup, ring, true, found, phase)
        }
        Phase::AtE2 {
            ring,
            index,
            content,
            ticket,
            ..
        } => seen_by_put(setup, ring, index, content, ticket, found),
        Phase::AtE3 {
            ring,
            index,
            content,
            ticket,
            word,
        } => {
            if found <= ticket {
                Next::Goes(Phase::AtE4 {
                    ring,
                    index,
                    content,
                    ticket,
                    word,
                })
            } else {
                Next::Goes(Phase::AtE1 {
                    ring,
                    index,
                    content,
                    least: ticket + 1,
                })
            }
        }
        Phase::AtE4 {
            ring,
            index,
            content,
            ticket,
            word,
        } => {
            if found == word {
                Next::Places {
                    ring,
                    index,
                    content,
                    ticket,
                    laid: copy,
                }
            } else {
                missed_by_put(setup, ring, index, content, ticket, found)
            }
        }
        Phase::AtE5 {
            ring,
            index,
            content,
            ticket,
        } if found != reset_level(setup) => {
            Next::Goes(Phase::AtE6 {
                ring,
                index,
                content,
                ticket,
            })
        }
        Phase::AtE5 {
            ring,
            ticket,
            content,
            ..
        } => finished(ring, ticket, content),
        Phase::AtE6 {
            ring,
            ticket,
            content,
            ..
        } => finished(ring, ticket, content),
        turn => next_of_get(setup, turn, found, copy),
    }
}

/// A call has drawn a ticket, which is the value that it found. Below the limit it goes on so.
fn drawn(setup: &Setup, ring: u32, put: bool, found: u64, phase: Phase) -> Next
    ensures part { (p : SeatPart)
        → (if nat_le setup.now.limit found then spends ring found put p else goes_on phase p)
        ≡ part_after result p }
    ensures laid { laid_by result ≡ None }
    ensures ends { has_ended result ≡ nat_le setup.now.limit found }
{
    if found >= setup.limit() {
        Next::Spends {
            ring,
            ticket: found,
            put,
        }
    } else {
        Next::Goes(phase)
    }
}

/// An enqueue's exchange found another word than it had loaded: it looks again, with the same
/// ticket.
fn missed_by_put(
    setup: &Setup,
    ring: u32,
    index: u32,
    content: Bytes,
    ticket: u64,
    found: u64,
) -> Next
    requires { IsIndexOrMark setup.now.order found }
    ensures { result
        ≡ Next.Goes (AtE2 ring index content ticket (rank_in (ring_slots setup.now) found)) }
{
    let least = rank(unpack(setup.shape(), found));
    Next::Goes(Phase::AtE2 {
        ring,
        index,
        content,
        ticket,
        least,
    })
}

/// An enqueue has placed its index, and Threshold is reset.
fn finished(ring: u32, place: u64, content: Bytes) -> Next
    ensures { result ≡ Next.Ends (Done ring place content) }
{
    Next::Ends(Ended::Done {
        ring,
        place,
        content,
    })
}

/// An enqueue has loaded the entry of its slot: it may fill an earlier cycle's entry without an
/// index, where that is safe, or where no dequeue has passed yet.
fn seen_by_put(
    setup: &Setup,
    ring: u32,
    index: u32,
    content: Bytes,
    ticket: u64,
    found: u64,
) -> Next
    requires below_limit { ticket < setup.now.limit }
    requires entry { IsIndexOrMark setup.now.order found }
    ensures part { (least : ℕ) (beside : List ℕ) (p : SeatPart)
        → after setup.now (AtE2 ring index content ticket least) found beside p
        ≡ part_after result p }
    ensures laid { laid_by result ≡ None }
    ensures ends { has_ended result ≡ false }
{
    let shape = setup.shape();
    let entry = unpack(shape, found);
    if entry.cycle >= cycle_of(shape, ticket) || entry.index.is_some() {
        Next::Goes(Phase::AtE1 {
            ring,
            index,
            content,
            least: ticket + 1,
        })
    } else if entry.safe {
        Next::Goes(Phase::AtE4 {
            ring,
            index,
            content,
            ticket,
            word: found,
        })
    } else {
        Next::Goes(Phase::AtE3 {
            ring,
            index,
            content,
            ticket,
            word: found,
        })
    }
}

/// The same for the turns of a dequeue.
#[tactic(auto, unfolding(crate::specs::Table::zero_level))]
fn next_of_get(setup: &Setup, turn: Phase, found: u64, copy: Bytes) -> Next
    requires ready { IsReady setup.now turn found }
    requires get { IsOfGet turn }
    ensures part { (beside : List ℕ) → copied turn beside ≡ copy
        → (p : SeatPart) → after setup.now turn found beside p ≡ part_after result p }
    ensures laid { (beside : List ℕ) → copied turn beside ≡ copy
        → unwrap_or (laid_by result) beside ≡ stores turn found beside }
    ensures ends { has_ended result ≡ ends_call setup.now turn found }
{
    match turn {
        Phase::AtD1 { ring } => {
            if found < ZERO_LEVEL {
                Next::Ends(Ended::Nothing { ring })
            } else {
                Next::Goes(Phase::AtD2 { ring, least: 0 })
            }
        }
        Phase::AtD2 { ring, .. } => {
            let phase = Phase::AtD3 {
                ring,
                ticket: found,
                least: 0,
            };
            drawn(setup, ring, false, found, phase)
        }
        Phase::AtD3 { ring, ticket, .. } => seen_by_get(setup, ring, ticket, found),
        Phase::AtD4 { ring, ticket } => {
            let shape = setup.shape();
            let index = unpack(shape, found).index.unwrap_or(shape.none());
            Next::Takes {
                ring,
                place: ticket,
                index,
                content: copy,
            }
        }
        Phase::AtD5 { ring, ticket, word } => {
            if found == word {
                Next::Goes(Phase::AtD6 { ring, ticket })
            } else {
                Next::Goes(Phase::AtD3 {
                    ring,
                    ticket,
                    least: rank(unpack(setup.shape(), found)),
                })
            }
        }
        turn => next_of_leaving(setup, turn, found),
    }
}

/// The same for those of a dequeue that has given its ticket up.
#[tactic(auto, unfolding(crate::specs::Table::zero_level))]
fn next_of_leaving(setup: &Setup, turn: Phase, found: u64) -> Next
    requires ready { IsReady setup.now turn found }
    requires leaving { HasGivenUp turn }
    ensures part { (beside : List ℕ) (p : SeatPart)
        → after setup.now turn found beside p ≡ part_after result p }
    ensures laid { (beside : List ℕ)
        → unwrap_or (laid_by result) beside ≡ stores turn found beside }
    ensures ends { has_ended result ≡ ends_call setup.now turn found }
{
    match turn {
        Phase::AtD6 { ring, ticket } => {
            if found <= ticket + 1 {
                Next::Goes(Phase::AtD7 {
                    ring,
                    ticket,
                    from: found,
                    to: ticket + 1,
                })
            } else {
                Next::Goes(Phase::AtD10 {
                    ring,
                    ticket,
                    leaving: false,
                })
            }
        }
        Phase::AtD7 {
            ring,
            ticket,
            from,
            ..
        } => {
            if found == from {
                Next::Goes(Phase::AtD10 {
                    ring,
                    ticket,
                    leaving: true,
                })
            } else {
                Next::Goes(Phase::AtD8 { ring, ticket, from })
            }
        }
        Phase::AtD8 { ring, ticket, from } => Next::Goes(Phase::AtD9 {
            ring,
            ticket,
            from,
            to: found,
        }),
        Phase::AtD9 {
            ring,
            ticket,
            to,
            ..
        } => {
            if found >= to {
                Next::Goes(Phase::AtD10 {
                    ring,
                    ticket,
                    leaving: true,
                })
            } else {
                Next::Goes(Phase::AtD7 {
                    ring,
                    ticket,
                    from: found,
                    to,
                })
            }
        }
        Phase::AtD10 {
            ring,
            leaving: true,
            ..
        } => Next::Ends(Ended::Nothing { ring }),
        Phase::AtD10 {
            ring,
            ticket,
            leaving: false,
        } => {
            if found <= ZERO_LEVEL {
                Next::Ends(Ended::Nothing { ring })
            } else {
                Next::Goes(Phase::AtD2 {
                    ring,
                    least: ticket + 1,
                })
            }
        }
        _ => unreachable!(),
    }
}

/// A dequeue has loaded the entry of its slot: of its own cycle it is taken, an earlier one is
/// passed.
fn seen_by_get(setup: &Setup, ring: u32, ticket: u64, found: u64) -> Next
    requires { IsIndexOrMark setup.now.order found }
    ensures part { (least : ℕ) (beside : List ℕ) (p : SeatPart)
        → after setup.now (AtD3 ring ticket least) found beside p ≡ part_after result p }
    ensures laid { laid_by result ≡ None }
    ensures ends { has_ended result ≡ false }
{
    let shape = setup.shape();
    let cycle = unpack(shape, found).cycle;
    let own = cycle_of(shape, ticket);
    if cycle == own {
        Next::Goes(Phase::AtD4 { ring, ticket })
    } else if cycle < own {
        Next::Goes(Phase::AtD5 {
            ring,
            ticket,
            word: found,
        })
    } else {
        Next::Goes(Phase::AtD6 { ring, ticket })
    }
}
