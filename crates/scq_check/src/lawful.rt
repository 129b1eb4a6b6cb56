//! The first event out of place in a list of any length.

ghost use Rattle.std.specs.Prelude.{◌↔◌, ◌<◌, IsTrue, IfOk, IfSome, length, slice_get};
ghost use Rattle.scq_hist.specs.Exports.{SuitsCall, IsLawfulAt, IsFirstFailing};
ghost use Rattle.scq_check.specs.Exports.{IsCalls};

use crate::calls::Calls;
use scq_hist::{Call, Event, Reply};
use scq_word::NoMemory;
use std::alloc::Global;

// Whether a call of this kind may end with the reply.
fn suits(call: &Call, reply: &Reply) -> bool
    ensures { IsTrue result ↔ SuitsCall call.now reply.now }
{
    match call {
        Call::Put { .. } => matches!(reply, Reply::Done | Reply::Spent),
        Call::Get { .. } => matches!(reply, Reply::Got { .. } | Reply::Nothing | Reply::Spent),
    }
}

// Whether the event at this position is lawful there, by what each seat has under way before it.
fn is_lawful_at(calls: &Calls, events: &[Event], e: usize) -> bool
    requires within { e < length events.now }
    requires calls { IsCalls events.now e calls.now }
    ensures { IsTrue result ↔ IsLawfulAt events.now e (slice_get events.now e) }
{
    match &events[e] {
        Event::Start { seat, .. } => calls.under_way(events, e, *seat).is_none(),
        Event::End { seat, reply } => match calls.call_under_way(events, e, *seat) {
            None => false,
            Some(call) => suits(call, reply),
        },
    }
}

/// The position of the first event that isn't lawful: a Start of a seat that has a call under way,
/// or an End that doesn't suit its seat's call or has none. Where there is none the list is lawful,
/// and can be judged. Time grows little faster than the list's length.
pub fn first_unlawful(alloc: Global, events: &[Event]) -> Result<Option<usize>, NoMemory>
    ensures first { IfOk result
        (IsFirstFailing (λ e. IsLawfulAt events.now e (slice_get events.now e))) }
    ensures within { IfOk result (λ first. IfSome first (λ e. e < length events.now)) }
{
    let mut calls = Calls::none(alloc, events)?;
    for e in 0..events.len() {
        if !is_lawful_at(&calls, events, e) {
            return Ok(Some(e));
        }
        calls.add(events, e)?;
    }
    Ok(None)
}
