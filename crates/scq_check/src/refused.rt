//! The Gots that name puts which their queues refused.

ghost use Rattle.std.specs.Prelude.{◌≡◌, ◌+◌, ◌<◌, ◌↔◌, IsTrue, Some, IfOk, OnOk, length};
ghost use Rattle.std.specs.Prelude.{MatchOption, is_some};
ghost use Rattle.scq_hist.specs.Exports.{got_name};
ghost use Rattle.scq_hist.specs.declared.events.PutName.TheVariants.{Of};
ghost use Rattle.scq_check.specs.Exports.{place_in, AreFoundOf, NamesNoPut, IsRefusals};
ghost use Rattle.scq_check.specs.Exports.{IsAcceptedAt, AreOfLawful, HasEvent};

use crate::by_name::ByName;
use crate::failures::Failures;
use crate::tables::Tables;
use scq_hist::{Event, PutName, Reply};
use scq_word::NoMemory;
use std::alloc::Global;

// Where each put that ended with Spent did.
pub(crate) fn refusals(alloc: Global, tables: &Tables, events: &[Event]) -> Result<ByName, NoMemory>
    requires { AreOfLawful events.now tables.now }
    ensures { IfOk result (IsRefusals events.now (length events.now)) }
{
    let mut refusals = ByName::new(alloc);
    for e in 0..events.len() {
        add_refusal(&mut refusals, tables, events, e)?;
    }
    Ok(refusals)
}

// From the events before position e to those up to it.
fn add_refusal(
    refusals: &mut ByName,
    tables: &Tables,
    events: &[Event],
    e: usize,
) -> Result<(), NoMemory>
    requires event { HasEvent events.now tables.now e }
    requires before { IsRefusals events.now e refusals.old }
    ensures { OnOk result (IsRefusals events.now (e + 1) refusals.new) }
{
    if let Some(put) = tables.refused_put(events, e) {
        refusals.set(put.seat, tables.number(events, put.start), e)?;
    }
    Ok(())
}

// The seat and the number of the put that a Got names.
pub(crate) fn named_put(event: &Event) -> Option<(u32, u64)>
    ensures { MatchOption result (NamesNoPut event.now) (λ put.
        got_name event.now ≡ Some (Of put.0 put.1)) }
{
    match event {
        Event::End {
            reply: Reply::Got {
                name: PutName::Of { seat, number },
                ..
            },
            ..
        } => Some((*seat, *number)),
        _ => None,
    }
}

// Whether the put of this name is among them.
pub(crate) fn is_among(refusals: &ByName, seat: u32, number: u64) -> bool
    ensures { result ≡ is_some (place_in refusals.now seat number) }
{
    refusals.get(seat, number).is_some()
}

// Whether the Got that stands at this position, if one does, names no put that was refused.
fn is_accepted_at(refusals: &ByName, events: &[Event], e: usize) -> bool
    requires within { e < length events.now }
    requires refusals { IsRefusals events.now (length events.now) refusals.now }
    ensures { IsTrue result ↔ IsAcceptedAt events.now e }
{
    match named_put(&events[e]) {
        Some((seat, number)) => !is_among(refusals, seat, number),
        None => true,
    }
}

/// The Gots that name puts which ended with Spent.
pub(crate) fn refused_gots(
    alloc: Global,
    tables: &Tables,
    events: &[Event],
) -> Result<Failures, NoMemory>
    requires { AreOfLawful events.now tables.now }
    ensures { IfOk result (AreFoundOf (IsAcceptedAt events.now) events.now) }
{
    let refusals = refusals(alloc, tables, events)?;
    let mut failures = Failures::none();
    for e in 0..events.len() {
        failures = failures.with(e, is_accepted_at(&refusals, events, e));
    }
    Ok(failures)
}
