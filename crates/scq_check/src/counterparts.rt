//! What the first event that breaks an aspect stands against.

ghost use Rattle.std.specs.Prelude.{◌<◌, length, IfOk, IfSome};
ghost use Rattle.scq_hist.specs.Exports.{IsOnceAt, IsInOrderAt, IsEmptyRightAt};
ghost use Rattle.scq_check.specs.Counterparts.{IsOrigin, IsOfOrigin, IsOriginWithin, IsRepeatOf};
ghost use Rattle.scq_check.specs.Counterparts.{IsOvertaking, IsEmptyBeside, IsOfRefused, AtFirst};
ghost use Rattle.scq_check.specs.Counterparts.{NamesNone};
ghost use Rattle.scq_check.specs.Failures.{AreFailures};
ghost use Rattle.scq_check.specs.Refused.{IsAcceptedAt};
ghost use Rattle.scq_check.specs.Tables.{AreOfLawful, IsTables};
ghost use Rattle.scq_check.specs.Waiting.{IsToldWithin};

use crate::failures::Failures;
use crate::order::{empty_at, put_got_at};
use crate::refused::{named_put, refusals};
use crate::tables::Tables;
use crate::waiting::{Waiting, find_waiting};
use scq_hist::{Event, PutName, got_name};
use scq_word::{Bytes, NoMemory};
use std::alloc::Global;

/// Where a put that a Got names was put.
#[derive(Clone, Copy)]
pub enum Origin {
    /// By nobody.
    Nobody,
    /// It is the opening token of this number, from 0.
    Token { number: u32 },
    /// Its Start stands at this position.
    Start { position: usize },
}

/// What the first event that breaks an aspect stands against, where one does.
#[derive(Clone, Copy)]
pub struct Counterparts {
    /// Where the put that the Got names was put.
    pub fresh: Option<Origin>,
    /// The position of the first Got that names the same put.
    pub once: Option<usize>,
    /// The puts that were finished before the one that was got had started, and wait when its get
    /// ends.
    pub in_order: Option<Waiting>,
    /// Where the put that was got, which overtakes them, was put.
    pub overtaker: Option<Origin>,
    /// The puts that are finished when the get ends with Nothing, and wait then.
    pub empty_right: Option<Waiting>,
    /// The position at which the put that the Got names ended with Spent.
    pub accepted: Option<usize>,
}

// Where the put of this name was put.
fn origin_of(tables: &Tables, opening: &[Bytes], events: &[Event], name: PutName) -> Origin
    requires { IsTables events.now tables.now }
    ensures origin { IsOrigin opening.now events.now name result }
    ensures within { IsOriginWithin (length events.now) result }
{
    match name {
        PutName::Opening { number } => {
            if (number as usize) < opening.len() {
                Origin::Token { number }
            } else {
                Origin::Nobody
            }
        }
        PutName::Of { seat, number } => match tables.put_named(events, seat, number) {
            Some((position, _, _)) => Origin::Start { position },
            None => Origin::Nobody,
        },
    }
}

/// Of the Gots that break an aspect: where the put that the first of them names was put.
pub(crate) fn origin_of_first(
    tables: &Tables,
    opening: &[Bytes],
    events: &[Event],
    gots: &Failures,
) -> Option<Origin>
    requires tables { IsTables events.now tables.now }
    requires named { IfSome gots.now.first (λ e. ¬ (NamesNone events.now e)) }
    requires within { IfSome gots.now.first (λ e. e < length events.now) }
    ensures first { AtFirst (IsOfOrigin opening.now events.now) gots.now.first result }
    ensures within { IfSome result (IsOriginWithin (length events.now)) }
{
    let e = gots.first?;
    let name = got_name(&events[e])?;
    Some(origin_of(tables, opening, events, name))
}

/// Of the Gots that name the put of an earlier one: the first Got that names the put of the first
/// of them.
pub(crate) fn named_first(tables: &Tables, events: &[Event], repeated: &Failures) -> Option<usize>
    requires tables { IsTables events.now tables.now }
    requires failures { AreFailures (IsOnceAt events.now) repeated.now }
    requires within { IfSome repeated.now.first (λ e. e < length events.now) }
    ensures first { AtFirst (IsRepeatOf events.now) repeated.now.first result }
    ensures within { IfSome result (λ d. d < length events.now) }
{
    let e = repeated.first?;
    let name = got_name(&events[e])?;
    tables.first_named(events, name)
}

/// Of the Gots that overtake: the puts that the first of them has overtaken.
pub(crate) fn overtaken(
    tables: &Tables,
    opening: &[Bytes],
    events: &[Event],
    overtaking: &Failures,
) -> Option<Waiting>
    requires known { AreOfLawful events.now tables.now }
    requires failures { AreFailures (IsInOrderAt opening.now events.now) overtaking.now }
    requires within { IfSome overtaking.now.first (λ e. e < length events.now) }
    ensures first { AtFirst (IsOvertaking opening.now events.now) overtaking.now.first result }
    ensures within { IfSome result (IsToldWithin (length events.now)) }
{
    let e = overtaking.first?;
    let (start, queue) = put_got_at(tables, events, e)?;
    Some(find_waiting(tables, opening, events, queue, start, e))
}

/// Of the wrong Empties: the puts that wait when the first of them ends.
pub(crate) fn waiting_beside(
    tables: &Tables,
    opening: &[Bytes],
    events: &[Event],
    wrong: &Failures,
) -> Option<Waiting>
    requires known { AreOfLawful events.now tables.now }
    requires failures { AreFailures (IsEmptyRightAt opening.now events.now) wrong.now }
    requires within { IfSome wrong.now.first (λ e. e < length events.now) }
    ensures first { AtFirst (IsEmptyBeside opening.now events.now) wrong.now.first result }
    ensures within { IfSome result (IsToldWithin (length events.now)) }
{
    let e = wrong.first?;
    let (_, queue) = empty_at(tables, events, e)?;
    Some(find_waiting(tables, opening, events, queue, e, e))
}

/// Of the Gots that name refused puts: where the put of the first of them was refused.
pub(crate) fn refused_first(
    alloc: Global,
    tables: &Tables,
    events: &[Event],
    refused: &Failures,
) -> Result<Option<usize>, NoMemory>
    requires known { AreOfLawful events.now tables.now }
    requires failures { AreFailures (IsAcceptedAt events.now) refused.now }
    requires within { IfSome refused.now.first (λ e. e < length events.now) }
    ensures first { IfOk result (AtFirst (IsOfRefused events.now) refused.now.first) }
    ensures within { IfOk result (λ told. IfSome told (λ d. d < length events.now)) }
{
    let Some(e) = refused.first else {
        return Ok(None);
    };
    let refusals = refusals(alloc, tables, events)?;
    match named_put(&events[e]) {
        Some((seat, number)) => Ok(refusals.get(seat, number)),
        None => Ok(None),
    }
}
