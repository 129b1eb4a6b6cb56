//! The four aspects of a history judged, and the verdict printed.

ghost use Rattle.std.specs.Prelude.{◌≡◌, ◌+◌, ◌++◌, ◌<◌, ◌^◌, length, IfOk, IfSome};
ghost use Rattle.std.specs.Prelude.{OnOk, is_some};
ghost use Rattle.std.specs.Option.{option_map};
ghost use Rattle.scq_hist.specs.Exports.{IsLawful};
ghost use Rattle.scq_check.specs.Found.{AreFound};
ghost use Rattle.scq_check.specs.Tables.{AreOfLawful};
ghost use Rattle.scq_check.specs.Verdicts.{AreBreaches, AreWithin, IsVerdictOf, TellsWhatHolds};
ghost use Rattle.scq_check.specs.Verdicts.{aspect_line, verdict_lines};

use crate::counterparts::{
    Counterparts, named_first, origin_of_first, overtaken, refused_first, waiting_beside,
};
use crate::endings::{Endings, count_endings};
use crate::failures::Failures;
use crate::freshness::{is_fresh_at, is_once_at};
use crate::order::{is_empty_right_at, is_in_order_at, tallies_before};
use crate::queues::Queues;
use crate::refused::refused_gots;
use crate::tables::Tables;
use crate::tokens::{is_token_in_order_at, token_tallies};
use itoa::Buffer;
use scq_hist::Event;
use scq_word::{Bytes, NoMemory};
use std::alloc::Global;

/// What is judged of a history: for each aspect none where it holds, else the number, from 1, of
/// the first event that breaks it.
#[derive(Clone, Copy)]
pub struct Verdict {
    /// The first Got that names no put of its queue and content that is an opening token or began
    /// before.
    pub fresh: Option<u64>,
    /// The first Got that names the put of an earlier one.
    pub once: Option<u64>,
    /// The first Got that is the get of a put before which others had to be claimed, and weren't.
    pub in_order: Option<u64>,
    /// The first Empty in whose call there is no moment at which all finished puts were claimed.
    pub empty_right: Option<u64>,
}

/// What breaks each aspect of a history, the events that name refused puts, and how its calls end.
#[derive(Clone, Copy)]
pub struct Breaches {
    /// The Gots that name no put of their queue and content that is an opening token or began
    /// before.
    pub fresh: Failures,
    /// The Gots that name the put of an earlier one.
    pub once: Failures,
    /// The Gots that are the gets of puts before which others had to be claimed, and weren't.
    pub in_order: Failures,
    /// The Empties in whose calls there is no moment at which all finished puts were claimed.
    pub empty_right: Failures,
    /// The Gots that name puts which ended with Spent.
    pub accepted: Failures,
    /// The Gots that are the gets of opening tokens before which others had to be claimed, and
    /// weren't.
    pub opening: Failures,
    /// How many calls end in each way.
    pub endings: Endings,
    /// What the first of each stands against.
    pub counterparts: Counterparts,
}

/// The events that break each of the four aspects, and the order of the opening tokens.
#[derive(Clone, Copy)]
pub(crate) struct Found {
    pub(crate) fresh: Failures,
    pub(crate) once: Failures,
    pub(crate) in_order: Failures,
    pub(crate) empty_right: Failures,
    pub(crate) opening: Failures,
}

// The events that break them, by the tables of the history.
fn find(
    alloc: Global,
    tables: &Tables,
    opening: &[Bytes],
    events: &[Event],
) -> Result<Found, NoMemory>
    requires { AreOfLawful events.now tables.now }
    ensures { IfOk result (AreFound opening.now events.now) }
{
    let tallies = tallies_before(alloc, tables, opening, events)?;
    let tokens = token_tallies(alloc, tables, opening, events)?;
    let mut queues = Queues::new(alloc, tables, opening, events);
    let none = Failures::none();
    let mut found = Found {
        fresh: none,
        once: none,
        in_order: none,
        empty_right: none,
        opening: none,
    };
    for e in 0..events.len() {
        let in_order = is_in_order_at(tables, events, &tallies, &queues, e);
        let empty_right = is_empty_right_at(tables, events, &queues, e);
        let token = is_token_in_order_at(tables, opening, events, &tokens, &queues, e);
        found.fresh = found.fresh.with(e, is_fresh_at(tables, opening, events, e));
        found.once = found.once.with(e, is_once_at(tables, events, e));
        found.in_order = found.in_order.with(e, in_order);
        found.empty_right = found.empty_right.with(e, empty_right);
        found.opening = found.opening.with(e, token);
        queues.add(tables, events, e)?;
    }
    Ok(found)
}

/// Of a lawful history the events that break each aspect. `opening` has the contents of the tokens
/// that stand in queue 0 before it. Time grows little faster than the history's length.
pub fn find_breaches(
    alloc: Global,
    opening: &[Bytes],
    events: &[Event],
) -> Result<Breaches, NoMemory>
    requires { IsLawful events.now }
    ensures breaches { IfOk result (AreBreaches opening.now events.now) }
    ensures within { IfOk result (λ breaches. AreWithin (length events.now) breaches) }
{
    let tables = Tables::new(alloc, events)?;
    breaches_by(alloc, &tables, opening, events)
}

// The same, by the tables of the history.
fn breaches_by(
    alloc: Global,
    tables: &Tables,
    opening: &[Bytes],
    events: &[Event],
) -> Result<Breaches, NoMemory>
    requires { AreOfLawful events.now tables.now }
    ensures breaches { IfOk result (AreBreaches opening.now events.now) }
    ensures within { IfOk result (λ breaches. AreWithin (length events.now) breaches) }
{
    let found = find(alloc, tables, opening, events)?;
    let accepted = refused_gots(alloc, tables, events)?;
    let refused = refused_first(alloc, tables, events, &accepted)?;
    let counterparts = Counterparts {
        fresh: origin_of_first(tables, opening, events, &found.fresh),
        once: named_first(tables, events, &found.once),
        in_order: overtaken(tables, opening, events, &found.in_order),
        overtaker: origin_of_first(tables, opening, events, &found.in_order),
        empty_right: waiting_beside(tables, opening, events, &found.empty_right),
        accepted: refused,
    };
    Ok(Breaches {
        fresh: found.fresh,
        once: found.once,
        in_order: found.in_order,
        empty_right: found.empty_right,
        accepted,
        opening: found.opening,
        endings: count_endings(tables, events),
        counterparts,
    })
}

/// Judges a lawful history (`first_unlawful` tests whether it is). `opening` has the contents of
/// the tokens that stand in queue 0 before it. Gots of refused puts, and of opening tokens out of
/// their order, only `find_breaches` tells. It makes tables of the history, and goes over its
/// events a few times: time grows little faster than the history's length.
pub fn judge(alloc: Global, opening: &[Bytes], events: &[Event]) -> Result<Verdict, NoMemory>
    requires { IsLawful events.now }
    ensures verdict { IfOk result (IsVerdictOf opening.now events.now) }
    ensures holds { IfOk result (TellsWhatHolds opening.now events.now) }
{
    let tables = Tables::new(alloc, events)?;
    let found = find(alloc, &tables, opening, events)?;
    Ok(Verdict {
        fresh: number_of(found.fresh.first),
        once: number_of(found.once.first),
        in_order: number_of(found.in_order.first),
        empty_right: number_of(found.empty_right.first),
    })
}

// The number of the event at this position: they are numbered from 1.
fn number_of(position: Option<usize>) -> Option<u64>
    requires { IfSome position (λ e. e + 1 < 2 ^ 64) }
    ensures number { result ≡ option_map (λ e. e + 1) position }
    ensures variant { is_some result ≡ is_some position }
{
    match position {
        None => None,
        Some(position) => Some(position as u64 + 1),
    }
}

/// A verdict as text: a line for each aspect, `NAME holds` or `NAME fails at E`. The names are
/// `fresh`, `once`, `in order` and `empty`.
pub fn verdict_text(alloc: Global, verdict: &Verdict) -> Result<Bytes, NoMemory>
    ensures { IfOk result (λ text. text ≡ verdict_lines verdict.now) }
{
    let mut text = Vec::new(alloc);
    add_aspect(&mut text, b"fresh", verdict.fresh)?;
    add_aspect(&mut text, b"once", verdict.once)?;
    add_aspect(&mut text, b"in order", verdict.in_order)?;
    add_aspect(&mut text, b"empty", verdict.empty_right)?;
    Ok(Bytes::from(text))
}

fn add_aspect(text: &mut Vec<u8>, name: &[u8], number: Option<u64>) -> Result<(), NoMemory>
    ensures { OnOk result (text.new.items ≡ text.old.items ++ aspect_line name.now number) }
{
    text.extend_from_slice(name)?;
    match number {
        None => text.extend_from_slice(b" holds\n")?,
        Some(number) => {
            text.extend_from_slice(b" fails at ")?;
            text.extend_from_slice(Buffer::new().format(number).as_bytes())?;
            text.extend_from_slice(b"\n")?;
        }
    }
    Ok(())
}
