//! The Gots that aren't fresh, and those that name the put of an earlier one.

ghost use Rattle.std.specs.Prelude.{◌<◌, ◌↔◌, ℕ, IsTrue, length, MatchOption};
ghost use Rattle.scq_hist.specs.Exports.{IsPut, IsBegun, IsFreshAt, IsOnceAt};
ghost use Rattle.scq_check.specs.Exports.{HasEvent, IsTables, IsGotOf, IsNoGot};

use crate::tables::Tables;
use scq_hist::{Event, PutName, Reply, got_name, is_earlier_put, is_token};
use scq_word::Bytes;

// Whether the seat's put of this number is of this queue and content, and starts before position e.
fn is_put(
    tables: &Tables,
    events: &[Event],
    seat: u32,
    number: u64,
    queue: u32,
    content: &Bytes,
    e: usize,
) -> bool
    requires { IsTables events.now tables.now }
    ensures { IsTrue result
        ↔ ((s : ℕ) × (s < e) × IsPut events.now seat number queue content.now s) }
{
    is_earlier_put(tables.put_named(events, seat, number), queue, content, e)
}

// The name and the content of an End with Got.
fn got(event: &Event) -> Option<(PutName, &Bytes)>
    ensures { MatchOption result (IsNoGot event.now) (λ got. IsGotOf event.now got.0 got.1.now) }
{
    match event {
        Event::End {
            reply: Reply::Got { name, content },
            ..
        } => Some((*name, content)),
        _ => None,
    }
}

// Whether the put of this name is of this queue and content, and is an opening token or starts
// before position e.
fn is_begun(
    tables: &Tables,
    opening: &[Bytes],
    events: &[Event],
    queue: u32,
    name: PutName,
    content: &Bytes,
    e: usize,
) -> bool
    requires { IsTables events.now tables.now }
    ensures { IsTrue result ↔ IsBegun opening.now events.now name queue content.now e }
{
    match name {
        PutName::Opening { number } => is_token(opening, number, queue, content),
        PutName::Of { seat, number } => is_put(tables, events, seat, number, queue, content, e),
    }
}

/// Whether the Got that stands at this position, if one does, is fresh. `opening` has the contents
/// of the tokens that stand in queue 0 before the list.
pub(crate) fn is_fresh_at(tables: &Tables, opening: &[Bytes], events: &[Event], e: usize) -> bool
    requires { HasEvent events.now tables.now e }
    ensures { IsTrue result ↔ IsFreshAt opening.now events.now e }
{
    match got(&events[e]) {
        Some((name, content)) => {
            let queue = tables.queue_of(events, e);
            is_begun(tables, opening, events, queue, name, content, e)
        }
        None => true,
    }
}

/// Whether no Got before this one names the same put, if one stands at this position.
pub(crate) fn is_once_at(tables: &Tables, events: &[Event], e: usize) -> bool
    requires tables { IsTables events.now tables.now }
    requires within { e < length events.now }
    ensures { IsTrue result ↔ IsOnceAt events.now e }
{
    match got_name(&events[e]) {
        Some(name) => tables.first_named(events, name) == Some(e),
        None => true,
    }
}
