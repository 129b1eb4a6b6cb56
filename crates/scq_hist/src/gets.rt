//! The gets that have got a put, and those that never end.

ghost use Rattle.std.specs.Prelude.{◌≡◌, ◌+◌, ◌<◌, ◌≤◌, ◌^◌, ◌↔◌, ℕ, suc, Some, IsTrue};
ghost use Rattle.std.specs.Prelude.{MatchOption, length, slice_get};
ghost use Rattle.scq_hist.specs.Exports.{IsGot, IsGetOf, IsPending, IsLawful, IsCount, got_name};
ghost use Rattle.scq_hist.specs.Exports.{call_start, IsFirstNamed, EndsNoGet};

use crate::calls::under_way;
use crate::events::{Call, Event, PutName, Reply};

/// The name in an End with Got.
pub fn got_name(event: &Event) -> Option<PutName>
    ensures { result ≡ got_name event.now }
{
    match event {
        Event::End {
            reply: Reply::Got { name, .. },
            ..
        } => Some(*name),
        _ => None,
    }
}

/// Whether it is an End with Got that names this put.
fn names(event: &Event, name: PutName) -> bool
    ensures { IsTrue result ↔ (got_name event.now ≡ Some name) }
{
    got_name(event) == Some(name)
}

/// The position of the first End with Got that names this put.
pub(crate) fn first_named(events: &[Event], name: PutName) -> Option<usize>
    ensures { MatchOption result (¬ (IsGot events.now name)) (IsFirstNamed events.now name) }
{
    for (e, event) in events.iter().enumerate() {
        if names(event, name) {
            return Some(e);
        }
    }
    None
}

/// The position of the Start of the call that ends at this position.
fn call_start(events: &[Event], e: usize) -> Option<usize>
    requires { e < length events.now }
    ensures { result ≡ call_start events.now e (slice_get events.now e) }
{
    match &events[e] {
        Event::Start { .. } => None,
        Event::End { seat, .. } => under_way(events, *seat, e),
    }
}

/// The position of the Start of the get that has got this put.
pub(crate) fn get_of(events: &[Event], name: PutName) -> Option<usize>
    requires { IsLawful events.now }
    ensures { MatchOption result
        (¬ (IsGot events.now name))
        (λ s. (e : ℕ) × IsGetOf events.now name s e) }
{
    let e = first_named(events, name)?;
    call_start(events, e)
}

/// If the call that ends at this position is the get that has got a put: that put, and the position
/// of the get's Start.
pub(crate) fn get_ending_at(events: &[Event], e: usize) -> Option<(PutName, usize)>
    requires lawful { IsLawful events.now }
    requires within { e < length events.now }
    ensures { MatchOption result (EndsNoGet events.now e) (λ get.
        IsGetOf events.now get.0 get.1 e) }
{
    let name = got_name(&events[e])?;
    if first_named(events, name) != Some(e) {
        return None;
    }
    Some((name, call_start(events, e)?))
}

/// Whether a get of this queue starts here that is under way at the end of the list.
fn never_ends(events: &[Event], queue: u32, s: usize) -> bool
    requires { s < length events.now }
    ensures { IsTrue result ↔ IsPending events.now queue (suc s) s }
{
    match &events[s] {
        Event::Start {
            seat,
            call: Call::Get { queue: of },
        } if *of == queue => { under_way(events, *seat, events.len()) == Some(s) }
        _ => false,
    }
}

/// From the number of gets of this queue that started before position s and are under way at the
/// end of the list to that of those which started up to position s.
pub(crate) fn pending_after(pending: usize, events: &[Event], queue: u32, s: usize) -> usize
    requires within { s < length events.now }
    requires room { pending + 1 < 2 ^ 64 }
    ensures few { result ≤ pending + 1 }
    ensures count { IsCount (IsPending events.now queue s) pending
        → IsCount (IsPending events.now queue (s + 1)) result }
{
    if never_ends(events, queue, s) {
        pending + 1
    } else {
        pending
    }
}

/// How many gets of this queue that started before this moment are under way at the end of the
/// list.
pub(crate) fn pending_gets(events: &[Event], queue: u32, moment: usize) -> usize
    requires { moment ≤ length events.now }
    ensures few { result ≤ moment }
    ensures count { IsCount (IsPending events.now queue moment) result }
{
    let mut pending = 0;
    for s in 0..moment {
        pending = pending_after(pending, events, queue, s);
    }
    pending
}
