//! What stands where in a list: each look-up is one scan, since the tests take no memory.

ghost use Rattle.std.specs.Prelude.{◌≡◌, ◌<◌, ◌≤◌, length, MatchOption};
ghost use Rattle.scq_hist.specs.Exports.{under_way, puts_before, IsPut, HasUnderWay, NoPutBefore};
ghost use Rattle.scq_hist.specs.Exports.{EndsDone, NoDoneAt, StartsCall, StartsNoCall};

use crate::ended::ended_put;
use crate::events::{Call, Event, PutName};
use scq_word::Bytes;

/// The call that starts at this position.
pub fn call_started(events: &[Event], s: usize) -> Option<&Call>
    ensures { MatchOption result
        (StartsNoCall events.now s)
        (λ call. StartsCall events.now s call.now) }
{
    match events.get(s) {
        Some(Event::Start { call, .. }) => Some(call),
        _ => None,
    }
}

/// The position of the Start of the call that the seat has under way at this moment.
pub fn under_way(events: &[Event], seat: u32, moment: usize) -> Option<usize>
    requires { moment ≤ length events.now }
    ensures { result ≡ under_way events.now seat moment }
{
    let mut started = None;
    for (i, event) in events[..moment].iter().enumerate() {
        match event {
            Event::Start { seat: k, .. } if *k == seat => started = Some(i),
            Event::End { seat: k, .. } if *k == seat => started = None,
            _ => {}
        }
    }
    started
}

/// That call, with the position of its Start.
pub(crate) fn call_under_way(events: &[Event], seat: u32, moment: usize) -> Option<(usize, &Call)>
    requires { moment ≤ length events.now }
    ensures { MatchOption result
        (under_way events.now seat moment ≡ None)
        (λ found. HasUnderWay events.now seat moment found.0 found.1.now) }
{
    let start = under_way(events, seat, moment)?;
    Some((start, call_started(events, start)?))
}

/// How many puts the seat began by this moment, over all queues.
pub fn puts_before(events: &[Event], seat: u32, moment: usize) -> u64
    requires { moment ≤ length events.now }
    ensures count { result ≡ puts_before events.now seat moment }
    ensures few { result ≤ moment }
{
    let mut puts = 0;
    for event in &events[..moment] {
        match event {
            Event::Start {
                seat: k,
                call: Call::Put { .. },
            } if *k == seat => puts += 1,
            _ => {}
        }
    }
    puts
}

/// The seat's put of this number: the position of its Start, its queue and its content.
pub(crate) fn put_named(events: &[Event], seat: u32, number: u64) -> Option<(usize, u32, &Bytes)>
    ensures { MatchOption result
        (NoPutBefore events.now seat number (length events.now))
        (λ put. IsPut events.now seat number put.1 put.2.now put.0) }
{
    let mut puts = 0;
    for (start, event) in events.iter().enumerate() {
        match event {
            Event::Start {
                seat: k,
                call: Call::Put { queue, content },
            } if *k == seat => {
                puts += 1;
                if puts == number {
                    return Some((start, *queue, content));
                }
            }
            _ => {}
        }
    }
    None
}

/// The put of this queue that ends with Done at this position.
pub(crate) fn done_put(events: &[Event], queue: u32, e: usize) -> Option<PutName>
    requires { e < length events.now }
    ensures { MatchOption result (NoDoneAt events.now queue e) (EndsDone events.now queue e) }
{
    let put = ended_put(events, e)?;
    if put.refused {
        return None;
    }
    if put.queue != queue {
        return None;
    }
    let number = puts_before(events, put.seat, put.start) + 1;
    Some(PutName::Of {
        seat: put.seat,
        number,
    })
}
