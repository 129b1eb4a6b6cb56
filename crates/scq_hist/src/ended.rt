//! The puts that have ended, and the gets that found nothing.

ghost use Rattle.std.specs.Prelude.{◌≡◌, ◌<◌, length, MatchOption};
ghost use Rattle.scq_hist.specs.Ended.{put_reply, EndsNoPut, EndsPut, NoPutEnds, FindsSomething};
ghost use Rattle.scq_hist.specs.Tallies.{IsEmptyAt, NoEmptyAt};
ghost use Rattle.scq_hist.specs.declared.events.Event.TheVariants.{End};
ghost use Rattle.scq_hist.specs.declared.events.Reply.TheVariants.{Nothing};

use crate::calls::call_under_way;
use crate::events::{Call, Event, Reply};

/// A put that has ended: its seat, the position of its Start, its queue, whether it was refused.
#[derive(Clone, Copy)]
pub struct EndedPut {
    pub seat: u32,
    pub start: usize,
    pub queue: u32,
    pub refused: bool,
}

/// The seat of an End with Done or Spent, and whether it is one with Spent.
pub fn put_end(event: &Event) -> Option<(u32, bool)>
    ensures { MatchOption result
        (EndsNoPut event.now)
        (λ end. event.now ≡ End end.0 (put_reply end.1)) }
{
    match event {
        Event::End {
            seat,
            reply: Reply::Done,
        } => Some((*seat, false)),
        Event::End {
            seat,
            reply: Reply::Spent,
        } => Some((*seat, true)),
        _ => None,
    }
}

/// The put that ends at this position.
pub(crate) fn ended_put(events: &[Event], e: usize) -> Option<EndedPut>
    requires { e < length events.now }
    ensures { MatchOption result (NoPutEnds events.now e) (EndsPut events.now e) }
{
    let end = put_end(&events[e])?;
    let call = call_under_way(events, end.0, e)?;
    match call.1 {
        Call::Put { queue, .. } => Some(EndedPut {
            seat: end.0,
            start: call.0,
            queue: *queue,
            refused: end.1,
        }),
        Call::Get { .. } => None,
    }
}

/// The seat of an End with Nothing.
pub fn nothing_end(event: &Event) -> Option<u32>
    ensures { MatchOption result (FindsSomething event.now) (λ seat. event.now ≡ End seat Nothing) }
{
    match event {
        Event::End {
            seat,
            reply: Reply::Nothing,
        } => Some(*seat),
        _ => None,
    }
}

/// The get that ends with Nothing at this position: the position of its Start, and its queue.
pub(crate) fn empty_at(events: &[Event], e: usize) -> Option<(usize, u32)>
    requires { e < length events.now }
    ensures { MatchOption result (NoEmptyAt events.now e) (λ get.
        IsEmptyAt events.now e get.1 get.0) }
{
    let seat = nothing_end(&events[e])?;
    let call = call_under_way(events, seat, e)?;
    match call.1 {
        Call::Get { queue } => Some((call.0, *queue)),
        Call::Put { .. } => None,
    }
}
