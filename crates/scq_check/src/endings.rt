//! How the calls of a history end, and how many do so.

ghost use Rattle.std.specs.Prelude.{◌↔◌, ℕ, IsTrue};
ghost use Rattle.scq_hist.specs.Exports.{IsCount};
ghost use Rattle.scq_check.specs.Endings.{EndsAs, EndsSo, AreEndings};
ghost use Rattle.scq_check.specs.Tables.{AreOfLawful, HasEvent};

use crate::queues::counted;
use crate::tables::Tables;
use scq_hist::{Call, Event, PutName, Reply};

/// How a call ends.
#[derive(Clone, Copy)]
pub enum Ending {
    /// A get has got something.
    Got,
    /// A get has got an opening token.
    Token,
    /// A get has found nothing.
    Nothing,
    /// A put was refused: it ended with Spent.
    Refused,
    /// A get ended with Spent.
    Spent,
}

/// How many calls end so.
#[derive(Clone, Copy)]
pub struct Endings {
    pub got: usize,
    pub tokens: usize,
    pub nothing: usize,
    pub refused: usize,
    pub spent: usize,
}

// Whether a call that ends with this reply ends so.
fn ends_as(ending: Ending, call: &Call, reply: &Reply) -> bool
    ensures { IsTrue result ↔ EndsAs ending call.now reply.now }
{
    match call {
        Call::Put { .. } => match ending {
            Ending::Refused => matches!(reply, Reply::Spent),
            _ => false,
        },
        Call::Get { .. } => match ending {
            Ending::Got => matches!(reply, Reply::Got { .. }),
            Ending::Token => is_token(reply),
            Ending::Nothing => matches!(reply, Reply::Nothing),
            Ending::Refused => false,
            Ending::Spent => matches!(reply, Reply::Spent),
        },
    }
}

// Whether a get with this reply has got an opening token.
fn is_token(reply: &Reply) -> bool
    ensures { (queue : ℕ)
        → (IsTrue result ↔ EndsAs Ending.Token (Call.Get queue) reply.now) }
{
    match reply {
        Reply::Got {
            name: PutName::Opening { .. },
            ..
        } => true,
        _ => false,
    }
}

// Whether a call ends so at this position.
fn ends_so(tables: &Tables, events: &[Event], ending: Ending, e: usize) -> bool
    requires { HasEvent events.now tables.now e }
    ensures { IsTrue result ↔ EndsSo events.now ending e }
{
    match &events[e] {
        Event::Start { .. } => false,
        Event::End { reply, .. } => ends_as(ending, tables.call_of(events, e).1, reply),
    }
}

// How many calls end so.
fn count_ending(tables: &Tables, events: &[Event], ending: Ending) -> usize
    requires { AreOfLawful events.now tables.now }
    ensures { IsCount (EndsSo events.now ending) result }
{
    let mut count = 0;
    for e in 0..events.len() {
        count = counted(count, ends_so(tables, events, ending, e));
    }
    count
}

/// How many calls end in each way.
pub(crate) fn count_endings(tables: &Tables, events: &[Event]) -> Endings
    requires { AreOfLawful events.now tables.now }
    ensures { AreEndings events.now result }
{
    Endings {
        got: count_ending(tables, events, Ending::Got),
        tokens: count_ending(tables, events, Ending::Token),
        nothing: count_ending(tables, events, Ending::Nothing),
        refused: count_ending(tables, events, Ending::Refused),
        spent: count_ending(tables, events, Ending::Spent),
    }
}
