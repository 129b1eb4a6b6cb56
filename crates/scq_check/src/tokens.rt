//! The opening tokens that are got out of their order.

ghost use Rattle.std.specs.Prelude.{◌≡◌, ◌<◌, ◌^◌, ◌↔◌, ℕ, List, IsTrue, IfOk, MatchOption};
ghost use Rattle.std.specs.Prelude.{length, min};
ghost use Rattle.scq_hist.specs.Exports.{NoTokenGotAt};
ghost use Rattle.scq_check.specs.Queues.{AreQueuesAt};
ghost use Rattle.scq_check.specs.Tables.{AreOfLawful, HasEvent};
ghost use Rattle.scq_check.specs.Tokens.{AreTokenTallies, IsGetOfToken, IsTokenInOrderAt};

use crate::queues::{Queue, Queues};
use crate::tables::Tables;
use scq_hist::{Event, PutName, Tally, with_put};
use scq_word::{Bytes, NoMemory};
use std::alloc::Global;

/// How many tokens a Got can name.
const MOST_TOKENS: usize = 1 << 32;

/// For each opening token that a Got can name the tally of those before it.
pub(crate) fn token_tallies(
    alloc: Global,
    tables: &Tables,
    opening: &[Bytes],
    events: &[Event],
) -> Result<Vec<Tally>, NoMemory>
    requires { AreOfLawful events.now tables.now }
    ensures { IfOk result (λ tallies.
        AreTokenTallies events.now (min (length opening.now) (2 ^ 32)) tallies.items) }
{
    let many = opening.len().min(MOST_TOKENS);
    let mut tallies = Vec::with_capacity(alloc, many)?;
    let mut tally = Tally {
        ungot: 0,
        claimed_from: 0,
    };
    for number in 0..many {
        tallies.push(tally)?;
        let name = PutName::Opening {
            number: number as u32,
        };
        tally = with_put(tally, tables.get_of(events, name));
    }
    Ok(tallies)
}

// The number of the opening token that the get which ends at this position has got.
fn token_at(tables: &Tables, opening: &[Bytes], events: &[Event], e: usize) -> Option<u32>
    requires { HasEvent events.now tables.now e }
    ensures { MatchOption result
        (NoTokenGotAt opening.now events.now e)
        (IsGetOfToken opening.now events.now e) }
{
    match tables.get_ending_at(events, e) {
        Some((PutName::Opening { number }, _)) if (number as usize) < opening.len() => Some(number),
        _ => None,
    }
}

/// Whether all opening tokens before the one that the get which ends at this position has got are
/// claimed by then.
pub(crate) fn is_token_in_order_at(
    tables: &Tables,
    opening: &[Bytes],
    events: &[Event],
    tallies: &[Tally],
    queues: &Queues,
    e: usize,
) -> bool
    requires event { HasEvent events.now tables.now e }
    requires tallies { AreTokenTallies events.now (min (length opening.now) (2 ^ 32)) tallies.now }
    ensures { AreQueuesAt opening.now events.now e queues.now
        → (IsTrue result ↔ IsTokenInOrderAt opening.now events.now e) }
{
    match token_at(tables, opening, events, e) {
        None => true,
        Some(number) => {
            let at_get = Queue {
                tally: tallies[number as usize],
                ..queues.get(0)
            };
            at_get.is_claimed(e)
        }
    }
}
