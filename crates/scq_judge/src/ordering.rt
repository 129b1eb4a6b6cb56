//! Orders that are found, and written if they are orders.

ghost use Rattle.std.specs.Prelude.{Some, true, IfOk};
ghost use Rattle.scq_hist.specs.Exports.{IsLawful};
ghost use Rattle.scq_judge.specs.Ordered.{IsOrderedOf};
ghost use Rattle.scq_judge.specs.Report.{IsOrderTold};

use crate::counting::count;
use crate::linearizable::is_linearizable;
use crate::order_finding::find_orders;
use crate::order_text::order_text;
use crate::own_calls::OwnCalls;
use crate::walking::{History, are_orders};
use scq_check::find_breaches;
use scq_hist::Event;
use scq_word::{Bytes, NoMemory};
use std::alloc::Global;

/// What is said where an order of a history is asked for.
#[derive(Drop)]
pub enum Ordered {
    /// An order of each queue, as text.
    Order(Bytes),
    NotLinearizable,
    NeverEnded,
    /// It is linearizable, but no order was found. No such history is known.
    NotFound,
}

/// An order of a lawful history.
pub(crate) fn order_lawful(
    alloc: Global,
    opening: &[Bytes],
    events: &[Event],
) -> Result<Ordered, NoMemory>
    requires { IsLawful events.now }
    ensures { IfOk result (IsOrderedOf opening.now events.now) }
{
    let breaches = find_breaches(alloc, opening, events)?;
    let counts = count(alloc, events)?;
    match is_linearizable(&breaches, counts.never_ended) {
        None => Ok(Ordered::NeverEnded),
        Some(false) => Ok(Ordered::NotLinearizable),
        Some(true) => order_found(alloc, opening, events),
    }
}

// An order of a lawful history that is linearizable.
fn order_found(alloc: Global, opening: &[Bytes], events: &[Event]) -> Result<Ordered, NoMemory>
    requires lawful { IsLawful events.now }
    requires told { IsOrderTold opening.now events.now (Some true) }
    ensures { IfOk result (IsOrderedOf opening.now events.now) }
{
    let calls = OwnCalls::new(alloc, events)?;
    let history = History {
        opening,
        events,
        calls: &calls,
    };
    let orders = find_orders(alloc, history)?;
    let are = are_orders(alloc, history, &orders)?;
    if !are {
        return Ok(Ordered::NotFound);
    }
    let text = order_text(alloc, history, &orders)?;
    Ok(Ordered::Order(text))
}
