//! Orders as text.

ghost use Rattle.std.specs.Prelude.{◌≡◌, ◌++◌, IfOk, OnOk, flat_map};
ghost use Rattle.scq_judge.specs.Ordering.{AreOrders, EndsACall, EndCalls};
ghost use Rattle.scq_judge.specs.OrderText.{done_text, call_words, call_line, queue_lines};
ghost use Rattle.scq_judge.specs.OrderText.{order_lines};
ghost use Rattle.scq_judge.specs.Walking.{IsHistory};

use crate::own_calls::EndedCall;
use crate::telling::{add_number, add_put_name};
use crate::walking::{History, QueueOrder};
use scq_hist::{Call, Reply};
use scq_word::{Bytes, NoMemory};
use std::alloc::Global;

/// The text of orders.
pub(crate) fn order_text(
    alloc: Global,
    history: History<'_>,
    orders: &[QueueOrder],
) -> Result<Bytes, NoMemory>
    requires history { IsHistory history }
    requires orders { AreOrders history.opening.now history.events.now orders.now }
    ensures { IfOk result (λ text. text ≡ order_lines history.entry.events.now orders.now) }
{
    let mut text = Vec::new(alloc);
    for order in orders {
        add_order(&mut text, history, order)?;
    }
    Ok(Bytes::from(text))
}

fn add_order(text: &mut Vec<u8>, history: History<'_>, order: &QueueOrder) -> Result<(), NoMemory>
    requires history { IsHistory history }
    requires ends { EndCalls history.events.now order.now.ends.items }
    ensures { OnOk result (text.new.items
        ≡ text.old.items ++ queue_lines history.entry.events.now order.now) }
{
    text.extend_from_slice(b"queue ")?;
    add_number(text, u64::from(order.queue))?;
    text.extend_from_slice(b"\n")?;
    add_calls(text, history, order.ends.as_slice())
}

fn add_calls(text: &mut Vec<u8>, history: History<'_>, ends: &[usize]) -> Result<(), NoMemory>
    requires history { IsHistory history }
    requires ends { EndCalls history.events.now ends.now }
    ensures { OnOk result (text.new.items
        ≡ text.old.items ++ flat_map (call_line history.entry.events.now) ends.now) }
{
    for e in ends {
        add_call(text, history, *e)?;
    }
    Ok(())
}

// The line of the call that ends at this position.
fn add_call(text: &mut Vec<u8>, history: History<'_>, e: usize) -> Result<(), NoMemory>
    requires history { IsHistory history }
    requires ends { EndsACall history.events.now e }
    ensures { OnOk result (text.new.items
        ≡ text.old.items ++ call_line history.entry.events.now e) }
{
    match history.calls.ended(history.events, e) {
        Some(ended) => add_ended(text, ended),
        None => unreachable!(),
    }
}

fn add_ended(text: &mut Vec<u8>, ended: EndedCall<'_>) -> Result<(), NoMemory>
    ensures { OnOk result (text.new.items
        ≡ text.old.items
        ++ call_words ended.entry.seat ended.entry.own.number ended.entry.own.put
        ended.entry.call.now ended.entry.reply.now) }
{
    add_number(text, u64::from(ended.seat))?;
    text.extend_from_slice(b" ")?;
    add_number(text, ended.own.number)?;
    add_done(text, ended)?;
    text.extend_from_slice(b"\n")?;
    Ok(())
}

// What a call did.
fn add_done(text: &mut Vec<u8>, ended: EndedCall<'_>) -> Result<(), NoMemory>
    ensures { OnOk result (text.new.items
        ≡ text.old.items
        ++ done_text ended.entry.own.put ended.entry.call.now ended.entry.reply.now) }
{
    match (ended.call, ended.reply) {
        (Call::Put { .. }, _) => {
            text.extend_from_slice(b" put ")?;
            add_number(text, ended.own.put)?;
        }
        (Call::Get { .. }, Reply::Got { name, .. }) => {
            text.extend_from_slice(b" got ")?;
            add_put_name(text, *name)?;
        }
        (Call::Get { .. }, _) => text.extend_from_slice(b" nothing")?,
    }
    Ok(())
}
