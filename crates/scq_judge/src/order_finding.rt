//! Orders of a linearizable history, which nothing is promised of: they are tried by `walking`.
//!
//! A put and its get are a value, and so is a get that found nothing, at a moment at which its
//! queue was empty. A value has a first and a last moment for its put, and so for its get. Of the
//! value whose last moment for the put is the first and the one whose last moment for the get is
//! the first, one may stand before all others: the former if its get may come as early as that of
//! the latter. So values get an order, moments of their own as early as those before them allow,
//! and the calls come by these moments.

ghost use Rattle.scq_judge.specs.Walking.{IsHistory};

use crate::own_calls::EndedCall;
use crate::walking::{History, QueueOrder, call_queue};
use scq_hist::{Call, PutName, Reply};
use scq_word::NoMemory;
use std::alloc::Global;
use std::collections::BTreeMap;

/// A moment: that of an opening token, which comes before all events, that just before or of an
/// event, or one behind all.
#[derive(Clone, Copy, PartialEq, Eq, PartialOrd, Ord)]
enum Moment {
    Token(usize),
    At { position: usize, event: bool },
    Never,
}

/// A value of a queue: when it may be put and got, and the positions of the Ends of these calls.
#[derive(Clone, Copy)]
struct Value {
    queue: u32,
    put_from: Moment,
    put_till: Moment,
    got_from: Moment,
    got_till: Moment,
    put: Option<usize>,
    get: Option<usize>,
    /// Where it is a get that found nothing, the position of its Start.
    nothing: Option<usize>,
}

/// A value at its moments.
#[derive(Clone, Copy)]
struct Timed {
    put_at: Moment,
    got_at: Moment,
    put: Option<usize>,
    get: Option<usize>,
}

fn event_at(position: usize) -> Moment {
    Moment::At {
        position,
        event: true,
    }
}

fn earlier(a: Moment, b: Moment) -> Moment {
    if b < a { b } else { a }
}

fn later(a: Moment, b: Moment) -> Moment {
    if a < b { b } else { a }
}

// A value that nobody gets.
fn kept(queue: u32, put_from: Moment, put_till: Moment, put: Option<usize>) -> Value {
    Value {
        queue,
        put_from,
        put_till,
        got_from: Moment::Never,
        got_till: Moment::Never,
        put,
        get: None,
        nothing: None,
    }
}

/// An order of each queue.
pub(crate) fn find_orders(alloc: Global, history: History<'_>) -> Result<Vec<QueueOrder>, NoMemory>
    requires { IsHistory history }
{
    let mut values = values_of(alloc, history)?;
    values.sort_by_key(|value| value.queue)?;
    let mut orders = Vec::new(alloc);
    let mut group = Vec::new(alloc);
    let mut queue = 0;
    for value in &values {
        if value.queue != queue {
            add_order(alloc, &mut orders, queue, &group)?;
            group.clear();
            queue = value.queue;
        }
        group.push(*value)?;
    }
    add_order(alloc, &mut orders, queue, &group)?;
    Ok(orders)
}

// The order of a queue with these values, if it has calls.
fn add_order(
    alloc: Global,
    orders: &mut Vec<QueueOrder>,
    queue: u32,
    values: &[Value],
) -> Result<(), NoMemory> {
    let placed = with_moments(alloc, values)?;
    let order = order_of(alloc, &placed)?;
    let ends = calls_of(alloc, &order)?;
    if !ends.is_empty() {
        orders.push(QueueOrder { queue, ends })?;
    }
    Ok(())
}

// The values of all queues: of each queue those in front that were put first.
fn values_of(alloc: Global, history: History<'_>) -> Result<Vec<Value>, NoMemory>
    requires { IsHistory history }
{
    let mut values = Vec::new(alloc);
    for j in 0..history.opening.len() {
        values.push(kept(0, Moment::Token(j), Moment::Token(j), None))?;
    }
    let mut names = BTreeMap::new(alloc);
    for e in 0..history.events.len() {
        if let Some(ended) = history.calls.ended(history.events, e) {
            add_value(&mut values, &mut names, ended, e)?;
        }
    }
    for e in 0..history.events.len() {
        if let Some(ended) = history.calls.ended(history.events, e) {
            add_get(&mut values, &names, ended, e);
        }
    }
    Ok(values)
}

// The value of a put, or of a get that found nothing, that ends at this position.
fn add_value(
    values: &mut Vec<Value>,
    names: &mut BTreeMap<(u32, u64), usize>,
    ended: EndedCall<'_>,
    e: usize,
) -> Result<(), NoMemory> {
    let queue = call_queue(ended.call);
    let start = event_at(ended.own.start);
    match (ended.call, ended.reply) {
        (Call::Put { .. }, Reply::Done) => {
            names.insert((ended.seat, ended.own.put), values.len())?;
            values.push(kept(queue, start, event_at(e), Some(e)))?;
        }
        (Call::Get { .. }, Reply::Nothing) => {
            let mut value = kept(queue, start, event_at(e), None);
            value.get = Some(e);
            value.nothing = Some(ended.own.start);
            values.push(value)?;
        }
        _ => {}
    }
    Ok(())
}

// The get that ends at this position, at the value that it has got.
fn add_get(
    values: &mut [Value],
    names: &BTreeMap<(u32, u64), usize>,
    ended: EndedCall<'_>,
    e: usize,
) {
    let Reply::Got { name, .. } = ended.reply else {
        return;
    };
    let place = match name {
        PutName::Opening { number } => Some(*number as usize),
        PutName::Of { seat, number } => names.get(&(*seat, *number)).copied(),
    };
    let Some(place) = place else {
        return;
    };
    if let Some(value) = values.get_mut(place) {
        value.got_from = event_at(ended.own.start);
        value.got_till = event_at(e);
        value.get = Some(e);
    }
}

// The values with the moments of those gets that found nothing, and with no moment for a put behind
// its get or for a get before its put.
fn with_moments(alloc: Global, values: &[Value]) -> Result<Vec<Value>, NoMemory> {
    let busy = busy_spans(alloc, values)?;
    let mut timed = Vec::with_capacity(alloc, values.len())?;
    for value in values {
        let mut value = *value;
        if let Some(start) = value.nothing {
            let moment = Moment::At {
                position: first_empty(&busy, start),
                event: false,
            };
            value.put_from = moment;
            value.put_till = moment;
            value.got_from = moment;
            value.got_till = moment;
        }
        value.put_till = earlier(value.put_till, value.got_till);
        value.got_from = later(value.got_from, value.put_from);
        timed.push(value)?;
    }
    Ok(timed)
}

// From which position up to which the queue holds a value, whatever the order: from its put's End
// up to its get's Start. The spans ascend, and none touches the next.
fn busy_spans(alloc: Global, values: &[Value]) -> Result<Vec<(usize, usize)>, NoMemory> {
    let mut spans = Vec::new(alloc);
    for value in values {
        if let Some((from, till)) = busy_span(value) {
            add_span(&mut spans, from, till)?;
        }
    }
    Ok(spans)
}

fn busy_span(value: &Value) -> Option<(usize, usize)> {
    if value.nothing.is_some() {
        return None;
    }
    let from = match value.put_till {
        Moment::At { position, .. } => position.saturating_add(1),
        _ => 0,
    };
    let till = match value.got_from {
        Moment::At { position, .. } => position,
        _ => usize::MAX,
    };
    if from <= till {
        Some((from, till))
    } else {
        None
    }
}

fn add_span(spans: &mut Vec<(usize, usize)>, from: usize, till: usize) -> Result<(), NoMemory> {
    if let Some(last) = spans.last_mut() {
        if from <= last.1.saturating_add(1) {
            last.1 = last.1.max(till);
            return Ok(());
        }
    }
    spans.push((from, till))?;
    Ok(())
}

// The first moment behind this Start that is in no span.
fn first_empty(spans: &[(usize, usize)], start: usize) -> usize {
    let moment = start.saturating_add(1);
    let before = spans.partition_point(|span| span.0 <= moment);
    match spans.get(before.saturating_sub(1)) {
        Some(span) if span.0 <= moment && moment <= span.1 => span.1.saturating_add(1),
        _ => moment,
    }
}

// The values in an order in which each may stand before those behind it, at their moments.
fn order_of(alloc: Global, values: &[Value]) -> Result<Vec<Timed>, NoMemory> {
    let mut by_put = Vec::with_capacity(alloc, values.len())?;
    let mut by_get = Vec::with_capacity(alloc, values.len())?;
    for (i, value) in values.iter().enumerate() {
        by_put.push((value.put_till, i))?;
        by_get.push((value.got_till, i))?;
    }
    by_put.sort()?;
    by_get.sort()?;
    let mut order = Placing {
        values,
        placed: vec![in alloc; false; values.len()]?,
        put_at: Moment::Token(0),
        got_at: Moment::Token(0),
        order: Vec::with_capacity(alloc, values.len())?,
    };
    let mut next = 0;
    for (_, i) in &by_put {
        'gets: while next < by_get.len() {
            let (till, other) = by_get[next];
            if order.may_lead(*i, till) {
                break;
            }
            order.add(other)?;
            next += 1;
        }
        order.add(*i)?;
    }
    Ok(order.order)
}

/// Values that are put into an order.
#[derive(Drop)]
struct Placing<'a> {
    values: &'a [Value],
    placed: Vec<bool>,
    put_at: Moment,
    got_at: Moment,
    order: Vec<Timed>,
}

impl<'a> Placing<'a> {
    // Whether the value stands in the order, or may be got at this moment.
    fn may_lead(&self, i: usize, till: Moment) -> bool {
        let placed = self.placed.get(i).copied().unwrap_or(true);
        match self.values.get(i) {
            Some(value) => placed || value.got_from <= till,
            None => true,
        }
    }

    // Puts a value behind those in the order, if it isn't one.
    fn add(&mut self, i: usize) -> Result<(), NoMemory> {
        let placed = self.placed.get(i).copied().unwrap_or(true);
        if placed || i >= self.placed.len() || i >= self.values.len() {
            return Ok(());
        }
        let value = self.values[i];
        self.placed[i] = true;
        self.put_at = later(self.put_at, value.put_from);
        self.got_at = later(self.got_at, value.got_from);
        self.order.push(Timed {
            put_at: self.put_at,
            got_at: self.got_at,
            put: value.put,
            get: value.get,
        })?;
        Ok(())
    }
}

// The Ends of the calls, in the order of their moments: before each put those gets that are due.
fn calls_of(alloc: Global, order: &[Timed]) -> Result<Vec<usize>, NoMemory> {
    let mut ends = Vec::new(alloc);
    let mut got = 0;
    for i in 0..order.len() {
        'due: while got < i && order[got].got_at <= order[i].put_at {
            add_end(&mut ends, order[got].get)?;
            got += 1;
        }
        add_end(&mut ends, order[i].put)?;
    }
    for value in &order[got..] {
        add_end(&mut ends, value.get)?;
    }
    Ok(ends)
}

fn add_end(ends: &mut Vec<usize>, end: Option<usize>) -> Result<(), NoMemory> {
    if let Some(e) = end {
        ends.push(e)?;
    }
    Ok(())
}
