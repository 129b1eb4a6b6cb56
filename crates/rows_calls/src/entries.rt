//! Entry words, tickets and setups.
ghost use Rattle.std.specs.Prelude.{◌<◌, IfSome};
ghost use Rattle.std.specs.Option.{ForSome};
ghost use Rattle.scq_word.specs.Exports.{n_of};

use crate::row::Row;
use rows_text::field;
use scq_word::{Entry, Setup, Shape, cycle_of, limit_for, pack, rank, slot_of, unpack};

/// An index of the shape, or `-` for none.
fn index_of(shape: Shape, text: &str) -> Option<Option<u32>>
    ensures { IfSome result (λ index. ForSome index (λ i. i < n_of shape.order)) }
{
    if text == "-" {
        return Some(None);
    }
    match text.parse::<u32>() {
        Ok(index) if index < shape.n() => Some(Some(index)),
        _ => None,
    }
}

/// `ORDER CYCLE SAFE INDEX`, where `-` is no index: the entry's word, its rank, the word as it is
/// marked, and whether the word is read as the entry again.
pub fn entry(row: &mut Row, given: &str) {
    let Some(shape) = Shape::new(row.number(given, 0)) else {
        return row.fail();
    };
    let cycle = row.long(given, 1);
    let safe = field(given, 2) == "true";
    let Some(index) = index_of(shape, field(given, 3)) else {
        return row.fail();
    };
    // A word has room for the cycle.
    if cycle >= 1 << 50 || cycle >= (1 << 62) / u64::from(shape.n()) {
        return row.fail();
    }
    let entry = Entry { cycle, safe, index };
    let word = pack(shape, entry);
    row.put_numbers(&[word, rank(entry), word | u64::from(shape.none())]);
    row.put(" ");
    row.put_value(&(unpack(shape, word) == entry));
}

/// `ORDER TICKET`: the ticket's cycle.
pub fn cycle(row: &mut Row, given: &str) {
    match Shape::new(row.number(given, 0)) {
        Some(shape) => {
            let cycle = cycle_of(shape, row.long(given, 1));
            row.put_value(&cycle);
        }
        None => row.fail(),
    }
}

/// `ORDER TICKET`: the ticket's slot.
pub fn slot(row: &mut Row, given: &str) {
    match Shape::new(row.number(given, 0)) {
        Some(shape) => {
            let slot = slot_of(shape, row.long(given, 1));
            row.put_value(&slot);
        }
        None => row.fail(),
    }
}

/// `ORDER`: how many slots the tickets of the second round meet.
pub fn met(row: &mut Row, given: &str) {
    match Shape::new(row.number(given, 0)) {
        Some(shape) => put_met(row, shape),
        None => row.fail(),
    }
}

fn put_met(row: &mut Row, shape: Shape) {
    let slots = u64::from(shape.slots());
    let Ok(mut met) = vec![in row.alloc; false; shape.slots() as usize] else {
        return row.fail();
    };
    let mut count = 0u64;
    for ticket in slots..slots.saturating_mul(2) {
        if let Some(is_met) = met.get_mut(slot_of(shape, ticket) as usize) {
            count = count.saturating_add(u64::from(!*is_met));
            *is_met = true;
        }
    }
    row.put_value(&count);
}

/// `ORDER`: how many indices and slots there are, and the mark.
pub fn shape(row: &mut Row, given: &str) {
    match Shape::new(row.number(given, 0)) {
        Some(shape) => {
            let (n, slots, none) = (shape.n(), shape.slots(), shape.none());
            row.put_numbers(&[n.into(), slots.into(), none.into()]);
        }
        None => row.put("none"),
    }
}

/// `ORDER RINGS SEATS LIMIT`: the setup's numbers.
pub fn setup(row: &mut Row, given: &str) {
    let (order, rings) = (row.number(given, 0), row.number(given, 1));
    let (seats, limit) = (row.number(given, 2), row.long(given, 3));
    match Setup::new(order, rings, seats, limit) {
        Ok(setup) => {
            let (n, rings, seats) = (setup.shape().n(), setup.rings(), setup.seats());
            row.put_numbers(&[n.into(), rings.into(), seats.into(), setup.limit()]);
        }
        Err(fault) => row.put_value(&fault),
    }
}

/// `ORDER SEATS`: the value to which Threshold is reset.
pub fn reset(row: &mut Row, given: &str) {
    let (order, seats) = (row.number(given, 0), row.number(given, 1));
    match Setup::new(order, 2, seats, 1 << 60) {
        Ok(setup) => row.put_value(&setup.reset_value()),
        Err(_) => row.fail(),
    }
}

/// `ORDER SEATS PUTS`: the limit that is enough for so many puts.
pub fn limit(row: &mut Row, given: &str) {
    let (order, seats) = (row.number(given, 0), row.number(given, 1));
    let puts = row.long(given, 2);
    if 1 <= order && order <= 12 && 1 <= seats && seats <= 4096 {
        row.put_or_none(limit_for(order, seats, puts));
    } else {
        row.fail();
    }
}
