//! Histories as text, of queues whose contents are words: `opening X`, `start S put Q X`, `start S
//! get Q`, `end S done`, `end S got o J X`, `end S got S2 N X`, `end S nothing`, `end S spent`,
//! with a semicolon between them.
ghost use Rattle.scq_hist.specs.Exports.{IsLawful};

use crate::row::Row;
use rows_text::field;
use scq_check::first_unlawful;
use scq_hist::{Call, Event, PutName, Reply, empty_right, fresh, in_order, lawful_calls, once};
use scq_word::{Bytes, NoMemory};

/// The opening tokens of a text, and its events.
#[derive(Drop)]
struct History {
    opening: Vec<Bytes>,
    events: Vec<Event>,
}

impl History {
    fn read(row: &mut Row, text: &str) -> History {
        let mut history = History {
            opening: Vec::new(row.alloc),
            events: Vec::new(row.alloc),
        };
        for part in text.split(';') {
            if history.add(row, part.trim()).is_err() {
                row.fail();
            }
        }
        history
    }

    /// Adds what a part says. Each event is a copy, so that copies are judged too.
    fn add(&mut self, row: &mut Row, part: &str) -> Result<(), NoMemory> {
        if let Some(token) = part.strip_prefix("opening ") {
            let token = Bytes::copy_of(row.alloc, token.as_bytes())?;
            self.opening.push(token)?;
        } else if !part.is_empty() {
            let event = event_of(row, part)?;
            self.events.push(event.copy(row.alloc)?)?;
        }
        Ok(())
    }
}

fn event_of(row: &mut Row, part: &str) -> Result<Event, NoMemory> {
    let seat = row.number(part, 1);
    Ok(if field(part, 0) == "start" {
        let call = call_of(row, part)?;
        Event::Start { seat, call }
    } else {
        let reply = reply_of(row, part)?;
        Event::End { seat, reply }
    })
}

fn call_of(row: &mut Row, part: &str) -> Result<Call, NoMemory> {
    let queue = row.number(part, 3);
    Ok(if field(part, 2) == "put" {
        let content = Bytes::copy_of(row.alloc, field(part, 4).as_bytes())?;
        Call::Put { queue, content }
    } else {
        Call::Get { queue }
    })
}

fn reply_of(row: &mut Row, part: &str) -> Result<Reply, NoMemory> {
    Ok(match field(part, 2) {
        "done" => Reply::Done,
        "nothing" => Reply::Nothing,
        "spent" => Reply::Spent,
        _ => {
            let name = name_of(row, part);
            let content = Bytes::copy_of(row.alloc, field(part, 5).as_bytes())?;
            Reply::Got { name, content }
        }
    })
}

fn name_of(row: &mut Row, part: &str) -> PutName {
    if field(part, 3) == "o" {
        let number = row.number(part, 4);
        PutName::Opening { number }
    } else {
        let seat = row.number(part, 3);
        let number = row.long(part, 4);
        PutName::Of { seat, number }
    }
}

/// `EVENTS`: which of the aspects a history breaks; of one that isn't lawful the others are not
/// judged.
pub fn broken(row: &mut Row, given: &str) {
    let history = History::read(row, given);
    if lawful_calls(&history.events) {
        put_broken(row, &history.opening, &history.events);
    } else {
        row.put(" lawful");
    }
}

/// Adds which of the aspects a lawful history breaks.
fn put_broken(row: &mut Row, opening: &[Bytes], events: &[Event])
    requires { IsLawful events.now }
{
    if !fresh(opening, events) {
        row.put(" fresh");
    }
    if !once(events) {
        row.put(" once");
    }
    if !in_order(opening, events) {
        row.put(" in_order");
    }
    if !empty_right(opening, events) {
        row.put(" empty_right");
    }
}

/// `EVENTS`: the first event, counted from 0, that is out of place.
pub fn first_out_of_place(row: &mut Row, given: &str) {
    let history = History::read(row, given);
    match first_unlawful(row.alloc, &history.events) {
        Ok(event) => row.put_or_none(event),
        Err(_) => row.fail(),
    }
}
