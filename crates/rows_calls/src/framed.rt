//! Messages framed from a source that gives its bytes in pieces, and messages as bytes.
ghost use Rattle.std.specs.Prelude.{◌^◌, ◌≤◌, None};

use crate::row::Row;
use rows_text::field;
use scq_frames::{Framer, Message, decode, encode, parts_of};
use scq_outside::{Cause, Failed, Source};
use scq_topics::Topics;
use scq_word::Bytes;

/// Gives its bytes in pieces of at most one size; none are visible. After so many reads one fails.
#[derive(Drop)]
struct Pieces<'a> {
    rest: &'a [u8],
    size: usize,
    reads: u64,
    faults: u64,
    ends: u64,
}

impl Source for Pieces<'_> {
    ghost faults = { λ s. s.faults };

    ghost ends = { λ s. s.ends };

    ghost left = { λ _. None };

    ghost cause = { λ _. None };

    fn cause(&self) -> Option<Cause> {
        None
    }

    fn read(&mut self, into: &mut [u8]) -> Result<usize, Failed> {
        if self.reads == 0 {
            self.faults = self.faults.saturating_add(1);
            return Err(Failed);
        }
        self.reads -= 1;
        let count = self.rest.len().min(self.size).min(into.len());
        let (piece, rest) = self.rest.split_at(count);
        into[..count].copy_from_slice(piece);
        self.rest = rest;
        if count == 0 {
            self.ends = self.ends.saturating_add(1);
        }
        Ok(count)
    }
}

/// What a framer of file 7 is asked for.
#[derive(Drop)]
struct Limits {
    size: u32,
    most: u64,
    ghost small: { most ≤ 2 ^ 30 },
}

/// `TOPICS SIZE MOST PIECE READS TEXT`, where 0 reads are as many as there are and `-` is no topic:
/// each message with its file, its line, its topic and its payload, and then how the framer ended.
pub fn framed(row: &mut Row, given: &str) {
    let topics = row.topics(field(given, 0));
    let limits = Limits {
        size: row.number(given, 1),
        most: row.long(given, 2).min(1 << 30),
    };
    let reads = row.long(given, 4);
    let text = row.bytes(field(given, 5));
    let source = Pieces {
        rest: text.as_slice(),
        size: row.number(given, 3) as usize,
        reads: if reads == 0 { u64::MAX } else { reads - 1 },
        faults: 0,
        ends: 0,
    };
    put_framed(row, &topics, &limits, source);
}

/// Adds the messages that a framer gives, and how it ends.
fn put_framed(row: &mut Row, topics: &Topics, limits: &Limits, mut source: Pieces<'_>) {
    let Ok(mut framer) = Framer::new(row.alloc, 7, limits.size, limits.most) else {
        return row.fail();
    };
    for _ in 0..100u32 {
        if !put_next(row, &mut framer, topics, &mut source) {
            break;
        }
    }
}

/// Adds the next message or fault, and tells whether more may come.
fn put_next(row: &mut Row, framer: &mut Framer, topics: &Topics, source: &mut Pieces<'_>) -> bool {
    if framer.failed() {
        return false;
    }
    match framer.next(topics, source) {
        Ok(Some(message)) => put_message(row, &message),
        Ok(None) => {
            row.put("end");
            return false;
        }
        Err(fault) => row.put_debug(&fault),
    }
    true
}

fn put_message(row: &mut Row, message: &Message) {
    row.put_value(&message.file);
    row.put(":");
    row.put_numbers(&[message.line.into(), message.topic.into()]);
    row.put(" ");
    row.put_bytes(message.payload.bytes());
    row.put(";");
}

/// `FILE LINE TOPIC SIZE PART PAYLOAD`: the bytes of the message's part in a room of 32.
pub fn encoded(row: &mut Row, given: &str) {
    let (file, line, topic) = (
        row.number(given, 0),
        row.number(given, 1),
        row.number(given, 2),
    );
    match Bytes::copy_of(row.alloc, field(given, 5).as_bytes()) {
        Ok(payload) => put_encoded(
            row,
            given,
            &Message {
                file,
                line,
                topic,
                payload,
            },
        ),
        Err(_) => row.fail(),
    }
}

fn put_encoded(row: &mut Row, given: &str, message: &Message) {
    let (size, part) = (row.number(given, 3), row.number(given, 4));
    if message.payload.bytes().len() > 8 || size == 0 {
        return row.fail();
    }
    if part == 0 || part > parts_of(message, size) {
        return row.fail();
    }
    let mut bytes = [9u8; 32];
    encode(message, size, part, &mut bytes);
    row.put_hex(&bytes);
}

/// `BYTES`: the part that they begin with.
pub fn decoded(row: &mut Row, given: &str) {
    let bytes = row.bytes(given);
    match decode(bytes.as_slice()) {
        Some(view) => {
            row.put_numbers(&[view.file.into(), view.line.into(), view.topic.into()]);
            row.put(" ");
            row.put_numbers(&[view.part.into(), view.parts.into()]);
            row.put(" ");
            row.put_bytes(view.payload);
        }
        None => row.put("none"),
    }
}
