//! Topics, replies by kind, and generated files.
ghost use Rattle.std.specs.Prelude.{◌^◌, ◌<◌};

use crate::row::Row;
use rows_text::{field, word_of};
use scq_self::generate;
use scq_topics::{Kind, Topics, reply};
use sha2::{Digest, Sha256};

fn kind_of(name: &str) -> Option<Kind> {
    Some(match name {
        "len" => Kind::Len,
        "words" => Kind::Words,
        "sum" => Kind::Sum,
        "sha256" => Kind::Sha256,
        "echo" => Kind::Echo,
        _ => return None,
    })
}

/// `KIND PAYLOAD`: the reply's bytes.
pub fn reply_to(row: &mut Row, given: &str) {
    match kind_of(field(given, 0)) {
        Some(kind) => put_reply(row, kind, field(given, 1)),
        None => row.fail(),
    }
}

fn put_reply(row: &mut Row, kind: Kind, payload: &str) {
    let payload = row.bytes(payload);
    match reply(row.alloc, kind, payload.as_slice()) {
        Ok(reply) => row.put_hex(reply.bytes()),
        Err(_) => row.fail(),
    }
}

/// `TABLE`: the names and kinds of the topics, and the length of the longest name, or why they are
/// refused.
pub fn topics(row: &mut Row, given: &str) {
    let Ok(table) = word_of(row.alloc, given) else {
        return row.fail();
    };
    match Topics::read(&table) {
        Ok(topics) => put_topics(row, &topics),
        Err(fault) => row.put_value(&fault),
    }
}

fn put_topics(row: &mut Row, topics: &Topics) {
    for number in 0..topics.len() + 1 {
        row.put_bytes(topics.name(number));
        put_copy(row, &topics.kind(number));
    }
    row.put_value(&topics.most_name());
}

/// Adds an equal kind between spaces.
fn put_copy(row: &mut Row, kind: &Kind) {
    row.put(" ");
    match kind.clone() {
        Ok(kind) => row.put_debug(&kind),
        Err(_) => row.fail(),
    }
    row.put(" ");
}

/// `TABLE NAME`: the topic's number, where `-` is no table.
pub fn found(row: &mut Row, given: &str) {
    let topics = row.topics(field(given, 0));
    row.put_value(&topics.find(field(given, 1).as_bytes()));
}

/// `SEED LINES`: the digest of the generated file.
pub fn generated(row: &mut Row, given: &str) {
    let (seed, lines) = (row.number(given, 0), row.number(given, 1));
    match generate(row.alloc, seed.min(2147483647), lines) {
        Ok(text) => row.put_hex(&Sha256::digest(text.as_slice())),
        Err(_) => row.fail(),
    }
}
