//! The two stages: of payloads, in buffers, and the text of what went through both.

use crate::row::Row;
use rows_text::field;
use scq_frames::payload_mut;
use scq_stages::{Finished, StageJob, StageWay, redact, squeeze, stage_output};
use scq_word::Bytes;

/// `PAYLOAD`: what both stages leave of it.
pub fn left(row: &mut Row, given: &str) {
    let mut bytes = row.bytes(given);
    redact(bytes.as_mut_slice());
    let kept = squeeze(bytes.as_mut_slice());
    bytes.truncate(kept);
    row.put_bytes(bytes.as_slice());
}

/// `BYTES`: all of them once the payload of the part that comes first was redacted where it lies,
/// and whether there is one.
pub fn lent(row: &mut Row, given: &str) {
    let mut bytes = row.bytes(given);
    row.put_value(&redacts(bytes.as_mut_slice()));
    row.put(" ");
    row.put_hex(bytes.as_slice());
}

/// Redacts the payload of the part that comes first, and tells whether there is one.
fn redacts(bytes: &mut [u8]) -> bool {
    match payload_mut(bytes) {
        Some(payload) => {
            redact(payload);
            true
        }
        None => false,
    }
}

/// `ORDER SIZE WORKERS`: whether there is such a job, and its numbers.
pub fn job(row: &mut Row, given: &str) {
    let (order, size, workers) = (
        row.number(given, 0),
        row.number(given, 1),
        row.number(given, 2),
    );
    match StageJob::new(order, size, workers) {
        Some(job) => row.put_numbers(&[job.order.into(), job.size.into(), job.workers.into()]),
        None => row.put("none"),
    }
}

/// A member of a list: `FILE LINE WAY NUMBER PAYLOAD`, where the way is `second`, `first` or
/// `direct`.
fn finished_of(row: &mut Row, text: &str) -> Finished {
    let place = row.long(text, 3);
    Finished {
        file: row.number(text, 0),
        line: row.number(text, 1),
        payload: Bytes::from(row.bytes(field(text, 4))),
        way: way_of(field(text, 2), place),
    }
}

fn way_of(way: &str, place: u64) -> StageWay {
    match way {
        "second" => StageWay::Second { place },
        "first" => StageWay::First { place },
        _ => StageWay::Direct { head: place },
    }
}

/// The members of a list, with `,` between them.
fn list_of(row: &mut Row, given: &str) -> Vec<Finished> {
    let mut list = Vec::new(row.alloc);
    for text in given.split(',') {
        if !text.is_empty() && list.push(finished_of(row, text)).is_err() {
            row.fail();
        }
    }
    list
}

/// `LISTS`, with `/` between them and `,` between their members: the text of what stands in them.
pub fn staged(row: &mut Row, given: &str) {
    let mut lists = Vec::new(row.alloc);
    for part in given.split('/') {
        if lists.push(list_of(row, part)).is_err() {
            row.fail();
        }
    }
    match stage_output(row.alloc, lists.as_slice()) {
        Ok(text) => row.put_bytes(text.bytes()),
        Err(_) => row.fail(),
    }
}
