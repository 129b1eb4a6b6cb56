//! The calls that rows can make.

use crate::answers::{merged, written};
use crate::buffers::{carved, copied, filled, reversed};
use crate::entries::{cycle, entry, limit, met, reset, setup, shape, slot};
use crate::faults::fault_text;
use crate::framed::{decoded, encoded, framed};
use crate::histories::{broken, first_out_of_place};
use crate::lined::{below, content_in, fields, first_line, number_in};
use crate::outside::{opened, plain, streamed, taken, told};
use crate::row::Row;
use crate::runs::run;
use crate::staged::{job, left, lent, staged};
use crate::topical::{found, generated, reply_to, topics};
use crate::worded::{many, read_whole, request};
use anyhow::{Context, Result};
use rows_text::Calls;
use std::alloc::Global;

/// The calls of the libraries.
pub struct Libraries;

impl Calls for Libraries {
    fn add_answer(&self, alloc: Global, into: &mut String, call: &str, given: &str) -> Result<()> {
        let mut row = Row::new(alloc);
        of_entries(&mut row, call, given);
        let answer = row.answer().context("a call, what it is given, or memory")?;
        Ok(into.push_str(&answer)?)
    }
}

/// Adds what a call answers, of entries or of what the next knows, and so do they.
fn of_entries(row: &mut Row, call: &str, given: &str) {
    match call {
        "entry" => entry(row, given),
        "cycle" => cycle(row, given),
        "slot" => slot(row, given),
        "met" => met(row, given),
        "shape" => shape(row, given),
        "setup" => setup(row, given),
        "reset" => reset(row, given),
        "limit" => limit(row, given),
        _ => of_lines(row, call, given),
    }
}

fn of_lines(row: &mut Row, call: &str, given: &str) {
    match call {
        "broken" => broken(row, given),
        "place" => first_out_of_place(row, given),
        "line" => first_line(row, given),
        "fields" => fields(row, given),
        "number" => number_in(row, given),
        "below" => below(row, given),
        "content" => content_in(row, given),
        _ => of_messages(row, call, given),
    }
}

fn of_messages(row: &mut Row, call: &str, given: &str) {
    match call {
        "framed" => framed(row, given),
        "encoded" => encoded(row, given),
        "decoded" => decoded(row, given),
        "merged" => merged(row, given),
        "written" => written(row, given),
        "reply" => reply_to(row, given),
        "topics" => topics(row, given),
        "found" => found(row, given),
        _ => of_words(row, call, given),
    }
}

fn of_words(row: &mut Row, call: &str, given: &str) {
    match call {
        "generated" => generated(row, given),
        "words" => request(row, given),
        "many" => many(row, given),
        "whole" => read_whole(row, given),
        "plain" => plain(row, given),
        "told" => told(row, given),
        "taken" => taken(row, given),
        _ => of_buffers(row, call, given),
    }
}

fn of_buffers(row: &mut Row, call: &str, given: &str) {
    match call {
        "opened" => opened(row, given),
        "streamed" => streamed(row, given),
        "filled" => filled(row, given),
        "copied" => copied(row, given),
        "carved" => carved(row, given),
        "reversed" => reversed(row),
        _ => of_stages(row, call, given),
    }
}

fn of_stages(row: &mut Row, call: &str, given: &str) {
    match call {
        "run" => run(row, given),
        "left" => left(row, given),
        "lent" => lent(row, given),
        "job" => job(row, given),
        "staged" => staged(row, given),
        "fault" => fault_text(row, given),
        _ => row.fail(),
    }
}
