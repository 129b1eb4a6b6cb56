//! Lines of texts, fields of lines, and what fields say.

use crate::row::Row;
use rows_text::field;
use scq_lines::{content, first_field, next_field, next_line, number, number_below};

/// `TEXT`: the first line and what follows its LF.
pub fn first_line(row: &mut Row, given: &str) {
    let text = row.bytes(given);
    match next_line(text.as_slice()) {
        Some((line, rest)) => {
            row.put_hex(line);
            row.put(":");
            row.put_hex(rest);
        }
        None => row.put("none"),
    }
}

/// `LINE`: the first field and the second.
pub fn fields(row: &mut Row, given: &str) {
    let line = row.bytes(given);
    let (first, rest) = first_field(line.as_slice());
    row.put_hex(first);
    row.put(":");
    match next_field(rest) {
        Some((second, _)) => row.put_hex(second),
        None => row.put("none"),
    }
}

/// `FIELD`: the number that it says.
pub fn number_in(row: &mut Row, given: &str) {
    let text = row.bytes(given);
    row.put_or_none(number(text.as_slice()));
}

/// `BOUND FIELD`: the number that it says below the bound.
pub fn below(row: &mut Row, given: &str) {
    let bound = row.number(given, 0);
    row.put_or_none(number_below(bound, field(given, 1).as_bytes()));
}

/// `FIELD`: the content of at most two bytes that it says.
pub fn content_in(row: &mut Row, given: &str) {
    match content(row.alloc, 2, given.as_bytes()) {
        Ok(Some(content)) => {
            row.put("x");
            row.put_hex(content.bytes());
        }
        Ok(None) => row.put("none"),
        Err(_) => row.fail(),
    }
}
