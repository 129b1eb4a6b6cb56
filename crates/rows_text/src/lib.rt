//! The texts of rows of data. `\` and a letter stand for a byte: `\n` LF, `\r` CR, `\t` a tab, `\s`
//! a space, `\b` the backslash, `\xHH` any byte. `\*65536;TEXT;` is a text 65,536 times over, in
//! which `/` is an LF. `\e` stands for nothing, and `\c` at the end of a line says that no LF
//! follows. The programs that run rows stand on it.
#![tactic(auto)]

mod rows;

use anyhow::{Context, Result, ensure};
pub use rows::{Calls, field, run_file};
use std::alloc::Global;

/// Adds the bytes of a line, and its LF.
pub fn add_line(into: &mut Vec<u8>, text: &str) -> Result<()> {
    let is_said = match text.strip_suffix("\\c") {
        Some(front) => add_said(into, front),
        None => add_said(into, text) & into.push(b'\n').is_ok(),
    };
    ensure!(is_said, "a line of bytes, or memory");
    Ok(())
}

/// The text that a text says.
pub fn word_of(alloc: Global, text: &str) -> Result<String> {
    let mut bytes = Vec::new(alloc);
    add_bytes(&mut bytes, text)?;
    String::from_utf8(bytes)
        .ok()
        .context("bytes that are no text")
}

/// Adds the bytes that a text says.
pub fn add_bytes(into: &mut Vec<u8>, text: &str) -> Result<()> {
    ensure!(add_said(into, text), "a text of bytes, or memory");
    Ok(())
}

/// Adds the bytes that a text says. It tells whether the text says any and there is memory for
/// them, and so do those below.
fn add_said(into: &mut Vec<u8>, text: &str) -> bool {
    let (front, parts) = text.split_once('\\').unwrap_or((text, "e"));
    let mut is_said = add(into, front.as_bytes());
    for part in parts.split('\\') {
        is_said &= add_part(into, part);
    }
    is_said
}

/// Adds what a `\` and a text say.
fn add_part(into: &mut Vec<u8>, part: &str) -> bool {
    match part.as_bytes() {
        [] => true,
        [b'*', ..] => add_repeated(into, part),
        [b'x', rest @ ..] => add_digits(into, rest),
        [letter, rest @ ..] => add_letter(into, *letter) & add(into, rest),
    }
}

/// Adds the byte that a letter stands for.
fn add_letter(into: &mut Vec<u8>, letter: u8) -> bool {
    let byte = match letter {
        b'n' => b'\n',
        b'r' => b'\r',
        b't' => b'\t',
        b's' => b' ',
        b'b' => b'\\',
        _ => return letter == b'e',
    };
    into.push(byte).is_ok()
}

/// Adds the byte that two digits say, and what follows it.
fn add_digits(into: &mut Vec<u8>, said: &[u8]) -> bool {
    let [high, low, rest @ ..] = said else {
        return false;
    };
    let (high, low) = (digit(*high), digit(*low));
    high < 16 && low < 16 && into.push(high * 16 + low).is_ok() && add(into, rest)
}

/// A hexadecimal digit, or 16.
fn digit(byte: u8) -> u8 {
    match byte {
        b'0'..=b'9' => byte - b'0',
        b'a'..=b'f' => byte - b'a' + 10,
        _ => 16,
    }
}

/// Adds a text as often as is said, as in `*3;ab/;`, and what follows it.
fn add_repeated(into: &mut Vec<u8>, part: &str) -> bool {
    let Some((times, after)) = part.split_once(';') else {
        return false;
    };
    let Some((text, rest)) = after.split_once(';') else {
        return false;
    };
    match times.strip_prefix('*').unwrap_or("").parse::<u32>() {
        Ok(times) => add_times(into, times, text) & add(into, rest.as_bytes()),
        Err(_) => false,
    }
}

/// Adds a text so often, in which `/` is an LF.
fn add_times(into: &mut Vec<u8>, times: u32, text: &str) -> bool {
    let mut is_said = true;
    for _ in 0..times {
        for byte in text.bytes() {
            is_said &= into.push(if byte == b'/' { b'\n' } else { byte }).is_ok();
        }
    }
    is_said
}

fn add(into: &mut Vec<u8>, bytes: &[u8]) -> bool {
    into.extend_from_slice(bytes).is_ok()
}
