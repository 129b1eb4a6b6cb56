//! The lines of a history's text, read one by one.

ghost use Rattle.std.specs.Prelude.{◌≡◌, [], ◌∷◌, IfOk};
ghost use Rattle.std.specs.Str.{bytes_eq};
ghost use Rattle.scq_lines.specs.Exports.{fields_of, fields_after};
ghost use Rattle.scq_check.specs.Line.{seat_in, said_content, said_name, call_of, bare_reply};
ghost use Rattle.scq_check.specs.Line.{said_reply};
ghost use Rattle.scq_check.specs.Line.{opened, said_start, said_end, said};

use scq_hist::{Call, Event, PutName, Reply};
use scq_lines::{content, first_field, next_field, number, number_up_to};
use scq_word::{Bytes, NoMemory};
use std::alloc::Global;

/// The greatest seat, queue and number of an opening token that a line may name.
#[derive(Clone, Copy)]
pub struct Bounds {
    pub seat: u32,
    pub queue: u32,
    pub token: u32,
}

/// The last queue that a history may name which is read whole.
const LAST_QUEUE: u32 = 17;

/// The bounds of a history that is read whole.
pub(crate) const SMALL: Bounds = Bounds {
    seat: 4095,
    queue: LAST_QUEUE,
    token: 4095,
};

// The most bytes of a content.
const MOST_CONTENT: u32 = 64;

/// What a line says.
#[derive(Drop)]
pub enum Line {
    /// `opening X`
    Opening { content: Bytes },
    /// `start S ..` or `end S ..`
    Happens { event: Event },
}

// Whether a field is this word.
fn is_word(field: &[u8], word: &[u8]) -> bool
    ensures { result ≡ bytes_eq field.now word.now }
{
    field == word
}

/// What a line says within these bounds, where it is of the form.
pub(crate) fn read_line(
    alloc: Global,
    bounds: Bounds,
    text: &[u8],
) -> Result<Option<Line>, NoMemory>
    ensures { IfOk result (λ line. line ≡ said bounds (fields_of text.now)) }
{
    let (word, rest) = first_field(text);
    read_fields(alloc, bounds, word, rest)
}

/// What the fields of a line say within these bounds: its first word, and what follows that, from
/// the space on.
pub fn read_fields(
    alloc: Global,
    bounds: Bounds,
    word: &[u8],
    rest: &[u8],
) -> Result<Option<Line>, NoMemory>
    ensures { IfOk result (λ line. line ≡ said bounds (word.now ∷ fields_after rest.now)) }
{
    let Some((field, rest)) = next_field(rest) else {
        return Ok(None);
    };
    if is_word(word, b"opening") {
        opening(alloc, field, rest)
    } else if is_word(word, b"start") {
        start(alloc, bounds, field, rest)
    } else if is_word(word, b"end") {
        end(alloc, bounds, field, rest)
    } else {
        Ok(None)
    }
}

// `opening X`, from X on.
fn opening(alloc: Global, field: &[u8], rest: &[u8]) -> Result<Option<Line>, NoMemory>
    ensures { IfOk result (λ line. line ≡ opened (said_content field.now) (fields_after rest.now)) }
{
    if next_field(rest).is_some() {
        return Ok(None);
    }
    match content(alloc, MOST_CONTENT, field)? {
        Some(content) => Ok(Some(Line::Opening { content })),
        None => Ok(None),
    }
}

// `start S CALL`, from S on.
fn start(alloc: Global, bounds: Bounds, field: &[u8], rest: &[u8]) -> Result<Option<Line>, NoMemory>
    ensures { IfOk result (λ line.
        line ≡ said_start (seat_in bounds field.now) (call_of bounds (fields_after rest.now))) }
{
    let Some(seat) = number_up_to(bounds.seat, field) else {
        return Ok(None);
    };
    match call(alloc, bounds, rest)? {
        Some(call) => Ok(Some(Line::Happens {
            event: Event::Start { seat, call },
        })),
        None => Ok(None),
    }
}

// `end S REPLY`, from S on.
fn end(alloc: Global, bounds: Bounds, field: &[u8], rest: &[u8]) -> Result<Option<Line>, NoMemory>
    ensures { IfOk result (λ line.
        line ≡ said_end (seat_in bounds field.now) (said_reply bounds (fields_after rest.now))) }
{
    let Some(seat) = number_up_to(bounds.seat, field) else {
        return Ok(None);
    };
    match reply(alloc, bounds, rest)? {
        Some(reply) => Ok(Some(Line::Happens {
            event: Event::End { seat, reply },
        })),
        None => Ok(None),
    }
}

// `put Q X` or `get Q`.
fn call(alloc: Global, bounds: Bounds, rest: &[u8]) -> Result<Option<Call>, NoMemory>
    ensures { IfOk result (λ call. call ≡ call_of bounds (fields_after rest.now)) }
{
    let Some((word, rest)) = next_field(rest) else {
        return Ok(None);
    };
    let Some((queue, rest)) = next_field(rest) else {
        return Ok(None);
    };
    match next_field(rest) {
        None => Ok(get(bounds, word, queue)),
        Some((field, rest)) => put(alloc, bounds, word, queue, field, rest),
    }
}

fn get(bounds: Bounds, word: &[u8], queue: &[u8]) -> Option<Call>
    ensures { result ≡ call_of bounds (word.now ∷ queue.now ∷ []) }
{
    match number_up_to(bounds.queue, queue) {
        Some(queue) if is_word(word, b"get") => Some(Call::Get { queue }),
        _ => None,
    }
}

fn put(
    alloc: Global,
    bounds: Bounds,
    word: &[u8],
    queue: &[u8],
    field: &[u8],
    rest: &[u8],
) -> Result<Option<Call>, NoMemory>
    ensures { IfOk result (λ call.
        call ≡ call_of bounds (word.now ∷ queue.now ∷ field.now ∷ fields_after rest.now)) }
{
    if !is_word(word, b"put") || next_field(rest).is_some() {
        return Ok(None);
    }
    let Some(queue) = number_up_to(bounds.queue, queue) else {
        return Ok(None);
    };
    match content(alloc, MOST_CONTENT, field)? {
        Some(content) => Ok(Some(Call::Put { queue, content })),
        None => Ok(None),
    }
}

// `done`, `nothing`, `spent` or `got NAME X`.
fn reply(alloc: Global, bounds: Bounds, rest: &[u8]) -> Result<Option<Reply>, NoMemory>
    ensures { IfOk result (λ reply. reply ≡ said_reply bounds (fields_after rest.now)) }
{
    let Some((word, rest)) = next_field(rest) else {
        return Ok(None);
    };
    match next_field(rest) {
        None => Ok(bare_reply(word)),
        Some((by, rest)) => got(alloc, bounds, word, by, rest),
    }
}

fn bare_reply(word: &[u8]) -> Option<Reply>
    ensures { result ≡ bare_reply word.now }
{
    if is_word(word, b"done") {
        Some(Reply::Done)
    } else if is_word(word, b"nothing") {
        Some(Reply::Nothing)
    } else if is_word(word, b"spent") {
        Some(Reply::Spent)
    } else {
        None
    }
}

fn got(
    alloc: Global,
    bounds: Bounds,
    word: &[u8],
    by: &[u8],
    rest: &[u8],
) -> Result<Option<Reply>, NoMemory>
    ensures { IfOk result (λ reply.
        reply ≡ said_reply bounds (word.now ∷ by.now ∷ fields_after rest.now)) }
{
    let Some((number, rest)) = next_field(rest) else {
        return Ok(None);
    };
    let Some((field, rest)) = next_field(rest) else {
        return Ok(None);
    };
    if !is_word(word, b"got") || next_field(rest).is_some() {
        return Ok(None);
    }
    let Some(name) = name(bounds, by, number) else {
        return Ok(None);
    };
    match content(alloc, MOST_CONTENT, field)? {
        Some(content) => Ok(Some(Reply::Got { name, content })),
        None => Ok(None),
    }
}

// `o J` for an opening token, `S2 N` for a put of a seat.
fn name(bounds: Bounds, by: &[u8], field: &[u8]) -> Option<PutName>
    ensures { result ≡ said_name bounds by.now field.now }
{
    if is_word(by, b"o") {
        let number = number_up_to(bounds.token, field)?;
        return Some(PutName::Opening { number });
    }
    let seat = number_up_to(bounds.seat, by)?;
    let number = number(field)?;
    Some(PutName::Of { seat, number })
}
