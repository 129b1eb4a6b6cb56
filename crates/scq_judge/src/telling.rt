//! What is said of places, events and opening tokens.

ghost use Rattle.std.specs.Prelude.{◌≡◌, ◌+◌, ◌<◌, ◌^◌, ◌++◌, ◌-◌, [], Some, decimal, length};
ghost use Rattle.std.specs.Prelude.{map, slice_get, slice_index_or, string_bytes, OnOk};
ghost use Rattle.scq_check.specs.Exports.{own_start};
ghost use Rattle.scq_judge.specs.Telling.{byte_text, hex_digit, name_text, line_text, place_text};
ghost use Rattle.scq_judge.specs.Telling.{put_name_text, got_name_text, seat_text, call_text};
ghost use Rattle.scq_judge.specs.Telling.{call_at_text, event_at_text, token_text, told_by};

use crate::recorded::Place;
use crate::teller::Teller;
use itoa::Buffer;
use scq_hist::{Call, Event, PutName, Reply, puts_before, under_way};
use scq_word::NoMemory;

/// The event at this position: the file's name, the line, and what it is.
pub(crate) fn add_event_at(text: &mut Vec<u8>, teller: Teller<'_>, e: usize) -> Result<(), NoMemory>
    requires { e < length teller.events.now }
    ensures { OnOk result (text.new.items
        ≡ text.old.items ++ event_at_text (told_by teller.entry) e) }
{
    add_place(text, teller.names, teller.places[e])?;
    text.extend_from_slice(b" (")?;
    add_call_at(text, teller.events, e)?;
    text.extend_from_slice(b")")?;
    Ok(())
}

/// The opening token of this number, from 0.
pub(crate) fn add_token(
    text: &mut Vec<u8>,
    teller: Teller<'_>,
    number: usize,
) -> Result<(), NoMemory>
    requires { number < 2 ^ 32 }
    ensures { OnOk result (text.new.items
        ≡ text.old.items ++ token_text (told_by teller.entry) number) }
{
    add_line(text, teller.names, 1, number as u64 + 1)?;
    text.extend_from_slice(b" (opening ")?;
    add_number(text, number as u64)?;
    text.extend_from_slice(b")")?;
    Ok(())
}

pub(crate) fn add_number(text: &mut Vec<u8>, number: u64) -> Result<(), NoMemory>
    ensures { OnOk result (text.new.items ≡ text.old.items ++ decimal number) }
{
    text.extend_from_slice(Buffer::new().format(number).as_bytes())?;
    Ok(())
}

fn add_place(text: &mut Vec<u8>, names: &[String], place: Place) -> Result<(), NoMemory>
    ensures { OnOk result (text.new.items
        ≡ text.old.items ++ place_text (map string_bytes names.now) place) }
{
    add_line(text, names, place.file, u64::from(place.line))
}

// A line of the file of this number, from 1.
fn add_line(text: &mut Vec<u8>, names: &[String], file: u32, line: u64) -> Result<(), NoMemory>
    ensures { OnOk result (text.new.items
        ≡ text.old.items ++ line_text (map string_bytes names.now) file line) }
{
    add_name(text, name_of(names, file))?;
    text.extend_from_slice(b" line ")?;
    add_number(text, line)
}

// The name of the file of this number, from 1.
fn name_of(names: &[String], file: u32) -> &[u8]
    ensures { result.now ≡ slice_index_or (map string_bytes names.now) (file - 1) [] }
{
    match names.get((file as usize).saturating_sub(1)) {
        Some(name) => name.as_bytes(),
        None => b"",
    }
}

// A name, with `\xHH` for each byte below 33 or above 126.
fn add_name(text: &mut Vec<u8>, name: &[u8]) -> Result<(), NoMemory>
    ensures { OnOk result (text.new.items ≡ text.old.items ++ name_text name.now) }
{
    for byte in name {
        add_byte(text, *byte)?;
    }
    Ok(())
}

fn add_byte(text: &mut Vec<u8>, byte: u8) -> Result<(), NoMemory>
    ensures { OnOk result (text.new.items ≡ text.old.items ++ byte_text byte) }
{
    if (33..=126).contains(&byte) {
        text.push(byte)?;
        return Ok(());
    }
    text.extend_from_slice(b"\\x")?;
    text.push(hex_digit(byte / 16))?;
    text.push(hex_digit(byte % 16))?;
    Ok(())
}

fn hex_digit(n: u8) -> u8
    requires { n < 16 }
    ensures { result ≡ hex_digit n }
{
    if n < 10 { n + b'0' } else { n - 10 + b'a' }
}

// The call that the event at this position belongs to, and what that has got.
fn add_call_at(text: &mut Vec<u8>, events: &[Event], e: usize) -> Result<(), NoMemory>
    requires { e < length events.now }
    ensures { OnOk result (text.new.items ≡ text.old.items ++ call_at_text events.now e) }
{
    let s = own_start(events, e);
    add_call(text, events, s, event_at(events, s))?;
    add_got_name(text, event_at(events, e))
}

/// The event at this position.
pub(crate) fn event_at(events: &[Event], i: usize) -> &Event
    requires { i < length events.now }
    ensures { slice_get events.now i ≡ Some result.now }
{
    &events[i]
}

// The position of the Start of that call.
fn own_start(events: &[Event], e: usize) -> usize
    requires { e < length events.now }
    ensures start { result ≡ own_start events.now e (slice_get events.now e) }
    ensures within { result < length events.now }
{
    match &events[e] {
        Event::Start { .. } => e,
        Event::End { seat, .. } => under_way(events, *seat, e).unwrap_or(e),
    }
}

// The call that starts at this position by this event.
fn add_call(text: &mut Vec<u8>, events: &[Event], s: usize, event: &Event) -> Result<(), NoMemory>
    requires { s < length events.now }
    ensures { OnOk result (text.new.items
        ≡ text.old.items ++ call_text events.now s (Some event.now)) }
{
    match event {
        Event::Start {
            seat,
            call: Call::Put { queue, .. },
        } => {
            add_seat(text, *queue, *seat)?;
            text.extend_from_slice(b" put ")?;
            add_number(text, puts_before(events, *seat, s) + 1)
        }
        Event::Start {
            seat,
            call: Call::Get { queue },
        } => add_seat(text, *queue, *seat),
        Event::End { .. } => Ok(()),
    }
}

fn add_seat(text: &mut Vec<u8>, queue: u32, seat: u32) -> Result<(), NoMemory>
    ensures { OnOk result (text.new.items ≡ text.old.items ++ seat_text queue seat) }
{
    text.extend_from_slice(b"queue ")?;
    add_number(text, u64::from(queue))?;
    text.extend_from_slice(b" seat ")?;
    add_number(text, u64::from(seat))
}

// The put that a get has got which ends by this event.
fn add_got_name(text: &mut Vec<u8>, event: &Event) -> Result<(), NoMemory>
    ensures { OnOk result (text.new.items ≡ text.old.items ++ got_name_text (Some event.now)) }
{
    match event {
        Event::End {
            reply: Reply::Got { name, .. },
            ..
        } => {
            text.extend_from_slice(b" got ")?;
            add_put_name(text, *name)
        }
        _ => Ok(()),
    }
}

pub(crate) fn add_put_name(text: &mut Vec<u8>, name: PutName) -> Result<(), NoMemory>
    ensures { OnOk result (text.new.items ≡ text.old.items ++ put_name_text name) }
{
    match name {
        PutName::Opening { number } => {
            text.extend_from_slice(b"opening ")?;
            add_number(text, u64::from(number))
        }
        PutName::Of { seat, number } => {
            text.extend_from_slice(b"put ")?;
            add_number(text, number)?;
            text.extend_from_slice(b" of seat ")?;
            add_number(text, u64::from(seat))
        }
    }
}
