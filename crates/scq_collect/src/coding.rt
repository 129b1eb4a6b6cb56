//! Answers as bytes: numbers in as few as they need, and an answer behind another.
ghost use Rattle.std.specs.Prelude.{◌≡◌, ◌+◌, ◌*◌, ◌<◌, ◌≤◌, ◌==◌, ◌&&◌, ◌++◌, ◌∷◌, []};
ghost use Rattle.std.specs.Prelude.{length, vec_capacity, if◌then◌else◌, IfSome};
ghost use Rattle.std.specs.Option.{option_map};
ghost use Rattle.scq_collect.specs.Coding.{IsCodable, answer_bytes, body_from, number_bytes};
ghost use Rattle.scq_collect.specs.Coding.{number_from, parts_from, place_from, short_from};
ghost use Rattle.scq_collect.specs.Joined.{answer_of_one};
ghost use Rattle.scq_collect.specs.Output.{answer_of_view};
ghost use Rattle.scq_collect.specs.PartViews.{viewed_answer};

use crate::whole::AnswerView;
use byteorder::{BigEndian, ByteOrder};

/// The most bytes of an answer beside its text.
pub const MOST_HEAD: usize = 63;

/// The answer to a part, as `Answered` has it, but for the way. Its text stays where it is.
#[derive(Clone, Copy)]
pub struct PartView<'a> {
    pub file: u32,
    pub line: u32,
    pub topic: u32,
    pub part: u32,
    pub parts: u32,
    pub bytes: u64,
    pub text: &'a [u8],
}

impl<'a> PartView<'a> {
    /// The answer to the message, where this is its one part.
    pub fn whole(&self) -> AnswerView<'a>
        ensures { answer_of_view result ≡ answer_of_one (viewed_answer self.entry.now) }
    {
        AnswerView {
            file: self.file,
            line: self.line,
            topic: self.topic,
            bytes: self.bytes,
            reply: self.text,
        }
    }
}

/// Adds the bytes of an answer that comes behind one to this file and line, where there is room.
pub fn push_answer(block: &mut Vec<u8>, before: (u32, u32), answer: PartView<'_>)
    requires room { length block.old.items + 63 + length answer.text.now ≤ vec_capacity block.old }
    ensures bytes { block.new.items
        ≡ block.old.items ++ answer_bytes before (viewed_answer answer.entry) }
    ensures codable { IsCodable (viewed_answer answer.entry) }
    ensures capacity { vec_capacity block.old ≤ vec_capacity block.new }
{
    let alone = is_alone(answer.part, answer.parts);
    push_number(block, u64::from(answer.file.wrapping_sub(before.0)));
    push_number(block, u64::from(answer.line.wrapping_sub(before.1)));
    push_number(block, topic_code(answer.topic, alone));
    push_parts(block, alone, answer.part, answer.parts);
    push_number(block, answer.bytes);
    push_number(block, answer.text.len() as u64);
    push_bytes(block, answer.text);
}

/// Whether this is a message's one part.
fn is_alone(part: u32, parts: u32) -> bool
    ensures { result ≡ ((part == 1) && (parts == 1)) }
{
    part == 1 && parts == 1
}

/// Twice the topic, and 1 more where the part isn't alone.
fn topic_code(topic: u32, alone: bool) -> u64
    ensures { result ≡ 2 * topic + (if alone then 0 else 1) }
{
    let code = 2 * u64::from(topic);
    if alone { code } else { code + 1 }
}

/// Adds a part's number and the number of parts, unless it is alone.
fn push_parts(block: &mut Vec<u8>, alone: bool, part: u32, parts: u32)
    requires room { length block.old.items + 18 ≤ vec_capacity block.old }
    ensures bytes { block.new.items
        ≡ block.old.items ++ (if alone then [] else number_bytes part ++ number_bytes parts) }
    ensures few { length block.new.items ≤ length block.old.items + 18 }
    ensures capacity { vec_capacity block.old ≤ vec_capacity block.new }
{
    if alone {
        return;
    }
    push_number(block, u64::from(part));
    push_number(block, u64::from(parts));
}

/// Adds the bytes of a number, where there is room for the most that it can have.
fn push_number(block: &mut Vec<u8>, number: u64)
    requires room { length block.old.items + 9 ≤ vec_capacity block.old }
    ensures bytes { block.new.items ≡ block.old.items ++ number_bytes number }
    ensures few { length block.new.items ≤ length block.old.items + 9 }
    ensures capacity { vec_capacity block.old ≤ vec_capacity block.new }
{
    let bytes = number.to_be_bytes();
    if number < 253 {
        block.push_reserved(number as u8);
    } else if number < 1 << 16 {
        push_marked(block, 253, &bytes[6..]);
    } else if number < 1 << 32 {
        push_marked(block, 254, &bytes[4..]);
    } else {
        push_marked(block, 255, &bytes);
    }
}

/// Adds a mark, and the bytes that it stands for.
fn push_marked(block: &mut Vec<u8>, mark: u8, bytes: &[u8])
    requires room { length block.old.items + 1 + length bytes.now ≤ vec_capacity block.old }
    ensures bytes { block.new.items ≡ block.old.items ++ mark ∷ bytes.now }
    ensures capacity { vec_capacity block.old ≤ vec_capacity block.new }
{
    block.push_reserved(mark);
    push_bytes(block, bytes);
}

/// Adds bytes, for which there is room.
fn push_bytes(block: &mut Vec<u8>, bytes: &[u8])
    requires room { length block.old.items + length bytes.now ≤ vec_capacity block.old }
    ensures bytes { block.new.items ≡ block.old.items ++ bytes.now }
    ensures capacity { vec_capacity block.old ≤ vec_capacity block.new }
{
    block.extend_from_slice(bytes).unwrap();
}

/// The file and line whose steps from these come first, and the bytes behind them.
#[tactic(auto, unfolding(crate::specs::Coding::place_from))]
pub fn read_place(before: (u32, u32), bytes: &[u8]) -> Option<((u32, u32), &[u8])>
    ensures read { option_map (λ found. (found.0, found.1.now)) result
        ≡ place_from before bytes.now }
    ensures shorter { IfSome result (λ found. length found.1.now < length bytes.now) }
{
    let (file, rest) = read_short(bytes)?;
    let (line, rest) = read_short(rest)?;
    let place = (before.0.wrapping_add(file), before.1.wrapping_add(line));
    Some((place, rest))
}

/// The answer at this file and line whose other bytes come first, and the bytes behind it.
#[tactic(auto, unfolding(crate::specs::Coding::body_from))]
pub fn read_body(place: (u32, u32), bytes: &[u8]) -> Option<(PartView<'_>, &[u8])>
    ensures read { option_map (λ found. (viewed_answer found.0, found.1.now)) result
        ≡ body_from place bytes.now }
    ensures shorter { IfSome result (λ found. length found.1.now ≤ length bytes.now) }
{
    let (code, rest) = read_number(bytes)?;
    let ((part, parts), rest) = read_parts(code, rest)?;
    let (count, rest) = read_number(rest)?;
    let (len, rest) = read_number(rest)?;
    let topic = u32::try_from(code / 2).ok()?;
    if (rest.len() as u64) < len {
        return None;
    }
    let (text, rest) = rest.split_at(len as usize);
    let answer = PartView {
        file: place.0,
        line: place.1,
        topic,
        part,
        parts,
        bytes: count,
        text,
    };
    Some((answer, rest))
}

/// The number of a part and the number of parts, whose bytes come first unless the code says that
/// it is alone.
#[tactic(auto, unfolding(crate::specs::Coding::parts_from))]
fn read_parts(code: u64, bytes: &[u8]) -> Option<((u32, u32), &[u8])>
    ensures read { option_map (λ found. (found.0, found.1.now)) result ≡ parts_from code bytes.now }
    ensures shorter { IfSome result (λ found. length found.1.now ≤ length bytes.now) }
{
    if code % 2 == 0 {
        return Some(((1, 1), bytes));
    }
    let (part, rest) = read_short(bytes)?;
    let (parts, rest) = read_short(rest)?;
    Some(((part, parts), rest))
}

/// The number of 32 bits whose bytes come first, and the bytes behind it.
#[tactic(auto, unfolding(crate::specs::Coding::short_from))]
fn read_short(bytes: &[u8]) -> Option<(u32, &[u8])>
    ensures read { option_map (λ found. (found.0, found.1.now)) result ≡ short_from bytes.now }
    ensures shorter { IfSome result (λ found. length found.1.now < length bytes.now) }
{
    let (number, rest) = read_number(bytes)?;
    if number >= 1 << 32 {
        return None;
    }
    Some((number as u32, rest))
}

/// The number whose bytes come first, and the bytes behind it.
#[tactic(auto, unfolding(crate::specs::Coding::number_from))]
fn read_number(bytes: &[u8]) -> Option<(u64, &[u8])>
    ensures read { option_map (λ found. (found.0, found.1.now)) result ≡ number_from bytes.now }
    ensures shorter { IfSome result (λ found. length found.1.now < length bytes.now) }
{
    let (first, rest) = bytes.split_first()?;
    if *first < 253 {
        return Some((u64::from(*first), rest));
    }
    let width = match *first {
        253 => 2,
        254 => 4,
        _ => 8,
    };
    if rest.len() < width {
        return None;
    }
    Some((BigEndian::read_uint(rest, width), &rest[width..]))
}
