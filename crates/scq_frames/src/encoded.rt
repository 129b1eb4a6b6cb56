ghost use Rattle.std.specs.Prelude.{◌≡◌, ◌^◌, ◌+◌, ◌<◌, ◌≤◌, ◌++◌, length, take, drop, IfSome};
ghost use Rattle.std.specs.Prelude.{[], ◌∷◌, Some, None, MatchOption, replicate};
ghost use Rattle.std.specs.Option.{option_map};
ghost use Rattle.byteorder.specs.Endian.{big_bytes};
ghost use Rattle.scq_frames.specs.Parts.{Part as ThePart, IsNumbered, parts_of as the_parts_of};
ghost use Rattle.scq_frames.specs.Parts.{part_bytes, part_of};
ghost use Rattle.scq_frames.specs.Encoded.{message_bytes, IsEncodable, BeginsWith, number_at};
ghost use Rattle.scq_frames.specs.Encoded.{part_at};
ghost use Rattle.scq_frames.specs.Batches.{bytes_behind, parts_at};
ghost use Rattle.scq_frames.specs.Views.{part_of_view};

use crate::Message;
use byteorder::{BigEndian, ByteOrder};

/// How many bytes a part has beside its payload: its six numbers.
pub const HEAD: usize = 24;

/// A part of a message, whose bytes stay where they are: parts are numbered from 1.
#[derive(Clone, Copy)]
pub struct View<'a> {
    pub file: u32,
    pub line: u32,
    pub topic: u32,
    pub part: u32,
    pub parts: u32,
    pub payload: &'a [u8],
}

/// How many parts of at most `size` bytes a message's payload has: one where it is empty.
pub fn parts_of(message: &Message, size: u32) -> u32
    requires size { 0 < size }
    requires short { length message.now.payload < 2 ^ 32 }
    ensures parts { result ≡ the_parts_of size message.now.payload }
{
    (message.payload.bytes().len() as u32).div_ceil(size).max(1)
}

/// The part of a message with this number.
pub fn view_of(message: &Message, size: u32, part: u32) -> View<'_>
    requires size { 0 < size }
    requires short { length message.now.payload < 2 ^ 32 }
    requires numbered { IsNumbered part (the_parts_of size message.now.payload) }
    ensures { part_of_view result ≡ part_of size message.now part }
{
    View {
        file: message.file,
        line: message.line,
        topic: message.topic,
        part,
        parts: parts_of(message, size),
        payload: bytes_of_part(message.payload.bytes(), size, part),
    }
}

/// The bytes of the part of a payload with this number.
fn bytes_of_part(payload: &[u8], size: u32, part: u32) -> &[u8]
    requires size { 0 < size }
    requires short { length payload.now < 2 ^ 32 }
    requires numbered { IsNumbered part (the_parts_of size payload.now) }
    ensures { result.now ≡ part_bytes size part payload.now }
{
    let rest = &payload[((part - 1) * size) as usize..];
    &rest[..rest.len().min(size as usize)]
}

/// Writes the bytes of the message's part with this number to the front: file, line, topic, the
/// part's length, its number and the number of parts in four bytes each, the highest first, and
/// then the part. What stands behind them stays.
pub fn encode(message: &Message, size: u32, part: u32, into: &mut [u8])
    requires size { 0 < size }
    requires short { length message.now.payload < 2 ^ 32 }
    requires numbered { IsNumbered part (the_parts_of size message.now.payload) }
    requires room { 24 + length (part_bytes size part message.now.payload) ≤ length into.old }
    ensures { into.new ≡ message_bytes (part_of size message.now part)
        ++ drop (24 + length (part_bytes size part message.now.payload)) into.old }
{
    write_part(view_of(message, size, part), into);
}

/// As `encode` writes a part, and the end mark behind it: no part begins there.
pub fn encode_alone(message: &Message, size: u32, part: u32, into: &mut [u8])
    requires size { 0 < size }
    requires short { length message.now.payload < 2 ^ 32 }
    requires numbered { IsNumbered part (the_parts_of size message.now.payload) }
    requires room { 24 + length (part_bytes size part message.now.payload) ≤ length into.old }
    ensures begins { BeginsWith into.new (part_of size message.now part) }
    ensures parts { parts_at into.new ≡ part_of size message.now part ∷ [] }
    ensures len { length into.new ≡ length into.old }
{
    let view = view_of(message, size, part);
    write_part(view, into);
    mark_end(into, HEAD + view.payload.len());
}

/// Writes the end mark at a position: so many zero bytes that no part's bytes begin there.
pub fn mark_end(into: &mut [u8], at: usize)
    requires { at ≤ length into.old }
    ensures before { take at into.new ≡ take at into.old }
    ensures ended { part_at (drop at into.new) ≡ None }
    ensures len { length into.new ≡ length into.old }
{
    write_zeros(into, at, HEAD.min(into.len() - at));
}

/// Writes so many zero bytes at a position.
fn write_zeros(into: &mut [u8], at: usize, len: usize)
    requires { at + len ≤ length into.old }
    ensures { into.new ≡ take at into.old ++ replicate len 0 ++ drop (at + len) into.old }
{
    into[at..at + len].fill(0);
}

/// Writes the bytes of a part to the front.
fn write_part(view: View<'_>, into: &mut [u8])
    requires short { length view.payload.now < 2 ^ 32 }
    requires room { 24 + length view.payload.now ≤ length into.old }
    ensures { into.new ≡ message_bytes (part_of_view view.entry)
        ++ drop (24 + length view.entry.payload.now) into.old }
{
    write_head(view, into);
    write_bytes(into, HEAD, view.payload);
}

/// Writes the six numbers of a part to the front.
pub fn write_head(view: View<'_>, into: &mut [u8])
    requires short { length view.payload.now < 2 ^ 32 }
    requires room { 24 ≤ length into.old }
    ensures { into.new
        ≡ take 24 (message_bytes (part_of_view view.entry)) ++ drop 24 into.old }
{
    write_number(into, 0, view.file);
    write_number(into, 4, view.line);
    write_number(into, 8, view.topic);
    write_number(into, 12, view.payload.len() as u32);
    write_number(into, 16, view.part);
    write_number(into, 20, view.parts);
}

/// Writes a number in four bytes at a position.
fn write_number(into: &mut [u8], at: usize, number: u32)
    requires { at + 4 ≤ length into.old }
    ensures written { into.new ≡ take at into.old ++ big_bytes 4 number ++ drop (at + 4) into.old }
    ensures len { length into.new ≡ length into.old }
{
    BigEndian::write_u32(&mut into[at..at + 4], number);
}

/// Writes bytes at a position.
pub fn write_bytes(into: &mut [u8], at: usize, bytes: &[u8])
    requires { at + length bytes.now ≤ length into.old }
    ensures { into.new ≡ take at into.old ++ bytes.now ++ drop (at + length bytes.now) into.old }
{
    into[at..at + bytes.len()].copy_from_slice(bytes);
}

/// The part whose bytes come first, or `None` exactly where no part's bytes do.
pub fn decode(bytes: &[u8]) -> Option<View<'_>>
    ensures found { IfSome result (λ view. BeginsWith bytes.now (part_of_view view)) }
    ensures numbered { IfSome result (λ view. IsNumbered view.part view.parts) }
    ensures only { (p : ThePart) → IsEncodable p → BeginsWith bytes.now p
        → option_map part_of_view result ≡ Some p }
    ensures part { option_map part_of_view result ≡ part_at bytes.now }
{
    read_part(bytes)
}

/// The part whose bytes come first, and the bytes behind it, where the next part may stand. `None`
/// exactly where `decode` answers it.
pub fn next_part(bytes: &[u8]) -> Option<(View<'_>, &[u8])>
    ensures part { option_map (λ found. part_of_view found.0) result ≡ part_at bytes.now }
    ensures behind { IfSome result (λ found.
        found.1.now ≡ bytes_behind (part_of_view found.0) bytes.now) }
    ensures parts { MatchOption result (parts_at bytes.now ≡ [])
        (λ found. parts_at bytes.now ≡ part_of_view found.0 ∷ parts_at found.1.now) }
    ensures numbered { IfSome result (λ found. IsNumbered found.0.part found.0.parts) }
    ensures shorter { IfSome result (λ found. length found.1.now + 24 ≤ length bytes.now) }
{
    let view = decode(bytes)?;
    Some((view, &bytes[HEAD + view.payload.len()..]))
}

/// How many bytes the part has that comes first: they stand behind its six numbers. `None` exactly
/// where `decode` answers it.
pub fn payload_len(bytes: &[u8]) -> Option<usize>
    ensures len { result ≡ option_map (λ (p : ThePart). length p.payload) (part_at bytes.now) }
    ensures room { IfSome result (λ len. 24 + len ≤ length bytes.now) }
    ensures bytes { IfSome result (λ len.
        option_map (λ (p : ThePart). p.payload) (part_at bytes.now)
        ≡ Some (take len (drop 24 bytes.now))) }
{
    Some(read_part(bytes)?.payload.len())
}

/// The bytes of the part that comes first, where they stand, to be written. `None` exactly where
/// `decode` answers it.
pub fn payload_mut(bytes: &mut [u8]) -> Option<&mut [u8]>
    ensures { option_map (λ payload. payload.now) result
        ≡ option_map (λ (p : ThePart). p.payload) (part_at bytes.old) }
{
    let len = payload_len(bytes)?;
    Some(&mut bytes[24..24 + len])
}

/// The part whose bytes come first.
#[tactic(auto, unfolding(crate::specs::Encoded::part_at))]
fn read_part(bytes: &[u8]) -> Option<View<'_>>
    ensures { option_map part_of_view result ≡ part_at bytes.now }
{
    let (file, rest) = read_number(bytes)?;
    let (line, rest) = read_number(rest)?;
    let (topic, rest) = read_number(rest)?;
    let (len, rest) = read_number(rest)?;
    let (part, rest) = read_number(rest)?;
    let (parts, rest) = read_number(rest)?;
    if part < 1 || parts < part {
        return None;
    }
    let payload = rest.get(..len as usize)?;
    Some(View {
        file,
        line,
        topic,
        part,
        parts,
        payload,
    })
}

/// The number in the first four bytes, and the bytes after it.
#[tactic(auto, unfolding(crate::specs::Encoded::number_at))]
fn read_number(bytes: &[u8]) -> Option<(u32, &[u8])>
    ensures { option_map (λ found. (found.0, found.1.now)) result ≡ number_at bytes.now }
{
    if bytes.len() < 4 {
        return None;
    }
    Some((BigEndian::read_u32(bytes), &bytes[4..]))
}
