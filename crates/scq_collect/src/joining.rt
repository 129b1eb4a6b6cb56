//! The answer to a message from the answers to its parts.
ghost use Rattle.std.specs.Prelude.{◌≡◌, ◌<◌, ◌≤◌, length, IfOk, IfSome};
ghost use Rattle.std.specs.List.{All};
ghost use Rattle.scq_topics.specs.Exports.{reply_of, kind_of};
ghost use Rattle.scq_collect.specs.Exports.{joined, text_of_parts, answer_of_whole, plain};
ghost use Rattle.scq_collect.specs.Exports.{spot_answer};

use crate::Whole;
use crate::spots::{Spot, read_spot};
use itoa::Buffer;
use scq_topics::{Kind, ReplyBytes, Topics, reply};
use scq_word::NoMemory;
use std::alloc::Global;

/// The answer to the message of these parts.
pub fn whole_of(alloc: Global, topics: &Topics, parts: &[Spot<'_>]) -> Result<Whole, NoMemory>
    requires some { 0 < length parts.now }
    requires known { All (λ s. (spot_answer s).topic ≤ length topics.now) parts.now }
    ensures whole { IfOk result (λ whole.
        answer_of_whole whole ≡ joined topics.now (plain parts.now)) }
    ensures known { IfOk result (λ whole. whole.topic ≤ length topics.now) }
{
    let first = read_spot(&parts[0]);
    let (bytes, reply) = if parts.len() == 1 {
        (first.bytes, ReplyBytes::copy_of(alloc, first.text)?)
    } else {
        reply_to(alloc, topics, first.topic, parts)?
    };
    Ok(Whole {
        file: first.file,
        line: first.line,
        topic: first.topic,
        bytes,
        reply,
    })
}

/// How many bytes the texts of these parts have together, and the reply to them. They are joined
/// only where the reply needs it.
fn reply_to(
    alloc: Global,
    topics: &Topics,
    topic: u32,
    parts: &[Spot<'_>],
) -> Result<(u64, ReplyBytes), NoMemory>
    requires known { topic ≤ length topics.now }
    ensures bytes { IfOk result (λ r. r.0 ≡ length (text_of_parts (plain parts.now))) }
    ensures reply { IfOk result (λ r.
        r.1 ≡ reply_of (kind_of topics.now topic) (text_of_parts (plain parts.now))) }
{
    let len = joined_len(parts).ok_or(NoMemory)?;
    let bytes = len as u64;
    let reply = match topics.kind(topic) {
        Kind::Len => ReplyBytes::copy_of(alloc, Buffer::new().format(bytes).as_bytes())?,
        Kind::Echo => ReplyBytes::from(joined_text(alloc, parts, len)?),
        kind => reply(alloc, kind, joined_text(alloc, parts, len)?.as_slice())?,
    };
    Ok((bytes, reply))
}

/// The texts of parts, one behind the other: so many bytes.
fn joined_text(alloc: Global, parts: &[Spot<'_>], len: usize) -> Result<Vec<u8>, NoMemory>
    ensures { IfOk result (λ text. text.items ≡ text_of_parts (plain parts.now)) }
{
    let mut text = Vec::with_capacity(alloc, len)?;
    'parts: for part in parts {
        text.extend_from_slice(read_spot(part).text)?;
    }
    Ok(text)
}

/// How many bytes the texts of parts have together.
fn joined_len(parts: &[Spot<'_>]) -> Option<usize>
    ensures { IfSome result (λ len. len ≡ length (text_of_parts (plain parts.now))) }
{
    let mut len: usize = 0;
    'parts: for part in parts {
        len = len.checked_add(read_spot(part).text.len())?;
    }
    Some(len)
}
