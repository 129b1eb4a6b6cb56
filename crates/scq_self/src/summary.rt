ghost use Rattle.std.specs.Prelude.{◌≡◌, ◌≤◌, ℕ, [], ◌∷◌, length, map, IfOk};
ghost use Rattle.std.specs.List.{All};
ghost use Rattle.scq_collect.specs.Exports.{answers_to, answer_of_whole};
ghost use Rattle.scq_self.specs.Exports.{generated, self_topics, self_summary, summary_of};

use itoa::Buffer;
use scq_collect::{Whole, output, push_totals};
use scq_topics::Topics;
use scq_word::{Bytes, NoMemory};
use sha2::{Digest, Sha256};
use std::alloc::Global;

/// The summary of so many lines: `lines L`, the totals, and `digest D`, the SHA-256 digest (FIPS
/// 180-4) of the whole output in lower-case hexadecimal.
pub fn summary_text(
    alloc: Global,
    topics: &Topics,
    lines: u32,
    wholes: &[Whole],
) -> Result<Bytes, NoMemory>
    requires { All (λ a. a.topic ≤ length topics.now) wholes.now }
    ensures text { IfOk result (λ bytes.
        bytes ≡ summary_of topics.now lines (map answer_of_whole wholes.now)) }
    ensures of_self { (seed : ℕ) → topics.now ≡ self_topics
        → map answer_of_whole wholes.now ≡ answers_to self_topics 1 (generated seed lines ∷ [])
        → IfOk result (λ bytes. bytes ≡ self_summary seed lines) }
{
    let whole = output(alloc, topics, wholes)?;
    let digest = hex::encode(alloc, Sha256::digest(whole.bytes()))?;
    let mut text = Vec::from_slice(alloc, b"lines ")?;
    text.extend_from_slice(Buffer::new().format(lines).as_bytes())?;
    text.extend_from_slice(b"\n")?;
    push_totals(&mut text, topics, wholes)?;
    text.extend_from_slice(b"digest ")?;
    text.extend_from_slice(digest.as_bytes())?;
    text.extend_from_slice(b"\n")?;
    Ok(Bytes::from(text))
}
