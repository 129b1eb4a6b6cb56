ghost use Rattle.std.specs.Prelude.{◌≡◌, ℕ, ◌+◌, ◌<◌, ◌≤◌, ◌++◌, List, length, map, slice_index};
ghost use Rattle.std.specs.Prelude.{codes, decimal, IfOk, OnOk};
ghost use Rattle.std.specs.List.{All};
ghost use Rattle.scq_collect.specs.Sums.{AreTotals};
ghost use Rattle.scq_collect.specs.Output.{Answer, answers_to, count_on, bytes_on};
ghost use Rattle.scq_collect.specs.Output.{one_thread_output, reply_line, text_of_answers};
ghost use Rattle.scq_collect.specs.Output.{total_line, total_lines, answer_of_view};
ghost use Rattle.scq_collect.specs.Output.{answer_of_whole};

use crate::Whole;
use crate::totals::{Totals, totals_of};
use crate::whole::AnswerView;
use itoa::{Buffer, write_digits};
use scq_topics::Topics;
use scq_word::{Bytes, NoMemory};
use std::alloc::Global;

/// The most bytes of a position: two numbers of 10 digits, a colon and a space.
const MOST_POSITION: usize = 22;

/// The text of the answers: a line for each, in their order, and then a line of totals for each
/// declared topic and for all others together. It fails only for want of memory.
pub fn output(alloc: Global, topics: &Topics, wholes: &[Whole]) -> Result<Bytes, NoMemory>
    requires { All (λ a. a.topic ≤ length topics.now) wholes.now }
    ensures text { IfOk result (λ bytes.
        bytes ≡ text_of_answers topics.now (map answer_of_whole wholes.now)) }
    ensures one_thread { (contents : List (List ℕ))
        → map answer_of_whole wholes.now ≡ answers_to topics.now 1 contents
        → IfOk result (λ bytes. bytes ≡ one_thread_output topics.now contents) }
{
    let mut text = Vec::new(alloc);
    for whole in wholes {
        push_line(&mut text, topics, &whole.view())?;
    }
    push_totals(&mut text, topics, wholes)?;
    Ok(Bytes::from(text))
}

/// Adds the totals of the answers: a line for each declared topic, and one for all others together.
pub fn push_totals(text: &mut Vec<u8>, topics: &Topics, wholes: &[Whole]) -> Result<(), NoMemory>
    requires { All (λ a. a.topic ≤ length topics.now) wholes.now }
    ensures { OnOk result (text.new.items
        ≡ text.old.items ++ total_lines topics.now (map answer_of_whole wholes.now)) }
{
    let numbers = topics.len() + 1;
    push_all_totals(text, topics, numbers, &totals_of(wholes))
}

/// Adds the lines for these totals, of so many topics with that of all others.
pub fn push_all_totals(
    text: &mut Vec<u8>,
    topics: &Topics,
    numbers: u32,
    totals: &Totals,
) -> Result<(), NoMemory>
    requires numbers { (numbers ≡ length topics.now + 1) × (numbers ≤ 17) }
    ensures { (answers : List Answer) → AreTotals totals.now answers
        → OnOk result (text.new.items ≡ text.old.items ++ total_lines topics.now answers) }
{
    for topic in 0..numbers {
        push_total(text, topics, topic, totals)?;
    }
    Ok(())
}

/// Adds the line for an answer: `file:line topic reply`.
pub fn push_line(
    text: &mut Vec<u8>,
    topics: &Topics,
    answer: &AnswerView<'_>,
) -> Result<(), NoMemory>
    requires { answer.now.topic ≤ length topics.now }
    ensures { OnOk result (text.new.items
        ≡ text.old.items ++ reply_line topics.now (answer_of_view answer.now)) }
{
    push_position(text, answer.file, answer.line)?;
    text.extend_from_slice(topics.name(answer.topic))?;
    text.extend_from_slice(b" ")?;
    text.extend_from_slice(answer.reply)?;
    text.extend_from_slice(b"\n")?;
    Ok(())
}

/// Adds where an answer's message stands: `file:line `. Its digits are written from the last to the
/// first, so that the bytes are pushed once.
fn push_position(text: &mut Vec<u8>, file: u32, line: u32) -> Result<(), NoMemory>
    ensures { OnOk result (text.new.items
        ≡ text.old.items ++ (decimal file ++ codes ":" ++ decimal line ++ codes " ")) }
{
    let mut bytes = [b' '; MOST_POSITION];
    let from = write_digits(u64::from(line), &mut bytes, MOST_POSITION - 1);
    bytes[from - 1] = b':';
    let start = write_digits(u64::from(file), &mut bytes, from - 1);
    text.extend_from_slice(&bytes[start..])?;
    Ok(())
}

/// Adds the line for a topic: `total topic count bytes`.
fn push_total(
    text: &mut Vec<u8>,
    topics: &Topics,
    topic: u32,
    totals: &Totals,
) -> Result<(), NoMemory>
    requires known { topic ≤ length topics.now }
    requires within { topic < 17 }
    ensures { (answers : List Answer) → slice_index totals.now.counts topic ≡ count_on topic answers
        → slice_index totals.now.bytes topic ≡ bytes_on topic answers
        → OnOk result (text.new.items ≡ text.old.items ++ total_line topics.now answers topic) }
{
    text.extend_from_slice(b"total ")?;
    text.extend_from_slice(topics.name(topic))?;
    push_number(text, b" ", u128::from(totals.counts[topic as usize]))?;
    push_number(text, b" ", totals.bytes[topic as usize])?;
    text.extend_from_slice(b"\n")?;
    Ok(())
}

fn push_number(text: &mut Vec<u8>, before: &[u8], number: u128) -> Result<(), NoMemory>
    ensures { OnOk result (text.new.items ≡ text.old.items ++ before.now ++ decimal number) }
{
    text.extend_from_slice(before)?;
    text.extend_from_slice(Buffer::new().format(number).as_bytes())?;
    Ok(())
}
