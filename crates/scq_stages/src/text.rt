//! The text of what went through both stages.
ghost use Rattle.std.specs.Prelude.{◌≡◌, ℕ, ◌++◌, List, map, length, sum_by, codes, decimal, IfOk};
ghost use Rattle.std.specs.Prelude.{OnOk};
ghost use Rattle.std.specs.List.Sorted.{IsPermutation};
ghost use Rattle.scq_stages.specs.declared.finished.Finished.{Finished as TheFinished};
ghost use Rattle.scq_collect.specs.Exports.{StandInOrder, IsMerged};
ghost use Rattle.scq_stages.specs.Exports.{finished_in, position_of_finished, without_way};
ghost use Rattle.scq_stages.specs.Exports.{handled_line, text_of_handled, all_handled};
ghost use Rattle.scq_stages.specs.Exports.{one_thread_stage_output};

use crate::Finished;
use crate::ordering::ordered;
use itoa::Buffer;
use scq_word::{Bytes, NoMemory};
use std::alloc::Global;

/// The text of the members of all lists: a line for each, in order of file and line, and then the
/// total. It fails only for want of memory.
pub fn stage_output(alloc: Global, lists: &[Vec<Finished>]) -> Result<Bytes, NoMemory>
    ensures text { IfOk result (λ bytes.
        (all : List TheFinished) × IsMerged position_of_finished (finished_in lists.now) all
        × (bytes ≡ text_of_handled (map without_way all))) }

    // However the members are divided into lists, what is made of them is the same.
    ensures exact { (given : List TheFinished) → StandInOrder position_of_finished given
        → IsPermutation (finished_in lists.now) given
        → IfOk result (λ bytes. bytes ≡ text_of_handled (map without_way given)) }
    ensures one_thread { (contents : List (List ℕ))
        → IsPermutation (map without_way (finished_in lists.now)) (all_handled 1 contents)
        → IfOk result (λ bytes. bytes ≡ one_thread_stage_output contents) }
{
    let members = ordered(alloc, lists)?;
    let mut text = Vec::new(alloc);
    let mut bytes: u128 = 0;
    'members: for (_, _, member) in &members {
        push_line(&mut text, member)?;
        bytes += member.payload.bytes().len() as u128;
    }
    push_total(&mut text, members.len() as u128, bytes)?;
    Ok(Bytes::from(text))
}

/// Adds the line for a member: `file:line bytes`.
fn push_line(text: &mut Vec<u8>, member: &Finished) -> Result<(), NoMemory>
    ensures { OnOk result (text.new.items
        ≡ text.old.items ++ handled_line (without_way member.now)) }
{
    push_number(text, u128::from(member.file))?;
    text.extend_from_slice(b":")?;
    push_number(text, u128::from(member.line))?;
    text.extend_from_slice(b" ")?;
    text.extend_from_slice(member.payload.bytes())?;
    text.extend_from_slice(b"\n")?;
    Ok(())
}

/// Adds the last line: `total count bytes`.
fn push_total(text: &mut Vec<u8>, count: u128, bytes: u128) -> Result<(), NoMemory>
    ensures { OnOk result (text.new.items
        ≡ text.old.items
        ++ (codes "total " ++ decimal count ++ codes " " ++ decimal bytes ++ codes "\n")) }
{
    text.extend_from_slice(b"total ")?;
    push_number(text, count)?;
    text.extend_from_slice(b" ")?;
    push_number(text, bytes)?;
    text.extend_from_slice(b"\n")?;
    Ok(())
}

fn push_number(text: &mut Vec<u8>, number: u128) -> Result<(), NoMemory>
    ensures { OnOk result (text.new.items ≡ text.old.items ++ decimal number) }
{
    text.extend_from_slice(Buffer::new().format(number).as_bytes())?;
    Ok(())
}
