//! The lines that are printed of the steps of a schedule.

ghost use Rattle.std.specs.Prelude.{◌≡◌, ◌+◌, ◌++◌, ◌<◌, ◌≤◌, ◌^◌, pos, codes, decimal, Some};
ghost use Rattle.std.specs.Prelude.{IfSome, OnOk};
ghost use Rattle.std.specs.Fmt.{signed_decimal};
ghost use Rattle.std.specs.Option.{option_copied};
ghost use Rattle.scq_core.specs.Exports.{IsReachable, machine_of, ring_slots};
ghost use Rattle.scq_lines.specs.Exports.{content_text};
ghost use Rattle.scq_replay.specs.Exports.{step_name, begins_on, call_ring, head_words};
ghost use Rattle.scq_replay.specs.Exports.{entry_words, counter_words, threshold_words};
ghost use Rattle.scq_replay.specs.Exports.{printed_ring, reply_words, step_line};

use itoa::Buffer;
use scq_core::{Ended, State, Step};
use scq_law::ended;
use scq_word::{Bytes, NoMemory};

/// The ring of the call that a step of the seat begins or goes on with.
pub(crate) fn call_ring(state: &State, seat: u32, step: &Step) -> u32
    requires seat { seat < state.now.setup.seats }
    requires begun { IfSome (begins_on step.now) (λ ring. ring < state.now.setup.rings) }
    requires reachable { IsReachable state.now.setup (machine_of state.now) }
    ensures ring { result ≡ call_ring step.now ((machine_of state.now).part seat).phase }
    ensures low { result < state.now.setup.rings }
{
    match begun_on(step) {
        Some(ring) => ring,
        None => state.ring_of(seat).unwrap_or(0),
    }
}

fn begun_on(step: &Step) -> Option<u32>
    ensures { result ≡ begins_on step.now }
{
    match step {
        Step::E1 { ring, .. } => Some(*ring),
        Step::D1 { ring } => Some(*ring),
        _ => None,
    }
}

/// Adds the line of a step, which has led to the state. A ring has so many slots.
pub(crate) fn add_step(
    text: &mut Vec<u8>,
    number: u32,
    seat: u32,
    step: &Step,
    ring: u32,
    slots: u32,
    state: &State,
) -> Result<(), NoMemory>
    requires seat { seat < state.now.setup.seats }
    requires ring { ring < state.now.setup.rings }
    requires slots { slots ≡ ring_slots state.now.setup }
    ensures { OnOk result (text.new.items ≡ text.old.items
        ++ step_line state.now.setup number seat step.now ring (machine_of state.now)) }
{
    add_head(text, number, seat, step)?;
    add_ring(text, ring, slots, state)?;
    add_reply(text, ended(state, seat))?;
    text.extend_from_slice(b"\n")?;
    Ok(())
}

fn add_head(text: &mut Vec<u8>, number: u32, seat: u32, step: &Step) -> Result<(), NoMemory>
    ensures { OnOk result (text.new.items ≡ text.old.items ++ head_words number seat step.now) }
{
    add_number(text, b"", u64::from(number))?;
    add_number(text, b" ", u64::from(seat))?;
    text.extend_from_slice(b" ")?;
    text.extend_from_slice(step_name(step))?;
    Ok(())
}

pub(crate) fn add_number(text: &mut Vec<u8>, before: &[u8], number: u64) -> Result<(), NoMemory>
    ensures { OnOk result (text.new.items ≡ text.old.items ++ before.now ++ decimal number) }
{
    text.extend_from_slice(before)?;
    text.extend_from_slice(Buffer::new().format(number).as_bytes())?;
    Ok(())
}

fn step_name(step: &Step) -> &'static [u8]
    ensures { result.now ≡ step_name step.now }
{
    match step {
        Step::E1 { .. } => b"E1",
        Step::E1Again => b"E1",
        Step::E2 => b"E2",
        Step::E3 => b"E3",
        Step::E4 => b"E4",
        Step::E5 => b"E5",
        Step::E6 => b"E6",
        Step::D1 { .. } => b"D1",
        Step::D2 => b"D2",
        Step::D3 => b"D3",
        Step::D4 => b"D4",
        Step::D5 => b"D5",
        Step::D6 => b"D6",
        Step::D7 => b"D7",
        Step::D8 => b"D8",
        Step::D9 => b"D9",
        Step::D10 => b"D10",
    }
}

fn add_ring(text: &mut Vec<u8>, ring: u32, slots: u32, state: &State) -> Result<(), NoMemory>
    requires ring { ring < state.now.setup.rings }
    requires slots { slots ≡ ring_slots state.now.setup }
    ensures { OnOk result (text.new.items
        ≡ text.old.items ++ printed_ring state.now.setup (machine_of state.now).cells ring) }
{
    add_counters(text, ring, state)?;
    add_threshold(text, ring, state)?;
    text.extend_from_slice(b" entries")?;
    add_entries(text, ring, slots, state)
}

fn add_counters(text: &mut Vec<u8>, ring: u32, state: &State) -> Result<(), NoMemory>
    requires { ring < state.now.setup.rings }
    ensures { OnOk result (text.new.items ≡ text.old.items
        ++ counter_words ring ((machine_of state.now).cells.head ring)
        ((machine_of state.now).cells.tail ring)) }
{
    add_number(text, b" ring ", u64::from(ring))?;
    add_number(text, b" head ", state.head(ring))?;
    add_number(text, b" tail ", state.tail(ring))
}

fn add_threshold(text: &mut Vec<u8>, ring: u32, state: &State) -> Result<(), NoMemory>
    requires { ring < state.now.setup.rings }
    ensures { OnOk result (text.new.items
        ≡ text.old.items ++ threshold_words ((machine_of state.now).cells.threshold ring)) }
{
    text.extend_from_slice(b" threshold ")?;
    add_signed(text, state.threshold(ring))
}

fn add_signed(text: &mut Vec<u8>, number: i64) -> Result<(), NoMemory>
    ensures { OnOk result (text.new.items ≡ text.old.items ++ signed_decimal number) }
{
    text.extend_from_slice(Buffer::new().format(number).as_bytes())?;
    Ok(())
}

fn add_entries(text: &mut Vec<u8>, ring: u32, slots: u32, state: &State) -> Result<(), NoMemory>
    requires ring { ring < state.now.setup.rings }
    requires slots { slots ≡ ring_slots state.now.setup }
    ensures { OnOk result (text.new.items ≡ text.old.items
        ++ entry_words ((machine_of state.now).cells.entries.word ring)
        (ring_slots state.now.setup)) }
{
    for slot in 0..slots {
        add_number(text, b" ", state.entry(ring, slot))?;
    }
    Ok(())
}

pub(crate) fn add_reply(text: &mut Vec<u8>, ended: Option<&Ended>) -> Result<(), NoMemory>
    ensures { OnOk result (text.new.items
        ≡ text.old.items ++ reply_words (option_copied ended.entry)) }
{
    match ended {
        Some(ended) => add_ended(text, ended),
        None => Ok(()),
    }
}

fn add_ended(text: &mut Vec<u8>, ended: &Ended) -> Result<(), NoMemory>
    ensures { OnOk result (text.new.items ≡ text.old.items ++ reply_words (Some ended.now)) }
{
    match ended {
        Ended::Done { place, .. } => add_number(text, b" done ", *place),
        Ended::Got { place, content, .. } => add_got(text, *place, content),
        Ended::Nothing { .. } => Ok(text.extend_from_slice(b" nothing")?),
        Ended::Spent { ticket, .. } => add_number(text, b" spent ", *ticket),
    }
}

fn add_got(text: &mut Vec<u8>, place: u64, content: &Bytes) -> Result<(), NoMemory>
    ensures { OnOk result (text.new.items
        ≡ text.old.items ++ codes " got " ++ decimal place ++ codes " "
        ++ content_text content.now) }
{
    add_number(text, b" got ", place)?;
    text.extend_from_slice(b" ")?;
    add_content(text, content)
}

fn add_content(text: &mut Vec<u8>, content: &Bytes) -> Result<(), NoMemory>
    ensures { OnOk result (text.new.items ≡ text.old.items ++ content_text content.now) }
{
    if content.bytes().is_empty() {
        text.extend_from_slice(b"-")?;
        return Ok(());
    }
    let alloc = *text.allocator();
    text.extend_from_slice(hex::encode(alloc, content.bytes())?.as_bytes())?;
    Ok(())
}
