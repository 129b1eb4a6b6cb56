//! Replies of calls, as rows say them.
use scq_queue::{Closed, Counts, HeapBuffer, LendRefusal, TakeRefusal};
use scq_word::BufferRef;
use std::alloc::AllocError;

/// What a call is answered: the index that was lent, the place of a send or a take, the head of a
/// Full or an Empty, the ticket of a Spent. `Odd` is the reply to a row that says no call, or one
/// that can't be made.
#[derive(Clone, Copy)]
pub enum Reply {
    Index(u32),
    Place(u64),
    Back,
    Written,
    Full(u64),
    Empty(u64),
    Spent(u64),
    Odd,
}

pub fn of_lend(refusal: LendRefusal) -> Reply {
    match refusal {
        LendRefusal::Full { head } => Reply::Full(head),
        LendRefusal::Spent { ticket } => Reply::Spent(ticket),
    }
}

pub fn of_take(refusal: TakeRefusal) -> Reply {
    match refusal {
        TakeRefusal::Empty { head } => Reply::Empty(head),
        TakeRefusal::Spent { ticket } => Reply::Spent(ticket),
    }
}

/// Adds a reply.
pub fn tell(into: &mut String, reply: Reply) -> Result<(), AllocError> {
    match reply {
        Reply::Index(index) => write!(into, "{index};"),
        Reply::Place(place) => write!(into, "{place};"),
        Reply::Back => into.push_str("back;"),
        Reply::Written => into.push_str("ok;"),
        Reply::Full(head) => write!(into, "full {head};"),
        Reply::Empty(head) => write!(into, "empty {head};"),
        Reply::Spent(ticket) => write!(into, "spent {ticket};"),
        Reply::Odd => into.push_str("odd;"),
    }
}

/// Adds the bytes of a buffer, a dot for each 0.
pub fn show(into: &mut String, bytes: &[u8]) -> Result<(), AllocError> {
    for byte in bytes {
        into.push(if *byte == 0 { '.' } else { char::from(*byte) })?;
    }
    Ok(())
}

/// Adds how many indices each ring had left.
fn show_left(into: &mut String, left: &[u64]) -> Result<(), AllocError> {
    into.push_str(" left")?;
    for count in left {
        write!(into, " {count}")?;
    }
    into.push_str(",")
}

/// Adds the bytes of each buffer.
pub fn show_buffers(into: &mut String, buffers: &[HeapBuffer]) -> Result<(), AllocError> {
    for buffer in buffers {
        into.push_str(" ")?;
        show(into, buffer.bytes())?;
    }
    Ok(())
}

/// Adds how many indices each ring had left, and the bytes of each buffer.
pub fn show_rest(
    into: &mut String,
    left: &[u64],
    buffers: &[HeapBuffer],
) -> Result<(), AllocError> {
    show_left(into, left)?;
    show_buffers(into, buffers)
}

/// Adds what each pass counted.
fn show_counts(into: &mut String, counts: &[Counts]) -> Result<(), AllocError> {
    for its in counts {
        let (sent, taken, full) = (its.sent, its.taken, its.full);
        write!(into, ", sent {sent} taken {taken} full {full}")?;
    }
    Ok(())
}

/// Adds what a queue closed with: what its rings had left, its buffers, and what each pass counted.
pub fn show_closed(into: &mut String, closed: &Closed<HeapBuffer>) -> Result<(), AllocError> {
    show_rest(into, &closed.left, &closed.buffers)?;
    show_counts(into, &closed.counts)
}
