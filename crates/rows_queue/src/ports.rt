//! Calls of the ports of a queue, each of which tests what a caller of the queue proves.
ghost use Rattle.std.specs.Prelude.{◌≡◌, All};
ghost use Rattle.scq_port.specs.Exports.{PortQueue};

use anyhow::{Context, Result, ensure};
use rows_text::field;
use scq_port::{Port, open};
use scq_word::Setup;
use std::alloc::{AllocError, Global};

/// Adds the index of what was lent, or why nothing was.
fn lend(into: &mut String, port: &mut Port) -> Result<(), AllocError> {
    match port.lend() {
        Ok(index) => write!(into, "{index};"),
        Err(refusal) => write!(into, "{refusal:?};"),
    }
}

/// Adds the place of what was taken and its index, or why nothing was.
fn take(into: &mut String, port: &mut Port, topic: u32) -> Result<(), AllocError> {
    match port.take(topic) {
        Ok((place, index)) => write!(into, "{index} at {place};"),
        Err(refusal) => write!(into, "{refusal:?};"),
    }
}

/// Adds the place of what was sent, or why nothing was.
fn send(into: &mut String, port: &mut Port, index: u32, topic: u32) -> Result<(), AllocError> {
    match port.send(index, topic) {
        Ok(place) => write!(into, "at {place};"),
        Err(refusal) => write!(into, "{refusal:?};"),
    }
}

/// Adds that a value was given back, or why it wasn't.
fn give(into: &mut String, port: &mut Port, index: u32) -> Result<(), AllocError> {
    match port.give_back(index) {
        Ok(()) => into.push_str("back;"),
        Err(refusal) => write!(into, "{refusal:?};"),
    }
}

/// Adds what the port counted, and the ticket that it keeps.
fn tell(into: &mut String, port: &Port) -> Result<(), AllocError> {
    let counts = port.counts();
    let (sent, taken, full) = (counts.sent, counts.taken, counts.full);
    let spent = port.spent();
    write!(into, "sent {sent} taken {taken} full {full} {spent:?};")
}

/// A number of a call, which is 0 where there is none. What is no number is the greatest, and no
/// port, topic or index has that.
fn number(call: &str, at: usize) -> u32 {
    match field(call, at) {
        "" => 0,
        text => text.parse().unwrap_or(u32::MAX),
    }
}

/// Adds what a call of the port is answered.
fn reply(into: &mut String, port: &mut Port, call: &str) -> Result<(), AllocError> {
    let first = number(call, 2);
    match field(call, 1) {
        "lend" => lend(into, port),
        "take" => take(into, port, first),
        "send" => send(into, port, first, number(call, 3)),
        "give" => give(into, port, first),
        _ => tell(into, port),
    }
}

/// Adds what a call of the port that it says is answered.
fn reply_of(into: &mut String, ports: &mut [Port], call: &str) -> Result<()> {
    let at = number(call, 0) as usize;
    ensure!(at < ports.len(), "a port");
    Ok(reply(into, &mut ports[at], call)?)
}

fn close_last(ports: &mut Vec<Port>) -> Result<()> {
    let port = ports.pop().context("a port")?;
    let _ended = port.close();
    Ok(())
}

/// Makes a call, and adds what it is answered.
fn make(into: &mut String, ports: &mut Vec<Port>, call: &str) -> Result<()> {
    match call {
        "drop" => {
            drop(ports.pop());
            Ok(())
        }
        "close" => close_last(ports),
        _ => reply_of(into, ports.as_mut_slice(), call),
    }
}

/// The first of a queue's ports and the last tell each other what they have seen: by a mark, which
/// the last heeds, and by meeting.
fn tell_each_other(ports: &mut Vec<Port>)
    requires own { (queue : PortQueue) × All (λ p. p.pass.queue ≡ queue) ports.old.items }
{
    let Some(mut last) = ports.pop() else {
        return;
    };
    if let Some(first) = ports.first_mut() {
        let mark = first.mark();
        last.heed(mark);
        last.look();
        first.meet(&mut last);
    }
    ports.push_reserved(last);
}

/// Two ports with one topic over two buffers, with this limit, each of which may hold so many. They
/// have met.
fn opened(alloc: Global, given: &str) -> Result<Vec<Port>> {
    let limit = field(given, 0).parse::<u64>()?;
    let setup = Setup::new(1, 2, 2, limit)?;
    let mut ports = open(alloc, setup, number(given, 1))?;
    tell_each_other(&mut ports);
    Ok(ports)
}

/// `LIMIT HOLD; PORT CALL ..; ..`, of two ports with one topic over two buffers, each of which may
/// hold so many: what each call is answered. `drop` and `close` are of the last port.
pub fn ported(alloc: Global, into: &mut String, given: &str) -> Result<()> {
    let (setup, calls) = given.split_once("; ").context("a setup and calls")?;
    let mut ports = opened(alloc, setup)?;
    for call in calls.split("; ") {
        make(into, &mut ports, call)?;
    }
    Ok(())
}
