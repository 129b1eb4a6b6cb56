//! What C calls with several buffers: the calls of one buffer, in the order of the slots, until one
//! is refused.
ghost use Rattle.std.specs.Prelude.{◌≡◌, Some, None};
ghost use Rattle.scq_port.specs.Exports.{PortStanding};
ghost use Rattle.scq_c.specs.Exports.{OfLend, OfTake, OfMany, OfSends, OfGiveBacks, scq_closed};

use crate::answers::{CLOSED, OK};
use crate::exports::{Held, give_back_into, lend_into, send_into, take_into};
use crate::handle::{Handle, put, taken};
use scq_port::Port;
use std::alloc::Global;

/// Is lent a value for each slot: how many there were, and the last answer.
#[inline(always)]
fn lend_each(port: &mut Port, out: &mut [Held]) -> (usize, u32)
    ensures { OfMany OfLend result.1 result.0 out.old out.new port.old port.new }
{
    let mut k = 0;
    while k < out.len() {
        let mut told = out[k];
        let answer = lend_into(port, &mut told);
        if answer != OK {
            return (k, answer);
        }
        out[k] = told;
        k += 1;
    }
    (k, OK)
}

/// Lends several buffers: tells the index of each, and how many they are.
#[unsafe(no_mangle)]
pub extern "C" fn scq_lend_index_many(
    alloc: Global,
    handle: &mut Handle,
    out: &mut [Held],
    done: &mut usize,
) -> u32
    ensures closed { handle.old.port ≡ None → (result ≡ scq_closed) × (handle.new.port ≡ None)
        × (out.new ≡ out.old) × (done.new ≡ 0) }
    ensures answered { (x : PortStanding) → handle.old.port ≡ Some x
        → (y : PortStanding) × (handle.new.port ≡ Some y)
        × OfMany OfLend result done.new out.old out.new x y }
{
    *done = 0;
    let Some(mut port) = taken(handle, alloc) else {
        return CLOSED;
    };
    let (went, answer) = lend_each(&mut port, out);
    put(handle, port);
    *done = went;
    answer
}

/// Takes a value into each slot: how many there were, and the last answer.
#[inline(always)]
fn take_each(port: &mut Port, topic: u32, out: &mut [Held]) -> (usize, u32)
    ensures { OfMany (OfTake topic) result.1 result.0 out.old out.new port.old port.new }
{
    let mut k = 0;
    while k < out.len() {
        let mut told = out[k];
        let answer = take_into(port, topic, &mut told);
        if answer != OK {
            return (k, answer);
        }
        out[k] = told;
        k += 1;
    }
    (k, OK)
}

/// Takes several buffers from a topic: tells the index and the place of each, and how many they
/// are.
#[unsafe(no_mangle)]
pub extern "C" fn scq_take_index_many(
    alloc: Global,
    handle: &mut Handle,
    topic: u32,
    out: &mut [Held],
    done: &mut usize,
) -> u32
    ensures closed { handle.old.port ≡ None → (result ≡ scq_closed) × (handle.new.port ≡ None)
        × (out.new ≡ out.old) × (done.new ≡ 0) }
    ensures answered { (x : PortStanding) → handle.old.port ≡ Some x
        → (y : PortStanding) × (handle.new.port ≡ Some y)
        × OfMany (OfTake topic) result done.new out.old out.new x y }
{
    *done = 0;
    let Some(mut port) = taken(handle, alloc) else {
        return CLOSED;
    };
    let (went, answer) = take_each(&mut port, topic, out);
    put(handle, port);
    *done = went;
    answer
}

/// Sends the value of each slot: how many went, and the last answer.
#[inline(always)]
fn send_each(port: &mut Port, slots: &mut [Held], topic: u32) -> (usize, u32)
    ensures { OfSends topic result.1 result.0 slots.old slots.new port.old port.new }
{
    let mut k = 0;
    while k < slots.len() {
        let mut told = slots[k];
        let answer = send_into(port, told.index, topic, &mut told.place);
        if answer != OK {
            return (k, answer);
        }
        slots[k] = told;
        k += 1;
    }
    (k, OK)
}

/// Sends several buffers on a topic: tells the place of each in its slot, and how many went.
#[unsafe(no_mangle)]
pub extern "C" fn scq_send_many(
    alloc: Global,
    handle: &mut Handle,
    slots: &mut [Held],
    topic: u32,
    done: &mut usize,
) -> u32
    ensures closed { handle.old.port ≡ None → (result ≡ scq_closed) × (handle.new.port ≡ None)
        × (slots.new ≡ slots.old) × (done.new ≡ 0) }
    ensures answered { (x : PortStanding) → handle.old.port ≡ Some x
        → (y : PortStanding) × (handle.new.port ≡ Some y)
        × OfSends topic result done.new slots.old slots.new x y }
{
    *done = 0;
    let Some(mut port) = taken(handle, alloc) else {
        return CLOSED;
    };
    let (went, answer) = send_each(&mut port, slots, topic);
    put(handle, port);
    *done = went;
    answer
}

/// Gives the value of each slot back: how many went, and the last answer.
#[inline(always)]
fn give_back_each(port: &mut Port, slots: &[Held]) -> (usize, u32)
    ensures { OfGiveBacks result.1 result.0 slots.now port.old port.new }
{
    let mut k = 0;
    while k < slots.len() {
        let answer = give_back_into(port, slots[k].index);
        if answer != OK {
            return (k, answer);
        }
        k += 1;
    }
    (k, OK)
}

/// Gives several buffers back: tells how many went.
#[unsafe(no_mangle)]
pub extern "C" fn scq_give_back_many(
    alloc: Global,
    handle: &mut Handle,
    slots: &[Held],
    done: &mut usize,
) -> u32
    ensures closed { handle.old.port ≡ None → (result ≡ scq_closed) × (handle.new.port ≡ None)
        × (done.new ≡ 0) }
    ensures answered { (x : PortStanding) → handle.old.port ≡ Some x
        → (y : PortStanding) × (handle.new.port ≡ Some y)
        × OfGiveBacks result done.new slots.now x y }
{
    *done = 0;
    let Some(mut port) = taken(handle, alloc) else {
        return CLOSED;
    };
    let (went, answer) = give_back_each(&mut port, slots);
    put(handle, port);
    *done = went;
    answer
}
