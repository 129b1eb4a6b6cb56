//! The calls of one buffer with the port of a handle. `replace_with` has the handle go out to them
//! and come back, so that no null is written into it meanwhile.
ghost use Rattle.std.specs.Prelude.{◌≡◌, Some, None, IsSomeAnd};
ghost use Rattle.scq_port.specs.Exports.{PortStanding};
ghost use Rattle.scq_c.specs.Exports.{LendAnswered, TakeAnswered, SendAnswered, GiveBackAnswered};

use crate::handle::Handle;
use crate::loose::Loose;
use scq_port::{GiveBackRefusal, LendRefusal, Port, SendRefusal, TakeRefusal};
use std::alloc::Global;

/// A port's lend.
#[inline(always)]
pub(crate) fn lend(port: &mut Port) -> Result<u32, LendRefusal>
    ensures { LendAnswered result port.old port.new }
{
    port.lend()
}

/// The lend of the port of a handle; None where that is closed.
#[inline(always)]
pub(crate) fn lend_over(handle: Handle, alloc: Global) -> (Handle, Option<Result<u32, LendRefusal>>)
    ensures closed { handle.port ≡ None → (result.0.port ≡ None) × (result.1 ≡ None) }
    ensures answered { (x : PortStanding) → handle.port ≡ Some x
        → (y : PortStanding) × (result.0.port ≡ Some y)
        × IsSomeAnd result.1 (λ r. LendAnswered r x y) }
{
    let Some(loose) = handle.into_loose(alloc) else {
        return (Handle::empty(), None);
    };
    let mut port = loose.into_box();
    let answer = lend(&mut port);
    (Handle::of(Loose::of(port)), Some(answer))
}

/// A port's take.
#[inline(always)]
pub(crate) fn take(port: &mut Port, topic: u32) -> Result<(u64, u32), TakeRefusal>
    ensures { TakeAnswered topic result port.old port.new }
{
    port.take(topic)
}

/// The take of the port of a handle; None where that is closed.
#[inline(always)]
pub(crate) fn take_over(
    handle: Handle,
    with: (Global, u32),
) -> (Handle, Option<Result<(u64, u32), TakeRefusal>>)
    ensures closed { handle.port ≡ None → (result.0.port ≡ None) × (result.1 ≡ None) }
    ensures answered { (x : PortStanding) → handle.port ≡ Some x
        → (y : PortStanding) × (result.0.port ≡ Some y)
        × IsSomeAnd result.1 (λ r. TakeAnswered with.1 r x y) }
{
    let (alloc, topic) = with;
    let Some(loose) = handle.into_loose(alloc) else {
        return (Handle::empty(), None);
    };
    let mut port = loose.into_box();
    let answer = take(&mut port, topic);
    (Handle::of(Loose::of(port)), Some(answer))
}

/// A port's send.
#[inline(always)]
pub(crate) fn send(port: &mut Port, index: u32, topic: u32) -> Result<u64, SendRefusal>
    ensures { SendAnswered index topic result port.old port.new }
{
    port.send(index, topic)
}

/// The send of the port of a handle; None where that is closed.
#[inline(always)]
pub(crate) fn send_over(
    handle: Handle,
    with: (Global, u32, u32),
) -> (Handle, Option<Result<u64, SendRefusal>>)
    ensures closed { handle.port ≡ None → (result.0.port ≡ None) × (result.1 ≡ None) }
    ensures answered { (x : PortStanding) → handle.port ≡ Some x
        → (y : PortStanding) × (result.0.port ≡ Some y)
        × IsSomeAnd result.1 (λ r. SendAnswered with.1 with.2 r x y) }
{
    let (alloc, index, topic) = with;
    let Some(loose) = handle.into_loose(alloc) else {
        return (Handle::empty(), None);
    };
    let mut port = loose.into_box();
    let answer = send(&mut port, index, topic);
    (Handle::of(Loose::of(port)), Some(answer))
}

/// A port's give-back.
#[inline(always)]
pub(crate) fn give_back(port: &mut Port, index: u32) -> Result<(), GiveBackRefusal>
    ensures { GiveBackAnswered index result port.old port.new }
{
    port.give_back(index)
}

/// The give-back of the port of a handle; None where that is closed.
#[inline(always)]
pub(crate) fn give_back_over(
    handle: Handle,
    with: (Global, u32),
) -> (Handle, Option<Result<(), GiveBackRefusal>>)
    ensures closed { handle.port ≡ None → (result.0.port ≡ None) × (result.1 ≡ None) }
    ensures answered { (x : PortStanding) → handle.port ≡ Some x
        → (y : PortStanding) × (result.0.port ≡ Some y)
        × IsSomeAnd result.1 (λ r. GiveBackAnswered with.1 r x y) }
{
    let (alloc, index) = with;
    let Some(loose) = handle.into_loose(alloc) else {
        return (Handle::empty(), None);
    };
    let mut port = loose.into_box();
    let answer = give_back(&mut port, index);
    (Handle::of(Loose::of(port)), Some(answer))
}
