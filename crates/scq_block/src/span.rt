//! Bytes apart from the vector that they lie in: cut, joined, and put back.
ghost use Rattle.std.specs.Prelude.{◌≡◌, ℕ, ◌^◌, ◌<◌, ◌≤◌, List, ◌++◌, length, take, drop};
ghost use base.Fml.{ftrue};
ghost use denote.RawPtr.{InBlock, Ptr, ◌+ₚ◌};
ghost use Rattle.std.specs.contracts.alloc.Global.{the_row as heap};
ghost use Rattle.std.specs.contracts.impls.GlobalAllocator.TheImpl.{ghosts as tokens};
ghost use Rattle.bytes.specs.Ownership.{Extent, extent_code, run_owns};
ghost use Rattle.bytes.specs.contracts.block.Sole.{the_own as waits};

use std::marker::{Model, Move, Owns};
use std_alloc::vec::{Lodged, lodge};

// The bytes at one place, which nothing else can reach. It takes no bytes itself.
pub(crate) struct Span {
    ghost start: { Ptr },
    ghost bytes: { List ℕ },
}

impl Model for Span {
    ghost also_owns = { λ s. run_owns s.start s.bytes };
}

// A vector whose bytes are out as a span.
pub(crate) struct Shell {
    vec: Vec<u8>,
}

impl Owns for Shell {
    ghost Value = { Extent };

    ghost coded = { extent_code };

    ghost shr_at = { λ _ _ _. ftrue };
}

impl Move for Shell {
    ghost own_val = { λ e vs. waits heap tokens e vs };
}

impl Shell {
    // Takes the bytes out of a vector.
    pub(crate) fn open(vec: Vec<u8>) -> (Shell, Span)
        requires { 0 < vec.len }
        ensures { (result.0.ptr ≡ vec.ptr) × (result.0.len ≡ vec.len) × (result.1.start ≡ vec.ptr)
            × (result.1.bytes ≡ vec.items) × InBlock vec.ptr }
    {
        (Shell { vec }, Span {})
    }

    // Puts as many bytes back at the same place.
    pub(crate) fn close(self, span: Span) -> Vec<u8>
        requires { (span.start ≡ self.ptr) × (length span.bytes ≡ self.len) }
        ensures { result.items ≡ span.bytes }
    {
        let Span {} = span;
        let Shell { vec } = self;
        vec
    }
}

impl Span {
    // The first `len` bytes, and those behind them.
    pub(crate) fn cut(self, len: usize) -> (Span, Span)
        requires { len ≤ length self.bytes }
        ensures { (result.0.start ≡ self.start) × (result.0.bytes ≡ take len self.bytes)
            × (result.1.start ≡ self.start +ₚ len) × (result.1.bytes ≡ drop len self.bytes) }
    {
        let Span {} = self;
        (Span {}, Span {})
    }

    // One span of two that lie side by side.
    pub(crate) fn join(self, next: Span) -> Span
        requires { next.start ≡ self.start +ₚ length self.bytes }
        ensures { (result.start ≡ self.start) × (result.bytes ≡ self.bytes ++ next.bytes) }
    {
        let Span {} = self;
        let Span {} = next;
        Span {}
    }

    // A vector of just these bytes, which neither grows nor frees them.
    pub(crate) fn lodge(self, start: *mut u8, len: usize) -> Vec<u8, Lodged>
        requires { (start ≡ self.start) × (len ≡ length self.bytes) × (0 < len) × (len < 2 ^ 63) }
        ensures { (result.items ≡ self.bytes) × (result.len ≡ len) × (result.ptr ≡ self.start) }
    {
        let Span {} = self;
        unsafe { lodge(start, len, len) }
    }

    // The bytes of such a vector.
    pub(crate) fn of(vec: Vec<u8, Lodged>) -> Span
        requires { 0 < vec.len }
        ensures { (result.start ≡ vec.ptr) × (result.bytes ≡ vec.items) }
    {
        let _len = vec.dislodge();
        Span {}
    }
}
