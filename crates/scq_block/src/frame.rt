//! Frames: numbered pieces of a block, each of which is a buffer.
ghost use Rattle.std.specs.Prelude.{◌≡◌, ◌*◌, ◌^◌, ◌<◌, length};
ghost use Rattle.std.specs.Vec.{with_items};
ghost use Rattle.scq_word.specs.Exports.{rewritten};
ghost use Rattle.scq_block.specs.Frames.{bytes_of, IsSame, same_as_itself, same_back, same_along};
ghost use Rattle.scq_block.specs.Frames.{written_same};
ghost use denote.RawPtr.{InBlock, ◌+ₚ◌};

use crate::span::Span;
use scq_word::{Buffer, BufferMut, BufferRef};
use std_alloc::vec::Lodged;

/// A piece of a block: its bytes lie apart from those of the other frames. It ends in
/// `Block::merge`, or where it is abandoned.
pub struct Frame {
    pub(crate) bytes: Vec<u8, Lodged>,
    pub(crate) number: u32,
}

impl Frame {
    /// Its place among the frames of its block, from 0.
    pub fn number(&self) -> u32
        ensures { result ≡ self.now.number }
    {
        self.number
    }

    /// Lets the frame go. Its bytes lie where they are, and its block can't be merged any more:
    /// `merge` wants all frames.
    pub fn abandon(self) {
        let Frame { bytes, number: _ } = self;
        drop(bytes);
    }

    // The frame of this number over its own bytes, in a block that begins at `start`.
    pub(crate) fn over(span: Span, start: *mut u8, number: u32, cap: u32) -> Frame
        requires inside { InBlock start }
        requires place { span.start ≡ start +ₚ number * cap }
        requires size { (length span.bytes ≡ cap) × (0 < cap) × (number * cap < 2 ^ 63) }
        ensures { (result.number ≡ number) × (result.bytes.items ≡ span.bytes)
            × (result.bytes.ptr ≡ span.start) × (result.bytes.len ≡ cap) }
    {
        let at = unsafe { start.byte_add(number as usize * cap as usize) };
        Frame {
            bytes: span.lodge(at, cap as usize),
            number,
        }
    }

    // Its bytes, with which it ends.
    pub(crate) fn span(self) -> Span
        requires { 0 < self.bytes.len }
        ensures { (result.start ≡ self.bytes.ptr) × (result.bytes ≡ self.bytes.items) }
    {
        let Frame { bytes, number: _ } = self;
        Span::of(bytes)
    }
}

impl Buffer for Frame {
    type Place = Option<Frame>;

    ghost contents = { bytes_of };

    ghost IsSameBuffer = { IsSame };

    ghost laid = { λ place. place };

    #[inline(always)]
    fn hole() -> Option<Frame> {
        None
    }

    #[inline(always)]
    fn close_hole(place: Option<Frame>) {
        match place {
            None => {}
            Some(_) => unreachable!(),
        }
    }

    #[inline(always)]
    fn place(self) -> Option<Frame> {
        Some(self)
    }

    #[inline(always)]
    fn lift(place: Option<Frame>) -> Frame {
        match place {
            Some(frame) => frame,
            None => unreachable!(),
        }
    }

    ghost same_as_itself = { same_as_itself };

    ghost same_back = { same_back };

    ghost same_along = { same_along };

    ghost same_length = { λ a b same. same.size };
}

impl BufferRef for Frame {
    fn bytes(&self) -> &[u8] {
        self.bytes.as_slice()
    }
}

impl BufferMut for Frame {
    ghost written = { λ frame bytes. record frame { bytes = with_items frame.bytes bytes } };

    ghost written_bytes = { λ a b same. rewritten a.bytes.items b a.bytes.len a.bytes.ok.0 same };

    ghost written_same = { written_same };

    fn bytes_mut(&mut self) -> &mut [u8] {
        self.bytes.as_mut_slice()
    }
}
