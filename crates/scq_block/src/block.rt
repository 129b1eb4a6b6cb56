//! Blocks: one allocation that is carved into frames, and freed once all of them are back.
ghost use Rattle.std.specs.Prelude.{◌≡◌, ◌*◌, ◌^◌, ◌<◌, ◌≤◌, [], length, replicate, IfOk};
ghost use Rattle.std.specs.Prelude.{vec_capacity};
ghost use Rattle.std.specs.List.{All};
ghost use denote.RawPtr.{InBlock, null_ptr};
ghost use Rattle.scq_block.specs.Frames.{IsPlaced, AreInOrder, AreFramesFrom};

use crate::frame::Frame;
use crate::span::{Shell, Span};
use scq_word::NoMemory;
use std::alloc::Global;

/// What is left of an allocation while its bytes are out as `count` frames of `cap` bytes. It ends
/// only in `merge`.
pub struct Block {
    shell: Shell,
    count: u32,
    cap: u32,
    ghost some: { (0 < count) × (0 < cap) },
    ghost whole: { shell.len ≡ count * cap },
    ghost placed: { ¬ (shell.ptr ≡ null_ptr) },
}

impl Block {
    ghost use Rattle.scq_block.specs.Blocks.{IsCarved, AreAllOf};

    /// `n` frames of `cap` zero bytes, in order of number, in one allocation beside the list of
    /// them.
    pub fn carve(alloc: Global, n: u32, cap: u32) -> Result<(Block, Vec<Frame>), NoMemory>
        requires { (0 < n) × (0 < cap) × (n * cap ≤ 2 ^ 31) }
        ensures carved { IfOk result (λ p. IsCarved n cap p.0 p.1.items) }
    {
        let mut bytes = Vec::from_elem(alloc, 0, n as usize * cap as usize)?;
        let frames = Vec::with_capacity(alloc, n as usize)?;
        let start = bytes.as_mut_ptr();
        let (shell, rest) = Shell::open(bytes);
        let frames = deal(frames, rest, start, n, cap);
        let block = Block {
            shell,
            count: n,
            cap,
        };
        Ok((block, frames))
    }

    /// Puts the frames, in whatever order they come, together again and frees the allocation.
    pub fn merge(self, mut frames: Vec<Frame>)
        requires { AreAllOf self frames.items }
    {
        frames.sort_unstable_by_key(|frame| frame.number);
        let span = self.gather(frames);
        let Block {
            shell,
            count: _,
            cap: _,
        } = self;
        drop(shell.close(span));
    }

    // The bytes of all frames, which lie one behind the other.
    fn gather(&self, mut frames: Vec<Frame>) -> Span
        requires all { length frames.items ≡ self.now.count }
        requires places { AreInOrder frames.items
            × All (IsPlaced self.now.shell.ptr self.now.cap) frames.items }
        ensures { (result.start ≡ self.now.shell.ptr) × (length result.bytes ≡ self.now.shell.len) }
    {
        let Some(last) = frames.pop() else {
            unreachable!()
        };
        let mut span = last.span();
        while let Some(frame) = frames.pop() {
            span = frame.span().join(span);
        }
        frames.destroy_empty();
        span
    }
}

// Cuts `n` frames off the span, which has the bytes of just these, and adds them to the empty list.
fn deal(mut frames: Vec<Frame>, span: Span, start: *mut u8, n: u32, cap: u32) -> Vec<Frame>
    requires inside { InBlock start }
    requires zero { (span.start ≡ start) × (span.bytes ≡ replicate (n * cap) 0) }
    requires some { (0 < n) × (0 < cap) × (n * cap ≤ 2 ^ 31) }
    requires room { (frames.items ≡ []) × (n ≤ vec_capacity frames) }
    ensures { AreFramesFrom start n cap result.items }
{
    let mut rest = span;
    let mut number = 0;
    while number + 1 < n {
        let (front, back) = rest.cut(cap as usize);
        frames.push_reserved(Frame::over(front, start, number, cap));
        rest = back;
        number += 1;
    }
    frames.push_reserved(Frame::over(rest, start, number, cap));
    frames
}
