//! Buffers written through the loan that their trait gives, the frames of a block, and bytes that
//! are copied.
ghost use Rattle.std.specs.Prelude.{◌≡◌, length};

use crate::row::Row;
use scq_block::{Block, Frame};
use scq_queue::HeapBuffer;
use scq_word::{BufferMut, BufferRef, Bytes};

/// What generic code knows of a buffer after a write through the loan.
fn fill<B: BufferMut>(buffer: &mut B, from: &[u8])
    requires { length from.now ≡ length (B.contents buffer.old) }
    ensures bytes { B.contents buffer.new ≡ from.now }
    ensures same { B.IsSameBuffer buffer.old buffer.new }
{
    buffer.bytes_mut().copy_from_slice(from);
}

/// `BYTES`, which are two: what a buffer has before and after they are written.
pub fn filled(row: &mut Row, given: &str) {
    let bytes = given.as_bytes();
    let Ok(mut buffer) = HeapBuffer::new(row.alloc, 2) else {
        return row.fail();
    };
    if bytes.len() != 2 {
        return row.fail();
    }
    row.put_hex(buffer.bytes());
    row.put(" ");
    fill(&mut buffer, bytes);
    row.put_hex(buffer.bytes());
}

/// `BYTES`: a copy of them, and how many a vector of them has.
pub fn copied(row: &mut Row, given: &str) {
    match Bytes::copy_of(row.alloc, given.as_bytes()) {
        Ok(copy) => {
            row.put_hex(copy.bytes());
            row.put(" ");
            let vec: Vec<u8> = copy.into();
            row.put_value(&Bytes::from(vec).bytes().len());
        }
        Err(_) => row.fail(),
    }
}

/// Adds each frame's number and bytes.
fn put_frames(row: &mut Row, frames: &[Frame]) {
    for frame in frames {
        row.put_value(&frame.number());
        row.put(" ");
        row.put_hex(frame.bytes());
        row.put(";");
    }
}

/// `BYTES`, which are two: three frames of two bytes, once the bytes are written into the first.
pub fn carved(row: &mut Row, given: &str) {
    let bytes = given.as_bytes();
    if bytes.len() != 2 {
        return row.fail();
    }
    match Block::carve(row.alloc, 3, 2) {
        Ok((block, mut frames)) => {
            fill(&mut frames[0], bytes);
            put_frames(row, &frames);
            block.merge(frames);
        }
        Err(_) => row.fail(),
    }
}

/// Three frames of one byte, in the order in which they are merged: from the last on.
pub fn reversed(row: &mut Row) {
    match Block::carve(row.alloc, 3, 1) {
        Ok((block, mut frames)) => {
            frames.reverse();
            put_frames(row, &frames);
            block.merge(frames);
        }
        Err(_) => row.fail(),
    }
}
