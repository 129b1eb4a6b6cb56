//! A buffer on the heap.
ghost use Rattle.std.specs.Prelude.{◌≡◌, length, replicate, IfOk};
ghost use Rattle.std.proofs.Common.{sym, refl, ◌∙◌};
ghost use Rattle.std.specs.Vec.{with_items};
ghost use Rattle.scq_word.specs.Exports.{rewritten};

use scq_band::TellsHoles;
use scq_word::{Buffer, BufferMut, BufferRef, NoMemory};
use std::alloc::Global;

/// Bytes on the heap. Two of them are the same buffer where they have equally many.
#[derive(Drop)]
pub struct HeapBuffer {
    bytes: Vec<u8>,
}

impl HeapBuffer {
    /// A buffer of `cap` zero bytes.
    pub fn new(alloc: Global, cap: u32) -> Result<HeapBuffer, NoMemory>
        ensures { IfOk result (λ buffer. buffer.bytes.items ≡ replicate cap 0) }
    {
        Ok(HeapBuffer {
            bytes: Vec::from_elem(alloc, 0, cap as usize)?,
        })
    }
}

impl Buffer for HeapBuffer {
    type Place = Option<HeapBuffer>;

    ghost contents = { λ buffer. buffer.bytes.items };

    ghost IsSameBuffer = { λ a b. length a.bytes.items ≡ length b.bytes.items };

    ghost laid = { λ place. place };

    #[inline(always)]
    fn hole() -> Option<HeapBuffer> {
        None
    }

    #[inline(always)]
    fn close_hole(place: Option<HeapBuffer>) {
        drop(place);
    }

    #[inline(always)]
    fn place(self) -> Option<HeapBuffer> {
        Some(self)
    }

    #[inline(always)]
    fn lift(place: Option<HeapBuffer>) -> HeapBuffer {
        match place {
            Some(buffer) => buffer,
            None => unreachable!(),
        }
    }

    ghost same_as_itself = { λ a. refl };

    ghost same_back = { λ a b same. sym same };

    ghost same_along = { λ a b c first second. first ∙ second };

    ghost same_length = { λ a b same. same };
}

impl TellsHoles for HeapBuffer {
    fn is_hole(place: &Option<HeapBuffer>) -> bool {
        place.is_none()
    }
}

impl BufferRef for HeapBuffer {
    fn bytes(&self) -> &[u8] {
        self.bytes.as_slice()
    }
}

impl BufferMut for HeapBuffer {
    ghost written = { λ buffer bytes. record { bytes = with_items buffer.bytes bytes } };

    ghost written_bytes = { λ a b same. rewritten a.bytes.items b a.bytes.len a.bytes.ok.0 same };

    ghost written_same = { λ a bytes. sym a.bytes.ok.0 ∙ (with_items a.bytes bytes).ok.0 };

    fn bytes_mut(&mut self) -> &mut [u8] {
        self.bytes.as_mut_slice()
    }
}
