//! The buffers of ports: numbers, for contracts alone. The bytes that are sent lie with the caller,
//! who finds those of a number; nothing here knows where.
ghost use Rattle.std.specs.Prelude.{◌≡◌, length, Some, None, if◌then◌else◌};
ghost use Rattle.std.proofs.Common.{sym, refl, ap, ◌∙◌};
ghost use Rattle.scq_port.specs.Numbers.{four_bytes};

use scq_word::Buffer;
use std::snapshot::Snapshot;

/// The number of a buffer, from 0, as four bytes, the lowest first. It is the index that the buffer
/// stands for, so it has no bytes when the program runs. The four are what the buffer contains, so
/// that what the queue promises of bytes it promises of numbers: a take is a send of the same one.
/// And they are which buffer it is, since nobody can write them: so the value of an index has the
/// number that the buffer of this index was given with.
#[derive(Drop)]
pub struct PortBuffer {
    number: Snapshot<[u8; 4]>,
}

impl PortBuffer {
    /// The buffer of a number.
    #[inline(always)]
    pub(crate) fn new(number: u32) -> PortBuffer
        ensures { result.number.value ≡ four_bytes number }
    {
        let bytes = number.to_le_bytes();
        PortBuffer {
            number: Snapshot::of(&bytes),
        }
    }
}

/// The place of such a buffer, which has no bytes either: whether the buffer is laid in it.
#[derive(Drop)]
pub struct PortPlace {
    buffer: PortBuffer,
    laid: Snapshot<bool>,
}

impl Buffer for PortBuffer {
    type Place = PortPlace;

    ghost contents = { λ buffer. buffer.number.value };

    ghost IsSameBuffer = { λ a b. a.number.value ≡ b.number.value };

    ghost laid = { λ place. if place.laid.value then Some place.buffer else None };

    #[inline(always)]
    fn hole() -> PortPlace {
        PortPlace {
            buffer: PortBuffer::new(0),
            laid: Snapshot::of(&false),
        }
    }

    #[inline(always)]
    fn close_hole(place: PortPlace) {
        let PortPlace {
            buffer: _buffer,
            laid: _laid,
        } = place;
    }

    #[inline(always)]
    fn place(self) -> PortPlace {
        PortPlace {
            buffer: self,
            laid: Snapshot::of(&true),
        }
    }

    #[inline(always)]
    fn lift(place: PortPlace) -> PortBuffer {
        let PortPlace {
            buffer,
            laid: _laid,
        } = place;
        buffer
    }

    ghost same_as_itself = { λ a. refl };

    ghost same_back = { λ a b same. sym same };

    ghost same_along = { λ a b c first second. first ∙ second };

    ghost same_length = { λ a b same. ap length same };
}
