//! Buffers: bytes that go from hand to hand, and those that are written in place.

ghost use Rattle.std.specs.Prelude.{◌≡◌, ℕ, List, length, Option, Some, None};
ghost use Rattle.std.specs.Borrow.{sem, Lends, Array, u8 as byte};

/// Bytes that stand somewhere. A buffer has two meanings: its bytes, and which buffer it is.
pub trait Buffer: Send + Sync {
    /// What stands in its slot: the buffer, or none while it is lifted.
    type Place: Send + Sync;

    ghost contents: { Self → List ℕ };

    ghost IsSameBuffer: { Self → Self → Type 0 };

    ghost laid: { Self.Place → Option Self };

    /// A place with nothing in it.
    fn hole() -> Self::Place
        ensures { laid result ≡ None };

    /// The end of a place with nothing in it.
    fn close_hole(place: Self::Place)
        requires { laid place ≡ None };

    /// A place with the buffer in it.
    fn place(self) -> Self::Place
        ensures { laid result ≡ Some self };

    /// The buffer that is in a place.
    fn lift(place: Self::Place) -> Self
        requires { (buffer : Self) × (laid place ≡ Some buffer) }
        ensures { laid place ≡ Some result };

    ghost same_as_itself: { (a : Self) → IsSameBuffer a a };

    ghost same_back: { (a b : Self) → IsSameBuffer a b → IsSameBuffer b a };

    ghost same_along: { (a b c : Self) → IsSameBuffer a b → IsSameBuffer b c → IsSameBuffer a c };

    ghost same_length: { (a b : Self) → IsSameBuffer a b
        → length (contents a) ≡ length (contents b) };
}

/// A buffer whose bytes can be read.
pub trait BufferRef: Buffer {
    /// Its bytes.
    fn bytes(&self) -> &[u8]
        ensures { result.now ≡ Self.contents self.now };
}

/// A buffer that is written in place. A write changes its bytes, and leaves it the same buffer.
pub trait BufferMut: BufferRef {
    // The buffer once these bytes were left in it.
    ghost written: { Self → List ℕ → Self };

    /// Its bytes, lent to be written: there stay as many.
    fn bytes_mut(&mut self) -> &mut [u8]
        ensures* writes { sem 𝓛
            (Lends Self.row (Array byte 0) self.entry result (written self.old)) }
        ensures bytes { result.now ≡ Self.contents self.old };

    ghost written_bytes: { (a : Self) (bytes : List ℕ) → length bytes ≡ length (Self.contents a)
        → Self.contents (written a bytes) ≡ bytes };

    ghost written_same: { (a : Self) (bytes : List ℕ) → Self.IsSameBuffer a (written a bytes) };
}
