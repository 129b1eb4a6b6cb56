//! What a band is given of a buffer that is lifted, where it closes.
ghost use Rattle.std.specs.Prelude.{◌≡◌, ℕ};

/// A buffer that is lifted, with its index: the two as a pair, or a type that has more beside them.
pub trait Lifted<B> {
    ghost pair: { Self → ℕ × B };

    /// Its index.
    fn index(&self) -> u32
        ensures { result ≡ (pair self.now).0 };

    /// Its buffer.
    fn into_buffer(self) -> B
        ensures { result ≡ (pair self).1 };
}

impl<B> Lifted<B> for (u32, B) {
    ghost pair = { λ o. o };

    fn index(&self) -> u32 {
        self.0
    }

    fn into_buffer(self) -> B {
        let (_, buffer) = self;
        buffer
    }
}
