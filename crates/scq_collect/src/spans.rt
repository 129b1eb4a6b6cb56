//! Places of messages as numbers, and spans of them.
ghost use Rattle.std.specs.Prelude.{◌≡◌, ◌+◌, ◌*◌, ◌^◌};

/// The places from the least to the most, both among them. It has none where the most is less.
#[derive(Clone, Copy)]
pub struct Span {
    pub least: u64,
    pub most: u64,
}

/// All places.
pub const ALL: Span = Span {
    least: 0,
    most: u64::MAX,
};

/// No place.
pub const NONE: Span = Span {
    least: u64::MAX,
    most: 0,
};

/// A message's file and line as one number.
pub fn place_at(file: u32, line: u32) -> u64
    ensures { result ≡ file * 2 ^ 32 + line }
{
    u64::from(file) * (1 << 32) + u64::from(line)
}

impl Span {
    ghost use Rattle.std.specs.Prelude.{ℕ, min, max, IsFalse, IsTrue};
    ghost use Rattle.scq_collect.specs.Spans.{has};

    /// The span with this place too.
    pub fn and(self, place: u64) -> Span
        ensures least { result.least ≡ min self.least place }
        ensures most { result.most ≡ max self.most place }
    {
        Span {
            least: self.least.min(place),
            most: self.most.max(place),
        }
    }

    /// Whether the place is in it.
    pub fn has(&self, place: u64) -> bool
        ensures { result ≡ has self.now place }
    {
        self.least <= place && place <= self.most
    }

    /// Whether a place may be in both.
    pub fn meets(&self, other: &Span) -> bool
        ensures { IsFalse result → (place : ℕ) → IsTrue (has self.now place)
            → IsFalse (has other.now place) }
    {
        self.least <= other.most && other.least <= self.most
    }
}
