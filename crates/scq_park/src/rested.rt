ghost use Rattle.std.specs.Prelude.{◌≡◌};

/// How often a worker rested, and how often it was woken. Each count stands still at the last value
/// of 64 bits. Only a crew that closes makes it.
#[derive(Clone, Copy, Debug, PartialEq, Eq)]
pub struct Rested {
    rests: u64,
    wakes: u64,
}

impl Rested {
    pub(crate) fn new(rests: u64, wakes: u64) -> Rested
        ensures { (result.rests ≡ rests) × (result.wakes ≡ wakes) }
    {
        Rested { rests, wakes }
    }

    /// How often it rested.
    pub fn rests(&self) -> u64
        ensures { result ≡ self.now.rests }
    {
        self.rests
    }

    /// How often it was woken.
    pub fn wakes(&self) -> u64
        ensures { result ≡ self.now.wakes }
    {
        self.wakes
    }
}
