ghost use Rattle.std.specs.Prelude.{◌≡◌, ◌+◌, ◌-◌, ◌^◌, min};

/// How many sends, takes and Full replies a pass had. Each count stands still at the last value of
/// 64 bits.
#[derive(Clone, Copy, Debug, PartialEq, Eq)]
pub struct Counts {
    pub sent: u64,
    pub taken: u64,
    pub full: u64,
}

/// One more, but for the last value, which stays.
#[inline(always)]
pub fn count(number: &mut u64)
    ensures { number.new ≡ min (number.old + 1) (2 ^ 64 - 1) }
{
    if let Some(more) = number.checked_add(1) {
        *number = more;
    }
}
