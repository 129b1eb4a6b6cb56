//! The numbers that fields say.

ghost use Rattle.std.specs.Prelude.{◌≡◌, ◌+◌, ◌<◌, IfSome};
ghost use Rattle.scq_lines.specs.Lines.{number_of, number_below};

// A number of as many digits fits 64 bits.
const MOST_DIGITS: usize = 19;

/// The number that a field says: 1 to 19 ASCII digits, and nothing else.
pub fn number(field: &[u8]) -> Option<u64>
    ensures { result ≡ number_of field.now }
{
    if field.is_empty() || field.len() > MOST_DIGITS {
        return None;
    }
    let mut value = 0u64;
    for byte in field {
        if !byte.is_ascii_digit() {
            return None;
        }
        value = value * 10 + u64::from(*byte - b'0');
    }
    Some(value)
}

/// The number that a field says, where it is below a bound.
pub fn number_below(bound: u32, field: &[u8]) -> Option<u32>
    ensures number { result ≡ number_below bound field.now }
    ensures below { IfSome result (λ number. number < bound) }
{
    match number(field) {
        Some(number) if number < u64::from(bound) => Some(number as u32),
        _ => None,
    }
}

/// The number that a field says, where it is at most this.
pub fn number_up_to(most: u32, field: &[u8]) -> Option<u32>
    ensures { result ≡ number_below (most + 1) field.now }
{
    match number(field) {
        Some(number) if number <= u64::from(most) => Some(number as u32),
        _ => None,
    }
}
