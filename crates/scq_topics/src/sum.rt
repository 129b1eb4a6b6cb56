ghost use Rattle.std.specs.Prelude.{◌≡◌, ◌+◌, ◌*◌, ◌^◌, ◌<◌, ◌↔◌, IsSome, IfSome};
ghost use Rattle.scq_topics.specs.Runs.{runs, is_space};
ghost use Rattle.scq_topics.specs.Sum.{sum_of};

/// As many digits as the largest `u64` has. A longer token is no number, whatever its value.
const MOST_DIGITS: usize = 20;

/// Any digit may follow a value below this one.
const TENTH: u64 = u64::MAX / 10;

/// The sum of the tokens, where each is a number and the sum fits.
pub fn token_sum(payload: &[u8]) -> Option<u64>
    ensures { result ≡ sum_of (runs is_space payload.now) }
{
    let mut sum = 0u64;
    let mut value = 0u64;
    let mut digits = 0;
    for byte in payload {
        match *byte {
            b' ' => {
                sum = sum.checked_add(value)?;
                value = 0;
                digits = 0;
            }
            b'0'..=b'9' if digits < MOST_DIGITS => {
                value = with_digit(value, *byte - b'0')?;
                digits += 1;
            }
            _ => return None,
        }
    }
    sum.checked_add(value)
}

/// The value with one more digit, where it fits. Few tokens come to where that has to be looked at.
#[inline]
fn with_digit(value: u64, digit: u8) -> Option<u64>
    requires { digit < 10 }
    ensures fits { IsSome result ↔ (value * 10 + digit < 2 ^ 64) }
    ensures longer { IfSome result (λ more. more ≡ value * 10 + digit) }
{
    if value < TENTH {
        return Some(value * 10 + u64::from(digit));
    }
    value.checked_mul(10)?.checked_add(u64::from(digit))
}
