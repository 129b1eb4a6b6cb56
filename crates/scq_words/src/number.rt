ghost use Rattle.std.specs.Prelude.{◌≡◌, ◌⊎◌, ◌≤◌, IfOk, IsSome};
ghost use Rattle.std.specs.Result.{result_err};
ghost use Rattle.std.specs.Char.{is_ascii_digit};
ghost use Rattle.scq_words.specs.Numbers.{number_in, number_or, refused_outside, text_in};

use crate::WordsFault;

/// The most digits of a number.
const MOST_DIGITS: usize = 10;

/// The number that a text of 1 to 10 digits writes.
fn number_in(text: &str) -> Option<u64>
    ensures { result ≡ number_in text.now }
{
    let bytes = text.as_bytes();
    if bytes.len() > MOST_DIGITS || !bytes.iter().all(|byte| is_digit(*byte)) {
        return None;
    }
    text.parse().ok()
}

fn is_digit(byte: u8) -> bool
    ensures { result ≡ is_ascii_digit byte }
{
    byte.is_ascii_digit()
}

/// The number of an option that may be given: it is from `low` to `high`, or the fault comes.
pub fn optional_number(
    text: Option<&str>,
    default: u32,
    low: u32,
    high: u32,
    fault: WordsFault,
) -> Result<u32, WordsFault>
    ensures refused { result_err result ≡ refused_outside low high fault (text_in text.entry) }
    ensures within { IfOk result (λ n. (n ≡ default) ⊎ ((low ≤ n) × (n ≤ high))) }
    ensures given { IsSome text.entry → IfOk result (λ n. (low ≤ n) × (n ≤ high)) }
    ensures value { IfOk result (λ n. n ≡ number_or default (text_in text.entry)) }
{
    let Some(text) = text else {
        return Ok(default);
    };
    match number_in(text) {
        Some(number) if u64::from(low) <= number && number <= u64::from(high) => Ok(number as u32),
        _ => Err(fault),
    }
}
