//! The contents that fields say.

ghost use Rattle.std.specs.Prelude.{◌≡◌, IfOk};
ghost use Rattle.scq_lines.specs.Exports.{field_content, is_hex, is_lower_digit};

use hex::FromHexError;
use scq_word::{Bytes, NoMemory};
use std::alloc::Global;

/// The content that a field says, of at most so many bytes: `-` for none, or two lower-case
/// hexadecimal digits for each byte.
pub fn content(alloc: Global, most: u32, field: &[u8]) -> Result<Option<Bytes>, NoMemory>
    ensures { IfOk result (λ content. content ≡ field_content most field.now) }
{
    if field == b"-".as_slice() {
        return Ok(Some(Bytes::copy_of(alloc, b"")?));
    }
    if !is_hex(most, field) {
        return Ok(None);
    }
    match hex::decode(alloc, field) {
        Ok(bytes) => Ok(Some(Bytes::from(bytes))),
        Err(FromHexError::OutOfMemory) => Err(NoMemory),
        Err(_) => Ok(None),
    }
}

// Whether this is 1 lower-case hexadecimal digit or more, and at most two for each of so many
// bytes.
fn is_hex(most: u32, field: &[u8]) -> bool
    ensures { result ≡ is_hex most field.now }
{
    !field.is_empty()
        && field.len() <= 2 * most as usize
        && field.iter().all(|byte| is_lower_digit(*byte))
}

fn is_lower_digit(byte: u8) -> bool
    ensures { result ≡ is_lower_digit byte }
{
    byte.is_ascii_digit() || (byte >= b'a' && byte <= b'f')
}
