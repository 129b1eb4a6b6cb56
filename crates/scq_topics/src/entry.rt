ghost use Rattle.std.specs.Prelude.{◌≡◌};
ghost use Rattle.scq_topics.specs.Topics.{entry_kind, entry_name, is_name, is_name_byte};

use crate::Kind;

/// The most bytes of a name.
pub const MOST_NAME: usize = 32;

/// The name of an entry, and the kind that is named after its first `=`, if it has one.
pub fn split_entry(entry: &[u8]) -> (&[u8], Option<Kind>)
    ensures name { result.0.now ≡ entry_name entry.now }
    ensures kind { result.1 ≡ entry_kind entry.now }
{
    match entry.iter().position(|byte| *byte == b'=') {
        Some(end) => (&entry[..end], Kind::named(&entry[end + 1..])),
        None => (entry, None),
    }
}

/// Whether this is a name: 1 to 32 bytes, each an ASCII letter or digit, `_` or `.`.
pub fn is_name(name: &[u8]) -> bool
    ensures { result ≡ is_name name.now }
{
    !name.is_empty() && name.len() <= MOST_NAME && name.iter().all(|byte| is_name_byte(*byte))
}

fn is_name_byte(byte: u8) -> bool
    ensures { result ≡ is_name_byte byte }
{
    byte.is_ascii_alphanumeric() || byte == b'_' || byte == b'.'
}
