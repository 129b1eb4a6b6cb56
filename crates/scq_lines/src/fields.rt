//! The fields of a line, taken from its front one by one.

ghost use Rattle.std.specs.Prelude.{◌≡◌, [], ◌∷◌, MatchOption};
ghost use Rattle.scq_lines.specs.Exports.{fields_of, fields_after};

use memchr::memchr;

/// The first field of a line, and what follows it, from the space on.
pub fn first_field(line: &[u8]) -> (&[u8], &[u8])
    ensures { fields_of line.now ≡ result.0.now ∷ fields_after result.1.now }
{
    match memchr(b' ', line) {
        Some(end) => (&line[..end], &line[end..]),
        None => (line, &[]),
    }
}

/// The first field of what follows a field, and what follows that. None where no field follows.
pub fn next_field(rest: &[u8]) -> Option<(&[u8], &[u8])>
    ensures { MatchOption result
        (fields_after rest.now ≡ [])
        (λ cut. fields_after rest.now ≡ cut.0.now ∷ fields_after cut.1.now) }
{
    match memchr(b' ', rest) {
        Some(space) => Some(first_field(&rest[space + 1..])),
        None => None,
    }
}
