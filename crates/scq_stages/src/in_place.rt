//! What the two stages do to a payload where it lies.
ghost use Rattle.std.specs.Prelude.{◌≡◌, ◌≤◌, length, take};
ghost use Rattle.scq_stages.specs.Stages.{redacted, redacted_byte, squeezed};

/// What stands in place of a digit.
const HIDDEN: u8 = b'#';

/// The first stage: each digit is hidden.
pub fn redact(payload: &mut [u8])
    ensures { payload.new ≡ redacted payload.old }
{
    for at in 0..payload.len() {
        payload[at] = redact_byte(payload[at]);
    }
}

fn redact_byte(byte: u8) -> u8
    ensures { result ≡ redacted_byte byte }
{
    if byte.is_ascii_digit() { HIDDEN } else { byte }
}

/// The second stage: of spaces that stand together one stays. The bytes that are left come first,
/// so many; what follows them means nothing.
pub fn squeeze(payload: &mut [u8]) -> usize
    ensures within { result ≤ length payload.old }
    ensures squeezed { take result payload.new ≡ squeezed payload.old }
{
    let mut kept = 0;
    let mut behind_space = false;
    for at in 0..payload.len() {
        let byte = payload[at];
        let is_space = byte == b' ';
        if behind_space && is_space {
            continue;
        }
        payload[kept] = byte;
        kept += 1;
        behind_space = is_space;
    }
    kept
}
