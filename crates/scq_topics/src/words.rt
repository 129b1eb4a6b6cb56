ghost use Rattle.std.specs.Prelude.{◌≡◌, length};
ghost use Rattle.scq_topics.specs.Exports.{runs, is_blank};

/// How many maximal runs of bytes other than space and tab there are. Each begins at such a byte
/// that follows none, so one pass counts them.
pub fn word_count(payload: &[u8]) -> usize
    ensures { result ≡ length (runs is_blank payload.now) }
{
    let mut count = 0;
    let mut in_word = false;
    for byte in payload {
        let blank = is_blank(*byte);
        count += usize::from(!blank && !in_word);
        in_word = !blank;
    }
    count
}

fn is_blank(byte: u8) -> bool
    ensures { result ≡ is_blank byte }
{
    byte == b' ' || byte == b'\t'
}
