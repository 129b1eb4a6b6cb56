ghost use Rattle.std.specs.Prelude.{◌≡◌, map, slice_get, string_bytes};
ghost use Rattle.scq_words.specs.Numbers.{text_in};
ghost use Rattle.scq_words.specs.Texts.{is_command, option_text};

/// The text of `--name VALUE` or `--name=VALUE` as it stands in the words, by `--name`. The words
/// behind `--` are files.
pub fn option_text<'a>(words: &'a [String], option: &[u8]) -> Option<&'a [u8]>
    ensures { text_in result ≡ option_text option.now (map string_bytes words.entry.now) }
{
    let mut rest = words;
    'words: while let [word, more @ ..] = rest {
        let word = word.as_bytes();
        if word == b"--".as_slice() {
            return None;
        }
        match word.strip_prefix(option) {
            Some([]) => return first_of(more),
            Some([b'=', text @ ..]) => return Some(text),
            _ => {}
        }
        rest = more;
    }
    None
}

fn first_of<'a>(words: &'a [String]) -> Option<&'a [u8]>
    ensures { text_in result ≡ slice_get (map string_bytes words.entry.now) 0 }
{
    match words {
        [word, ..] => Some(word.as_bytes()),
        [] => None,
    }
}

/// Whether a first word is a command: of a program that understands `run` alone, whether it is
/// that.
pub fn is_command(word: &str, run_alone: bool) -> bool
    ensures { result ≡ is_command run_alone word.now }
{
    match word {
        "run" => true,
        "self" | "judge" | "check" | "replay" | "stages" => !run_alone,
        _ => false,
    }
}
