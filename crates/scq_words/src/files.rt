ghost use Rattle.std.specs.Prelude.{◌≡◌, ◌<◌, ◌≤◌, None, Some, length, map, string_bytes, vec_len};
ghost use Rattle.std.specs.Prelude.{IfOk, IsErrOf, OnOk};
ghost use Rattle.std.specs.List.{All};
ghost use Rattle.std.specs.Result.{result_err};
ghost use Rattle.scq_words.specs.Asked.{files_tests, first_of_tests, refused_names};
ghost use Rattle.scq_words.specs.declared.fault.WordsFault.{WordsFault as TheFault};

use crate::{WordsError, WordsFault};
use std::alloc::{AllocError, Global};

/// The most files of a run.
pub const MOST_FILES: usize = 64;

/// The most files of recordings.
pub const MOST_RECORDINGS: usize = 4096;

/// Copies of the names of at most so many files, each of which has one.
pub fn files_of(
    alloc: Global,
    files: &[&str],
    most: usize,
    many: WordsFault,
) -> Result<Vec<String>, WordsError>
    requires { most ≤ 4096 }
    ensures passes { OnOk result (first_of_tests
        (files_tests most many (map (λ name. name.now) files.now)) ≡ None) }
    ensures names { IfOk result (λ own.
        map string_bytes own.items ≡ map (λ name. name.now) files.now) }
    ensures refused { (fault : TheFault) → IsErrOf result (WordsError.Refused fault)
        → first_of_tests (files_tests most many (map (λ name. name.now) files.now)) ≡ Some fault }
    ensures few { IfOk result (λ own. vec_len own ≤ most) }
    ensures few_names { IfOk result (λ own. length (map string_bytes own.items) ≤ most) }
    ensures named { IfOk result (λ own.
        All (λ name. 0 < length name) (map string_bytes own.items)) }
{
    if files.len() > most {
        return Err(WordsError::Refused(many));
    }
    named_files(files)?;
    let own = own_files(alloc, files)?;
    Ok(own)
}

/// Each of at most 4,096 files has a name.
fn named_files(files: &[&str]) -> Result<(), WordsFault>
    requires { length files.now ≤ 4096 }
    ensures refused { result_err result ≡ refused_names (map (λ name. name.now) files.now) }
    ensures named { OnOk result (All (λ name. 0 < length name.now) files.now) }
{
    match files.iter().position(|name| name.is_empty()) {
        Some(at) => Err(WordsFault::NoName {
            file: at as u32 + 1,
        }),
        None => Ok(()),
    }
}

/// Copies of the names.
fn own_files(alloc: Global, files: &[&str]) -> Result<Vec<String>, AllocError>
    ensures len { IfOk result (λ own. vec_len own ≡ length files.now) }
    ensures names { IfOk result (λ own.
        map string_bytes own.items ≡ map (λ name. name.now) files.now) }
{
    let mut own = Vec::with_capacity(alloc, files.len())?;
    for name in files {
        own.push(String::from_str(alloc, *name)?)?;
    }
    Ok(own)
}
