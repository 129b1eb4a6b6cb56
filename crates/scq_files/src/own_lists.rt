//! Lists for the files of workers.
ghost use Rattle.std.specs.Prelude.{◌≡◌, ◌≤◌, [], vec_len, vec_capacity, IfOk};
ghost use Rattle.std.specs.List.{All};

use crate::own_file::OwnFile;
use scq_outside::Source;
use scq_word::NoMemory;
use std::alloc::Global;

/// A list for each worker, with room for so many files.
pub fn make_lists<S: Source>(
    alloc: Global,
    workers: u32,
    files: usize,
) -> Result<Vec<Vec<OwnFile<S>>>, NoMemory>
    ensures { IfOk result (λ lists. (vec_len lists ≡ workers)
        × All (λ list. (list.items ≡ []) × (vec_len list ≡ 0)
        × (files ≤ vec_capacity list)) lists.items) }
{
    let mut lists = Vec::with_capacity(alloc, workers as usize)?;
    'lists: for _number in 0..workers {
        lists.push_reserved(Vec::with_capacity(alloc, files)?);
    }
    Ok(lists)
}
