//! Files are dealt to workers.
ghost use Rattle.std.specs.Prelude.{◌≡◌, ◌<◌, ◌≤◌, [], length, vec_len, vec_capacity};
ghost use Rattle.std.specs.List.{All};
ghost use Rattle.scq_files.specs.Exports.{AreDealt, workers_at, IsNew};

use crate::desk::Desk;
use crate::own_file::OwnFile;
use std::snapshot::Snapshot;

/// Deals files to desks: file f, from 1, to the desk (f - 1) mod their number.
pub fn deal<W, S>(was: &Snapshot<Vec<S>>, sources: &mut Vec<S>, desks: &mut [Desk<W, S>])
    requires whole { was.now.value.items ≡ sources.old.items }
    requires few { vec_len sources.old ≤ 64 }
    requires some { 0 < length desks.old }
    requires empty { All (λ d. (d.files.items ≡ []) × (vec_len d.files ≡ 0)
        × (vec_len sources.old ≤ vec_capacity d.files)) desks.old }
    ensures emptied { (sources.new.items ≡ []) × (vec_len sources.new ≡ 0) }
    ensures capacity { vec_capacity sources.new ≡ vec_capacity sources.old }
    ensures dealt { AreDealt 1 was.now.value.items desks.new }
    ensures unread { All (λ d. All IsNew d.files.items) desks.new }
    ensures same { workers_at desks.new ≡ workers_at desks.old }
{
    let workers = desks.len();
    'sources: while let Some(source) = sources.pop() {
        let at = sources.len();
        let file = OwnFile::new(at as u32 + 1, source);
        desks[at % workers].lay(file);
    }
}
