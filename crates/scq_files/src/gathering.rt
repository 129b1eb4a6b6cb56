//! What is gathered of the files of all workers once they have left.
ghost use Rattle.std.specs.Prelude.{◌≡◌, ℕ, ◌^◌, ◌<◌, ◌≤◌, [], None, length, vec_len, vec_capacity};
ghost use Rattle.scq_files.specs.Desks.{AllEnded, AllStop, AllWhole, AreDealt, AreGathered};
ghost use Rattle.scq_files.specs.Desks.{workers_at};
ghost use Rattle.scq_files.specs.Ends.{StopsAtFaults, end_fault, wanted_memory};

use crate::desk::Desk;
use crate::own_file::{FileEnd, OwnFile};
use scq_frames::FrameFault;
use scq_outside::Source;
use std::snapshot::Snapshot;

/// What is gathered of files in their order: their sources, the first fault with its file's number,
/// and whether memory was wanted.
#[derive(Drop)]
pub struct Gathered<S> {
    pub sources: Vec<S>,
    pub fault: Option<(u32, FrameFault)>,
    pub starved: bool,
}

fn fault_of_end(file: u32, end: FileEnd) -> Option<(u32, FrameFault)>
    ensures { result ≡ end_fault file end }
{
    match end {
        FileEnd::Unread => Some((file, FrameFault::NoMemory)),
        FileEnd::Whole => None,
        FileEnd::Stopped(fault) => Some((file, fault)),
    }
}

impl<S> Gathered<S> {
    ghost use Rattle.std.specs.Prelude.{◌≡◌, ◌+◌, ◌<◌, ◌++◌, ◌∷◌, ◌||◌, [], vec_len, vec_capacity};
    ghost use Rattle.std.specs.Option.{option_or};

    /// Takes in a file behind the others.
    fn take_in(&mut self, file: OwnFile<S>)
        requires { vec_len self.old.sources < vec_capacity self.old.sources }
        ensures sources { self.new.sources.items ≡ self.old.sources.items ++ file.source ∷ [] }
        ensures len { vec_len self.new.sources ≡ vec_len self.old.sources + 1 }
        ensures capacity { vec_capacity self.new.sources ≡ vec_capacity self.old.sources }
        ensures fault { self.new.fault ≡ option_or self.old.fault (end_fault file.number file.end) }
        ensures starved { self.new.starved ≡ (self.old.starved || wanted_memory file.end) }
    {
        let OwnFile {
            number,
            source,
            was: _,
            given: _,
            end,
        } = file;
        self.sources.push_reserved(source);
        if self.fault.is_none() {
            self.fault = fault_of_end(number, end);
        }
        if matches!(end, FileEnd::Stopped(FrameFault::NoMemory)) {
            self.starved = true;
        }
    }
}

/// Gathers the files of all desks in their order. How the reading of each ended is told for
/// payloads of at most so many bytes, however many.
pub fn gather<W, S: Source>(
    was: &Snapshot<Vec<S>>,
    desks: &mut [Desk<W, S>],
    count: usize,
    gathered: &mut Gathered<S>,
)
    requires count { (count ≡ vec_len was.now.value) × (count < 2 ^ 32) }
    requires some { 0 < length desks.old }
    requires dealt { AreDealt 1 was.now.value.items desks.old }
    requires empty { (gathered.old.sources.items ≡ []) × (vec_len gathered.old.sources ≡ 0)
        × (count ≤ vec_capacity gathered.old.sources)
        × (gathered.old.fault ≡ None) }
    ensures gathered { (size : ℕ) → AllEnded size S.Source desks.old
        → AreGathered size S.Source was.now.value.items gathered.new.sources.items
        gathered.new.fault gathered.new.starved }
    ensures stops { (size : ℕ) → AllEnded size S.Source desks.old → AllStop desks.old
        → StopsAtFaults (length desks.old) size S.Source
        was.now.value.items gathered.new.sources.items }
    ensures whole { gathered.new.fault ≡ None → AllWhole desks.old }
    ensures same { workers_at desks.new ≡ workers_at desks.old }
{
    let workers = desks.len();
    'files: for at in 0..count {
        if let Some(file) = desks[at % workers].lift() {
            gathered.take_in(file);
        }
    }
}
