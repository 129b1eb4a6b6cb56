//! Recordings read one file after the other, and judged together.

ghost use Rattle.std.specs.Prelude.{◌≡◌, ℕ, ◌+◌, ◌<◌, ◌^◌, List, [], ◌∷◌, ◌++◌, map, string_bytes};
ghost use Rattle.std.specs.Prelude.{IfOk, IfErr, OnOk};
ghost use Rattle.scq_judge.specs.Judged.{IsCauseIn, IsOrdered, IsReported};
ghost use Rattle.scq_judge.specs.Reads.{HaveBeenRead, ReadingStopped};
ghost use Rattle.scq_judge.specs.Recording.{nothing};

use crate::judging::{JudgeFault, Judged, judge_recorded, order_recorded};
use crate::ordering::Ordered;
use crate::reading::Reading;
use crate::recorded::Recorded;
use scq_outside::Source;
use std::alloc::Global;
use std::marker::Model;

/// What files of recordings said that were read one after the other. It keeps no source, so that no
/// file needs to be open but the one that is read.
#[derive(Drop)]
pub struct Reader {
    recorded: Recorded,
    files: u32,
    lone: bool,
}

impl Model for Reader {
    ghost use Rattle.scq_judge.specs.Reads.{Progress};

    ghost Value = { Progress };

    ghost view = { λ r. record { lone = r.lone; files = r.files; recorded = r.recorded } };
}

impl Reader {
    /// Before the first file. A lone file, which has no others beside it, may be without stamps.
    pub fn new(alloc: Global, lone: bool) -> Reader
        ensures { result ≡ record { lone = lone; files = 0; recorded = nothing } }
    {
        Reader {
            recorded: Recorded::new(alloc),
            files: 0,
            lone,
        }
    }

    /// Reads the source of the next file to its end, or to its first fault. After a fault nothing
    /// is said of the reader.
    pub fn read<S: Source>(&mut self, alloc: Global, source: &mut S) -> Result<(), JudgeFault>
        requires { self.old.files + 1 < 2 ^ 31 }
        ensures lone { OnOk result (self.new.lone ≡ self.old.lone) }

        // Whichever sources were read before: so was this one.
        ensures read { OnOk result ((olds news : List S)
            → HaveBeenRead S.faults S.ends S.left olds news self.old
            → HaveBeenRead S.faults S.ends S.left (olds ++ source.old ∷ [])
            (news ++ source.new ∷ []) self.new) }
        ensures stopped { IfErr result (λ fault. (olds news : List S)
            → HaveBeenRead S.faults S.ends S.left olds news self.old
            → ReadingStopped S.faults S.ends S.left self.old.lone (olds ++ source.old ∷ [])
            (news ++ source.new ∷ []) fault) }
    {
        let reading = Reading {
            file: self.files + 1,
            lone: self.lone,
        };
        reading.read(alloc, &mut self.recorded, source)?;
        self.files += 1;
        Ok(())
    }

    /// The report of the history that the recordings are merged to. Where it is told for
    /// how many values each queue has room, refused puts are judged too. Files are told by these
    /// names, in the order in which they were read. Of faults only Shared, TwoRuns, Unlawful and
    /// NoMemory come. No clause says that memory and time grow little faster than the number of
    /// events.
    pub fn judge(
        self,
        alloc: Global,
        room: Option<u32>,
        names: &[String],
    ) -> Result<Judged, JudgeFault>
        ensures reported { IfOk result
            (IsReported (map string_bytes names.now) room self.recorded) }
        ensures refused { IfErr result (IsCauseIn self.recorded) }
    {
        judge_recorded(alloc, room, names, self.recorded)
    }

    /// An order of the history that the recordings are merged to, as text, or why there is none. Of
    /// each queue with calls that weren't refused, the lowest first, it has a line `queue Q`, and
    /// behind it a line for each of these calls, in order: its seat, its number among the seat's
    /// calls over all queues, from 1, and what it did. The faults are those of `judge`.
    pub fn order(self, alloc: Global) -> Result<Ordered, JudgeFault>
        ensures ordered { IfOk result (IsOrdered self.recorded) }
        ensures refused { IfErr result (IsCauseIn self.recorded) }
    {
        order_recorded(alloc, self.recorded)
    }
}
