//! What a pass knows of the rings, carried to another.
ghost use Rattle.std.specs.Prelude.{◌≡◌};
ghost use Rattle.scq_band.specs.Exports.{raised_by, both_seen};

use crate::pass::Pass;
use crate::queue::Queue;
use scq_band::BandNote;
use scq_word::Buffer;
use std::marker::Model;

/// What a pass knew of the rings when the note was made. It may be dropped.
#[derive(Drop)]
pub struct Note {
    inner: BandNote,
}

impl Model for Note {
    ghost use Rattle.scq_band.specs.Standing.{NoteStanding};

    ghost Value = { NoteStanding };

    ghost view = { λ n. n.inner };
}

impl<B: Buffer> Queue<B> {
    /// A note of what the pass knows, and of what it has seen of the run of all passes.
    pub fn note(&self, pass: &mut Pass<B>) -> Note
        requires pass { pass.old.queue ≡ self.now }
        ensures same { pass.new ≡ pass.old }
        ensures note { (result.table ≡ self.now.table) × (result.numbers ≡ pass.old.numbers)
            × (result.seen ≡ pass.old.seen) }
    {
        Note {
            inner: self.band.note(&mut pass.seat),
        }
    }

    /// From then on the pass knows the larger of each number, and has seen what the note's pass
    /// had: each call, of any pass, that had ended in a run which that pass had seen comes before
    /// each call that this one makes from now on
    /// (`scq_band::laws::calls_in_a_run_seen_come_first`). A mark carries the same without the
    /// numbers.
    pub fn learn(&self, pass: &mut Pass<B>, note: Note)
        requires pass { pass.old.queue ≡ self.now }
        requires note { note.table ≡ self.now.table }
        ensures { pass.new ≡ record pass.old {
          numbers = raised_by pass.old.numbers note.numbers;
          seen = both_seen pass.old.seen note.seen;
        } }
    {
        let Note { inner } = note;
        self.band.learn(&mut pass.seat, inner);
    }
}
