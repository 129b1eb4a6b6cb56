//! What a pass has seen of the run of all passes, carried to another: a mark; and how two passes
//! meet.
ghost use Rattle.std.specs.Prelude.{◌≡◌};
ghost use Rattle.scq_band.specs.Exports.{opening_of, IsMomentInRun, HaveMet, HaveSeenOneRun};
ghost use Rattle.scq_band.specs.Exports.{both_seen};
ghost use Rattle.scq_queue.specs.Passes.{having_seen, caller_of};

use crate::pass::Pass;
use crate::queue::Queue;
use scq_word::Buffer;
use std::marker::Model;

/// What a pass had seen when the mark was made. It has no bytes when the program runs, and may be
/// dropped.
#[derive(Drop)]
pub struct Mark {
    inner: scq_band::Mark,
}

impl Model for Mark {
    ghost use Rattle.scq_band.specs.Standing.{MarkStanding};

    ghost Value = { MarkStanding };

    ghost view = { λ m. m.inner };
}

impl<B: Buffer> Queue<B> {
    /// Shows the pass the run of all passes as it is now. All that the pass had seen are prefixes
    /// of it, and it stands between two calls of the pass. It has the calls of other passes too, of
    /// those that told this one nothing among them: this no clause says. Wait-free: one step.
    pub fn look(&self, pass: &mut Pass<B>)
        requires pass { pass.old.queue ≡ self.now }
        ensures same { pass.new ≡ having_seen pass.new.seen pass.old }
        ensures moment { IsMomentInRun self.now.setup (opening_of B.contents self.now.given)
            (caller_of pass.old) (caller_of pass.new) }
    {
        self.band.look(&mut pass.seat);
    }

    /// A mark of what the pass has seen: of the run, and of those that retired. Wait-free: one
    /// step.
    pub fn mark(&self, pass: &mut Pass<B>) -> Mark
        requires pass { pass.old.queue ≡ self.now }
        ensures same { pass.new ≡ pass.old }
        ensures mark { (result.table ≡ self.now.table) × (result.seen ≡ pass.old.seen) }
    {
        Mark {
            inner: self.band.mark(&mut pass.seat),
        }
    }

    /// The pass has seen what the mark's pass had. Each call, of any pass, that had ended in a run
    /// which that pass had seen comes before each call that this one makes from now on
    /// (`scq_band::laws::calls_in_a_run_seen_come_first`). So who takes Empty behind a mark is
    /// right about each send that had ended there. Wait-free: one step.
    pub fn heed(&self, pass: &mut Pass<B>, mark: Mark)
        requires pass { pass.old.queue ≡ self.now }
        requires mark { mark.table ≡ self.now.table }
        ensures { pass.new ≡ having_seen (both_seen pass.old.seen mark.seen) pass.old }
    {
        let Mark { inner } = mark;
        self.band.heed(&mut pass.seat, inner);
    }

    /// Two passes meet: what they had seen are prefixes of one run, which both have seen from now
    /// on. So of any two runs that the one or the other had seen, one is a prefix of the other.
    /// Wait-free: five steps.
    pub fn meet(&self, one: &mut Pass<B>, other: &mut Pass<B>)
        requires one { one.old.queue ≡ self.now }
        requires other { other.old.queue ≡ self.now }
        ensures one { one.new ≡ having_seen one.new.seen one.old }
        ensures other { other.new ≡ having_seen other.new.seen other.old }
        ensures met { HaveMet self.now.setup (opening_of B.contents self.now.given)
            (caller_of one.old) (caller_of other.old) (caller_of one.new) (caller_of other.new) }
        ensures comparable { HaveSeenOneRun one.old.seen other.old.seen }
    {
        self.band.meet(&mut one.seat, &mut other.seat);
    }
}
