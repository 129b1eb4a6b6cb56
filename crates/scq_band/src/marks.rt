//! Marks: what one seat has seen of the run of all seats, carried to another. A mark has no bytes
//! when the program runs.
ghost use Rattle.std.specs.Prelude.{◌≡◌, ◌<◌, [], ◌∷◌};
ghost use Rattle.scq_band.specs.Sights.{mark_sight, HasFound};
ghost use Rattle.scq_band.specs.Buffers.{opening_of};
ghost use Rattle.scq_band.specs.RunSeen.{IsMomentInRun, HaveMet, HaveSeenOneRun, both_seen};
ghost use Rattle.scq_band.specs.Standing.{having_seen, caller_of};

use crate::badges::learn;
use crate::band::Band;
use crate::layout::GATE;
use crate::rule::{Token, Words};
use crate::seat::Seat;
use crate::told::load_told;
use crate::view::View;
use atomic_table::{Badge, Split};
use scq_word::Buffer;
use std::marker::{Brand, Model};

/// How a view is split for a mark: it stays as it is, and what it has seen is copied.
pub struct Marks {}

impl Split<View> for Marks {
    ghost left = { λ v. v };

    ghost right = { mark_sight };
}

/// A copy of what the seat has seen, which has no bytes.
fn copy_seen<B: Buffer>(words: &Words<B>, token: &mut Token<B>) -> Badge<View>
    requires own { token.old.table_id ≡ words.now.table_id }
    requires room { 0 < words.now.table_id.words }
    ensures own { (token.new.table_id ≡ token.old.table_id) × (token.new.id ≡ token.old.id) }
    ensures same { token.new.me ≡ token.old.me }
    ensures mark { (result.table_id ≡ token.old.table_id)
        × (result.views ≡ mark_sight token.old.me.0 ∷ []) }
{
    words.split_seat::<Marks>(token).into_badge()
}

/// The seat is shown the rule's run, and finds what stands at a word there. Only the view changes,
/// which it does at a step of the table: the load of the word.
#[inline(always)]
pub(crate) fn find<B: Buffer>(words: &Words<B>, token: &mut Token<B>, word: usize) -> u64
    requires own { token.old.table_id ≡ words.now.table_id }
    requires room { word < words.now.table_id.words }
    ensures own { (token.new.table_id ≡ token.old.table_id) × (token.new.id ≡ token.old.id) }
    ensures known { token.new.me.0.known ≡ token.old.me.0.known }
    ensures slots { token.new.me.1 ≡ token.old.me.1 }
    ensures found { HasFound words.now.key.setup
        (opening_of B.contents words.now.key.given.value.items) word result
        token.old.me.0 token.new.me.0 }
{
    load_told::<B, Brand>(words, token, word)
}

/// What a seat had seen when the mark was made. It may be dropped.
#[derive(Drop)]
pub struct Mark {
    badge: Badge<View>,
}

impl Model for Mark {
    ghost use Rattle.scq_band.specs.Standing.{MarkStanding};

    ghost Value = { MarkStanding };

    ghost use Rattle.scq_band.specs.Kept.{IsMark, seen_in};

    ghost view = { λ m. record { table = m.badge.table_id; seen = seen_in m.badge.views } };

    ghost invariant = { λ m. IsMark m.badge.views };
}

impl<B: Buffer> Band<B> {
    /// Shows the seat the run of all seats as it is now. All that the seat had seen are prefixes of
    /// it, and it stands between two calls of the seat. It has the calls of other seats too, of
    /// those that told this one nothing among them: this no clause says. Wait-free: one step.
    pub fn look(&self, seat: &mut Seat<B>)
        requires seat { seat.old.band ≡ self.now }
        ensures same { seat.new ≡ having_seen seat.new.seen seat.old }
        ensures moment { IsMomentInRun self.now.setup (opening_of B.contents self.now.given)
            (caller_of seat.old) (caller_of seat.new) }
    {
        let _not_retired = find(&self.table.shared, &mut seat.token, GATE);
    }

    /// A mark of what the seat has seen: of the run, and of those that retired. Wait-free: one
    /// step.
    pub fn mark(&self, seat: &mut Seat<B>) -> Mark
        requires seat { seat.old.band ≡ self.now }
        ensures same { seat.new ≡ seat.old }
        ensures mark { (result.table ≡ self.now.table) × (result.seen ≡ seat.old.seen) }
    {
        Mark {
            badge: copy_seen(&self.table.shared, &mut seat.token),
        }
    }

    /// The seat has seen what the mark's seat had. Each call that had ended in a run which that
    /// seat had seen comes before each call that this one makes from now on
    /// (`laws::calls_in_a_run_seen_come_first`). Wait-free: one step.
    pub fn heed(&self, seat: &mut Seat<B>, mark: Mark)
        requires seat { seat.old.band ≡ self.now }
        requires mark { mark.table ≡ self.now.table }
        ensures { seat.new ≡ having_seen (both_seen seat.old.seen mark.seen) seat.old }
    {
        let Mark { badge } = mark;
        learn(&self.table.shared, &mut seat.token, badge);
    }

    /// Two seats meet: what they had seen are prefixes of one run, which both have seen from now
    /// on. So of any two runs that the one or the other had seen, one is a prefix of the other.
    /// Wait-free: five steps.
    pub fn meet(&self, one: &mut Seat<B>, other: &mut Seat<B>)
        requires one { one.old.band ≡ self.now }
        requires other { other.old.band ≡ self.now }
        ensures one { one.new ≡ having_seen one.new.seen one.old }
        ensures other { other.new ≡ having_seen other.new.seen other.old }
        ensures met { HaveMet self.now.setup (opening_of B.contents self.now.given)
            (caller_of one.old) (caller_of other.old) (caller_of one.new) (caller_of other.new) }
        ensures comparable { HaveSeenOneRun one.old.seen other.old.seen }
    {
        let theirs = self.mark(other);
        self.heed(one, theirs);
        self.look(one);
        let both = self.mark(one);
        self.heed(other, both);
    }
}
