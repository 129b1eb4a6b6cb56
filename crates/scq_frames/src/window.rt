ghost use Rattle.std.specs.Prelude.{◌≡◌, ◌⊎◌, ◌+◌, ◌-◌, ◌<◌, ◌≤◌, ◌++◌, [], length, take, drop};
ghost use Rattle.std.specs.Prelude.{Ok, IfOk, IfErr, IfSome, IfNone, OnErr, IsErrOf};
ghost use Rattle.std.specs.List.{before_first};
ghost use Rattle.scq_outside.specs.Exports.{RoseWhere};
ghost use Rattle.scq_topics.specs.Exports.{is_space};
ghost use Rattle.scq_frames.specs.Lines.{EndsAt, HasNoLineFeed};
ghost use Rattle.scq_frames.specs.Trimming.{IsTrimmed};
ghost use Rattle.scq_frames.specs.Framing.{Reads};

use crate::FrameFault;
use crate::cut::split_line;
use crate::room::{close_gap, make_room, read_at};
use memchr::memchr;
use scq_outside::Source;
use scq_word::NoMemory;
use std::alloc::Global;
use std::marker::Model;

/// The greatest number of bytes that one read asks for.
pub const READ: usize = 4096;

/// The room at the start: after a rest of at most `READ` bytes a whole read fits.
const ROOM: usize = 2 * READ;

/// The bytes that were read and not yet given. No byte is searched twice for the end of its line,
/// and the rest of a line moves to the front of the room only before a read.
#[derive(Drop)]
pub struct Window {
    room: Vec<u8>,
    start: usize,
    searched: usize,
    end: usize,
}

impl Model for Window {
    ghost use Rattle.std.specs.Prelude.{ℕ, ◌≤◌, List, slice_range};

    ghost Value = { List ℕ };

    ghost view = { λ w. slice_range w.room.items w.start w.end };

    ghost use Rattle.scq_frames.specs.Bounds.{HasBounds};

    ghost invariant = { HasBounds };
}

impl Window {
    pub fn new(alloc: Global) -> Result<Window, NoMemory>
        ensures { IfOk result (λ window. window ≡ []) }
    {
        Ok(Window {
            room: vec![in alloc; 0; ROOM]?,
            start: 0,
            searched: 0,
            end: 0,
        })
    }

    pub fn len(&self) -> usize
        ensures { result ≡ length self.now }
    {
        self.end - self.start
    }

    /// The length of the first line, where an LF ends it.
    pub fn line_len(&mut self) -> Option<usize>
        ensures same { self.new ≡ self.old }
        ensures found { IfSome result (EndsAt self.old) }
        ensures none { IfNone result (HasNoLineFeed self.old 0 (length self.old)) }
    {
        match memchr(b'\n', &self.room[self.searched..self.end]) {
            Some(further) => {
                self.searched += further;
                Some(self.searched - self.start)
            }
            None => {
                self.searched = self.end;
                None
            }
        }
    }

    /// The first bytes.
    pub fn front(&self, len: usize) -> &[u8]
        requires { len ≤ length self.now }
        ensures { result.now ≡ take len self.now }
    {
        &self.room[self.start..self.start + len]
    }

    /// Gives up the first bytes.
    pub fn skip(&mut self, len: usize)
        requires { len ≤ length self.old }
        ensures { self.new ≡ drop len self.old }
    {
        self.start += len;
        self.searched = self.searched.max(self.start);
    }

    /// Keeps at most so many bytes of the topic of a line that no LF ends.
    pub fn cut_topic(&mut self, most: usize)
        requires clear { HasNoLineFeed self.old 0 (length self.old) }
        ensures trimmed { IsTrimmed most self.old self.new }
        ensures topic { length (before_first is_space self.new) ≤ most }
    {
        let (topic, _) = split_line(self.front(self.len()));
        let len = topic.len();
        if most < len {
            self.cut(most, len);
        }
    }

    /// Drops the bytes from one position up to another, of a line that no LF ends.
    fn cut(&mut self, from: usize, to: usize)
        requires ordered { from ≤ to }
        requires within { to ≤ length self.old }
        requires clear { HasNoLineFeed self.old 0 (length self.old) }
        ensures { self.new ≡ take from self.old ++ drop to self.old }
    {
        let start = self.start + (to - from);
        close_gap(&mut self.room, self.start, from, start);
        self.start = start;
        self.searched = self.end;
    }

    /// Reads at most so many bytes behind those held, and answers how many.
    pub fn read<S: Source>(&mut self, source: &mut S, most: usize) -> Result<usize, FrameFault>
        requires some { 0 < most }
        requires small { most ≤ 4096 }
        ensures reads { IfOk result
            (Reads most self.old self.new (S.left source.old) (S.left source.new)) }
        ensures fault { IfErr result (λ fault.
            (fault ≡ FrameFault.ReadFault) ⊎ (fault ≡ FrameFault.NoMemory)) }
        ensures unmoved { OnErr result ((self.new ≡ self.old)
            × (S.left source.new ≡ S.left source.old)) }
        ensures faults { RoseWhere (IsErrOf result FrameFault.ReadFault)
            (S.faults source.old) (S.faults source.new) }
        ensures never_falls { S.faults source.old ≤ S.faults source.new }
        ensures ends { RoseWhere (result ≡ Ok 0) (S.ends source.old) (S.ends source.new) }
    {
        let held = self.end - self.start;
        let from = make_room(&mut self.room, self.start, self.end, most)?;
        self.searched = from + (self.searched - self.start);
        self.start = from;
        self.end = from + held;
        let got = read_at(source, &mut self.room, self.end, most)?;
        self.end += got;
        Ok(got)
    }
}
