//! What has been read of recordings.

ghost use Rattle.std.specs.Prelude.{◌≡◌, [], ◌∷◌, ◌++◌, Some, None, OnOk, IfErr};
ghost use Rattle.scq_judge.specs.Entry.{said_by};
ghost use Rattle.scq_judge.specs.Recording.{nothing, entry_may_follow, with_entry, event_with};
ghost use Rattle.scq_judge.specs.Recording.{after_line, after_entry};
ghost use Rattle.scq_judge.specs.Reads.{IsLineFault};
ghost use Rattle.scq_judge.specs.declared.judging.JudgeFault.TheVariants.{BadLine};
ghost use Rattle.scq_judge.specs.declared.recorded.Last.TheVariants.{NoEvent};

use crate::entry::{Entry, read_entry};
use crate::judging::JudgeFault;
use scq_hist::Event;
use scq_word::{Bytes, NoMemory};
use std::alloc::Global;
use std::marker::Model;

/// Where a line stands: its file and its number, both from 1.
#[derive(Clone, Copy)]
pub struct Place {
    pub file: u32,
    pub line: u32,
}

/// The run that a file is of. Files are numbered from 1.
#[derive(Clone, Copy)]
pub struct RunOf {
    pub file: u32,
    pub number: u64,
}

/// An event with its stamp and its place.
#[derive(Drop)]
pub struct Stamped {
    pub stamp: u64,
    pub place: Place,
    pub event: Event,
}

/// What stood in front of the last event of a file, or that there was none, behind the run's
/// number.
#[derive(Clone, Copy)]
pub enum Last {
    NoEvent,
    Headed,
    Bare,
    Stamp(u64),
}

/// The numbers of runs, the opening tokens and the events of all files that were read. Contracts
/// see the lists.
#[derive(Drop)]
pub struct Recorded {
    runs: Vec<RunOf>,
    opening: Vec<Bytes>,
    events: Vec<Stamped>,
    last: Last,
}

impl Model for Recorded {
    ghost use Rattle.scq_judge.specs.Recording.{Recording};

    ghost Value = { Recording };

    ghost view = { λ r. record {
      runs = r.runs.items;
      opening = r.opening.items;
      events =
          r.events.items;
      last = r.last;
    } };
}

fn not_understood(place: Place) -> JudgeFault
    ensures { result ≡ BadLine place.file place.line }
{
    let Place { file, line } = place;
    JudgeFault::BadLine { file, line }
}

/// Whether an entry may follow in this file. Opening tokens stand at the head of file 1, and then
/// the run's number, once, before the file's events; stamps rise; events without stamps are those
/// of a lone file, which has no others.
fn may_follow(file: u32, lone: bool, last: Last, entry: &Entry) -> bool
    ensures { result ≡ entry_may_follow file lone last entry.now }
{
    match (last, entry) {
        (Last::NoEvent, Entry::Run { .. }) => true,
        (Last::NoEvent, Entry::Opening { .. }) => file == 1,
        (Last::NoEvent, Entry::Happens { stamp: None, .. }) => lone,
        (Last::NoEvent, Entry::Happens { stamp: Some(_), .. }) => true,
        (Last::Headed, Entry::Happens { stamp: None, .. }) => lone,
        (Last::Headed, Entry::Happens { stamp: Some(_), .. }) => true,
        (Last::Bare, Entry::Happens { stamp: None, .. }) => true,
        (
            Last::Stamp(last),
            Entry::Happens {
                stamp: Some(stamp),
                ..
            },
        ) => last < *stamp,
        _ => false,
    }
}

impl Recorded {
    pub(crate) fn new(alloc: Global) -> Recorded
        ensures { result ≡ nothing }
    {
        Recorded {
            runs: Vec::new(alloc),
            opening: Vec::new(alloc),
            events: Vec::new(alloc),
            last: Last::NoEvent,
        }
    }

    /// Another file begins.
    pub(crate) fn begin_file(&mut self)
        ensures { self.new ≡ record self.old { last = NoEvent } }
    {
        self.last = Last::NoEvent;
    }

    /// Takes what the line of this number says, where it is understood there.
    pub(crate) fn add_line(
        &mut self,
        alloc: Global,
        lone: bool,
        place: Place,
        line: &[u8],
    ) -> Result<(), JudgeFault>
        ensures read { OnOk result (after_line place.file lone place.line self.old line.now
            ≡ Some self.new) }
        ensures refused { IfErr result (IsLineFault place.file (λ l. (l ≡ place.line)
            × (after_line place.file lone place.line self.old line.now ≡ None))) }
    {
        let Some(entry) = read_entry(alloc, line)? else {
            return Err(not_understood(place));
        };
        if !may_follow(place.file, lone, self.last, &entry) {
            return Err(not_understood(place));
        }
        self.add(place, entry)?;
        Ok(())
    }

    fn add(&mut self, place: Place, entry: Entry) -> Result<(), NoMemory>
        ensures { OnOk result (self.new ≡ with_entry place.file place.line self.old entry) }
    {
        match entry {
            Entry::Run { number } => {
                let file = place.file;
                self.runs
                    .push(RunOf { file, number })
                    .map_err(|_| NoMemory)?;
                self.last = Last::Headed;
            }
            Entry::Opening { content } => self.opening.push(content).map_err(|_| NoMemory)?,
            Entry::Happens { stamp: None, event } => {
                let stamp = u64::from(place.line);
                self.push(stamp, place, event)?;
                self.last = Last::Bare;
            }
            Entry::Happens {
                stamp: Some(stamp),
                event,
            } => {
                self.push(stamp, place, event)?;
                self.last = Last::Stamp(stamp);
            }
        }
        Ok(())
    }

    fn push(&mut self, stamp: u64, place: Place, event: Event) -> Result<(), NoMemory>
        ensures { OnOk result (self.new
            ≡ record self.old {
              events =
                  self.old.events ++ (record { stamp = stamp; place = place; event = event }) ∷ [];
            }) }
    {
        self.events
            .push(Stamped {
                stamp,
                place,
                event,
            })
            .map_err(|_| NoMemory)?;
        Ok(())
    }

    /// Of which run each file is that says so.
    pub(crate) fn runs(&self) -> &[RunOf]
        ensures { result.now ≡ self.now.runs }
    {
        self.runs.as_slice()
    }

    /// The events of all files, in the order in which they were read.
    pub(crate) fn events(&self) -> &[Stamped]
        ensures { result.now ≡ self.now.events }
    {
        self.events.as_slice()
    }

    /// The opening tokens and the events.
    pub(crate) fn into_parts(self) -> (Vec<Bytes>, Vec<Stamped>)
        ensures opening { result.0.items ≡ self.opening }
        ensures events { result.1.items ≡ self.events }
    {
        let Recorded {
            runs: _,
            opening,
            events,
            last: _,
        } = self;
        (opening, events)
    }
}
