//! Recordings merged and judged.

ghost use Rattle.std.specs.Prelude.{◌≡◌, ◌<◌, length, map, string_bytes, IfOk, IfErr, IfSome};
ghost use Rattle.scq_hist.specs.Exports.{IsLawful};
ghost use Rattle.scq_check.specs.Exports.{AreWithin};
ghost use Rattle.scq_judge.specs.Judged.{shared_by, IsReported, IsReportOf, IsOrdered, IsCauseIn};
ghost use Rattle.scq_judge.specs.Report.{AreRoomBreaches, IsReport};

use crate::counting::{Counts, count};
use crate::finding::Finding;
use crate::history::lawful_history;
use crate::linearizable::is_linearizable;
use crate::merging::MergeFault;
use crate::ordering::{Ordered, order_lawful};
use crate::recorded::{Place, Recorded};
use crate::teller::Teller;
use crate::text::report_text;
use scq_check::{Breaches, Failures, find_breaches, find_room_breaches};
use scq_hist::Event;
use scq_word::{Bytes, NoMemory};
use std::alloc::{AllocError, Global};
use thiserror::Error;

/// What is said of a history: the events that break each aspect, and, where it is known, the room;
/// what it has, how many opening tokens among it, and where each call has ended whether it is
/// linearizable.
#[derive(Clone, Copy)]
pub struct Report {
    pub breaches: Breaches,
    pub full: Option<Failures>,
    pub counts: Counts,
    pub tokens: usize,
    pub linearizable: Option<bool>,
}

/// A report as text, and the worst that one of its lines says.
#[derive(Drop)]
pub struct Judged {
    pub text: Bytes,
    pub worst: Finding,
}

impl Report {
    ghost use Rattle.scq_judge.specs.Report.{tests_gots, tests_order, tests_empty, tests_refused};
    ghost use Rattle.scq_judge.specs.Report.{tests_opening};

    /// Whether a get got something.
    pub(crate) fn tests_gots(&self) -> bool
        ensures { result ≡ tests_gots self.now }
    {
        self.breaches.endings.got > 0
    }

    /// Whether a get got something, and where there are several seats calls ran side by side.
    pub(crate) fn tests_order(&self) -> bool
        ensures { result ≡ tests_order self.now }
    {
        self.tests_gots() && (self.counts.seats <= 1 || self.counts.overlapping > 0)
    }

    /// Whether a get found nothing.
    pub(crate) fn tests_empty(&self) -> bool
        ensures { result ≡ tests_empty self.now }
    {
        self.breaches.endings.nothing > 0
    }

    /// Whether a put was refused.
    pub(crate) fn tests_refused(&self) -> bool
        ensures { result ≡ tests_refused self.now }
    {
        self.breaches.endings.refused > 0
    }

    /// Whether a get got an opening token.
    pub(crate) fn tests_opening(&self) -> bool
        ensures { result ≡ tests_opening self.now }
    {
        self.breaches.endings.tokens > 0
    }
}

/// What two events may not share: a stamp, or in two files a seat.
#[derive(Clone, Copy, Debug, PartialEq, Eq, Error)]
pub enum Shared {
    #[error("stamp")]
    Stamp,
    #[error("seat")]
    Seat,
}

/// Why recordings were not judged. Files and lines are numbered from 1.
#[derive(Clone, Copy, Debug, Error)]
pub enum JudgeFault {
    /// The line is not of the form, or may not stand there.
    #[error("file {file} line {line}: not understood")]
    BadLine {
        file: u32,
        line: u32,
    },
    /// The line's event has the stamp of another event, or is of a seat that has an event in
    /// another file.
    #[error("file {file} line {line}: same {what} as file {other_file} line {other_line}")]
    Shared {
        what: Shared,
        file: u32,
        line: u32,
        other_file: u32,
        other_line: u32,
    },
    /// The file is of another run than the other file.
    #[error("file {file} is of run {run}, file {other_file} is of run {other_run}")]
    TwoRuns {
        file: u32,
        run: u64,
        other_file: u32,
        other_run: u64,
    },
    /// In the merged history this line's event is the first that isn't lawful.
    #[error("file {file} line {line}: event out of place")]
    Unlawful {
        file: u32,
        line: u32,
    },
    #[error("file {file}: read fault")]
    ReadFault {
        file: u32,
    },
    #[error("file {file}: more than 2147483646 bytes")]
    TooLarge {
        file: u32,
    },
    #[error("out of memory")]
    NoMemory,
}

impl From<NoMemory> for JudgeFault {
    ghost use Rattle.scq_judge.specs.declared.judging.JudgeFault.TheVariants.{NoMemory as Wanted};

    ghost from_gives = { λ _ fault. fault ≡ Wanted };

    fn from(_: NoMemory) -> JudgeFault {
        JudgeFault::NoMemory
    }
}

impl From<AllocError> for JudgeFault {
    ghost use Rattle.scq_judge.specs.declared.judging.JudgeFault.TheVariants.{NoMemory as Wanted};

    ghost from_gives = { λ _ fault. fault ≡ Wanted };

    fn from(_: AllocError) -> JudgeFault {
        JudgeFault::NoMemory
    }
}

impl From<MergeFault> for JudgeFault {
    ghost use Rattle.scq_judge.specs.Judged.{fault_of_merging};

    ghost from_gives = { λ refused fault. fault ≡ fault_of_merging refused };

    fn from(refused: MergeFault) -> JudgeFault {
        match refused {
            MergeFault::SameStamp { place, other } => sharing(Shared::Stamp, place, other),
            MergeFault::NoMemory => JudgeFault::NoMemory,
        }
    }
}

/// The fault of an event that shares this with another.
pub(crate) fn sharing(what: Shared, place: Place, other: Place) -> JudgeFault
    ensures { result ≡ shared_by what place other }
{
    JudgeFault::Shared {
        what,
        file: place.file,
        line: place.line,
        other_file: other.file,
        other_line: other.line,
    }
}

// The report of what was read.
pub(crate) fn judge_recorded(
    alloc: Global,
    room: Option<u32>,
    names: &[String],
    recorded: Recorded,
) -> Result<Judged, JudgeFault>
    ensures reported { IfOk result (IsReported (map string_bytes names.now) room recorded) }
    ensures refused { IfErr result (IsCauseIn recorded) }
{
    let merged = lawful_history(alloc, recorded)?;
    let opening = merged.opening.as_slice();
    let events = merged.events.as_slice();
    let places = merged.places.as_slice();
    let teller = Teller {
        names,
        places,
        events,
    };
    judge_lawful(alloc, room, opening, teller)
}

// What is said where an order of what was read is asked for.
pub(crate) fn order_recorded(alloc: Global, recorded: Recorded) -> Result<Ordered, JudgeFault>
    ensures ordered { IfOk result (IsOrdered recorded) }
    ensures refused { IfErr result (IsCauseIn recorded) }
{
    let merged = lawful_history(alloc, recorded)?;
    let opening = merged.opening.as_slice();
    let events = merged.events.as_slice();
    let ordered = order_lawful(alloc, opening, events)?;
    Ok(ordered)
}

// The report of a lawful history.
fn judge_lawful(
    alloc: Global,
    room: Option<u32>,
    opening: &[Bytes],
    teller: Teller<'_>,
) -> Result<Judged, JudgeFault>
    requires { IsLawful teller.events.now }
    ensures reported { IfOk result
        (IsReportOf (map string_bytes teller.entry.names.now) room opening.now
        teller.entry.events.now teller.entry.places.now) }
    ensures refused { IfErr result (λ fault. fault ≡ JudgeFault.NoMemory) }
{
    let report = report_on(alloc, room, opening, teller.events)?;
    let text = report_text(alloc, teller, &report)?;
    Ok(Judged {
        text,
        worst: report.worst(),
    })
}

// What is said of a lawful history.
fn report_on(
    alloc: Global,
    room: Option<u32>,
    opening: &[Bytes],
    events: &[Event],
) -> Result<Report, NoMemory>
    requires { IsLawful events.now }
    ensures report { IfOk result (IsReport room opening.now events.now) }
    ensures within { IfOk result (λ report. AreWithin (length events.now) report.breaches) }
    ensures full_within { IfOk result (λ report.
        IfSome report.full (λ full. IfSome full.first (λ e. e < length events.now))) }
{
    let breaches = find_breaches(alloc, opening, events)?;
    let counts = count(alloc, events)?;
    Ok(Report {
        breaches,
        full: room_breaches(alloc, room, opening, events)?,
        counts,
        tokens: opening.len(),
        linearizable: is_linearizable(&breaches, counts.never_ended),
    })
}

// The puts that break the room, where it is known for how many values each queue has it.
fn room_breaches(
    alloc: Global,
    room: Option<u32>,
    opening: &[Bytes],
    events: &[Event],
) -> Result<Option<Failures>, NoMemory>
    requires { IsLawful events.now }
    ensures told { IfOk result (AreRoomBreaches room opening.now events.now) }
    ensures within { IfOk result (λ told.
        IfSome told (λ full. IfSome full.first (λ e. e < length events.now))) }
{
    match room {
        None => Ok(None),
        Some(room) => {
            let failures = find_room_breaches(alloc, room, opening, events)?;
            Ok(Some(failures))
        }
    }
}
