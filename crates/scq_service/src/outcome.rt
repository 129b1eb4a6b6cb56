ghost use Rattle.std.specs.Prelude.{◌≡◌, Option, Some, None};
ghost use Rattle.scq_service.specs.Faults.{status_of_fault, fault_of_work, fault_of_text};
ghost use Rattle.scq_service.specs.Faults.{bytes_of_large, bytes_of_large_text};
ghost use Rattle.scq_service.specs.Naming.{cause_told, source_cause};
ghost use Rattle.scq_outside.specs.declared.cause.Cause.{Cause as TheCause};

use crate::commands::MOST_TEXT;
use crate::{Fault, LetGo, Sources};
use scq_block::Frame;
use scq_desk::EndFault;
use scq_outside::{Cause, ReadAllFault, Source};
use scq_queue::Pass;
use scq_stages::Staged;
use scq_work::{Waited, Worked};
use std::snapshot::Snapshot;

/// The greatest number of bytes of a file.
const MOST_BYTES: u64 = 1 << 30;

/// How a run ended.
#[derive(Drop)]
pub struct Outcome<S> {
    pub status: u8,
    /// There exactly where the status isn't 0.
    pub fault: Option<Fault>,
    /// What the system says of a file that wasn't opened, or of a read or a write that failed, as
    /// far as that is known.
    pub cause: Option<Cause>,
    /// For contracts alone, the sources that were got, each as it was last.
    pub sources: LetGo<S>,
    /// How many bytes were read of a file that is too large; 0 where none is, and of `judge`.
    pub read: u64,
    /// What workers answered: there exactly where `run` or `self` ended with status 0 or 4.
    pub worked: Option<Worked>,
    /// What workers finished: there exactly where `stages` ended with status 0 or 4.
    pub staged: Option<Staged>,
    /// How many indices were left in each ring of the workers' queue when it was closed. Of `run`
    /// and `self` it is None only at status 2 and 5, and of other commands always.
    pub left: Option<Vec<u64>>,
    /// For contracts alone, and where `left` is there, the workers' passes as they were then.
    pub passes: Option<Snapshot<Vec<Pass<Frame>>>>,
    /// Likewise the queue's buffers as they came back, in the order of their indices.
    pub frames: Option<Snapshot<Vec<Frame>>>,
    /// Where idle workers wait: of each worker, whether it saw that all had retired, and how often
    /// it rested and was woken. None only at status 2 and 5. Where they leave early it is None.
    pub waited: Option<Waited>,
    /// For contracts alone, the sources as they were when they were got.
    pub got: Sources<S>,
}

impl<S: Source> Outcome<S> {
    ghost use Rattle.scq_service.specs.Answers.{IsThereAt};

    pub(crate) fn whole(sources: Vec<S>) -> Outcome<S>
        ensures status { result.status ≡ 0 }
        ensures fault { result.fault ≡ None }
        ensures cause { result.cause ≡ None }
        ensures sources { result.sources.items ≡ sources.items }
        ensures read { result.read ≡ 0 }
        ensures worked { result.worked ≡ None }
        ensures staged { result.staged ≡ None }
        ensures left { (result.left ≡ None) × (result.passes ≡ None) × (result.frames ≡ None) }
        ensures waited { result.waited ≡ None }
        ensures got { result.got.items ≡ sources.items }
    {
        let got = Snapshot::of(&sources);
        Outcome {
            status: 0,
            fault: None,
            cause: None,
            sources: LetGo::these(sources),
            read: 0,
            worked: None,
            staged: None,
            left: None,
            passes: None,
            frames: None,
            waited: None,
            got: Sources::these(got),
        }
    }

    /// The end once workers have answered all messages of these sources.
    pub(crate) fn answered(sources: Vec<S>, worked: Worked) -> Outcome<S>
        ensures status { result.status ≡ 0 }
        ensures fault { result.fault ≡ None }
        ensures cause { result.cause ≡ None }
        ensures sources { result.sources.items ≡ sources.items }
        ensures read { result.read ≡ 0 }
        ensures worked { result.worked ≡ Some worked }
        ensures staged { result.staged ≡ None }
    {
        Outcome {
            worked: Some(worked),
            ..Outcome::whole(sources)
        }
    }

    /// The end once workers have finished all messages of these sources.
    pub(crate) fn finished(sources: Vec<S>, staged: Staged) -> Outcome<S>
        ensures status { result.status ≡ 0 }
        ensures fault { result.fault ≡ None }
        ensures cause { result.cause ≡ None }
        ensures sources { result.sources.items ≡ sources.items }
        ensures read { result.read ≡ 0 }
        ensures worked { result.worked ≡ None }
        ensures staged { result.staged ≡ Some staged }
    {
        Outcome {
            staged: Some(staged),
            ..Outcome::whole(sources)
        }
    }

    /// The same end, but that a write failed, of which the sink says this.
    pub(crate) fn unwritten(self, cause: Option<Cause>) -> Outcome<S>
        ensures status { result.status ≡ 4 }
        ensures fault { result.fault ≡ Some Fault.WriteFault }
        ensures cause { result.cause ≡ cause }
        ensures sources { result.sources ≡ self.sources }
        ensures read { result.read ≡ self.read }
        ensures worked { result.worked ≡ self.worked }
        ensures staged { result.staged ≡ self.staged }
        ensures left { (result.left ≡ self.left) × (result.passes ≡ self.passes)
            × (result.frames ≡ self.frames) }
        ensures waited { result.waited ≡ self.waited }
        ensures got { result.got ≡ self.got }
    {
        Outcome {
            status: 4,
            fault: Some(Fault::WriteFault),
            cause,
            ..self
        }
    }

    /// The same end, but that memory was wanting once the messages were answered.
    pub(crate) fn starved(self) -> Outcome<S>
        ensures status { result.status ≡ 5 }
        ensures fault { result.fault ≡ Some Fault.NoMemory }
        ensures cause { result.cause ≡ None }
        ensures sources { result.sources ≡ self.sources }
        ensures read { result.read ≡ 0 }
        ensures worked { result.worked ≡ None }
        ensures staged { result.staged ≡ None }
        ensures left { (result.left ≡ self.left) × (result.passes ≡ self.passes)
            × (result.frames ≡ self.frames) }
        ensures waited { result.waited ≡ self.waited }
        ensures got { result.got ≡ self.got }
    {
        Outcome {
            status: 5,
            fault: Some(Fault::NoMemory),
            cause: None,
            read: 0,
            worked: None,
            staged: None,
            ..self
        }
    }

    /// The same end, with the sources as they were when they were got, and with what is seen of the
    /// workers' queue and of how they waited.
    pub(crate) fn behind(
        self,
        got: Snapshot<Vec<S>>,
        left: Option<Vec<u64>>,
        passes: Option<Snapshot<Vec<Pass<Frame>>>>,
        frames: Option<Snapshot<Vec<Frame>>>,
        waited: Option<Waited>,
    ) -> Outcome<S>
        ensures status { result.status ≡ self.status }
        ensures fault { result.fault ≡ self.fault }
        ensures cause { result.cause ≡ self.cause }
        ensures sources { result.sources ≡ self.sources }
        ensures read { result.read ≡ self.read }
        ensures worked { result.worked ≡ self.worked }
        ensures staged { result.staged ≡ self.staged }
        ensures left { (result.left ≡ left) × (result.passes ≡ passes) × (result.frames ≡ frames) }
        ensures waited { result.waited ≡ waited }
        ensures got { result.got.items ≡ got.value.items }
    {
        Outcome {
            left,
            passes,
            frames,
            waited,
            got: Sources::these(got),
            ..self
        }
    }

    /// The same end of a run over these sources, which were these when they were got, and with this
    /// cause.
    pub(crate) fn over(self, got: Sources<S>, sources: LetGo<S>, cause: Option<Cause>) -> Outcome<S>
        ensures status { result.status ≡ self.status }
        ensures fault { result.fault ≡ self.fault }
        ensures cause { result.cause ≡ cause }
        ensures sources { result.sources ≡ sources }
        ensures read { result.read ≡ self.read }
        ensures worked { result.worked ≡ self.worked }
        ensures staged { result.staged ≡ self.staged }
        ensures left { result.left ≡ self.left }
        ensures waited { result.waited ≡ self.waited }
        ensures got { result.got ≡ got }
    {
        Outcome {
            cause,
            sources,
            got,
            ..self
        }
    }

    /// The end at a fault that is of no object, or of the source whose read failed.
    pub(crate) fn at(sources: Vec<S>, fault: Fault) -> Outcome<S>
        ensures status { result.status ≡ status_of_fault fault }
        ensures fault { result.fault ≡ Some fault }
        ensures cause { result.cause
            ≡ cause_told S.cause sources.items None None (Some fault) }
        ensures sources { result.sources.items ≡ sources.items }
        ensures read { result.read ≡ 0 }
        ensures worked { result.worked ≡ None }
        ensures staged { result.staged ≡ None }
        ensures left { (result.left ≡ None) × (result.passes ≡ None) × (result.frames ≡ None) }
        ensures waited { result.waited ≡ None }
        ensures got { result.got.items ≡ sources.items }
    {
        let cause = read_cause(&sources, &fault);
        Outcome {
            status: fault.status(),
            fault: Some(fault),
            cause,
            ..Outcome::whole(sources)
        }
    }

    /// The end at a file that wasn't got, of which the files say this.
    pub(crate) fn unopened(sources: Vec<S>, file: u32, cause: Option<Cause>) -> Outcome<S>
        ensures status { result.status ≡ status_of_fault (Fault.OpenFault file) }
        ensures fault { result.fault ≡ Some (Fault.OpenFault file) }
        ensures cause { result.cause ≡ cause }
        ensures sources { result.sources.items ≡ sources.items }
        ensures read { result.read ≡ 0 }
        ensures worked { result.worked ≡ None }
        ensures staged { result.staged ≡ None }
        ensures left { (result.left ≡ None) × (result.passes ≡ None) × (result.frames ≡ None) }
        ensures waited { result.waited ≡ None }
        ensures got { result.got.items ≡ sources.items }
    {
        Outcome {
            cause,
            ..Outcome::at(sources, Fault::OpenFault { file })
        }
    }

    /// The end at a fault of the workers, where a payload may have `size` bytes.
    pub(crate) fn of_work(sources: Vec<S>, size: u32, fault: EndFault) -> Outcome<S>
        ensures status { result.status ≡ status_of_fault (fault_of_work size fault) }
        ensures fault { result.fault ≡ Some (fault_of_work size fault) }
        ensures cause { (files sink : Option TheCause) → result.cause
            ≡ cause_told S.cause sources.items files sink (Some (fault_of_work size fault)) }
        ensures sources { result.sources.items ≡ sources.items }
        ensures read { result.read ≡ bytes_of_large fault }
        ensures worked { IsThereAt result.fault result.worked }
        ensures none { result.worked ≡ None }
        ensures staged { IsThereAt result.fault result.staged }
        ensures unstaged { result.staged ≡ None }
    {
        match fault {
            EndFault::Read { file } => Outcome::at(sources, Fault::ReadFault { file }),
            EndFault::TooLong { file, line, len } => {
                let limit = size;
                Outcome::at(
                    sources,
                    Fault::TooLong {
                        file,
                        line,
                        len,
                        limit,
                    },
                )
            }
            EndFault::TooLarge { file, bytes } => Outcome {
                read: bytes,
                ..Outcome::at(
                    sources,
                    Fault::TooLarge {
                        file,
                        limit: MOST_BYTES,
                    },
                )
            },
            EndFault::NoMemory => Outcome::at(sources, Fault::NoMemory),
        }
    }

    /// The end at a fault of the one whole file.
    pub(crate) fn of_text(sources: Vec<S>, fault: ReadAllFault) -> Outcome<S>
        ensures status { result.status ≡ status_of_fault (fault_of_text fault) }
        ensures fault { result.fault ≡ Some (fault_of_text fault) }
        ensures cause { (files sink : Option TheCause) → result.cause
            ≡ cause_told S.cause sources.items files sink (Some (fault_of_text fault)) }
        ensures sources { result.sources.items ≡ sources.items }
        ensures read { result.read ≡ bytes_of_large_text fault }
        ensures worked { result.worked ≡ None }
        ensures staged { result.staged ≡ None }
        ensures left { result.left ≡ None }
        ensures waited { result.waited ≡ None }
    {
        match fault {
            ReadAllFault::ReadFault => Outcome::at(sources, Fault::ReadFault { file: 1 }),
            ReadAllFault::TooLarge { bytes } => Outcome {
                read: bytes,
                ..Outcome::at(
                    sources,
                    Fault::TooLarge {
                        file: 1,
                        limit: MOST_TEXT,
                    },
                )
            },
            ReadAllFault::NoMemory => Outcome::at(sources, Fault::NoMemory),
        }
    }
}

/// What the source of the file whose read failed says of it, where a fault is one.
fn read_cause<S: Source>(sources: &[S], fault: &Fault) -> Option<Cause>
    ensures { result ≡ cause_told S.cause sources.now None None (Some fault.now) }
{
    match fault {
        Fault::ReadFault { file } => source_cause(sources, *file),
        _ => None,
    }
}

/// What the source of this file says that its last read failed by.
pub(crate) fn source_cause<S: Source>(sources: &[S], file: u32) -> Option<Cause>
    ensures { result ≡ source_cause S.cause sources.now file }
{
    match sources.get((file as usize).saturating_sub(1)) {
        Some(source) => source.cause(),
        None => None,
    }
}
