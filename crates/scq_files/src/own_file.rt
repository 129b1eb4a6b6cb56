//! A file of a worker.
ghost use Rattle.std.specs.Prelude.{◌≡◌, []};
ghost use Rattle.scq_files.specs.Given.{given_in};

use crate::given::{Given, nothing};
use scq_frames::FrameFault;
use std::snapshot::Snapshot;

/// How far a file was read.
#[derive(Clone, Copy, Debug, PartialEq, Eq)]
pub enum FileEnd {
    Unread,
    /// To its end.
    Whole,
    /// Up to this fault. Where its worker leaves a file for want of memory, or since it met a
    /// ticket past the limit, that counts as want of memory.
    Stopped(FrameFault),
}

/// A file of a worker: its number from 1, its source, and how far it was read. For contracts alone
/// it has what the source was before it was read, and the messages that it gave.
#[derive(Drop)]
pub struct OwnFile<S> {
    pub number: u32,
    pub source: S,
    pub was: Snapshot<S>,
    pub given: Snapshot<Given>,
    pub end: FileEnd,
}

impl<S> OwnFile<S> {
    ghost use Rattle.std.specs.Prelude.{◌≡◌, []};

    /// A file that isn't read yet.
    pub fn new(number: u32, source: S) -> OwnFile<S>
        ensures number { result.number ≡ number }
        ensures source { result.source ≡ source }
        ensures was { result.was.value ≡ source }
        ensures given { given_in result.given.value ≡ [] }
        ensures end { result.end ≡ FileEnd.Unread }
    {
        let was = Snapshot::of(&source);
        OwnFile {
            number,
            source,
            was,
            given: nothing(),
            end: FileEnd::Unread,
        }
    }
}
