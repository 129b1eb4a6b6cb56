ghost use Rattle.std.specs.Prelude.{◌≡◌, ◌⊎◌, ◌<◌, ◌≤◌, None, Ok, length, IfOk, OnOk, IsErr};
ghost use Rattle.std.specs.IoError.{error_kind};
ghost use Rattle.scq_outside.specs.Causes.{cause_of};
ghost use Rattle.scq_outside.specs.Counts.{Rose, RoseWhere, last_count};

use crate::tried::Tried;
use crate::uninterrupted::read_uninterrupted;
use crate::{Cause, Failed, Files, Source};
use std::fs::File;
use std::io::{self, Read};
use std::os::fd::AsFd;
use std::rt::{self, Stdin};

/// Files of the system, opened to be read. What they hold isn't visible.
///
/// `/dev/stdin` and `/dev/fd/0` are opened anew as any name is. Where the system refuses that, as
/// for a socket, or for a file that only another user may open, standard input is read as it
/// stands. The kit reaches no other descriptor by its number.
#[derive(Drop)]
pub struct DiskFiles<R: rt::Files + Drop> {
    system: R,
    stdin: Stdin,
    faults: u64,
    cause: Option<Cause>,
}

impl<R: rt::Files<File = File> + Drop> DiskFiles<R> {
    pub fn new(system: R, stdin: Stdin) -> DiskFiles<R>
        ensures { ⟦<DiskFiles<R> as Files>⟧.faults result ≡ 0 }
    {
        DiskFiles {
            system,
            stdin,
            faults: 0,
            cause: None,
        }
    }

    /// Counts a file that could not be opened, and keeps what the system says of it.
    fn count(&mut self, error: &io::Error) -> Failed
        ensures counted { Rose self.old.faults self.new.faults
            × (self.old.faults ≤ self.new.faults) }
        ensures told { self.new.cause ≡ cause_of (error_kind error.now) }
    {
        self.faults = self.faults.saturating_add(1);
        self.cause = Cause::of(error.kind());
        Failed
    }

    /// The file of this name, or standard input where the name is its and can't be opened anew.
    fn open(&self, name: &str) -> io::Result<DiskFile> {
        match File::open(&self.system, name) {
            Ok(file) => Ok(DiskFile::Opened(file)),
            Err(_) if matches!(name, "/dev/stdin" | "/dev/fd/0") => {
                // Where standard input is closed there is nothing to copy.
                self.stdin.as_fd().try_clone_to_owned()?;
                Ok(DiskFile::Input(self.stdin))
            }
            Err(error) => Err(error),
        }
    }
}

impl<R: rt::Files<File = File> + Drop> Files for DiskFiles<R> {
    type Src = DiskSource<DiskFile>;

    ghost faults = { λ files. files.faults };

    ghost table = { λ _. None };

    ghost cause = { λ files. files.cause };

    fn cause(&self) -> Option<Cause> {
        self.cause
    }

    fn source(&mut self, name: &str) -> Result<DiskSource<DiskFile>, Failed> {
        match self.open(name) {
            Ok(file) => Ok(DiskSource {
                file: Tried::new(file),
                faults: 0,
                ends: 0,
            }),
            Err(error) => Err(self.count(&error)),
        }
    }
}

/// What a name's bytes are read through.
#[derive(Drop)]
pub enum DiskFile {
    /// A descriptor of its own, opened by the name.
    Opened(File),
    /// The one that the program was started with.
    Input(Stdin),
}

impl Read for DiskFile {
    fn read(&mut self, into: &mut [u8]) -> io::Result<usize> {
        match self {
            DiskFile::Opened(file) => file.read(into),
            DiskFile::Input(stdin) => stdin.read(into),
        }
    }
}

/// An open file of the system. A read that a signal interrupts is made again, and no other.
#[derive(Drop)]
pub struct DiskSource<F> {
    file: Tried<F>,
    faults: u64,
    ends: u64,
}

impl<F: Read + Send + Drop> Source for DiskSource<F> {
    ghost faults = { λ source. source.faults };

    ghost ends = { λ source. source.ends };

    ghost left = { λ _. None };

    ghost cause = { λ source. source.file.cause };

    fn cause(&self) -> Option<Cause> {
        self.file.cause()
    }

    /// Of the tries that a call makes one was not interrupted: its answer is the call's.
    fn read(&mut self, into: &mut [u8]) -> Result<usize, Failed>
        requires { 0 < length into.old }
        ensures within { IfOk result (λ k. k ≤ length into.new) }
        ensures ended { RoseWhere (result ≡ Ok 0) self.old.ends self.new.ends }
        ensures counted { RoseWhere (IsErr result) self.old.faults self.new.faults
            × (self.old.faults ≤ self.new.faults) }
        ensures told { OnOk result (self.new.file.cause ≡ self.old.file.cause) }
        ensures once { Rose self.old.file.settled self.new.file.settled
            ⊎ (IsErr result × (self.new.file.settled ≡ self.old.file.settled)
            × (last_count ≤ self.new.file.interrupted)) }
    {
        match read_uninterrupted(&mut self.file, into) {
            Ok(count) => {
                if count == 0 {
                    self.ends = self.ends.saturating_add(1);
                }
                Ok(count)
            }
            Err(_) => {
                self.faults = self.faults.saturating_add(1);
                Err(Failed)
            }
        }
    }
}
