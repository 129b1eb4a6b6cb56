//! What the system says of a call that failed.
ghost use Rattle.std.specs.Prelude.{◌≡◌};
ghost use Rattle.scq_outside.specs.Causes.{cause_of};

use std::io::ErrorKind;

/// Why the system opened, read or wrote nothing, as far as it says: the kinds of `std` that its
/// calls on files, pipes and sockets end with. Of the others nothing is known.
#[derive(Clone, Copy, Debug, PartialEq, Eq)]
pub enum Cause {
    NotFound,
    PermissionDenied,
    NotADirectory,
    IsADirectory,
    FilesystemLoop,
    InvalidFilename,
    InvalidInput,
    StaleNetworkFileHandle,
    WouldBlock,
    ConnectionReset,
    TimedOut,
    BrokenPipe,
    StorageFull,
    QuotaExceeded,
    FileTooLarge,
    ReadOnlyFilesystem,
    ResourceBusy,
    OutOfMemory,
}

impl Cause {
    /// The cause of this kind.
    pub fn of(kind: ErrorKind) -> Option<Cause>
        ensures { result ≡ cause_of kind }
    {
        match kind {
            ErrorKind::NotFound => Some(Cause::NotFound),
            ErrorKind::PermissionDenied => Some(Cause::PermissionDenied),
            ErrorKind::NotADirectory => Some(Cause::NotADirectory),
            ErrorKind::IsADirectory => Some(Cause::IsADirectory),
            ErrorKind::FilesystemLoop => Some(Cause::FilesystemLoop),
            ErrorKind::InvalidFilename => Some(Cause::InvalidFilename),
            ErrorKind::InvalidInput => Some(Cause::InvalidInput),
            ErrorKind::StaleNetworkFileHandle => Some(Cause::StaleNetworkFileHandle),
            ErrorKind::WouldBlock => Some(Cause::WouldBlock),
            ErrorKind::ConnectionReset => Some(Cause::ConnectionReset),
            ErrorKind::TimedOut => Some(Cause::TimedOut),
            ErrorKind::BrokenPipe => Some(Cause::BrokenPipe),
            ErrorKind::StorageFull => Some(Cause::StorageFull),
            ErrorKind::QuotaExceeded => Some(Cause::QuotaExceeded),
            ErrorKind::FileTooLarge => Some(Cause::FileTooLarge),
            ErrorKind::ReadOnlyFilesystem => Some(Cause::ReadOnlyFilesystem),
            ErrorKind::ResourceBusy => Some(Cause::ResourceBusy),
            ErrorKind::OutOfMemory => Some(Cause::OutOfMemory),
            _ => None,
        }
    }
}
