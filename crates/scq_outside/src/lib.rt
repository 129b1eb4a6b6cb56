//! The outside of the service: what bytes are read from and written to, and where files come from.
//! Each is a trait with a count of faults that contracts see, and with its bytes where they are
//! visible. It stands on `scq_word`. The layers above are generic over the traits, and use their
//! clauses: a fault only where the count rose, visible bytes moved exactly, the bounds on each
//! piece. The forms in memory make all of it visible; those over std nothing, and are the edge that
//! is trusted.
#![tactic(auto)]

mod cause;
mod disk;
mod files;
mod mem_files;
mod mem_sink;
mod mem_source;
mod plain_source;
mod read_all_fault;
mod script;
mod sink;
mod source;
mod std_sink;
mod tried;
mod uninterrupted;
mod whole;

pub use cause::Cause;
pub use disk::{DiskFile, DiskFiles, DiskSource};
pub use files::Files;
pub use mem_files::MemFiles;
pub use mem_sink::MemSink;
pub use mem_source::MemSource;
pub use plain_source::PlainSource;
pub use read_all_fault::ReadAllFault;
pub use sink::Sink;
pub use source::{Failed, Source};
pub use std_sink::{StdSink, StdStream};
pub use whole::read_all;
