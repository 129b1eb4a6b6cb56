//! The commands: each gets its files, does its work, writes what comes of it, and says how that
//! ended.

mod judge;
mod run;
mod self_run;
mod stages;
mod text;

pub(crate) use judge::run_judge;
pub(crate) use run::{run_files, run_files_waiting};
pub(crate) use self_run::run_self;
pub(crate) use stages::run_stages;
pub(crate) use text::{MOST_TEXT, run_text};
