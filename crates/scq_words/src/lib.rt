//! The words of a command line: what they ask for, or the first test that refuses them. It stands
//! on `clap` for how words make arguments, on `scq_topics` for declared topics, and on `scq_word`.
//! The layer above uses the contract of `read_words`: it answers exactly what `asked` says of the
//! words, or want of memory.
#![tactic(auto)]

mod fault;
mod files;
mod judge_words;
mod number;
mod parsing;
mod reading;
mod request;
mod run;
mod run_numbers;
mod self_words;
mod stages_words;
mod text_request;
mod texts;
mod workers;

pub use fault::{WordsError, WordsFault};
pub use reading::{read_run_words, read_words};
pub use request::{JudgeRequest, Request, RunRequest, SelfRequest, StagesRequest};
pub use text_request::{TextCommand, TextRequest};
pub use texts::{is_command, option_text};
