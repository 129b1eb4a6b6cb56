//! A large input from a number: `generate` makes the file, and `summary` what is written about it.
//! It stands on `scq_collect` for totals and the text, on `scq_topics` for the five topics, on
//! `scq_word`, and on `itoa`, `sha2` and `hex`. The layer above uses: the file is `generated` of
//! its seed and lines, and where the answers are those of one thread the summary is `self_summary`.
#![tactic(auto)]

mod generator;
mod summary;

pub use generator::{generate, self_topics};
pub use summary::summary_text;
