//! Answers of parts merged and written out: `merge` puts what several workers answered in order of
//! file and line, with the texts of a message's parts joined in order of their numbers, and
//! `output` makes the text of a list of answers, whose lines follow in the list's order and whose
//! totals go by topic. `output_in_pieces` makes the same text where the answers lie. It stands on
//! `scq_topics` for names and replies, on `scq_word` for bytes, on `itoa` for numbers, and names
//! the messages and parts of `scq_frames` in its definitions. The layer above uses: where the lists
//! have the answer to each part of each message of the files, each once and in whatever division,
//! the text of what is merged is the output of one thread.
#![tactic(auto)]

mod answered;
mod answers;
mod blocks;
mod coding;
mod division;
mod joining;
mod laid;
mod log;
mod merging;
mod messages;
mod ordering;
mod pieces;
mod spans;
mod spots;
mod stretches;
mod text;
mod totals;
mod whole;

pub use answered::{Answered, Way};
pub use answers::Answers;
pub use coding::PartView;
pub use log::Given;
pub use merging::merge;
pub use pieces::{Text, output_in_pieces};
pub use text::{output, push_totals};
pub use whole::Whole;
