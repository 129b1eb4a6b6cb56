//! The declared topics of a command line, and what a message on a topic is answered with. It stands
//! on `smallvec` for the bytes of a reply, on `arrayvec` for a table that takes no memory, on
//! `sha2` and `hex` for digests, on `itoa` for numbers, and on `scq_word` for want of memory. The
//! layers above use these contracts: a reply is `reply_of` its kind and payload; `Topics` is seen
//! as the list of the names and kinds, in the order of declaration, and `find` is the number of a
//! name in it.
#![tactic(auto)]

mod entry;
mod kind;
mod replies;
mod reply_bytes;
mod sum;
mod topics;
mod words;

pub use kind::Kind;
pub use replies::reply;
pub use reply_bytes::ReplyBytes;
pub use topics::{TopicFault, Topics};
