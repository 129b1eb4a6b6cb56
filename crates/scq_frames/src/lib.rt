//! Frames: a source's bytes cut into messages, line by line, and a part of a message as the bytes
//! of a buffer. It stands on `scq_outside` for sources, on `scq_topics` for the numbers of topics,
//! on `scq_word` for bytes, and on `memchr` and `byteorder`. The layer above uses the contract of
//! `Framer::next`: it gives, one by one and with nothing between, the messages of what its source
//! gave, for every cutting of reads, and each fault is the first trouble of what the source gave,
//! behind the messages in front of it and whatever follows; those of `parts_of`, `encode` and
//! `decode`: the parts of a message, the bytes of one, and the part that bytes begin with; and
//! those of `Batch` and `next_part`: the parts that stand one behind the other in a buffer are
//! those that were put there, in their order.
#![tactic(auto)]

mod batch;
mod cut;
mod encoded;
mod fault;
mod framer;
mod message;
mod room;
mod window;

pub use batch::Batch;
pub use encoded::{
    View, decode, encode, encode_alone, next_part, parts_of, payload_len, payload_mut, view_of,
};
pub use fault::FrameFault;
pub use framer::Framer;
pub use message::Message;
