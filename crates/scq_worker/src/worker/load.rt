use scq_frames::{Batch, Message};

/// What is to go in one value: a part of a message alone, or parts that were gathered.
#[derive(Clone, Copy)]
pub(crate) enum Load<'a> {
    Alone { message: &'a Message, part: u32 },
    Together(&'a Batch),
}
