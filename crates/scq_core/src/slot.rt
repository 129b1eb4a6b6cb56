//! An entry's word with its content, and which words a ring has.

use crate::copies::Copies;
use scq_word::{Bytes, NoMemory};
use std::alloc::Global;

/// The word of an entry, and the content that its put placed with it.
#[derive(Drop)]
pub struct Slot {
    pub word: u64,
    pub content: Bytes,
}

/// One word of a ring.
#[derive(Clone, Copy, PartialEq, Eq)]
pub enum Cell {
    Tail,
    Head,
    Threshold,
    Entry { slot: u32 },
}

impl Copies for Slot {
    fn copied(&self, alloc: Global) -> Result<Slot, NoMemory> {
        Ok(Slot {
            word: self.word,
            content: self.content.copied(alloc)?,
        })
    }
}
