//! Parts that are to go in one value.
ghost use Rattle.std.specs.Prelude.{◌≡◌, ◌↔◌, ◌+◌, ◌^◌, ◌<◌, ◌≤◌, ◌++◌, [], ◌∷◌, length, All};
ghost use Rattle.std.specs.Prelude.{IsTrue, OnOk, OnErr, List, ℕ, vec_capacity};
ghost use Rattle.scq_frames.specs.Parts.{IsNumbered, parts_of as the_parts_of, part_of};
ghost use Rattle.scq_frames.specs.Encoded.{message_bytes};
ghost use Rattle.scq_frames.specs.Batches.{batch_bytes, parts_at};
ghost use Rattle.scq_frames.specs.Views.{part_of_view};

use crate::Message;
use crate::encoded::{HEAD, View, mark_end, view_of, write_bytes, write_head};
use scq_word::NoMemory;
use std::alloc::Global;
use std::marker::Model;

/// Parts of one file that are to go in one value, in the order in which they were added. Contracts
/// see them as a list. They are kept as the value's bytes.
#[derive(Drop)]
pub struct Batch {
    file: u32,
    bytes: Vec<u8>,
}

impl Model for Batch {
    ghost use Rattle.std.specs.Prelude.{List};
    ghost use Rattle.scq_frames.specs.Parts.{Part};
    ghost use Rattle.scq_frames.specs.Batches.{AreParts, parts_at};

    ghost Value = { List Part };

    ghost view = { λ b. parts_at b.bytes.items };

    ghost invariant = { λ b. AreParts b.file b.bytes.items };
}

impl Batch {
    /// No parts yet. It takes no memory.
    pub fn new(alloc: Global) -> Batch
        ensures { result ≡ [] }
    {
        Batch {
            file: 0,
            bytes: Vec::new(alloc),
        }
    }

    pub fn is_empty(&self) -> bool
        ensures { IsTrue result ↔ (self.now ≡ []) }
    {
        self.bytes.is_empty()
    }

    /// How many bytes the parts have together, each with 24 for its numbers.
    pub fn len(&self) -> usize
        ensures { result ≡ length (batch_bytes self.now) }
    {
        self.bytes.len()
    }

    /// Whether a part of this file with a payload of `len` bytes may be added, where all parts are
    /// to have at most `most` bytes together.
    pub fn has_room(&self, file: u32, len: usize, most: usize) -> bool
        ensures { IsTrue result ↔ (All (λ p. p.file ≡ file) self.now
            × (length (batch_bytes self.now) + 24 + len ≤ most)) }
    {
        self.is_of(file) && self.fits(len, most)
    }

    /// Whether all parts are of this file.
    fn is_of(&self, file: u32) -> bool
        ensures { IsTrue result ↔ All (λ p. p.file ≡ file) self.now }
    {
        self.bytes.is_empty() || self.file == file
    }

    /// Whether a payload of so many bytes fits behind the parts, where they are to have at most
    /// `most` bytes together.
    fn fits(&self, len: usize, most: usize) -> bool
        ensures { IsTrue result ↔ (length (batch_bytes self.now) + 24 + len ≤ most) }
    {
        let used = self.bytes.len();
        used <= most && HEAD <= most - used && len <= most - used - HEAD
    }

    /// Adds the message's part with this number behind the others, which are all of its file. Where
    /// memory is wanted they stay as they were.
    pub fn push(&mut self, message: &Message, size: u32, part: u32) -> Result<(), NoMemory>
        requires size { 0 < size }
        requires short { length message.now.payload < 2 ^ 32 }
        requires numbered { IsNumbered part (the_parts_of size message.now.payload) }
        requires file { All (λ p. p.file ≡ message.now.file) self.old }
        ensures pushed { OnOk result (self.new ≡ self.old ++ part_of size message.now part ∷ []) }
        ensures kept { OnErr result (self.new ≡ self.old) }
    {
        let view = view_of(message, size, part);
        push_part(&mut self.bytes, view)?;
        self.file = view.file;
        Ok(())
    }

    /// Writes the parts' bytes to the front, and the end mark behind them.
    pub fn write(&self, into: &mut [u8])
        requires room { length (batch_bytes self.now) ≤ length into.old }
        ensures begins { (rest : List ℕ) × (into.new ≡ batch_bytes self.now ++ rest) }
        ensures parts { parts_at into.new ≡ self.now }
        ensures len { length into.new ≡ length into.old }
    {
        write_bytes(into, 0, self.bytes.as_slice());
        mark_end(into, self.bytes.len());
    }

    /// The parts' bytes, with nothing behind them.
    pub fn bytes(&self) -> &[u8]
        ensures bytes { result.now ≡ batch_bytes self.now }
        ensures parts { parts_at result.now ≡ self.now }
    {
        self.bytes.as_slice()
    }

    /// Takes all parts out. It keeps their memory.
    pub fn clear(&mut self)
        ensures { self.new ≡ [] }
    {
        self.bytes.clear();
    }
}

/// Adds the bytes of a part behind others.
fn push_part(bytes: &mut Vec<u8>, view: View<'_>) -> Result<(), NoMemory>
    requires short { length view.payload.now < 2 ^ 32 }
    ensures pushed { OnOk result (bytes.new.items
        ≡ bytes.old.items ++ message_bytes (part_of_view view.entry)) }
    ensures kept { OnErr result (bytes.new.items ≡ bytes.old.items) }
{
    bytes.reserve(HEAD + view.payload.len())?;
    let mut head = [0; HEAD];
    write_head(view, &mut head);
    push_bytes(bytes, &head);
    push_bytes(bytes, view.payload);
    Ok(())
}

/// Adds bytes, for which there is room.
fn push_bytes(to: &mut Vec<u8>, bytes: &[u8])
    requires room { length to.old.items + length bytes.now ≤ vec_capacity to.old }
    ensures pushed { to.new.items ≡ to.old.items ++ bytes.now }
    ensures capacity { vec_capacity to.old ≤ vec_capacity to.new }
{
    to.extend_from_slice(bytes).unwrap();
}
