//! Copies of lists.

ghost use Rattle.std.specs.Prelude.{◌≡◌, IfOk};

use scq_word::{Bytes, NoMemory};
use std::alloc::Global;

/// What lists that are copied have.
pub trait Copies {
    /// An equal value.
    fn copied(&self, alloc: Global) -> Result<Self, NoMemory>
        ensures { IfOk result (λ copy. copy ≡ self.now) };
}

impl Copies for Bytes {
    fn copied(&self, alloc: Global) -> Result<Bytes, NoMemory> {
        Bytes::copy_of(alloc, self.bytes())
    }
}

/// An equal list.
pub fn copied_list<T: Copies + Drop>(alloc: Global, items: &Vec<T>) -> Result<Vec<T>, NoMemory>
    ensures { IfOk result (λ copy. copy.items ≡ items.now.items) }
{
    let mut copy = Vec::new(alloc);
    copy.reserve_exact(items.len())?;
    for item in items {
        copy.push(item.copied(alloc)?)?;
    }
    Ok(copy)
}
