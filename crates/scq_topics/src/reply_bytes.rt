ghost use Rattle.std.specs.Prelude.{◌≡◌, ◌≤◌, ℕ, List, length, IsOk, IfOk};

use scq_word::NoMemory;
use smallvec::SmallVec;
use std::alloc::Global;
use std::marker::Model;

/// The most bytes of a short reply.
const SHORT: usize = 16;

/// The bytes of a reply, which contracts see as a list. Those of a short reply, as most numbers
/// are, take no memory beside the value.
#[derive(Drop)]
pub struct ReplyBytes {
    bytes: SmallVec<u8, SHORT>,
}

impl Model for ReplyBytes {
    ghost Value = { List ℕ };

    ghost view = { λ r. r.bytes.items };
}

impl ReplyBytes {
    /// A copy, in one allocation of just this length where it has more than 16 bytes.
    pub fn copy_of(alloc: Global, from: &[u8]) -> Result<ReplyBytes, NoMemory>
        ensures copied { IfOk result (λ copy. copy ≡ from.now) }
        ensures short { length from.now ≤ 16 → IsOk result }
    {
        Ok(ReplyBytes {
            bytes: SmallVec::from_slice(alloc, from)?,
        })
    }

    /// The bytes themselves.
    pub fn bytes(&self) -> &[u8]
        ensures { result.now ≡ self.now }
    {
        self.bytes.as_slice()
    }
}

/// The vector's own bytes, in no new memory.
impl From<Vec<u8>> for ReplyBytes {
    ghost from_gives = { λ v b. b ≡ v.items };

    fn from(bytes: Vec<u8>) -> ReplyBytes {
        ReplyBytes {
            bytes: SmallVec::from_vec(bytes),
        }
    }
}
