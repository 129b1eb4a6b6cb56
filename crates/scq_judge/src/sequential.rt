//! A sequential queue.

ghost use Rattle.std.specs.Prelude.{◌≡◌, ◌++◌, [], ◌∷◌, IsTrue, IfOk, OnOk};
ghost use Rattle.scq_judge.specs.Sequential.{held_by, IsPlain};

use crate::own_calls::EndedCall;
use scq_hist::{Call, PutName, Reply};
use scq_word::{Bytes, NoMemory};
use std::alloc::Global;
use std::collections::VecDeque;

/// A put that a queue holds.
#[derive(Clone, Copy)]
pub(crate) struct Held<'a> {
    pub name: PutName,
    pub content: &'a Bytes,
}

/// The puts that a sequential queue holds.
#[derive(Drop)]
pub(crate) struct Sequential<'a> {
    held: VecDeque<Held<'a>>,
}

impl<'a> Sequential<'a> {
    pub(crate) fn empty(alloc: Global) -> Sequential<'a>
        ensures { held_by result ≡ [] }
    {
        Sequential {
            held: VecDeque::new(alloc),
        }
    }

    /// Puts a value behind what the queue holds.
    pub(crate) fn put(&mut self, name: PutName, content: &'a Bytes) -> Result<(), NoMemory>
        ensures { OnOk result (held_by self.new
            ≡ held_by self.old ++ (name, content.entry.now) ∷ []) }
    {
        self.held.push_back(Held { name, content })?;
        Ok(())
    }

    /// Takes the call, and says whether its reply is the queue's.
    pub(crate) fn take(&mut self, ended: EndedCall<'a>) -> Result<bool, NoMemory>
        ensures { IfOk result (λ plain. IsTrue plain
            → IsPlain (held_by self.old) ended.entry (held_by self.new)) }
    {
        match (ended.call, ended.reply) {
            (Call::Put { content, .. }, Reply::Done) => {
                let name = PutName::Of {
                    seat: ended.seat,
                    number: ended.own.put,
                };
                self.put(name, content)?;
                Ok(true)
            }
            (Call::Get { .. }, Reply::Got { name, content }) => Ok(self.get(*name, content)),
            (Call::Get { .. }, Reply::Nothing) => Ok(self.is_empty()),
            _ => Ok(false),
        }
    }

    // Takes the put in front, and says whether it is this one.
    fn get(&mut self, name: PutName, content: &Bytes) -> bool
        ensures { IsTrue result
            → held_by self.old ≡ (name, content.now) ∷ held_by self.new }
    {
        match self.held.pop_front() {
            None => false,
            Some(front) => is_same(front, name, content),
        }
    }

    fn is_empty(&self) -> bool
        ensures { IsTrue result → held_by self.now ≡ [] }
    {
        self.held.is_empty()
    }
}

// Whether it is the put of this name and content.
fn is_same(held: Held<'_>, name: PutName, content: &Bytes) -> bool
    ensures { IsTrue result → (held.entry.name ≡ name) × (held.entry.content.now ≡ content.now) }
{
    held.name == name && held.content.bytes() == content.bytes()
}
