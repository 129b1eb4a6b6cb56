ghost use Rattle.std.specs.Prelude.{◌≡◌, ℕ, ◌<◌, ◌≤◌, ◌++◌, List, [], Some, Ok, length, take};
ghost use Rattle.std.specs.Prelude.{None, drop, min, IfOk};
ghost use Rattle.scq_outside.specs.Counts.{RoseWhere};
ghost use Rattle.scq_outside.specs.Readable.{Plain};

use crate::{Cause, Failed, Source};
use std::marker::Model;

/// A source in memory that gives as many bytes as it is asked for and never fails. Contracts see
/// the bytes that are left and how many reads have answered the end.
#[derive(Drop)]
pub struct PlainSource {
    bytes: Vec<u8>,
    at: usize,
    ends: u64,
}

impl Model for PlainSource {
    ghost Value = { Plain };

    ghost view = { λ s. record { left = drop s.at s.bytes.items; ends = s.ends } };

    ghost invariant = { λ s. s.at ≤ length s.bytes.items };
}

impl PlainSource {
    /// The vector's own bytes, in no new memory.
    pub fn new(bytes: Vec<u8>) -> PlainSource
        ensures { result ≡ record { left = bytes.items; ends = 0 } }
    {
        PlainSource {
            bytes,
            at: 0,
            ends: 0,
        }
    }
}

impl Source for PlainSource {
    ghost faults = { λ _. 0 };

    ghost ends = { λ s. s.ends };

    ghost left = { λ s. Some s.left };

    ghost cause = { λ _. None };

    fn cause(&self) -> Option<Cause> {
        None
    }

    fn read(&mut self, into: &mut [u8]) -> Result<usize, Failed>
        requires { 0 < length into.old }
        ensures takes { result ≡ Ok (min (length into.old) (length self.old.left)) }
        ensures within { IfOk result (λ k. k ≤ length into.new) }
        ensures moved { IfOk result (λ k. self.old.left ≡ take k into.new ++ self.new.left) }
        ensures end { IfOk result (λ k. k ≡ 0 → self.old.left ≡ []) }
        ensures behind { IfOk result (λ k. drop k into.new ≡ drop k into.old) }
        ensures ended { RoseWhere (result ≡ Ok 0) self.old.ends self.new.ends }
    {
        let rest = &self.bytes[self.at..];
        let count = into.len().min(rest.len());
        into[..count].copy_from_slice(&rest[..count]);
        self.at += count;
        if count == 0 {
            self.ends = self.ends.saturating_add(1);
        }
        Ok(count)
    }
}
