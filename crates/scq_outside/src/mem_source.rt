ghost use Rattle.std.specs.Prelude.{◌≡◌, ℕ, ◌<◌, ◌≤◌, ◌++◌, List, [], Some, Ok, IsTrue, false};
ghost use Rattle.std.specs.Prelude.{None, length, take, drop, min, IfOk, OnErr, IsErr, ◌↔◌};
ghost use Rattle.scq_outside.specs.Calls.{are_pieces, first_call, next_call, fails_next, granted};
ghost use Rattle.scq_outside.specs.Counts.{RoseWhere};
ghost use Rattle.scq_outside.specs.Readable.{Readable};

use crate::script::Script;
use crate::{Cause, Failed, PlainSource, Source};
use std::marker::Model;

/// A source in memory whose reads go as the caller says: read number k, from 1, fails where k is
/// in `fails`, and else gives at most `pieces[k - 1]` bytes, or as many as it is asked for where
/// that is missing.
#[derive(Drop)]
pub struct MemSource {
    rest: PlainSource,
    reads: Script,
    faults: u64,
}

impl Model for MemSource {
    ghost Value = { Readable };

    ghost view = { λ s.
        record { left = s.rest.left; reads = s.reads; faults = s.faults; ends = s.rest.ends } };
}

impl MemSource {
    /// The vector's own bytes, in no new memory.
    pub fn new(bytes: Vec<u8>, pieces: Vec<u32>, fails: Vec<u32>) -> MemSource
        requires { IsTrue (are_pieces pieces.items) }
        ensures { result ≡ record {
          left = bytes.items;
          reads =
              first_call pieces.items fails.items;
          faults = 0;
          ends = 0;
        } }
    {
        MemSource {
            rest: PlainSource::new(bytes),
            reads: Script::new(pieces, fails),
            faults: 0,
        }
    }
}

impl Source for MemSource {
    ghost faults = { λ s. s.faults };

    ghost ends = { λ s. s.ends };

    ghost left = { λ s. Some s.left };

    ghost cause = { λ _. None };

    fn cause(&self) -> Option<Cause> {
        None
    }

    fn read(&mut self, into: &mut [u8]) -> Result<usize, Failed>
        requires { 0 < length into.old }
        ensures fails { IsErr result ↔ IsTrue (fails_next self.old.reads) }
        ensures takes { fails_next self.old.reads ≡ false
            → result ≡ Ok (min (granted self.old.reads (length into.old)) (length self.old.left)) }
        ensures moved { IfOk result (λ k. self.old.left ≡ take k into.new ++ self.new.left) }
        ensures within { IfOk result (λ k. k ≤ length into.new) }
        ensures end { IfOk result (λ k. k ≡ 0 → self.old.left ≡ []) }
        ensures behind { IfOk result (λ k. drop k into.new ≡ drop k into.old) }
        ensures next { self.new.reads ≡ next_call self.old.reads }
        ensures ended { RoseWhere (result ≡ Ok 0) self.old.ends self.new.ends }

        // A read that fails moves nothing, and counts once.
        ensures unmoved { OnErr result (self.new.left ≡ self.old.left) }
        ensures untouched { OnErr result (into.new ≡ into.old) }
        ensures counted { RoseWhere (IsErr result) self.old.faults self.new.faults
            × (self.old.faults ≤ self.new.faults) }
    {
        let Some(most) = self.reads.next(into.len()) else {
            self.faults = self.faults.saturating_add(1);
            return Err(Failed);
        };
        self.rest.read(&mut into[..most])
    }
}
