ghost use Rattle.std.specs.Prelude.{◌≡◌, ◌⊎◌, ◌+◌, ◌<◌, ◌≤◌, ◌++◌, [], Some, IsTrue, false, length};
ghost use Rattle.std.specs.Prelude.{None, take, min, vec_capacity, IfOk, OnErr, IsErr, ◌↔◌};
ghost use Rattle.scq_outside.specs.Calls.{are_pieces, first_call, next_call, fails_next, granted};
ghost use Rattle.scq_outside.specs.Counts.{RoseWhere};
ghost use Rattle.scq_outside.specs.Written.{Written};

use crate::script::Script;
use crate::{Cause, Failed, Sink};
use scq_word::NoMemory;
use std::alloc::Global;
use std::marker::Model;

/// A sink in memory, with room for so many bytes, whose writes go as the caller says: write number
/// k, from 1, fails where k is in `fails`, and else takes at most `pieces[k - 1]` bytes of its
/// piece, or all where that is missing, as far as there is room. Where there is none, it fails.
#[derive(Drop)]
pub struct MemSink {
    bytes: Vec<u8>,
    room: usize,
    writes: Script,
    faults: u64,
}

impl Model for MemSink {
    ghost Value = { Written };

    ghost view = { λ s.
        record { bytes = s.bytes.items; room = s.room; writes = s.writes; faults = s.faults } };

    ghost invariant = { λ s. length s.bytes.items + s.room ≤ vec_capacity s.bytes };
}

impl MemSink {
    /// Its room is taken here, so that no write needs memory.
    pub fn new(
        alloc: Global,
        room: u64,
        pieces: Vec<u32>,
        fails: Vec<u32>,
    ) -> Result<MemSink, NoMemory>
        requires { IsTrue (are_pieces pieces.items) }
        ensures { IfOk result (λ sink.
            sink ≡ record {
              bytes = [];
              room = room;
              writes =
                  first_call pieces.items fails.items;
              faults = 0;
            }) }
    {
        let room = room as usize;
        Ok(MemSink {
            bytes: Vec::with_capacity(alloc, room)?,
            room,
            writes: Script::new(pieces, fails),
            faults: 0,
        })
    }

    pub fn bytes(&self) -> &[u8]
        ensures { result.now ≡ self.now.bytes }
    {
        self.bytes.as_slice()
    }
}

impl Sink for MemSink {
    ghost faults = { λ s. s.faults };

    ghost written = { λ s. Some s.bytes };

    ghost cause = { λ _. None };

    fn cause(&self) -> Option<Cause> {
        None
    }

    fn write(&mut self, piece: &[u8]) -> Result<usize, Failed>
        requires { 0 < length piece.now }
        ensures fails { IsErr result ↔ (IsTrue (fails_next self.old.writes) ⊎ (self.old.room ≡ 0)) }
        ensures takes { fails_next self.old.writes ≡ false → 0 < self.old.room
            → result ≡ Ok (min (granted self.old.writes (length piece.now)) self.old.room) }
        ensures some { IfOk result (λ k. 0 < k) }
        ensures within { IfOk result (λ k. k ≤ length piece.now) }
        ensures appended { IfOk result (λ k. self.new.bytes ≡ self.old.bytes ++ take k piece.now) }
        ensures room { IfOk result (λ k. self.old.room ≡ self.new.room + k) }
        ensures next { self.new.writes ≡ next_call self.old.writes }

        // A write that fails takes nothing, and counts once.
        ensures unwritten { OnErr result (self.new.bytes ≡ self.old.bytes) }
        ensures same_room { OnErr result (self.new.room ≡ self.old.room) }
        ensures counted { RoseWhere (IsErr result) self.old.faults self.new.faults
            × (self.old.faults ≤ self.new.faults) }
    {
        let count = match self.writes.next(piece.len()) {
            Some(most) => most.min(self.room),
            None => 0,
        };
        if count == 0 {
            self.faults = self.faults.saturating_add(1);
            return Err(Failed);
        }
        self.bytes.extend_from_slice(&piece[..count]).unwrap();
        self.room -= count;
        Ok(count)
    }
}
