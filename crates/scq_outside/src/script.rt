//! How the calls of an object in memory go: which of them fail, and how many bytes the others move.
ghost use Rattle.std.specs.Prelude.{◌≡◌, ◌==◌, ◌<◌, IsTrue, IfSome, IsNone, ◌↔◌};
ghost use Rattle.std.specs.List.{list_any};
ghost use Rattle.scq_outside.specs.Calls.{Calls, are_pieces, first_call, next_call, fails_next};
ghost use Rattle.scq_outside.specs.Calls.{granted};

use std::marker::Model;

/// Call number k, from 1, fails where k is in `fails`. Else it may move at most `pieces[k - 1]`
/// bytes, or as many as it is asked for where that is missing.
#[derive(Drop)]
pub struct Script {
    pieces: Vec<u32>,
    fails: Vec<u32>,
    made: u64,
}

impl Model for Script {
    ghost Value = { Calls };

    ghost view = { λ s. record { pieces = s.pieces.items; fails = s.fails.items; made = s.made } };

    ghost invariant = { λ s. IsTrue (are_pieces s.pieces.items) };
}

impl Script {
    pub fn new(pieces: Vec<u32>, fails: Vec<u32>) -> Script
        requires { IsTrue (are_pieces pieces.items) }
        ensures { result ≡ first_call pieces.items fails.items }
    {
        Script {
            pieces,
            fails,
            made: 0,
        }
    }

    /// Makes one call: how many bytes it may move where so many are wanted, or `None` where it
    /// fails.
    pub fn next(&mut self, wanted: usize) -> Option<usize>
        ensures fails { IsNone result ↔ IsTrue (fails_next self.old) }
        ensures grants { IfSome result (λ k. k ≡ granted self.old wanted) }
        ensures some { 0 < wanted → IfSome result (λ k. 0 < k) }
        ensures next { self.new ≡ next_call self.old }
    {
        let piece = self.pieces.get(self.made as usize);
        self.made = self.made.saturating_add(1);
        if has_number(&self.fails, self.made) {
            return None;
        }
        Some(piece.map_or(wanted, |piece| wanted.min(*piece as usize)))
    }
}

fn has_number(numbers: &[u32], number: u64) -> bool
    ensures { result ≡ list_any (λ k. k == number) numbers.now }
{
    numbers.iter().any(|k| u64::from(*k) == number)
}
