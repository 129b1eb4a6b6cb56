//! Whom all others wait for, of the workers that one thread runs.
ghost use Rattle.std.specs.Prelude.{◌≡◌, ◌+◌, ◌^◌, ◌<◌};

use std::marker::Model;

/// How many of the workers that a thread runs have yet to read their files and retire. All others
/// wait for these, so a thread lets none of its workers rest before: it would never be woken.
#[derive(Drop)]
pub struct Awaited {
    workers: usize,
}

impl Model for Awaited {
    ghost use Rattle.std.specs.Prelude.{ℕ};

    ghost Value = { ℕ };

    ghost view = { λ a. a.workers };
}

impl Awaited {
    /// So many.
    pub fn of(workers: usize) -> Awaited
        ensures { result ≡ workers }
    {
        Awaited { workers }
    }

    /// One of them has retired, or has a thread of its own.
    pub fn one_less(&mut self)
        requires { 0 < self.old }
        ensures { self.new + 1 ≡ self.old }
    {
        self.workers -= 1;
    }

    /// One more, whose thread did nothing.
    pub fn one_more(&mut self)
        requires { self.old < 2 ^ 32 }
        ensures { self.new ≡ self.old + 1 }
    {
        self.workers += 1;
    }
}
