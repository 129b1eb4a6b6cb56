//! A worker's seat.
ghost use Rattle.std.specs.Prelude.{◌≡◌, Bool, None};

use scq_passes::AtLimit;
use scq_queue::Held;
use scq_word::{Buffer, BufferMut};
use std::alloc::Global;
use std::mem;

/// What is known of a worker that sits at a desk: the pass by which it makes its calls (of the type
/// `P`), its list (of the type `L`), whether that is empty, and whether it wanted memory.
pub trait Sits<P, L> {
    ghost use Rattle.std.specs.Prelude.{◌≡◌};

    ghost pass_of: { Self → P };

    ghost list_of: { Self → L };

    ghost has_none: { Self → Type 0 };

    ghost starved_of: { Self → Bool };

    /// The worker of this number, which is to begin.
    fn begin(alloc: Global, number: u32, pass: P) -> Self
        ensures pass { pass_of result ≡ pass }
        ensures list { has_none result };

    /// Its pass, its list, and whether it wanted memory.
    fn come_apart(self) -> (P, L, bool)
        ensures pass { result.0 ≡ pass_of self }
        ensures list { result.1 ≡ list_of self }
        ensures starved { result.2 ≡ starved_of self };
}

/// A worker, and the value that it keeps where it met a ticket past the limit.
pub struct Seat<W, B: Buffer> {
    pub worker: W,
    pub kept: Option<Held<B>>,
}

impl<W, B: BufferMut> Seat<W, B> {
    ghost use Rattle.std.specs.Prelude.{◌≡◌, None};

    /// Keeps the value that came back, where there is one.
    pub fn keep(&mut self, at_limit: AtLimit<B>)
        requires { self.old.kept ≡ None }
        ensures kept { self.new.kept ≡ at_limit.held }
        ensures same { self.new.worker ≡ self.old.worker }
    {
        let AtLimit { held } = at_limit;
        match mem::replace(&mut self.kept, held) {
            None => {}
            Some(_) => unreachable!(),
        }
    }
}
