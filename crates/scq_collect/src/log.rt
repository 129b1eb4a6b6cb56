//! What was given, which only contracts read.
ghost use Rattle.std.specs.Prelude.{◌≡◌, List, [], ◌∷◌, ◌++◌};
ghost use Rattle.std.specs.Borrow.{ftrue};
ghost use Rattle.scq_collect.specs.declared.answered.Answered.{Answered as TheAnswered};

use crate::Way;
use crate::coding::PartView;
use std::marker::Model;

/// The answer to a part, and how a worker came to it.
#[derive(Clone, Copy)]
pub struct Given<'a> {
    pub answer: PartView<'a>,
    pub way: Way,
}

/// The answers that were given, in their order. It takes no memory, and its calls do nothing when
/// the program runs.
#[derive(Drop)]
pub struct Log {
    pub ghost items: { List TheAnswered },
}

impl Model for Log {
    ghost also_owns = { λ _. ftrue };
}

// It owns nothing.
unsafe impl Send for Log {}

unsafe impl Sync for Log {}

impl Log {
    ghost use Rattle.scq_collect.specs.GivenAnswers.{given_answer};

    pub fn new() -> Log
        ensures { result.items ≡ [] }
    {
        Log {}
    }

    pub fn and(&self, _given: &Given<'_>) -> Log
        ensures { result.items ≡ self.now.items ++ given_answer _given.now ∷ [] }
    {
        Log {}
    }
}
