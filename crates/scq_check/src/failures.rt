//! The events that break an aspect, as they are found one after the other.

ghost use Rattle.std.specs.Prelude.{◌≡◌, ◌+◌, ◌<◌, ◌^◌, None};
ghost use Rattle.scq_check.specs.Failures.{failures_with};

/// The events that break an aspect: the position of the first, and how many they are.
#[derive(Clone, Copy)]
pub struct Failures {
    pub first: Option<usize>,
    pub count: usize,
}

impl Failures {
    /// No event breaks it.
    pub(crate) fn none() -> Failures
        ensures first { result.first ≡ None }
        ensures count { result.count ≡ 0 }
    {
        Failures {
            first: None,
            count: 0,
        }
    }

    /// Whether the aspect holds of the event at this position, behind those that were told.
    pub(crate) fn with(self, e: usize, holds: bool) -> Failures
        requires { self.count + 1 < 2 ^ 64 }
        ensures { result ≡ failures_with self e holds }
    {
        if holds {
            self
        } else {
            Failures {
                first: self.first.or(Some(e)),
                count: self.count + 1,
            }
        }
    }
}
