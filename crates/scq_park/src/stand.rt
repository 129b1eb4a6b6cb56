ghost use Rattle.std.specs.Prelude.{◌≡◌};

use crate::passes::WakePass;
use crate::waker::Sleeper;
use std::marker::Model;

/// What a worker of a crew makes calls with, in whichever thread it runs. It has a pass to each
/// worker's parker, in order, with how often it woke that worker; and what the worker itself rests
/// on.
#[derive(Drop)]
pub struct Stand {
    pub(crate) worker: u32,
    pub(crate) sleeper: Sleeper,
    pub(crate) links: Vec<WakePass>,
}

impl Model for Stand {
    ghost use Rattle.scq_park.specs.Crews.{Post};
    ghost use Rattle.scq_park.specs.Kept.{post_of, IsStand};

    ghost Value = { Post };

    ghost view = { λ s. post_of s.worker s.sleeper s.links.items };

    ghost invariant = { λ s. IsStand s.worker s.sleeper s.links.items };
}

impl Stand {
    /// The number of its worker.
    pub fn worker(&self) -> u32
        ensures { result ≡ self.now.worker }
    {
        self.worker
    }
}
