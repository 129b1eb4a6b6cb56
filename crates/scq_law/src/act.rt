//! What a turn may add to what its run records, and the call that it has ended.

ghost use Rattle.std.specs.Prelude.{◌≡◌, ◌<◌, IfOk};
ghost use Rattle.std.specs.Option.{option_copied};
ghost use Rattle.scq_core.specs.Exports.{machine_of};
ghost use Rattle.scq_law.specs.Acts.{act_of, ended_in};

use scq_core::{Ended, Phase, State, Step};
use scq_hist::Call;
use scq_word::{Bytes, NoMemory};
use std::alloc::Global;

/// What a turn may add to what is recorded of its run, whatever word it finds.
#[derive(Drop)]
pub(crate) enum Act {
    /// It begins a call.
    Begins(Call),
    /// It places an index, if its exchange succeeds.
    Exchanges { ring: u32, place: u64 },
    /// A put ends with Done, if its call ends here.
    Settles { ring: u32 },
    /// An attempt of a dequeue has failed.
    Fails { ring: u32 },
    /// Nothing.
    Moves,
}

/// What a step may add, from what its seat was in the middle of before.
pub(crate) fn act_of(alloc: Global, phase: &Phase, step: &Step) -> Result<Act, NoMemory>
    ensures { IfOk result (λ act. act ≡ act_of phase.now step.now) }
{
    match (phase, step) {
        (Phase::Idle, Step::E1 { ring, content, .. }) => Ok(Act::Begins(Call::Put {
            queue: *ring,
            content: Bytes::copy_of(alloc, content.bytes())?,
        })),
        (Phase::Idle, Step::D1 { ring }) => Ok(Act::Begins(Call::Get { queue: *ring })),
        (Phase::AtE4 { ring, ticket, .. }, _) => Ok(Act::Exchanges {
            ring: *ring,
            place: *ticket,
        }),
        (Phase::AtE5 { ring, .. } | Phase::AtE6 { ring, .. }, _) => {
            Ok(Act::Settles { ring: *ring })
        }
        (Phase::AtD10 { ring, .. }, _) => Ok(Act::Fails { ring: *ring }),
        _ => Ok(Act::Moves),
    }
}

/// The call that the seat's step has ended: the newest of its record, where the seat is idle after
/// it.
pub fn ended(state: &State, seat: u32) -> Option<&Ended>
    requires { seat < state.now.setup.seats }
    ensures { let part =
        (machine_of state.now).part seat in option_copied result ≡ ended_in part.phase part.calls }
{
    match state.phase(seat) {
        Phase::Idle => state.last(seat),
        _ => None,
    }
}
