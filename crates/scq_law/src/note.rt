//! What a turn is to the order of a ring.

ghost use Rattle.std.specs.Prelude.{◌≡◌, ◌<◌, ◌==◌, ◌&&◌, if◌then◌else◌};
ghost use Rattle.scq_core.specs.Exports.{machine_of};
ghost use Rattle.scq_law.specs.Notes.{note_of, put_note};
ghost use Rattle.scq_law.specs.declared.note.Note.TheVariants.{Decides, Passes};

use scq_core::{Phase, State, Step};

/// What a turn is to the order of one ring, as the state before it says.
#[derive(Clone, Copy)]
pub(crate) enum Note {
    /// An enqueue draws this place.
    DrawsPut { place: u64 },
    /// A dequeue draws this place.
    DrawsGet { place: u64 },
    /// A dequeue decides that the ring is empty, where Head is this.
    Decides { head: u64 },
    /// Nothing.
    Passes,
}

/// What the seat's step is to the order of the ring, if it is enabled.
pub(crate) fn note_of(state: &State, ring: u32, seat: u32, step: &Step) -> Note
    requires seat { seat < state.now.setup.seats }
    requires ring { ring < state.now.setup.rings }
    ensures { let m =
        machine_of state.now in result
        ≡ note_of state.now.setup m.cells ring (m.part seat).phase step.now }
{
    match (state.phase(seat), step) {
        (Phase::Idle, Step::E1 { ring: on, .. }) => put_note(state, ring, *on),
        (Phase::Idle, Step::D1 { ring: on }) => {
            decision(state, ring, *on, state.threshold(ring) < 0)
        }
        (Phase::AtE1 { ring: on, .. }, _) => put_note(state, ring, *on),
        (Phase::AtD2 { ring: on, .. }, _) => {
            let place = state.head(ring);
            let draws = *on == ring && place < state.setup().limit();
            where_so(draws, Note::DrawsGet { place })
        }
        (Phase::AtD6 { ring: on, ticket }, _) => {
            let is_last = state.tail(ring).saturating_sub(*ticket) <= 1;
            decision(state, ring, *on, is_last)
        }
        (
            Phase::AtD10 {
                ring: on,
                leaving: false,
                ..
            },
            _,
        ) => decision(state, ring, *on, state.threshold(ring) <= 0),
        _ => Note::Passes,
    }
}

/// An E1 on a ring.
fn put_note(state: &State, ring: u32, on: u32) -> Note
    requires { ring < state.now.setup.rings }
    ensures { result ≡ put_note state.now.setup (machine_of state.now).cells ring on }
{
    let place = state.tail(ring);
    let draws = on == ring && place < state.setup().limit();
    where_so(draws, Note::DrawsPut { place })
}

/// A step on a ring that decides, where this holds.
fn decision(state: &State, ring: u32, on: u32, holds: bool) -> Note
    requires { ring < state.now.setup.rings }
    ensures { result
        ≡ (if on == ring && holds then Decides ((machine_of state.now).cells.head ring)
        else Passes) }
{
    let head = state.head(ring);
    where_so(on == ring && holds, Note::Decides { head })
}

/// What a turn is to the order, where this holds.
fn where_so(holds: bool, note: Note) -> Note
    ensures { result ≡ (if holds then note else Passes) }
{
    if holds { note } else { Note::Passes }
}
