//! What the report is told by.

ghost use Rattle.std.specs.Prelude.{◌≡◌, length};

use crate::recorded::Place;
use scq_hist::Event;

/// What places and events are told by: the names of the files, the place of each event, and the
/// history.
#[derive(Clone, Copy)]
pub(crate) struct Teller<'a> {
    pub names: &'a [String],
    pub places: &'a [Place],
    pub events: &'a [Event],
    ghost many: { length places.now ≡ length events.now },
}
