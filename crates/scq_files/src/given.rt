//! The messages that a file gave, for contracts alone.
ghost use Rattle.std.specs.Prelude.{◌≡◌, ◌∷◌, [], ◌++◌};
ghost use Rattle.scq_files.specs.Given.{given_in};

use scq_frames::Message;
use std::mem;
use std::snapshot::Snapshot;

/// No message was given, or one more after these. A file keeps a snapshot of it, which has no bytes
/// when the program runs.
#[derive(Drop)]
pub enum Given {
    Nothing,
    After {
        before: Snapshot<Given>,
        message: Snapshot<Message>,
    },
}

/// No message was given.
pub fn nothing() -> Snapshot<Given>
    ensures { given_in result.value ≡ [] }
{
    Snapshot::of(&Given::Nothing)
}

/// One message more was given.
pub fn give(given: &mut Snapshot<Given>, message: &Message)
    ensures { given_in given.new.value ≡ given_in given.old.value ++ message.now ∷ [] }
{
    let before = mem::replace(given, nothing());
    let message = Snapshot::of(message);
    *given = Snapshot::of(&Given::After { before, message });
}
