//! How files are read: message by message, which a handler gets.
ghost use Rattle.std.specs.Prelude.{◌≡◌, ◌≤◌, [], ◌∷◌, true, false, length, All};
ghost use Rattle.std.specs.Prelude.{IfOk, IfErr, IsTrue, OnOk};
ghost use Rattle.scq_frames.specs.declared.message.Message.{Message as TheMessage};
ghost use Rattle.scq_files.specs.Given.{given_in};
ghost use Rattle.scq_files.specs.Handling.{TellsOfWant, WantsAtLast};
ghost use Rattle.scq_files.specs.OwnFiles.{IsNew, StopsAtAFault, ids_of, all_given};
ghost use Rattle.scq_files.specs.Reading.{IsRead};

use crate::given::{Given, give};
use crate::handler::Handler;
use crate::own_file::{FileEnd, OwnFile};
use scq_frames::{FrameFault, Framer, Message};
use scq_outside::Source;
use scq_topics::Topics;
use std::alloc::Global;
use std::snapshot::Snapshot;

/// The greatest number of bytes of a file.
const MOST_BYTES: u64 = 1 << 30;

/// Has a message handled, and a pause made where reading may wait behind it.
fn handle_one<C, T, H: Handler<C, T>>(
    handler: &mut H,
    with: &C,
    beside: &mut T,
    may_wait: bool,
    message: &Message,
) -> Result<(), H::Stop>
    requires ready { H.ready with.now beside.old handler.old }
    requires takes { H.takes with.now message.now }
    ensures handled { OnOk result
        (H.handled with.now (message.now ∷ []) beside.old handler.old beside.new handler.new) }
    ensures stopped { IfErr result
        (H.stopped with.now (message.now ∷ []) beside.old handler.old beside.new handler.new) }
    ensures rested { IsTrue may_wait → OnOk result (H.rested handler.new) }
    ensures put_off { (IsTrue may_wait → ⊥) → OnOk result
        (H.puts_off with.now message.now handler.old handler.new) }
{
    handler.handle(with, beside, message)?;
    if may_wait {
        handler.pause(with, beside)?;
    }
    Ok(())
}

/// Reads the messages of a file one by one, and says how far it was read.
fn read_messages<C, T, H: Handler<C, T>, S: Source>(
    handler: &mut H,
    with: &C,
    beside: &mut T,
    alloc: Global,
    topics: &Topics,
    longest: u32,
    file: u32,
    source: &mut S,
    given: &mut Snapshot<Given>,
) -> Result<FileEnd, H::Stop>
    requires ready { H.ready with.now beside.old handler.old }
    requires takes { (m : TheMessage) → m.topic ≤ length topics.now → length m.payload ≤ longest
        → H.takes with.now m }
    requires none { given_in given.old.value ≡ [] }
    ensures read { IfOk result (λ end. IsRead topics.now longest S.Source file
        source.old source.new (given_in given.new.value) end) }
    ensures unended { IfErr result (λ _. IsRead topics.now longest S.Source file
        source.old source.new (given_in given.new.value) (FileEnd.Stopped FrameFault.NoMemory)) }
    ensures handled { OnOk result (H.handled with.now (given_in given.new.value)
        beside.old handler.old beside.new handler.new) }
    ensures stopped { IfErr result (H.stopped with.now (given_in given.new.value)
        beside.old handler.old beside.new handler.new) }

    // Behind want of memory it reads no more.
    ensures wanted { H.wanted handler.old ≡ false → WantsAtLast H.wanted (H.handled with.now)
        (given_in given.new.value) beside.old handler.old }
    ensures told { IfOk result (λ end. H.wanted handler.old ≡ false → H.wanted handler.new ≡ true
        → end ≡ FileEnd.Stopped FrameFault.NoMemory) }
{
    let Ok(mut framer) = Framer::new(alloc, file, longest, MOST_BYTES) else {
        return Ok(FileEnd::Stopped(FrameFault::NoMemory));
    };
    'messages: loop {
        match framer.next(topics, source) {
            Ok(Some(message)) => {
                give(given, &message);
                handle_one(handler, with, beside, framer.may_wait(), &message)?;
                framer.reuse(message);
                if handler.starved() {
                    return Ok(FileEnd::Stopped(FrameFault::NoMemory));
                }
            }
            Ok(None) => return Ok(FileEnd::Whole),
            Err(fault) => return Ok(FileEnd::Stopped(fault)),
        }
    }
}

/// Reads a file to its end or up to a fault.
fn read_file<C, T, H: Handler<C, T>, S: Source>(
    handler: &mut H,
    with: &C,
    beside: &mut T,
    alloc: Global,
    topics: &Topics,
    longest: u32,
    file: &mut OwnFile<S>,
) -> Result<(), H::Stop>
    requires ready { H.ready with.now beside.old handler.old }
    requires takes { (m : TheMessage) → m.topic ≤ length topics.now → length m.payload ≤ longest
        → H.takes with.now m }
    requires unread { IsNew file.old }
    ensures same { (file.new.number ≡ file.old.number)
        × (file.new.was.value ≡ file.old.was.value) }
    ensures read { IsRead topics.now longest S.Source file.new.number
        file.new.was.value file.new.source (given_in file.new.given.value) file.new.end }
    ensures handled { OnOk result (H.handled with.now (given_in file.new.given.value)
        beside.old handler.old beside.new handler.new) }
    ensures stopped { IfErr result (H.stopped with.now (given_in file.new.given.value)
        beside.old handler.old beside.new handler.new) }
    ensures wanted { H.wanted handler.old ≡ false → WantsAtLast H.wanted (H.handled with.now)
        (given_in file.new.given.value) beside.old handler.old }
    ensures told { H.wanted handler.old ≡ false → H.wanted handler.new ≡ true
        → file.new.end ≡ FileEnd.Stopped FrameFault.NoMemory }
{
    let number = file.number;
    match read_messages(
        handler,
        with,
        beside,
        alloc,
        topics,
        longest,
        number,
        &mut file.source,
        &mut file.given,
    ) {
        Ok(end) => {
            file.end = end;
            Ok(())
        }
        Err(stop) => {
            // The handler stopped, which `FileEnd` counts as want of memory.
            file.end = FileEnd::Stopped(FrameFault::NoMemory);
            Err(stop)
        }
    }
}

/// Reads files from the last of the list to the first, up to the first that has a fault.
pub fn read_files<C, T, H: Handler<C, T>, S: Source>(
    handler: &mut H,
    with: &C,
    beside: &mut T,
    alloc: Global,
    topics: &Topics,
    longest: u32,
    files: &mut [OwnFile<S>],
) -> Result<(), H::Stop>
    requires ready { H.ready with.now beside.old handler.old }
    requires takes { (m : TheMessage) → m.topic ≤ length topics.now → length m.payload ≤ longest
        → H.takes with.now m }
    requires unread { All IsNew files.old }
    ensures same { ids_of files.new ≡ ids_of files.old }
    ensures read { All (λ f. IsRead topics.now longest S.Source f.number f.was.value
        f.source (given_in f.given.value) f.end) files.new }
    ensures stops { StopsAtAFault files.new }
    ensures handled { OnOk result (H.handled with.now (all_given files.new)
        beside.old handler.old beside.new handler.new) }
    ensures stopped { IfErr result (H.stopped with.now (all_given files.new)
        beside.old handler.old beside.new handler.new) }

    // Behind want of memory it reads no message more, and a file tells of it.
    ensures wanted { H.wanted handler.old ≡ false
        → WantsAtLast H.wanted (H.handled with.now) (all_given files.new) beside.old handler.old
        × (H.wanted handler.new ≡ true → TellsOfWant files.new) }
{
    let mut at = files.len();
    'files: while at > 0 {
        at -= 1;
        read_file(
            handler,
            with,
            beside,
            alloc,
            topics,
            longest,
            &mut files[at],
        )?;
        if let FileEnd::Stopped(_) = files[at].end {
            return Ok(());
        }
    }
    Ok(())
}
