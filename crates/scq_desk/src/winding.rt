//! How the work of all workers ends.
ghost use Rattle.std.specs.Prelude.{◌≡◌, ℕ, ◌<◌, ◌||◌, None, false, length, map, flat_map};
ghost use Rattle.std.specs.Prelude.{IfSome};
ghost use Rattle.std.specs.List.{All};
ghost use Rattle.std.specs.Option.{option_to_list};
ghost use Rattle.scq_block.specs.Exports.{AreAllOf, IsSame, bytes_of};
ghost use Rattle.scq_passes.specs.Exports.{index_of, HasClosed};
ghost use Rattle.scq_files.specs.Exports.{AllEnded, AllStop, AllWhole, AreDealt, AreGathered};
ghost use Rattle.scq_files.specs.Exports.{StopsAtFaults};
ghost use Rattle.scq_desk.specs.Brought.{HaveBrought};
ghost use Rattle.scq_desk.specs.Rooms.{IsLaid};

use crate::clearing::{LeftBehind, clear};
use crate::laying::LaidOut;
use crate::seat::{Seat, Sits};
use scq_block::{Block, Frame};
use scq_files::{Desk, Gathered, gather};
use scq_frames::FrameFault;
use scq_outside::Source;
use scq_queue::{Closed, Counts, Pass, Queue};
use std::snapshot::Snapshot;

/// What is there once all have done their work: the sources in their order, the first file's fault,
/// and whether a worker or a file wanted memory; the workers' lists and the counts of their passes,
/// what was left in each ring, and of each worker whether it saw that all had retired. For
/// contracts alone the passes as they were when the queue was closed, twice, and the frames that
/// came back, in their order.
#[derive(Drop)]
pub struct WoundUp<L: Drop, S> {
    pub sources: Vec<S>,
    pub fault: Option<(u32, FrameFault)>,
    pub starved: bool,
    pub lists: Vec<L>,
    pub counts: Vec<Counts>,
    pub left: Vec<u64>,
    pub saw: Vec<bool>,
    pub passes: Snapshot<Vec<Pass<Frame>>>,
    pub closing: Snapshot<Vec<Pass<Frame>>>,
    pub frames: Snapshot<Vec<Frame>>,
}

/// Whether a worker or a file wanted memory.
fn any_wanted(workers: bool, files: bool) -> bool
    ensures { result ≡ (workers || files) }
{
    workers || files
}

/// Ends the work of all workers once each has done its own: the files are gathered, the queue is
/// closed and its block merged, in every answer.
pub fn wind_up_desks<L: Drop, W: Sits<Pass<Frame>, L>, S: Source>(
    laid: LaidOut<L, S>,
    block: Block,
    queue: Queue<Frame>,
    desks: Vec<Desk<Seat<W, Frame>, S>>,
) -> WoundUp<L, S>
    requires laid { IsLaid (length desks.items) laid }
    requires seats { (0 < length desks.items) × (queue.setup.seats ≡ length desks.items) }
    requires all { AreAllOf block queue.given }
    requires dealt { AreDealt 1 laid.was.value.items desks.items }
    requires own { All (λ d. ((W.pass_of d.worker.worker).queue ≡ queue)
        × ((W.pass_of d.worker.worker).held ≡ index_of d.worker.kept)
        × IfSome d.worker.kept (λ h. h.queue ≡ queue)) desks.items }
    ensures gathered { (size : ℕ) → AllEnded size S.Source desks.items
        → AreGathered size S.Source laid.was.value.items result.sources.items
        result.fault result.starved }
    ensures stops { (size : ℕ) → AllEnded size S.Source desks.items → AllStop desks.items
        → StopsAtFaults (length desks.items) size S.Source laid.was.value.items
        result.sources.items }
    ensures whole { result.fault ≡ None → AllWhole desks.items }
    ensures fed { result.starved ≡ false
        → All (λ d. W.starved_of d.worker.worker ≡ false) desks.items }
    ensures brought { HaveBrought W.list_of W.pass_of desks.items result }
    ensures closed { HasClosed bytes_of IsSame queue.setup queue.given
        (map (λ d. W.pass_of d.worker.worker) desks.items)
        (flat_map (λ d. option_to_list d.worker.kept) desks.items) result.frames.value.items
        result.left.items }
{
    let LaidOut {
        was,
        sources: emptied,
        count,
        left: mut behind,
    } = laid;
    let mut desks = desks;
    let mut gathered = Gathered {
        sources: emptied,
        fault: None,
        starved: false,
    };
    gather(&was, desks.as_mut_slice(), count, &mut gathered);
    clear(desks, &mut behind);
    let LeftBehind {
        passes,
        held,
        lists,
        starved,
    } = behind;
    let closing = Snapshot::of(&passes);
    let Closed {
        buffers,
        left,
        counts,
        saw,
        passes,
    } = queue.close(passes, held);
    let frames = Snapshot::of(&buffers);
    block.merge(buffers);
    let Gathered {
        sources,
        fault,
        starved: wants,
    } = gathered;
    WoundUp {
        sources,
        fault,
        starved: any_wanted(starved, wants),
        lists,
        counts,
        left,
        saw,
        passes,
        closing,
        frames,
    }
}
