//! The queue of workers is made over the frames of one block.
ghost use Rattle.std.specs.Prelude.{◌≡◌, ◌+◌, ◌^◌, ◌≤◌, length, vec_len, IfOk};
ghost use Rattle.std.specs.List.{All};
ghost use Rattle.scq_word.specs.Exports.{most_run_order};
ghost use Rattle.scq_block.specs.Exports.{AreAllOf};
ghost use Rattle.scq_queue.specs.Exports.{first_passes};

use scq_block::{Block, Frame};
use scq_queue::{Pass, Queue};
use scq_word::{NoMemory, Setup};
use std::alloc::Global;

/// How many bytes stand in front of a part.
const HEADER: u32 = 24;

/// The frames of a queue, with the block that they are carved from: each has room for a part of so
/// many bytes.
fn make_frames(alloc: Global, setup: Setup, size: u32) -> Result<(Block, Vec<Frame>), NoMemory>
    requires order { setup.order ≤ most_run_order }
    requires fits { size ≤ 65536 }
    ensures count { IfOk result (λ made. vec_len made.1 ≡ 2 ^ setup.order) }
    ensures room { IfOk result (λ made. All (λ f. size + 24 ≤ length f.bytes.items) made.1.items) }
    ensures all { IfOk result (λ made. AreAllOf made.0 made.1.items) }
{
    Block::carve(alloc, 1 << setup.order, size + HEADER)
}

/// A queue over the frames of one block, with its passes: each frame has room for a part of so many
/// bytes. The order is in `1..=MOST_RUN_ORDER`.
pub fn make_queue(
    alloc: Global,
    setup: Setup,
    size: u32,
) -> Result<(Block, Queue<Frame>, Vec<Pass<Frame>>), NoMemory>
    requires order { setup.order ≤ most_run_order }
    requires rings { 2 ≤ setup.rings }
    requires fits { size ≤ 65536 }
    ensures made { IfOk result (λ made. made.1.setup ≡ setup) }
    ensures passes { IfOk result (λ made. made.2.items ≡ first_passes made.1 made.1.setup.seats) }
    ensures room { IfOk result (λ made. All (λ f. size + 24 ≤ length f.bytes.items) made.1.given) }
    ensures all { IfOk result (λ made. AreAllOf made.0 made.1.given) }
{
    let (block, frames) = make_frames(alloc, setup, size)?;
    match Queue::make(alloc, setup, frames) {
        Ok((queue, passes)) => Ok((block, queue, passes)),
        Err((frames, NoMemory)) => {
            block.merge(frames);
            Err(NoMemory)
        }
    }
}
