//! Laws of blocks and their frames. The functions do nothing: each stands for its contract.
ghost use Rattle.std.specs.Prelude.{◌≡◌, ℕ, ◌<◌, ◌↔◌, List, length, slice_index_or};
ghost use Rattle.std.specs.List.Sorted.{IsPermutation};
ghost use denote.RawPtr.{◌+ₚ◌};
ghost use Rattle.scq_block.specs.declared.frame.Frame.{Frame};
ghost use Rattle.scq_block.specs.declared.block.Block.{Block};
ghost use Rattle.scq_block.specs.Exports.{IsSame, bytes_of, frame_start, IsFrameOf, AreAllOf};

/// Two frames of one block are the same exactly where they have one number.
pub fn numbers_tell_frames()
    ensures { (b : Block) (f g : Frame) → IsFrameOf b f → IsFrameOf b g
        → (IsSame f g ↔ (f.number ≡ g.number)) }
{}

/// No byte of a block is in two frames: where the i-th byte of one lies where the j-th of another
/// does, the two have one number, and i is j.
pub fn frames_lie_apart()
    ensures { (b : Block) (f g : Frame) (i j : ℕ) → IsFrameOf b f → IsFrameOf b g
        → i < length (bytes_of f) → j < length (bytes_of g)
        → frame_start f +ₚ i ≡ frame_start g +ₚ j → (f.number ≡ g.number) × (i ≡ j) }
{}

/// Frames that are, one by one, the same as all frames of a block are all frames of it, whatever
/// they hold.
pub fn the_same_frames_are_all()
    ensures { (b : Block) (fs gs : List Frame) → AreAllOf b fs → length gs ≡ length fs
        → ((k : ℕ) (d : Frame) → k < length fs
        → IsSame (slice_index_or fs k d) (slice_index_or gs k d)) → AreAllOf b gs }
{}

/// All frames of a block are all of them in any other order.
pub fn all_frames_in_any_order()
    ensures { (b : Block) (fs gs : List Frame) → AreAllOf b fs → IsPermutation fs gs
        → AreAllOf b gs }
{}
