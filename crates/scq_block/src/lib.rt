//! One allocation that is carved into frames: pieces of equal length, numbered from 0, each a
//! `Buffer`. A frame owns its bytes and no other's, so frames may be written on several threads.
//! Neither a frame nor a block can be dropped: the one call that ends them, `Block::merge`, wants
//! all frames of the block, and frees the allocation. Who can't bring a frame back abandons it by
//! name, and its block is then never merged. `span` has the steps of `carve` and `merge` by which
//! bytes leave their vector and come back; these alone are proved by hand. The crate stands on
//! `scq_word`, for `Buffer`, and on the kit's `std_alloc` and `bytes`, for vectors that lie in a
//! part of another's block. The layer above uses what `carve` gives, what `merge` wants, and that
//! frames which are the same as all frames of a block are all frames of it.
#![tactic(auto)]

mod block;
mod frame;
pub mod laws;
mod span;

pub use block::Block;
pub use frame::Frame;
