//! Where a receiver keeps the bytes of source blocks (RFC 5052, section 9.1).
//!
//! - `block_bytes`: what is asked of such a place: bytes that are put one behind the other, by
//!   block, and read again.
//! - `held_blocks`: one in memory.
//! - `file_blocks`: one in an output that is written at offsets. `recent` keeps bytes that were
//!   read of that output twice in a row.
//! - `blocks`: which of them a receiver has that has an output, or may get one.
#![tactic(auto)]

mod block_bytes;
mod blocks;
mod file_blocks;
mod held_blocks;
mod recent;

pub use block_bytes::{BlockBytes, BytesFault};
pub use blocks::{Beside, Blocks};
pub use file_blocks::FileBlocks;
pub use held_blocks::HeldBlocks;
