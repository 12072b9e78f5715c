//! What came of an object, and the source blocks that are recovered from it (RFC 5510, section 8).
//!
//! - `arrivals`: the symbols that came of a block, as slices of their datagrams, as copies or as
//!   places in a file. `shared_arrivals`: those of neighbouring blocks, with a bound on their ESIs.
//! - `symbols`: what came, by block and ESI. `block_list`: the blocks of which something came.
//!   `received`: what came of a list of datagrams, or the first fault at a place (`fault`), by the
//!   FTI of the first carrier, which is found before.
//! - `recovering`: the source symbols of one block that has enough of them, by `rows`, `block` and
//!   `erasure`. `recovery` keeps what recovers missing symbols for the next block.
//! - `blocks`: the same for a block of what was received. `padding`: whether its symbols can have
//!   the object's padding, told before they are solved.
//! - `giving`: whether a block's source symbols give a symbol.
//!
//! It is what `decoder`, `file_decoder` and `receiver` share.
#![tactic(auto)]

mod arrivals;
mod block;
mod block_list;
mod blocks;
mod erasure;
mod fault;
mod giving;
mod padding;
mod received;
mod recovering;
mod recovery;
mod rows;
mod shared_arrivals;
mod symbols;

pub use arrivals::{Arrival, push_arrival, seen_of, symbols_below};
pub use block_list::blocks_of;
pub use blocks::{block_rows, received_rows};
pub use fault::DecodeFault;
pub use giving::gives;
pub use received::{Received, fault_at, receive};
pub use recovery::Recovery;
pub use rows::Rows;
pub use symbols::Symbols;
