//! A receiver (RFC 5510, section 8): it is fed datagrams one at a time, and gives the answer that a
//! decoder gives to all that it accepted: the object, once they suffice.
//!
//! ```
//! match receiver.take(alloc)? {
//!     Answer::Object(object) => println!(rt; "{} bytes", object.len())?,
//!     _ => println!(rt; "not yet")?,
//! }
//! ```
//!
//! - `receiver`: the type. It stands for the list of the datagrams that it accepted
//!   (`specs/Stands`). It accepts none with which `decode` would answer a fault to that list, and
//!   tells no fault but that answer. Of packets that carry no FTI it accepts none before a carrier,
//!   as it couldn't tell what their symbols are;
//! - `receiving`: the same but for the bytes of symbols, which are kept wherever the caller says
//!   (the crate `block_bytes`). A `Receiver` keeps them in memory;
//! - `file_receiver`: a receiver that keeps them in the output that the object is for;
//! - `feeding` takes one datagram more, and `taking` gives the answer; `storing` tells how much is
//!   kept;
//! - `store`: what it keeps of an object beside bytes. Of each block these are the ESIs that came,
//!   and nothing else (`esis`). While they are too few, the block's bytes are their symbols, one
//!   behind the other (`pending_block`). From then on these are its source symbols
//!   (`solved_block`). So a block has no more bytes than its source symbols. `putting` puts a
//!   symbol where it goes. It walks over what came of the block, and not over the blocks. A symbol
//!   that comes to a solved block is compared with what the source symbols give. `solver` is
//!   what blocks are solved with.
#![tactic(auto)]

mod esis;
mod feeding;
mod file_receiver;
mod pending_block;
mod putting;
mod receiver;
mod receiving;
mod solved_block;
mod solver;
mod store;
mod storing;
mod taking;

pub use file_receiver::FileReceiver;
pub use receiver::{FeedFault, Progress, Receiver};
pub use receiving::Receiving;
