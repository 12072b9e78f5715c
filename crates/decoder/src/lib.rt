//! The decoder: the object that datagrams give, or why they give none (RFC 5510, section 8).
//!
//! ```
//! let received = session.without(alloc, &[0, 3, 7])?;
//! let answer = decode(alloc, &received.views(alloc)?, IDENTITY)?;
//! ```
//!
//! - `answer`: what a decoder answers.
//! - `source`: where the symbols of an object are had from, block by block. `coded_source` has that
//!   with the codes of the blocks.
//! - `counting`: how many symbols each block has. `unsolvable`: the blocks whose symbols are those
//!   of no object. `verdict`: the answer by these two.
//! - `decoding`: the public call, and `selecting`: the same for a selection of a session's
//!   datagrams, with what a check's yes promises of it.
//! - `writing`: an object that is written block by block, so that it is never held.
//!
//! A block's source symbols come from `block_recovery`. Above this crate stand `file_decoder`,
//! which decodes a session file, and `receiver`, which is fed one datagram at a time.
#![tactic(auto)]

mod answer;
mod coded_source;
mod counting;
mod decoding;
mod selecting;
mod source;
mod unsolvable;
mod verdict;
mod writing;

pub use answer::{Answer, Short};
pub use coded_source::CodedSource;
pub use counting::have;
pub use decoding::decode;
pub use selecting::{decode_selection, one_answer};
pub use source::{Source, Unread};
pub use verdict::{first_of_no_object, short_verdict, unsound_answer};
pub use writing::{WriteFault, write_blocks};
