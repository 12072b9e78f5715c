//! The check of a session file, an object and a certificate, of which nothing is held but a block.
//!
//! ```
//! match check_files(alloc, &files, IDENTITY)?.verdict(alloc)? {
//!     Verdict::Yes(report) => println!(rt; "margin {}", report.margin)?,
//!     Verdict::No(reason) => println!(rt; "no {reason:?}")?,
//! }
//! ```
//!
//! `cert` has the check of datagrams that come one after the other, with the object and the
//! certificate held. Here all three are files that are read at offsets (RFC 5052, section 9.1, has
//! the blocks):
//!
//! - `index`: a pass over the session's frames, up to the first datagram that has a fault before
//!   its symbol is looked at. Each datagram is counted by `cert::Tally`, and where it stands is
//!   kept (`specs/Indexed`), in 8 bytes (`extents`, `specs/Standing`).
//! - `blocks`: one block's rows of coefficients, the symbols that they give, and the object's bytes
//!   beside them (`specs/Blocks`).
//! - `members`: the symbols of a block's datagrams, read again where they stand.
//! - `checking`: the blocks one after the other (`specs/Compared`), and the first reason in the
//!   order of [`cert::Reason`] (`specs/Checked`): the least place of those that the index and the
//!   blocks tell; and of a block that is short, what a twin is made of (`specs/Shortness`).
//!
//! Its verdict is that of [`cert::check_from`], word for word.
#![tactic(auto)]

mod blocks;
mod checking;
mod extents;
mod index;
mod members;

pub use checking::{Checked, Files, ShortBlock, check_files};
