//! The numbers of a session, by identity (TSI and TOI, RFC 5651): how many datagrams are its
//! packets, where the first and the last stand, what its carriers say, how many different symbols
//! came; and why other datagrams are no packets.
//!
//! ```
//! let mut summary = Summary::new(alloc);
//! for place in 0..session.len() {
//!     summary.add(alloc, session.get(place))?;
//! }
//! println!(rt; "{} identity", summary.parts(alloc)?.len())?;
//! ```
//!
//! No datagram is kept: of each identity its counts and FTIs, of each symbol its block and its ESI,
//! and of each datagram that is no packet its fault.
//!
//! - `part`: what is told of an identity.
//! - `carriers`: the FTIs of carriers, counted.
//! - `tally`: the packets of one identity, counted.
//! - `weakest`: the block that has the fewest symbols beyond those that it needs.
//! - `collecting`: a session's datagrams, one after the other.
//! - `telling`: what is told of each identity.
//! - `faults`: what is told of datagrams that are no packets.
#![tactic(auto)]

mod carriers;
mod collecting;
mod faults;
mod part;
mod tally;
mod telling;
mod weakest;

pub use collecting::Summary;
pub use part::{FaultCount, FtiCount, Part};
