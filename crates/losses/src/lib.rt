//! What a list can lose, by the places of each block's symbols and of the carriers, of which one
//! has to be left: of all losses of places the margin, the kill and the burst, and from each place
//! on the longest run that may be lost.
//!
//! ```
//! let mut groups = Groups::new(rt.alloc(), needs, 2)?;
//! for (place, esi) in [(0, 255u8), (2, 1), (3, 255), (7, 0)] {
//!     groups.push(0, Member { place, esi })?;
//! }
//! assert!(rt; groups.different(0) == 3);
//! ```
//!
//! A place may be in one group, in several or in none; nothing here knows of packets. The
//! definitions are of all losses (`specs/Losses`), and hold of groups of places (`specs/Groups`) as
//! of any list; the code counts copies and slides a window. For the proof the carriers are one
//! group more (`proofs/Carried`), which needs one symbol and has one, of which each carrier is a
//! copy.
//!
//! - `groups`: the places of each block's symbols.
//! - `counting`: how often each ESI stands among them, and how many different ones do.
//! - `pricing`: the symbols of a block that go with the fewest copies.
//! - `window`: the narrowest run of places whose loss leaves a block short.
//! - `weighing`: both of one block, and the places of the cheapest symbols.
//! - `report`: margin, kill and burst, of the blocks together and the carriers.
//! - `longest`: from each place on the longest run whose loss is harmless.
#![tactic(auto)]

mod counting;
mod groups;
mod longest;
mod pricing;
mod report;
mod weighing;
mod window;

pub use groups::{Entry, Groups, Member};
pub use longest::{Run, runs_of};
pub use report::{Figures, figures_of};
