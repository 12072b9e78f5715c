//! Why a file can't be had, and files looked at again once a command has ended: what one holds
//! instead of what was wanted. Pipes and devices aren't looked at, as they can't be read again.
//! Nothing that a command does rests on it, so of files its calls promise no more than that `-`
//! isn't looked at.
//!
//! - `files`: what a file is instead of a session, and what a certificate begins with.
//! - `sessions`: where a session's frames stop, what its carriers say, how many blocks are short.
//! - `places`: a word of a file of places.
//! - `names`: a file's name, as it can be shown, and a call of the system that has failed.
#![tactic(auto)]

mod files;
mod names;
mod places;
mod sessions;

pub use files::{Head, Kind, certificate_head, kind_of};
pub use names::{Failure, Name, STANDARD_STREAM, input_name, output_name};
pub use places::word_behind;
pub use sessions::{Break, Carrier, Shortage, carrier_from, count_short, datagram_at, walk};
