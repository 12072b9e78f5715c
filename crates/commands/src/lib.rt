//! What the commands share: what each of them reads, gives and prints, and why it may not.
//!
//! - `input`, `whole`, `output`: files that are read, what is read at offsets, and files that are
//!   made; `frames`: a session's frames.
//! - `print`, `wording`: lines, and the words of faults.
//! - `done`, `telling`: what a command has done, and how it is told.
//! - `fault`: why one wasn't done.
//! - `sizes`: the FTI of an object, by the command line's numbers.
#![tactic(auto)]

mod done;
mod fault;
mod frames;
mod input;
mod output;
mod print;
mod sizes;
mod telling;
mod whole;
mod wording;

pub use done::{Done, Ended, Told, Why};
pub use fault::{Fault, Stop};
pub use frames::pass_frames;
pub use input::{
    next_datagram, open, read_certificate, read_object, read_places, read_rest, see_unchanged,
};
pub use output::{Unwritten, commit, if_unchanged, write_output};
pub use print::{Text, print_count};
pub use sizes::fti_of;
pub use telling::finish;
pub use whole::{Whole, open_session, open_whole, see_whole};
pub use wording::{fault_line, put_packet_fault};
