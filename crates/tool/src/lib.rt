//! The program's answer to a command line, over any host: named files, and an output for lines.
//!
//! ```
//! let mut host = host_of(alloc, &[("s", &PAIR_SESSION)], out)?;
//! let mut err = Sink::new(alloc);
//! let words = ["alcrs", "drop", "s", "o", "0"];
//! assert_eq!(rt; answer(alloc, &words, &mut host, &mut err), 1);
//! ```
#![tactic(auto)]

mod answering;
mod running;

pub use answering::{answer, carry_out, refuse, refuse_memory, status_after};
pub use running::{Settled, run};
