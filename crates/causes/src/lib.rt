//! What a command's end means, and what to do, in a sentence for people.
//!
//! The lines of a command are for programs: they name a fault by its letter and number. The
//! sentence names the file and the place in it, the system's own reason where it has one, and the
//! one thing to do where there is one. It is made of the request and of why the command ended so.
//! Files are looked at again for it, unless they are pipes or devices. Nothing that a command does
//! rests on it, so its calls promise no more than that they end, and of some when there is a
//! sentence.
//!
//! - `explaining`: the sentence on an end.
//! - `case`: what a sentence is made of, and what a file is instead of what was wanted.
//! - `faults`, `answers`: sentences on faults, and on a yes, a no and a lack.
//! - `refusals`: what to write in place of what a command line was refused for.
#![tactic(auto)]

mod answers;
mod case;
mod explaining;
mod faults;
mod refusals;

pub use explaining::explain;
pub use refusals::refused;
