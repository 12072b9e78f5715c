//! The program's host: the files that names lead to, standard input and standard output.
//!
//! - `program`: the host of commands, over the system's files; `input` and `output`: those files;
//!   `creating`: what an output is, by what has its name.
//! - `parts`: what becomes a file: it is written beside its name, and takes that once it is whole;
//!   `rights`: who may read and write it then.
//! - `state`: by what it is seen that a file has changed.
//! - `failures`: the system's own error where a call of it fails, with the file's name.
#![tactic(auto)]

mod creating;
mod failures;
mod input;
mod output;
mod parts;
mod program;
mod rights;
mod state;

pub use failures::{Failures, Noted};
pub use input::HostInput;
pub use output::HostOutput;
pub use program::{BUFFER_SIZE, ProgramHost};
