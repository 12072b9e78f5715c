//! What a command meets outside: named files, and an output for lines.
//!
//! - `host`: what commands call, with what each call promises. A host says what names stand for and
//!   what was printed, or says nothing of them.
//! - `memory`: a host in memory, for tests and for callers without files. It says all.
#![tactic(auto)]

mod host;
mod memory;

pub use host::{FileFault, Host, KeepFault};
pub use memory::{MemoryHost, MemoryInput};
