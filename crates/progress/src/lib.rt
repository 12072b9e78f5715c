//! How far the reading of files has come, told on a terminal.
//!
//! - `counted`: files whose reads are told.
//! - `meter`: what is told of one of them.
//! - `progress`: when a line is to be told, and whether one stands there.
#![tactic(auto)]

mod counted;
mod meter;
mod progress;

pub use counted::Counted;
pub use progress::Progress;
