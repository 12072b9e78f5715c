//! The commands that check a session, each in a module of its name. `summary` has the few lines
//! that a yes prints where a summary is asked for, `drawing` its picture, `faults` what is told
//! where a file isn't read.
#![tactic(auto)]

pub mod check;
mod drawing;
mod faults;
mod summary;
pub mod twin;
