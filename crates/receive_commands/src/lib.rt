//! The commands that tell what a session's packets give, each in a module of its name. `totals` has
//! the numbers that `show` prints if a summary is asked for.
#![tactic(auto)]

pub mod decode;
pub mod follow;
pub mod show;
mod totals;
