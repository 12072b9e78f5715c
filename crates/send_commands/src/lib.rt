//! The commands that make sessions and certificates, each in a module of its name.
#![tactic(auto)]

pub mod certify;
pub mod convert;
pub mod drop;
pub mod encode;
pub mod join;
pub mod salvage;
