//! The symbols that a certificate gives, made as a check needs them.
//!
//! `certified_symbols` has the symbols of all blocks, and finds the least column in which a
//! datagram has another one. `block_symbols` makes many symbols of a block at once,
//! `repair_symbols` keeps those that datagrams are compared with, and `runs` tells how many pay
//! where they aren't kept. `differing` finds the first byte in which two rows differ, which is how
//! a column is told.
#![tactic(auto)]

mod block_symbols;
mod certified_symbols;
mod differing;
mod repair_symbols;
mod runs;

pub use certified_symbols::CertifiedSymbols;
pub use differing::first_difference;
