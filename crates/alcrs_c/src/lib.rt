//! The library for C: each call over slices of bytes, with numbers in place of enums.
//!
//! - `status`: what a call returns;
//! - `told`: the structs that C reads, and the numbers of faults and reasons;
//! - `input`: identities and certificates of what C passes; `frames`: a session's
//!   datagrams without a copy;
//! - `check`, `decode`, `twin`, `making`: the calls from bytes to bytes;
//! - `receivers`: a receiver behind a handle; `checker`: a check behind a handle that is fed
//!   datagrams; `held`: what a handle owns; `apart`: a box as a pointer and its allocator.
#![tactic(auto)]

mod apart;
mod check;
mod checker;
mod decode;
mod frames;
mod held;
mod input;
mod making;
mod receivers;
mod status;
mod told;
mod twin;

pub use checker::AlcrsChecker;
pub use held::{HeldChecker, HeldReceiver};
pub use receivers::AlcrsReceiver;
pub use told::{AlcrsBlock, AlcrsFault, AlcrsReport};
