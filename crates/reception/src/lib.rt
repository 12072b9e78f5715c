//! What a list of datagrams (RFC 5651, RFC 5510) says to one who receives them.
//!
//! ```
//! let mut scope = Scope::new(IDENTITY);
//! match scope.look(datagram) {
//!     Ok(Look::InRange(packet)) => println!(rt; "of {} bytes", packet.symbol.len())?,
//!     Ok(Look::Other | Look::Early) => println!(rt; "passed over")?,
//!     Ok(wrong) => println!(rt; "{wrong:?}")?,
//!     Err(fault) => println!(rt; "no packet: {fault:?}")?,
//! }
//! ```
//!
//! `specs/Symbols` speaks of encoding symbols that came, and of no packets. `specs/Reception` says
//! which datagrams count where an identity is asked for, whose FTI holds, and what is wrong at a
//! place; `specs/Answer` what a decoder answers, `specs/Headline` what a check's yes promises of
//! every selection. The code is one step: [`Scope::look`] at one datagram. A check, a decoder and a
//! receiver are loops over it, each with its own question about the symbol; `proofs/Walking` has
//! the laws of such a loop. Only some packets carry the FTI: a check knows it from its certificate,
//! a decoder finds it first ([`Scope::found_in`]), and a receiver can't use what comes before a
//! carrier ([`Look::Early`]).
//!
//! Two laws say of these definitions which fault is told: `specs/First` at which place,
//! `specs/Order` which one of those at that place; a third (`specs/Nothing`) where nothing can be
//! said, and a fourth (`specs/Isolation`) that packets of other identities change nothing of an
//! answer.
#![tactic(auto)]

mod laws;
mod scope;

pub use laws::{empty_answer, fault_order, first_fault, isolation};
pub use scope::{Identity, Look, Scope};
