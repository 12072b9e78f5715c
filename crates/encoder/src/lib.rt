//! The encoder: an object's encoding symbols as a session (RFC 5510, section 8), and its
//! certificate.
//!
//! ```
//! let mut file = Sink::new(alloc);
//! encode(alloc, OBJECT, 7, 2, &fti()?, 1, Order::Blocks, &mut file)?;
//! Ok(Session::read(alloc, &mut Pieces::new(file.bytes(), 4096))?)
//! ```
//!
//! - `rows`: encoding symbols and coefficients of a block, as sums of the rows of its source
//!   symbols;
//! - `sending`: the datagrams of an object's encoding symbols, in either order; `rounds`: those of
//!   several rounds made at once;
//! - `certifying`: the polynomials of its byte columns; `by_values`: those of large blocks, by the
//!   values at all points;
//! - `object`: an object that comes from a reader, block by block; `sending_from`: its session in
//!   order `Blocks`; `rounds_from`: that in order `Rounds`, where it is written to places;
//!   `certifying_from`: its certificate;
//! - `laws`: what encoding, certifying and checking give together.
#![tactic(auto)]

mod by_values;
mod certifying;
mod certifying_from;
mod laws;
mod object;
mod rounds;
mod rounds_from;
mod rows;
mod sending;
mod sending_from;

pub use certifying::{CertifyFault, certify, certify_to};
pub use certifying_from::{CertifyFromFault, certify_from};
pub use laws::sent_checks_yes;
pub use object::ObjectFault;
pub use rounds_from::encode_rounds_from;
pub use sending::{SendFault, encode};
pub use sending_from::{SendFromFault, encode_from};
