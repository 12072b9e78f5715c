//! The code of each source block (RFC 5510, section 8.2): the matrix that makes encoding symbols of
//! its source symbols, or the one that makes the coefficients of their polynomials. For a large
//! block that one makes the values at all 255 points, of which `evaluation` makes the coefficients.
//!
//! - `code`: a matrix with its columns as rows of coefficients, the form in which rows of bytes are
//!   multiplied;
//! - `codes`: one for each size that a source block has, of which there are two at most.
#![tactic(auto)]

mod code;
mod codes;

pub use code::{Code, columns};
pub use codes::{BlockCodes, Kind, LEAST_BY_VALUES};
