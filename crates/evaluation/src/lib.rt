//! The values of polynomials at the points of the code of RFC 5510, section 8.2, many polynomials
//! at a time.
//!
//! ```
//! let mut values = [0u8; 4];
//! evaluate(&mut values, 0, 4, &[3, 5], 2, 1);
//! ```
//!
//! Row i of the coefficients has coefficient i of each polynomial, a byte column for each. So a row
//! of values is a sum of rows of coefficients, each times a power of alpha.
//!
//! - `lanes`: bytes as lanes of vectors.
//! - `multiples`: products of bytes, looked up by their halves.
//! - `transform`: the values at all elements, of 64 columns at a time.
//! - `powers`: the matrices of powers of alpha.
//! - `values`: the values at some points, by the transform or as sums of products.
//! - `interpolation`: the coefficients, from the values at all points.
#![tactic(auto)]

mod interpolation;
mod lanes;
mod multiples;
mod powers;
mod transform;
mod values;

pub use interpolation::coefficients;
pub use values::evaluate;
