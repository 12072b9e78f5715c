//! Matrices over a field: products, inverses by elimination, and the generator matrix of the code
//! of RFC 5510, section 8.2.1.
//!
//! ```
//! let code = generator(alloc, 5, 8)?;
//! Ok(code.cols())
//! ```
//!
//! - `matrix`: a matrix over any field, its entries, and steps on its rows.
//! - `combine`: the transposed matrix, the identity, products and Vandermonde matrices.
//! - `eliminate`: the inverse, or that there is none.
//! - `code`: the generator matrix, and what gives a polynomial's coefficients from its values.
//! - `lagrange`: the polynomials that are one at one point and zero at the others.
//! - `erasure`: what gives missing source symbols from repair symbols.
#![tactic(auto)]

mod code;
mod combine;
mod eliminate;
mod erasure;
mod lagrange;
mod matrix;

pub use code::{generator, interpolator};
pub use combine::{product, vandermonde};
pub use eliminate::{ElimError, invert};
pub use erasure::recovery;
pub use matrix::Matrix;
