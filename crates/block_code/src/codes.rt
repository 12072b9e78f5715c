//! A code for each size that a source block has.
ghost use Rattle.std.specs.Prelude.{◌≡◌, ◌<◌, ◌≤◌, IfOk};
ghost use Rattle.partition.specs.Fti.{block_count};
ghost use Rattle.block_code.specs.Codes.{code_for, EachBlockHas, IsOfKind, IsOfBlock};
ghost use Rattle.block_code.specs.Codes.{MakesCoefficients};

use crate::code::Code;
use elim::{Matrix, generator, interpolator};
use gf256::Gf;
use partition::Fti;
use std::alloc::{AllocError, Global};

/// From so many source symbols on, a block's coefficients cost less by way of the values at all 255
/// points, by measurement.
pub const LEAST_BY_VALUES: usize = 180;

/// A code for the first blocks, and one for the others if they are smaller.
#[derive(Drop)]
pub struct BlockCodes {
    pub large: Code,
    pub small: Option<Code>,
}

/// What a row of source symbols times a matrix is.
#[derive(Clone, Copy)]
pub enum Kind {
    /// The encoding symbols.
    Generator,
    /// The coefficients of their polynomials. From [`LEAST_BY_VALUES`] source symbols on, the
    /// values of these at all 255 points, by which `evaluation` makes the coefficients.
    Interpolator,
}

// The matrix that makes coefficients of `k` source symbols, or the values at all points.
fn interpolation(alloc: Global, k: usize) -> Result<Matrix<Gf>, AllocError>
    requires some { 0 < k }
    requires few { k ≤ 255 }
    ensures { IfOk result (MakesCoefficients k) }
{
    if k < LEAST_BY_VALUES {
        interpolator(alloc, k)
    } else {
        generator(alloc, k, 255)
    }
}

// The matrix for a block of `k` source symbols and `n` encoding symbols.
fn matrix(alloc: Global, kind: Kind, k: usize, n: usize) -> Result<Matrix<Gf>, AllocError>
    requires some { 0 < k }
    requires wide { k ≤ n }
    requires few { n ≤ 255 }
    ensures { IfOk result (IsOfKind kind k n) }
{
    match kind {
        Kind::Generator => generator(alloc, k, n),
        Kind::Interpolator => interpolation(alloc, k),
    }
}

// The code for the blocks of the size of block `b`.
fn code(alloc: Global, kind: Kind, fti: &Fti, b: u32) -> Result<Code, AllocError>
    requires { b < block_count fti.now }
    ensures { IfOk result (λ c. IsOfBlock kind fti.now b c.matrix) }
{
    let matrix = matrix(alloc, kind, fti.k(b), fti.n(b))?;
    Code::new(alloc, matrix)
}

impl BlockCodes {
    /// The codes of all blocks of an FTI. Want of memory is the only error.
    pub fn new(alloc: Global, kind: Kind, fti: &Fti) -> Result<BlockCodes, AllocError>
        ensures { IfOk result (EachBlockHas (IsOfBlock kind fti.now) fti.now) }
    {
        let last = fti.block_count() - 1;
        let large = code(alloc, kind, fti, 0)?;
        if fti.k(last) == fti.k(0) {
            return Ok(BlockCodes { large, small: None });
        }
        let small = code(alloc, kind, fti, last)?;
        Ok(BlockCodes {
            large,
            small: Some(small),
        })
    }

    /// The code of a block with `k` source symbols, which some block of the FTI has.
    pub fn of(&self, k: usize) -> &Code
        ensures { result.now ≡ code_for k self.now.large self.now.small }
    {
        match &self.small {
            None => &self.large,
            Some(small) => {
                if self.large.matrix.rows() == k {
                    &self.large
                } else {
                    small
                }
            }
        }
    }
}
