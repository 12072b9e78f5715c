//! A matrix with its columns as bytes.
ghost use Rattle.std.specs.Prelude.{◌≡◌, ◌*◌, length, IfOk};
ghost use Rattle.block_code.specs.Columns.{AreColumns};

use elim::Matrix;
use gf256::Gf;
use lists::are_bytes;
use std::alloc::{AllocError, Global};

/// A matrix, and its columns one behind the other: each holds the coefficients of a sum of rows.
#[derive(Drop)]
pub struct Code {
    pub matrix: Matrix<Gf>,
    /// As many bytes for each column as the matrix has rows.
    pub columns: Vec<u8>,
    ghost laid_out: { AreColumns matrix columns.items },
}

/// The columns of a matrix, one behind the other. Want of memory is the only error.
pub fn columns(alloc: Global, matrix: &Matrix<Gf>) -> Result<Vec<u8>, AllocError>
    ensures { IfOk result (λ v. AreColumns matrix.now v.items) }
{
    let mut columns = Vec::from_elem(alloc, 0u8, matrix.cols() * matrix.rows())?;
    write_columns(matrix, &mut columns);
    Ok(columns)
}

// Writes the columns of a matrix one behind the other.
fn write_columns(matrix: &Matrix<Gf>, columns: &mut [u8])
    requires { length columns.old ≡ matrix.now.cols * matrix.now.rows }
    ensures { AreColumns matrix.now columns.new }
{
    let count = matrix.rows();
    for j in 0..matrix.cols() {
        for i in 0..count {
            columns[j * count + i] = matrix.get(i, j).0;
        }
    }
    are_bytes(columns);
}

impl Code {
    /// The code of a matrix. Want of memory is the only error.
    pub fn new(alloc: Global, matrix: Matrix<Gf>) -> Result<Code, AllocError>
        ensures { IfOk result (λ c. c.matrix ≡ matrix) }
    {
        let columns = columns(alloc, &matrix)?;
        Ok(Code { matrix, columns })
    }
}
