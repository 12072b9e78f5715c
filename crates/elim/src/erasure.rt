//! Source symbols that are missing, and the repair symbols that give them back.
ghost use Rattle.std.specs.Prelude.{◌≡◌, ◌<◌, ◌≤◌, ℕ, IfOk, length, slice_index};
ghost use Rattle.lists.specs.Bytes.{IsByte};
ghost use Rattle.elim.specs.Generator.{Encodes};
ghost use Rattle.elim.specs.Erasures.{AreErasures, Recovers, part_entry};
ghost use Rattle.elim.specs.Grid.{HasShape, IsMatrixOf};

use crate::eliminate::{ElimError, invert};
use crate::matrix::Matrix;
use gf256::Gf;
use std::alloc::{AllocError, Global};

// The entries of `m` in these rows and columns.
fn part(alloc: Global, m: &Matrix<Gf>, rows: &[u8], cols: &[u8]) -> Result<Matrix<Gf>, AllocError>
    requires some_rows { 0 < length rows.now }
    requires few_rows { length rows.now ≤ 255 }
    requires some_cols { 0 < length cols.now }
    requires few_cols { length cols.now ≤ 255 }
    requires rows { (i : ℕ) → i < length rows.now → slice_index rows.now i < m.now.rows }
    requires cols { (j : ℕ) → j < length cols.now → slice_index cols.now j < m.now.cols }
    ensures { IfOk result
        (IsMatrixOf IsByte 0 (length rows.now) (length cols.now)
        (part_entry m.now rows.now cols.now)) }
{
    let mut made = Matrix::try_new(alloc, rows.len(), cols.len())?;
    for i in 0..rows.len() {
        for j in 0..cols.len() {
            made.set(i, j, m.get(rows[i] as usize, cols[j] as usize));
        }
    }
    Ok(made)
}

/// The matrix that makes a block's missing source symbols of as many repair symbols, once the
/// source symbols that came are taken out of them, for decoding (RFC 5510, section 8.3): the
/// inverse of the generator matrix's part in the missing rows and the repair columns, both given as
/// rising ESIs. It has as many rows and columns as there are missing: one at least. Want of memory
/// is the only error.
pub fn recovery(
    alloc: Global,
    generator: &Matrix<Gf>,
    missing: &[u8],
    repair: &[u8],
) -> Result<Matrix<Gf>, AllocError>
    requires code { Encodes generator.now.rows generator.now.cols generator.now }
    requires erasures { AreErasures generator.now.rows generator.now.cols missing.now repair.now }
    ensures shape { IfOk result (HasShape (length missing.now) (length missing.now)) }
    ensures recovers { IfOk result (Recovers generator.now missing.now repair.now) }
{
    // with its counts comes what is true of each matrix: at most 255 columns, and bytes in them
    let _rows = generator.rows();
    let part = part(alloc, generator, missing, repair)?;
    match invert(alloc, &part) {
        Ok(inverse) => Ok(inverse),
        Err(ElimError::NoMemory) => Err(AllocError),
        Err(ElimError::Singular) => unreachable!(),
    }
}
