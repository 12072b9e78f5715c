//! Matrices made of other values.
ghost use Rattle.std.specs.Prelude.{◌≡◌, ◌≢◌, ◌<◌, ◌≤◌, ℕ, IfOk, OnOk, All, length};
ghost use Rattle.poly.specs.Polynomial.{AreDifferent};
ghost use Rattle.elim.specs.Matrices.{identity_entry};
ghost use Rattle.elim.specs.Vandermonde.{vandermonde_entry};
ghost use Rattle.elim.specs.Grid.{entry, product_entry, HasElements, HasShape, IsMatrixOf};
ghost use Rattle.elim.specs.Grid.{IsSingular};

use crate::matrix::Matrix;
use gf256::Field;
use std::alloc::{AllocError, Global};

/// A matrix of `m`'s entries, with rows for columns.
pub(crate) fn transposed<F: Field>(alloc: Global, m: &Matrix<F>) -> Result<Matrix<F>, AllocError>
    ensures { IfOk result
        (IsMatrixOf F.element F.ZERO m.now.cols m.now.rows (λ i j. entry F.ZERO m.now j i)) }
{
    let rows = m.cols();
    let cols = m.rows();
    let mut made = Matrix::try_new(alloc, rows, cols)?;
    for i in 0..rows {
        for j in 0..cols {
            made.set(i, j, m.get(j, i));
        }
    }
    Ok(made)
}

/// One on the diagonal and zero elsewhere.
pub(crate) fn identity<F: Field>(alloc: Global, size: usize) -> Result<Matrix<F>, AllocError>
    requires some { 0 < size }
    requires few { size ≤ 255 }
    ensures { IfOk result
        (IsMatrixOf F.element F.ZERO size size (identity_entry F.ZERO F.ONE)) }
{
    let mut made = Matrix::try_new(alloc, size, size)?;
    for i in 0..size {
        for j in 0..size {
            made.set(i, j, if i == j { F::ONE } else { F::ZERO });
        }
    }
    Ok(made)
}

/// The matrix product `a * b`, of a's rows and b's columns, where `a` has as many columns as `b`
/// rows. Want of memory is the only error.
pub fn product<F: Field>(
    alloc: Global,
    a: &Matrix<F>,
    b: &Matrix<F>,
) -> Result<Matrix<F>, AllocError>
    requires { a.now.cols ≡ b.now.rows }
    ensures { IfOk result
        (IsMatrixOf F.element F.ZERO a.now.rows b.now.cols
        (product_entry F.sum F.product F.ZERO a.now b.now)) }
{
    let rows = a.rows();
    let cols = b.cols();
    let mut made = Matrix::try_new(alloc, rows, cols)?;
    for i in 0..rows {
        for m in 0..a.cols() {
            made.add_row_of(i, a.get(i, m), b, m);
        }
    }
    Ok(made)
}

/// The Vandermonde matrix of `k` rows, 1 to 255, and a column for each of 1 to 255 points: row `i`
/// has each point to the power `i`. A square one of different points isn't singular. Want of memory
/// is the only error.
pub fn vandermonde<F: Field>(alloc: Global, points: &[F], k: usize) -> Result<Matrix<F>, AllocError>
    requires some_points { 0 < length points.now }
    requires few_points { length points.now ≤ 255 }
    requires some_rows { 0 < k }
    requires few_rows { k ≤ 255 }
    ensures matrix { IfOk result
        (IsMatrixOf F.element F.ZERO k (length points.now)
        (vandermonde_entry F.product F.ZERO F.ONE points.now)) }
    ensures regular { IfOk result (λ m.
        length points.now ≡ k
        → All F.element points.now
        → AreDifferent points.now
        → ¬ IsSingular F.element F.sum F.product F.ZERO m) }
{
    let cols = points.len();
    let mut made = Matrix::try_new(alloc, k, cols)?;
    for i in 0..k {
        for j in 0..cols {
            let value = if i == 0 {
                F::ONE
            } else {
                let point = points[j];
                point.is_element();
                point.mul(made.get(i - 1, j))
            };
            made.set(i, j, value);
        }
    }
    Ok(made)
}
