//! Inverses, by elimination of rows.
ghost use Rattle.std.specs.Prelude.{◌≡◌, ◌≢◌, ◌<◌, ◌≤◌, ◌+◌, ℕ, IfOk, IfErr, IfSome, OnOk, IsNone};
ghost use Rattle.elim.specs.Steps.{SameSolutions, HasUnitColumns, system_of};
ghost use Rattle.elim.specs.Grid.{entry, HasElements, HasShape, AreInverse, IsSingular};
ghost use Rattle.elim.specs.declared.eliminate.ElimError.{ElimError};

use crate::combine::{identity, transposed};
use crate::matrix::Matrix;
use gf256::Field;
use std::alloc::{AllocError, Global};
use thiserror::Error;

/// Why there is no inverse.
#[derive(Debug, Clone, Copy, PartialEq, Eq, Error)]
pub enum ElimError {
    /// Some row that isn't zero, times the matrix, is zero.
    #[error("E1 Singular")]
    Singular,
    /// There is no memory.
    #[error("E2 NoMemory")]
    NoMemory,
}

impl From<AllocError> for ElimError {
    ghost use Rattle.std.specs.Prelude.{◌≡◌};
    ghost use Rattle.elim.specs.declared.eliminate.ElimError.TheVariants.{NoMemory};

    ghost from_gives = { λ _ e. e ≡ NoMemory };

    fn from(_: AllocError) -> ElimError {
        ElimError::NoMemory
    }
}

// A row from `p` on with an entry in column `p` that isn't zero, and that entry's inverse.
fn pivot<F: Field>(work: &Matrix<F>, p: usize) -> Option<(usize, F)>
    requires row { p < work.now.rows }
    requires column { p < work.now.cols }
    ensures below { IfSome result (λ r. p ≤ r.0) }
    ensures inside { IfSome result (λ r. r.0 < work.now.rows) }
    ensures inverse { IfSome result (λ r. F.product (entry F.ZERO work.now r.0 p) r.1 ≡ F.ONE) }
    ensures fits { IfSome result (λ r. F.element r.1) }
    ensures none { IsNone result
        → (i : ℕ)
        → p ≤ i
        → i < work.now.rows
        → entry F.ZERO work.now i p ≡ F.ZERO }
{
    for i in p..work.rows() {
        if let Some(inverse) = work.get(i, p).inv() {
            return Some((i, inverse));
        }
    }
    None
}

// Brings row `q` to place `p` and makes its entry in column `p` one.
fn normalize<F: Field>(work: &mut Matrix<F>, right: &mut Matrix<F>, p: usize, q: usize, inverse: F)
    requires work { HasShape work.old.rows work.old.rows work.old }
    requires right { HasShape work.old.rows work.old.rows right.old }
    requires below { p ≤ q }
    requires row { q < work.old.rows }
    requires inverse { F.product (entry F.ZERO work.old q p) inverse ≡ F.ONE }
    requires fits { F.element inverse }
    requires work_elements { HasElements F.element F.ZERO work.old }
    ensures work { HasShape work.old.rows work.old.rows work.new }
    ensures right { HasShape work.old.rows work.old.rows right.new }
    ensures work_elements { HasElements F.element F.ZERO work.new }
    ensures right_elements { HasElements F.element F.ZERO right.new }
    ensures same { SameSolutions F.element F.sum F.product F.ZERO work.old.rows
        (system_of F.ZERO work.old right.old) (system_of F.ZERO work.new right.new) }
    ensures kept { HasUnitColumns F.ZERO F.ONE work.old.rows p (entry F.ZERO work.old)
        → HasUnitColumns F.ZERO F.ONE work.old.rows p (entry F.ZERO work.new) }
    ensures one { entry F.ZERO work.new p p ≡ F.ONE }
{
    work.swap_rows(p, q);
    right.swap_rows(p, q);
    work.scale_row(p, inverse);
    right.scale_row(p, inverse);
}

// Takes column `p` out of all rows but row `p`, whose entry there is one.
fn clear<F: Field>(work: &mut Matrix<F>, right: &mut Matrix<F>, p: usize)
    requires work { HasShape work.old.rows work.old.rows work.old }
    requires right { HasShape work.old.rows work.old.rows right.old }
    requires row { p < work.old.rows }
    requires one { entry F.ZERO work.old p p ≡ F.ONE }
    requires work_elements { HasElements F.element F.ZERO work.old }
    requires right_elements { HasElements F.element F.ZERO right.old }
    ensures work { HasShape work.old.rows work.old.rows work.new }
    ensures right { HasShape work.old.rows work.old.rows right.new }
    ensures work_elements { HasElements F.element F.ZERO work.new }
    ensures right_elements { HasElements F.element F.ZERO right.new }
    ensures same { SameSolutions F.element F.sum F.product F.ZERO work.old.rows
        (system_of F.ZERO work.old right.old) (system_of F.ZERO work.new right.new) }
    ensures cleared { HasUnitColumns F.ZERO F.ONE work.old.rows p (entry F.ZERO work.old)
        → HasUnitColumns F.ZERO F.ONE work.old.rows (p + 1) (entry F.ZERO work.new) }
{
    let rows = work.rows();
    for i in 0..rows {
        if i != p {
            let c = work.get(i, p);
            work.add_row(i, c, p);
            right.add_row(i, c, p);
        }
    }
}

/// The inverse of a square matrix, on both sides, of as many rows and columns.
///
/// The error is `Singular` exactly where some row that isn't zero, times the matrix, is zero, or
/// `NoMemory`.
/// Columns are eliminated, as rows of the transposed matrix, so that such a row is at hand.
pub fn invert<F: Field>(alloc: Global, m: &Matrix<F>) -> Result<Matrix<F>, ElimError>
    requires { m.now.cols ≡ m.now.rows }
    ensures shape { IfOk result (HasShape m.now.rows m.now.rows) }
    ensures inverse { IfOk result (AreInverse F.sum F.product F.ZERO F.ONE m.now) }
    ensures regular { OnOk result (¬ IsSingular F.element F.sum F.product F.ZERO m.now) }
    ensures singular { IfErr result (λ e.
        e ≡ ElimError.Singular
        → IsSingular F.element F.sum F.product F.ZERO m.now) }
    ensures elements { IfOk result (HasElements F.element F.ZERO) }
{
    let size = m.rows();
    let mut work = transposed(alloc, m)?;
    let mut right = identity(alloc, size)?;
    for p in 0..size {
        let Some((q, inverse)) = pivot(&work, p) else {
            return Err(ElimError::Singular);
        };
        normalize(&mut work, &mut right, p, q, inverse);
        clear(&mut work, &mut right, p);
    }
    let made = transposed(alloc, &right)?;
    Ok(made)
}
