//! A block's missing source symbols, made of as many repair symbols, and whether the symbols that
//! weren't used are those that the source symbols give.
ghost use Rattle.std.specs.Prelude.{◌≡◌, ◌<◌, ◌≤◌, ℕ, length, slice_index, IfOk, OnOk};
ghost use Rattle.gf256.specs.Arithmetic.{sum_of};
ghost use Rattle.elim.specs.Generator.{Encodes};
ghost use Rattle.elim.specs.Erasures.{AreErasures, AreRising};
ghost use Rattle.block_recovery.specs.Rows.{byte_in, HasSizes, SameSizes};
ghost use Rattle.block_recovery.specs.Blocks.{bytes_of_esi, byte_of, given, AreCoefficients};
ghost use Rattle.block_recovery.specs.Erasures.{Keeps, AreSolved};
ghost use Rattle.block_recovery.specs.Recoveries.{MayServe, StaysOrIsOf};

use crate::block::Block;
use crate::recovery::Recovery;
use crate::rows::Rows;
use block_code::Code;
use std::alloc::{AllocError, Global};

/// The symbols at these ESIs as rows, and zeros where none came.
pub(crate) fn symbols_at(alloc: Global, block: &Block<'_>, esis: &[u8]) -> Result<Rows, AllocError>
    requires few { length esis.now ≤ 255 }
    requires within { (m : ℕ) → m < length esis.now
        → slice_index esis.now m < block.now.code.now.matrix.cols }
    ensures sizes { IfOk result (HasSizes (length esis.now) block.now.size) }
    ensures symbols { IfOk result (λ rows. (m c : ℕ)
        → m < length esis.now → c < block.now.size
        → byte_in rows m c
        ≡ byte_of (bytes_of_esi block.now.received.now (slice_index esis.now m)) c) }
{
    let mut bytes = Vec::with_capacity(alloc, esis.len() * block.size)?;
    for m in 0..esis.len() {
        match block.received[usize::from(esis[m])] {
            Some(symbol) => bytes.extend_from_slice(symbol)?,
            None => bytes.resize((m + 1) * block.size, 0)?,
        }
    }
    Ok(Rows {
        bytes,
        size: block.size,
        count: esis.len(),
    })
}

// The coefficients of the encoding symbols at these ESIs.
fn coefficients_at(alloc: Global, code: &Code, esis: &[u8]) -> Result<Vec<u8>, AllocError>
    requires few { length esis.now ≤ 255 }
    requires within { (m : ℕ) → m < length esis.now
        → slice_index esis.now m < code.now.matrix.cols }
    ensures { IfOk result (λ v. AreCoefficients code.now.matrix esis.now v.items) }
{
    let k = code.matrix.rows();
    let mut coefficients = Vec::with_capacity(alloc, esis.len() * k)?;
    for m in 0..esis.len() {
        let from = usize::from(esis[m]) * k;
        coefficients.extend_from_slice(&code.columns[from..from + k])?;
    }
    Ok(coefficients)
}

/// What is left of the symbols at these ESIs when what the rows give there is taken away.
pub(crate) fn residuals(
    alloc: Global,
    block: &Block<'_>,
    esis: &[u8],
    rows: &Rows,
) -> Result<Rows, AllocError>
    requires few { length esis.now ≤ 255 }
    requires within { (m : ℕ) → m < length esis.now
        → slice_index esis.now m < block.now.code.now.matrix.cols }
    requires rows { HasSizes block.now.code.now.matrix.rows block.now.size rows.now }
    ensures sizes { IfOk result (HasSizes (length esis.now) block.now.size) }
    ensures sums { IfOk result (λ sums. (m c : ℕ) → m < length esis.now → c < block.now.size
        → byte_in sums m c
        ≡ sum_of (byte_of (bytes_of_esi block.now.received.now (slice_index esis.now m)) c)
        (given block.now.code.now.matrix (λ i. byte_in rows.now i c) (slice_index esis.now m))) }
{
    let mut sums = symbols_at(alloc, block, esis)?;
    let coefficients = coefficients_at(alloc, block.code, esis)?;
    rows.are_bytes();
    sums.add_products(&coefficients, rows);
    Ok(sums)
}

// Puts rows at these places, which rise.
fn put_rows(rows: &mut Rows, places: &[u8], others: &Rows)
    requires places { (a : ℕ) → a < length places.now
        → slice_index places.now a < rows.old.count }
    requires rise { AreRising places.now }
    requires others { HasSizes (length places.now) rows.old.size others.now }
    ensures sizes { SameSizes rows.old rows.new }
    ensures here { (a c : ℕ) → a < length places.now → c < rows.old.size
        → byte_in rows.new (slice_index places.now a) c ≡ byte_in others.now a c }
    ensures elsewhere { Keeps places.now rows.old.size (byte_in rows.old) (byte_in rows.new) }
{
    for a in 0..places.len() {
        rows.put(usize::from(places[a]), others.row(a));
    }
}

/// Works missing source symbols out of as many repair symbols, and puts them at their places, which
/// are empty. Till then the repair symbols stand there, so that all that a missing symbol is made
/// of are the rows. What recovers them is kept for the next block.
pub(crate) fn solve(
    alloc: Global,
    block: &Block<'_>,
    missing: &[u8],
    repair: &[u8],
    rows: &mut Rows,
    kept: &mut Option<Recovery>,
) -> Result<(), AllocError>
    requires code { Encodes block.now.code.now.matrix.rows block.now.code.now.matrix.cols
        block.now.code.now.matrix }
    requires erasures { 0 < length missing.now → AreErasures block.now.code.now.matrix.rows
        block.now.code.now.matrix.cols missing.now repair.now }
    requires count { length repair.now ≡ length missing.now }
    requires kept { MayServe block.now.code.now.matrix kept.old }
    requires rows { HasSizes block.now.code.now.matrix.rows block.now.size rows.old }
    requires empty { (a c : ℕ) → a < length missing.now → c < block.now.size
        → byte_in rows.old (slice_index missing.now a) c ≡ 0 }
    ensures sizes { SameSizes rows.old rows.new }
    ensures solved { OnOk result (AreSolved (bytes_of_esi block.now.received.now)
        missing.now repair.now block.now.size block.now.code.now.matrix
        (byte_in rows.old) (byte_in rows.new)) }
    ensures keeps { StaysOrIsOf block.now.code.now.matrix kept.old kept.new }
{
    if missing.is_empty() {
        return Ok(());
    }
    let recovery = Recovery::of(alloc, block.code, missing, repair, kept.take())?;
    rows.are_bytes();
    let symbols = symbols_at(alloc, block, repair)?;
    symbols.are_bytes();
    put_rows(rows, missing, &symbols);
    rows.are_bytes();
    let mut solved = Rows::zeros(alloc, missing.len(), block.size)?;
    solved.add_products(&recovery.coefficients, rows);
    *kept = Some(recovery);
    put_rows(rows, missing, &solved);
    rows.are_bytes();
    Ok(())
}
