//! Whether a block's source symbols give a symbol at an ESI.
ghost use Rattle.std.specs.Prelude.{◌≡◌, ◌<◌, ◌↔◌, ℕ, length, slice_index, IfOk, IsTrue};
ghost use Rattle.gf256.specs.Arithmetic.{sum_of};
ghost use Rattle.partition.specs.Fti.{block_count, source_count, encoding_count};
ghost use Rattle.block_code.specs.Codes.{EachBlockHas};
ghost use Rattle.block_code.specs.CodesOf.{IsCodeOf};
ghost use Rattle.block_recovery.specs.Blocks.{given};
ghost use Rattle.block_recovery.specs.Giving.{GivesSymbol};
ghost use Rattle.block_recovery.specs.Rows.{byte_in, HasSizes};

use crate::rows::{Rows, is_zero};
use block_code::{BlockCodes, Code};
use partition::Fti;
use std::alloc::{AllocError, Global};

// What is left of a symbol when what the rows give at its ESI is taken away: one row.
fn residual(
    alloc: Global,
    code: &Code,
    rows: &Rows,
    esi: u8,
    symbol: &[u8],
) -> Result<Rows, AllocError>
    requires esi { esi < code.now.matrix.cols }
    requires count { rows.now.count ≡ code.now.matrix.rows }
    requires len { length symbol.now ≡ rows.now.size }
    ensures sizes { IfOk result (HasSizes 1 rows.now.size) }
    ensures sums { IfOk result (λ sum. (c : ℕ) → c < rows.now.size
        → byte_in sum 0 c ≡ sum_of (slice_index symbol.now c)
        (given code.now.matrix (λ i. byte_in rows.now i c) esi)) }
{
    let from = usize::from(esi) * rows.count;
    let mut sum = Rows::zeros(alloc, 1, rows.size)?;
    sum.put(0, symbol);
    rows.are_bytes();
    sum.add_products(&code.columns[from..from + rows.count], rows);
    Ok(sum)
}

/// Whether a block's rows give this symbol at an ESI of the block: below k it is a row, else a sum
/// of them.
pub fn gives(
    alloc: Global,
    fti: &Fti,
    codes: &BlockCodes,
    b: u32,
    rows: &Rows,
    esi: u8,
    symbol: &[u8],
) -> Result<bool, AllocError>
    requires number { b < block_count fti.now }
    requires codes { EachBlockHas (IsCodeOf fti.now) fti.now codes.now }
    requires esi { esi < encoding_count fti.now b }
    requires sizes { HasSizes (source_count fti.now b) fti.now.symbol_length rows.now }
    requires len { length symbol.now ≡ fti.now.symbol_length }
    ensures { IfOk result (λ v. IsTrue v
        ↔ GivesSymbol fti.now b rows.now.bytes.items esi symbol.now) }
{
    rows.are_bytes();
    let place = usize::from(esi);
    if place < rows.count {
        return Ok(rows.row(place) == symbol);
    }
    let code = codes.of(fti.k(b));
    let left = residual(alloc, code, rows, esi, symbol)?;
    Ok(is_zero(&left.bytes))
}
