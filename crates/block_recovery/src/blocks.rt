//! The source symbols of a block, made of the symbols that came at its ESIs.
ghost use Rattle.std.specs.Prelude.{◌≡◌, ◌≢◌, ◌<◌, ◌≤◌, ℕ, None, true, false, length, IfOk};
ghost use Rattle.std.specs.Prelude.{IfSome, IsNone};
ghost use Rattle.partition.specs.Fti.{block_count, source_count, encoding_count, source_place};
ghost use Rattle.block_code.specs.Codes.{EachBlockHas};
ghost use Rattle.block_code.specs.CodesOf.{IsCodeOf};
ghost use Rattle.block_recovery.specs.Blocks.{bytes_of_esi, HaveLength};
ghost use Rattle.block_recovery.specs.Decoded.{AreWithin, IsEnoughAt, AreRows, IsUnexplained};
ghost use Rattle.block_recovery.specs.Received.{bytes_at};
ghost use Rattle.block_recovery.specs.Recoveries.{IsKeptOf};
ghost use Rattle.block_recovery.specs.Rows.{byte_in, HasSizes};

use crate::arrivals::symbols_below;
use crate::block::Block;
use crate::erasure::{erasure_of, source_esis};
use crate::padding::may_be_padded;
use crate::received::Received;
use crate::recovering::{residuals, solve, symbols_at};
use crate::recovery::Recovery;
use crate::rows::{Rows, is_zero};
use block_code::BlockCodes;
use lists::are_bytes;
use partition::Fti;
use std::alloc::{AllocError, Global};

// Whether a block's rows are zero past the object's end.
fn are_padded(fti: &Fti, b: u32, rows: &Rows) -> bool
    requires number { b < block_count fti.now }
    requires sizes { HasSizes (source_count fti.now b) fti.now.symbol_length rows.now }
    ensures zero { result ≡ true → (i c : ℕ) → i < source_count fti.now b
        → c < fti.now.symbol_length → fti.now.transfer_length ≤ source_place fti.now b i c
        → byte_in rows.now i c ≡ 0 }
    ensures other { result ≡ false → (i c : ℕ) × (i < source_count fti.now b)
        × (c < fti.now.symbol_length) × (fti.now.transfer_length ≤ source_place fti.now b i c)
        × (byte_in rows.now i c ≢ 0) }
{
    is_zero(&rows.bytes[fti.block_bytes(b)..])
}

/// A block's source symbols, if all that came of it are symbols of an object. `arrivals` has a
/// place for each of the block's ESIs.
pub fn block_rows(
    alloc: Global,
    fti: &Fti,
    codes: &BlockCodes,
    b: u32,
    arrivals: &[Option<&[u8]>],
    kept: &mut Option<Recovery>,
) -> Result<Option<Rows>, AllocError>
    requires number { b < block_count fti.now }
    requires codes { EachBlockHas (IsCodeOf fti.now) fti.now codes.now }
    requires count { length arrivals.now ≡ encoding_count fti.now b }
    requires symbols { HaveLength fti.now.symbol_length (bytes_of_esi arrivals.now) }
    requires enough { IsEnoughAt fti.now b (bytes_of_esi arrivals.now) }
    requires kept { IsKeptOf codes.now kept.old }
    ensures sizes { IfOk result
        (λ o. IfSome o (HasSizes (source_count fti.now b) fti.now.symbol_length)) }
    ensures rows { IfOk result (λ o. IfSome o
        (λ rows. AreRows fti.now b (bytes_of_esi arrivals.now) rows.bytes.items)) }
    ensures none { IfOk result
        (λ o. IsNone o → IsUnexplained fti.now b (bytes_of_esi arrivals.now)) }
    ensures keeps { IsKeptOf codes.now kept.new }
{
    if !may_be_padded(alloc, fti, b, arrivals)? {
        return Ok(None);
    }
    let k = fti.k(b);
    let code = codes.of(k);
    prove!(arrivals.len() == code.matrix.cols());
    let block = Block {
        received: arrivals,
        size: usize::from(fti.symbol_length()),
        code,
    };
    let mut rows = symbols_at(alloc, &block, &source_esis(alloc, k)?)?;
    let erasure = erasure_of(alloc, arrivals, k)?;
    let (used, others) = erasure.repair.split_at(erasure.missing.len());
    solve(alloc, &block, &erasure.missing, used, &mut rows, kept)?;
    let left = residuals(alloc, &block, others, &rows)?;
    if !is_zero(&left.bytes) {
        return Ok(None);
    }
    are_bytes(&rows.bytes);
    if are_padded(fti, b, &rows) {
        Ok(Some(rows))
    } else {
        Ok(None)
    }
}

/// The source symbols of a block of what was received, if all that came of it are symbols of an
/// object.
pub fn received_rows(
    alloc: Global,
    received: &Received<'_>,
    codes: &BlockCodes,
    b: u32,
    kept: &mut Option<Recovery>,
) -> Result<Option<Rows>, AllocError>
    requires number { b < block_count received.now.fti }
    requires codes { EachBlockHas (IsCodeOf received.now.fti) received.now.fti codes.now }
    requires within { AreWithin received.now.fti (bytes_at received.now.symbols) }
    requires enough { IsEnoughAt received.now.fti b (bytes_at received.now.symbols b) }
    requires kept { IsKeptOf codes.now kept.old }
    ensures rows { IfOk result (λ o. IfSome o (λ rows.
        AreRows received.now.fti b (bytes_at received.now.symbols b) rows.bytes.items)) }
    ensures none { IfOk result (λ o. IsNone o
        → IsUnexplained received.now.fti b (bytes_at received.now.symbols b)) }
    ensures keeps { IsKeptOf codes.now kept.new }
{
    let fti = &received.fti;
    let came = received.symbols.of_block(b).unwrap_or(&[]);
    let arrivals = symbols_below(alloc, came, fti.n(b))?;
    block_rows(alloc, fti, codes, b, &arrivals, kept)
}
