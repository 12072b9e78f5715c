//! One block of a check: the object's bytes there beside the certificate's symbols.
ghost use Rattle.std.specs.Prelude.{◌≡◌, ◌<◌, ◌≤◌, ◌+◌, ◌*◌, ℕ, List, Some, Ok, None, false};
ghost use Rattle.std.specs.Prelude.{length, IfSome, IsNone, OnOk, OnErr};
ghost use Rattle.partition.specs.Fti.{block_count, source_count, encoding_count};
ghost use Rattle.certificate.specs.BlockSymbols.{AreSymbols};
ghost use Rattle.certificate.specs.Certificate.{Certificate as CertificateValue, IsCertificate};
ghost use Rattle.certificate.specs.CoefficientRows.{AreRowsOf};
ghost use Rattle.cert.specs.NotGiven.{IsFirstInBlock};
ghost use Rattle.cert.specs.Verdict.{GivesBlock};
ghost use Rattle.file_check.specs.Blocks.{AreSourceOf};

use certified_symbols::first_difference;
use evaluation::evaluate;
use partition::Fti;
use reception::{Look, Scope};
use session::{Extent, Failed};
use streams::{ReadAt, fill_at};

/// A symbol that isn't the certified one: the place of its datagram, and the least such column.
#[derive(Clone, Copy)]
pub(crate) struct Wrong {
    pub(crate) place: usize,
    pub(crate) column: usize,
}

/// Reads the object's bytes in a block, with zeros behind its end. `Failed` tells that the file has
/// failed, or has changed.
pub(crate) fn read_source<O: ReadAt>(
    object: &O,
    fti: &Fti,
    block: u32,
    bytes: &mut [u8],
) -> Result<(), Failed>
    requires block { block < block_count fti.now }
    requires size { length bytes.old ≡ source_count fti.now block * fti.now.symbol_length }
    ensures source { (o : List ℕ) → O.content object.now ≡ Some o
        → OnOk result (AreSourceOf fti.now o block bytes.new) }
    ensures len { length bytes.new ≡ length bytes.old }
    ensures lost { OnErr result ((o : List ℕ) → O.content object.now ≡ Some o
        → length o ≡ fti.now.transfer_length → O.reliable object.now ≡ false) }
{
    let from = fti.start(block) * u64::from(fti.symbol_length());
    let left = fti.transfer_length().saturating_sub(from);
    let count = fill_at(object, from, bytes)?;
    if (count as u64) < left && count < bytes.len() {
        return Err(Failed);
    }
    bytes[count..].fill(0);
    Ok(())
}

/// Makes all symbols of a block of these rows of coefficients, one behind the other.
pub(crate) fn make_symbols(fti: &Fti, block: u32, rows: &[u8], symbols: &mut [u8])
    requires block { block < block_count fti.now }
    requires rows { length rows.now ≡ source_count fti.now block * fti.now.symbol_length }
    requires size { length symbols.old
        ≡ encoding_count fti.now block * fti.now.symbol_length }
    ensures symbols { (z : CertificateValue) → IsCertificate z → z.fti ≡ fti.now
        → AreRowsOf z block rows.now
        → AreSymbols z block 0 (encoding_count fti.now block) symbols.new }
    ensures len { length symbols.new ≡ length symbols.old }
{
    let width = usize::from(fti.symbol_length());
    evaluate(symbols, 0, fti.n(block), rows, fti.k(block), width);
}

/// The least column of a block in which the certificate's source symbols aren't the object's, and
/// the least symbol there.
pub(crate) fn first_not_given(
    fti: &Fti,
    block: u32,
    symbols: &[u8],
    source: &[u8],
) -> Option<(usize, usize)>
    requires block { block < block_count fti.now }
    requires symbols { source_count fti.now block * fti.now.symbol_length ≤ length symbols.now }
    requires source { length source.now ≡ source_count fti.now block * fti.now.symbol_length }
    ensures none { (o : List ℕ) (z : CertificateValue) → z.fti ≡ fti.now
        → AreSourceOf fti.now o block source.now
        → AreSymbols z block 0 (encoding_count fti.now block) symbols.now
        → IsNone result → GivesBlock o z block }
    ensures some { (o : List ℕ) (z : CertificateValue) → z.fti ≡ fti.now
        → AreSourceOf fti.now o block source.now
        → AreSymbols z block 0 (encoding_count fti.now block) symbols.now
        → IfSome result (λ w. IsFirstInBlock o z block w.0 w.1) }
{
    let width = usize::from(fti.symbol_length());
    // As many columns are right in all symbols so far; the next isn't in this symbol, the first of
    // them.
    let mut right = width;
    let mut symbol = 0;
    for i in 0..fti.k(block) {
        let from = i * width;
        let row = &symbols[from..from + width];
        if let Some(column) = first_difference(row, &source[from..from + width]) {
            if column < right {
                right = column;
                symbol = i;
            }
        }
    }
    if right < width {
        Some((right, symbol))
    } else {
        None
    }
}
