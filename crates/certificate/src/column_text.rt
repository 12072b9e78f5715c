//! Coefficients column by column, as the text of a certificate without a name has them.
ghost use Rattle.std.specs.Prelude.{◌≡◌, ◌<◌, ◌≤◌, ◌*◌, ◌+◌, ℕ, None, true, slice_index, take};
ghost use Rattle.std.specs.Prelude.{length, OnOk, OnErr, IfOk};
ghost use Rattle.std.specs.Io.KnownBytes.{Appends};
ghost use Rattle.session.specs.Pieces.{AppendsSome};
ghost use Rattle.partition.specs.Fti.{source_count, block_count, start_of, source_place};
ghost use Rattle.certificate.specs.Certificate.{polynomial, block_columns, coefficients_text};
ghost use Rattle.certificate.specs.Certificate.{coefficient_count, unnamed};
ghost use Rattle.certificate.specs.CoefficientRows.{text_place};

use crate::certificate::Certificate;
use partition::Fti;
use session::{Failed, Write, write_all};
use std::alloc::{AllocError, Global};
use transpose::rows_from_columns;

/// Turns columns at the front of bytes into rows at the front of others: byte `i` of column `c`
/// comes to place `c` of row `i`.
pub(crate) fn turn_front(rows: &mut [u8], columns: &[u8], count: usize, width: usize)
    requires rows { count * width ≤ length rows.old }
    requires columns { count * width ≤ length columns.now }
    ensures len { length rows.new ≡ length rows.old }
    ensures turned { (i c : ℕ) → i < count → c < width
        → slice_index rows.new (i * width + c) ≡ slice_index columns.now (c * count + i) }
{
    let size = count * width;
    rows_from_columns(&mut rows[..size], &columns[..size], count, width);
}

// Turns the columns of a block, where they stand in a text, into rows, where a certificate has
// them.
fn turn_block(rows: &mut [u8], text: &[u8], fti: &Fti, b: u32)
    requires block { b < block_count fti.now }
    requires rows { length rows.old ≡ coefficient_count fti.now }
    requires text { length text.now ≡ coefficient_count fti.now }
    ensures len { length rows.new ≡ length rows.old }
    ensures turned { (i c : ℕ) → i < source_count fti.now b → c < fti.now.symbol_length
        → slice_index rows.new (source_place fti.now b i c)
        ≡ slice_index text.now (text_place fti.now b c i) }
    ensures before { (p : ℕ) → p < start_of fti.now b * fti.now.symbol_length
        → slice_index rows.new p ≡ slice_index rows.old p }
{
    let width = usize::from(fti.symbol_length());
    let from = fti.start(b) as usize * width;
    turn_front(&mut rows[from..], &text[from..], fti.k(b), width);
}

/// The rows of coefficients that stand column by column in a text.
pub(crate) fn rows_of(alloc: Global, fti: &Fti, text: &[u8]) -> Result<Vec<u8>, AllocError>
    requires { length text.now ≡ coefficient_count fti.now }
    ensures len { IfOk result (λ v. length v.items ≡ coefficient_count fti.now) }
    ensures text { IfOk result
        (λ v. text.now ≡ coefficients_text None (unnamed fti.now v.items)) }
{
    let mut rows = Vec::from_elem(alloc, 0u8, text.len())?;
    for b in 0..fti.block_count() {
        turn_block(&mut rows, text, fti, b);
    }
    Ok(rows)
}

// Puts a column's polynomial at the front of `out`, and answers how many coefficients it has.
fn put_polynomial(certificate: &Certificate, b: u32, c: usize, out: &mut [u8]) -> usize
    requires block { b < block_count certificate.now.fti }
    requires column { c < certificate.now.fti.symbol_length }
    requires room { length out.old ≡ 255 }
    ensures few { result ≤ 255 }
    ensures len { length out.new ≡ 255 }
    ensures polynomial { take result out.new ≡ polynomial certificate.now b c }
{
    let count = certificate.fti().k(b);
    for i in 0..count {
        out[i] = certificate.coefficient(b, c, i);
    }
    count
}

// Writes a block's coefficients column by column.
fn write_block<W: Write>(certificate: &Certificate, b: u32, writer: &mut W) -> Result<(), Failed>
    requires { b < block_count certificate.now.fti }
    ensures ok { OnOk result (Appends (W.contents writer.old) (W.contents writer.new)
        (block_columns certificate.now b)) }
    ensures err { OnErr result (AppendsSome (W.contents writer.old) (W.contents writer.new)
        (block_columns certificate.now b)) }
    ensures fails { OnErr result (W.failed writer.new ≡ true) }
    ensures full { OnErr result (W.room writer.old < length (block_columns certificate.now b)) }
    ensures fills { OnOk result (W.room writer.old
        ≤ W.room writer.new + length (block_columns certificate.now b)) }
{
    let mut polynomial = [0u8; 255];
    for c in 0..usize::from(certificate.fti().symbol_length()) {
        let count = put_polynomial(certificate, b, c, &mut polynomial);
        write_all(writer, &polynomial[..count])?;
    }
    Ok(())
}

/// Writes all coefficients column by column.
pub(crate) fn write_columns<W: Write>(
    certificate: &Certificate,
    writer: &mut W,
) -> Result<(), Failed>
    ensures ok { OnOk result (Appends (W.contents writer.old) (W.contents writer.new)
        (coefficients_text None certificate.now)) }
    ensures err { OnErr result (AppendsSome (W.contents writer.old) (W.contents writer.new)
        (coefficients_text None certificate.now)) }
    ensures fails { OnErr result (W.failed writer.new ≡ true) }
    ensures full { OnErr result (W.room writer.old
        < length (coefficients_text None certificate.now)) }
{
    for b in 0..certificate.fti().block_count() {
        write_block(certificate, b, writer)?;
    }
    Ok(())
}
