//! Rows of bytes: a block's source symbols, and what a matrix makes of them.
ghost use Rattle.std.specs.Prelude.{◌≡◌, ◌<◌, ◌≤◌, ◌+◌, ◌*◌, ◌^◌, ℕ, List, length, slice_index};
ghost use Rattle.gf256.specs.Sums.{row_sum};
ghost use Rattle.partition.specs.Fti.{block_count, source_count, encoding_count, source_byte};
ghost use Rattle.reception.specs.Symbols.{Agrees};
ghost use Rattle.block_code.specs.CodesOf.{IsCodeOf};
ghost use Rattle.lists.specs.Bytes.{AreBytes};
ghost use Rattle.encoder.specs.Rows.{row_at, AreSourcesOf};

use block_code::Code;
use gf256::add_products;
use partition::Fti;

// The bytes from symbol `i` on. Past the end there is padding.
fn bytes_from(bytes: &[u8], size: usize, i: usize) -> &[u8]
    requires size { size < 2 ^ 16 }
    requires symbol { i < 2 ^ 48 }
    ensures { (p : ℕ) → slice_index result.now p ≡ slice_index bytes.now (i * size + p) }
{
    let from = (i * size).min(bytes.len());
    &bytes[from..]
}

/// The object's bytes from a block's first source symbol on.
pub(crate) fn block_of<'a>(object: &'a [u8], fti: &Fti, b: u32) -> &'a [u8]
    requires block { b < block_count fti.now }
    ensures { AreSourcesOf fti.now object.now b result.now }
{
    let size = usize::from(fti.symbol_length());
    bytes_from(object, size, fti.start(b) as usize)
}

/// As many bytes as there is room for, and zeros behind them.
pub(crate) fn copy_padded(out: &mut [u8], bytes: &[u8])
    ensures { (p : ℕ) → p < length out.new
        → slice_index out.new p ≡ slice_index bytes.now p }
{
    let count = bytes.len().min(out.len());
    let (front, padding) = out.split_at_mut(count);
    front.copy_from_slice(&bytes[..count]);
    padding.fill(0);
}

/// Sums of a block's source symbols, each times its coefficient: a row for each row of
/// coefficients.
pub(crate) fn combine(
    sources: &[u8],
    fti: &Fti,
    b: u32,
    coefficients: &[u8],
    rows: usize,
    out: &mut [u8],
)
    requires block { b < block_count fti.now }
    requires coefficients { length coefficients.now ≡ rows * source_count fti.now b }
    requires room { length out.old ≡ rows * fti.now.symbol_length }
    ensures len { length out.new ≡ length out.old }
    ensures sums { (object : List ℕ) → AreSourcesOf fti.now object b sources.now
        → (r c : ℕ) → r < rows → c < fti.now.symbol_length
        → slice_index out.new (r * fti.now.symbol_length + c)
        ≡ row_sum coefficients.now (source_count fti.now b)
        (source_byte fti.now object b) r c }
{
    out.fill(0);
    let size = usize::from(fti.symbol_length());
    add_products(out, rows, coefficients, sources, fti.k(b), size, size);
}

/// The encoding symbols of a block from ESI `first` on, as many as there is room for, one behind
/// the other: source symbols as they stand there, and all repair symbols by one product. `code` is
/// the block's.
pub(crate) fn encoding_symbols(
    sources: &[u8],
    fti: &Fti,
    b: u32,
    code: &Code,
    first: usize,
    count: usize,
    out: &mut [u8],
)
    requires block { b < block_count fti.now }
    requires code { IsCodeOf fti.now b code.now.matrix }
    requires within { first + count ≤ encoding_count fti.now b }
    requires room { length out.old ≡ count * fti.now.symbol_length }
    ensures len { length out.new ≡ length out.old }
    ensures symbols { (object : List ℕ) → AreBytes object
        → AreSourcesOf fti.now object b sources.now → (r : ℕ) → r < count
        → Agrees fti.now object (record {
          block = b;
          esi = first + r;
          bytes = row_at fti.now.symbol_length out.new r;
        }) }
{
    let size = usize::from(fti.symbol_length());
    let k = fti.k(b);
    let copied = k.saturating_sub(first).min(count);
    let (source_rows, repair_rows) = out.split_at_mut(copied * size);
    if copied > 0 {
        copy_padded(source_rows, bytes_from(sources, size, first));
    }
    let coefficients = &code.columns[(first + copied) * k..(first + count) * k];
    combine(sources, fti, b, coefficients, count - copied, repair_rows);
}
