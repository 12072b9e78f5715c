//! A large block's coefficients, by the values at all 255 points: repair symbols up to the last
//! point cost less than a product with a matrix of all coefficients.
ghost use Rattle.std.specs.Prelude.{◌≡◌, ◌<◌, ◌≤◌, ◌*◌, ℕ, List, length};
ghost use Rattle.lists.specs.Bytes.{AreBytes};
ghost use Rattle.partition.specs.Fti.{block_count, source_count};
ghost use Rattle.block_code.specs.Codes.{IsEncoder, least_by_values};
ghost use Rattle.encoder.specs.AllValues.{IsExtended};
ghost use Rattle.encoder.specs.Rows.{AreSourcesOf};
ghost use Rattle.encoder.specs.RowsWritten.{RowsGive};

use crate::rows::{combine, copy_padded};
use block_code::{Code, LEAST_BY_VALUES};
use evaluation::coefficients;
use lists::are_bytes;
use partition::Fti;

/// How many points there are.
const POINTS: usize = 255;

/// How many bytes of room certifying takes beside the rows of coefficients: a row of values for
/// each point, or none where no block is so large.
pub(crate) fn room(fti: &Fti) -> usize
    ensures few { source_count fti.now 0 < least_by_values → result ≡ 0 }
    ensures many { least_by_values ≤ source_count fti.now 0
        → result ≡ 255 * fti.now.symbol_length }
{
    let size = usize::from(fti.symbol_length());
    if fti.k(0) < LEAST_BY_VALUES {
        0
    } else {
        POINTS * size
    }
}

// Writes the values at all points, a row for each: the source symbols, and repair symbols up to the
// last point.
fn write_values(sources: &[u8], fti: &Fti, b: u32, code: &Code, values: &mut [u8])
    requires block { b < block_count fti.now }
    requires code { IsEncoder (source_count fti.now b) 255 code.now.matrix }
    requires room { length values.old ≡ 255 * fti.now.symbol_length }
    ensures len { length values.new ≡ length values.old }
    ensures extended { (object : List ℕ) → AreBytes object
        → AreSourcesOf fti.now object b sources.now → (c : ℕ) → c < fti.now.symbol_length
        → IsExtended object fti.now b values.new c }
{
    let size = usize::from(fti.symbol_length());
    let k = fti.k(b);
    let (source_rows, repair_rows) = values.split_at_mut(k * size);
    copy_padded(source_rows, sources);
    let repair_columns = &code.columns[k * k..POINTS * k];
    combine(sources, fti, b, repair_columns, POINTS - k, repair_rows);
}

/// Makes a block's rows of coefficients of its source symbols, from the constant ones on. `code`
/// makes the values at all points.
pub(crate) fn certify_by_values(
    sources: &[u8],
    fti: &Fti,
    b: u32,
    code: &Code,
    rows: &mut [u8],
    work: &mut [u8],
)
    requires block { b < block_count fti.now }
    requires code { IsEncoder (source_count fti.now b) 255 code.now.matrix }
    requires room { length rows.old ≡ source_count fti.now b * fti.now.symbol_length }
    requires work { 255 * fti.now.symbol_length ≤ length work.old }
    ensures len { length rows.new ≡ length rows.old }
    ensures bytes { AreBytes rows.new }
    ensures gives { (object : List ℕ) → AreBytes object
        → AreSourcesOf fti.now object b sources.now → RowsGive object fti.now b rows.new }
{
    let size = usize::from(fti.symbol_length());
    let values = &mut work[..POINTS * size];
    write_values(sources, fti, b, code, values);
    coefficients(rows, fti.k(b), values, size);
    are_bytes(rows);
}
