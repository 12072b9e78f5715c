//! Rows that are sums of multiples of other rows.
//!
//! A product is a sum over the bits of its coefficient, by Horner's rule: from the highest bit down
//! the sum is doubled, and where the bit is set the source is added. For several outputs the sums
//! of each choice of four sources, for many of five, are tabled once, 64 columns at a time, so that
//! a bit of four or five coefficients is one addition.
ghost use Rattle.std.specs.Prelude.{◌≡◌, ℕ, ◌<◌, ◌≤◌, ◌+◌, ◌-◌, ◌*◌, ◌^◌, length, slice_index};
ghost use Rattle.gf256.specs.Arithmetic.{sum_of, product};
ghost use Rattle.gf256.specs.Sums.{row_sum};
ghost use Rattle.gf256.specs.ByteSums.{byte_sum};
ghost use Rattle.gf256.specs.Slices.{source_byte, AreSmall, IsAdded, tile_sum, sum_at};

use crate::bit_lists::write_list;
use crate::gf::Gf;
use crate::lanes::{LANES, add_lanes, double_lanes, lanes_at, sum_lanes};
use crate::rows::add_scaled;
use crate::sources::Sources;
use crate::table::fill_table;
use crate::tiling::{Columns, LIST, STEP, Tiling};
use std::simd::prelude::*;

/// Up to so many sources groups of five are slower for some numbers of sources, as for 16, by
/// measurement.
const FEW_SOURCES: usize = 32;

/// From so many outputs on, the sums of five sources are faster for any number of sources above
/// [`FEW_SOURCES`], by measurement.
const MANY_ROWS: usize = 64;

/// From so many outputs on they are faster for rows of [`WIDE_BYTES`] and more, too.
const SOME_ROWS: usize = 24;

/// In rows of so many bytes the lists are used often enough to pay for longer ones.
const WIDE_BYTES: usize = 512;

/// Outputs that are made of one table.
const MOST_ROWS: usize = 128;

/// A value at an address that 16 divides: the number of 16 bytes beside it asks for one. A local
/// array of bytes alone may be at any address, and then more loads cross a line of the cache.
#[derive(Drop)]
struct Aligned<T> {
    value: T,
    _beside: u128,
}

impl<T> Aligned<T> {
    #[inline(always)]
    fn new(value: T) -> Aligned<T>
        ensures { result.value ≡ value }
    {
        Aligned { value, _beside: 0 }
    }
}

/// Coefficients: a row for each output, and in each row one for each source.
#[derive(Clone, Copy)]
struct Coefficients<'a> {
    bytes: &'a [u8],
    rows: usize,
    count: usize,
    ghost whole: { length bytes.now ≡ rows * count },
}

// The sum that the list from a place on tells, 64 columns of it.
#[inline(always)]
fn listed_sum(table: &[u8], lists: &[u8; 16384], at: usize, tiling: Tiling) -> u8x64
    requires room { 64 * (tiling.groups * tiling.entries) ≤ length table.now }
    requires within { at + 128 ≤ 16384 }
    requires small { AreSmall lists.now tiling.entries }
    ensures { (t : ℕ) → t < 64
        → slice_index result t ≡ sum_at table.now lists.now tiling at t }
{
    let mut sum = u8x64::splat(0);
    for b in 0..8usize {
        sum = double_lanes(sum);
        let row = at + b * STEP;
        for q in 0..tiling.groups {
            let place = LANES * (q * tiling.entries) + 8 * usize::from(lists[row + q]);
            sum = sum_lanes(sum, lanes_at(table, place));
        }
    }
    sum
}

// Adds the sums of one table to some columns of each row.
#[inline(always)]
fn add_listed(
    outputs: &mut [u8],
    rows: usize,
    table: &[u8],
    lists: &[u8; 16384],
    tiling: Tiling,
    columns: Columns,
)
    requires few_rows { rows ≤ 128 }
    requires room { rows * columns.width ≤ length outputs.old }
    requires table { 64 * (tiling.groups * tiling.entries) ≤ length table.now }
    requires small { AreSmall lists.now tiling.entries }
    ensures { IsAdded outputs.old outputs.new rows columns
        (tile_sum table.now lists.now tiling) }
{
    let Columns { width, at, used } = columns;
    for r in 0..rows {
        let v = listed_sum(table, lists, r * LIST, tiling);
        add_lanes(outputs, r * width + at, used, v);
    }
}

// Adds the sums of one table to some columns of each row. A loop over numbers that are known is
// laid out in full: those of whole tables, those of the few sources that levels of values have, and
// those that 96, 160, 223 or 255 sources leave to the last table of groups of five.
#[inline(always)]
fn add_tile(
    outputs: &mut [u8],
    rows: usize,
    table: &[u8],
    lists: &[u8; 16384],
    tiling: Tiling,
    columns: Columns,
)
    requires few_rows { rows ≤ 128 }
    requires room { rows * columns.width ≤ length outputs.old }
    requires table { 64 * (tiling.groups * tiling.entries) ≤ length table.now }
    requires small { AreSmall lists.now tiling.entries }
    ensures { IsAdded outputs.old outputs.new rows columns
        (tile_sum table.now lists.now tiling) }
{
    match (tiling.groups, tiling.entries) {
        (16, 16) => add_listed(outputs, rows, table, lists, Tiling::fours(16), columns),
        (8, 16) => add_listed(outputs, rows, table, lists, Tiling::fours(8), columns),
        (4, 16) => add_listed(outputs, rows, table, lists, Tiling::fours(4), columns),
        (3, 16) => add_listed(outputs, rows, table, lists, Tiling::fours(3), columns),
        (2, 16) => add_listed(outputs, rows, table, lists, Tiling::fours(2), columns),
        (13, 32) => add_listed(outputs, rows, table, lists, Tiling::fives(13), columns),
        (12, 32) => add_listed(outputs, rows, table, lists, Tiling::fives(12), columns),
        (7, 32) => add_listed(outputs, rows, table, lists, Tiling::fives(7), columns),
        (6, 32) => add_listed(outputs, rows, table, lists, Tiling::fives(6), columns),
        _ => add_listed(outputs, rows, table, lists, tiling, columns),
    }
}

// Adds to each of a few rows the products of the coefficients from one on and the sources, one
// table of them.
#[inline(always)]
fn add_table(
    outputs: &mut [u8],
    coefficients: &Coefficients<'_>,
    first: usize,
    sources: &Sources<'_>,
    table: &mut [u8],
    tiling: Tiling,
)
    requires few_rows { coefficients.now.rows ≤ 128 }
    requires enough { sources.now.count ≤ tiling.size * tiling.groups }
    requires table { 64 * (tiling.groups * tiling.entries) ≤ length table.old }
    requires inside { first + sources.now.count ≤ coefficients.now.count }
    requires room { coefficients.now.rows * sources.now.width ≤ length outputs.old }
    ensures sums { (r j : ℕ) → r < coefficients.now.rows → j < sources.now.width
        → slice_index outputs.new (r * sources.now.width + j)
        ≡ sum_of (slice_index outputs.old (r * sources.now.width + j))
        (byte_sum sources.now.count (λ i. product
        (slice_index coefficients.now.bytes.now (r * coefficients.now.count + first + i))
        (source_byte sources.now i j))) }
    ensures above { (p : ℕ) → coefficients.now.rows * sources.now.width ≤ p
        → slice_index outputs.new p ≡ slice_index outputs.old p }
{
    let Coefficients { bytes, rows, count } = *coefficients;
    let width = sources.width;
    let mut lists = [0u8; 16384];
    for r in 0..rows {
        let row = r * count + first;
        write_list(&mut lists, r * LIST, bytes, row, tiling);
    }
    for t in 0..width.div_ceil(LANES) {
        let at = LANES * t;
        fill_table(table, sources, tiling, at);
        let used = LANES.min(width - at);
        let columns = Columns { width, at, used };
        add_tile(outputs, rows, table, &lists, tiling, columns);
    }
}

// Adds to each row the products of its coefficients and all sources, as many sources at a time as
// the tiling takes, and as many rows as one table makes. It is laid out for each tiling by itself,
// so that the loops over a group's sources know how many these are.
#[inline(always)]
fn add_by_groups(
    outputs: &mut [u8],
    coefficients: &Coefficients<'_>,
    sources: &Sources<'_>,
    table: &mut [u8],
    tiling: Tiling,
)
    requires some { 0 < tiling.groups }
    requires one { 0 < tiling.size }
    requires table { 64 * (tiling.groups * tiling.entries) ≤ length table.old }
    requires count { sources.now.count ≡ coefficients.now.count }
    requires outputs { length outputs.old ≡ coefficients.now.rows * sources.now.width }
    ensures { (r j : ℕ) → r < coefficients.now.rows → j < sources.now.width
        → slice_index outputs.new (r * sources.now.width + j)
        ≡ sum_of (slice_index outputs.old (r * sources.now.width + j))
        (byte_sum coefficients.now.count (λ i. product
        (slice_index coefficients.now.bytes.now (r * coefficients.now.count + i))
        (source_byte sources.now i j))) }
{
    let Coefficients { bytes, rows, count } = *coefficients;
    let mut first = 0;
    while first < count {
        let groups = tiling.groups.min((count - first - 1) / tiling.size + 1);
        let tiling = tiling.with_groups(groups);
        let taken = (tiling.size * groups).min(count - first);
        let part = sources.part(first, taken);
        let mut row = 0;
        while row < rows {
            let some = MOST_ROWS.min(rows - row);
            let of_rows = Coefficients {
                bytes: &bytes[row * count..(row + some) * count],
                rows: some,
                count,
            };
            let rest = &mut outputs[row * part.width..];
            add_table(rest, &of_rows, first, &part, table, tiling);
            row += some;
        }
        first += taken;
    }
}

// Whether groups of four are to be taken for such coefficients, and not of five.
fn takes_fours(coefficients: &Coefficients<'_>, width: usize) -> bool {
    let least = if width < WIDE_BYTES {
        MANY_ROWS
    } else {
        SOME_ROWS
    };
    coefficients.rows < least || coefficients.count <= FEW_SOURCES
}

// A single row, product by product: a table for one output costs more than it saves.
fn add_one(output: &mut [u8], coefficients: &[u8], sources: &Sources<'_>)
    requires count { sources.now.count ≡ length coefficients.now }
    requires width { sources.now.width ≡ length output.old }
    ensures { (j : ℕ) → j < length output.old
        → slice_index output.new j
        ≡ sum_of (slice_index output.old j)
        (byte_sum (length coefficients.now) (λ i. product (slice_index coefficients.now i)
        (source_byte sources.now i j))) }
{
    for i in 0..coefficients.len() {
        let part = sources.row(i);
        add_scaled(&mut output[..part.len()], Gf(coefficients[i]), part);
    }
}

/// Adds to each of the `rows` rows of `outputs` the sum of all `count` sources, each times its
/// coefficient.
///
/// A row of `outputs` has `width` bytes, and one of `coefficients` a byte for each source. A source
/// has `width` bytes, too, and begins `stride` bytes after the one before it; past the end of
/// `sources` all bytes are 0. Each number may be 0, and `count * stride + width` is below 2^64.
pub fn add_products(
    outputs: &mut [u8],
    rows: usize,
    coefficients: &[u8],
    sources: &[u8],
    count: usize,
    stride: usize,
    width: usize,
)
    requires outputs { length outputs.old ≡ rows * width }
    requires coefficients { length coefficients.now ≡ rows * count }
    requires reach { count * stride + width < 2 ^ 64 }
    ensures { (r c : ℕ) → r < rows → c < width
        → slice_index outputs.new (r * width + c)
        ≡ sum_of (slice_index outputs.old (r * width + c))
        (row_sum coefficients.now count (λ i y. slice_index sources.now (i * stride + y)) r c) }
{
    let sources = Sources {
        bytes: sources,
        count,
        stride,
        width,
    };
    if rows == 1 {
        add_one(outputs, coefficients, &sources);
        return;
    }
    let coefficients = Coefficients {
        bytes: coefficients,
        rows,
        count,
    };
    // Sums of five sources each where many outputs share a table of many sources.
    if takes_fours(&coefficients, width) {
        let mut table = Aligned::new([0u8; 16384]);
        let tiling = Tiling::fours(16);
        add_by_groups(outputs, &coefficients, &sources, &mut table.value, tiling);
    } else {
        let mut table = Aligned::new([0u8; 26624]);
        let tiling = Tiling::fives(13);
        add_by_groups(outputs, &coefficients, &sources, &mut table.value, tiling);
    }
}
