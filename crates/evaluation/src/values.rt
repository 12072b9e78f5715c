//! The values at some points, by the transform or as sums of products.
ghost use Rattle.std.specs.Prelude.{◌≡◌, ◌<◌, ◌≤◌, ◌+◌, ◌*◌, ◌/◌, ◌%◌, ◌^◌, ℕ, length, slice_index};
ghost use Rattle.lists.specs.Bytes.{AreBytes};
ghost use Rattle.gf256.specs.Slices.{lane};
ghost use Rattle.evaluation.specs.Columns.{AreValues};
ghost use Rattle.evaluation.specs.Sums.{AreSums};
ghost use Rattle.evaluation.specs.Transform.{AreLoaded, place_of};

use crate::lanes::{LANES, lanes_from, put_row};
use crate::multiples::Multiples;
use crate::powers::write_powers;
use crate::transform::{ELEMENTS, PLACES, transform};
use gf256::add_products;
use std::simd::prelude::*;

/// Up to so many products of rows cost less than the transform, by measurement.
const MOST_PRODUCTS: usize = 2048;

/// Rows of coefficients, row i with coefficient i of the polynomial of each byte column.
#[derive(Drop)]
pub(crate) struct Coefficients<'a> {
    pub(crate) bytes: &'a [u8],
    pub(crate) k: usize,
    pub(crate) width: usize,
    ghost few: { k ≤ 255 },
    ghost whole: { length bytes.now ≡ k * width },
    ghost fit: { AreBytes bytes.now },
}

/// Some points: point j is alpha to the power `first + j * step`.
#[derive(Drop)]
pub(crate) struct Points {
    pub(crate) first: usize,
    pub(crate) step: usize,
    pub(crate) count: usize,
    ghost near: { first ≤ 255 },
    ghost small: { step ≤ 255 },
    ghost few: { count ≤ 255 },
}

/// Makes row j of `symbols` the values at point `first + j` of the polynomials whose coefficients
/// stand in the columns of `coefficients`. There are `n` rows of symbols and `k` of coefficients,
/// each of `width` bytes; `first`, `n` and `k` are at most 255, and `width` may be 0.
pub fn evaluate(
    symbols: &mut [u8],
    first: usize,
    n: usize,
    coefficients: &[u8],
    k: usize,
    width: usize,
)
    requires few { k ≤ 255 }
    requires near { first ≤ 255 }
    requires points { n ≤ 255 }
    requires symbols { length symbols.old ≡ n * width }
    requires coefficients { length coefficients.now ≡ k * width }
    ensures { AreValues coefficients.now k width first n symbols.new }
{
    let points = Points {
        first,
        step: 1,
        count: n,
    };
    let coefficients = Coefficients {
        bytes: coefficients,
        k,
        width,
    };
    let products = n * k;
    if products <= MOST_PRODUCTS {
        write_by_products(
            symbols,
            &points,
            &coefficients,
            &mut [0u8; MOST_PRODUCTS][..products],
        );
    } else {
        write_by_transform(symbols, &points, &coefficients);
    }
}

fn clear(bytes: &mut [u8])
    ensures len { length bytes.new ≡ length bytes.old }
    ensures zeros { (p : ℕ) → slice_index bytes.new p ≡ 0 }
{
    bytes.fill(0);
}

// Each value as the sum of the coefficients times their powers. `powers` is room for these.
fn write_by_products(
    symbols: &mut [u8],
    points: &Points,
    coefficients: &Coefficients<'_>,
    powers: &mut [u8],
)
    requires symbols { length symbols.old ≡ points.now.count * coefficients.now.width }
    requires powers { length powers.old ≡ points.now.count * coefficients.now.k }
    ensures { AreSums coefficients.now.bytes.now coefficients.now.k coefficients.now.width
        points.now.first points.now.step points.now.count symbols.new }
{
    let Points { first, step, count } = *points;
    let Coefficients { bytes, k, width } = *coefficients;
    write_powers(powers, count, k, first, step);
    clear(symbols);
    add_products(symbols, count, powers, bytes, k, width, width);
}

/// Makes row j of `symbols` the values at point j, by those at all elements, of 64 columns at a
/// time.
pub(crate) fn write_by_transform(
    symbols: &mut [u8],
    points: &Points,
    coefficients: &Coefficients<'_>,
)
    requires { length symbols.old ≡ points.now.count * coefficients.now.width }
    ensures { AreSums coefficients.now.bytes.now coefficients.now.k coefficients.now.width
        points.now.first points.now.step points.now.count symbols.new }
{
    let multiples = Multiples::new();
    let mut tile = [u8x64::splat(0); ELEMENTS];
    let width = coefficients.width;
    for t in 0..width.div_ceil(LANES) {
        let at = LANES * t;
        let used = LANES.min(width - at);
        load(&mut tile, coefficients, at);
        transform(&mut tile, &multiples, exponent(coefficients.k));
        store(symbols, points, width, &tile, at, used);
    }
}

// The exponent of two of how many coefficients the transform takes for k: the least of 64, 128 and
// 256 that is enough.
fn exponent(k: usize) -> usize
    requires { k ≤ 255 }
    ensures least { 6 ≤ result }
    ensures most { result ≤ 8 }
    ensures enough { k ≤ 2 ^ result }
{
    if k <= 64 {
        6
    } else if k <= 128 {
        7
    } else {
        8
    }
}

fn clear_rows(tile: &mut [u8x64; 256], from: usize)
    ensures zeros { (p t : ℕ) → from ≤ p → p < 256 → t < 64 → lane tile.new p t ≡ 0 }
{
    for p in from..ELEMENTS {
        tile[p] = u8x64::splat(0);
    }
}

// The coefficients in the columns from a place on, and zeros in the other rows.
fn load(tile: &mut [u8x64; 256], coefficients: &Coefficients<'_>, at: usize)
    requires { at ≤ coefficients.now.width }
    ensures { AreLoaded coefficients.now.bytes.now coefficients.now.k coefficients.now.width at
        tile.new }
{
    let Coefficients { bytes, k, width } = *coefficients;
    clear_rows(tile, k);
    for p in 0..k {
        tile[p] = lanes_from(bytes, p * width + at);
    }
}

// The row in which the values at this power of alpha stand.
#[inline(always)]
fn place(exponent: usize) -> usize
    ensures place { result ≡ place_of exponent }
    ensures inside { result < 256 }
{
    usize::from(PLACES[exponent % 255])
}

// The values at each point, from the row in which they stand.
fn store(
    symbols: &mut [u8],
    points: &Points,
    width: usize,
    tile: &[u8x64; 256],
    at: usize,
    used: usize,
)
    requires narrow { used ≤ 64 }
    requires columns { at + used ≤ width }
    requires symbols { length symbols.old ≡ points.now.count * width }
    ensures within { (j t : ℕ) → j < points.now.count → t < used
        → slice_index symbols.new (j * width + (at + t))
        ≡ lane tile.now (place_of (points.now.first + j * points.now.step)) t }
    ensures before { (j c : ℕ) → c < at
        → slice_index symbols.new (j * width + c) ≡ slice_index symbols.old (j * width + c) }
{
    let Points { first, step, count } = *points;
    for j in 0..count {
        let values = tile[place(first + j * step)];
        put_row(symbols, width, j, at, used, values);
    }
}
