//! Values at all elements, of 64 polynomials at a time, by an additive Fourier transform.
//!
//! Elements in the order of a basis in which x^2 + x takes element 2 i and element 2 i + 1 to
//! element i. A polynomial f(x) is g(x^2 + x) + x h(x^2 + x), where g and h have half as many
//! coefficients: so its values are sums of theirs and multiples of them.
ghost use Rattle.std.specs.Prelude.{◌≡◌, ◌≢◌, ◌<◌, ◌≤◌, ◌+◌, ◌-◌, ◌*◌, ◌^◌};
ghost use Rattle.gf256.specs.Slices.{lane};
ghost use Rattle.evaluation.specs.Transform.{AreTurned, rows_added, butterfly, butterflies};
ghost use Rattle.evaluation.specs.Transform.{group_expanded, groups_expanded, expanded};
ghost use Rattle.evaluation.specs.Transform.{all_expanded, joined, all_joined, transformed};

use crate::lanes::{high_halves, low_halves, sum_lanes};
use crate::multiples::Multiples;
use std::simd::prelude::*;

/// How many elements there are.
pub(crate) const ELEMENTS: usize = 256;

/// Element 2 j, for each j.
#[rattlefmt::skip]
const EVEN_ELEMENTS: [u8; 128] = [
    0, 214, 152, 78, 146, 68, 10, 220, 86, 128, 206, 24, 196, 18, 92, 138,
    200, 30, 80, 134, 90, 140, 194, 20, 158, 72, 6, 208, 12, 218, 148, 66,
    88, 142, 192, 22, 202, 28, 82, 132, 14, 216, 150, 64, 156, 74, 4, 210,
    144, 70, 8, 222, 2, 212, 154, 76, 198, 16, 94, 136, 84, 130, 204, 26,
    230, 48, 126, 168, 116, 162, 236, 58, 176, 102, 40, 254, 34, 244, 186, 108,
    46, 248, 182, 96, 188, 106, 36, 242, 120, 174, 224, 54, 234, 60, 114, 164,
    190, 104, 38, 240, 44, 250, 180, 98, 232, 62, 112, 166, 122, 172, 226, 52,
    118, 160, 238, 56, 228, 50, 124, 170, 32, 246, 184, 110, 178, 100, 42, 252,
];

/// The row that ends with the values at alpha^j, for each j.
#[rattlefmt::skip]
pub(crate) const PLACES: [u8; 255] = [
    1, 104, 92, 100, 114, 240, 86, 18, 75, 142, 136, 208, 125, 39, 27, 196,
    110, 4, 201, 40, 204, 137, 184, 33, 67, 105, 52, 56, 22, 130, 166, 68,
    89, 197, 6, 88, 173, 90, 60, 223, 170, 106, 205, 225, 228, 69, 49, 153,
    98, 42, 93, 12, 46, 148, 36, 226, 29, 156, 195, 94, 245, 247, 102, 227,
    117, 192, 167, 44, 5, 161, 116, 168, 251, 72, 119, 81, 34, 186, 176, 198,
    255, 129, 95, 157, 171, 2, 145, 133, 150, 181, 103, 139, 41, 164, 213, 220,
    83, 179, 63, 38, 115, 152, 10, 118, 57, 126, 222, 194, 54, 169, 147, 20,
    19, 35, 210, 236, 162, 141, 113, 9, 143, 224, 140, 25, 85, 235, 146, 124,
    79, 71, 160, 28, 244, 159, 58, 135, 7, 48, 241, 62, 78, 47, 252, 120,
    134, 111, 108, 149, 76, 190, 121, 238, 51, 8, 231, 188, 232, 107, 165, 189,
    128, 55, 193, 207, 112, 97, 211, 132, 254, 233, 3, 249, 217, 242, 199, 151,
    221, 59, 239, 91, 84, 131, 206, 24, 61, 183, 246, 14, 191, 17, 178, 87,
    122, 23, 234, 250, 32, 43, 53, 80, 74, 230, 212, 180, 15, 215, 77, 214,
    37, 138, 65, 248, 177, 174, 163, 229, 45, 109, 253, 16, 218, 11, 30, 101,
    26, 172, 50, 96, 187, 216, 154, 155, 243, 175, 203, 185, 73, 31, 13, 70,
    200, 64, 144, 237, 202, 209, 21, 123, 127, 182, 158, 82, 219, 99, 66,
];

#[inline(always)]
fn power_of_two(exponent: usize) -> usize
    requires { exponent < 8 }
    ensures { result ≡ 2 ^ exponent }
{
    1 << exponent
}

// Adds `n` rows from `q` on to those from `p` on.
#[inline(always)]
fn add_rows(tile: &mut [u8x64; 256], n: usize, p: usize, q: usize)
    requires to { p + n ≤ 256 }
    requires from { q + n ≤ 256 }
    ensures { AreTurned tile.old tile.new (rows_added n p q) }
{
    for i in 0..n {
        tile[p + i] = sum_lanes(tile[p + i], tile[q + i]);
    }
}

// Adds `c` times row `q` to row `p`, and that to row `q`.
#[inline(always)]
fn apply_butterfly(tile: &mut [u8x64; 256], multiples: &Multiples, c: u8, p: usize, q: usize)
    requires to { p < 256 }
    requires from { q < 256 }
    requires apart { p ≢ q }
    ensures { AreTurned tile.old tile.new (butterfly c p q) }
{
    let v = tile[q];
    let product = multiples.times(c, low_halves(v), high_halves(v));
    let sum = sum_lanes(tile[p], product);
    tile[p] = sum;
    tile[q] = sum_lanes(v, sum);
}

// Adds `c` times row `q + i` to row `p + i`, and that to row `q + i`, for each `i` below `n`.
#[inline(always)]
fn apply_butterflies(
    tile: &mut [u8x64; 256],
    multiples: &Multiples,
    n: usize,
    c: u8,
    p: usize,
    q: usize,
)
    requires to { p + n ≤ q }
    requires from { q + n ≤ 256 }
    ensures { AreTurned tile.old tile.new (butterflies n c p q) }
{
    for i in 0..n {
        apply_butterfly(tile, multiples, c, p + i, q + i);
    }
}

// Of 4 `q` coefficients, by x^(2 q) = (x^2 + x)^q + x^q.
#[inline(always)]
fn expand_group(tile: &mut [u8x64; 256], q: usize, from: usize)
    requires { from + 4 * q ≤ 256 }
    ensures { AreTurned tile.old tile.new (group_expanded q from) }
{
    add_rows(tile, q, from + 2 * q, from + 3 * q);
    add_rows(tile, q, from + q, from + 2 * q);
}

#[inline(always)]
fn expand_groups(tile: &mut [u8x64; 256], n: usize, q: usize)
    requires { n * (4 * q) ≤ 256 }
    ensures { AreTurned tile.old tile.new (groups_expanded n q) }
{
    for g in 0..n {
        expand_group(tile, q, g * (4 * q));
    }
}

// 2^`b` coefficients by powers of x^2 + x: first in one group, then in two, and so on.
#[inline(always)]
fn expand(tile: &mut [u8x64; 256], b: usize, levels: usize)
    requires few { b ≤ 8 }
    requires within { levels < b }
    ensures { AreTurned tile.old tile.new (expanded b levels) }
{
    for l in 0..levels {
        let groups = power_of_two(l);
        let q = power_of_two(b - 2 - l);
        expand_groups(tile, groups, q);
    }
}

// 2^`b` coefficients by powers of x^2 + x, then those of each polynomial that this gives, and on.
fn expand_all(tile: &mut [u8x64; 256], b: usize)
    requires some { 0 < b }
    requires few { b ≤ 8 }
    ensures { AreTurned tile.old tile.new (all_expanded b (b - 1)) }
{
    for a in 0..b - 1 {
        expand(tile, b, b - 1 - a);
    }
}

// The values at elements 2 j and 2 j + 1 from those of g and h at element j, for `n` of them beside
// the first; of `s` polynomials side by side.
#[inline(always)]
fn join(tile: &mut [u8x64; 256], multiples: &Multiples, n: usize, s: usize)
    requires some { 0 < s }
    requires within { (n + 1) * (2 * s) ≤ 256 }
    ensures { AreTurned tile.old tile.new (joined n s) }
{
    add_rows(tile, s, s, 0);
    for j in 0..n {
        let p = (j + 1) * (2 * s);
        apply_butterflies(tile, multiples, s, EVEN_ELEMENTS[j + 1], p, p + s);
    }
}

fn join_all(tile: &mut [u8x64; 256], multiples: &Multiples)
    ensures { AreTurned tile.old tile.new (all_joined 8) }
{
    for a in 0..8usize {
        let groups = power_of_two(a);
        let s = power_of_two(7 - a);
        join(tile, multiples, groups - 1, s);
    }
}

/// Turns the first 2^`b` rows, coefficients of the polynomial of each column, into the values at
/// all elements, with zeros in the other rows.
pub(crate) fn transform(tile: &mut [u8x64; 256], multiples: &Multiples, b: usize)
    requires some { 0 < b }
    requires few { b ≤ 8 }
    ensures { AreTurned tile.old tile.new (transformed b) }
{
    expand_all(tile, b);
    join_all(tile, multiples);
}
