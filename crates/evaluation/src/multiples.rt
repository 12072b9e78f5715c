//! Products of bytes, looked up by their halves.
ghost use Rattle.std.specs.Prelude.{◌≡◌, ℕ, ◌<◌, ◌≤◌, ◌+◌, ◌*◌, ◌/◌, ◌%◌, cond, length};
ghost use Rattle.std.specs.Prelude.{slice_index};
ghost use Rattle.gf256.specs.Arithmetic.{sum_of, product, doubled};
ghost use Rattle.evaluation.specs.Multiples.{AreMultiples, half};

use crate::lanes::{double_lanes, entry_at, put_entry, sum_entries, sum_lanes};
use std::simd::prelude::*;

/// How many products of an element there are.
const SIZE: usize = 32;

/// The products of each element with the low halves of bytes, and then with the high ones.
///
/// A byte is the sum of its low and its high half, and a half has 16 values. So two tables of 16
/// products give the product of any byte, and a shuffle looks up 64 bytes in a table at once.
#[derive(Drop)]
pub(crate) struct Multiples {
    bytes: [u8; 8192],
    // So that the tables lie at addresses that 16 divides, and no load of one crosses a line of the
    // cache.
    _beside: u128,
    ghost products: { AreMultiples bytes 256 },
}

// The low halves of bytes, and then the high ones.
#[inline(always)]
fn halves() -> u8x32
    ensures { (t : ℕ) → t < 32 → slice_index result t ≡ half t }
{
    u8x32::from_array([
        0, 1, 2, 3, 4, 5, 6, 7, 8, 9, 10, 11, 12, 13, 14, 15, 0, 16, 32, 48, 64, 80, 96, 112, 128,
        144, 160, 176, 192, 208, 224, 240,
    ])
}

// The low halves of bytes and then the high ones where `odd`, and zeros otherwise.
#[inline(always)]
fn halves_if(odd: bool) -> u8x32
    ensures { (t : ℕ) → t < 32 → slice_index result t ≡ cond odd (half t) 0 }
{
    if odd {
        return halves();
    }
    u8x32::splat(0)
}

// The products of twice an element, or of one more than that.
#[inline(always)]
fn next(products: u8x32, odd: bool) -> u8x32
    ensures { (t : ℕ) → t < 32
        → slice_index result t
        ≡ sum_of (doubled (slice_index products t)) (cond odd (half t) 0) }
{
    sum_entries(double_lanes(products), halves_if(odd))
}

// Puts the products of an element behind those of all before it.
#[inline(always)]
fn put_products(bytes: &mut [u8; 8192], c: usize)
    requires some { 0 < c }
    requires few { c < 256 }
    requires before { AreMultiples bytes.old c }
    ensures { AreMultiples bytes.new (c + 1) }
{
    let products = next(entry_at(bytes, c / 2 * SIZE), c % 2 == 1);
    put_entry(bytes, c * SIZE, products);
}

// A table in each 16 lanes.
#[inline(always)]
fn four_times(table: u8x16) -> u8x64
    ensures { (t : ℕ) → t < 64 → slice_index result t ≡ slice_index table (t % 16) }
{
    table.swizzle([
        0, 1, 2, 3, 4, 5, 6, 7, 8, 9, 10, 11, 12, 13, 14, 15, 0, 1, 2, 3, 4, 5, 6, 7, 8, 9, 10, 11,
        12, 13, 14, 15, 0, 1, 2, 3, 4, 5, 6, 7, 8, 9, 10, 11, 12, 13, 14, 15, 0, 1, 2, 3, 4, 5, 6,
        7, 8, 9, 10, 11, 12, 13, 14, 15,
    ])
}

// The entries of a table at these places.
#[inline(always)]
fn looked_up(table: &[u8], places: u8x64) -> u8x64
    requires table { 16 ≤ length table.now }
    requires places { (t : ℕ) → t < 64 → slice_index places t < 16 }
    ensures { (t : ℕ) → t < 64
        → slice_index result t ≡ slice_index table.now (slice_index places t) }
{
    four_times(u8x16::from_slice(table)).swizzle_dyn_within::<16>(places)
}

impl Multiples {
    pub(crate) fn new() -> Multiples {
        let mut bytes = [0u8; 8192];
        for c in 1..256usize {
            put_products(&mut bytes, c);
        }
        Multiples { bytes, _beside: 0 }
    }

    /// The products of an element with bytes whose halves are given.
    #[inline(always)]
    pub(crate) fn times(&self, c: u8, low: u8x64, high: u8x64) -> u8x64
        requires low { (t : ℕ) → t < 64 → slice_index low t < 16 }
        requires high { (t : ℕ) → t < 64 → slice_index high t < 16 }
        ensures { (t x : ℕ) → t < 64 → x < 256
            → slice_index low t ≡ x % 16 → slice_index high t ≡ x / 16
            → slice_index result t ≡ product c x }
    {
        let at = usize::from(c) * SIZE;
        let of_low = looked_up(&self.bytes[at..], low);
        let of_high = looked_up(&self.bytes[at + 16..], high);
        sum_lanes(of_low, of_high)
    }
}
