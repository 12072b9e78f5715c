//! The bits of coefficients, as lists of places in a table.
ghost use Rattle.std.specs.Prelude.{◌≡◌, ℕ, ◌<◌, ◌≤◌, ◌+◌, ◌-◌, ◌*◌, ◌%◌, ◌^◌, length, slice_index};
ghost use Rattle.gf256.specs.Slices.{bit, lane, IsList, AreSmall};

use crate::tiling::{STEP, Tiling};
use std::simd::prelude::*;

// 16 coefficients from a place on, zeros past the end. Some may be of sources that are not there or
// of the next row: such a source has zeros in the table, whatever its coefficient is.
#[inline(always)]
fn coefficients_from(coefficients: &[u8], at: usize) -> u8x16
    requires { at + 16 < 2 ^ 64 }
    ensures { (i : ℕ) → i < 16 → slice_index result i
        ≡ slice_index coefficients.now (at + i) }
{
    if at + 16 <= coefficients.len() {
        return u8x16::from_slice(&coefficients[at..]);
    }
    let mut bytes = [0u8; 16];
    for i in 0..16usize {
        if at + i < coefficients.len() {
            bytes[i] = coefficients[at + i];
        }
    }
    u8x16::from_array(bytes)
}

#[inline(always)]
fn bit_of(c: u8x16, down: u8) -> u8x16
    requires { down < 8 }
    ensures { (i : ℕ) → i < 16 → slice_index result i ≡ bit down (slice_index c i) }
{
    (c >> u8x16::splat(down)) & u8x16::splat(1)
}

#[inline(always)]
fn with_bit(high: u8x16, low: u8x16) -> u8x16
    ensures { (i : ℕ) → i < 16
        → slice_index result i ≡ (2 * slice_index high i + slice_index low i) % 256 }
{
    high + high + low
}

// One bit of as many coefficients as the size tells, the first one's the lowest.
#[inline(always)]
fn numbers(parts: &[u8x16; 5], size: usize, down: u8) -> u8x16
    requires low { down < 8 }
    requires few { size ≤ 5 }
    ensures bits { (i x : ℕ) → i < 16 → x < size
        → bit x (slice_index result i) ≡ bit down (lane parts.now x i) }
    ensures small { (i : ℕ) → i < 16 → slice_index result i < 2 ^ size }
{
    let mut sum = u8x16::splat(0);
    for x in 0..size {
        sum = with_bit(sum, bit_of(parts[size - 1 - x], down));
    }
    sum
}

// The coefficients of the first source of each group, of the second, and so on.
#[inline(always)]
fn parts_of(coefficients: &[u8], row: usize, tiling: Tiling) -> [u8x16; 5]
    requires fits { row + 256 < 2 ^ 64 }
    ensures { (x i : ℕ) → x < tiling.size → i < 16
        → lane result x i ≡ slice_index coefficients.now (row + (i + x * tiling.groups)) }
{
    let mut parts = [u8x16::splat(0); 5];
    for x in 0..tiling.size {
        parts[x] = coefficients_from(coefficients, row + x * tiling.groups);
    }
    parts
}

// Eight times each number, of which a processor makes an entry's address by itself: it multiplies
// by 8 at most, and an entry has 64 bytes.
#[inline(always)]
fn eightfold(v: u8x16) -> u8x16
    requires { (i : ℕ) → i < 16 → slice_index v i < 32 }
    ensures { (i : ℕ) → i < 16 → slice_index result i ≡ 8 * slice_index v i }
{
    let twice = v + v;
    let fourfold = twice + twice;
    fourfold + fourfold
}

#[inline(always)]
fn put_list(lists: &mut [u8], at: usize, v: u8x16)
    requires { at + 16 ≤ length lists.old }
    ensures within { (q : ℕ) → q < 16 → slice_index lists.new (at + q) ≡ slice_index v q }
    ensures below { (p : ℕ) → p < at → slice_index lists.new p ≡ slice_index lists.old p }
    ensures small { (limit : ℕ) → AreSmall lists.old limit
        → ((q : ℕ) → q < 16 → slice_index v q + 8 ≤ 8 * limit)
        → AreSmall lists.new limit }
{
    v.copy_to_slice(&mut lists[at..]);
}

// An output's list, as `write_list` has it.
#[inline(always)]
fn put_bits(lists: &mut [u8; 16384], at: usize, coefficients: &[u8], row: usize, tiling: Tiling)
    requires room { at + 128 ≤ 16384 }
    requires fits { row + 256 < 2 ^ 64 }
    ensures list { IsList lists.new at coefficients.now row tiling 8 }
    ensures below { (p : ℕ) → p < at → slice_index lists.new p ≡ slice_index lists.old p }
    ensures small { AreSmall lists.old tiling.entries → AreSmall lists.new tiling.entries }
{
    let parts = parts_of(coefficients, row, tiling);
    for b in 0..8usize {
        let entries = numbers(&parts, tiling.size, 7 - b as u8);
        put_list(lists, at + b * STEP, eightfold(entries));
    }
}

/// Writes an output's list: each bit of the coefficients of each group, the highest bit first, as
/// eight times the number of an entry. The loops over the sources of a group are laid out in full
/// where their number is known.
#[inline(always)]
pub(crate) fn write_list(
    lists: &mut [u8; 16384],
    at: usize,
    coefficients: &[u8],
    row: usize,
    tiling: Tiling,
)
    requires room { at + 128 ≤ 16384 }
    requires fits { row + 256 < 2 ^ 64 }
    ensures list { IsList lists.new at coefficients.now row tiling 8 }
    ensures below { (p : ℕ) → p < at → slice_index lists.new p ≡ slice_index lists.old p }
    ensures small { AreSmall lists.old tiling.entries → AreSmall lists.new tiling.entries }
{
    match (tiling.size, tiling.entries) {
        (4, 16) => put_bits(lists, at, coefficients, row, Tiling::fours(tiling.groups)),
        (5, 32) => put_bits(lists, at, coefficients, row, Tiling::fives(tiling.groups)),
        _ => put_bits(lists, at, coefficients, row, tiling),
    }
}
