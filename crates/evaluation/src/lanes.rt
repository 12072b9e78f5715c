//! Bytes as lanes of vectors.
ghost use Rattle.std.specs.Prelude.{◌≡◌, ℕ, ◌<◌, ◌≤◌, ◌+◌, ◌*◌, ◌/◌, ◌%◌, length, slice_index};
ghost use Rattle.gf256.specs.Arithmetic.{sum_of, doubled};

use std::simd::prelude::*;

/// How many columns are summed at a time.
pub(crate) const LANES: usize = 64;

#[inline(always)]
pub(crate) fn sum_lanes(a: u8x64, b: u8x64) -> u8x64
    ensures { (t : ℕ) → t < 64
        → slice_index result t ≡ sum_of (slice_index a t) (slice_index b t) }
{
    a ^ b
}

/// The sums of bytes in 32 lanes.
#[inline(always)]
pub(crate) fn sum_entries(a: u8x32, b: u8x32) -> u8x32
    ensures { (t : ℕ) → t < 32
        → slice_index result t ≡ sum_of (slice_index a t) (slice_index b t) }
{
    a ^ b
}

#[inline(always)]
pub(crate) fn double_lanes(v: u8x32) -> u8x32
    ensures { (t : ℕ) → t < 32 → slice_index result t ≡ doubled (slice_index v t) }
{
    (v + v)
        ^ v.simd_ge(u8x32::splat(128))
            .select(u8x32::splat(29), u8x32::splat(0))
}

#[inline(always)]
pub(crate) fn low_halves(v: u8x64) -> u8x64
    ensures value { (t : ℕ) → t < 64 → slice_index result t ≡ slice_index v t % 16 }
    ensures small { (t : ℕ) → t < 64 → slice_index result t < 16 }
{
    v & u8x64::splat(15)
}

#[inline(always)]
pub(crate) fn high_halves(v: u8x64) -> u8x64
    ensures value { (t : ℕ) → t < 64 → slice_index result t ≡ slice_index v t / 16 }
    ensures small { (t : ℕ) → t < 64 → slice_index result t < 16 }
{
    v >> u8x64::splat(4)
}

// The bytes from a place on, fewer than the lanes, and zeros past the end.
#[inline(never)]
fn last_lanes(bytes: &[u8], at: usize) -> u8x64
    requires { length bytes.now < at + 64 }
    ensures { (t : ℕ) → t < 64 → slice_index result t ≡ slice_index bytes.now (at + t) }
{
    if at >= bytes.len() {
        return u8x64::splat(0);
    }
    let mut last = [0u8; LANES];
    for t in 0..bytes.len() - at {
        last[t] = bytes[at + t];
    }
    u8x64::from_array(last)
}

/// The bytes from a place on, zeros past the end.
#[inline(always)]
pub(crate) fn lanes_from(bytes: &[u8], at: usize) -> u8x64
    ensures { (t : ℕ) → t < 64 → slice_index result t ≡ slice_index bytes.now (at + t) }
{
    let left = bytes.len().saturating_sub(at);
    if left >= LANES {
        return u8x64::from_slice(&bytes[at..]);
    }
    last_lanes(bytes, at)
}

/// Puts the first lanes in the place of the bytes from a place on.
#[inline(always)]
pub(crate) fn put_lanes(bytes: &mut [u8], at: usize, used: usize, v: u8x64)
    requires narrow { used ≤ 64 }
    requires room { at + used ≤ length bytes.old }
    ensures within { (t : ℕ) → t < used → slice_index bytes.new (at + t) ≡ slice_index v t }
    ensures below { (p : ℕ) → p < at → slice_index bytes.new p ≡ slice_index bytes.old p }
    ensures above { (p : ℕ) → at + used ≤ p
        → slice_index bytes.new p ≡ slice_index bytes.old p }
{
    if used == LANES {
        v.copy_to_slice(&mut bytes[at..]);
        return;
    }
    let lanes = v.to_array();
    for t in 0..used {
        bytes[at + t] = lanes[t];
    }
}

/// 32 bytes from a place on.
#[inline(always)]
pub(crate) fn entry_at(bytes: &[u8], at: usize) -> u8x32
    requires { at + 32 ≤ length bytes.now }
    ensures { (t : ℕ) → t < 32 → slice_index result t ≡ slice_index bytes.now (at + t) }
{
    u8x32::from_slice(&bytes[at..])
}

/// Puts 32 bytes in the place of those from a place on.
#[inline(always)]
pub(crate) fn put_entry(bytes: &mut [u8], at: usize, v: u8x32)
    requires { at + 32 ≤ length bytes.old }
    ensures within { (t : ℕ) → t < 32 → slice_index bytes.new (at + t) ≡ slice_index v t }
    ensures below { (p : ℕ) → p < at → slice_index bytes.new p ≡ slice_index bytes.old p }
{
    v.copy_to_slice(&mut bytes[at..]);
}

/// Puts the first lanes into a row, from a column on.
#[inline(always)]
pub(crate) fn put_row(rows: &mut [u8], width: usize, r: usize, at: usize, used: usize, v: u8x64)
    requires narrow { used ≤ 64 }
    requires columns { at + used ≤ width }
    requires room { r * width + (at + used) ≤ length rows.old }
    ensures here { (t : ℕ) → t < used
        → slice_index rows.new (r * width + (at + t)) ≡ slice_index v t }
    ensures kept { (s j : ℕ) → j < width → (s ≡ r → j < at)
        → slice_index rows.new (s * width + j) ≡ slice_index rows.old (s * width + j) }
{
    put_lanes(rows, r * width + at, used, v);
}
