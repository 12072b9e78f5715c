//! Bytes as lanes of vectors.
ghost use Rattle.std.specs.Prelude.{◌≡◌, ℕ, ◌<◌, ◌≤◌, ◌+◌, length, slice_index};
ghost use Rattle.gf256.specs.Arithmetic.{sum_of, doubled};

use std::simd::prelude::*;

/// How many columns are summed at a time.
pub(crate) const LANES: usize = 64;

#[inline(always)]
pub(crate) fn sum_lanes(a: u8x64, b: u8x64) -> u8x64
    ensures { (t : ℕ) → t < 64
        → slice_index result t ≡ sum_of (slice_index a t) (slice_index b t) }
{
    a ^ b
}

#[inline(always)]
pub(crate) fn double_lanes(v: u8x64) -> u8x64
    ensures { (t : ℕ) → t < 64 → slice_index result t ≡ doubled (slice_index v t) }
{
    (v + v)
        ^ v.simd_ge(u8x64::splat(128))
            .select(u8x64::splat(29), u8x64::splat(0))
}

/// The bytes from a place on, all of them there.
#[inline(always)]
pub(crate) fn lanes_at(bytes: &[u8], at: usize) -> u8x64
    requires { at + 64 ≤ length bytes.now }
    ensures { (t : ℕ) → t < 64 → slice_index result t ≡ slice_index bytes.now (at + t) }
{
    u8x64::from_slice(&bytes[at..])
}

/// Writes the lanes from a place on.
#[inline(always)]
pub(crate) fn put_lanes(bytes: &mut [u8], at: usize, v: u8x64)
    requires { at + 64 ≤ length bytes.old }
    ensures within { (t : ℕ) → t < 64 → slice_index bytes.new (at + t) ≡ slice_index v t }
    ensures below { (p : ℕ) → p < at → slice_index bytes.new p ≡ slice_index bytes.old p }
{
    v.copy_to_slice(&mut bytes[at..]);
}

/// The bytes from a place on where they are fewer than 64, zeros past the end. It stands apart from
/// its callers, whose loops are laid out in full only if they are short.
#[cold]
#[inline(never)]
pub(crate) fn last_lanes(bytes: &[u8], at: usize) -> u8x64
    requires some { at ≤ length bytes.now }
    requires few { length bytes.now < at + 64 }
    ensures { (t : ℕ) → t < 64 → slice_index result t ≡ slice_index bytes.now (at + t) }
{
    let left = bytes.len() - at;
    let mut last = [0u8; LANES];
    for t in 0..left {
        last[t] = bytes[at + t];
    }
    u8x64::from_array(last)
}

/// Adds the first lanes to the bytes from a place on.
#[inline(always)]
pub(crate) fn add_lanes(bytes: &mut [u8], at: usize, used: usize, v: u8x64)
    requires narrow { used ≤ 64 }
    requires room { at + used ≤ length bytes.old }
    ensures within { (t : ℕ) → t < used
        → slice_index bytes.new (at + t)
        ≡ sum_of (slice_index bytes.old (at + t)) (slice_index v t) }
    ensures below { (p : ℕ) → p < at → slice_index bytes.new p ≡ slice_index bytes.old p }
    ensures above { (p : ℕ) → at + used ≤ p
        → slice_index bytes.new p ≡ slice_index bytes.old p }
{
    if used == LANES {
        let old = u8x64::from_slice(&bytes[at..]);
        (old ^ v).copy_to_slice(&mut bytes[at..]);
        return;
    }
    let lanes = v.to_array();
    for t in 0..used {
        bytes[at + t] ^= lanes[t];
    }
}
