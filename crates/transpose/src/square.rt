//! Squares of 16 by 16 bytes, turned over the diagonal.
ghost use Rattle.std.specs.Prelude.{◌≡◌, ◌<◌, ◌+◌, ◌*◌, ◌/◌, ◌%◌, ℕ, slice_index};
ghost use Rattle.transpose.specs.Turned.{byte, IsTurned};

use std::simd::prelude::*;

/// Row r of the result has lane r of each row.
#[inline(always)]
pub(crate) fn turned(rows: &[u8x16; 16]) -> [u8x16; 16]
    ensures { IsTurned rows.now result }
{
    let once = woven(rows);
    let twice = woven(&once);
    let thrice = woven(&twice);
    woven(&thrice)
}

// One round of four: rows i and i + 8 by turns.
#[inline(always)]
fn woven(rows: &[u8x16; 16]) -> [u8x16; 16]
    ensures { (r l : ℕ) → r < 16 → l < 16
        → byte result r l ≡ byte rows.now (r / 2 + 8 * (l % 2)) (8 * (r % 2) + l / 2) }
{
    let mut woven = [u8x16::splat(0); 16];
    for i in 0..8usize {
        let (low, high) = by_turns(rows[i], rows[i + 8]);
        woven[2 * i] = low;
        woven[2 * i + 1] = high;
    }
    woven
}

// The lanes of both by turns, in two halves.
#[inline(always)]
fn by_turns(a: u8x16, b: u8x16) -> (u8x16, u8x16)
    ensures low_first { (m : ℕ) → m < 8
        → slice_index result.0 (2 * m) ≡ slice_index a m }
    ensures low_second { (m : ℕ) → m < 8
        → slice_index result.0 (2 * m + 1) ≡ slice_index b m }
    ensures high_first { (m : ℕ) → m < 8
        → slice_index result.1 (2 * m) ≡ slice_index a (8 + m) }
    ensures high_second { (m : ℕ) → m < 8
        → slice_index result.1 (2 * m + 1) ≡ slice_index b (8 + m) }
{
    a.interleave(b)
}
