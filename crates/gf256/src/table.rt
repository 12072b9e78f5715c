//! The sums of every choice of a group's sources, 64 bytes each.
ghost use Rattle.std.specs.Prelude.{◌≡◌, ℕ, ◌<◌, ◌≤◌, ◌+◌, ◌*◌, length, slice_index};
ghost use Rattle.gf256.specs.Arithmetic.{sum_of};
ghost use Rattle.gf256.specs.Slices.{entry_byte, IsFilled};

use crate::lanes::{LANES, lanes_at, put_lanes, sum_lanes};
use crate::sources::Sources;
use crate::tiling::Tiling;
use std::simd::prelude::*;

// The entries from a place on once more behind themselves, each with a source added.
#[inline(always)]
fn put_with(table: &mut [u8], at: usize, have: usize, v: u8x64)
    requires { 64 * (at + (have + have)) ≤ length table.old }
    ensures with { (p t : ℕ) → p < have → t < 64
        → entry_byte table.new (at + have + p) t
        ≡ sum_of (entry_byte table.old (at + p) t) (slice_index v t) }
    ensures below { (p t : ℕ) → p < at + have → t < 64
        → entry_byte table.new p t ≡ entry_byte table.old p t }
{
    for p in 0..have {
        let sum = sum_lanes(lanes_at(table, LANES * (at + p)), v);
        put_lanes(table, LANES * (at + have + p), sum);
    }
}

/// Fills a table with the sums of every choice of each group's sources, of the 64 columns from one
/// on. The loops over the sources and the sums of a group are laid out in full, as its callers know
/// how many these are.
#[inline(always)]
pub(crate) fn fill_table(table: &mut [u8], sources: &Sources<'_>, tiling: Tiling, at: usize)
    requires columns { at ≤ sources.now.width }
    requires room { 64 * (tiling.groups * tiling.entries) ≤ length table.old }
    ensures filled { IsFilled table.new sources.now tiling at tiling.groups }
    ensures length { length table.new ≡ length table.old }
{
    for q in 0..tiling.groups {
        let place = q * tiling.entries;
        put_lanes(table, LANES * place, u8x64::splat(0));
        let mut have = 1;
        for x in 0..tiling.size {
            let v = sources.lanes(q + x * tiling.groups, at);
            put_with(table, place, have, v);
            have *= 2;
        }
    }
}
