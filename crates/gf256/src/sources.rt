//! Rows of bytes that are summed.
ghost use Rattle.std.specs.Prelude.{◌≡◌, ℕ, ◌<◌, ◌≤◌, ◌+◌, ◌-◌, ◌*◌, ◌^◌, List, length};
ghost use Rattle.std.specs.Prelude.{slice_index};

use crate::lanes::{LANES, lanes_at, last_lanes};
use std::simd::prelude::*;

/// `count` rows of `width` bytes, each of which begins `stride` bytes after the one before it. Past
/// the end of `bytes` all bytes are 0.
#[derive(Clone, Copy)]
pub(crate) struct Sources<'a> {
    pub(crate) bytes: &'a [u8],
    pub(crate) count: usize,
    pub(crate) stride: usize,
    pub(crate) width: usize,
    ghost reach: { count * stride + width < 2 ^ 64 },
    ghost small: { (i : ℕ) → slice_index bytes.now i < 2 ^ 8 },
}

impl<'a> Sources<'a> {
    ghost use Rattle.gf256.specs.Slices.{below, source_byte};

    /// The bytes of source `i`, as far as they go.
    #[inline(always)]
    pub(crate) fn row(&self, i: usize) -> &'a [u8]
        requires { i < self.now.count }
        ensures short { length result.now ≤ self.now.width }
        ensures bytes { (j : ℕ) → j < self.now.width
            → slice_index result.now j ≡ source_byte self.now i j }
    {
        let from = (i * self.stride).min(self.bytes.len());
        let end = (i * self.stride + self.width).min(self.bytes.len());
        &self.bytes[from..end]
    }

    /// 64 bytes of source `i` from a column on; zeros where there is no such source.
    #[inline(always)]
    pub(crate) fn lanes(&self, i: usize, at: usize) -> u8x64
        requires { at ≤ self.now.width }
        ensures { (t : ℕ) → t < 64
            → slice_index result t ≡ below self.now.count i (source_byte self.now i (at + t)) }
    {
        if i >= self.count {
            return u8x64::splat(0);
        }
        let from = i * self.stride + at;
        if from >= self.bytes.len() {
            return u8x64::splat(0);
        }
        if self.bytes.len() - from >= LANES {
            return lanes_at(self.bytes, from);
        }
        last_lanes(self.bytes, from)
    }

    /// `count` sources from the first of them on.
    #[inline(always)]
    pub(crate) fn part(&self, first: usize, count: usize) -> Sources<'a>
        requires { first + count ≤ self.now.count }
        ensures count { result.count ≡ count }
        ensures width { result.width ≡ self.now.width }
        ensures bytes { (i j : ℕ) → source_byte result i j
            ≡ source_byte self.now (first + i) j }
    {
        let from = (first * self.stride).min(self.bytes.len());
        Sources {
            bytes: &self.bytes[from..],
            count,
            stride: self.stride,
            width: self.width,
        }
    }
}
