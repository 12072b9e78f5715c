//! Rows of bytes.
ghost use Rattle.std.specs.Prelude.{◌≡◌, ◌≢◌, ◌<◌, ◌≤◌, ◌+◌, ◌*◌, ◌^◌, ℕ, true, false, IfOk};
ghost use Rattle.std.specs.Prelude.{length, slice_index};
ghost use Rattle.gf256.specs.Arithmetic.{sum_of};
ghost use Rattle.gf256.specs.Sums.{row_sum};

use gf256::add_products;
use lists::are_bytes;
use std::alloc::{AllocError, Global};

/// Rows of `size` bytes each, one behind the other.
#[derive(Drop)]
pub struct Rows {
    pub bytes: Vec<u8>,
    pub size: usize,
    pub count: usize,
    ghost whole: { length bytes.items ≡ count * size },
    ghost few: { count < 2 ^ 8 },
    ghost small: { size < 2 ^ 16 },
}

// Puts bytes at a place and those behind it.
fn put(bytes: &mut [u8], at: usize, row: &[u8])
    requires { at + length row.now ≤ length bytes.old }
    ensures len { length bytes.new ≡ length bytes.old }
    ensures here { (c : ℕ) → c < length row.now
        → slice_index bytes.new (at + c) ≡ slice_index row.now c }
    ensures before { (p : ℕ) → p < at → slice_index bytes.new p ≡ slice_index bytes.old p }
    ensures behind { (p : ℕ) → at + length row.now ≤ p
        → slice_index bytes.new p ≡ slice_index bytes.old p }
{
    bytes[at..at + row.len()].copy_from_slice(row);
}

/// Whether all bytes are zero.
pub(crate) fn is_zero(bytes: &[u8]) -> bool
    ensures zero { result ≡ true → (c : ℕ) → slice_index bytes.now c ≡ 0 }
    ensures other { result ≡ false
        → (c : ℕ) × (c < length bytes.now) × (slice_index bytes.now c ≢ 0) }
{
    // Mostly they are, and one comparison of all bytes with those before them is faster.
    if !bytes.is_empty() && bytes[0] == 0 && bytes[1..] == bytes[..bytes.len() - 1] {
        return true;
    }
    for i in 0..bytes.len() {
        if bytes[i] != 0 {
            return false;
        }
    }
    true
}

impl Rows {
    ghost use Rattle.block_recovery.specs.Rows.{HasSizes, byte_in, SameSizes};

    /// Rows of zeros.
    pub(crate) fn zeros(alloc: Global, count: usize, size: usize) -> Result<Rows, AllocError>
        requires few { count < 2 ^ 8 }
        requires small { size < 2 ^ 16 }
        ensures sizes { IfOk result (HasSizes count size) }
        ensures zero { IfOk result (λ r. (i c : ℕ) → byte_in r i c ≡ 0) }
    {
        Ok(Rows {
            bytes: Vec::from_elem(alloc, 0u8, count * size)?,
            size,
            count,
        })
    }

    /// Makes row `i` these bytes.
    pub(crate) fn put(&mut self, i: usize, row: &[u8])
        requires place { i < self.old.count }
        requires row { length row.now ≡ self.old.size }
        ensures sizes { SameSizes self.old self.new }
        ensures here { (c : ℕ) → c < self.old.size
            → byte_in self.new i c ≡ slice_index row.now c }
        ensures elsewhere { (m c : ℕ) → m ≢ i → c < self.old.size
            → byte_in self.new m c ≡ byte_in self.old m c }
    {
        put(&mut self.bytes, i * self.size, row);
    }

    /// What the type says: the rows are of bytes.
    pub(crate) fn are_bytes(&self)
        ensures { (i c : ℕ) → byte_in self.now i c < 256 }
    {
        are_bytes(&self.bytes);
    }

    /// Row `i`.
    pub(crate) fn row(&self, i: usize) -> &[u8]
        requires { i < self.now.count }
        ensures len { length result.now ≡ self.now.size }
        ensures bytes { (c : ℕ) → c < self.now.size
            → slice_index result.now c ≡ byte_in self.now i c }
    {
        &self.bytes[i * self.size..(i + 1) * self.size]
    }

    /// Adds to each row the sum of other rows, each times its coefficient.
    pub(crate) fn add_products(&mut self, coefficients: &[u8], others: &Rows)
        requires coefficients { length coefficients.now ≡ self.old.count * others.now.count }
        requires size { others.now.size ≡ self.old.size }
        ensures sizes { SameSizes self.old self.new }
        ensures sums { (m c : ℕ) → m < self.old.count → c < self.old.size
            → byte_in self.new m c ≡ sum_of (byte_in self.old m c)
            (row_sum coefficients.now others.now.count (byte_in others.now) m c) }
    {
        let size = self.size;
        let bytes = &mut self.bytes;
        add_products(
            bytes,
            self.count,
            coefficients,
            &others.bytes,
            others.count,
            size,
            size,
        );
    }
}
