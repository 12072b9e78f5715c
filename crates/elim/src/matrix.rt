//! A matrix, and steps on its rows.
ghost use Rattle.std.specs.Prelude.{◌≡◌, ◌≢◌, ◌<◌, ◌≤◌, ◌+◌, ◌*◌, ◌^◌, ℕ, IfOk, replicate, length};
ghost use Rattle.std.specs.Prelude.{slice_index_or};
ghost use Rattle.elim.specs.Grid.{Grid, entry, HasElements, HasShape, IsMatrix};
ghost use Rattle.elim.specs.Setting.{IsSet};
ghost use Rattle.elim.specs.Steps.{IsStep, IsSwapped, IsRowSet};

use gf256::Field;
use std::alloc::{AllocError, Global};
use std::marker::Model;

/// Entries of a field in 1 to 255 rows and 1 to 255 columns. Contracts see the counts and the list
/// of all entries, row after row.
#[derive(Drop)]
pub struct Matrix<F: Field> {
    rows: usize,
    cols: usize,
    entries: Vec<F>,
}

impl<F: Field> Model for Matrix<F> {
    ghost use Rattle.elim.specs.Grid.{Grid, IsMatrix};

    ghost Value = { Grid F };

    ghost view = { λ m. record { rows = m.rows; cols = m.cols; entries = m.entries.items } };

    ghost invariant = { λ m.
        IsMatrix F.element F.ZERO
        (record { rows = m.rows; cols = m.cols; entries = m.entries.items }) };
}

/// So many zeros.
pub(crate) fn zeros<F: Field>(alloc: Global, count: usize) -> Result<Vec<F>, AllocError>
    ensures { IfOk result (λ v. v.items ≡ replicate count F.ZERO) }
{
    let mut zeros = Vec::with_capacity(alloc, count)?;
    for i in 0..count {
        zeros.push(F::ZERO)?;
    }
    Ok(zeros)
}

impl<F: Field> Matrix<F> {
    /// A matrix of 1 to 255 rows and 1 to 255 columns whose entries are all zero. Want of memory is
    /// the only error.
    pub fn try_new(alloc: Global, rows: usize, cols: usize) -> Result<Matrix<F>, AllocError>
        requires some_rows { 0 < rows }
        requires few_rows { rows ≤ 255 }
        requires some_cols { 0 < cols }
        requires few_cols { cols ≤ 255 }
        ensures shape { IfOk result (HasShape rows cols) }
        ensures zero { IfOk result (λ m. (i j : ℕ) → entry F.ZERO m i j ≡ F.ZERO) }
        ensures elements { IfOk result (HasElements F.element F.ZERO) }
    {
        let entries = zeros(alloc, rows * cols)?;
        Ok(Matrix {
            rows,
            cols,
            entries,
        })
    }

    /// The number of rows, 1 to 255.
    pub fn rows(&self) -> usize
        ensures value { result ≡ self.now.rows }
        ensures matrix { IsMatrix F.element F.ZERO self.now }
    {
        self.rows
    }

    /// The number of columns, 1 to 255.
    pub fn cols(&self) -> usize
        ensures value { result ≡ self.now.cols }
        ensures matrix { IsMatrix F.element F.ZERO self.now }
    {
        self.cols
    }

    /// The entry in row `i` and column `j`, counted from 0, of which the matrix has both.
    pub fn get(&self, i: usize, j: usize) -> F
        requires row { i < self.now.rows }
        requires column { j < self.now.cols }
        ensures value { result ≡ entry F.ZERO self.now i j }
        ensures fits { F.element result }
    {
        self.entries[i * self.cols + j]
    }

    /// Makes the entry in row `i` and column `j`, counted from 0, this value. The matrix has that
    /// row and column; all other entries stay.
    pub fn set(&mut self, i: usize, j: usize, value: F)
        requires row { i < self.old.rows }
        requires column { j < self.old.cols }
        ensures shape { HasShape self.old.rows self.old.cols self.new }
        ensures entry { IsSet self.old.cols i j value
            (entry F.ZERO self.old) (entry F.ZERO self.new) }
        ensures elements { HasElements F.element F.ZERO self.new }
    {
        value.is_element();
        let at = i * self.cols + j;
        self.entries[at] = value;
    }

    /// Rows `a` and `b` change places.
    pub(crate) fn swap_rows(&mut self, a: usize, b: usize)
        requires first { a < self.old.rows }
        requires second { b < self.old.rows }
        ensures { IsStep F.element F.ZERO
            (IsSwapped self.old.rows self.old.cols a b) self.old self.new }
    {
        let cols = self.cols();
        for j in 0..cols {
            let x = self.get(a, j);
            let y = self.get(b, j);
            self.set(a, j, y);
            self.set(b, j, x);
        }
    }

    /// Row `r` becomes `c` times what it was.
    pub(crate) fn scale_row(&mut self, r: usize, c: F)
        requires { (r < self.old.rows) × F.element c }
        ensures { IsStep F.element F.ZERO
            (IsRowSet self.old.rows self.old.cols r (λ j. F.product c (entry F.ZERO self.old r j)))
            self.old self.new }
    {
        let cols = self.cols();
        for j in 0..cols {
            let x = self.get(r, j);
            self.set(r, j, c.mul(x));
        }
    }

    /// Row `r` becomes `c` times this row.
    pub(crate) fn set_row(&mut self, r: usize, c: F, row: &[F])
        requires row { r < self.old.rows }
        requires columns { length row.now ≡ self.old.cols }
        requires scale { F.element c }
        ensures { IsStep F.element F.ZERO
            (IsRowSet self.old.rows self.old.cols r
            (λ j. F.product c (slice_index_or row.now j F.ZERO)))
            self.old self.new }
    {
        let cols = self.cols();
        for j in 0..cols {
            let x = row[j];
            x.is_element();
            self.set(r, j, c.mul(x));
        }
    }

    /// Adds `c` times row `p` to row `r`, another one.
    pub(crate) fn add_row(&mut self, r: usize, c: F, p: usize)
        requires row { r < self.old.rows }
        requires other { p < self.old.rows }
        requires apart { p ≢ r }
        requires scale { F.element c }
        ensures { IsStep F.element F.ZERO
            (IsRowSet self.old.rows self.old.cols r
            (λ j. F.sum (entry F.ZERO self.old r j) (F.product c (entry F.ZERO self.old p j))))
            self.old self.new }
    {
        add_scaled_rows(&mut self.entries, self.cols, r, c, p);
    }

    /// Adds `c` times row `p` of another matrix, which has as many columns, to row `r`.
    pub(crate) fn add_row_of(&mut self, r: usize, c: F, other: &Matrix<F>, p: usize)
        requires row { r < self.old.rows }
        requires other { p < other.now.rows }
        requires columns { (other.now.cols ≡ self.old.cols) × F.element c }
        ensures { IsStep F.element F.ZERO
            (IsRowSet self.old.rows self.old.cols r
            (λ j. F.sum (entry F.ZERO self.old r j) (F.product c (entry F.ZERO other.now p j))))
            self.old self.new }
    {
        let from = p * other.cols;
        let row = &other.entries[from..from + other.cols];
        add_at(&mut self.entries, r * self.cols, c, row);
    }
}

// Adds `c` times a row to the entries from a place on.
fn add_at<F: Field>(entries: &mut [F], at: usize, c: F, row: &[F])
    requires room { at + length row.now ≤ length entries.old }
    requires scale { F.element c }
    ensures length { length entries.new ≡ length entries.old }
    ensures here { (j : ℕ)
        → j < length row.now
        → slice_index_or entries.new (at + j) F.ZERO
        ≡ F.sum (slice_index_or entries.old (at + j) F.ZERO)
        (F.product c (slice_index_or row.now j F.ZERO)) }
    ensures before { (i : ℕ)
        → i < at
        → slice_index_or entries.new i F.ZERO ≡ slice_index_or entries.old i F.ZERO }
    ensures after { (i : ℕ)
        → at + length row.now ≤ i
        → slice_index_or entries.new i F.ZERO ≡ slice_index_or entries.old i F.ZERO }
{
    F::add_scaled_row(&mut entries[at..at + row.len()], c, row);
}

// Of rows of `cols` entries, adds `c` times row `p` to row `r`, another one.
fn add_scaled_rows<F: Field>(entries: &mut [F], cols: usize, r: usize, c: F, p: usize)
    requires small { length entries.old < 2 ^ 32 }
    requires row { r * cols + cols ≤ length entries.old }
    requires other { p * cols + cols ≤ length entries.old }
    requires apart { p ≢ r }
    requires scale { F.element c }
    ensures length { length entries.new ≡ length entries.old }
    ensures here { (j : ℕ)
        → j < cols
        → slice_index_or entries.new (r * cols + j) F.ZERO
        ≡ F.sum (slice_index_or entries.old (r * cols + j) F.ZERO)
        (F.product c (slice_index_or entries.old (p * cols + j) F.ZERO)) }
    ensures before { (i : ℕ)
        → i < r * cols
        → slice_index_or entries.new i F.ZERO ≡ slice_index_or entries.old i F.ZERO }
    ensures after { (i : ℕ)
        → r * cols + cols ≤ i
        → slice_index_or entries.new i F.ZERO ≡ slice_index_or entries.old i F.ZERO }
{
    if r < p {
        let (low, high) = entries.split_at_mut(p * cols);
        F::add_scaled_row(&mut low[r * cols..r * cols + cols], c, &high[..cols]);
    } else {
        let (low, high) = entries.split_at_mut(r * cols);
        F::add_scaled_row(&mut high[..cols], c, &low[p * cols..p * cols + cols]);
    }
}
