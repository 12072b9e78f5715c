//! Columns turned into rows.
ghost use Rattle.std.specs.Prelude.{◌≡◌, ◌<◌, ◌≤◌, ◌+◌, ◌*◌, ℕ, length, slice_index};
ghost use Rattle.std.specs.Prelude.{slice_index_or, []};
ghost use Rattle.transpose.specs.Squares.{IsMoved};
ghost use Rattle.transpose.specs.Turned.{byte};

use crate::square::turned;
use std::simd::prelude::*;

/// The rows and columns of a square.
const SIDE: usize = 16;

/// Columns of `count` bytes, `width` of them, one behind the other.
#[derive(Drop)]
struct Columns<'a> {
    bytes: &'a [u8],
    count: usize,
    width: usize,
    ghost whole: { length bytes.now ≡ width * count },
}

/// Turns columns into rows: puts byte i of column c at place c of row i.
///
/// Each of the `width` columns has `count` bytes and stands behind the one before it, and so does
/// each of the `count` rows, of `width` bytes. Both numbers may be 0. No byte of `rows` stays.
pub fn rows_from_columns(rows: &mut [u8], columns: &[u8], count: usize, width: usize)
    requires rows { length rows.old ≡ count * width }
    requires columns { length columns.now ≡ width * count }
    ensures { (i c : ℕ) → i < count → c < width
        → IsMoved columns.now count width rows.new i c }
{
    let source = Columns {
        bytes: columns,
        count,
        width,
    };
    if count < SIDE || width < SIDE {
        turn_bytes(rows, &source);
        return;
    }
    // Square by square. The last one of a side reaches back where less than a square is left.
    for side in 0..count.div_ceil(SIDE) {
        let top = (SIDE * side).min(count - SIDE);
        turn_side(rows, &source, top);
    }
}

// Byte by byte: no square has room.
fn turn_bytes(rows: &mut [u8], columns: &Columns<'_>)
    requires rows { length rows.old ≡ columns.now.count * columns.now.width }
    ensures { (i c : ℕ) → i < columns.now.count → c < columns.now.width
        → IsMoved columns.now.bytes.now columns.now.count columns.now.width rows.new i c }
{
    let Columns {
        bytes,
        count,
        width,
    } = *columns;
    for i in 0..count {
        for c in 0..width {
            rows[i * width + c] = bytes[c * count + i];
        }
    }
}

// The 16 rows from `top` on, square by square.
fn turn_side(rows: &mut [u8], columns: &Columns<'_>, top: usize)
    requires some_columns { 16 ≤ columns.now.width }
    requires inside { top + 16 ≤ columns.now.count }
    requires rows { length rows.old ≡ columns.now.count * columns.now.width }
    ensures here { (i c : ℕ) → top ≤ i → i < top + 16 → c < columns.now.width
        → IsMoved columns.now.bytes.now columns.now.count columns.now.width rows.new i c }
    ensures kept { (i c : ℕ) → i < columns.now.count → c < columns.now.width
        → IsMoved columns.now.bytes.now columns.now.count columns.now.width rows.old i c
        → IsMoved columns.now.bytes.now columns.now.count columns.now.width rows.new i c }
{
    for square in 0..columns.width.div_ceil(SIDE) {
        let left = (SIDE * square).min(columns.width - SIDE);
        turn_square(rows, columns, top, left);
    }
}

// The square of 16 rows from `top` on and 16 columns from `left` on.
#[inline(always)]
fn turn_square(rows: &mut [u8], columns: &Columns<'_>, top: usize, left: usize)
    requires inside { top + 16 ≤ columns.now.count }
    requires within { left + 16 ≤ columns.now.width }
    requires rows { length rows.old ≡ columns.now.count * columns.now.width }
    ensures here { (i c : ℕ) → top ≤ i → i < top + 16 → left ≤ c → c < left + 16
        → IsMoved columns.now.bytes.now columns.now.count columns.now.width rows.new i c }
    ensures kept { (i c : ℕ) → i < columns.now.count → c < columns.now.width
        → IsMoved columns.now.bytes.now columns.now.count columns.now.width rows.old i c
        → IsMoved columns.now.bytes.now columns.now.count columns.now.width rows.new i c }
{
    let Columns {
        bytes,
        count,
        width,
    } = *columns;
    let square = turned(&square_at(bytes, count, width, top, left));
    for r in 0..SIDE {
        put_row(rows, (top + r) * width + left, square[r]);
    }
}

#[inline(always)]
fn square_at(columns: &[u8], count: usize, width: usize, top: usize, left: usize) -> [u8x16; 16]
    requires inside { top + 16 ≤ count }
    requires within { left + 16 ≤ width }
    requires columns { length columns.now ≡ width * count }
    ensures { (l r : ℕ) → l < 16 → r < 16
        → byte result l r ≡ slice_index columns.now ((left + l) * count + (top + r)) }
{
    let mut square = [u8x16::splat(0); SIDE];
    for l in 0..SIDE {
        square[l] = u8x16::from_slice(&columns[(left + l) * count + top..]);
    }
    square
}

#[inline(always)]
fn put_row(rows: &mut [u8], at: usize, lanes: u8x16)
    requires { at + 16 ≤ length rows.old }
    ensures within { (l : ℕ) → l < 16
        → slice_index rows.new (at + l) ≡ slice_index lanes l }
    ensures below { (p : ℕ) → p < at → slice_index rows.new p ≡ slice_index rows.old p }
    ensures above { (p : ℕ) → at + 16 ≤ p
        → slice_index rows.new p ≡ slice_index rows.old p }
{
    lanes.copy_to_slice(&mut rows[at..]);
}
