//! Many rows at once: sums of products, values at all points, and columns turned into rows.
ghost use Rattle.std.specs.Prelude.{◌≡◌, ◌≤◌, ◌<◌, ◌+◌, ◌*◌, ◌^◌, length, IfOk};

use crate::field_tests::defined_product;
use evaluation::evaluate;
use gf256::{add_products, point};
use std::alloc::{AllocError, Global};
use std::test::Fail;
use transpose::rows_from_columns;

// Bytes that follow no pattern of the code's.
fn mixed(alloc: Global, count: usize, seed: u64) -> Result<Vec<u8>, AllocError>
    ensures { IfOk result (λ v. length v.items ≡ count) }
{
    let mut bytes = Vec::from_elem(alloc, 0u8, count)?;
    let mut state = seed;
    for byte in bytes.iter_mut() {
        state = state
            .wrapping_mul(0x5851_F42D_4C95_7F2D)
            .wrapping_add(0x1405_7B7E_F767_814F);
        *byte = (state >> 56) as u8;
    }
    Ok(bytes)
}

// The byte at a place, and 0 past the end.
fn byte_at(bytes: &[u8], place: usize) -> u8 {
    match bytes.get(place) {
        Some(&byte) => byte,
        None => 0,
    }
}

// Where byte `column` of a row stands.
fn place(row: usize, size: usize, column: usize) -> usize {
    row.wrapping_mul(size).wrapping_add(column)
}

/// A product's numbers.
#[derive(Clone, Copy)]
struct Shape {
    rows: usize,
    count: usize,
    stride: usize,
    width: usize,
    // How many bytes the sources have in all.
    bytes: usize,
}

// Whether each output gains the sum by the definition.
fn sums_as_defined(alloc: Global, shape: Shape) -> Result<bool, AllocError>
    requires outputs { shape.rows * shape.width < 2 ^ 32 }
    requires coefficients { shape.rows * shape.count < 2 ^ 32 }
    requires reach { shape.count * shape.stride + shape.width < 2 ^ 32 }
{
    let old = mixed(alloc, shape.rows * shape.width, 1)?;
    let mut new = mixed(alloc, shape.rows * shape.width, 1)?;
    let coefficients = mixed(alloc, shape.rows * shape.count, 2)?;
    let sources = mixed(alloc, shape.bytes, 3)?;
    add_products(
        &mut new,
        shape.rows,
        &coefficients,
        &sources,
        shape.count,
        shape.stride,
        shape.width,
    );
    for r in 0..shape.rows {
        for c in 0..shape.width {
            let mut sum = byte_at(&old, place(r, shape.width, c));
            for i in 0..shape.count {
                let coefficient = byte_at(&coefficients, place(r, shape.count, i));
                let byte = byte_at(&sources, place(i, shape.stride, c));
                sum ^= defined_product(coefficient, byte);
            }
            if byte_at(&new, place(r, shape.width, c)) != sum {
                return Ok(false);
            }
        }
    }
    Ok(true)
}

// Whether that is so of rows that stand side by side.
fn sums_side_by_side(alloc: Global, rows: u8, count: u16, width: u8) -> Result<bool, AllocError> {
    let rows = usize::from(rows);
    let count = usize::from(count);
    let width = usize::from(width);
    let shape = Shape {
        rows,
        count,
        stride: width,
        width,
        bytes: count * width,
    };
    sums_as_defined(alloc, shape)
}

#[test]
fn sums_products(rt: HostRuntime) -> Result<(), Fail> {
    for (rows, count, width) in [
        (0u8, 3u16, 5u8),
        (3, 0, 5),
        (3, 5, 0),
        (1, 1, 1),
        (2, 3, 63),
        (33, 5, 64),
        (65, 64, 65),
        (3, 65, 130),
        (2, 255, 17),
        (1, 300, 9),
    ] {
        let right = sums_side_by_side(rt.alloc(), rows, count, width)?;
        assert!(rt; right, "{rows} rows of {count}, {width} wide");
    }
    Ok(())
}

// Sources that stand apart, or one over the other, or of which the last ends early.
#[test]
fn sums_products_of_sources_apart(rt: HostRuntime) -> Result<(), Fail> {
    for (stride, bytes) in [(100usize, 700usize), (30, 250), (64, 400), (64, 0)] {
        let shape = Shape {
            rows: 5,
            count: 7,
            stride,
            width: 64,
            bytes,
        };
        if stride < 1000 {
            assert!(rt; sums_as_defined(rt.alloc(), shape)?, "{stride} {bytes}");
        }
    }
    Ok(())
}

// Whether each row is the polynomials' values at its point.
fn evaluates_as_defined(
    alloc: Global,
    k: u8,
    first: u8,
    n: u8,
    width: u8,
) -> Result<bool, AllocError> {
    let k = usize::from(k);
    let first = usize::from(first);
    let n = usize::from(n);
    let width = usize::from(width);
    let coefficients = mixed(alloc, k * width, 4)?;
    let mut symbols = mixed(alloc, n * width, 5)?;
    evaluate(&mut symbols, first, n, &coefficients, k, width);
    for j in 0..n {
        let power = point(((first + j) % 255) as u8).0;
        for c in 0..width {
            let mut value = 0u8;
            for i in (0..k).rev() {
                value = defined_product(value, power) ^ byte_at(&coefficients, place(i, width, c));
            }
            if byte_at(&symbols, place(j, width, c)) != value {
                return Ok(false);
            }
        }
    }
    Ok(true)
}

// Few products, and then transforms of 64, 128 and 256 coefficients.
#[test]
fn evaluates_at_all_points(rt: HostRuntime) -> Result<(), Fail> {
    for (k, first, n, width) in [
        (0u8, 0u8, 3u8, 5u8),
        (1, 0, 255, 3),
        (90, 0, 10, 2),
        (20, 20, 12, 5),
        (128, 240, 16, 65),
        (9, 0, 255, 3),
        (50, 0, 100, 7),
        (64, 254, 40, 64),
        (65, 0, 100, 7),
        (128, 0, 170, 65),
        (129, 100, 60, 3),
        (255, 0, 255, 3),
    ] {
        let right = evaluates_as_defined(rt.alloc(), k, first, n, width)?;
        assert!(rt; right, "{k} coefficients at {n} points from {first} on");
    }
    Ok(())
}

// Whether byte i of column c comes to place c of row i.
fn turns(alloc: Global, count: u8, width: u8) -> Result<bool, AllocError> {
    let count = usize::from(count);
    let width = usize::from(width);
    let columns = mixed(alloc, width * count, 7)?;
    let mut rows = mixed(alloc, count * width, 8)?;
    rows_from_columns(&mut rows, &columns, count, width);
    for i in 0..count {
        for c in 0..width {
            if byte_at(&rows, place(i, width, c)) != byte_at(&columns, place(c, count, i)) {
                return Ok(false);
            }
        }
    }
    Ok(true)
}

#[test]
fn turns_columns_into_rows(rt: HostRuntime) -> Result<(), Fail> {
    for (count, width) in [(0u8, 5u8), (3, 5), (15, 40), (16, 16), (17, 31), (48, 33)] {
        assert!(rt;
            turns(rt.alloc(), count, width)?,
            "{count} rows, {width} wide"
        );
    }
    Ok(())
}
