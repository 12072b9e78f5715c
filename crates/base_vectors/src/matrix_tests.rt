//! Matrices.
ghost use Rattle.std.specs.Prelude.{◌≡◌, ◌<◌, ◌≤◌, ◌+◌, ◌*◌, ℕ, IfOk, length, slice_index};
ghost use Rattle.elim.specs.Grid.{HasShape};

use crate::is_shown_as;
use elim::{ElimError, Matrix, generator, invert, product, recovery, vandermonde};
use gf256::{Field, Gf};
use std::alloc::{AllocError, Global};
use std::test::Fail;

fn two_by_two(alloc: Global, entries: [[u8; 2]; 2]) -> Result<Matrix<Gf>, AllocError>
    ensures { IfOk result (HasShape 2 2) }
{
    let mut m = Matrix::try_new(alloc, 2, 2)?;
    let [[a, b], [c, d]] = entries;
    m.set(0, 0, Gf(a));
    m.set(0, 1, Gf(b));
    m.set(1, 0, Gf(c));
    m.set(1, 1, Gf(d));
    Ok(m)
}

/// Whether the matrix begins with the identity of `k` rows.
fn begins_with_identity(m: &Matrix<Gf>, k: usize) -> bool
    requires rows { k ≤ m.now.rows }
    requires columns { k ≤ m.now.cols }
{
    for i in 0..k {
        for j in 0..k {
            if m.get(i, j) != Gf(if i == j { 1 } else { 0 }) {
                return false;
            }
        }
    }
    true
}

/// Whether the matrix has two rows of three, and these.
fn is_two_by_three(m: &Matrix<Gf>, rows: [[u8; 3]; 2]) -> bool {
    if m.rows() != 2 || m.cols() != 3 {
        return false;
    }
    for i in 0..2 {
        for j in 0..3 {
            if m.get(i, j) != Gf(rows[i][j]) {
                return false;
            }
        }
    }
    true
}

/// Whether the matrix whose product with `m` is the identity is `wanted`.
fn has_inverse(alloc: Global, m: &Matrix<Gf>, wanted: [[u8; 2]; 2]) -> Result<bool, ElimError>
    requires { HasShape 2 2 m.now }
{
    let inverse = invert(alloc, m)?;
    let [[a, b], [c, d]] = wanted;
    Ok(
        inverse.get(0, 0) == Gf(a)
            && inverse.get(0, 1) == Gf(b)
            && inverse.get(1, 0) == Gf(c)
            && inverse.get(1, 1) == Gf(d),
    )
}

#[test]
fn inverts_by_a_change_of_rows(rt: HostRuntime) -> Result<(), Fail> {
    let swap = two_by_two(rt.alloc(), [[0, 1], [1, 0]])?;
    assert!(rt; has_inverse(rt.alloc(), &swap, [[0, 1], [1, 0]])?);
    Ok(())
}

#[test]
fn finds_a_singular_matrix(rt: HostRuntime) -> Result<(), Fail> {
    let m = two_by_two(rt.alloc(), [[1, 2], [2, 4]])?;
    let answer = invert(rt.alloc(), &m);
    assert!(rt; matches!(&answer, Err(ElimError::Singular)));
    Ok(())
}

#[test]
fn names_its_errors(rt: HostRuntime) -> Result<(), Fail> {
    for (error, name) in [
        (ElimError::Singular, "E1 Singular"),
        (ElimError::from(AllocError), "E2 NoMemory"),
    ] {
        assert!(rt; is_shown_as(rt.alloc(), error, name)?, "{name}");
    }
    Ok(())
}

#[test]
fn multiplies_a_vandermonde_matrix(rt: HostRuntime) -> Result<(), Fail> {
    let points = [Gf(1), Gf(2), Gf(4)];
    let powers = vandermonde(rt.alloc(), &points, 2)?;
    let m = two_by_two(rt.alloc(), [[1, 1], [0, 2]])?;
    let made = product(rt.alloc(), &m, &powers)?;
    assert!(rt; is_two_by_three(&made, [[0, 3, 5], [2, 4, 8]]));
    Ok(())
}

#[test]
fn generates_two_of_three(rt: HostRuntime) -> Result<(), Fail> {
    let generator = generator(rt.alloc(), 2, 3)?;
    assert!(rt; is_two_by_three(&generator, [[1, 0, 2], [0, 1, 3]]));
    Ok(())
}

#[test]
fn begins_generators_with_the_identity(rt: HostRuntime) -> Result<(), Fail> {
    let sizes: [(usize, usize); 4] = [(1, 1), (1, 4), (4, 6), (20, 255)];
    for (k, n) in sizes {
        assert!(rt; 0 < k && k <= n && n <= 255);
        let generator = generator(rt.alloc(), k, n)?;
        assert!(rt; begins_with_identity(&generator, k), "for {k} of {n}");
    }
    Ok(())
}

/// Whether the longer matrix of `rows` rows begins with the columns of the shorter one, of which
/// there are `cols`.
fn begins_with_columns(longer: &Matrix<Gf>, shorter: &Matrix<Gf>, rows: usize, cols: usize) -> bool
    requires rows { rows ≤ shorter.now.rows }
    requires cols { cols ≤ shorter.now.cols }
    requires longer_rows { rows ≤ longer.now.rows }
    requires longer_cols { cols ≤ longer.now.cols }
{
    for i in 0..rows {
        for j in 0..cols {
            if longer.get(i, j) != shorter.get(i, j) {
                return false;
            }
        }
    }
    true
}

#[test]
fn fewer_columns_are_the_first_of_255(rt: HostRuntime) -> Result<(), Fail> {
    let longest = generator(rt.alloc(), 20, 255)?;
    for n in [20, 21, 30, 254] {
        assert!(rt; 20 <= n && n <= 255);
        let shorter = generator(rt.alloc(), 20, n)?;
        assert!(rt; begins_with_columns(&longest, &shorter, 20, n), "for {n}");
    }
    Ok(())
}

#[test]
fn generates_the_largest(rt: HostRuntime) -> Result<(), Fail> {
    let generator = generator(rt.alloc(), 255, 255)?;
    assert!(rt; begins_with_identity(&generator, 255));
    Ok(())
}

/// As many ESIs, the first of which is `from`, and each of which is `step` above the one before it.
fn rising(alloc: Global, from: u8, step: u8, count: usize) -> Result<Vec<u8>, AllocError>
    requires { from + step * count ≤ 255 }
    ensures count { IfOk result (λ v. length v.items ≡ count) }
    ensures at { IfOk result
        (λ v. (i : ℕ) → i < count → slice_index v.items i ≡ from + step * i) }
{
    let mut esis = Vec::with_capacity(alloc, count)?;
    let mut next = from;
    for _i in 0..count {
        esis.push(next)?;
        next += step;
    }
    Ok(esis)
}

/// A row of 20 source symbols of a byte each. Those with odd ESIs are zero unless they are wanted.
fn source_symbols(alloc: Global, odd: bool) -> Result<Matrix<Gf>, AllocError>
    ensures { IfOk result (HasShape 1 20) }
{
    let mut row = Matrix::try_new(alloc, 1, 20)?;
    for i in 0..20 {
        if odd || i % 2 == 0 {
            row.set(0, i, Gf(7 * i as u8 + 3));
        }
    }
    Ok(row)
}

/// The sums of the last ten of 30 symbols in two rows.
fn repair_sums(alloc: Global, a: &Matrix<Gf>, b: &Matrix<Gf>) -> Result<Matrix<Gf>, AllocError>
    requires first { HasShape 1 30 a.now }
    requires second { HasShape 1 30 b.now }
    ensures { IfOk result (HasShape 1 10) }
{
    let mut row = Matrix::try_new(alloc, 1, 10)?;
    for j in 0..10 {
        row.set(0, j, a.get(0, 20 + j).add(b.get(0, 20 + j)));
    }
    Ok(row)
}

#[test]
fn recovers_one_of_two(rt: HostRuntime) -> Result<(), Fail> {
    let generator = generator(rt.alloc(), 2, 3)?;
    let missing = rising(rt.alloc(), 0, 1, 1)?;
    let repair = rising(rt.alloc(), 2, 1, 1)?;
    let recovery = recovery(rt.alloc(), &generator, &missing, &repair)?;
    // the inverse of 2
    assert!(rt; recovery.get(0, 0) == Gf(0x8e));
    Ok(())
}

/// The 30 symbols of the block whose source symbols are those 20.
fn word(alloc: Global, generator: &Matrix<Gf>, odd: bool) -> Result<Matrix<Gf>, AllocError>
    requires { HasShape 20 30 generator.now }
    ensures { IfOk result (HasShape 1 30) }
{
    let symbols = source_symbols(alloc, odd)?;
    product(alloc, &symbols, generator)
}

/// What the odd source symbols add to the repair symbols.
fn odd_sums(alloc: Global, generator: &Matrix<Gf>) -> Result<Matrix<Gf>, AllocError>
    requires { HasShape 20 30 generator.now }
    ensures { IfOk result (HasShape 1 10) }
{
    let sent = word(alloc, generator, true)?;
    let known = word(alloc, generator, false)?;
    repair_sums(alloc, &sent, &known)
}

/// Whether a row has the ten odd source symbols.
fn has_odd_symbols(row: &Matrix<Gf>) -> bool
    requires { HasShape 1 10 row.now }
{
    for i in 0..10 {
        if row.get(0, i) != Gf(7 * (2 * i as u8 + 1) + 3) {
            return false;
        }
    }
    true
}

#[test]
fn recovers_half_of_a_block(rt: HostRuntime) -> Result<(), Fail> {
    let generator = generator(rt.alloc(), 20, 30)?;
    let missing = rising(rt.alloc(), 1, 2, 10)?;
    let repair = rising(rt.alloc(), 20, 1, 10)?;
    let recovery = recovery(rt.alloc(), &generator, &missing, &repair)?;
    let sums = odd_sums(rt.alloc(), &generator)?;
    let made = product(rt.alloc(), &sums, &recovery)?;
    assert!(rt; has_odd_symbols(&made));
    Ok(())
}
