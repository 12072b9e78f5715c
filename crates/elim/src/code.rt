//! The generator matrix of the code, and the interpolation of its words.
ghost use Rattle.std.specs.Prelude.{◌≡◌, ◌<◌, ◌≤◌, IfOk, length, map, take};
ghost use Rattle.elim.specs.Generator.{IsGenerator, IsSystematic, Encodes, Interpolates};
ghost use Rattle.elim.specs.CodePoints.{ArePoints};
ghost use Rattle.elim.specs.Grid.{HasShape};
ghost use Rattle.elim.specs.Lagrange.{differences, IsEntry};

use crate::lagrange::{differences_at, inverse, master, numerator, value};
use crate::matrix::Matrix;
use gf256::{Field, Gf, point};
use std::alloc::{AllocError, Global};

// The first points of the code.
fn points(alloc: Global, count: usize) -> Result<Vec<Gf>, AllocError>
    requires { count ≤ 255 }
    ensures { IfOk result (λ v. ArePoints count v.items) }
{
    let mut points = Vec::with_capacity(alloc, count)?;
    for j in 0..count {
        points.push(point(j as u8))?;
    }
    Ok(points)
}

// The generator matrix's entry in row `i` and column `j`: the value at point `j` of the polynomial
// that is one at point `i` and zero at the others of the first `k`. `products` are the points'
// differences from these.
fn entry_at(k: usize, points: &[Gf], products: &[Gf], i: usize, j: usize) -> Gf
    requires few { k ≤ 255 }
    requires row { i < k }
    requires column { j < length points.now }
    requires wide { k ≤ length points.now }
    requires small { length points.now ≤ 255 }
    requires points { ArePoints (length points.now) points.now }
    requires products { products.now ≡ map (differences (take k points.now)) points.now }
    ensures { IsEntry k (take k points.now) i j result }
{
    if j < k {
        return if i == j { Gf::ONE } else { Gf::ZERO };
    }
    let below = products[i].mul(points[j].add(points[i]));
    products[j].mul(inverse(below))
}

/// The generator matrix of `k` rows and `n` columns of RFC 5510, section 8.2.1: the inverse of the
/// Vandermonde matrix of the first `k` points and `k` rows, times that of the first `n` points and
/// `k` rows. A block has `k` source symbols, one at least, and `n` encoding symbols, at least `k`
/// and at most 255. Want of memory is the only error.
pub fn generator(alloc: Global, k: usize, n: usize) -> Result<Matrix<Gf>, AllocError>
    requires some { 0 < k }
    requires wide { k ≤ n }
    requires few { n ≤ 255 }
    ensures generator { IfOk result (IsGenerator k n) }
    ensures systematic { IfOk result (IsSystematic k) }
    ensures encodes { IfOk result (Encodes k n) }
{
    let points = points(alloc, n)?;
    let products = differences_at(alloc, &points[..k], &points)?;
    let mut made = Matrix::try_new(alloc, k, n)?;
    for i in 0..k {
        for j in 0..n {
            made.set(i, j, entry_at(k, &points, &products, i, j));
        }
    }
    Ok(made)
}

/// The inverse of the Vandermonde matrix of the first `k` points, 1 to 255: a row of `k` bytes
/// times it is the coefficients, the constant one first, of the polynomial with these values at the
/// points. Want of memory is the only error.
pub fn interpolator(alloc: Global, k: usize) -> Result<Matrix<Gf>, AllocError>
    requires some { 0 < k }
    requires few { k ≤ 255 }
    ensures shape { IfOk result (HasShape k k) }
    ensures interpolates { IfOk result (Interpolates k) }
{
    let points = points(alloc, k)?;
    let master = master(alloc, &points)?;
    let mut made = Matrix::try_new(alloc, k, k)?;
    for i in 0..k {
        let numerator = numerator(alloc, &points, &master, i)?;
        let scale = inverse(value(&numerator, points[i]));
        made.set_row(i, scale, &numerator);
    }
    Ok(made)
}
