//! Lagrange's polynomials of the first points of the code: one at a point and zero at the others.
ghost use Rattle.std.specs.Prelude.{◌≡◌, ◌≢◌, ◌<◌, ◌≤◌, ℕ, IfOk, length, map};
ghost use Rattle.lists.specs.Bytes.{IsByte};
ghost use Rattle.gf256.specs.Arithmetic.{product};
ghost use Rattle.poly.specs.Polynomial.{value as value_of};
ghost use Rattle.elim.specs.CodePoints.{ArePoints};
ghost use Rattle.elim.specs.Lagrange.{differences as differences_of, IsMaster, IsNumerator};

use crate::matrix::zeros;
use gf256::{Field, Gf};
use poly::Poly;
use std::alloc::{AllocError, Global};

/// One divided by `a`.
pub(crate) fn inverse(a: Gf) -> Gf
    requires { a ≢ 0 }
    ensures inverse { product a result ≡ 1 }
    ensures fits { IsByte result }
{
    match a.inv() {
        Some(inverse) => inverse,
        None => unreachable!(),
    }
}

// The product of the sums of `x` and each point that isn't `x`.
fn differences(points: &[Gf], x: Gf) -> Gf
    requires { ArePoints (length points.now) points.now }
    ensures { result ≡ differences_of points.now x }
{
    let mut product = Gf::ONE;
    for point in points {
        if x != *point {
            product = product.mul(x.add(*point));
        }
    }
    product
}

/// For each of these elements, the product of its sums with the points other than itself.
pub(crate) fn differences_at(alloc: Global, points: &[Gf], xs: &[Gf]) -> Result<Vec<Gf>, AllocError>
    requires { ArePoints (length points.now) points.now }
    ensures { IfOk result (λ v. v.items ≡ map (differences_of points.now) xs.now) }
{
    let mut products = Vec::with_capacity(alloc, xs.len())?;
    for x in xs {
        products.push(differences(points, *x))?;
    }
    Ok(products)
}

/// The value of a polynomial at `x`.
pub(crate) fn value(coefficients: &[Gf], x: Gf) -> Gf
    requires { length coefficients.now ≤ 255 }
    ensures { result ≡ value_of coefficients.now x }
{
    match Poly::from_slice(coefficients) {
        Some(polynomial) => polynomial.eval(x),
        None => unreachable!(),
    }
}

/// The coefficients of the product of `x + p` over the points `p`, the constant one first.
pub(crate) fn master(alloc: Global, points: &[Gf]) -> Result<Vec<Gf>, AllocError>
    requires some { 0 < length points.now }
    requires few { length points.now ≤ 255 }
    requires points { ArePoints (length points.now) points.now }
    ensures { IfOk result (λ v. IsMaster points.now v.items) }
{
    let first = points[0];
    let others = Poly::from_roots(&points[1..]);
    let mut master = Vec::with_capacity(alloc, points.len() + 1)?;
    let mut before = Gf::ZERO;
    for coefficient in others.coefficients() {
        coefficient.is_element();
        master.push(before.add(first.mul(*coefficient)))?;
        before = *coefficient;
    }
    master.push(before)?;
    Ok(master)
}

/// The master polynomial of the first points, divided by `x` + point `i`.
pub(crate) fn numerator(
    alloc: Global,
    points: &[Gf],
    master: &[Gf],
    i: usize,
) -> Result<Vec<Gf>, AllocError>
    requires few { length points.now ≤ 255 }
    requires points { ArePoints (length points.now) points.now }
    requires master { IsMaster points.now master.now }
    requires within { i < length points.now }
    ensures { IfOk result (λ v. IsNumerator (length points.now) i v.items) }
{
    let point = points[i];
    let mut quotient = zeros(alloc, points.len())?;
    let mut value = Gf::ZERO;
    for m in (0..points.len()).rev() {
        value = master[m + 1].add(point.mul(value));
        quotient[m] = value;
    }
    Ok(quotient)
}
