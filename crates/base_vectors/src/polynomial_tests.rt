//! Polynomials.
use gf256::{Field, Gf};
use poly::{Poly, points_determine};

#[test]
fn multiplies_roots(rt: HostRuntime) {
    let cases: [(&[Gf], &[Gf]); 4] = [
        (&[], &[Gf(0x01)]),
        (&[Gf(0x01)], &[Gf(0x01), Gf(0x01)]),
        (&[Gf(0x04)], &[Gf(0x04), Gf(0x01)]),
        (&[Gf(0x01), Gf(0x02)], &[Gf(0x02), Gf(0x03), Gf(0x01)]),
    ];
    for (points, coefficients) in cases {
        assert!(rt; points.len() < 255);
        let right = Poly::from_roots(points).coefficients() == coefficients;
        assert!(rt; right, "of {} points", points.len());
    }
}

#[test]
fn takes_254_roots(rt: HostRuntime) {
    let polynomial = Poly::from_roots(&[Gf(0x01); 254]);
    assert!(rt; polynomial.coefficients().len() == 255);
}

// Whether the polynomial of these coefficients has this value at `x`.
fn has_value(coefficients: &[Gf], x: u8, value: u8) -> bool {
    match Poly::from_slice(coefficients) {
        Some(polynomial) => polynomial.eval(Gf(x)) == Gf(value),
        None => false,
    }
}

#[test]
fn evaluates(rt: HostRuntime) {
    let identity = [Gf(0x00), Gf(0x01)];
    let square = [Gf(0x00), Gf(0x00), Gf(0x01)];
    let line = [Gf(0x40), Gf(0x01)];
    let cases: [(&[Gf], u8, u8); 7] = [
        (&identity, 0x02, 0x02),
        (&identity, 0x04, 0x04),
        (&square, 0x08, 0x40),
        (&square, 0x10, 0x1D),
        (&line, 0x02, 0x42),
        (&line, 0x04, 0x44),
        (&[], 0x02, 0x00),
    ];
    for (coefficients, x, value) in cases {
        assert!(rt; has_value(coefficients, x, value), "{value} at {x}");
    }
}

#[test]
fn takes_255_coefficients_and_no_more(rt: HostRuntime) {
    let coefficients = [Gf(0x01); 256];
    assert!(rt; Poly::from_slice(&coefficients[..255]).is_some());
    assert!(rt; Poly::from_slice(&coefficients).is_none());
    points_determine::<Gf>();
}
