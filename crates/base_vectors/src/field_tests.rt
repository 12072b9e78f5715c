//! The field, its points and rows of bytes.
ghost use Rattle.std.specs.Prelude.{◌≤◌};

use gf256::{Field, Gf, add_scaled, point};

/// The product by the field's definition: for each bit of `a` that is set, `b` doubled so often.
pub(crate) fn defined_product(a: u8, b: u8) -> u8 {
    let mut product = 0u8;
    let mut power = b;
    for bit in 0..8u8 {
        if (a >> bit) & 1 == 1 {
            product ^= power;
        }
        let reduced = if power < 128 { 0 } else { 0x1D };
        power = power.wrapping_mul(2) ^ reduced;
    }
    product
}

#[test]
fn multiplies(rt: HostRuntime) {
    let products: [(u8, u8, u8); 14] = [
        (0x80, 0x02, 0x1D),
        (0xFF, 0x02, 0xE3),
        (0x03, 0x03, 0x05),
        (0xF4, 0x02, 0xF5),
        (0xF4, 0x04, 0xF7),
        (0xF4, 0x08, 0xF3),
        (0xF4, 0x10, 0xFB),
        (0xF4, 0x20, 0xEB),
        (0xF4, 0x40, 0xCB),
        (0xF4, 0x80, 0x8B),
        (0xF4, 0xF4, 0xA7),
        (0xF4, 0x03, 0x01),
        (0x00, 0xFF, 0x00),
        (0xFF, 0x00, 0x00),
    ];
    for (a, b, product) in products {
        assert!(rt; Gf(a).mul(Gf(b)) == Gf(product), "{a} times {b}");
    }
}

#[test]
fn adds_by_exclusive_or(rt: HostRuntime) {
    assert!(rt; Gf(0x53).add(Gf(0xCA)) == Gf(0x99));
    assert!(rt; Gf(0x53).add(Gf::ZERO) == Gf(0x53));
    assert!(rt; Gf::default() == Gf::ZERO);
}

fn has_inverse(a: u8, inverse: u8) -> bool {
    match Gf(a).inv() {
        Some(found) => found == Gf(inverse),
        None => false,
    }
}

#[test]
fn inverts(rt: HostRuntime) {
    assert!(rt; Gf::ZERO.inv().is_none());
    let inverses: [(u8, u8); 4] = [(0x01, 0x01), (0x02, 0x8E), (0x03, 0xF4), (0x05, 0xA7)];
    for (a, inverse) in inverses {
        assert!(rt; has_inverse(a, inverse), "of {a}");
    }
    assert!(rt; Gf::ONE.is_element());
}

#[test]
fn takes_powers_of_alpha(rt: HostRuntime) {
    let powers: [u8; 32] = [
        0x01, 0x02, 0x04, 0x08, 0x10, 0x20, 0x40, 0x80, 0x1D, 0x3A, 0x74, 0xE8, 0xCD, 0x87, 0x13,
        0x26, 0x4C, 0x98, 0x2D, 0x5A, 0xB4, 0x75, 0xEA, 0xC9, 0x8F, 0x03, 0x06, 0x0C, 0x18, 0x30,
        0x60, 0xC0,
    ];
    for esi in 0..32u8 {
        assert!(rt; point(esi) == Gf(powers[usize::from(esi)]), "power {esi}");
    }
    assert!(rt; point(1) == Gf::alpha());
    assert!(rt; point(254) == Gf(0x8E));
    assert!(rt; point(254).mul(Gf::alpha()) == Gf::ONE);
}

#[test]
fn adds_a_scaled_row(rt: HostRuntime) {
    let mut bytes = [0x01, 0x02, 0xFF];
    add_scaled(&mut bytes, Gf(0x02), &[0x80, 0x01, 0xFF]);
    assert!(rt; bytes == [0x1C, 0x00, 0x1C]);

    let mut row = [Gf(0x01), Gf(0x02), Gf(0xFF)];
    Gf::add_scaled_row(&mut row, Gf(0x02), &[Gf(0x80), Gf(0x01), Gf(0xFF)]);
    assert!(rt; row == [Gf(0x1C), Gf(0x00), Gf(0x1C)]);

    // Rows of no bytes may be added too.
    add_scaled(&mut [], Gf(0x02), &[]);
}

#[test]
fn adds_a_scaled_row_of_blocks(rt: HostRuntime) {
    let mut bytes = [0u8; 67];
    let mut other = [0u8; 67];
    for i in 0..67u8 {
        bytes[usize::from(i)] = 3 * i;
        other[usize::from(i)] = i.wrapping_mul(7).wrapping_add(200);
    }
    add_scaled(&mut bytes, Gf(0xF4), &other);
    let sums: [u8; 67] = [
        0xB3, 0x46, 0xBF, 0x42, 0x50, 0x56, 0xB7, 0x42, 0x18, 0xED, 0xEF, 0xD9, 0xDB, 0xCD, 0xC7,
        0xC9, 0xD3, 0x26, 0xFF, 0x02, 0xFB, 0xFD, 0x97, 0x62, 0x93, 0x66, 0x64, 0xD9, 0xDB, 0x26,
        0x2C, 0xC9, 0xF3, 0x06, 0xFF, 0x02, 0xDB, 0xDD, 0x3C, 0xC9, 0xD3, 0x26, 0x24, 0xD2, 0xD0,
        0x86, 0x8C, 0x82, 0x98, 0x6D, 0x7F, 0x82, 0x7B, 0x7D, 0x9C, 0x69, 0x98, 0x6D, 0x6F, 0x92,
        0x90, 0x6D, 0x67, 0xC2, 0xB8, 0x4D, 0xB4,
    ];
    assert!(rt; bytes == sums);
}

// Whether the front of a row of elements gains what a row of the same bytes does, and the rest of
// it stays.
fn adds_elements_as_bytes(length: usize) -> bool
    requires { length ≤ 300 }
{
    let mut bytes = [0u8; 300];
    let mut other_bytes = [0u8; 300];
    let mut elements = [Gf(0); 300];
    let mut other_elements = [Gf(0); 300];
    let row = &mut elements[..];
    let other = &mut other_elements[..];
    for i in 0..300usize {
        bytes[i] = (i % 251) as u8;
        row[i] = Gf((i % 251) as u8);
        other_bytes[i] = (i % 253) as u8;
        other[i] = Gf((i % 253) as u8);
    }
    add_scaled(&mut bytes[..length], Gf(0xF4), &other_bytes[..length]);
    Gf::add_scaled_row(&mut row[..length], Gf(0xF4), &other[..length]);
    for i in 0..300usize {
        if row[i] != Gf(bytes[i]) {
            return false;
        }
    }
    true
}

// At each length from which on rows of elements are added otherwise.
#[test]
fn adds_a_scaled_row_of_elements(rt: HostRuntime) {
    for length in [0, 1, 31, 32, 33, 63, 64, 255, 256, 257, 300] {
        assert!(rt; adds_elements_as_bytes(length), "length {length}");
    }
}

// Whether the front of a row gains the products of the definition, whatever the element, and the
// rest of it stays.
fn scales_as_defined(length: usize) -> bool
    requires { length ≤ 65 }
{
    let mut old = [0u8; 65];
    let mut other = [0u8; 65];
    for i in 0..65u8 {
        old[usize::from(i)] = i.wrapping_mul(91).wrapping_add(17);
        other[usize::from(i)] = i.wrapping_mul(167).wrapping_add(5);
    }
    for c in 0..256u16 {
        let mut row = old;
        add_scaled(&mut row[..length], Gf(c as u8), &other[..length]);
        for i in 0..65usize {
            let gained = if i < length {
                defined_product(c as u8, other[i])
            } else {
                0
            };
            if row[i] != old[i] ^ gained {
                return false;
            }
        }
    }
    true
}

#[test]
fn scales_rows_of_each_length(rt: HostRuntime) {
    for length in [0, 1, 31, 32, 33, 64, 65] {
        assert!(rt; scales_as_defined(length), "length {length}");
    }
}
