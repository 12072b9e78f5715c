//! Rows of elements, which matrices have: by way of rows of bytes, which are added 16 at a time.
ghost use Rattle.std.specs.Prelude.{◌≡◌, ◌≤◌, length};
ghost use Rattle.gf256.specs.Rows.{plus_scaled};

use crate::field::Field;
use crate::gf::Gf;
use crate::rows::add_scaled;

// As many elements as are copied to bytes: no row of a matrix has more.
const MOST_AT_ONCE: usize = 256;

// Copying fewer isn't worth it.
const LEAST_AT_ONCE: usize = 32;

/// Adds `c` times `other` to `row`, element by element. They have as many, maybe none.
pub(crate) fn add_scaled_elements(row: &mut [Gf], c: Gf, other: &[Gf])
    requires { length row.old ≡ length other.now }
    ensures { row.new ≡ plus_scaled c row.old other.now }
{
    if row.len() < LEAST_AT_ONCE || row.len() > MOST_AT_ONCE {
        add_one_by_one(row, c, other);
    } else {
        add_as_bytes(row, c, other);
    }
}

fn add_one_by_one(row: &mut [Gf], c: Gf, other: &[Gf])
    requires { length row.old ≡ length other.now }
    ensures { row.new ≡ plus_scaled c row.old other.now }
{
    for (i, element) in row.iter_mut().enumerate() {
        let factor = other[i];
        factor.is_element();
        element.is_element();
        *element = element.add(c.mul(factor));
    }
}

fn add_as_bytes(row: &mut [Gf], c: Gf, other: &[Gf])
    requires lengths { length row.old ≡ length other.now }
    requires few { length row.old ≤ 256 }
    ensures { row.new ≡ plus_scaled c row.old other.now }
{
    let mut sums = [0u8; MOST_AT_ONCE];
    let mut bytes = [0u8; MOST_AT_ONCE];
    let sums = &mut sums[..row.len()];
    let bytes = &mut bytes[..other.len()];
    to_bytes(sums, row);
    to_bytes(bytes, other);
    add_scaled(sums, c, bytes);
    from_bytes(row, sums);
}

fn to_bytes(bytes: &mut [u8], elements: &[Gf])
    requires { length bytes.old ≡ length elements.now }
    ensures { bytes.new ≡ elements.now }
{
    for (i, byte) in bytes.iter_mut().enumerate() {
        let element = elements[i];
        *byte = element.0;
    }
}

fn from_bytes(elements: &mut [Gf], bytes: &[u8])
    requires { length elements.old ≡ length bytes.now }
    ensures { elements.new ≡ bytes.now }
{
    for (i, element) in elements.iter_mut().enumerate() {
        *element = Gf(bytes[i]);
    }
}
