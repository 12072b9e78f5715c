//! The coefficients, by the values at all 255 points.
ghost use Rattle.std.specs.Prelude.{◌≡◌, ◌<◌, ◌≤◌, ◌*◌, length};
ghost use Rattle.evaluation.specs.Coefficients.{AreCoefficients};

use crate::values::{Coefficients, Points, write_by_transform};

/// How many points there are: all elements but 0.
const POINTS: usize = 255;

/// Makes row i of `rows` coefficient i of the polynomials of `k` coefficients whose values at point
/// j stand in the columns of row j of `values`, for all 255 points. There are `k` rows, each of
/// `width` bytes; `k` is at most 255, and `width` may be 0. Where a column's values are those of no
/// such polynomial, what becomes of it is not told.
///
/// The sum of alpha^(i * m) over all i < 255 is 1 where 255 divides m, and else 0. So coefficient t
/// is the sum of the values, each times alpha^(-i * t): the value at alpha^(254 * t) of the
/// polynomial that has the values as its coefficients.
pub fn coefficients(rows: &mut [u8], k: usize, values: &[u8], width: usize)
    requires few { k ≤ 255 }
    requires room { length rows.old ≡ k * width }
    requires values { length values.now ≡ 255 * width }
    ensures len { length rows.new ≡ length rows.old }
    ensures coefficients { AreCoefficients values.now width k rows.new }
{
    let points = Points {
        first: 0,
        step: POINTS - 1,
        count: k,
    };
    let values = Coefficients {
        bytes: values,
        k: POINTS,
        width,
    };
    write_by_transform(rows, &points, &values);
}
