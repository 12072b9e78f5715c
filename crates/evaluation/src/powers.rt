//! Matrices of powers of alpha.
ghost use Rattle.std.specs.Prelude.{◌≡◌, ◌<◌, ◌≤◌, ◌*◌, ◌^◌, length};
ghost use Rattle.gf256.specs.Arithmetic.{alpha_to};
ghost use Rattle.evaluation.specs.Sums.{ArePowers};

use gf256::point;

/// alpha to any power.
#[inline(always)]
#[tactic(auto, using(crate::proofs::ByteSums::alpha_to_rest))]
fn power(exponent: usize) -> u8
    ensures { result ≡ alpha_to exponent }
{
    point((exponent % 255) as u8).0
}

/// Fills a matrix row by row: in row j and column i alpha to the power `i * (first + j * step)`.
pub(crate) fn write_powers(matrix: &mut [u8], n: usize, k: usize, first: usize, step: usize)
    requires room { length matrix.old ≡ n * k }
    requires rows { n ≤ 255 }
    requires few { k ≤ 255 }
    requires near { first ≤ 255 }
    requires small { step ≤ 255 }
    ensures { ArePowers matrix.new n k first step }
{
    for j in 0..n {
        for i in 0..k {
            matrix[j * k + i] = power(i * (first + j * step));
        }
    }
}
