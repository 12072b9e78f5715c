//! Whether the symbols that came of a block can have its padding, the zeros behind the object's
//! end: told without solving for what is missing. The last source symbol's padding is known whether
//! it came or not, and so with as many symbols as the block needs the values of each of these
//! columns are one more than determine its polynomial.
ghost use Rattle.std.specs.Prelude.{◌≡◌, ◌<◌, ◌≤◌, ◌+◌, ◌-◌, ◌||◌, ◌==◌, ℕ, false, length, drop};
ghost use Rattle.std.specs.Prelude.{slice_index, is_some, option_map, IfOk};
ghost use Rattle.std.specs.List.{All};
ghost use Rattle.partition.specs.Fti.{block_count, source_count, encoding_count, source_place};
ghost use Rattle.block_recovery.specs.Blocks.{bytes_of_esi, byte_of, HaveLength};
ghost use Rattle.block_recovery.specs.Decoded.{IsEnoughAt, IsUnexplained};
ghost use Rattle.block_recovery.specs.Differences.{differences, weight as weight_of, weighted_sum};
ghost use Rattle.block_recovery.specs.Erasures.{AreThose};

use crate::rows::is_zero;
use gf256::{Field, Gf, add_scaled, point};
use partition::Fti;
use std::alloc::{AllocError, Global};

// How many bytes of a block's last source symbol are the object's; those behind are padding.
fn last_used(fti: &Fti, b: u32) -> usize
    requires { b < block_count fti.now }
    ensures few { result ≤ fti.now.symbol_length }
    ensures padding { (c : ℕ) → result ≤ c → c < fti.now.symbol_length
        → fti.now.transfer_length ≤ source_place fti.now b (source_count fti.now b - 1) c }
{
    let size = u64::from(fti.symbol_length());
    let last = fti.start(b) + fti.k(b) as u64 - 1;
    let left = fti.transfer_length() - last * size;
    left.min(size) as usize
}

// The symbol that came at an ESI, if one did.
fn symbol_at<'a>(arrivals: &[Option<&'a [u8]>], esi: usize) -> Option<&'a [u8]>
    requires { esi < length arrivals.now }
    ensures { option_map (λ s. s.now) result ≡ bytes_of_esi arrivals.now esi }
{
    arrivals[esi]
}

// The bytes of a symbol from a column on.
fn from_column(symbol: &[u8], column: usize) -> &[u8]
    requires { column ≤ length symbol.now }
    ensures { result.now ≡ drop column symbol.now }
{
    &symbol[column..]
}

// The ESIs of the symbols that came, and one more, rising.
fn esis_with(alloc: Global, arrivals: &[Option<&[u8]>], more: usize) -> Result<Vec<u8>, AllocError>
    requires { length arrivals.now ≤ 255 }
    ensures { IfOk result (λ v. AreThose (λ j. is_some (bytes_of_esi arrivals.now j) || j == more)
        0 (length arrivals.now) v.items) }
{
    let mut esis = Vec::new(alloc);
    for j in 0..arrivals.len() {
        if symbol_at(arrivals, j).is_some() || j == more {
            esis.push(j as u8)?;
        }
    }
    Ok(esis)
}

// One, divided by the differences between the point of an ESI and those of the others.
fn weight(esis: &[u8], esi: u8) -> Gf
    requires esis { All (λ j. j < 255) esis.now }
    requires esi { esi < 255 }
    ensures { result ≡ weight_of esis.now esi }
{
    let here = point(esi);
    let mut product = Gf::ONE;
    for other in esis {
        if *other != esi {
            product = product.mul(here.add(point(*other)));
        }
    }
    product.inv().unwrap_or(Gf::ZERO)
}

// The sum of the symbols at these ESIs, each times its weight, in the columns from one on. Where
// none came it is zero.
fn weighted_from(
    alloc: Global,
    arrivals: &[Option<&[u8]>],
    esis: &[u8],
    size: usize,
    from: usize,
) -> Result<Vec<u8>, AllocError>
    requires esis { All (λ j. j < length arrivals.now) esis.now }
    requires few { length arrivals.now ≤ 255 }
    requires symbols { HaveLength size (bytes_of_esi arrivals.now) }
    requires from { from ≤ size }
    ensures len { IfOk result (λ v. length v.items ≡ size - from) }
    ensures sums { IfOk result (λ v. (c : ℕ) → c < size - from → slice_index v.items c
        ≡ weighted_sum (weight_of esis.now)
        (λ j. byte_of (bytes_of_esi arrivals.now j) (from + c)) esis.now) }
{
    let mut sum = Vec::from_elem(alloc, 0u8, size - from)?;
    for esi in esis {
        if let Some(symbol) = symbol_at(arrivals, usize::from(*esi)) {
            add_scaled(&mut sum, weight(esis, *esi), from_column(symbol, from));
        }
    }
    Ok(sum)
}

/// Whether a block's symbols can have its padding. Where not, they are those of no object.
/// `arrivals` has a place for each of the block's ESIs.
pub(crate) fn may_be_padded(
    alloc: Global,
    fti: &Fti,
    b: u32,
    arrivals: &[Option<&[u8]>],
) -> Result<bool, AllocError>
    requires number { b < block_count fti.now }
    requires count { length arrivals.now ≡ encoding_count fti.now b }
    requires symbols { HaveLength fti.now.symbol_length (bytes_of_esi arrivals.now) }
    requires enough { IsEnoughAt fti.now b (bytes_of_esi arrivals.now) }
    ensures { IfOk result
        (λ v. v ≡ false → IsUnexplained fti.now b (bytes_of_esi arrivals.now)) }
{
    let size = usize::from(fti.symbol_length());
    let from = last_used(fti, b);
    if from == size {
        return Ok(true);
    }
    let last = fti.k(b) - 1;
    if let Some(symbol) = symbol_at(arrivals, last) {
        return Ok(is_zero(from_column(symbol, from)));
    }
    let esis = esis_with(alloc, arrivals, last)?;
    let sum = weighted_from(alloc, arrivals, &esis, size, from)?;
    Ok(is_zero(&sum))
}
