//! Whether the polynomials give the object.
ghost use Rattle.std.specs.Prelude.{◌≡◌, ◌+◌, ◌<◌, ℕ, slice_index, IsNone, IfSome};
ghost use Rattle.partition.specs.Fti.{block_count, source_count};
ghost use Rattle.certificate.specs.CoefficientRows.{IsSourceSymbol};
ghost use Rattle.cert.specs.Verdict.{GivesObject, GivesBlock};
ghost use Rattle.cert.specs.NotGiven.{IsFirstInBlock, IsNotGiven};

use crate::verdict::Reason;
use certified_symbols::CertifiedSymbols;
use partition::Fti;

// The object's bytes from a place on, `count` of them, or fewer where it ends.
fn part_of(object: &[u8], from: usize, count: usize) -> &[u8]
    ensures { (c : ℕ) → c < count
        → slice_index result.now c ≡ slice_index object.now (from + c) }
{
    let rest = &object[from.min(object.len())..];
    &rest[..count.min(rest.len())]
}

/// The object's bytes at a source symbol of a block, fewer where padding follows.
pub(crate) fn source_symbol<'a>(object: &'a [u8], fti: &Fti, block: u32, i: usize) -> &'a [u8]
    requires block { block < block_count fti.now }
    requires source { i < source_count fti.now block }
    ensures { IsSourceSymbol fti.now object.now block i result.now }
{
    let length = usize::from(fti.symbol_length());
    let from = (fti.start(block) as usize + i) * length;
    part_of(object, from, length)
}

// The least column of a block in which the polynomials don't give the object, and the least symbol
// there.
fn first_not_given_in(
    object: &[u8],
    symbols: &mut CertifiedSymbols<'_>,
    block: u32,
) -> Option<(usize, usize)>
    requires { block < block_count symbols.old.fti }
    ensures certificate { symbols.new ≡ symbols.old }
    ensures none { IsNone result → GivesBlock object.now symbols.old block }
    ensures some { IfSome result (λ w. IsFirstInBlock object.now symbols.old block w.0 w.1) }
{
    let fti = symbols.fti();
    let length = usize::from(fti.symbol_length());
    // As many columns are right in all symbols so far; the next isn't in this symbol, the first of
    // them.
    let mut right = length;
    let mut symbol = 0;
    for i in 0..fti.k(block) {
        let bytes = source_symbol(object, &fti, block, i);
        if let Some(column) = symbols.first_wrong_column(block, i as u8, bytes) {
            if column < right {
                right = column;
                symbol = i;
            }
        }
    }
    if right < length {
        Some((right, symbol))
    } else {
        None
    }
}

/// The reason against the object, if the polynomials don't give it: the least block, in it the
/// least column, in that the least symbol.
pub(crate) fn first_not_given(object: &[u8], symbols: &mut CertifiedSymbols<'_>) -> Option<Reason>
    ensures certificate { symbols.new ≡ symbols.old }
    ensures none { IsNone result → GivesObject object.now symbols.old }
    ensures some { IfSome result (IsNotGiven object.now symbols.old) }
{
    for block in 0..symbols.fti().block_count() {
        if let Some((column, symbol)) = first_not_given_in(object, symbols, block) {
            return Some(Reason::NotObject {
                block,
                column,
                symbol,
            });
        }
    }
    None
}
