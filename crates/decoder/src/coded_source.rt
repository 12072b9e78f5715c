//! What came of an object, with the codes of its blocks.
ghost use Rattle.block_code.specs.Codes.{EachBlockHas};
ghost use Rattle.block_code.specs.CodesOf.{IsCodeOf};
ghost use Rattle.decoder.specs.Answered.{Stand};
ghost use Rattle.block_recovery.specs.Decoded.{AreInRange};
ghost use Rattle.decoder.specs.Unsolvable.{HaveBytes};

use crate::source::Source;
use block_code::BlockCodes;

/// What came of an object, and the codes of its blocks. All that came is of blocks and at ESIs that
/// the FTI has; where it is told, it is what came of some list of symbols in range, and bytes.
#[derive(Drop)]
pub struct CodedSource<'a, S: Source> {
    pub source: &'a S,
    pub codes: &'a BlockCodes,
    // A ghost field keeps no data: of the polynomials of a code, and of a list of symbols, it says
    // only that there are some (`∥ ∥₁`).
    ghost code: { ∥ EachBlockHas (IsCodeOf (S.known source.now)) (S.known source.now)
        codes.now ∥₁ },
    ghost range: { AreInRange (S.known source.now) (S.at source.now) },
    ghost stand: { S.Told source.now → ∥ Stand (S.known source.now) (S.at source.now) ∥₁ },
    ghost bytes: { S.Told source.now → HaveBytes (S.at source.now) },
}
