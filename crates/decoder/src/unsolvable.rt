//! Blocks whose symbols are those of no object.
ghost use Rattle.std.specs.Prelude.{◌<◌, List, true, IfOk};
ghost use Rattle.std.specs.Prelude.{IfErr};
ghost use Rattle.std.specs.Prelude.{IfSome, IsNone, IsTrue, ◌↔◌};
ghost use Rattle.std.specs.List.{AllByRecursion};
ghost use Rattle.reception.specs.Symbols.{Symbol, FullSolvable, IsFirstUnsolvable};
ghost use Rattle.reception.specs.Within.{IsWithin};
ghost use Rattle.block_recovery.specs.Received.{IsIndex};
ghost use Rattle.decoder.specs.Sources.{IsUnreadOf};

use crate::coded_source::CodedSource;
use crate::source::{Source, Unread};
use std::alloc::Global;

// Whether a block is below the least so far, if there is one.
fn is_before(b: u32, least: Option<u32>) -> bool
    ensures { IsTrue result ↔ IfSome least (λ a. b < a) }
{
    match least {
        Some(a) => b < a,
        None => true,
    }
}

/// The least block that has enough symbols and whose symbols are those of no object.
pub(crate) fn first_unsolvable<S: Source>(
    alloc: Global,
    coded: &CodedSource<'_, S>,
) -> Result<Option<u32>, Unread>
    ensures none { S.Told coded.now.source.now → IfOk result (λ o. IsNone o
        → (arrivals : List Symbol) → IsIndex arrivals (S.at coded.now.source.now)
        → AllByRecursion (IsWithin (S.known coded.now.source.now)) arrivals
        → FullSolvable (S.known coded.now.source.now) arrivals) }
    ensures some { S.Told coded.now.source.now → IfOk result (λ o. IfSome o (λ b.
        (arrivals : List Symbol) → IsIndex arrivals (S.at coded.now.source.now)
        → AllByRecursion (IsWithin (S.known coded.now.source.now)) arrivals
        → IsFirstUnsolvable (S.known coded.now.source.now) arrivals b)) }
    ensures fault { IfErr result
        (IsUnreadOf (S.Told coded.now.source.now) (S.reliable coded.now.source.now)) }
{
    let fti = coded.source.fti();
    fti.is_valid();
    let blocks = coded.source.blocks(alloc)?;
    let mut least = None;
    let mut workspace = coded.source.workspace(alloc)?;
    for b in &blocks {
        if !is_before(*b, least) {
            continue;
        }
        if coded.source.count(*b, fti.n(*b)) < fti.k(*b) {
            continue;
        }
        if coded
            .source
            .rows(alloc, coded.codes, *b, &mut workspace)?
            .is_none()
        {
            least = Some(*b);
        }
    }
    Ok(least)
}
