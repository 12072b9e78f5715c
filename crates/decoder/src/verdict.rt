//! Whether symbols are those of an object, told without making it.
ghost use Rattle.std.specs.Prelude.{IsNone, IfOk, IfErr, IfSome, MatchBool};
ghost use Rattle.decoder.specs.Answers.{answer_value};
ghost use Rattle.decoder.specs.Answered.{Answers, NoneIsShort};
ghost use Rattle.decoder.specs.Objects.{IsNoObject};
ghost use Rattle.decoder.specs.Sources.{IsUnreadOf};
ghost use Rattle.decoder.specs.Unsolvable.{AreSound, SomeUnsound};
ghost use Rattle.decoder.specs.Written.{IsVerdict};

use crate::answer::Answer;
use crate::coded_source::CodedSource;
use crate::counting::first_short;
use crate::decoding::short_answer;
use crate::source::{Source, Unread};
use crate::unsolvable::first_unsolvable;
use block_recovery::DecodeFault;
use std::alloc::Global;

// Whether some block is of no object, where no block is short. Any `k` symbols of a block are those
// of some polynomials, so that only blocks with more have to be solved, and the last one, whose
// symbols have to fit the object's padding.
fn has_unsolvable<S: Source>(alloc: Global, coded: &CodedSource<'_, S>) -> Result<bool, Unread>
    requires { NoneIsShort (S.known coded.now.source.now) (S.at coded.now.source.now) }
    ensures told { S.Told coded.now.source.now → IfOk result (λ v. MatchBool v
        (SomeUnsound (S.known coded.now.source.now) (S.at coded.now.source.now))
        (AreSound (S.known coded.now.source.now) (S.at coded.now.source.now))) }
    ensures fault { IfErr result
        (IsUnreadOf (S.Told coded.now.source.now) (S.reliable coded.now.source.now)) }
{
    let fti = coded.source.fti();
    fti.is_valid();
    let last = fti.block_count() - 1;
    let mut workspace = coded.source.workspace(alloc)?;
    for b in 0..fti.block_count() {
        if b < last && coded.source.count(b, fti.n(b)) == fti.k(b) {
            continue;
        }
        if coded
            .source
            .rows(alloc, coded.codes, b, &mut workspace)?
            .is_none()
        {
            return Ok(true);
        }
    }
    Ok(false)
}

/// The answer to what came, where some block is of no object, and no block is short.
pub fn unsound_answer<S: Source>(
    alloc: Global,
    coded: &CodedSource<'_, S>,
) -> Result<Answer, Unread>
    requires { S.Told coded.now.source.now
        → SomeUnsound (S.known coded.now.source.now) (S.at coded.now.source.now) }
    ensures told { S.Told coded.now.source.now → IfOk result (λ a.
        Answers (S.known coded.now.source.now) (S.at coded.now.source.now) (answer_value a)) }
    ensures none { IfOk result IsNoObject }
    ensures fault { IfErr result
        (IsUnreadOf (S.Told coded.now.source.now) (S.reliable coded.now.source.now)) }
{
    coded.source.fti().is_valid();
    match first_unsolvable(alloc, coded)? {
        Some(b) => Ok(Answer::Fault(DecodeFault::NotCode(b))),
        None => Err(Unread::Changed),
    }
}

/// The answer to what came, where it is no object, and `None` where it is one; no block is short.
pub fn first_of_no_object<S: Source>(
    alloc: Global,
    coded: &CodedSource<'_, S>,
) -> Result<Option<Answer>, Unread>
    requires { NoneIsShort (S.known coded.now.source.now) (S.at coded.now.source.now) }
    ensures told { S.Told coded.now.source.now
        → IfOk result (IsVerdict (S.known coded.now.source.now) (S.at coded.now.source.now)) }
    ensures none { IfOk result (λ o. IfSome o IsNoObject) }
    ensures fault { IfErr result
        (IsUnreadOf (S.Told coded.now.source.now) (S.reliable coded.now.source.now)) }
{
    coded.source.fti().is_valid();
    if !has_unsolvable(alloc, coded)? {
        return Ok(None);
    }
    Ok(Some(unsound_answer(alloc, coded)?))
}

/// The answer to what came, where a block is short, and `None` where none is.
pub fn short_verdict<S: Source>(
    alloc: Global,
    coded: &CodedSource<'_, S>,
) -> Result<Option<Answer>, Unread>
    ensures told { S.Told coded.now.source.now → IfOk result (λ o. IfSome o (λ a.
        Answers (S.known coded.now.source.now) (S.at coded.now.source.now) (answer_value a))) }
    ensures none { IfOk result (λ o. IfSome o IsNoObject) }
    ensures enough { IfOk result (λ o. IsNone o
        → NoneIsShort (S.known coded.now.source.now) (S.at coded.now.source.now)) }
    ensures fault { IfErr result
        (IsUnreadOf (S.Told coded.now.source.now) (S.reliable coded.now.source.now)) }
{
    match first_short(coded.source) {
        Some(short) => Ok(Some(short_answer(alloc, coded, short)?)),
        None => Ok(None),
    }
}
