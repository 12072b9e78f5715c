//! The check of a session.
ghost use Rattle.std.specs.Prelude.{IfOk, IfErr};
ghost use Rattle.reception.specs.Headline.{DecodesWhereEnough, TwinWhereShort, TellsElse};
ghost use Rattle.cert.specs.Bearing.{BearsLosses};
ghost use Rattle.cert.specs.Fed.{IsFed};
ghost use Rattle.cert.specs.Report.{IsReport, OnYes};
ghost use Rattle.cert.specs.Verdict.{IsVerdict};

use crate::checker::Checker;
use crate::verdict::{Reason, Verdict};
use certificate::Certificate;
use reception::Identity;
use session::Session;
use std::alloc::{AllocError, Global};
use std::borrow::CowSlice;

// A check that was fed the session's datagrams, or the first reason against the certificate's name,
// the object or one of them.
fn fed<'a>(
    alloc: Global,
    session: &Session,
    object: &'a [u8],
    certificate: &'a Certificate,
    identity: Identity,
) -> Result<Result<Checker<'a>, Reason>, AllocError>
    ensures fed { IfOk result (λ r. IfOk r (λ checker.
        IsFed checker identity object.entry.now certificate.entry.now session.now)) }
    ensures no { IfOk result (λ r. IfErr r (λ reason. IsVerdict identity session.now
        object.entry.now certificate.entry.now (Verdict.No reason))) }
{
    let count = session.len();
    let object = CowSlice::Borrowed(object);
    let mut checker = match Checker::new(alloc, object, certificate.view(), identity)? {
        Ok(checker) => checker,
        Err(reason) => return Ok(Err(reason)),
    };
    for place in 0..count {
        match checker.feed(session.get(place)) {
            Ok(None) => {}
            Ok(Some(reason)) => return Ok(Err(reason)),
            Err(_) => return Err(AllocError),
        }
    }
    Ok(Ok(checker))
}

/// Whether the certificate is one of the identity's packets in the session, and of the object, and
/// at yes what the session can lose. The session may have packets of other identities, which don't
/// count: a check of one identity says nothing of another. Neither the session's sender nor the
/// certificate's maker is trusted, so any session, object, certificate and identity will do. `No`
/// has the first reason, in the order of [`Reason`]. Want of memory is the only error, and says
/// nothing of the four.
pub fn check(
    alloc: Global,
    session: &Session,
    object: &[u8],
    certificate: &Certificate,
    identity: Identity,
) -> Result<Verdict, AllocError>
    // The verdict: yes exactly where the certificate is one, and else the first reason.
    ensures verdict { IfOk result (IsVerdict identity session.now object.now certificate.now) }
    // At yes, each selection of the datagrams whose packets of the identity leave no block short,
    // and of which one is a carrier, decodes to the object.
    ensures decodes { IfOk result (λ v. OnYes v
        (λ _. DecodesWhereEnough identity certificate.now.fti session.now object.now)) }
    // At yes, each selection that leaves a block short leaves another object that agrees with all
    // of it.
    ensures undecided { IfOk result (λ v. OnYes v
        (λ _. TwinWhereShort identity certificate.now.fti session.now object.now)) }
    // At yes, of each selection that isn't enough a decoder says what lacks: a short block, or a
    // carrier.
    ensures tells { IfOk result (λ v. OnYes v
        (λ _. TellsElse identity certificate.now.fti session.now)) }
    // At yes, what each block needs and has, how many carriers came, and of all losses of datagrams
    // the margin, the kill and the burst.
    ensures report { IfOk result (λ v.
        OnYes v (IsReport identity session.now certificate.now.fti)) }
    // At yes, whichever datagrams are lost, up to the margin, or neighbours up to the burst, the
    // others decode to the object, in any order and with repeats; without the kill they don't.
    ensures losses { IfOk result (λ v.
        OnYes v (BearsLosses identity session.now object.now)) }
{
    match fed(alloc, session, object, certificate, identity)? {
        Ok(checker) => checker.verdict(alloc),
        Err(reason) => Ok(Verdict::No(reason)),
    }
}
