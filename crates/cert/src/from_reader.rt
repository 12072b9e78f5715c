//! The check of datagrams that are read one at a time.
ghost use Rattle.std.specs.Prelude.{◌≡◌, false, IfOk, IfErr};
ghost use Rattle.cert.specs.FromReader.{IsCheckedFrom, IsRefusedBehind, IsCheckFault};

use crate::checker::Checker;
use crate::fault::CheckFault;
use crate::verdict::Verdict;
use certificate::Certificate;
use reception::Identity;
use session::{FrameFault, Read};
use std::alloc::Global;
use std::borrow::CowSlice;

/// The check of an identity's packets among the datagrams that are left of a reader, read one at a
/// time: none before the certificate's name is compared with the identity and the object with the
/// polynomials, and none behind the first reason at a place. One datagram is held at a time, and of
/// the others the places and the ESIs of their symbols. What can't be read is told as a fault where
/// no reason stands before it; `Io` that the reader has failed, which a sound one never does. Want
/// of memory says nothing of the session.
pub fn check_from<R: Read>(
    alloc: Global,
    reader: &mut R,
    object: &[u8],
    certificate: &Certificate,
    identity: Identity,
) -> Result<Verdict, CheckFault>
    // The frames of some datagrams were read, and the verdict is theirs, whatever follows, or they
    // are all.
    ensures verdict { IfOk result (IsCheckedFrom identity (R.remaining reader.old)
        (R.remaining reader.new) object.now certificate.now) }
    // They have no reason against them, and what follows is no frame.
    ensures fault { IfErr result (IsCheckFault (λ fault. IsRefusedBehind identity fault
        (R.remaining reader.old) (R.remaining reader.new) (R.failed reader.new)
        object.now certificate.now)) }
    ensures unsound { IfErr result (λ fault.
        fault ≡ CheckFault.Frame FrameFault.Io → R.sound reader.old ≡ false) }
    ensures stays { R.sound reader.new ≡ R.sound reader.old }
{
    let object = CowSlice::Borrowed(object);
    match Checker::new(alloc, object, certificate.view(), identity)? {
        Ok(checker) => {
            let mut checker = checker;
            checker.feed_all(alloc, reader)?;
            Ok(checker.verdict(alloc)?)
        }
        Err(reason) => Ok(Verdict::No(reason)),
    }
}
