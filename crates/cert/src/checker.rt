//! The check of datagrams, one after the other.
ghost use Rattle.std.specs.Prelude.{◌≡◌, ◌≤◌, ◌++◌, ◌∷◌, [], ℕ, List, Option, length, IfOk, IfErr};
ghost use Rattle.std.specs.Prelude.{IsErr, IsOkAnd, IfSome, IsNone, Some, None, Ok, Err, true};
ghost use Rattle.std.specs.Prelude.{OnOk, false, alloc_error};
ghost use Rattle.std.specs.Option.{option_map};
ghost use Rattle.std.specs.Cow.{cow_slice_items};
ghost use Rattle.session.specs.Frames.{most_bytes};
ghost use Rattle.reception.specs.Headline.{DecodesWhereEnough, TwinWhereShort, TellsElse};
ghost use Rattle.reception.specs.declared.scope.Identity.{Identity as IdentityValue};
ghost use Rattle.certificate.specs.Certificate.{Certificate as CertificateValue, IsCertificate};
ghost use Rattle.certificate.specs.Certificate.{is_for};
ghost use Rattle.cert.specs.NotBegun.{IsAgainstObject};
ghost use Rattle.cert.specs.FromReader.{IsCheckedFrom, IsRefusedBehind, IsCheckFault};
ghost use Rattle.cert.specs.Feeding.{IsNoToAll, IsReasonSoFar, IsUnfed, IsToldAgain};
ghost use Rattle.cert.specs.Twins.{IsShortIn, IsTwinOfSession};
ghost use Rattle.cert.specs.Bearing.{BearsLosses};
ghost use Rattle.cert.specs.Report.{IsReport, OnYes};
ghost use Rattle.cert.specs.Surveying.{IsSurveyedFrom};
ghost use Rattle.cert.specs.declared.verdict.Reason.{Reason as ReasonValue};
ghost use Rattle.cert.specs.Verdict.{GivesObject, IsVerdict};
ghost use Rattle.reception.specs.Symbols.{IsObject};

use crate::datagrams::first_wrong_column_of;
use crate::fault::CheckFault;
use crate::source::first_not_given;
use crate::tally::Tally;
use crate::twins::twin;
use crate::verdict::{Reason, Survey, Verdict};
use certificate::CertificateView;
use certified_symbols::CertifiedSymbols;
use lists::are_bytes;
use reception::Identity;
use session::{FrameFault, MOST_BYTES, Read, read_next_into};
use std::alloc::{AllocError, Global};
use std::borrow::CowSlice;

/// A check of an identity's packets among datagrams that are fed to it one at a time. The
/// certificate has no other identity's name, and its polynomials give the object. No datagram is
/// kept, only the place and the ESI of its symbol, in its block's group, and a carrier's place.
/// Packets of another identity are passed over, and their places are counted.
#[derive(Drop)]
pub struct Checker<'a> {
    symbols: CertifiedSymbols<'a>,
    object: CowSlice<'a, u8, Global>,
    tally: Tally,
    // What is told from then on, where no datagram more is looked at.
    ended: Option<Result<Reason, AllocError>>,
    ghost valid: { IsCertificate symbols },
    ghost name: { is_for tally.scope.identity symbols.name ≡ true },
    ghost form: { IsObject symbols.fti (cow_slice_items object) },
    ghost gives: { GivesObject (cow_slice_items object) symbols },
}

impl<'a> Checker<'a> {
    ghost use Rattle.cert.specs.DatagramWalk.{HasWalked, IsNotPassed};
    ghost use Rattle.cert.specs.Fed.{HasRead, IsFed, IsFedShort, IsFresh, WasFed, ended_of};

    /// A check that was fed nothing yet. A reason against the certificate's name or the object is
    /// told at once: it is the verdict whatever datagrams come. Want of memory is the only error.
    pub fn new(
        alloc: Global,
        object: CowSlice<'a, u8, Global>,
        certificate: CertificateView<'a>,
        identity: Identity,
    ) -> Result<Result<Checker<'a>, Reason>, AllocError>
        ensures fed { IfOk result (λ r. IfOk r (λ checker.
            IsFed checker identity (cow_slice_items object.entry) certificate.entry [])) }
        ensures going { IfOk result (λ r. IfOk r (λ checker. ended_of checker ≡ None)) }
        // Nothing is against the name or the object.
        ensures given { IfOk result (λ r. OnOk r ((is_for identity certificate.entry.name ≡ true)
            × IsObject certificate.entry.fti (cow_slice_items object.entry)
            × GivesObject (cow_slice_items object.entry) certificate.entry)) }
        ensures against { IfOk result (λ r. IfErr r
            (IsAgainstObject identity (cow_slice_items object.entry) certificate.entry)) }
        ensures no { IfOk result (λ r. IfErr r
            (IsNoToAll identity [] (cow_slice_items object.entry) certificate.entry)) }
    {
        if !certificate.is_for(&identity) {
            return Ok(Err(Reason::OtherCertificate));
        }
        let bytes = object.as_slice();
        are_bytes(bytes);
        let fti = certificate.fti();
        if bytes.len() as u64 != fti.transfer_length() {
            return Ok(Err(Reason::ObjectLength));
        }
        let mut symbols = CertifiedSymbols::new(alloc, certificate)?;
        if let Some(reason) = first_not_given(object.as_slice(), &mut symbols) {
            return Ok(Err(reason));
        }
        let tally = Tally::new(alloc, identity, fti)?;
        Ok(Ok(Checker {
            symbols,
            object,
            tally,
            ended: None,
        }))
    }

    // Looks at one datagram more. `Some` has the reason against it.
    fn step(&mut self, datagram: &[u8]) -> Result<Option<Reason>, AllocError>
        requires { (datagrams : List (List ℕ)) × HasWalked self.old datagrams }
        ensures identity { self.new.tally.scope.identity ≡ self.old.tally.scope.identity }
        ensures certificate { self.new.symbols ≡ self.old.symbols }
        ensures object { cow_slice_items self.new.object ≡ cow_slice_items self.old.object }
        ensures ended { self.new.ended ≡ self.old.ended }
        ensures passed { (datagrams : List (List ℕ)) → HasWalked self.old datagrams
            → IfOk result (λ o. IsNone o
            → HasWalked self.new (datagrams ++ datagram.now ∷ [])) }
        ensures against { (datagrams : List (List ℕ)) → HasWalked self.old datagrams
            → IfOk result (λ o. IfSome o (IsNotPassed self.old.tally.scope.identity
            (datagrams ++ datagram.now ∷ []) self.old.symbols)) }
    {
        let packet = match self.tally.look(datagram) {
            Ok(Some(packet)) => packet,
            Ok(None) => {
                self.tally.pass_over()?;
                return Ok(None);
            }
            Err(reason) => return Ok(Some(reason)),
        };
        let object = self.object.as_slice();
        if let Some(column) = first_wrong_column_of(&mut self.symbols, object, &packet) {
            return Ok(Some(Reason::Symbol(self.tally.count, column)));
        }
        self.tally.put(&packet)?;
        Ok(None)
    }

    /// One datagram more. `Some` has the first reason against a datagram that was fed, this one or
    /// an earlier one, which is the verdict whatever follows. `TooLong` tells that no session has
    /// so long a datagram; it doesn't count, and is told before all else. Where memory lacks, the
    /// check is over: from then on it answers that to each datagram that isn't too long.
    pub fn feed(&mut self, datagram: &[u8]) -> Result<Option<Reason>, CheckFault>
        requires { WasFed self.old }
        ensures fed { (who : IdentityValue) (object : List ℕ) (z : CertificateValue)
            (ds : List (List ℕ)) → IsFed self.old who object z ds
            → IfOk result (λ _. IsFed self.new who object z (ds ++ datagram.now ∷ [])) }
        ensures reason { (who : IdentityValue) (object : List ℕ) (z : CertificateValue)
            (ds : List (List ℕ)) → IsFed self.old who object z ds
            → IfOk result (IsReasonSoFar who (ds ++ datagram.now ∷ []) object z) }
        ensures unfed { IfErr result (IsUnfed datagram.now) }
        ensures short { IfOk result (λ _. length datagram.now ≤ most_bytes) }
        ensures stays { (who : IdentityValue) (object : List ℕ) (z : CertificateValue)
            (ds : List (List ℕ)) → IsFed self.old who object z ds
            → IfErr result (λ _. IsFed self.new who object z ds) }
        ensures same { IfErr result (λ e. e ≡ CheckFault.Frame FrameFault.TooLong
            → self.new ≡ self.old) }
        // Whether the check has ended then, and why.
        ensures ended { IfOk result (λ o. ended_of self.new ≡ option_map Ok o) }
        ensures lacks { IfErr result (λ e. e ≡ CheckFault.NoMemory
            → ended_of self.new ≡ Some (Err alloc_error)) }
        // Where it has ended before, it tells that again.
        ensures again { (end : _) → ended_of self.old ≡ Some end
            → length datagram.now ≤ most_bytes
            → IsToldAgain end result × (self.new ≡ self.old) }
    {
        if datagram.len() > MOST_BYTES {
            return Err(CheckFault::Frame(FrameFault::TooLong));
        }
        are_bytes(datagram);
        if let Some(end) = self.ended {
            return Ok(Some(end?));
        }
        let answer = self.step(datagram);
        self.ended = answer.transpose();
        Ok(answer?)
    }

    /// The datagrams that are left of a reader, read one at a time and fed, as far as the first
    /// reason against one of them. It needs that none was fed before. What can't be read is told as
    /// a fault where no reason stands before it; `Io` that the reader has failed, which a sound one
    /// never does.
    pub fn feed_all<R: Read>(&mut self, alloc: Global, reader: &mut R) -> Result<(), CheckFault>
        requires { IsFresh self.old }
        ensures read { (who : IdentityValue) (object : List ℕ) (z : CertificateValue)
            → IsFed self.old who object z [] → OnOk result (HasRead self.new who object z
            (R.remaining reader.old) (R.remaining reader.new)) }
        ensures fault { (who : IdentityValue) (object : List ℕ) (z : CertificateValue)
            → IsFed self.old who object z [] → IfErr result (IsCheckFault (λ fault.
            IsRefusedBehind who fault (R.remaining reader.old) (R.remaining reader.new)
            (R.failed reader.new) object z)) }
        ensures unsound { IfErr result (λ fault.
            fault ≡ CheckFault.Frame FrameFault.Io → R.sound reader.old ≡ false) }
        ensures stays { R.sound reader.new ≡ R.sound reader.old }
    {
        let mut room = Vec::new(alloc);
        loop {
            let Some(datagram) = read_next_into(reader, room)? else {
                return Ok(());
            };
            let bytes = datagram.as_slice();
            are_bytes(bytes);
            if let Some(reason) = self.step(bytes)? {
                self.ended = Some(Ok(reason));
                return Ok(());
            }
            room = datagram;
        }
    }

    /// The verdict on the datagrams that were fed, in their order, as [`crate::check`] has it of a
    /// session of them. More may be fed afterwards. Want of memory is the only error.
    pub fn verdict(&self, alloc: Global) -> Result<Verdict, AllocError>
        requires { WasFed self.now }
        ensures verdict { (who : IdentityValue) (object : List ℕ) (z : CertificateValue)
            (ds : List (List ℕ)) → IsFed self.now who object z ds
            → IfOk result (IsVerdict who ds object z) }
        // At yes the datagrams promise what a session of them does.
        ensures decodes { (who : IdentityValue) (object : List ℕ) (z : CertificateValue)
            (ds : List (List ℕ)) → IsFed self.now who object z ds
            → IfOk result (λ v. OnYes v (λ _. DecodesWhereEnough who z.fti ds object)) }
        ensures undecided { (who : IdentityValue) (object : List ℕ) (z : CertificateValue)
            (ds : List (List ℕ)) → IsFed self.now who object z ds
            → IfOk result (λ v. OnYes v (λ _. TwinWhereShort who z.fti ds object)) }
        ensures tells { (who : IdentityValue) (object : List ℕ) (z : CertificateValue)
            (ds : List (List ℕ)) → IsFed self.now who object z ds
            → IfOk result (λ v. OnYes v (λ _. TellsElse who z.fti ds)) }
        ensures report { (who : IdentityValue) (object : List ℕ) (z : CertificateValue)
            (ds : List (List ℕ)) → IsFed self.now who object z ds
            → IfOk result (λ v. OnYes v (IsReport who ds z.fti)) }
        ensures losses { (who : IdentityValue) (object : List ℕ) (z : CertificateValue)
            (ds : List (List ℕ)) → IsFed self.now who object z ds
            → IfOk result (λ v. OnYes v (BearsLosses who ds object)) }
        // What was read is checked, whatever follows.
        ensures from { (who : IdentityValue) (object : List ℕ) (z : CertificateValue)
            (old new : Option (List ℕ)) → HasRead self.now who object z old new
            → IfOk result (IsCheckedFrom who old new object z) }
        // Where the check has ended, that is told.
        ensures ended { (r : ReasonValue) → ended_of self.now ≡ Some (Ok r)
            → IsOkAnd result (λ v. v ≡ Verdict.No r) }
        ensures lacks { ended_of self.now ≡ Some (Err alloc_error) → IsErr result }
    {
        match self.ended {
            Some(end) => Ok(Verdict::No(end?)),
            None => self.tally.verdict(alloc),
        }
    }

    /// The verdict on what was read from a reader ([`Self::feed_all`]), and at a yes, and only
    /// there, what a picture shows beside the report. Want of memory is the only error.
    pub fn survey(&self, alloc: Global) -> Result<(Verdict, Option<Survey>), AllocError>
        requires { WasFed self.now }
        ensures { (who : IdentityValue) (object : List ℕ) (z : CertificateValue)
            (old new : Option (List ℕ)) → HasRead self.now who object z old new
            → IfOk result (λ r. IsSurveyedFrom who old new object z r.0 r.1) }
    {
        match self.ended {
            Some(end) => Ok((Verdict::No(end?), None)),
            None => self.tally.survey(alloc),
        }
    }

    /// A twin where the verdict is `Thin` of this block, as it needs: another object of the
    /// certificate's FTI that agrees with all of the identity's packets that were fed. Want of
    /// memory is the only error.
    pub fn twin(&self, alloc: Global, block: u32) -> Result<Vec<u8>, AllocError>
        requires { IsFedShort self.now block }
        ensures { (who : IdentityValue) (object : List ℕ) (z : CertificateValue)
            (ds : List (List ℕ)) → IsFed self.now who object z ds
            → IsShortIn who ds object z block
            → IfOk result (λ other.
            IsTwinOfSession who z.fti block ds object other.items) }
    {
        // A check that has ended for a reason doesn't say `Thin`.
        if self.ended.is_some() {
            return Err(AllocError);
        }
        let arrived_esis = self.tally.esis(alloc, block)?;
        let fti = self.symbols.fti();
        let object = self.object.as_slice();
        twin(alloc, object, &fti, block, arrived_esis.as_slice())
    }
}
