//! The check.
ghost use Rattle.std.specs.Prelude.{◌≡◌, ◌≢◌, ◌∷◌, [], ℕ, List, Some, false, IfOk, IfErr, map};
ghost use Rattle.session.specs.declared.frame.FrameFault.{FrameFault as FrameFaultValue};
ghost use Rattle.certificate.specs.Certificate.{text_fault};
ghost use Rattle.cert.specs.FromReader.{IsCheckedFrom, IsRefusedBehind, IsCheckFault};
ghost use Rattle.certificate.specs.declared.certificate.CertFault.{CertFault as CertFaultValue};
ghost use Rattle.cert.specs.declared.verdict.Report.{Report as ReportValue};
ghost use Rattle.cert.specs.declared.verdict.Reason.{Reason as ReasonValue};
ghost use Rattle.alcrs_c.specs.Asked.{identity_of};
ghost use Rattle.alcrs_c.specs.Checked.{IsChecked, IsCutOff};
ghost use Rattle.alcrs_c.specs.Unchecked.{IsUnchecked};
ghost use Rattle.alcrs_c.specs.Statuses.{ok, no, no_session, no_certificate, no_memory, IsOneOf};
ghost use Rattle.alcrs_c.specs.Statuses.{in_front};
ghost use Rattle.alcrs_c.specs.Told.{told_reason, told_report, told_block, told_frame};
ghost use Rattle.alcrs_c.specs.Told.{told_certificate};

use crate::input::identity;
use crate::status;
use crate::told::{
    AlcrsBlock, AlcrsFault, AlcrsReport, certificate_fault, frame_fault, put_blocks, put_kill,
    reason_fault, report_numbers,
};
use cert::{CheckFault, Checker, Verdict};
use certificate::{CertFault, CertificateView};
use reception::Identity;
use session::{FrameFault, Pieces};
use std::alloc::Global;
use std::borrow::CowSlice;

// The verdict on the datagrams in the bytes, which are read from the front.
fn check_bytes(
    alloc: Global,
    session: &[u8],
    object: &[u8],
    certificate: CertificateView<'_>,
    identity: Identity,
) -> Result<Verdict, CheckFault>
    ensures verdict { IfOk result (λ v. (left : List ℕ)
        × IsCheckedFrom identity (Some session.now) (Some left) object.now certificate.entry v) }
    ensures fault { IfErr result (IsCheckFault (λ e. (left : List ℕ)
        × IsRefusedBehind identity e
        (Some session.now) (Some left) false object.now certificate.entry)) }
{
    let mut frames = Pieces::new(session, usize::MAX);
    match Checker::new(alloc, CowSlice::Borrowed(object), certificate, identity)? {
        Ok(checker) => {
            let mut checker = checker;
            checker.feed_all(alloc, &mut frames)?;
            Ok(checker.verdict(alloc)?)
        }
        Err(reason) => Ok(Verdict::No(reason)),
    }
}

fn verdict_of(
    alloc: Global,
    session: &[u8],
    object: &[u8],
    certificate: &[u8],
    identity: Identity,
) -> Result<Verdict, CheckFault>
    ensures checked { IfOk result
        (IsChecked identity session.now object.now certificate.now) }
    ensures unchecked { IfErr result
        (IsUnchecked identity session.now object.now certificate.now) }
{
    let certificate = match CertificateView::from_text(alloc, certificate) {
        Ok(certificate) => certificate,
        Err(CertFault::NoMemory) => return Err(CheckFault::NoMemory),
        Err(fault) => return Err(CheckFault::Certificate(fault)),
    };
    match check_bytes(alloc, session, object, certificate, identity) {
        Ok(verdict) => Ok(verdict),
        Err(CheckFault::Frame(FrameFault::NoMemory)) => Err(CheckFault::NoMemory),
        Err(fault) => Err(fault),
    }
}

/// Checks an identity's packets in a session, with an object and a certificate. The TOI is
/// `toi_high` * 2^64 + `toi_low`. The session is read from the front, one datagram at a time.
///
/// - `OK`: yes. `report` has the numbers. `blocks` and `kill` begin with as many blocks and places
///   as they have room for.
/// - `NO`: no. `fault` is the first reason.
/// - `NO_CERTIFICATE`: the bytes are no certificate's. `fault` tells why.
/// - `NO_SESSION`: the session is cut or has a frame that is too long, and nothing before that
///   gives a no. `fault` tells which.
/// - `NO_MEMORY`: memory is wanting.
///
/// What a status doesn't name stays as it was.
#[unsafe(no_mangle)]
pub extern "C" fn alcrs_check(
    alloc: Global,
    session: &[u8],
    object: &[u8],
    certificate: &[u8],
    tsi: u64,
    toi_high: u64,
    toi_low: u64,
    fault: &mut AlcrsFault,
    report: &mut AlcrsReport,
    blocks: &mut [AlcrsBlock],
    kill: &mut [usize],
) -> u32
    ensures yes { result ≡ ok → (r : ReportValue)
        × IsChecked (identity_of tsi toi_high toi_low) session.now object.now certificate.now
        (Verdict.Yes r)
        × (report.new ≡ told_report r)
        × (blocks.new ≡ in_front (map told_block r.blocks.items) blocks.old)
        × (kill.new ≡ in_front r.kill.items kill.old) }
    ensures no { result ≡ no → (r : ReasonValue)
        × IsChecked (identity_of tsi toi_high toi_low) session.now object.now certificate.now
        (Verdict.No r)
        × (fault.new ≡ told_reason r) }
    ensures session { result ≡ no_session → (e : FrameFaultValue)
        × IsCutOff (identity_of tsi toi_high toi_low) session.now object.now certificate.now e
        × (fault.new ≡ told_frame e) }
    ensures certificate { result ≡ no_certificate → (e : CertFaultValue)
        × (text_fault certificate.now ≡ Some e) × (fault.new ≡ told_certificate e) }
    ensures stays { result ≢ ok → (report.new ≡ report.old) × (blocks.new ≡ blocks.old)
        × (kill.new ≡ kill.old) }
    ensures silent { IsOneOf (ok ∷ no_memory ∷ []) result → fault.new ≡ fault.old }
    ensures statuses { IsOneOf
        (ok ∷ no ∷ no_session ∷ no_certificate ∷ no_memory ∷ []) result }
{
    let identity = identity(tsi, toi_high, toi_low);
    match verdict_of(alloc, session, object, certificate, identity) {
        Ok(Verdict::Yes(yes)) => {
            *report = report_numbers(&yes);
            put_blocks(&yes, blocks);
            put_kill(&yes, kill);
            status::OK
        }
        Ok(Verdict::No(reason)) => {
            *fault = reason_fault(reason);
            status::NO
        }
        Err(CheckFault::Frame(e)) => {
            *fault = frame_fault(e);
            status::NO_SESSION
        }
        Err(CheckFault::Certificate(e)) => {
            *fault = certificate_fault(e);
            status::NO_CERTIFICATE
        }
        Err(CheckFault::NoMemory) => status::NO_MEMORY,
        Err(CheckFault::Session | CheckFault::Object) => unreachable!(),
    }
}
