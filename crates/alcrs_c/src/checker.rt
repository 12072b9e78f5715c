//! A check behind a handle that is fed datagrams: the calls. A flag tells whether there is one.
ghost use Rattle.std.specs.Prelude.{◌≡◌, ◌≢◌, ◌<◌, ◌≤◌, ◌++◌, ◌∷◌, ℕ, List, [], true, false, Some};
ghost use Rattle.std.specs.Prelude.{None, length, map, IsNone, IfSome, IfOk, IfErr};
ghost use Rattle.session.specs.Frames.{most_bytes};
ghost use Rattle.session.specs.declared.frame.FrameFault.TheVariants.{TooLong};
ghost use Rattle.reception.specs.declared.scope.Identity.{Identity as IdentityValue};
ghost use Rattle.certificate.specs.Certificate.{Certificate as CertificateValue, IsCertFault};
ghost use Rattle.certificate.specs.Certificate.{text_fault};
ghost use Rattle.cert.specs.Feeding.{IsNoToAll, IsReasonSoFar};
ghost use Rattle.cert.specs.Verdict.{IsVerdict};
ghost use Rattle.certificate.specs.declared.certificate.CertFault.{CertFault as CertFaultValue};
ghost use Rattle.cert.specs.declared.verdict.Reason.{Reason as ReasonValue};
ghost use Rattle.cert.specs.declared.verdict.Report.{Report as ReportValue};
ghost use Rattle.alcrs_c.specs.Asked.{identity_of};
ghost use Rattle.alcrs_c.specs.CheckerHandles.{IsHandle, IsOpen, IsOpenFor, IsOver, Lacks};
ghost use Rattle.alcrs_c.specs.Fed.{IsNoAtOnce, IsYes};
ghost use Rattle.alcrs_c.specs.Ready.{IsReady};
ghost use Rattle.alcrs_c.specs.Statuses.{ok, no, no_session, no_certificate, no_memory, is_open};
ghost use Rattle.alcrs_c.specs.Statuses.{not_open, IsOneOf, in_front};
ghost use Rattle.alcrs_c.specs.Told.{told_reason, told_report, told_block, told_frame};
ghost use Rattle.alcrs_c.specs.Told.{told_certificate};

use crate::apart::Apart;
use crate::held::HeldChecker;
use crate::input::{identity, read_certificate};
use crate::status;
use crate::told::{
    AlcrsBlock, AlcrsFault, AlcrsReport, certificate_fault, frame_fault, put_blocks, put_kill,
    reason_fault, report_numbers,
};
use cert::{CheckFault, Checker, Reason, Verdict};
use certificate::CertFault;
use reception::Identity;
use session::FrameFault;
use std::alloc::Global;
use std::borrow::CowSlice;

/// A check of an object and a certificate that is fed datagrams, one at a time. C sets it to zero,
/// and passes it to the calls below alone.
#[repr(C)]
#[derive(Drop)]
pub struct AlcrsChecker {
    pub held: HeldChecker,
    pub is_open: bool,
}

// Takes the checker out of its handle, if there is one.
fn take_out(alloc: Global, handle: &mut AlcrsChecker) -> Option<Box<Checker<'static>>>
    requires { IsHandle handle.old }
    ensures closed { handle.new.is_open ≡ false }
    ensures some { IfSome result (λ b.
        (handle.old.is_open ≡ true) × (b.value ≡ handle.old.held.value)) }
    ensures none { IsNone result → handle.old.is_open ≡ false }
{
    if !handle.is_open {
        return None;
    }
    handle.is_open = false;
    Some(handle.held.take(alloc).into_box())
}

// Puts a checker into a handle that has none.
fn put_in(handle: &mut AlcrsChecker, checker: Box<Checker<'static>>)
    ensures opened { handle.new.is_open ≡ true }
    ensures full { handle.new.held.full ≡ true }
    ensures value { handle.new.held.value ≡ checker.entry.value }
{
    handle.is_open = true;
    handle.held.put(Apart::from_box(checker));
}

// A checker with copies of an object and of a certificate, or the reason that no datagram changes.
fn checker_of(
    alloc: Global,
    object: &[u8],
    certificate: &[u8],
    identity: Identity,
) -> Result<Result<Checker<'static>, Reason>, CertFault>
    ensures ready { IfOk result (λ r. IfOk r (IsReady identity object.now certificate.now)) }
    ensures no { IfOk result (λ r. IfErr r (IsNoAtOnce identity object.now certificate.now)) }
    ensures fault { IfErr result (λ e. IsCertFault e (Some certificate.now) false) }
{
    let certificate = read_certificate(alloc, certificate)?;
    let Ok(object) = object.to_vec(alloc) else {
        return Err(CertFault::NoMemory);
    };
    match Checker::new(
        alloc,
        CowSlice::Owned(object),
        certificate.into_view(),
        identity,
    ) {
        Ok(answer) => Ok(answer),
        Err(_) => Err(CertFault::NoMemory),
    }
}

/// Opens a handle for the check of an identity's packets, with an object and a certificate, of
/// which the handle has copies. The TOI is `toi_high` * 2^64 + `toi_low`. The certificate is looked
/// at first.
///
/// - `OK`: the handle is open, and no datagram was fed.
/// - `NO`: the verdict is no whatever datagrams come. `fault` is the reason.
/// - `NO_CERTIFICATE`: the bytes are no certificate's. `fault` tells why.
/// - `IS_OPEN`: the handle is open already.
/// - `NO_MEMORY`: memory is wanting.
///
/// The handle changes at `OK` alone, and `fault` at `NO` and `NO_CERTIFICATE` alone.
#[unsafe(no_mangle)]
pub extern "C" fn alcrs_checker_open(
    alloc: Global,
    handle: &mut AlcrsChecker,
    object: &[u8],
    certificate: &[u8],
    tsi: u64,
    toi_high: u64,
    toi_low: u64,
    fault: &mut AlcrsFault,
) -> u32
    requires { IsHandle handle.old }
    ensures handle { IsHandle handle.new }
    ensures opened { result ≡ ok → IsOpenFor handle.new (identity_of tsi toi_high toi_low)
        object.now certificate.now }
    ensures no { result ≡ no → (r : ReasonValue)
        × IsNoAtOnce (identity_of tsi toi_high toi_low) object.now certificate.now r
        × (fault.new ≡ told_reason r) }
    ensures certificate { result ≡ no_certificate → (e : CertFaultValue)
        × (text_fault certificate.now ≡ Some e) × (fault.new ≡ told_certificate e) }
    ensures stays { result ≢ ok → handle.new ≡ handle.old }
    ensures taken { handle.old.is_open ≡ true → result ≡ is_open }
    ensures free { handle.old.is_open ≡ false → result ≢ is_open }
    ensures silent { result ≢ no → result ≢ no_certificate → fault.new ≡ fault.old }
    ensures statuses { IsOneOf
        (ok ∷ no ∷ no_certificate ∷ no_memory ∷ is_open ∷ []) result }
{
    if handle.is_open {
        return status::IS_OPEN;
    }
    match checker_of(alloc, object, certificate, identity(tsi, toi_high, toi_low)) {
        Ok(Ok(checker)) => match Box::new(alloc, checker) {
            Ok(checker) => {
                put_in(handle, checker);
                status::OK
            }
            Err(_) => status::NO_MEMORY,
        },
        Ok(Err(reason)) => {
            *fault = reason_fault(reason);
            status::NO
        }
        Err(CertFault::NoMemory) => status::NO_MEMORY,
        Err(e) => {
            *fault = certificate_fault(e);
            status::NO_CERTIFICATE
        }
    }
}

/// Passes one datagram to an open handle.
///
/// - `OK`: the datagram was fed, and none that was gives a no.
/// - `NO`: the datagram was fed, and the verdict is no whatever follows. `fault` is the first
///   reason.
/// - `NO_SESSION`: the datagram is longer than any of a session, and wasn't fed. `fault` tells
///   that.
/// - `NO_MEMORY`: memory is wanting, and the datagram wasn't fed. From then on each verdict answers
///   this, and each feed of a datagram that isn't too long.
/// - `NOT_OPEN`: the handle isn't open.
///
/// `fault` changes at `NO` and `NO_SESSION` alone.
#[unsafe(no_mangle)]
pub extern "C" fn alcrs_checker_feed(
    alloc: Global,
    handle: &mut AlcrsChecker,
    datagram: &[u8],
    fault: &mut AlcrsFault,
) -> u32
    requires { IsHandle handle.old }
    ensures handle { IsHandle handle.new }
    ensures fed { (who : IdentityValue) (object : List ℕ) (z : CertificateValue)
        (ds : List (List ℕ)) → IsOpen handle.old who object z ds → result ≡ ok
        → IsOpen handle.new who object z (ds ++ datagram.now ∷ [])
        × IsReasonSoFar who (ds ++ datagram.now ∷ []) object z None }
    ensures no { (who : IdentityValue) (object : List ℕ) (z : CertificateValue)
        (ds : List (List ℕ)) → IsOpen handle.old who object z ds → result ≡ no
        → IsOpen handle.new who object z (ds ++ datagram.now ∷ [])
        × ((r : ReasonValue) × IsNoToAll who (ds ++ datagram.now ∷ []) object z r
        × (fault.new ≡ told_reason r)) }
    ensures session { result ≡ no_session → (most_bytes < length datagram.now)
        × (fault.new ≡ told_frame TooLong) }
    ensures short { IsOneOf (ok ∷ no ∷ no_memory ∷ []) result
        → length datagram.now ≤ most_bytes }
    ensures same { result ≡ no_session → handle.new.held.value ≡ handle.old.held.value }
    // A reason and want of memory last.
    ensures over { result ≡ no → (r : ReasonValue) × IsOver handle.new r
        × (fault.new ≡ told_reason r) }
    ensures lacks { result ≡ no_memory → Lacks handle.new }
    ensures after { (r : ReasonValue) → IsOver handle.old r → length datagram.now ≤ most_bytes
        → (result ≡ no) × (fault.new ≡ told_reason r) × IsOver handle.new r }
    ensures lacking { Lacks handle.old → length datagram.now ≤ most_bytes
        → (result ≡ no_memory) × Lacks handle.new }
    ensures stays { (who : IdentityValue) (object : List ℕ) (z : CertificateValue)
        (ds : List (List ℕ)) → IsOpen handle.old who object z ds → result ≢ ok
        → result ≢ no
        → IsOpen handle.new who object z ds }
    ensures closed { handle.old.is_open ≡ false → result ≡ not_open }
    ensures open { handle.old.is_open ≡ true → result ≢ not_open }
    ensures silent { result ≢ no → result ≢ no_session → fault.new ≡ fault.old }
    ensures statuses { IsOneOf (ok ∷ no ∷ no_session ∷ no_memory ∷ not_open ∷ []) result }
{
    let Some(mut checker) = take_out(alloc, handle) else {
        return status::NOT_OPEN;
    };
    let fed = checker.feed(datagram);
    put_in(handle, checker);
    match fed {
        Ok(None) => status::OK,
        Ok(Some(reason)) => {
            *fault = reason_fault(reason);
            status::NO
        }
        Err(CheckFault::Frame(FrameFault::TooLong)) => {
            *fault = frame_fault(FrameFault::TooLong);
            status::NO_SESSION
        }
        Err(CheckFault::NoMemory) => status::NO_MEMORY,
        Err(_) => unreachable!(),
    }
}

/// Tells the verdict on the datagrams that an open handle was fed, in their order. The handle may
/// be fed further.
///
/// - `OK`: yes. `report` has the numbers. `blocks` and `kill` begin with as many blocks and places
///   as they have room for.
/// - `NO`: no. `fault` is the first reason.
/// - `NO_MEMORY`: memory is wanting.
/// - `NOT_OPEN`: the handle isn't open.
///
/// What a status doesn't name stays as it was.
#[unsafe(no_mangle)]
pub extern "C" fn alcrs_checker_verdict(
    alloc: Global,
    handle: &mut AlcrsChecker,
    fault: &mut AlcrsFault,
    report: &mut AlcrsReport,
    blocks: &mut [AlcrsBlock],
    kill: &mut [usize],
) -> u32
    requires { IsHandle handle.old }
    ensures handle { IsHandle handle.new }
    ensures stays { (who : IdentityValue) (object : List ℕ) (z : CertificateValue)
        (ds : List (List ℕ)) → IsOpen handle.old who object z ds
        → IsOpen handle.new who object z ds }
    ensures same { handle.old.is_open ≡ true
        → handle.new.held.value ≡ handle.old.held.value }
    ensures after { (r : ReasonValue) → IsOver handle.old r
        → (result ≡ no) × (fault.new ≡ told_reason r) }
    ensures lacking { Lacks handle.old → result ≡ no_memory }
    ensures yes { (who : IdentityValue) (object : List ℕ) (z : CertificateValue)
        (ds : List (List ℕ)) → IsOpen handle.old who object z ds → result ≡ ok
        → (r : ReportValue) × IsYes who ds object z r
        × (report.new ≡ told_report r)
        × (blocks.new ≡ in_front (map told_block r.blocks.items) blocks.old)
        × (kill.new ≡ in_front r.kill.items kill.old) }
    ensures no { (who : IdentityValue) (object : List ℕ) (z : CertificateValue)
        (ds : List (List ℕ)) → IsOpen handle.old who object z ds → result ≡ no
        → (r : ReasonValue) × IsVerdict who ds object z (Verdict.No r)
        × (fault.new ≡ told_reason r) }
    ensures closed { handle.old.is_open ≡ false → result ≡ not_open }
    ensures open { handle.old.is_open ≡ true → result ≢ not_open }
    ensures buffers { result ≢ ok → (report.new ≡ report.old) × (blocks.new ≡ blocks.old)
        × (kill.new ≡ kill.old) }
    ensures silent { result ≢ no → fault.new ≡ fault.old }
    ensures statuses { IsOneOf (ok ∷ no ∷ no_memory ∷ not_open ∷ []) result }
{
    let Some(checker) = take_out(alloc, handle) else {
        return status::NOT_OPEN;
    };
    let verdict = checker.verdict(alloc);
    put_in(handle, checker);
    match verdict {
        Ok(Verdict::Yes(yes)) => {
            *report = report_numbers(&yes);
            put_blocks(&yes, blocks);
            put_kill(&yes, kill);
            status::OK
        }
        Ok(Verdict::No(reason)) => {
            *fault = reason_fault(reason);
            status::NO
        }
        Err(_) => status::NO_MEMORY,
    }
}

/// Closes a handle, and frees what it had. A handle that isn't open stays so.
#[unsafe(no_mangle)]
pub extern "C" fn alcrs_checker_close(alloc: Global, handle: &mut AlcrsChecker)
    requires { IsHandle handle.old }
    ensures handle { IsHandle handle.new }
    ensures closed { handle.new.is_open ≡ false }
{
    take_out(alloc, handle);
}
