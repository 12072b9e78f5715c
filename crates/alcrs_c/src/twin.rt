//! The twin.
ghost use Rattle.std.specs.Prelude.{◌≡◌, ◌≢◌, ◌<◌, ◌++◌, ◌∷◌, [], ℕ, List, Some, None, IfOk, IfErr};
ghost use Rattle.std.specs.Prelude.{drop, length, map};
ghost use Rattle.session.specs.Frames.{AreDatagrams, StopsAt};
ghost use Rattle.session.specs.declared.frame.FrameFault.{FrameFault as FrameFaultValue};
ghost use Rattle.certificate.specs.Certificate.{text_fault};
ghost use Rattle.cert.specs.Fed.{IsFed};
ghost use Rattle.cert.specs.Verdict.{IsVerdict, short_of};
ghost use Rattle.certificate.specs.declared.certificate.CertFault.{CertFault as CertFaultValue};
ghost use Rattle.cert.specs.declared.verdict.Report.{Report as ReportValue};
ghost use Rattle.cert.specs.declared.verdict.Reason.{Reason as ReasonValue};
ghost use Rattle.alcrs_c.specs.Asked.{identity_of};
ghost use Rattle.alcrs_c.specs.Twinned.{IsTwinIn, IsTwinned, IsJudged};
ghost use Rattle.alcrs_c.specs.Untwinned.{IsNoTwin, IsUntwinned};
ghost use Rattle.alcrs_c.specs.Statuses.{ok, no, no_session, no_certificate, no_room, no_memory};
ghost use Rattle.alcrs_c.specs.Statuses.{none_short, IsOneOf};
ghost use Rattle.alcrs_c.specs.Told.{told_reason, told_frame, told_certificate};

use crate::frames::datagrams_of;
use crate::input::identity;
use crate::status;
use crate::told::{AlcrsFault, certificate_fault, frame_fault, put_bytes, reason_fault};
use cert::{CheckFault, Checker, Reason, Verdict};
use certificate::{CertFault, CertificateView};
use reception::Identity;
use session::FrameFault;
use std::alloc::{AllocError, Global};
use std::borrow::CowSlice;

/// A twin, and the block that is short.
struct Twin {
    block: u32,
    have: usize,
    need: usize,
    bytes: Vec<u8>,
}

/// Why there is no twin.
enum Untwinned {
    NoneShort,
    No(Reason),
    Session(FrameFault),
    Certificate(CertFault),
    NoMemory,
}

impl From<AllocError> for Untwinned {
    ghost use Rattle.alcrs_c.specs.declared.twin.Untwinned.TheVariants.{NoMemory};

    ghost from_gives = { λ _ untwinned. untwinned ≡ NoMemory };

    fn from(_: AllocError) -> Self {
        Untwinned::NoMemory
    }
}

// A check that was fed the datagrams, or the reason that none of them changes.
fn fed<'a>(
    alloc: Global,
    datagrams: &[&[u8]],
    object: &'a [u8],
    certificate: CertificateView<'a>,
    identity: Identity,
) -> Result<Result<Checker<'a>, Reason>, AllocError>
    requires { AreDatagrams (map (λ d. d.now) datagrams.now) }
    ensures fed { IfOk result (λ r. IfOk r (λ checker. IsFed checker identity object.now
        certificate.entry (map (λ d. d.now) datagrams.now))) }
    ensures no { IfOk result (λ r. IfErr r (λ reason. IsVerdict identity
        (map (λ d. d.now) datagrams.now) object.now certificate.entry (Verdict.No reason)
        × (short_of reason ≡ None))) }
{
    let object = CowSlice::Borrowed(object);
    let mut checker = match Checker::new(alloc, object, certificate, identity)? {
        Ok(checker) => checker,
        Err(reason) => return Ok(Err(reason)),
    };
    for datagram in datagrams {
        match checker.feed(datagram) {
            Ok(_) => {}
            Err(CheckFault::Frame(_)) => unreachable!(),
            Err(_) => return Err(AllocError),
        }
    }
    Ok(Ok(checker))
}

// The twin that the verdict on the datagrams asks for.
fn twin_in(
    alloc: Global,
    datagrams: &[&[u8]],
    object: &[u8],
    certificate: CertificateView<'_>,
    identity: Identity,
) -> Result<Twin, Untwinned>
    requires { AreDatagrams (map (λ d. d.now) datagrams.now) }
    ensures twin { IfOk result (λ t. IsTwinIn identity (map (λ d. d.now) datagrams.now)
        object.now certificate.entry (t.block, t.have, t.need) t.bytes.items) }
    ensures none { IfErr result (IsNoTwin identity (map (λ d. d.now) datagrams.now)
        object.now certificate.entry) }
{
    let checker = match fed(alloc, datagrams, object, certificate, identity)? {
        Ok(checker) => checker,
        Err(reason) => return Err(Untwinned::No(reason)),
    };
    let reason = match checker.verdict(alloc)? {
        Verdict::Yes(_) => return Err(Untwinned::NoneShort),
        Verdict::No(reason) => reason,
    };
    let Some((block, have, need)) = reason.short_block() else {
        return Err(Untwinned::No(reason));
    };
    let bytes = checker.twin(alloc, block)?;
    Ok(Twin {
        block,
        have,
        need,
        bytes,
    })
}

fn twin_of(
    alloc: Global,
    session: &[u8],
    object: &[u8],
    certificate: &[u8],
    identity: Identity,
) -> Result<Twin, Untwinned>
    ensures twin { IfOk result (λ t. IsTwinned identity session.now object.now certificate.now
        (t.block, t.have, t.need) t.bytes.items) }
    ensures none { IfErr result
        (IsUntwinned identity session.now object.now certificate.now) }
{
    let datagrams = match datagrams_of(alloc, session) {
        Ok(datagrams) => datagrams,
        Err(FrameFault::NoMemory) => return Err(Untwinned::NoMemory),
        Err(fault) => return Err(Untwinned::Session(fault)),
    };
    let certificate = match CertificateView::from_text(alloc, certificate) {
        Ok(certificate) => certificate,
        Err(CertFault::NoMemory) => return Err(Untwinned::NoMemory),
        Err(fault) => return Err(Untwinned::Certificate(fault)),
    };
    twin_in(alloc, &datagrams, object, certificate, identity)
}

/// Makes a twin of an object where a session has too few symbols of a block: another object of the
/// same length that agrees with all of the identity's packets in the session. The TOI is `toi_high`
/// * 2^64 + `toi_low`.
///
/// - `OK`: the twin stands in front of `twin`, and `size` is its length in bytes. `fault` has the
///   block, `have` and `need`.
/// - `NO_ROOM`: the twin is longer than the buffer, and `size` is its length. `fault` is as at
///   `OK`.
/// - `NONE_SHORT`: the check says yes.
/// - `NO`: the check says no for another reason. `fault` tells it.
/// - `NO_SESSION`, `NO_CERTIFICATE`: the bytes are none. `fault` tells why.
/// - `NO_MEMORY`: memory is wanting.
///
/// What a status doesn't name stays as it was.
#[unsafe(no_mangle)]
pub extern "C" fn alcrs_twin(
    alloc: Global,
    session: &[u8],
    object: &[u8],
    certificate: &[u8],
    tsi: u64,
    toi_high: u64,
    toi_low: u64,
    fault: &mut AlcrsFault,
    twin: &mut [u8],
    size: &mut usize,
) -> u32
    ensures twin { result ≡ ok → (o : List ℕ) × (b h n : ℕ)
        × IsTwinned (identity_of tsi toi_high toi_low) session.now object.now certificate.now
        (b, h, n) o
        × (fault.new ≡ told_reason (Reason.Thin b h n))
        × (size.new ≡ length o) × (twin.new ≡ o ++ drop (length o) twin.old) }
    ensures room { result ≡ no_room → (o : List ℕ) × (b h n : ℕ)
        × IsTwinned (identity_of tsi toi_high toi_low) session.now object.now certificate.now
        (b, h, n) o
        × (fault.new ≡ told_reason (Reason.Thin b h n))
        × (size.new ≡ length o) × (length twin.old < length o) }
    ensures yes { result ≡ none_short → (r : ReportValue)
        × IsJudged (identity_of tsi toi_high toi_low) session.now object.now certificate.now
        (Verdict.Yes r) }
    ensures no { result ≡ no → (r : ReasonValue)
        × IsJudged (identity_of tsi toi_high toi_low) session.now object.now certificate.now
        (Verdict.No r)
        × (short_of r ≡ None) × (fault.new ≡ told_reason r) }
    ensures session { result ≡ no_session → (e : FrameFaultValue) × StopsAt e session.now
        × (fault.new ≡ told_frame e) }
    ensures certificate { result ≡ no_certificate → (e : CertFaultValue)
        × (text_fault certificate.now ≡ Some e) × (fault.new ≡ told_certificate e) }
    ensures stays { result ≢ ok → twin.new ≡ twin.old }
    ensures sizeless { result ≢ ok → result ≢ no_room → size.new ≡ size.old }
    ensures silent { IsOneOf (none_short ∷ no_memory ∷ []) result
        → fault.new ≡ fault.old }
    ensures statuses { IsOneOf
        (ok ∷ no ∷ no_session ∷ no_certificate ∷ no_room ∷ no_memory ∷ none_short ∷ [])
        result }
{
    let identity = identity(tsi, toi_high, toi_low);
    match twin_of(alloc, session, object, certificate, identity) {
        Ok(
            Twin {
                block,
                have,
                need,
                bytes,
            },
        ) => {
            *fault = reason_fault(Reason::Thin { block, have, need });
            if put_bytes(&bytes, twin, size) {
                status::OK
            } else {
                status::NO_ROOM
            }
        }
        Err(Untwinned::NoneShort) => status::NONE_SHORT,
        Err(Untwinned::No(reason)) => {
            *fault = reason_fault(reason);
            status::NO
        }
        Err(Untwinned::Session(e)) => {
            *fault = frame_fault(e);
            status::NO_SESSION
        }
        Err(Untwinned::Certificate(e)) => {
            *fault = certificate_fault(e);
            status::NO_CERTIFICATE
        }
        Err(Untwinned::NoMemory) => status::NO_MEMORY,
    }
}
