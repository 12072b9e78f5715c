//! Checks of sessions as they are read.
ghost use Rattle.std.specs.Prelude.{◌<◌};

use crate::ONE;
use crate::session_tests::{breaking_between, is_left};
use alc::PacketFault;
use cert::{CheckFault, Reason, Report, Verdict, check, check_from};
use certificate::{CertFault, Certificate};
use reception::Identity;
use session::{FrameFault, Pieces, Read, Session};
use std::alloc::Global;
use std::test::Fail;

/// With FTI (2, 1, 2, 3).
pub(crate) const OBJECT: [u8; 2] = [1, 2];

/// The object's.
pub(crate) const CERTIFICATE: [u8; 16] = [
    0x52, 0x53, 0x43, 0x31, 0, 0, 0, 0, 0, 2, 0, 1, 2, 3, 0, 1,
];

/// The object's certificate with the name of its packets.
pub(crate) const NAMED_CERTIFICATE: [u8; 36] = [
    0x52, 0x53, 0x43, 0x32, 0, 0, 0, 0, 0, 1, 0, 0, 0, 0, 0, 0, 0, 0, 0, 0, 0, 0, 0, 1, 0, 0, 0, 0,
    0, 2, 0, 1, 2, 3, 0, 1,
];

/// The object's three datagrams.
pub(crate) const SESSION: [u8; 105] = [
    0x00, 0x21, 0x10, 0xA0, 0x07, 0x05, 0, 0, 0, 0, 0, 0, 0, 1, 0, 0, 0, 1, 0x40, 3, 0, 0, 0, 0, 0,
    2, 0, 1, 2, 3, 0, 0, 0, 0, 1, 0x00, 0x21, 0x10, 0xA0, 0x07, 0x05, 0, 0, 0, 0, 0, 0, 0, 1, 0, 0,
    0, 1, 0x40, 3, 0, 0, 0, 0, 0, 2, 0, 1, 2, 3, 0, 0, 0, 1, 2, 0x00, 0x21, 0x10, 0xA0, 0x07, 0x05,
    0, 0, 0, 0, 0, 0, 0, 1, 0, 0, 0, 1, 0x40, 3, 0, 0, 0, 0, 0, 2, 0, 1, 2, 3, 0, 0, 0, 2, 4,
];

/// The object's three datagrams, the FTI in the first alone: frames of 35, 23 and 23 bytes.
pub(crate) const FIRST_ALONE: [u8; 81] = [
    0x00, 0x21, 0x10, 0xA0, 0x07, 0x05, 0, 0, 0, 0, 0, 0, 0, 1, 0, 0, 0, 1, 0x40, 3, 0, 0, 0, 0, 0,
    2, 0, 1, 2, 3, 0, 0, 0, 0, 1, 0x00, 0x15, 0x10, 0xA0, 0x04, 0x05, 0, 0, 0, 0, 0, 0, 0, 1, 0, 0,
    0, 1, 0, 0, 0, 1, 2, 0x00, 0x15, 0x10, 0xA0, 0x04, 0x05, 0, 0, 0, 0, 0, 0, 0, 1, 0, 0, 0, 1, 0,
    0, 0, 2, 4,
];

/// The bytes of one frame of a carrier.
pub(crate) const FRAME: usize = 35;

/// The texts of both certificates, which certify the same of these datagrams.
pub(crate) const CERTIFICATES: [&[u8]; 2] = [&CERTIFICATE, &NAMED_CERTIFICATE];

/// The certificate of a text that comes in pieces.
pub(crate) fn certificate_of(alloc: Global, text: &[u8]) -> Result<Certificate, CertFault> {
    Certificate::read(alloc, &mut Pieces::new(text, 5))
}

// The session with another symbol in datagram 1.
fn changed() -> [u8; 105] {
    let mut session = SESSION;
    session[69] = 9;
    session
}

// The session with another last symbol.
fn last_changed() -> [u8; 105] {
    let mut session = SESSION;
    session[104] = 5;
    session
}

// A session whose datagram 0 is no packet.
fn unreadable() -> [u8; 105] {
    let mut session = SESSION;
    session[2] = 0;
    session
}

/// What a check answers, without the report of a yes.
#[derive(Clone, Copy, PartialEq, Eq)]
pub(crate) enum Told {
    Yes,
    No(Reason),
    Fault(CheckFault),
}

fn told_by(verdict: &Verdict) -> Told {
    match verdict {
        Verdict::Yes(_) => Told::Yes,
        Verdict::No(reason) => Told::No(*reason),
    }
}

// What a check answers of what is read.
fn told_reading<R: Read>(
    alloc: Global,
    reader: &mut R,
    object: &[u8],
    certificate: &Certificate,
    identity: Identity,
) -> Told {
    match check_from(alloc, reader, object, certificate, identity) {
        Ok(verdict) => told_by(&verdict),
        Err(fault) => Told::Fault(fault),
    }
}

/// What a check answers of a session that is read before.
pub(crate) fn told_of_whole(
    alloc: Global,
    file: &[u8],
    object: &[u8],
    certificate: &Certificate,
    identity: Identity,
) -> Told {
    match Session::read(alloc, &mut Pieces::new(file, 50)) {
        Ok(session) => told_of(alloc, &session, object, certificate, identity),
        Err(fault) => Told::Fault(CheckFault::Frame(fault)),
    }
}

fn told_of(
    alloc: Global,
    session: &Session,
    object: &[u8],
    certificate: &Certificate,
    identity: Identity,
) -> Told {
    match check(alloc, session, object, certificate, identity) {
        Ok(verdict) => told_by(&verdict),
        Err(_) => Told::Fault(CheckFault::NoMemory),
    }
}

// What a check answers of the object and a file that comes in pieces of so many bytes.
fn told_in_pieces(alloc: Global, file: &[u8], most: usize, certificate: &Certificate) -> Told
    requires { 0 < most }
{
    told_reading(
        alloc,
        &mut Pieces::new(file, most),
        &OBJECT,
        certificate,
        ONE,
    )
}

// What is told of the session's first bytes, by their number.
fn of_beginning(size: usize) -> Told {
    match (size / FRAME, size % FRAME) {
        (0, 0) => Told::No(Reason::Empty),
        (1, 0) => Told::No(Reason::Thin {
            block: 0,
            have: 1,
            need: 2,
        }),
        (_, 0) => Told::Yes,
        (_, 1) => Told::Fault(CheckFault::Frame(FrameFault::CutLength)),
        _ => Told::Fault(CheckFault::Frame(FrameFault::CutDatagram)),
    }
}

#[test]
fn every_cut_in_every_piece(rt: HostRuntime) -> Result<(), Fail> {
    let alloc = rt.alloc();
    for text in CERTIFICATES {
        let certificate = certificate_of(alloc, text)?;
        for most in 1..=8usize {
            for size in 0..=105usize {
                let answer = told_in_pieces(alloc, &SESSION[..size], most, &certificate);
                let right = answer == of_beginning(size);
                assert!(rt; right, "{size} bytes in pieces of {most}");
            }
        }
    }
    Ok(())
}

// Whether this is told of a file, and no byte of it behind the first so many is read.
fn is_told_at(
    alloc: Global,
    file: &[u8],
    most: usize,
    certificate: &Certificate,
    wanted: Told,
    end: usize,
) -> bool
    requires { 0 < most }
{
    let mut reader = Pieces::new(file, most);
    let answer = told_reading(alloc, &mut reader, &OBJECT, certificate, ONE);
    let unread = file.get(end..).unwrap_or(&[]);
    answer == wanted && is_left(alloc, &mut reader, unread)
}

// What is told of its first bytes where datagram 1 has another symbol.
fn of_changed_beginning(size: usize) -> Told {
    if size < 2 * FRAME {
        of_beginning(size)
    } else {
        Told::No(Reason::Symbol(1, 0))
    }
}

// A reason at a place is told of any bytes behind it, and these aren't read.
#[test]
fn a_reason_before_a_cut(rt: HostRuntime) -> Result<(), Fail> {
    let alloc = rt.alloc();
    let session = changed();
    for text in CERTIFICATES {
        let certificate = certificate_of(alloc, text)?;
        for most in 1..=8usize {
            for size in 0..=105usize {
                let wanted = of_changed_beginning(size);
                let file = &session[..size];
                let right = is_told_at(alloc, file, most, &certificate, wanted, 2 * FRAME);
                assert!(rt; right, "{size} bytes in pieces of {most}");
            }
        }
    }
    Ok(())
}

// Whether this is told of a file, asked for an identity, and none of it is read.
fn is_told_unread(
    alloc: Global,
    file: &[u8],
    object: &[u8],
    certificate: &Certificate,
    identity: Identity,
    wanted: Told,
) -> bool {
    let mut reader = Pieces::new(file, 8);
    let answer = told_reading(alloc, &mut reader, object, certificate, identity);
    answer == wanted && is_left(alloc, &mut reader, file)
}

// Nothing is read where the object isn't the certificate's.
#[test]
fn another_object(rt: HostRuntime) -> Result<(), Fail> {
    let alloc = rt.alloc();
    let not_given = Reason::NotObject {
        block: 0,
        column: 0,
        symbol: 1,
    };
    for text in CERTIFICATES {
        let certificate = certificate_of(alloc, text)?;
        for size in 0..=105usize {
            let file = &SESSION[..size];
            let told = Told::No(not_given);
            let right = is_told_unread(alloc, file, &[1, 3], &certificate, ONE, told);
            assert!(rt; right, "{size} bytes, another byte");
            let told = Told::No(Reason::ObjectLength);
            let right = is_told_unread(alloc, file, &[1], &certificate, ONE, told);
            assert!(rt; right, "{size} bytes, another length");
        }
    }
    Ok(())
}

// Whether it is told of this file, whole and cut in the last datagram, that the certificate is
// another's.
fn is_anothers(
    alloc: Global,
    file: &[u8; 105],
    object: &[u8],
    certificate: &Certificate,
    identity: Identity,
) -> bool {
    let other = Told::No(Reason::OtherCertificate);
    told_of_whole(alloc, file, object, certificate, identity) == other
        && is_told_unread(alloc, file, object, certificate, identity, other)
        && is_told_unread(alloc, &file[..100], object, certificate, identity, other)
}

// Nothing is read, and no object looked at, where the certificate has another identity's name.
#[test]
fn anothers_certificate(rt: HostRuntime) -> Result<(), Fail> {
    let alloc = rt.alloc();
    let named = certificate_of(alloc, &NAMED_CERTIFICATE)?;
    for (tsi, toi) in [(1, 2), (2, 1), (0, 0)] {
        let identity = Identity { tsi, toi };
        for object in [&OBJECT[..], &[1, 3], &[1], &[]] {
            for file in [SESSION, changed(), unreadable()] {
                let right = is_anothers(alloc, &file, object, &named, identity);
                assert!(rt; right, "of {tsi} {toi}");
            }
        }
    }
    Ok(())
}

// Without a name it is the certificate of any packets that it fits; of other packets there are none
// here.
#[test]
fn a_certificate_without_a_name(rt: HostRuntime) -> Result<(), Fail> {
    let alloc = rt.alloc();
    let plain = certificate_of(alloc, &CERTIFICATE)?;
    let other = Identity { tsi: 1, toi: 2 };
    let no_packet = Reason::Packet(0, PacketFault::Version);
    for (file, object, reason) in [
        (SESSION, &OBJECT[..], Reason::Empty),
        (unreadable(), &OBJECT, no_packet),
        (unreadable(), &[1], Reason::ObjectLength),
    ] {
        let answer = told_of_whole(alloc, &file, object, &plain, other);
        assert!(rt; answer == Told::No(reason), "{reason:?}");
    }
    Ok(())
}

// Where a reader of this session breaks and something else is told of it than the failure, or, from
// `end` on, than what stands before it.
fn told_otherwise(
    alloc: Global,
    session: &[u8; 105],
    certificate: &Certificate,
    end: usize,
    behind: Told,
) -> Option<usize> {
    for size in 0..=105usize {
        let mut reader = breaking_between(&session[..size], &[]);
        let answer = told_reading(alloc, &mut reader, &OBJECT, certificate, ONE);
        let wanted = if size < end {
            Told::Fault(CheckFault::Frame(FrameFault::Io))
        } else {
            behind
        };
        if answer != wanted {
            return Some(size);
        }
    }
    None
}

// A reader that fails in mid-stream, wherever that is, is told as such, unless a reason stands
// before it.
#[test]
fn a_reader_that_fails_under_a_check(rt: HostRuntime) -> Result<(), Fail> {
    let alloc = rt.alloc();
    for text in CERTIFICATES {
        let certificate = certificate_of(alloc, text)?;
        let at = told_otherwise(alloc, &SESSION, &certificate, 106, Told::Yes);
        assert!(rt; at.is_none(), "broken at {at:?}");
        let reason = Told::No(Reason::Symbol(1, 0));
        let at = told_otherwise(alloc, &changed(), &certificate, 2 * FRAME, reason);
        assert!(rt; at.is_none(), "broken at {at:?}, a reason at place 1");
        let reason = Told::No(Reason::Symbol(2, 0));
        let at = told_otherwise(alloc, &last_changed(), &certificate, 3 * FRAME, reason);
        assert!(rt; at.is_none(), "broken at {at:?}, a reason at place 2");
    }
    Ok(())
}

// What a report of the block of three symbols says of losses. The kill and one neighbour more than
// the burst leave the same short: the block, or no carrier.
#[derive(Clone, Copy)]
struct Figures {
    carriers: usize,
    margin: usize,
    kill: &'static [usize],
    burst: usize,
    burst_place: usize,
    short: Option<usize>,
}

fn has_figures(report: &Report, figures: Figures) -> bool {
    report.blocks.as_slice() == [(2, 3)].as_slice()
        && report.carriers == figures.carriers
        && report.margin == figures.margin
        && report.kill.as_slice() == figures.kill
        && report.kill_block == figures.short
        && report.burst == figures.burst
        && report.burst_place == figures.burst_place
        && report.burst_block == figures.short
}

fn is_yes(verdict: &Verdict, figures: Figures) -> bool {
    match verdict {
        Verdict::Yes(report) => has_figures(report, figures),
        Verdict::No(_) => false,
    }
}

// Whether a check of the file as it is read reports these.
fn reports_reading(
    alloc: Global,
    file: &[u8],
    certificate: &Certificate,
    figures: Figures,
) -> bool {
    match check_from(alloc, &mut Pieces::new(file, 50), &OBJECT, certificate, ONE) {
        Ok(verdict) => is_yes(&verdict, figures),
        Err(_) => false,
    }
}

// Whether a check of its session does.
fn reports_of(
    alloc: Global,
    session: &Session,
    certificate: &Certificate,
    figures: Figures,
) -> bool {
    match check(alloc, session, &OBJECT, certificate, ONE) {
        Ok(verdict) => is_yes(&verdict, figures),
        Err(_) => false,
    }
}

// Whether both do, of each certificate.
fn reports(alloc: Global, file: &[u8], figures: Figures) -> Result<bool, Fail> {
    let session = Session::read(alloc, &mut Pieces::new(file, 50))?;
    for text in CERTIFICATES {
        let certificate = certificate_of(alloc, text)?;
        if !reports_of(alloc, &session, &certificate, figures)
            || !reports_reading(alloc, file, &certificate, figures)
        {
            return Ok(false);
        }
    }
    Ok(true)
}

// The session whose first datagram alone is a carrier, twice.
fn twice() -> [u8; 162] {
    let mut session = [0; 162];
    session[..81].copy_from_slice(&FIRST_ALONE);
    session[81..].copy_from_slice(&FIRST_ALONE);
    session
}

// The session whose first and last datagrams are carriers.
fn first_and_last() -> [u8; 93] {
    let mut session = [0; 93];
    session[..58].copy_from_slice(&FIRST_ALONE[..58]);
    session[58..].copy_from_slice(&SESSION[70..]);
    session
}

// The session of a carrier behind two packets that carry no FTI, and before two more.
fn carrier_between() -> [u8; 127] {
    let mut session = [0; 127];
    session[..46].copy_from_slice(&FIRST_ALONE[35..]);
    session[46..].copy_from_slice(&FIRST_ALONE);
    session
}

// The loss of all carriers counts as that of a block does, and carriers by their places.
#[test]
fn carriers_in_the_report(rt: HostRuntime) -> Result<(), Fail> {
    let alloc = rt.alloc();
    let all = Figures {
        carriers: 3,
        margin: 1,
        kill: &[0, 1],
        burst: 1,
        burst_place: 0,
        short: Some(0),
    };
    assert!(rt; reports(alloc, &SESSION, all)?);
    let alone = Figures {
        carriers: 1,
        margin: 0,
        kill: &[0],
        burst: 0,
        burst_place: 0,
        short: None,
    };
    assert!(rt; reports(alloc, &FIRST_ALONE, alone)?);
    let two = Figures {
        carriers: 2,
        margin: 1,
        kill: &[0, 3],
        burst: 3,
        burst_place: 0,
        short: None,
    };
    assert!(rt; reports(alloc, &twice(), two)?);
    assert!(rt; reports(alloc, &first_and_last(), Figures { carriers: 2, ..all })?);
    let behind = Figures {
        kill: &[2],
        burst_place: 2,
        ..alone
    };
    assert!(rt; reports(alloc, &carrier_between(), behind)?);
    Ok(())
}

// What is told of the first bytes of two packets without FTI: that no carrier came is known at the
// end alone.
fn of_packets_without_fti(size: usize) -> Told {
    match (size / 23, size % 23) {
        (0, 0) => of_beginning(0),
        (1, 0) => of_beginning(FRAME),
        (2, _) => Told::No(Reason::NoCarrier),
        (_, 1) => Told::Fault(CheckFault::Frame(FrameFault::CutLength)),
        _ => Told::Fault(CheckFault::Frame(FrameFault::CutDatagram)),
    }
}

#[test]
fn packets_without_fti_as_they_are_read(rt: HostRuntime) -> Result<(), Fail> {
    let alloc = rt.alloc();
    for text in CERTIFICATES {
        let certificate = certificate_of(alloc, text)?;
        for size in 0..=46usize {
            let answer = told_in_pieces(alloc, &FIRST_ALONE[35..35 + size], 8, &certificate);
            assert!(rt; answer == of_packets_without_fti(size), "{size} bytes");
        }
    }
    Ok(())
}

// Two packets without FTI, one whose symbol is too long, and two bytes behind it.
fn too_long() -> [u8; 72] {
    let plain = &FIRST_ALONE[35..];
    let mut session = [0; 72];
    session[..46].copy_from_slice(plain);
    session[46..48].copy_from_slice(&[0, 22]);
    session[48..69].copy_from_slice(&plain[2..23]);
    session[71] = 1;
    session
}

// A symbol that is too long is a reason at its place, whatever stands behind it.
#[test]
fn a_symbol_too_long_as_it_is_read(rt: HostRuntime) -> Result<(), Fail> {
    let session = too_long();
    for text in CERTIFICATES {
        let certificate = certificate_of(rt.alloc(), text)?;
        for size in 70..=72usize {
            let answer = told_in_pieces(rt.alloc(), &session[..size], 8, &certificate);
            let right = answer == Told::No(Reason::SymbolLength(2));
            assert!(rt; right, "{size} bytes");
        }
    }
    Ok(())
}
