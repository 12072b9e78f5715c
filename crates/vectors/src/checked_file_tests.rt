//! Checks of files that stand where they are beside checks of the same bytes as they are read:
//! verdict, report and fault are those of `check_from`.
ghost use Rattle.std.specs.Prelude.{◌≤◌};

use crate::ONE;
use crate::check_tests::{CERTIFICATE, FIRST_ALONE, NAMED_CERTIFICATE, OBJECT, SESSION};
use crate::file_tests::{Bytes, CHANGES, Changing, FOUR_BYTES, framed, two_blocks, with_byte};
use crate::receiver_tests::{ORDERS, disturbed, object_of, sent};
use cert::{CheckFault, Report, Verdict, check_from};
use certificate::{CertFault, Certificate};
use coder::{certify, certify_to};
use file_check::{Files, check_files};
use partition::Fti;
use rand_pcg::Pcg32;
use reception::Identity;
use session::{FrameFault, Pieces, Sink};
use std::alloc::Global;
use std::cell::Cell;
use std::test::Fail;

fn is_same_report(a: &Report, b: &Report) -> bool {
    a.blocks.as_slice() == b.blocks.as_slice()
        && a.carriers == b.carriers
        && a.repeats == b.repeats
        && a.margin == b.margin
        && a.kill.as_slice() == b.kill.as_slice()
        && a.kill_block == b.kill_block
        && a.burst == b.burst
        && a.burst_place == b.burst_place
        && a.burst_block == b.burst_block
}

fn is_same_verdict(a: &Verdict, b: &Verdict) -> bool {
    match (a, b) {
        (Verdict::Yes(a), Verdict::Yes(b)) => is_same_report(a, b),
        (Verdict::No(a), Verdict::No(b)) => a == b,
        _ => false,
    }
}

// What is checked: the bytes of three files.
#[derive(Clone, Copy)]
struct Held<'a> {
    session: &'a [u8],
    object: &'a [u8],
    certificate: &'a [u8],
}

// What a check of the bytes as they are read answers.
fn read(alloc: Global, held: Held<'_>, identity: Identity) -> Result<Verdict, CheckFault> {
    let certificate = match Certificate::read(alloc, &mut Pieces::new(held.certificate, 50)) {
        Ok(certificate) => certificate,
        Err(fault) => return Err(CheckFault::Certificate(fault)),
    };
    let mut frames = Pieces::new(held.session, 50);
    check_from(alloc, &mut frames, held.object, &certificate, identity)
}

// What the files answer, with a survey and without, and whether there is one.
fn stood(
    alloc: Global,
    held: Held<'_>,
    identity: Identity,
) -> Result<(Verdict, Verdict, bool), CheckFault> {
    let (session, object) = (Bytes(held.session), Bytes(held.object));
    let certificate = Bytes(held.certificate);
    let files = Files {
        session: &session,
        object: &object,
        certificate: &certificate,
    };
    let checked = check_files(alloc, &files, identity)?;
    let (surveyed, survey) = checked.survey(alloc)?;
    Ok((checked.verdict(alloc)?, surveyed, survey.is_some()))
}

// Whether both answer the same, with a survey at a yes and only there.
fn is_same(alloc: Global, held: Held<'_>, identity: Identity) -> bool {
    match (read(alloc, held, identity), stood(alloc, held, identity)) {
        (Ok(verdict), Ok((there, surveyed, has_survey))) => {
            is_same_verdict(&verdict, &there)
                && is_same_verdict(&verdict, &surveyed)
                && has_survey == matches!(verdict, Verdict::Yes(_))
        }
        (Err(fault), Err(there)) => fault == there,
        _ => false,
    }
}

// The certificate of an object, with the name of its packets.
fn certificate_of(alloc: Global, object: &[u8], fti: &Fti) -> Result<Vec<u8>, Fail> {
    let mut sink = Sink::new(alloc);
    certify_to(alloc, object, fti, ONE, &mut sink)?;
    Ok(sink.into_bytes())
}

// The same without a name, whose coefficients stand column by column.
fn plain_certificate_of(alloc: Global, object: &[u8], fti: &Fti) -> Result<Vec<u8>, Fail> {
    let mut sink = Sink::new(alloc);
    certify(alloc, object, fti)?.write(&mut sink)?;
    Ok(sink.into_bytes())
}

// Bytes with another one at a place.
fn changed(alloc: Global, bytes: &[u8], place: usize) -> Result<Vec<u8>, Fail> {
    let mut other = bytes.to_vec(alloc)?;
    if let Some(byte) = other.as_mut_slice().get_mut(place) {
        *byte ^= 1;
    }
    Ok(other)
}

// Whether a file with a byte changed, somewhere, is answered alike, whichever it is.
fn same_where_changed(alloc: Global, held: Held<'_>, place: usize) -> Result<bool, Fail> {
    let session = changed(alloc, held.session, place % held.session.len().max(1))?;
    let object = changed(alloc, held.object, place % held.object.len().max(1))?;
    let certificate = changed(
        alloc,
        held.certificate,
        place % held.certificate.len().max(1),
    )?;
    let of_session = Held {
        session: session.as_slice(),
        ..held
    };
    let of_object = Held {
        object: object.as_slice(),
        ..held
    };
    let of_certificate = Held {
        certificate: certificate.as_slice(),
        ..held
    };
    Ok(
        is_same(alloc, of_session, ONE)
            && is_same(alloc, of_object, ONE)
            && is_same(alloc, of_certificate, ONE),
    )
}

// Whether sessions are answered alike that lose, repeat and spoil some datagrams, in any order.
fn same_in_all(alloc: Global, length: usize, fti: &Fti, every: u32) -> Result<bool, Fail>
    requires { 1 ≤ every }
{
    let mut random = Pcg32::new(length as u64, 5510);
    let object = object_of(alloc, &mut random, length)?;
    let session = sent(alloc, object.as_slice(), fti, every)?;
    let named = certificate_of(alloc, object.as_slice(), fti)?;
    let plain = plain_certificate_of(alloc, object.as_slice(), fti)?;
    for place in 0..ORDERS {
        let datagrams = disturbed(alloc, &mut random, &session)?;
        let bytes = framed(alloc, datagrams.as_slice())?;
        let held = Held {
            session: bytes.as_slice(),
            object: object.as_slice(),
            certificate: named.as_slice(),
        };
        let without = Held {
            certificate: plain.as_slice(),
            ..held
        };
        if !is_same(alloc, held, ONE) || !same_where_changed(alloc, held, place)? {
            return Ok(false);
        }
        if !is_same(alloc, without, ONE) {
            return Ok(false);
        }
    }
    Ok(true)
}

#[test]
fn of_small_objects(rt: HostRuntime) -> Result<(), Fail> {
    for (length, e, b, max_n, every) in [
        (2, 1, 2, 3, 1),
        (29, 8, 8, 12, 1),
        (10, 1, 4, 6, 1),
        (10, 1, 4, 6, 4),
        (29, 8, 8, 12, 3),
    ] {
        let fti = Fti::new(length, e, b, max_n)?;
        let same = same_in_all(rt.alloc(), length as usize, &fti, every)?;
        assert!(rt; same, "{length} bytes, every {every}");
    }
    Ok(())
}

#[test]
fn of_a_bulletin(rt: HostRuntime) -> Result<(), Fail> {
    let fti = Fti::new(20000, 250, 32, 40)?;
    assert!(rt; same_in_all(rt.alloc(), 20000, &fti, 1)?);
    Ok(())
}

// The object of two bytes with its certificate's name, and a session.
fn small(session: &[u8]) -> Held<'_> {
    Held {
        session,
        object: &OBJECT,
        certificate: &NAMED_CERTIFICATE,
    }
}

// A session is read up to any byte of it, and there is an end, or a frame is cut off.
#[test]
fn of_cut_sessions(rt: HostRuntime) -> Result<(), Fail> {
    for end in 0..SESSION.len() + 1 {
        assert!(rt;
            is_same(rt.alloc(), small(&SESSION[..end]), ONE),
            "{end} bytes"
        );
    }
    assert!(rt; is_same(rt.alloc(), small(&FIRST_ALONE), ONE));
    Ok(())
}

// A certificate of another's packets, and files that are too short, too long or none.
#[test]
fn of_other_files(rt: HostRuntime) -> Result<(), Fail> {
    let alloc = rt.alloc();
    let held = small(&SESSION);
    assert!(rt; is_same(alloc, held, Identity { tsi: 1, toi: 2 }));
    assert!(rt;
        is_same(
            alloc,
            Held {
                object: &[1],
                ..held
            },
            ONE
        )
    );
    assert!(rt;
        is_same(
            alloc,
            Held {
                object: &[1, 2, 3],
                ..held
            },
            ONE
        )
    );
    for end in 0..NAMED_CERTIFICATE.len() {
        let certificate = &NAMED_CERTIFICATE[..end];
        assert!(rt;
            is_same(
                alloc,
                Held {
                    certificate,
                    ..held
                },
                ONE
            ),
            "{end} bytes"
        );
    }
    Ok(())
}

// A certificate without a name, whichever identity is asked for.
#[test]
fn without_a_name(rt: HostRuntime) -> Result<(), Fail> {
    let held = Held {
        certificate: &CERTIFICATE,
        ..small(&SESSION)
    };
    assert!(rt; is_same(rt.alloc(), held, ONE));
    assert!(rt; is_same(rt.alloc(), held, Identity { tsi: 1, toi: 2 }));
    Ok(())
}

// What is told where the session changes behind so many calls.
fn told_of_changing(
    alloc: Global,
    held: Held<'_>,
    others: Option<&[u8]>,
    calls: usize,
) -> Option<CheckFault> {
    let session = Changing {
        bytes: held.session,
        others: others.unwrap_or(&[]),
        fails: others.is_none(),
        calls: Cell::new(calls),
    };
    let (object, certificate) = (Bytes(held.object), Bytes(held.certificate));
    let files = Files {
        session: &session,
        object: &object,
        certificate: &certificate,
    };
    match check_files(alloc, &files, ONE) {
        Ok(_) => None,
        Err(fault) => Some(fault),
    }
}

// A session that fails is told by its frames while they are gone over, and by its file then.
#[test]
fn of_failing_sessions(rt: HostRuntime) -> Result<(), Fail> {
    let alloc = rt.alloc();
    let held = small(&SESSION);
    let at_once = told_of_changing(alloc, held, None, 0);
    assert!(rt; at_once == Some(CheckFault::Frame(FrameFault::Io)));
    let later = told_of_changing(alloc, held, None, 3);
    assert!(rt; later == Some(CheckFault::Session));
    let shorter = told_of_changing(alloc, held, Some(&SESSION[..20]), 3);
    assert!(rt; shorter == Some(CheckFault::Session));
    let other = told_of_changing(alloc, held, Some(&FIRST_ALONE), 3);
    assert!(rt; other == Some(CheckFault::Session));
    Ok(())
}

// A session that is another one once its frames were gone over, in each way that there is.
#[test]
fn of_changed_sessions(rt: HostRuntime) -> Result<(), Fail> {
    let alloc = rt.alloc();
    let session = two_blocks(alloc)?;
    let certificate = certificate_of(alloc, &FOUR_BYTES, &Fti::new(4, 1, 2, 3)?)?;
    for (place, before, after) in CHANGES {
        let first = with_byte(alloc, session.as_slice(), place, before)?;
        let second = with_byte(alloc, session.as_slice(), place, after)?;
        let held = Held {
            session: first.as_slice(),
            object: &FOUR_BYTES,
            certificate: certificate.as_slice(),
        };
        let same = told_of_changing(alloc, held, Some(first.as_slice()), 4);
        assert!(rt; same.is_none(), "byte {place}: {same:?}");
        let told = told_of_changing(alloc, held, Some(second.as_slice()), 4);
        assert!(rt; told == Some(CheckFault::Session), "byte {place}: {told:?}");
    }
    Ok(())
}

// The certificate's file fails at once, or once it was opened.
#[test]
fn of_failing_certificates(rt: HostRuntime) -> Result<(), Fail> {
    for calls in 0..4usize {
        let (session, object) = (Bytes(&SESSION), Bytes(&OBJECT));
        let certificate = Changing {
            bytes: &NAMED_CERTIFICATE,
            others: &[],
            fails: true,
            calls: Cell::new(calls),
        };
        let files = Files {
            session: &session,
            object: &object,
            certificate: &certificate,
        };
        let told = check_files(rt.alloc(), &files, ONE);
        let is_fault = matches!(told, Err(CheckFault::Certificate(CertFault::Io)));
        assert!(rt; is_fault || calls == 3, "{calls} calls");
    }
    Ok(())
}
