//! What is sent is certified. The datagrams themselves stand in transcripts.
ghost use Rattle.std.specs.Prelude.{◌≡◌, ◌<◌, ◌≤◌, length};

use crate::ONE;
use crate::certificate_tests::has_text;
use cert::{Verdict, check};
use certificate::Certificate;
use coder::{CertifyFault, SendFault, certify, encode};
use elim::{Matrix, interpolator};
use gf256::{Field, Gf, point};
use partition::{Fti, Order};
use rand_core::Rng;
use rand_pcg::Pcg32;
use session::{Pieces, Session, Sink};
use std::alloc::{AllocError, Global};
use std::test::Fail;

// Whether `check` says yes to a session and a certificate, and tells as many carriers.
fn says_yes(
    alloc: Global,
    session: &Session,
    object: &[u8],
    certificate: &Certificate,
    carriers: u64,
) -> bool {
    match check(alloc, session, object, certificate, ONE) {
        Ok(Verdict::Yes(report)) => report.carriers as u64 == carriers,
        _ => false,
    }
}

fn says_yes_to_file(
    alloc: Global,
    file: &[u8],
    object: &[u8],
    certificate: &Certificate,
    carriers: u64,
) -> bool {
    match Session::read(alloc, &mut Pieces::new(file, 100)) {
        Ok(session) => says_yes(alloc, &session, object, certificate, carriers),
        Err(_) => false,
    }
}

// Whether so many datagrams are sent, those at the places that `every` divides with the FTI, and
// `check` says yes.
fn says_yes_to_sent(
    alloc: Global,
    object: &[u8],
    fti: &Fti,
    count: u64,
    every: u32,
    order: Order,
    certificate: &Certificate,
) -> bool
    requires { 1 ≤ every }
{
    let carriers = count.div_ceil(u64::from(every));
    let mut sink = Sink::new(alloc);
    encode(alloc, object, 1, 1, fti, every, order, &mut sink) == Ok(count)
        && says_yes_to_file(alloc, sink.bytes(), object, certificate, carriers)
}

// Whether the object's session gets a yes in each order, with the FTI in all datagrams, in each
// third and in the first alone.
fn says_yes_always(
    alloc: Global,
    object: &[u8],
    fti: &Fti,
    count: u64,
    certificate: &Certificate,
) -> bool {
    for order in [Order::Blocks, Order::Rounds] {
        for every in [1, 3, u32::MAX] {
            if !says_yes_to_sent(alloc, object, fti, count, every, order, certificate) {
                return false;
            }
        }
    }
    true
}

fn says_yes_named(
    alloc: Global,
    object: &[u8],
    fti: &Fti,
    count: u64,
    certificate: &Certificate,
) -> bool {
    match certificate.named(alloc, ONE) {
        Ok(named) => says_yes_always(alloc, object, fti, count, &named),
        Err(_) => false,
    }
}

// Whether that is so of the object's certificate, which has no name, and of its form with the
// session's.
fn is_certified(alloc: Global, object: &[u8], fti: &Fti, count: u64) -> bool {
    match certify(alloc, object, fti) {
        Ok(certificate) => {
            certificate.name().is_none()
                && says_yes_always(alloc, object, fti, count, &certificate)
                && says_yes_named(alloc, object, fti, count, &certificate)
        }
        Err(_) => false,
    }
}

const THREE_BLOCKS: [u8; 10] = [0x01, 0x08, 0x40, 0x3A, 1, 2, 4, 1, 4, 0x10];

// Of the greatest block all 255 encoding symbols are source symbols.
#[test]
fn what_is_sent_is_certified(rt: HostRuntime) -> Result<(), Fail> {
    for (object, e, b, max_n, count) in [
        (&[1u8, 2][..], 1, 2, 3, 3),
        (&[0x41, 0x42], 1, 2, 3, 3),
        (&[7, 8, 9], 2, 2, 3, 3),
        (&[1, 4, 0x10], 1, 3, 5, 5),
        (&THREE_BLOCKS, 1, 4, 6, 14),
        (&[0xAA], 1, 1, 4, 4),
        (&[0; 255], 1, 255, 255, 255),
    ] {
        let fti = Fti::new(object.len() as u64, e, b, max_n)?;
        let right = is_certified(rt.alloc(), object, &fti, count);
        assert!(rt; right, "{} bytes, {count} datagrams", object.len());
    }
    Ok(())
}

// Whether the text of the object's certificate is this.
fn is_certified_by(alloc: Global, object: &[u8], fti: &Fti, text: &[u8]) -> bool {
    match certify(alloc, object, fti) {
        Ok(certificate) => has_text(alloc, &certificate, text),
        Err(_) => false,
    }
}

#[test]
fn certificates(rt: HostRuntime) -> Result<(), Fail> {
    let mut greatest = [0; 14 + 255];
    greatest[..14].copy_from_slice(&[0x52, 0x53, 0x43, 0x31, 0, 0, 0, 0, 0, 255, 0, 1, 255, 255]);
    for (object, e, b, max_n, text) in [
        (
            &[1u8, 2][..],
            1,
            2,
            3,
            &[0x52, 0x53, 0x43, 0x31, 0, 0, 0, 0, 0, 2, 0, 1, 2, 3, 0, 1][..],
        ),
        (
            &[7, 8, 9],
            2,
            2,
            3,
            &[
                0x52, 0x53, 0x43, 0x31, 0, 0, 0, 0, 0, 3, 0, 2, 2, 3, 0xF6, 0xF1, 0xFB, 0xF3,
            ],
        ),
        (
            &THREE_BLOCKS,
            1,
            4,
            6,
            &[
                0x52, 0x53, 0x43, 0x31, 0, 0, 0, 0, 0, 0x0A, 0, 1, 4, 6, 0, 0, 0, 1, 0, 1, 0, 0, 0,
                1,
            ],
        ),
        (&[0; 255], 1, 255, 255, &greatest),
    ] {
        let fti = Fti::new(object.len() as u64, e, b, max_n)?;
        let right = is_certified_by(rt.alloc(), object, &fti, text);
        assert!(rt; right, "{} bytes", object.len());
    }
    Ok(())
}

// Blocks of 180 and of 179 source symbols, whose coefficients are made by way of all values and at
// once: the values of the polynomials x^179 and x^3.
#[test]
fn both_ways_to_certify(rt: HostRuntime) -> Result<(), Fail> {
    let mut object = [0u8; 359];
    for i in 0..180usize {
        object[i] = point((i * 179 % 255) as u8).0;
    }
    for i in 0..179usize {
        object[180 + i] = point((i * 3 % 255) as u8).0;
    }
    let mut text = [0; 14 + 359];
    text[..14].copy_from_slice(&[0x52, 0x53, 0x43, 0x31, 0, 0, 0, 0, 1, 0x67, 0, 1, 180, 225]);
    text[14 + 179] = 1;
    text[14 + 180 + 3] = 1;
    let fti = Fti::new(359, 1, 180, 225)?;
    assert!(rt; is_certified_by(rt.alloc(), &object, &fti, &text));
    Ok(())
}

// A coefficient of the polynomial that has these values at the first points, by the matrix that
// interpolates.
fn coefficient(interpolator: &Matrix<Gf>, values: &[u8], i: usize) -> u8
    requires rows { interpolator.now.rows ≡ length values.now }
    requires column { i < interpolator.now.cols }
{
    let mut sum = 0;
    for j in 0..values.len() {
        sum ^= Gf(values[j]).mul(interpolator.get(j, i)).0;
    }
    sum
}

// The text of the certificate of one block of these symbols of one byte, by that matrix.
fn interpolated(alloc: Global, sources: &[u8]) -> Result<Vec<u8>, AllocError>
    requires some { 0 < length sources.now }
    requires few { length sources.now ≤ 255 }
{
    let k = sources.len();
    let interpolator = interpolator(alloc, k)?;
    let count = k as u8;
    let head = [
        0x52, 0x53, 0x43, 0x31, 0, 0, 0, 0, 0, count, 0, 1, count, 255,
    ];
    let mut text = head.to_vec(alloc)?;
    for i in 0..k {
        text.push(coefficient(&interpolator, sources, i))?;
    }
    Ok(text)
}

// Blocks of random symbols, from the first size on that is certified by way of all values: the
// matrix of smaller ones makes the same coefficients.
#[test]
fn either_way_the_same_coefficients(rt: HostRuntime) -> Result<(), Fail> {
    let mut random = Pcg32::new(180, 5510);
    for k in [180u8, 200, 223, 255] {
        let mut sources = [0; 255];
        random.fill_bytes(&mut sources);
        let object = &sources[..usize::from(k)];
        let text = interpolated(rt.alloc(), object)?;
        let fti = Fti::new(u64::from(k), 1, k, 255)?;
        let right = is_certified_by(rt.alloc(), object, &fti, text.as_slice());
        assert!(rt; right, "{k} source symbols");
    }
    Ok(())
}

// Whether nothing is sent, for this reason.
fn is_not_sent(alloc: Global, object: &[u8], fti: &Fti, every: u32, wanted: SendFault) -> bool
    requires { 1 ≤ every }
{
    let mut sink = Sink::new(alloc);
    let sent = encode(alloc, object, 1, 1, fti, every, Order::Blocks, &mut sink);
    sent == Err(wanted) && sink.bytes().is_empty()
}

// Why an object isn't certified, if it isn't.
fn certifying_fault(alloc: Global, object: &[u8], fti: &Fti) -> Option<CertifyFault> {
    match certify(alloc, object, fti) {
        Ok(_) => None,
        Err(fault) => Some(fault),
    }
}

#[test]
fn nothing_sent(rt: HostRuntime) -> Result<(), Fail> {
    let longer = Fti::new(3, 1, 2, 3)?;
    assert!(rt; is_not_sent(rt.alloc(), &[1, 2], &longer, 1, SendFault::Length));
    let too_long = Fti::new(2, 65476, 2, 3)?;
    let fault = SendFault::SymbolTooLong;
    assert!(rt; is_not_sent(rt.alloc(), &[1, 2], &too_long, 2, fault));
    let fault = certifying_fault(rt.alloc(), &[1, 2], &longer);
    assert!(rt; fault == Some(CertifyFault::Length));
    Ok(())
}
