//! Verdicts on sessions that a program makes.
use crate::command::{answer, check};
use crate::sessions::{
    PAIR, PAIR_CERTIFICATE, PAIR_SESSION, Packet, certificate_of, session_of_packets,
};
use std::alloc::Global;
use std::test::Fail;

// The certificate as `convert` writes it for TSI 1 and TOI 1, or nothing where it is none.
fn converted(alloc: Global, certificate: &[u8]) -> Result<Vec<u8>, Fail> {
    let words = ["alcrs", "convert", "c", "out", "--tsi", "1", "--toi", "1"];
    let told = answer(alloc, &words, &[("c", certificate)])?;
    Ok(told.host.get("out").unwrap_or(&[]).to_vec(alloc)?)
}

// `check` of these files ends with this status, prints this, and creates no file.
fn checks(
    alloc: Global,
    session: &[u8],
    object: &[u8],
    certificate: &[u8],
    status: u8,
    text: &str,
) -> Result<(), Fail> {
    let told = check(alloc, session, object, certificate)?;
    if told.status == status && told.text.as_str() == text && told.host.files().len() == 3 {
        return Ok(());
    }
    Err(Fail::new(told.text))
}

// The session file of a pair, without its bytes from `size` on.
#[test]
fn every_beginning_of_a_session(rt: HostRuntime) -> Result<(), Fail> {
    let alloc = rt.alloc();
    let named = converted(alloc, &PAIR_CERTIFICATE)?;
    for size in 0..105usize {
        let beginning = PAIR_SESSION.get(..size).unwrap_or(&[]);
        let (status, line) = match (size / 35, size % 35) {
            (0, 0) => (1, "no N3 Empty\n"),
            (1, 0) => (1, "no N9 Thin block 0 have 1 need 2\n"),
            (_, 0) => (
                0,
                "yes\nblock 0 need 2 have 2\ncarriers 2\nmargin 0\nkill 0\nburst 0\n",
            ),
            (_, 1) => (1, "fault S1 CutLength\n"),
            _ => (1, "fault S2 CutDatagram\n"),
        };
        checks(alloc, beginning, &PAIR, &PAIR_CERTIFICATE, status, line)?;
        checks(alloc, beginning, &PAIR, named.as_slice(), status, line)?;
    }
    Ok(())
}

// A block of 255 source symbols, all of them zero.
#[test]
fn yes_to_the_greatest_block(rt: HostRuntime) -> Result<(), Fail> {
    let alloc = rt.alloc();
    let fti = [0, 0, 0, 0, 0, 255, 0, 1, 255, 255];
    let mut packets = Vec::new(alloc);
    for esi in 0..255u8 {
        packets.push(Packet::Carrier((0, esi, &[0])))?;
    }
    let session = session_of_packets(alloc, &fti, packets.as_slice())?;
    let certificate = certificate_of(alloc, &fti, &[0; 255])?;
    let named = converted(alloc, certificate.as_slice())?;
    let text = "yes\nblock 0 need 255 have 255\ncarriers 255\nmargin 0\nkill 0\nburst 0\n";
    checks(
        alloc,
        session.as_slice(),
        &[0; 255],
        certificate.as_slice(),
        0,
        text,
    )?;
    checks(
        alloc,
        session.as_slice(),
        &[0; 255],
        named.as_slice(),
        0,
        text,
    )
}
