//! Every cut, great claims, each byte of a datagram changed, and readers and writers that fail at
//! any place.
ghost use Rattle.std.specs.Prelude.{◌<◌};

use crate::ONE;
use crate::check_tests::{
    CERTIFICATE, CERTIFICATES, FIRST_ALONE, FRAME, NAMED_CERTIFICATE, OBJECT, SESSION, Told,
    certificate_of, told_of_whole,
};
use crate::decoding_tests::{Said, decodes_to, says};
use crate::session_tests::{breaking_between, is_session};
use alc::{PacketFault, read};
use cert::Reason;
use certificate::{CertFault, Certificate};
use coder::{Answer, DecodeFault, FeedFault, Receiver, SendFault, decode, encode};
use partition::{Fti, Order};
use session::{Device, FrameFault, Pieces, Read, Session, Sink, Write};
use std::alloc::{AllocError, Global};
use std::io;
use std::test::Fail;

// How many datagrams stand in the session's first bytes, by their number, or why they are no
// session.
fn of_beginning(size: usize) -> Result<usize, FrameFault> {
    match size % FRAME {
        0 => Ok(size / FRAME),
        1 => Err(FrameFault::CutLength),
        _ => Err(FrameFault::CutDatagram),
    }
}

#[test]
fn every_beginning_of_a_session(rt: HostRuntime) {
    let alloc = rt.alloc();
    for size in 0..=105usize {
        let beginning = &SESSION[..size];
        let right = is_session(alloc, &mut Pieces::new(beginning, 1), of_beginning(size));
        assert!(rt; right, "{size} bytes");
        let mut reader = breaking_between(beginning, &[]);
        assert!(rt;
            is_session(alloc, &mut reader, Err(FrameFault::Io)),
            "broken at {size}"
        );
    }
}

// Why a datagram is no packet, if it isn't.
fn reading_fault(datagram: &[u8]) -> Option<PacketFault> {
    match read(datagram) {
        Ok(_) => None,
        Err(fault) => Some(fault),
    }
}

// Each beginning of a datagram is too short for a header, for the length that the header tells, and
// for its symbol.
#[test]
fn every_beginning_of_a_datagram(rt: HostRuntime) {
    for size in 0..=33usize {
        let wanted = match size {
            0..=3 => Some(PacketFault::TooShort),
            4..=27 => Some(PacketFault::HeaderLength),
            28..=32 => Some(PacketFault::PayloadLength),
            _ => None,
        };
        let right = reading_fault(&SESSION[2..2 + size]) == wanted;
        assert!(rt; right, "{size} bytes");
    }
    // The second datagram carries no FTI.
    for size in 0..=21usize {
        let wanted = match size {
            0..=3 => Some(PacketFault::TooShort),
            4..=15 => Some(PacketFault::HeaderLength),
            16..=20 => Some(PacketFault::PayloadLength),
            _ => None,
        };
        let right = reading_fault(&FIRST_ALONE[FRAME + 2..FRAME + 2 + size]) == wanted;
        assert!(rt; right, "{size} bytes without FTI");
    }
}

/// Why what is read is no certificate, if it isn't.
pub(crate) fn certificate_fault<R: Read>(alloc: Global, reader: &mut R) -> Option<CertFault> {
    match Certificate::read(alloc, reader) {
        Ok(_) => None,
        Err(fault) => Some(fault),
    }
}

// Why the first bytes of a certificate's file are none, by their number, if they aren't all.
fn of_certificate_beginning(size: usize, whole: usize) -> Option<CertFault> {
    if size < 4 {
        Some(CertFault::Magic)
    } else if size < whole {
        Some(CertFault::Size)
    } else {
        None
    }
}

// Whether this is told of a file in pieces of any size, and a failure where its reader fails behind
// it.
fn is_told_in_pieces(alloc: Global, file: &[u8], wanted: Option<CertFault>) -> bool {
    for most in [1, 5, 100usize] {
        if certificate_fault(alloc, &mut Pieces::new(file, most)) != wanted {
            return false;
        }
    }
    certificate_fault(alloc, &mut breaking_between(file, &[])) == Some(CertFault::Io)
}

// A certificate is told by its magic number. One with a name has twenty bytes more.
#[test]
fn every_beginning_of_a_certificate(rt: HostRuntime) {
    for text in CERTIFICATES {
        for size in 0..=text.len() {
            let wanted = of_certificate_beginning(size, text.len());
            let right = is_told_in_pieces(rt.alloc(), text.split_at(size).0, wanted);
            assert!(rt; right, "{size} of {} bytes", text.len());
        }
    }
}

// Of what is claimed alone no memory is asked for: a certificate of 2^40 bytes, without a name and
// with one.
#[test]
fn a_great_certificate_claimed(rt: HostRuntime) {
    let head = [
        0x52, 0x53, 0x43, 0x31, 1, 0, 0, 0, 0, 0, 0xFF, 0xC3, 255, 255,
    ];
    let mut named = [0; 34];
    named[..24].copy_from_slice(&NAMED_CERTIFICATE[..24]);
    named[24..].copy_from_slice(&head[4..]);
    for text in [&head[..], &named] {
        let fault = certificate_fault(rt.alloc(), &mut Pieces::new(text, 5));
        assert!(rt; fault == Some(CertFault::Size));
    }
}

// The datagram of a symbol that has the same byte so many times.
fn datagram_of(
    alloc: Global,
    fti: [u8; 10],
    payload_id: [u8; 4],
    byte: u8,
    size: u16,
) -> Result<Vec<u8>, AllocError> {
    let header = [
        0x10, 0xA0, 7, 5, 0, 0, 0, 0, 0, 0, 0, 1, 0, 0, 0, 1, 0x40, 3,
    ];
    let mut datagram = header.to_vec(alloc)?;
    datagram.extend_from_slice(&fti)?;
    datagram.extend_from_slice(&payload_id)?;
    for _ in 0..size {
        datagram.push(byte)?;
    }
    Ok(datagram)
}

// Whether a decoder says this of a datagram, and so does a receiver that accepts it.
fn is_said_of(alloc: Global, datagram: &[u8], wanted: Said<'_>) -> Result<bool, AllocError> {
    let decoded = decodes_to(alloc, &[datagram], wanted)?;
    let mut receiver = Receiver::new(ONE);
    let accepted = receiver.feed(alloc, datagram).is_ok();
    match receiver.take(alloc) {
        Ok(answer) => Ok(decoded && accepted && says(&answer, wanted)),
        Err(error) => Err(error),
    }
}

// FTI of 2^40 bytes, in 65,855 blocks of 255 symbols or 254, and of 2^24 bytes in as many blocks.
const GREAT: [u8; 10] = [1, 0, 0, 0, 0, 0, 0xFF, 0xC3, 255, 255];

const MANY: [u8; 10] = [0, 0, 1, 0, 0, 0, 0, 1, 1, 1];

// No memory is asked for what a packet claims alone: of the first block and of the last the first
// lacks what it needs.
#[test]
fn far_blocks(rt: HostRuntime) -> Result<(), Fail> {
    for (fti, payload_id, byte, size, have, need) in [
        (GREAT, [0, 0, 0, 0], 7, 65475, 1, 255),
        (GREAT, [1, 1, 0x3E, 0], 7, 65475, 0, 255),
        (GREAT, [1, 1, 0x3E, 0], 0, 65475, 0, 255),
        (MANY, [255, 255, 255, 0], 0, 1, 0, 1),
    ] {
        let datagram = datagram_of(rt.alloc(), fti, payload_id, byte, size)?;
        let wanted = Said::Missing(0, have, need);
        let right = is_said_of(rt.alloc(), datagram.as_slice(), wanted)?;
        assert!(rt; right, "{have} of {need}, symbols of {byte}");
    }
    Ok(())
}

// Nor for a block behind the last.
#[test]
fn a_block_too_far(rt: HostRuntime) -> Result<(), Fail> {
    let datagram = datagram_of(rt.alloc(), GREAT, [1, 1, 0x3F, 0], 7, 65475)?;
    let wanted = Said::Fault(DecodeFault::Range(0));
    assert!(rt; datagram.len() == 65507);
    assert!(rt; decodes_to(rt.alloc(), &[datagram.as_slice()], wanted)?);
    Ok(())
}

// Why datagrams aren't decoded, if they aren't.
fn decoding_fault(alloc: Global, datagrams: &[&[u8]]) -> Result<Option<DecodeFault>, AllocError> {
    match decode(alloc, datagrams, ONE) {
        Ok(Answer::Fault(fault)) => Ok(Some(fault)),
        Ok(_) => Ok(None),
        Err(error) => Err(error),
    }
}

// Why a receiver refuses a datagram, if it does.
fn feeding_fault(alloc: Global, datagram: &[u8]) -> Result<Option<DecodeFault>, AllocError> {
    let mut receiver = Receiver::new(ONE);
    match receiver.feed(alloc, datagram) {
        Err(FeedFault::Fault(fault)) => Ok(Some(fault)),
        Err(FeedFault::NoMemory) => Err(AllocError),
        _ => Ok(None),
    }
}

// Whether this is said of a datagram by a decoder and by a check: its fault, or, of a packet, that
// its place is out of range or no fault, and no yes.
fn is_reading_said(
    reading: Option<PacketFault>,
    decoding: Option<DecodeFault>,
    checked: Told,
) -> bool {
    match (reading, checked) {
        (Some(fault), Told::No(reason)) => {
            decoding == Some(DecodeFault::Packet(0, fault)) && reason == Reason::Packet(0, fault)
        }
        (None, Told::No(_)) => decoding.is_none() || decoding == Some(DecodeFault::Range(0)),
        _ => false,
    }
}

// Whether a decoder, a receiver and a check say the same of a session of one datagram.
fn is_said_by_all(alloc: Global, frame: &[u8; FRAME], certificate: &Certificate) -> bool {
    let datagram = &frame[2..];
    let checked = told_of_whole(alloc, frame, &OBJECT, certificate, ONE);
    match (
        decoding_fault(alloc, &[datagram]),
        feeding_fault(alloc, datagram),
    ) {
        (Ok(decoding), Ok(feeding)) => {
            decoding == feeding && is_reading_said(reading_fault(datagram), decoding, checked)
        }
        _ => false,
    }
}

fn first_frame() -> [u8; FRAME] {
    let mut frame = [0; FRAME];
    frame.copy_from_slice(&SESSION[..FRAME]);
    frame
}

// Each byte of a datagram as each byte.
#[test]
fn every_byte_as_every_byte(rt: HostRuntime) -> Result<(), Fail> {
    let certificate = certificate_of(rt.alloc(), &CERTIFICATE)?;
    for at in 2..FRAME {
        for byte in 0..=255u8 {
            let mut frame = first_frame();
            frame[at] = byte;
            let right = is_said_by_all(rt.alloc(), &frame, &certificate);
            assert!(rt; right, "byte {at} is {byte}");
        }
    }
    Ok(())
}

// Why a receiver that has taken the session's first datagram refuses another, if it does.
fn feeding_fault_behind(alloc: Global, datagram: &[u8]) -> Result<Option<DecodeFault>, AllocError> {
    let mut receiver = Receiver::new(ONE);
    let Ok(_) = receiver.feed(alloc, &SESSION[2..FRAME]) else {
        return Err(AllocError);
    };
    match receiver.feed(alloc, datagram) {
        Err(FeedFault::Fault(fault)) => Ok(Some(fault)),
        Err(FeedFault::NoMemory) => Err(AllocError),
        _ => Ok(None),
    }
}

// Whether a decoder says this of a datagram in the second place, if it is no packet.
fn is_reading_said_behind(reading: Option<PacketFault>, decoding: Option<DecodeFault>) -> bool {
    match reading {
        Some(fault) => decoding == Some(DecodeFault::Packet(1, fault)),
        None => true,
    }
}

// Whether a decoder and a receiver say the same of a datagram behind a carrier.
fn is_said_behind(alloc: Global, datagram: &[u8]) -> bool {
    let decoding = decoding_fault(alloc, &[&SESSION[2..FRAME], datagram]);
    match (decoding, feeding_fault_behind(alloc, datagram)) {
        (Ok(decoding), Ok(feeding)) => {
            decoding == feeding && is_reading_said_behind(reading_fault(datagram), decoding)
        }
        _ => false,
    }
}

fn second_datagram() -> [u8; 21] {
    let mut datagram = [0; 21];
    datagram.copy_from_slice(&FIRST_ALONE[37..58]);
    datagram
}

// Each byte of a datagram without FTI as each byte, behind a carrier.
#[test]
fn every_byte_without_fti(rt: HostRuntime) {
    for at in 0..21usize {
        for byte in 0..=255u8 {
            let mut datagram = second_datagram();
            datagram[at] = byte;
            assert!(rt;
                is_said_behind(rt.alloc(), &datagram),
                "byte {at} is {byte}"
            );
        }
    }
}

// What sending the object to a writer says.
fn send<W: Write>(alloc: Global, fti: &Fti, writer: &mut W) -> Result<u64, SendFault> {
    encode(alloc, &OBJECT, 1, 1, fti, 1, Order::Blocks, writer)
}

// Whether sending the object ends so where the writer takes only so many bytes, seven at a time or
// one, and has these.
fn is_sent_up_to(alloc: Global, fti: &Fti, most: usize, room: usize) -> bool
    requires { 0 < most }
{
    let mut sink = Sink::limited(alloc, most, room);
    let sent = send(alloc, fti, &mut sink);
    let wanted = if room < 105 {
        Err(SendFault::Io)
    } else {
        Ok(3)
    };
    sent == wanted && sink.bytes() == SESSION.split_at(room.min(105)).0
}

// Whether writing the session ends so where the writer takes only so many bytes, one at a time, and
// has these.
fn is_written_up_to(alloc: Global, session: &Session, room: usize) -> bool {
    let mut sink = Sink::limited(alloc, 1, room);
    let written = session.write(&mut sink);
    let wanted = if room < 105 {
        Err(FrameFault::Io)
    } else {
        Ok(())
    };
    written == wanted && sink.bytes() == SESSION.split_at(room.min(105)).0
}

// A writer that fails behind any number of bytes has just these.
#[test]
fn a_writer_that_fails_anywhere(rt: HostRuntime) -> Result<(), Fail> {
    let alloc = rt.alloc();
    let fti = Fti::new(2, 1, 2, 3)?;
    let session = Session::read(alloc, &mut Pieces::new(&SESSION, 50))?;
    for room in 0..=105usize {
        assert!(rt; is_sent_up_to(alloc, &fti, 1, room), "sent, room {room}");
        assert!(rt;
            is_sent_up_to(alloc, &fti, 7, room),
            "sent by sevens, room {room}"
        );
        assert!(rt;
            is_written_up_to(alloc, &session, room),
            "written, room {room}"
        );
    }
    Ok(())
}

// Whether writing a certificate ends so, and the writer has so many bytes of its text.
fn is_certificate_up_to(
    alloc: Global,
    certificate: &Certificate,
    text: &[u8],
    room: usize,
) -> bool {
    let mut sink = Sink::limited(alloc, 1, room);
    let written = certificate.write(&mut sink);
    let wanted = if room < text.len() {
        Err(CertFault::Io)
    } else {
        Ok(())
    };
    written == wanted && sink.bytes() == text.split_at(room.min(text.len())).0
}

// So has it of a certificate, in either text.
#[test]
fn a_writer_that_fails_anywhere_in_a_certificate(rt: HostRuntime) -> Result<(), Fail> {
    let alloc = rt.alloc();
    for text in CERTIFICATES {
        let certificate = certificate_of(alloc, text)?;
        for room in 0..=text.len() {
            let right = is_certificate_up_to(alloc, &certificate, text, room);
            assert!(rt; right, "room {room}");
        }
    }
    Ok(())
}

// Takes one byte at a time, but behind so many none, once.
#[derive(Drop)]
struct Stuck {
    taken: Vec<u8>,
    before: usize,
}

impl io::Write for Stuck {
    fn write(&mut self, bytes: &[u8]) -> io::Result<usize> {
        if self.taken.len() == self.before {
            self.before = usize::MAX;
            return Ok(0);
        }
        let n = bytes.len().min(1);
        self.taken.extend_from_slice(&bytes[..n])?;
        Ok(n)
    }

    fn flush(&mut self) -> io::Result<()> {
        Ok(())
    }
}

fn stuck_behind(alloc: Global, before: usize) -> Device<Stuck> {
    Device::new(Stuck {
        taken: Vec::new(alloc),
        before,
    })
}

// Whether just these bytes were taken, and no more are.
fn has_taken(mut writer: Device<Stuck>, bytes: &[u8]) -> bool {
    writer.write(&[7]).is_err() && writer.into_inner().taken.as_slice() == bytes
}

// Whether sending the object fails behind so many bytes.
fn sending_stops(alloc: Global, fti: &Fti, before: usize) -> bool {
    let mut writer = stuck_behind(alloc, before);
    let sent = send(alloc, fti, &mut writer);
    sent == Err(SendFault::Io) && has_taken(writer, SESSION.split_at(before.min(105)).0)
}

// Whether writing the session fails behind so many bytes.
fn writing_stops(alloc: Global, session: &Session, before: usize) -> bool {
    let mut writer = stuck_behind(alloc, before);
    let written = session.write(&mut writer);
    written == Err(FrameFault::Io) && has_taken(writer, SESSION.split_at(before.min(105)).0)
}

// A write that takes nothing is a failure, and no byte comes behind it.
#[test]
fn a_write_that_takes_nothing(rt: HostRuntime) -> Result<(), Fail> {
    let alloc = rt.alloc();
    let fti = Fti::new(2, 1, 2, 3)?;
    let session = Session::read(alloc, &mut Pieces::new(&SESSION, 50))?;
    for before in 0..=15usize {
        assert!(rt; sending_stops(alloc, &fti, before), "sent, {before} bytes");
        assert!(rt;
            writing_stops(alloc, &session, before),
            "written, {before} bytes"
        );
    }
    Ok(())
}

// Whether writing a certificate's text fails behind so many bytes.
fn certificate_stops(alloc: Global, certificate: &Certificate, text: &[u8], before: usize) -> bool {
    let mut writer = stuck_behind(alloc, before);
    let written = certificate.write(&mut writer);
    let beginning = text.split_at(before.min(text.len())).0;
    written == Err(CertFault::Io) && has_taken(writer, beginning)
}

#[test]
fn a_certificates_write_that_takes_nothing(rt: HostRuntime) -> Result<(), Fail> {
    let alloc = rt.alloc();
    for text in CERTIFICATES {
        let certificate = certificate_of(alloc, text)?;
        for before in 0..text.len() {
            let right = certificate_stops(alloc, &certificate, text, before);
            assert!(rt; right, "{before} bytes");
        }
    }
    Ok(())
}
