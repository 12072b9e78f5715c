//! Sessions in files beside sessions that are held: the answer and the object are those of
//! `decode`.
ghost use Rattle.std.specs.Prelude.{◌≤◌};

use crate::ONE;
use crate::receiver_tests::{ORDERS, disturbed, is_same, object_of, sent};
use coder::{Answer, DecodeFault, FileFault, decode, encode, index_file};
use lists::are_bytes;
use partition::{Fti, Order};
use rand_pcg::Pcg32;
use session::{FrameFault, MOST_BYTES, Sink, write_one};
use std::alloc::Global;
use std::cell::Cell;
use std::test::Fail;
use streams::{Failed, ReadAt, copy_at};

// A file of bytes in memory, of which some come at a time.
#[derive(Drop)]
pub(crate) struct Bytes<'a>(pub(crate) &'a [u8]);

impl ReadAt for Bytes<'_> {
    ghost use Rattle.std.specs.Prelude.{Some, true};

    ghost content = { λ f. Some f.0.now };

    ghost reliable = { λ _. true };

    fn read_at(&self, offset: u64, buf: &mut [u8]) -> Result<usize, Failed> {
        are_bytes(self.0);
        Ok(copy_at(self.0, offset, 100, buf))
    }
}

/// A file that fails, or has other bytes, from some call on.
#[derive(Drop)]
pub(crate) struct Changing<'a> {
    pub(crate) bytes: &'a [u8],
    pub(crate) others: &'a [u8],
    pub(crate) fails: bool,
    pub(crate) calls: Cell<usize>,
}

impl ReadAt for Changing<'_> {
    ghost use Rattle.std.specs.Prelude.{None, false};

    ghost content = { λ _. None };

    ghost reliable = { λ _. false };

    fn read_at(&self, offset: u64, buf: &mut [u8]) -> Result<usize, Failed> {
        let calls = self.calls.get();
        if calls > 0 {
            self.calls.set(calls - 1);
            return Ok(copy_at(self.bytes, offset, 100, buf));
        }
        if self.fails {
            return Err(Failed);
        }
        Ok(copy_at(self.others, offset, 100, buf))
    }
}

/// An object of two blocks.
pub(crate) const FOUR_BYTES: [u8; 4] = [1, 2, 3, 4];

/// The object's session: six frames of carriers.
pub(crate) fn two_blocks(alloc: Global) -> Result<Vec<u8>, Fail> {
    let fti = Fti::new(4, 1, 2, 3)?;
    let mut sink = Sink::new(alloc);
    encode(alloc, &FOUR_BYTES, 1, 1, &fti, 1, Order::Blocks, &mut sink)?;
    Ok(sink.into_bytes())
}

/// Where one byte of it makes a datagram another one: the byte's place, and the byte before and
/// after.
pub(crate) const CHANGES: [(usize, u8, u8); 9] = [
    // No packet; and the packet of another identity.
    (2, 0x10, 0xFF),
    (13, 1, 9),
    // Another block, another ESI, and one that no block has.
    (32, 0, 1),
    (33, 0, 1),
    (33, 0, 200),
    // Another FTI; none any more, in an extension that says nothing; and one where none was.
    (25, 4, 3),
    (18, 0x40, 0),
    (53, 0, 0x40),
    // A shorter header, and so a longer symbol.
    (4, 7, 4),
];

/// Bytes with this one at a place.
pub(crate) fn with_byte(
    alloc: Global,
    bytes: &[u8],
    place: usize,
    byte: u8,
) -> Result<Vec<u8>, Fail> {
    let mut other = bytes.to_vec(alloc)?;
    if let Some(there) = other.as_mut_slice().get_mut(place) {
        *there = byte;
    }
    Ok(other)
}

// What a file gives, with the object that is written from it once its symbols were looked at.
fn from_file<F: ReadAt>(alloc: Global, file: &F) -> Result<Answer, FileFault> {
    let symbols = match index_file(alloc, file, ONE)? {
        Ok(symbols) => symbols,
        Err(answer) => return Ok(answer),
    };
    if let Some(answer) = symbols.refutation(alloc, file)? {
        return Ok(answer);
    }
    let mut sink = Sink::new(alloc);
    match symbols.write_checked(alloc, file, &mut sink) {
        Ok(None) => Ok(Answer::Object(sink.into_bytes())),
        Ok(Some(_)) | Err(_) => Err(FileFault::Changed),
    }
}

// What a file gives, with the object that is written from it while its symbols are looked at.
fn from_file_at_once<F: ReadAt>(alloc: Global, file: &F) -> Result<Answer, FileFault> {
    let symbols = match index_file(alloc, file, ONE)? {
        Ok(symbols) => symbols,
        Err(answer) => return Ok(answer),
    };
    let mut sink = Sink::new(alloc);
    match symbols.write_checked(alloc, file, &mut sink) {
        Ok(None) => Ok(Answer::Object(sink.into_bytes())),
        Ok(Some(answer)) => Ok(answer),
        Err(_) => Err(FileFault::Changed),
    }
}

// The datagrams as a session file.
pub(crate) fn framed(alloc: Global, datagrams: &[Vec<u8>]) -> Result<Vec<u8>, Fail> {
    let mut sink = Sink::new(alloc);
    for datagram in datagrams {
        if datagram.len() <= MOST_BYTES {
            write_one(&mut sink, datagram.as_slice())?;
        }
    }
    Ok(sink.into_bytes())
}

fn is_same_answer(a: &Answer, b: &Answer) -> bool {
    match (a, b) {
        (Answer::Fault(a), Answer::Fault(b)) => a == b,
        _ => is_same(a, b),
    }
}

// Whether a file of the datagrams gives what they give.
fn same_from_file(alloc: Global, datagrams: &[Vec<u8>]) -> Result<bool, Fail> {
    let mut slices = Vec::new(alloc);
    for datagram in datagrams {
        slices.push(datagram.as_slice())?;
    }
    let held = decode(alloc, slices.as_slice(), ONE)?;
    let bytes = framed(alloc, datagrams)?;
    let file = Bytes(bytes.as_slice());
    match (from_file(alloc, &file), from_file_at_once(alloc, &file)) {
        (Ok(answer), Ok(at_once)) => {
            Ok(is_same_answer(&answer, &held) && is_same_answer(&at_once, &held))
        }
        _ => Ok(false),
    }
}

// Whether files say what held sessions do, in all orders.
fn same_in_all(alloc: Global, length: usize, fti: &Fti, every: u32) -> Result<bool, Fail>
    requires { 1 ≤ every }
{
    let mut random = Pcg32::new(length as u64, 5510);
    let object = object_of(alloc, &mut random, length)?;
    let session = sent(alloc, object.as_slice(), fti, every)?;
    for _ in 0..ORDERS {
        let datagrams = disturbed(alloc, &mut random, &session)?;
        if !same_from_file(alloc, datagrams.as_slice())? {
            return Ok(false);
        }
    }
    Ok(true)
}

// Datagrams are lost, come twice and in any order, and some come with another byte, too.
#[test]
fn of_small_objects(rt: HostRuntime) -> Result<(), Fail> {
    for (length, e, b, max_n, every) in [
        (2, 1, 2, 3, 1),
        (29, 8, 8, 12, 1),
        (10, 1, 4, 6, 1),
        (10, 1, 4, 6, 4),
        (29, 8, 8, 12, 3),
    ] {
        let fti = Fti::new(length, e, b, max_n)?;
        let same = same_in_all(rt.alloc(), length as usize, &fti, every)?;
        assert!(rt; same, "{length} bytes, every {every}");
    }
    Ok(())
}

#[test]
fn of_a_bulletin(rt: HostRuntime) -> Result<(), Fail> {
    let fti = Fti::new(20000, 250, 32, 40)?;
    assert!(rt; same_in_all(rt.alloc(), 20000, &fti, 1)?);
    Ok(())
}

// Whether a file of these bytes has this fault.
fn has_fault(alloc: Global, bytes: &[u8], fault: FrameFault) -> bool {
    let file = Bytes(bytes);
    match from_file(alloc, &file) {
        Err(FileFault::Frame(told)) => told == fault,
        _ => false,
    }
}

// Whether a file of these bytes has a fault at place 0.
fn is_no_packet(alloc: Global, bytes: &[u8]) -> bool {
    let file = Bytes(bytes);
    match from_file(alloc, &file) {
        Ok(Answer::Fault(DecodeFault::Packet(place, _))) => place == 0,
        _ => false,
    }
}

fn is_empty(alloc: Global, bytes: &[u8]) -> bool {
    let file = Bytes(bytes);
    match from_file(alloc, &file) {
        Ok(Answer::Empty) => true,
        _ => false,
    }
}

// A fault of the frames is told before one at a place, wherever it stands.
#[test]
fn frames_first(rt: HostRuntime) -> Result<(), Fail> {
    let alloc = rt.alloc();
    assert!(rt; is_empty(alloc, &[]));
    assert!(rt; is_no_packet(alloc, &[0, 1, 7, 0, 0]));
    assert!(rt; has_fault(alloc, &[0, 1, 7, 0], FrameFault::CutLength));
    assert!(rt; has_fault(alloc, &[0, 1, 7, 0, 2, 7], FrameFault::CutDatagram));
    assert!(rt; has_fault(alloc, &[0, 1, 7, 0xFF, 0xE4], FrameFault::TooLong));
    Ok(())
}

// What a file gives whose bytes are others once its frames were gone over.
fn told_of_changing(
    alloc: Global,
    bytes: &[u8],
    others: &[u8],
) -> Result<Option<Answer>, FileFault> {
    let file = Changing {
        bytes,
        others,
        fails: false,
        calls: Cell::new(usize::MAX),
    };
    let symbols = match index_file(alloc, &file, ONE)? {
        Ok(symbols) => symbols,
        Err(answer) => return Ok(Some(answer)),
    };
    file.calls.set(0);
    symbols.refutation(alloc, &file)
}

// A session that is shorter, or another one, once its frames were gone over.
#[test]
fn of_changed_sessions(rt: HostRuntime) -> Result<(), Fail> {
    let alloc = rt.alloc();
    let session = two_blocks(alloc)?;
    let cut = told_of_changing(alloc, session.as_slice(), &[]);
    assert!(rt; matches!(cut, Err(FileFault::Changed)));
    for (place, before, after) in CHANGES {
        let first = with_byte(alloc, session.as_slice(), place, before)?;
        let second = with_byte(alloc, session.as_slice(), place, after)?;
        let same = told_of_changing(alloc, first.as_slice(), first.as_slice());
        assert!(rt; matches!(same, Ok(None)), "byte {place}");
        let told = told_of_changing(alloc, first.as_slice(), second.as_slice());
        assert!(rt; matches!(told, Err(FileFault::Changed)), "byte {place}");
    }
    Ok(())
}
