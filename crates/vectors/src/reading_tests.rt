//! Objects that are read and sent block by block, or by groups of blocks.
ghost use Rattle.std.specs.Prelude.{◌<◌, ◌≤◌};

use crate::ONE;
use crate::converting_tests::{LENGTH, front, fti, is_at_end, object_and_more};
use coder::{
    CertifyFromFault, ObjectFault, SendFromFault, certify_from, encode, encode_from,
    encode_rounds_from,
};
use partition::{Fti, Order};
use rand_core::Rng;
use rand_pcg::Pcg32;
use session::{Pieces, Sink, write_all};
use std::alloc::Global;
use std::test::Fail;

// Whether an object that comes in pieces gives as many datagrams as one that is there, and the very
// same ones.
fn is_sent_alike(
    alloc: Global,
    object: &[u8],
    tsi: u32,
    fti: &Fti,
    every: u32,
    most: usize,
    count: u64,
) -> bool
    requires every { 1 ≤ every }
    requires most { 0 < most }
{
    let mut whole = Sink::new(alloc);
    let sent = encode(alloc, object, tsi, 1, fti, every, Order::Blocks, &mut whole);
    sent == Ok(count) && is_sent_from(alloc, object, tsi, fti, every, most, count, whole.bytes())
}

// Whether so many datagrams are sent of an object that comes in pieces, and this is their file.
fn is_sent_from(
    alloc: Global,
    object: &[u8],
    tsi: u32,
    fti: &Fti,
    every: u32,
    most: usize,
    count: u64,
    file: &[u8],
) -> bool
    requires every { 1 ≤ every }
    requires most { 0 < most }
{
    let mut sink = Sink::new(alloc);
    let mut reader = Pieces::new(object, most);
    let sent = encode_from(alloc, &mut reader, tsi, 1, fti, every, &mut sink);
    sent == Ok(count) && sink.bytes() == file && is_at_end(&mut reader)
}

// The object's 2703 source symbols in blocks of 97 or 96 have twice as many encoding symbols.
#[test]
fn sent_from_a_reader(rt: HostRuntime) -> Result<(), Fail> {
    let fti = fti()?;
    let object = object_and_more(rt.alloc())?;
    let object = front(&object, LENGTH);
    for every in [1, 2, 255] {
        let right = is_sent_alike(rt.alloc(), object, 7, &fti, every, 1000, 5406);
        assert!(rt; right, "every {every}");
    }
    Ok(())
}

// The objects whose sessions are worked out in transcripts, and one with blocks of one symbol and a
// last symbol of one byte.
#[test]
fn small_objects_from_a_reader(rt: HostRuntime) -> Result<(), Fail> {
    let three_blocks = [0x01, 0x08, 0x40, 0x3A, 1, 2, 4, 1, 4, 0x10];
    for (object, tsi, e, b, max_n, every, count) in [
        (&[1u8, 2][..], 1, 1, 2, 3, 1, 3),
        (&[1, 2], 1, 1, 2, 3, 2, 3),
        (&[1, 2], 1, 1, 2, 3, 3, 3),
        (&three_blocks, 1, 1, 4, 6, 1, 14),
        (&three_blocks, 1, 1, 4, 6, 4, 14),
        (&[7, 8, 9], 1, 2, 2, 3, 1, 3),
        (&[1, 2, 3, 4, 5], 7, 2, 1, 3, 1, 9),
    ] {
        let fti = Fti::new(object.len() as u64, e, b, max_n)?;
        let right = is_sent_alike(rt.alloc(), object, tsi, &fti, every, 1, count);
        assert!(rt; right, "{} bytes, every {every}", object.len());
    }
    Ok(())
}

// Whether an object that comes in pieces is sent in rounds as one that is there, where a file held
// other bytes before.
fn is_sent_alike_in_rounds(alloc: Global, object: &[u8], fti: &Fti, every: u32) -> bool
    requires { 1 ≤ every }
{
    let mut whole = Sink::new(alloc);
    let Ok(count) = encode(alloc, object, 7, 1, fti, every, Order::Rounds, &mut whole) else {
        return false;
    };
    let mut sink = Sink::new(alloc);
    let Ok(()) = write_all(&mut sink, &[9; 100]) else {
        return false;
    };
    let mut reader = Pieces::new(object, 1000);
    let sent = encode_rounds_from(alloc, &mut reader, 7, 1, fti, every, &mut sink);
    sent == Ok(count) && sink.bytes() == whole.bytes() && is_at_end(&mut reader)
}

// Blocks of one size and of two, of one symbol and of many, and symbols of one byte and of more.
#[test]
fn small_objects_in_rounds(rt: HostRuntime) -> Result<(), Fail> {
    let object = object_and_more(rt.alloc())?;
    for (length, e, b, max_n) in [
        (1usize, 1, 1, 1),
        (2, 1, 2, 3),
        (3, 2, 2, 3),
        (10, 1, 4, 6),
        (5, 2, 1, 3),
        (1000, 7, 20, 33),
        (20000, 37, 97, 194),
    ] {
        let fti = Fti::new(length as u64, e, b, max_n)?;
        let bytes = front(&object, length);
        for every in [1, 3, 255] {
            let right = is_sent_alike_in_rounds(rt.alloc(), bytes, &fti, every);
            assert!(rt; right, "{length} bytes, every {every}");
        }
    }
    Ok(())
}

// Groups of five blocks, the last one of two, and blocks that are groups each.
#[test]
fn groups_in_rounds(rt: HostRuntime) -> Result<(), Fail> {
    let mut random = Pcg32::new(12, 5510);
    let mut object = Vec::from_elem(rt.alloc(), 0u8, 1_500_000)?;
    random.fill_bytes(&mut object);
    for (e, b, max_n) in [(65475, 2, 3), (50001, 12, 30)] {
        let fti = Fti::new(1_500_000, e, b, max_n)?;
        let right = is_sent_alike_in_rounds(rt.alloc(), object.as_slice(), &fti, 4);
        assert!(rt; right, "symbols of {e} bytes");
    }
    Ok(())
}

// What certifying bytes in pieces says.
fn certifying(alloc: Global, bytes: &[u8], fti: &Fti) -> Result<(), CertifyFromFault> {
    let mut sink = Sink::new(alloc);
    certify_from(alloc, &mut Pieces::new(bytes, 500), fti, ONE, &mut sink)
}

// What sending them says.
fn sending(alloc: Global, bytes: &[u8], fti: &Fti) -> Result<u64, SendFromFault> {
    let mut sink = Sink::new(alloc);
    encode_from(alloc, &mut Pieces::new(bytes, 500), 7, 1, fti, 1, &mut sink)
}

fn sending_in_rounds(alloc: Global, bytes: &[u8], fti: &Fti) -> Result<u64, SendFromFault> {
    let mut sink = Sink::new(alloc);
    encode_rounds_from(alloc, &mut Pieces::new(bytes, 500), 7, 1, fti, 1, &mut sink)
}

// An object that is shorter or longer than its length said, wherever it ends.
#[test]
fn another_length(rt: HostRuntime) -> Result<(), Fail> {
    let fti = fti()?;
    let object = object_and_more(rt.alloc())?;
    for length in [0, 1, 3588, 3589, 3590, 100002, 100004] {
        let bytes = front(&object, length);
        let certified = certifying(rt.alloc(), bytes, &fti);
        assert!(rt;
            certified == Err(CertifyFromFault::Object(ObjectFault::Length)),
            "{length}"
        );
        let sent = sending(rt.alloc(), bytes, &fti);
        assert!(rt;
            sent == Err(SendFromFault::Object(ObjectFault::Length)),
            "{length}"
        );
        let sent = sending_in_rounds(rt.alloc(), bytes, &fti);
        assert!(rt;
            sent == Err(SendFromFault::Object(ObjectFault::Length)),
            "{length}"
        );
    }
    Ok(())
}

// A symbol that no datagram holds is told before anything is read.
#[test]
fn symbol_too_long(rt: HostRuntime) -> Result<(), Fail> {
    let fti = Fti::new(5, 65476, 1, 3)?;
    assert!(rt; sending(rt.alloc(), &[0; 5], &fti) == Err(SendFromFault::SymbolTooLong));
    assert!(rt; sending_in_rounds(rt.alloc(), &[0; 5], &fti) == Err(SendFromFault::SymbolTooLong));
    let fti = Fti::new(5, 65475, 1, 3)?;
    assert!(rt; sending(rt.alloc(), &[0; 5], &fti) == Ok(3));
    Ok(())
}
