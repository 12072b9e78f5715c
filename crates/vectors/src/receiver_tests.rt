//! A receiver beside the decoder, at each datagram of sessions that lose, repeat and spoil some, in
//! any order.
ghost use Rattle.std.specs.Prelude.{◌≤◌};
ghost use Rattle.receiver.specs.Stands.{IsFed};

use crate::ONE;
use crate::check_tests::FIRST_ALONE;
use crate::decoding_tests::{Said, says};
use alc::PacketFault;
use coder::{Answer, DecodeFault, FeedFault, Progress, Receiver, decode, encode};
use partition::{Fti, Order};
use rand::seq::SliceRandom;
use rand_core::Rng;
use rand_pcg::Pcg32;
use session::{Pieces, Session, Sink};
use std::alloc::{AllocError, Global};
use std::test::Fail;

/// In how many orders a session comes.
pub(crate) const ORDERS: usize = 100;

// An object of so many bytes.
pub(crate) fn object_of(
    alloc: Global,
    random: &mut Pcg32,
    length: usize,
) -> Result<Vec<u8>, AllocError> {
    let mut object = Vec::new(alloc);
    for _ in 0..length {
        object.push((random.next_u32() % 256) as u8)?;
    }
    Ok(object)
}

// The datagrams that are sent of an object, those at the places that `every` divides with the FTI.
pub(crate) fn sent(alloc: Global, object: &[u8], fti: &Fti, every: u32) -> Result<Session, Fail>
    requires { 1 ≤ every }
{
    let mut sink = Sink::new(alloc);
    encode(alloc, object, 1, 1, fti, every, Order::Blocks, &mut sink)?;
    let mut reader = Pieces::new(sink.bytes(), 1000);
    Ok(Session::read(alloc, &mut reader)?)
}

// The datagram with another last byte.
fn spoiled(alloc: Global, datagram: &[u8]) -> Result<Vec<u8>, AllocError> {
    let mut bytes = datagram.to_vec(alloc)?;
    if let Some(last) = bytes.as_mut_slice().last_mut() {
        *last ^= 1;
    }
    Ok(bytes)
}

// The session's datagrams as they may come: of 64 some four don't, eight come twice, and one comes
// also with another byte.
pub(crate) fn disturbed(
    alloc: Global,
    random: &mut Pcg32,
    session: &Session,
) -> Result<Vec<Vec<u8>>, AllocError> {
    let mut datagrams = Vec::new(alloc);
    for place in 0..session.len() {
        let datagram = session.get(place);
        let chance = random.next_u32() % 64;
        if chance >= 4 {
            datagrams.push(datagram.to_vec(alloc)?)?;
        }
        if chance >= 56 {
            datagrams.push(datagram.to_vec(alloc)?)?;
        }
        if chance == 63 {
            datagrams.push(spoiled(alloc, datagram)?)?;
        }
    }
    datagrams.as_mut_slice().shuffle(random);
    Ok(datagrams)
}

pub(crate) fn is_same(a: &Answer, b: &Answer) -> bool {
    match (a, b) {
        (Answer::Empty, Answer::Empty) => true,
        (Answer::Object(a), Answer::Object(b)) => a.as_slice() == b.as_slice(),
        (
            Answer::Missing { block, have, need },
            Answer::Missing {
                block: other_block,
                have: other_have,
                need: other_need,
            },
        ) => block == other_block && have == other_have && need == other_need,
        _ => false,
    }
}

// Whether a receiver that was fed a datagram says what the decoder says of those that were accepted
// and this one.
fn agrees(fed: &Result<Progress, FeedFault>, taken: &Answer, decoded: &Answer) -> bool {
    match (fed, decoded) {
        (Ok(Progress::Complete), Answer::Object(_)) => is_same(taken, decoded),
        (Ok(Progress::More), Answer::Empty | Answer::Missing { .. }) => is_same(taken, decoded),
        (Err(FeedFault::Fault(told)), Answer::Fault(fault)) => told == fault,
        (Err(FeedFault::Early), Answer::Empty) => is_same(taken, decoded),
        _ => false,
    }
}

pub(crate) fn feed(
    alloc: Global,
    receiver: &mut Receiver,
    datagram: &[u8],
) -> Result<Progress, FeedFault>
    requires { IsFed receiver.old }
    ensures { IsFed receiver.new }
{
    match receiver.feed(alloc, datagram) {
        Ok(progress) => Ok(progress),
        Err(fault) => Err(fault),
    }
}

fn takes(
    alloc: Global,
    receiver: &Receiver,
    fed: &Result<Progress, FeedFault>,
    decoded: &Answer,
) -> bool {
    match receiver.take(alloc) {
        Ok(taken) => agrees(fed, &taken, decoded),
        Err(_) => false,
    }
}

// Whether a receiver that was just fed agrees with the decoder of these datagrams.
fn agrees_of(
    alloc: Global,
    receiver: &Receiver,
    fed: &Result<Progress, FeedFault>,
    datagrams: &[&[u8]],
) -> bool {
    match decode(alloc, datagrams, ONE) {
        Ok(decoded) => takes(alloc, receiver, fed, &decoded),
        Err(_) => false,
    }
}

// Whether they agree once one more datagram is fed, which joins those that were accepted, if it is.
fn agrees_at<'a>(
    alloc: Global,
    receiver: &mut Receiver,
    accepted: &mut Vec<&'a [u8]>,
    datagram: &'a [u8],
) -> bool
    requires { IsFed receiver.old }
    ensures { IsFed receiver.new }
{
    let fed = feed(alloc, receiver, datagram);
    let agreed = accepted.push(datagram).is_ok()
        && agrees_of(alloc, receiver, &fed, accepted.as_slice());
    if fed.is_err() {
        accepted.pop();
    }
    agreed
}

fn has_object(alloc: Global, receiver: &Receiver) -> bool {
    match receiver.take(alloc) {
        Ok(Answer::Object(_)) => true,
        _ => false,
    }
}

// Whether they agree at each of these datagrams, and whether the object was there at the end.
fn compare(alloc: Global, datagrams: &[Vec<u8>]) -> (bool, bool) {
    let mut receiver = Receiver::new(ONE);
    let mut accepted = Vec::new(alloc);
    let mut agreed = true;
    for datagram in datagrams {
        if agreed {
            agreed = agrees_at(alloc, &mut receiver, &mut accepted, datagram.as_slice());
        }
    }
    (agreed, has_object(alloc, &receiver))
}

// Whether a receiver says what the decoder does in all orders, and has the object in some.
fn agree(alloc: Global, length: usize, fti: &Fti, every: u32) -> Result<bool, Fail>
    requires { 1 ≤ every }
{
    let mut random = Pcg32::new(length as u64, 5510);
    let object = object_of(alloc, &mut random, length)?;
    let session = sent(alloc, object.as_slice(), fti, every)?;
    let mut some = false;
    for _ in 0..ORDERS {
        let datagrams = disturbed(alloc, &mut random, &session)?;
        let (agreed, complete) = compare(alloc, datagrams.as_slice());
        if !agreed {
            return Ok(false);
        }
        some = some || complete;
    }
    Ok(some)
}

// A pair, a note and three blocks; and where not all datagrams are carriers: a packet without FTI
// that comes before the first carrier is refused.
#[test]
fn of_small_objects(rt: HostRuntime) -> Result<(), Fail> {
    for (length, e, b, max_n, every) in [
        (2, 1, 2, 3, 1),
        (29, 8, 8, 12, 1),
        (10, 1, 4, 6, 1),
        (10, 1, 4, 6, 4),
        (29, 8, 8, 12, 3),
    ] {
        let fti = Fti::new(length, e, b, max_n)?;
        let right = agree(rt.alloc(), length as usize, &fti, every)?;
        assert!(rt; right, "{length} bytes, every {every}");
    }
    Ok(())
}

#[test]
fn of_a_bulletin(rt: HostRuntime) -> Result<(), Fail> {
    let fti = Fti::new(20000, 250, 32, 40)?;
    assert!(rt; agree(rt.alloc(), 20000, &fti, 1)?);
    Ok(())
}

// The datagram at place 1 with TOI 2.
fn second_of_another() -> [u8; 21] {
    let mut datagram = [0; 21];
    datagram.copy_from_slice(&FIRST_ALONE[37..58]);
    datagram[15] = 2;
    datagram
}

// The datagram at place 1 with a byte more.
fn longer_second() -> [u8; 22] {
    let mut datagram = [0; 22];
    datagram[..21].copy_from_slice(&FIRST_ALONE[37..58]);
    datagram
}

// Whether feeding says this.
fn is_told(
    alloc: Global,
    receiver: &mut Receiver,
    datagram: &[u8],
    wanted: Result<Progress, FeedFault>,
) -> bool
    requires { IsFed receiver.old }
    ensures { IsFed receiver.new }
{
    feed(alloc, receiver, datagram) == wanted
}

#[test]
fn early(rt: HostRuntime) -> Result<(), Fail> {
    let alloc = rt.alloc();
    let early = Err(FeedFault::Early);
    let no_packet = Err(FeedFault::Fault(DecodeFault::Packet(1, PacketFault::TooShort)));
    let wrong_length = Err(FeedFault::Fault(DecodeFault::SymbolLength(2)));
    let mut receiver = Receiver::new(ONE);
    assert!(rt; is_told(alloc, &mut receiver, &FIRST_ALONE[37..58], early));
    assert!(rt; is_told(alloc, &mut receiver, &longer_second(), early));
    assert!(rt;
        is_told(
            alloc,
            &mut receiver,
            &second_of_another(),
            Ok(Progress::More)
        )
    );
    assert!(rt; is_told(alloc, &mut receiver, &[], no_packet));
    assert!(rt;
        is_told(
            alloc,
            &mut receiver,
            &FIRST_ALONE[2..35],
            Ok(Progress::More)
        )
    );
    assert!(rt; is_told(alloc, &mut receiver, &longer_second(), wrong_length));
    assert!(rt;
        is_told(
            alloc,
            &mut receiver,
            &FIRST_ALONE[60..81],
            Ok(Progress::Complete)
        )
    );
    let answer = receiver.take(alloc)?;
    assert!(rt; says(&answer, Said::Object(&[1, 2])));
    Ok(())
}

// Whether a receiver that was fed a datagram keeps so many symbols of the first block, and none of
// one that isn't there.
fn keeps(alloc: Global, receiver: &mut Receiver, datagram: &[u8], count: usize) -> bool
    requires { IsFed receiver.old }
    ensures { IsFed receiver.new }
{
    let _told = feed(alloc, receiver, datagram);
    receiver.stored(0) == count && receiver.stored(1) == 0
}

// None before there is an FTI, and of a block of two source symbols no more than two.
#[test]
fn stored_symbols(rt: HostRuntime) -> Result<(), Fail> {
    let alloc = rt.alloc();
    let mut receiver = Receiver::new(ONE);
    assert!(rt; keeps(alloc, &mut receiver, &FIRST_ALONE[37..58], 0));
    assert!(rt; keeps(alloc, &mut receiver, &FIRST_ALONE[2..35], 1));
    assert!(rt; keeps(alloc, &mut receiver, &FIRST_ALONE[60..81], 2));
    assert!(rt; keeps(alloc, &mut receiver, &FIRST_ALONE[37..58], 2));
    Ok(())
}
