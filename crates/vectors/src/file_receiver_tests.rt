//! A receiver that keeps symbols in its output, beside one that holds them, at each datagram of
//! sessions that lose, repeat and spoil some, in any order.
ghost use Rattle.std.specs.Prelude.{◌≡◌, ◌≤◌, []};
ghost use Rattle.receiver.specs.Stands.{IsFed, IsSoundIn};

use crate::ONE;
use crate::check_tests::FIRST_ALONE;
use crate::receiver_tests::{ORDERS, disturbed, feed, is_same, object_of, sent};
use coder::{Answer, FeedFault, Progress, Receiver};
use partition::Fti;
use rand_pcg::Pcg32;
use receiver::FileReceiver;
use session::Sink;
use std::alloc::Global;
use std::test::Fail;

// Whether both say the same of a datagram.
fn is_same_told(filed: Result<Progress, FeedFault>, held: Result<Progress, FeedFault>) -> bool {
    match (filed, held) {
        (Ok(filed), Ok(held)) => filed == held,
        (Err(filed), Err(held)) => filed == held,
        _ => false,
    }
}

// Whether both say the same of what was accepted: how it falls short, or that nothing does.
fn is_same_lack(lack: Option<Answer>, taken: &Answer) -> bool {
    match (lack, taken) {
        (Some(lack), taken) => is_same(&lack, taken),
        (None, Answer::Object(_)) => true,
        (None, _) => false,
    }
}

fn lacks_same(alloc: Global, filed: &FileReceiver<Sink>, held: &Receiver) -> bool {
    match held.take(alloc) {
        Ok(taken) => is_same_lack(filed.lack(), &taken),
        Err(_) => false,
    }
}

// Feeds a receiver, which gets this output where it wants one before.
fn feed_filed(
    alloc: Global,
    receiver: FileReceiver<Sink>,
    output: Sink,
    datagram: &[u8],
) -> (FileReceiver<Sink>, Result<Progress, FeedFault>)
    requires sound { IsSoundIn receiver.receiving.store }
    requires empty { output.bytes.items ≡ [] }
    ensures { IsSoundIn result.0.receiving.store }
{
    if receiver.wants_output(datagram) {
        let mut receiver = receiver.with_output(output);
        let fed = receiver.feed(alloc, datagram);
        return (receiver, fed);
    }
    let mut receiver = receiver;
    let fed = receiver.feed(alloc, datagram);
    (receiver, fed)
}

// Whether both agree once one more datagram is fed.
fn agree_at(
    alloc: Global,
    filed: FileReceiver<Sink>,
    held: &mut Receiver,
    datagram: &[u8],
) -> (FileReceiver<Sink>, bool)
    requires sound { IsSoundIn filed.receiving.store }
    requires fed { IsFed held.old }
    ensures sound { IsSoundIn result.0.receiving.store }
    ensures fed { IsFed held.new }
{
    let (filed, told) = feed_filed(alloc, filed, Sink::new(alloc), datagram);
    let agreed = is_same_told(told, feed(alloc, held, datagram));
    let same = lacks_same(alloc, &filed, held);
    (filed, agreed && same)
}

// Whether the output has the object that the other gives, where nothing is missing, and whether
// that is so.
fn has_same_object(alloc: Global, filed: FileReceiver<Sink>, held: &Receiver) -> (bool, bool) {
    if let Some(_) = filed.lack() {
        return (true, false);
    }
    let (output, finished) = filed.finish();
    match held.take(alloc) {
        Ok(Answer::Object(object)) => {
            let same = finished.is_ok() && output.bytes() == object.as_slice();
            (same, true)
        }
        _ => (false, true),
    }
}

// Whether both agree at each of these datagrams, and on the object, and whether it was there.
fn compare(alloc: Global, datagrams: &[Vec<u8>]) -> (bool, bool) {
    let mut filed = FileReceiver::new(ONE);
    let mut held = Receiver::new(ONE);
    let mut agreed = true;
    for datagram in datagrams {
        let (next, same) = agree_at(alloc, filed, &mut held, datagram.as_slice());
        filed = next;
        agreed = agreed && same;
    }
    let (same, complete) = has_same_object(alloc, filed, &held);
    (agreed && same, complete)
}

// Whether both agree in all orders, and have the object in some.
fn agree(alloc: Global, length: usize, fti: &Fti, every: u32) -> Result<bool, Fail>
    requires { 1 ≤ every }
{
    let mut random = Pcg32::new(length as u64, 5052);
    let object = object_of(alloc, &mut random, length)?;
    let session = sent(alloc, object.as_slice(), fti, every)?;
    let mut some = false;
    for _ in 0..ORDERS {
        let datagrams = disturbed(alloc, &mut random, &session)?;
        let (agreed, complete) = compare(alloc, datagrams.as_slice());
        if !agreed {
            return Ok(false);
        }
        some = some || complete;
    }
    Ok(some)
}

#[test]
fn in_an_output(rt: HostRuntime) -> Result<(), Fail> {
    for (length, e, b, max_n, every) in [
        (2, 1, 2, 3, 1),
        (29, 8, 8, 12, 1),
        (10, 1, 4, 6, 4),
        (2000, 25, 32, 40, 3),
    ] {
        let fti = Fti::new(length, e, b, max_n)?;
        let right = agree(rt.alloc(), length as usize, &fti, every)?;
        assert!(rt; right, "{length} bytes, every {every}");
    }
    Ok(())
}

// The carrier of a pair of bytes, with an output that has room for so many.
fn fed_with_room(alloc: Global, room: usize) -> Result<Progress, FeedFault> {
    let receiver = FileReceiver::new(ONE);
    let output = Sink::limited(alloc, 1, room);
    let (_receiver, fed) = feed_filed(alloc, receiver, output, &FIRST_ALONE[2..35]);
    fed
}

// An output that has too little room for the block of a symbol fails with it.
#[test]
fn in_an_output_that_fails(rt: HostRuntime) -> Result<(), Fail> {
    let alloc = rt.alloc();
    assert!(rt; matches!(fed_with_room(alloc, 1), Err(FeedFault::Failed)));
    assert!(rt; matches!(fed_with_room(alloc, 2), Ok(Progress::More)));
    Ok(())
}
