//! Frames of several readers joined in one writer.
ghost use Rattle.std.specs.Prelude.{◌≡◌, ◌<◌, ◌≤◌, ◌⊎◌, map, true, false, length, IfOk, IfErr};
ghost use Rattle.std.specs.Prelude.{OnOk};
ghost use Rattle.streams.specs.Changes.{writer_change};
ghost use Rattle.session.specs.Copying.{IsStep, IsToldFirst, IsUnread, IsUnwritten};
ghost use Rattle.session.specs.Frames.{IsSessionFault};
ghost use Rattle.session.specs.Joining.{IsJoined, IsUnjoined, IsWhole};

use crate::frame::{FrameFault, read_next, write_one};
use std::alloc::Global;
use streams::{Read, Write};

// Copies the next frame, and answers whether there was one.
fn copy_one<R: Read, W: Write>(
    alloc: Global,
    reader: &mut R,
    writer: &mut W,
) -> Result<bool, FrameFault>
    ensures ok { IfOk result (λ some. IsStep some
        (R.remaining reader.old) (R.remaining reader.new)
        (W.contents writer.old) (W.contents writer.new) (W.room writer.old) (W.room writer.new)) }
    ensures falls { IfOk result (λ some. some ≡ true → R.left reader.new < R.left reader.old) }
    ensures fault { IfErr result (λ e. IsUnread e (R.sound reader.old)
        (R.remaining reader.old) (R.remaining reader.new) (R.failed reader.new)
        (W.contents writer.old) (W.contents writer.new)
        ⊎ IsUnwritten e (R.remaining reader.old) (R.remaining reader.new)
        (W.contents writer.old) (W.contents writer.new) (W.room writer.old)
        (W.failed writer.new)) }
    ensures stays { R.sound reader.new ≡ R.sound reader.old }
{
    let Some(datagram) = read_next(alloc, reader)? else {
        return Ok(false);
    };
    write_one(writer, datagram.as_slice())?;
    Ok(true)
}

// Reads all frames that a reader has left.
fn read_on<R: Read>(alloc: Global, reader: &mut R) -> Result<(), FrameFault>
    ensures whole { OnOk result (IsWhole (R.remaining reader.old)) }
    ensures fault { IfErr result (λ e.
        IsSessionFault e (R.remaining reader.old) (R.failed reader.new)) }
    ensures unsound { IfErr result (λ e. e ≡ FrameFault.Io → R.sound reader.old ≡ false) }
    ensures stays { R.sound reader.new ≡ R.sound reader.old }
{
    while let Some(_datagram) = read_next(alloc, reader)? {}
    Ok(())
}

// The first fault of these readers, which are read to their ends up to that one; where they have
// none, this other one. Where that is want of memory, it is the answer, and nothing is read.
fn first_fault<R: Read>(alloc: Global, readers: &mut [R], other: FrameFault) -> FrameFault
    ensures { IsToldFirst other result
        (map R.remaining readers.old) (map R.sound readers.old) (map R.failed readers.new) }
{
    match other {
        FrameFault::NoMemory => return other,
        _ => {}
    }
    for place in 0..readers.len() {
        if let Err(fault) = read_on(alloc, &mut readers[place]) {
            return fault;
        }
    }
    other
}

// All of the first reader, then all of the second, and so on.
fn join_whole<R: Read, W: Write>(
    alloc: Global,
    readers: &mut [R],
    writer: &mut W,
) -> Result<usize, FrameFault>
    ensures ok { IfOk result (IsJoined false
        (map R.remaining readers.old) (map R.remaining readers.new)
        (W.contents writer.old) (W.contents writer.new)) }
    ensures fault { IfErr result (λ e. IsUnjoined false e
        (map R.remaining readers.old) (map R.sound readers.old) (map R.failed readers.new)
        (writer_change W.Write writer.old writer.new)) }
{
    let mut count = 0usize;
    let mut place = 0;
    while place < readers.len() {
        if copy_one(alloc, &mut readers[place], writer)? {
            let Some(next) = count.checked_add(1) else {
                return Err(FrameFault::NoMemory);
            };
            count = next;
        } else {
            place += 1;
        }
    }
    Ok(count)
}

// Round after round, one frame of each reader that hasn't ended.
fn join_in_turns<R: Read, W: Write>(
    alloc: Global,
    readers: &mut [R],
    writer: &mut W,
) -> Result<usize, FrameFault>
    ensures ok { IfOk result (IsJoined true
        (map R.remaining readers.old) (map R.remaining readers.new)
        (W.contents writer.old) (W.contents writer.new)) }
    ensures fault { IfErr result (λ e. IsUnjoined true e
        (map R.remaining readers.old) (map R.sound readers.old) (map R.failed readers.new)
        (writer_change W.Write writer.old writer.new)) }
{
    let Ok(mut ended) = Vec::from_elem(alloc, false, readers.len()) else {
        return Err(FrameFault::NoMemory);
    };
    let mut count = 0usize;
    for _round in 0..usize::MAX {
        let mut over = true;
        for place in 0..readers.len() {
            if ended[place] {
                continue;
            }
            let some = match copy_one(alloc, &mut readers[place], writer) {
                Ok(some) => some,
                // A reader before may have a fault behind what was read of it.
                Err(fault) => return Err(first_fault(alloc, &mut readers[..place], fault)),
            };
            if some {
                over = false;
                let Some(next) = count.checked_add(1) else {
                    return Err(FrameFault::NoMemory);
                };
                count = next;
            } else {
                ended[place] = true;
            }
        }
        if over {
            return Ok(count);
        }
    }
    // More rounds than can be counted.
    Err(FrameFault::NoMemory)
}

/// Copies the frames of all readers up to their ends: all of the first, then all of the second, and
/// so on; with `turns` one of each in turn, those that have ended being passed over. Answers how
/// many there were.
///
/// `CutLength`, `CutDatagram` and `TooLong` tell why a reader's bytes aren't frames, and of several
/// such readers the first: those before one that has a fault are read to their ends. `Io` tells
/// that a reader or the writer has failed, and those before it, too, are read to their ends. A
/// beginning of the frames was written then.
pub fn join_frames<R: Read, W: Write>(
    alloc: Global,
    readers: &mut [R],
    turns: bool,
    writer: &mut W,
) -> Result<usize, FrameFault>
    ensures ok { IfOk result (IsJoined turns
        (map R.remaining readers.old) (map R.remaining readers.new)
        (W.contents writer.old) (W.contents writer.new)) }
    ensures fault { IfErr result (λ e. IsUnjoined turns e
        (map R.remaining readers.old) (map R.sound readers.old) (map R.failed readers.new)
        (writer_change W.Write writer.old writer.new)) }
{
    if turns {
        join_in_turns(alloc, readers, writer)
    } else {
        join_whole(alloc, readers, writer)
    }
}
