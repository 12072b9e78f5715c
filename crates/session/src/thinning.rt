//! Frames without those at the places of some ranges, from a reader to a writer.
ghost use Rattle.std.specs.Prelude.{List, IfOk, IfErr, OnErr};
ghost use Rattle.std.specs.Io.KnownBytes.{IsAtEnd};
ghost use Rattle.streams.specs.Changes.{reader_change};
ghost use Rattle.session.specs.Copying.{IsWritten};
ghost use Rattle.session.specs.Thinning.{IsThinned, IsUnthinned, WritesSome};
ghost use Rattle.session.specs.ThinningSteps.{HasCopied};
ghost use Rattle.session.specs.RangeSteps.{AreByFirst, HaveSamePlaces};
ghost use Rattle.session.specs.declared.range.PlaceRange.{PlaceRange as Range};

use crate::frame::{FrameFault, read_next, write_one};
use crate::range::PlaceRange;
use crate::ranges::{Begun, by_first, unhad};
use std::alloc::Global;
use streams::{Read, Write};

// How many frames were read, and how many of them written.
#[derive(Clone, Copy)]
struct Counts {
    read: usize,
    written: usize,
}

// Copies the frames that are left of a reader, but for those at the places of ranges, which are
// sorted by their first places.
fn copy_others<R: Read, W: Write>(
    alloc: Global,
    reader: &mut R,
    lost: &[PlaceRange],
    writer: &mut W,
) -> Result<Counts, FrameFault>
    requires { AreByFirst lost.now }
    ensures copied { (ranges : List Range) → HaveSamePlaces ranges lost.now
        → IfOk result (λ n. HasCopied ranges (R.remaining reader.old) (R.remaining reader.new)
        (IsWritten (W.contents writer.old) (W.contents writer.new)
        (W.room writer.old) (W.room writer.new)) n.read n.written) }
    ensures end { IfOk result (λ n. IsAtEnd (R.remaining reader.new)) }
    ensures fault { (ranges : List Range) → HaveSamePlaces ranges lost.now
        → IfErr result (λ e. IsUnthinned e ranges
        (reader_change R.Read reader.old reader.new) (W.room writer.old) (W.failed writer.new)) }
    ensures some { (ranges : List Range) → HaveSamePlaces ranges lost.now
        → OnErr result (WritesSome ranges (R.remaining reader.old)
        (W.contents writer.old) (W.contents writer.new)) }
{
    let mut counts = Counts {
        read: 0,
        written: 0,
    };
    let mut begun = Begun { count: 0, last: 0 };
    loop {
        let Some(datagram) = read_next(alloc, reader)? else {
            return Ok(counts);
        };
        let Some(read) = counts.read.checked_add(1) else {
            return Err(FrameFault::NoMemory);
        };
        begun = begun.meet(lost, counts.read);
        if !begun.has(counts.read) {
            write_one(writer, datagram.as_slice())?;
            counts.written += 1;
        }
        counts.read = read;
    }
}

/// Copies the frames that are left of a reader, but for those at the places of these ranges, which
/// are counted from 0; one at a time is held. Answers how many were written.
///
/// `CutLength`, `CutDatagram` and `TooLong` tell what follows whole frames, `Io` that the reader or
/// the writer has failed, and `NoSuchPlace`, at the reader's end, the first place that it hasn't,
/// of the first range that has such a place. A beginning of the frames was written then.
pub fn thin_frames<R: Read, W: Write>(
    alloc: Global,
    reader: &mut R,
    ranges: &[PlaceRange],
    writer: &mut W,
) -> Result<usize, FrameFault>
    ensures thinned { IfOk result (IsThinned ranges.now
        (R.remaining reader.old) (R.remaining reader.new)
        (W.contents writer.old) (W.contents writer.new)) }
    ensures fault { IfErr result (λ e. IsUnthinned e ranges.now
        (reader_change R.Read reader.old reader.new) (W.room writer.old) (W.failed writer.new)) }
    ensures some { OnErr result (WritesSome ranges.now (R.remaining reader.old)
        (W.contents writer.old) (W.contents writer.new)) }
{
    let Ok(lost) = by_first(alloc, ranges) else {
        return Err(FrameFault::NoMemory);
    };
    let counts = copy_others(alloc, reader, lost.as_slice(), writer)?;
    match unhad(ranges, counts.read) {
        Some(place) => Err(FrameFault::NoSuchPlace(place)),
        None => Ok(counts.written),
    }
}
