//! Frames: a datagram behind its length in two bytes.
ghost use Rattle.std.specs.Prelude.{◌≡◌, ◌≤◌, ◌<◌, ◌+◌, true, false, [], None, length, take, IfOk};
ghost use Rattle.std.specs.Prelude.{IfErr, OnErr, OnOk, IfSome};
ghost use Rattle.std.specs.Io.KnownBytes.{Consumes, IsAtEnd, Appends};
ghost use Rattle.byteorder.specs.Endian.{big_bytes};
ghost use Rattle.streams.specs.Pieces.{AppendsSome};
ghost use Rattle.session.specs.Frames.{frame, most_bytes, IsReadFault};

use byteorder::{BigEndian, ByteOrder};
use std::alloc::Global;
use streams::{Read, Write, fill, write_all};
use thiserror::Error;

/// The most bytes of a datagram.
pub const MOST_BYTES: usize = 65507;

/// Why a session wasn't read, written or thinned.
#[derive(Debug, Clone, Copy, PartialEq, Eq, Error)]
pub enum FrameFault {
    /// The end came after one byte of a length.
    #[error("S1 CutLength")]
    CutLength,
    /// The end came inside a datagram.
    #[error("S2 CutDatagram")]
    CutDatagram,
    /// A length above 65,507.
    #[error("S3 TooLong")]
    TooLong,
    /// The reader or writer has failed.
    #[error("S4 Io")]
    Io,
    #[error("S5 NoMemory")]
    NoMemory,
    /// The first of the places that the session doesn't have.
    #[error("S6 NoSuchPlace {0}")]
    NoSuchPlace(usize),
}

/// The length of the next datagram, or `None` at the end.
fn read_length<R: Read>(reader: &mut R) -> Result<Option<usize>, FrameFault>
    ensures some { IfOk result (λ o. IfSome o (λ n.
        Consumes (R.remaining reader.old) (R.remaining reader.new) (big_bytes 2 n))) }
    ensures short { IfOk result (λ o. IfSome o (λ n. n ≤ most_bytes)) }
    ensures none { IfOk result (λ o.
        o ≡ None → IsAtEnd (R.remaining reader.old) × IsAtEnd (R.remaining reader.new)) }
    ensures nothing { IfOk result (λ o.
        o ≡ None → Consumes (R.remaining reader.old) (R.remaining reader.new) []) }
    ensures fault { IfErr result (λ e.
        IsReadFault e (R.remaining reader.old) (R.remaining reader.new) (R.failed reader.new)) }
    ensures falls { IfOk result (λ o. IfSome o (λ n. R.left reader.new < R.left reader.old)) }
    ensures unsound { IfErr result (λ e. e ≡ FrameFault.Io → R.sound reader.old ≡ false) }
    ensures stays { R.sound reader.new ≡ R.sound reader.old }
{
    let mut head = [0u8; 2];
    let Ok(got) = fill(reader, &mut head) else {
        return Err(FrameFault::Io);
    };
    if got == 0 {
        return Ok(None);
    }
    if got == 1 {
        return Err(FrameFault::CutLength);
    }
    let (_high, _low) = (head[0], head[1]);
    let length = usize::from(BigEndian::read_u16(&head));
    if length > MOST_BYTES {
        return Err(FrameFault::TooLong);
    }
    Ok(Some(length))
}

/// The next datagram, or `None` at the end. `CutLength`, `CutDatagram` and `TooLong` tell why none
/// stands there, `Io` that the reader has failed, which a sound one never does. After a fault the
/// caller stops reading.
pub fn read_next<R: Read>(alloc: Global, reader: &mut R) -> Result<Option<Vec<u8>>, FrameFault>
    // Just its frame is consumed.
    ensures some { IfOk result (λ o. IfSome o (λ d.
        Consumes (R.remaining reader.old) (R.remaining reader.new) (frame d.items))) }
    ensures short { IfOk result (λ o. IfSome o (λ d. length d.items ≤ most_bytes)) }
    ensures none { IfOk result (λ o.
        o ≡ None → IsAtEnd (R.remaining reader.old) × IsAtEnd (R.remaining reader.new)) }
    ensures nothing { IfOk result (λ o.
        o ≡ None → Consumes (R.remaining reader.old) (R.remaining reader.new) []) }
    ensures fault { IfErr result (λ e.
        IsReadFault e (R.remaining reader.old) (R.remaining reader.new) (R.failed reader.new)) }
    ensures falls { IfOk result (λ o. IfSome o (λ d. R.left reader.new < R.left reader.old)) }
    ensures unsound { IfErr result (λ e. e ≡ FrameFault.Io → R.sound reader.old ≡ false) }
    ensures stays { R.sound reader.new ≡ R.sound reader.old }
{
    read_next_into(reader, Vec::new(alloc))
}

/// The next datagram, as [`read_next`] answers it, in the room of a vector whose bytes are no
/// longer wanted: that of the datagram before. More is asked for only where this one is longer.
pub fn read_next_into<R: Read>(reader: &mut R, room: Vec<u8>) -> Result<Option<Vec<u8>>, FrameFault>
    // Just its frame is consumed.
    ensures some { IfOk result (λ o. IfSome o (λ d.
        Consumes (R.remaining reader.old) (R.remaining reader.new) (frame d.items))) }
    ensures short { IfOk result (λ o. IfSome o (λ d. length d.items ≤ most_bytes)) }
    ensures none { IfOk result (λ o.
        o ≡ None → IsAtEnd (R.remaining reader.old) × IsAtEnd (R.remaining reader.new)) }
    ensures nothing { IfOk result (λ o.
        o ≡ None → Consumes (R.remaining reader.old) (R.remaining reader.new) []) }
    ensures fault { IfErr result (λ e.
        IsReadFault e (R.remaining reader.old) (R.remaining reader.new) (R.failed reader.new)) }
    ensures falls { IfOk result (λ o. IfSome o (λ d. R.left reader.new < R.left reader.old)) }
    ensures unsound { IfErr result (λ e. e ≡ FrameFault.Io → R.sound reader.old ≡ false) }
    ensures stays { R.sound reader.new ≡ R.sound reader.old }
{
    let Some(length) = read_length(reader)? else {
        return Ok(None);
    };
    let mut datagram = room;
    let Ok(()) = datagram.resize(length, 0) else {
        return Err(FrameFault::NoMemory);
    };
    let Ok(got) = fill(reader, datagram.as_mut_slice()) else {
        return Err(FrameFault::Io);
    };
    if got < length {
        return Err(FrameFault::CutDatagram);
    }
    Ok(Some(datagram))
}

/// Writes a datagram's frame. `Io` comes only where the writer has failed, and never where it has
/// room for the frame. It has a beginning of it then.
pub fn write_one<W: Write>(writer: &mut W, datagram: &[u8]) -> Result<(), FrameFault>
    requires { length datagram.now ≤ most_bytes }
    ensures ok { OnOk result
        (Appends (W.contents writer.old) (W.contents writer.new) (frame datagram.now)) }
    ensures err { OnErr result
        (AppendsSome (W.contents writer.old) (W.contents writer.new) (frame datagram.now)) }
    ensures io { IfErr result (λ e. (e ≡ FrameFault.Io) × (W.failed writer.new ≡ true)) }
    ensures full { OnErr result (W.room writer.old < length (frame datagram.now)) }
    ensures fills { OnOk result
        (W.room writer.old ≤ W.room writer.new + length (frame datagram.now)) }
{
    let mut head = [0u8; 2];
    BigEndian::write_u16(&mut head, datagram.len() as u16);
    let Ok(()) = write_all(writer, &head) else {
        return Err(FrameFault::Io);
    };
    let Ok(()) = write_all(writer, datagram) else {
        return Err(FrameFault::Io);
    };
    Ok(())
}
