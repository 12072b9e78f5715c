//! The datagrams of a session's bytes, as views of them.
ghost use Rattle.std.specs.Prelude.{◌≡◌, ◌≤◌, ◌++◌, false, Some, map, length, IfOk, IfErr};
ghost use Rattle.session.specs.Frames.{frame, most_bytes, IsNoFrame, IsFramed, AreDatagrams};
ghost use Rattle.session.specs.Frames.{IsSessionFault};

use byteorder::{BigEndian, ByteOrder};
use lists::are_bytes;
use session::{FrameFault, MOST_BYTES};
use std::alloc::Global;

/// The datagram whose frame stands in front of bytes, and what stands behind it.
#[derive(Clone, Copy)]
struct Front<'a> {
    datagram: &'a [u8],
    left: &'a [u8],
}

// Cuts the first frame off.
fn cut(bytes: &[u8]) -> Result<Front<'_>, FrameFault>
    requires { 1 ≤ length bytes.now }
    ensures whole { IfOk result (λ c. bytes.now ≡ frame c.datagram.now ++ c.left.now) }
    ensures short { IfOk result (λ c. length c.datagram.now ≤ most_bytes) }
    ensures fault { IfErr result (λ e. IsNoFrame e bytes.now) }
{
    if bytes.len() < 2 {
        return Err(FrameFault::CutLength);
    }
    let size = usize::from(BigEndian::read_u16(bytes));
    if size > MOST_BYTES {
        return Err(FrameFault::TooLong);
    }
    let (_high, _low) = (bytes[0], bytes[1]);
    let behind = &bytes[2..];
    if behind.len() < size {
        return Err(FrameFault::CutDatagram);
    }
    let (datagram, left) = behind.split_at(size);
    Ok(Front { datagram, left })
}

/// The datagrams whose frames the bytes are, in order. `CutLength`, `CutDatagram` and `TooLong`
/// tell what follows whole frames, `NoMemory` that there is none for the list.
pub(crate) fn datagrams_of(alloc: Global, bytes: &[u8]) -> Result<Vec<&[u8]>, FrameFault>
    ensures framed { IfOk result (λ views. IsFramed (map (λ v. v.now) views.items) bytes.now) }
    ensures each { IfOk result (λ views. AreDatagrams (map (λ v. v.now) views.items)) }
    ensures fault { IfErr result (λ e. IsSessionFault e (Some bytes.now) false) }
{
    let mut datagrams = Vec::new(alloc);
    let mut left = bytes;
    while !left.is_empty() {
        let front = cut(left)?;
        are_bytes(front.datagram);
        let Ok(()) = datagrams.push(front.datagram) else {
            return Err(FrameFault::NoMemory);
        };
        left = front.left;
    }
    Ok(datagrams)
}
