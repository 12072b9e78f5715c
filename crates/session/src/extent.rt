//! Where datagrams stand in a session file.
ghost use Rattle.std.specs.Prelude.{◌≡◌, ◌≤◌, ◌+◌, IfOk, IfErr};
ghost use Rattle.session.specs.Frames.{most_bytes};

use crate::frame::FrameFault;

/// Where a datagram stands in a file: how many bytes before it, and how many of its own.
#[derive(Clone, Copy)]
pub struct Extent {
    pub offset: u64,
    pub length: u16,
}

/// How far a pass over frames has come: how many bytes, and how many datagrams.
#[derive(Clone, Copy)]
pub struct Position {
    pub offset: u64,
    pub place: usize,
}

impl Position {
    /// Where a pass begins.
    pub fn new() -> Position
        ensures offset { result.offset ≡ 0 }
        ensures place { result.place ≡ 0 }
    {
        Position {
            offset: 0,
            place: 0,
        }
    }

    /// Where the next datagram stands, and how far the pass has come behind it. There is no more
    /// memory than these numbers can count, and a file isn't longer either.
    pub fn pass(self, length: usize) -> Result<(Extent, Position), FrameFault>
        requires { length ≤ most_bytes }
        ensures offset { IfOk result (λ r. r.0.offset ≡ self.offset + 2) }
        ensures length { IfOk result (λ r. r.0.length ≡ length) }
        ensures behind { IfOk result (λ r. r.1.offset ≡ self.offset + 2 + length) }
        ensures more { IfOk result (λ r. r.1.place ≡ self.place + 1) }
        ensures fault { IfErr result (λ e. e ≡ FrameFault.NoMemory) }
    {
        let Some(begin) = self.offset.checked_add(2) else {
            return Err(FrameFault::NoMemory);
        };
        let Some(offset) = begin.checked_add(length as u64) else {
            return Err(FrameFault::NoMemory);
        };
        let Some(place) = self.place.checked_add(1) else {
            return Err(FrameFault::NoMemory);
        };
        let here = Extent {
            offset: begin,
            length: length as u16,
        };
        Ok((here, Position { offset, place }))
    }
}
