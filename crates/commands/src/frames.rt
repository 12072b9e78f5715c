//! The frames of a session file.
ghost use Rattle.std.specs.Prelude.{IfErr, OnOk};
ghost use Rattle.session.specs.Extents.{AreFrames};
ghost use Rattle.commands.specs.ReadingInputs.{IsUnframed};

use crate::fault::Fault;
use lists::are_bytes;
use session::{FrameFault, Read, read_next_into};
use std::alloc::Global;
use streams::{Cursor, ReadAt};

/// Goes over the frames of a session that is read at offsets, to its end. Nothing is held.
pub fn pass_frames<'a, F: ReadAt>(alloc: Global, file: &F) -> Result<(), Fault<'a>>
    ensures framed { OnOk result (AreFrames (F.content file.now)) }
    ensures fault { IfErr result (IsUnframed (F.content file.now) (F.reliable file.now)) }
{
    let mut frames = Cursor::new(file);
    pass_rest(alloc, &mut frames)
}

// Goes over the frames that a reader has left, one datagram in the room of the one before.
fn pass_rest<'a, R: Read>(alloc: Global, frames: &mut R) -> Result<(), Fault<'a>>
    ensures framed { OnOk result (AreFrames (R.remaining frames.old)) }
    ensures fault { IfErr result (IsUnframed (R.remaining frames.old) (R.sound frames.old)) }
{
    let mut room = Vec::new(alloc);
    loop {
        let datagram = match read_next_into(frames, room) {
            Ok(Some(datagram)) => datagram,
            Ok(None) => return Ok(()),
            Err(FrameFault::NoMemory) => return Err(Fault::Memory),
            Err(fault) => return Err(Fault::Frame(fault)),
        };
        are_bytes(datagram.as_slice());
        room = datagram;
    }
}
