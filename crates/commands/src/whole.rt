//! Inputs that are read at offsets, wherever they come from.
ghost use Rattle.std.specs.Prelude.{◌≡◌, false, IfOk, IfErr, IfSome};
ghost use Rattle.session.specs.Frames.{IsSessionFault};
ghost use Rattle.host.specs.World.{GivesFile};
ghost use Rattle.commands.specs.Inputs.{AnObject, ASession, IsUnread};
ghost use Rattle.commands.specs.ReadingInputs.{HasChanged};
ghost use Rattle.commands.specs.Wholes.{content_of, reliable_of};

use crate::fault::Fault;
use crate::input::{open, read_rest, see_unchanged};
use host::Host;
use lists::are_bytes;
use session::{Failed, FrameFault, Read, read_next_into, write_one};
use std::alloc::Global;
use streams::{ReadAt, Sink, copy_at};

/// A file, or the bytes that a pipe or a device gave, held.
#[derive(Drop)]
pub enum Whole<I: Drop> {
    File(I),
    Held(Vec<u8>),
}

impl<I: ReadAt + Drop> ReadAt for Whole<I> {
    ghost content = { λ whole. content_of I.content whole };

    ghost reliable = { λ whole. reliable_of I.reliable whole };

    fn read_at(&self, offset: u64, buf: &mut [u8]) -> Result<usize, Failed> {
        match self {
            Whole::File(file) => file.read_at(offset, buf),
            Whole::Held(bytes) => {
                let bytes = bytes.as_slice();
                are_bytes(bytes);
                Ok(copy_at(bytes, offset, usize::MAX, buf))
            }
        }
    }
}

/// Opens what is read at offsets. A pipe or a device, which has no length, is read to its end.
pub fn open_whole<'a, H: Host>(
    alloc: Global,
    host: &H,
    name: &'a str,
) -> Result<Whole<H::Input>, Fault<'a>>
    ensures content { IfOk result (λ whole. GivesFile (H.world host.now) name.now
        (content_of H.Input.content whole) (reliable_of H.Input.reliable whole)) }
    ensures fault { IfErr result (IsUnread (H.world host.now) (AnObject name.now)) }
{
    let mut input = open(host, name)?;
    if host.length_of(&input).is_some() {
        return Ok(Whole::File(input));
    }
    Ok(Whole::Held(read_rest(alloc, &mut input, name)?))
}

/// The same of a session: of a pipe or a device its frames are read, no further than the first
/// fault.
pub fn open_session<'a, H: Host>(
    alloc: Global,
    host: &H,
    name: &'a str,
) -> Result<Whole<H::Input>, Fault<'a>>
    ensures content { IfOk result (λ whole. GivesFile (H.world host.now) name.now
        (content_of H.Input.content whole) (reliable_of H.Input.reliable whole)) }
    ensures fault { IfErr result (IsUnread (H.world host.now) (ASession name.now)) }
{
    let mut input = open(host, name)?;
    if host.length_of(&input).is_some() {
        return Ok(Whole::File(input));
    }
    Ok(Whole::Held(read_frames(alloc, &mut input)?))
}

// All frames that a reader has left, one behind the other.
fn read_frames<R: Read>(alloc: Global, reader: &mut R) -> Result<Vec<u8>, FrameFault>
    ensures all { IfOk result (λ bytes.
        IfSome (R.remaining reader.old) (λ left. left ≡ bytes.items)) }
    ensures fault { IfErr result (λ e.
        IsSessionFault e (R.remaining reader.old) (R.failed reader.new)) }
    ensures unsound { IfErr result (λ e.
        e ≡ FrameFault.Io → R.sound reader.old ≡ false) }
{
    let mut frames = Sink::new(alloc);
    let mut room = Vec::new(alloc);
    loop {
        let Some(datagram) = read_next_into(reader, room)? else {
            return Ok(frames.into_bytes());
        };
        let Ok(()) = write_one(&mut frames, datagram.as_slice()) else {
            return Err(FrameFault::NoMemory);
        };
        room = datagram;
    }
}

/// Fails if what was opened under this name isn't as it was then.
pub fn see_whole<'a, H: Host>(
    host: &H,
    name: &'a str,
    whole: &Whole<H::Input>,
) -> Result<(), Fault<'a>>
    ensures { IfErr result (HasChanged (reliable_of H.Input.reliable whole.now) name.now) }
{
    match whole {
        Whole::File(file) => see_unchanged(host, name, file),
        Whole::Held(_) => Ok(()),
    }
}
