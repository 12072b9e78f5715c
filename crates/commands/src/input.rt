//! Input files.
ghost use Rattle.std.specs.Prelude.{◌≡◌, ◌<◌, ◌≤◌, [], None, false, length, IfOk, IfErr, IfSome};
ghost use Rattle.std.specs.Io.KnownBytes.{Consumes, IsAtEnd};
ghost use Rattle.session.specs.Frames.{frame, most_bytes};
ghost use Rattle.host.specs.World.{GivesFile};
ghost use Rattle.commands.specs.Inputs.{AnObject, ACertificate, APlaces, Bytes, Polynomials};
ghost use Rattle.commands.specs.Inputs.{Places, HasValue, IsUnopened, IsUnread};
ghost use Rattle.commands.specs.ReadingInputs.{HasChanged, IsFrameUnread, IsRestUnread};
ghost use Rattle.commands.specs.declared.fault.Fault.TheVariants.{Frame};

use crate::fault::Fault;
use certificate::Certificate;
use host::{FileFault, Host};
use request::{PlaceFault, place_ranges};
use session::{FrameFault, PlaceRange, Read, ReadFault, read_next, read_to_end};
use std::alloc::Global;

/// A file to be read.
pub fn open<'a, H: Host>(host: &H, name: &'a str) -> Result<H::Input, Fault<'a>>
    ensures input { IfOk result (λ file. GivesFile (H.world host.now) name.now
        (H.Input.remaining file) (H.Input.sound file)) }
    ensures content { IfOk result (λ file. GivesFile (H.world host.now) name.now
        (H.Input.content file) (H.Input.reliable file)) }
    ensures fault { IfErr result (IsUnopened (H.world host.now) name.now) }
{
    match host.open_file(name) {
        Ok(input) => Ok(input),
        Err(FileFault::Io) => Err(Fault::Open(name)),
        Err(FileFault::NoMemory) => Err(Fault::Memory),
    }
}

/// Fails where the file that was opened under this name isn't as it was then.
pub fn see_unchanged<'a, H: Host>(
    host: &H,
    name: &'a str,
    input: &H::Input,
) -> Result<(), Fault<'a>>
    ensures { IfErr result (HasChanged (H.Input.reliable input.now) name.now) }
{
    if host.is_unchanged(input) {
        Ok(())
    } else {
        Err(Fault::File(name))
    }
}

/// The next datagram of a session, or `None` at the end.
pub fn next_datagram<'a, R: Read>(
    alloc: Global,
    frames: &mut R,
) -> Result<Option<Vec<u8>>, Fault<'a>>
    ensures some { IfOk result (λ o. IfSome o (λ d.
        Consumes (R.remaining frames.old) (R.remaining frames.new) (frame d.items))) }
    ensures short { IfOk result (λ o. IfSome o (λ d. length d.items ≤ most_bytes)) }
    ensures none { IfOk result (λ o.
        o ≡ None → IsAtEnd (R.remaining frames.old) × IsAtEnd (R.remaining frames.new)) }
    ensures nothing { IfOk result (λ o.
        o ≡ None → Consumes (R.remaining frames.old) (R.remaining frames.new) []) }
    ensures fault { IfErr result (IsFrameUnread (R.remaining frames.old)
        (R.remaining frames.new) (R.failed frames.new)) }
    ensures unsound { IfErr result (λ fault.
        fault ≡ Frame FrameFault.Io → R.sound frames.old ≡ false) }
    ensures falls { IfOk result (λ o. IfSome o (λ d. R.left frames.new < R.left frames.old)) }
    ensures stays { R.sound frames.new ≡ R.sound frames.old }
{
    match read_next(alloc, frames) {
        Ok(datagram) => Ok(datagram),
        Err(FrameFault::NoMemory) => Err(Fault::Memory),
        Err(fault) => Err(Fault::Frame(fault)),
    }
}

/// The certificate in a file.
pub fn read_certificate<'a, H: Host>(
    alloc: Global,
    host: &H,
    name: &'a str,
) -> Result<Certificate, Fault<'a>>
    ensures ok { IfOk result (λ z.
        HasValue (H.world host.now).files (ACertificate name.now) (Polynomials z)) }
    ensures fault { IfErr result (IsUnread (H.world host.now) (ACertificate name.now)) }
{
    let mut input = open(host, name)?;
    certificate_in(alloc, host, name, &mut input)
}

// The certificate that an input gives, which was opened under this name.
fn certificate_in<'a, H: Host>(
    alloc: Global,
    host: &H,
    name: &'a str,
    input: &mut H::Input,
) -> Result<Certificate, Fault<'a>>
    requires { GivesFile (H.world host.now) name.now
        (H.Input.remaining input.old) (H.Input.sound input.old) }
    ensures ok { IfOk result (λ z.
        HasValue (H.world host.now).files (ACertificate name.now) (Polynomials z)) }
    ensures fault { IfErr result (IsUnread (H.world host.now) (ACertificate name.now)) }
{
    Ok(Certificate::read(alloc, input)?)
}

/// The bytes of a file.
pub fn read_object<'a, H: Host>(
    alloc: Global,
    host: &H,
    name: &'a str,
) -> Result<Vec<u8>, Fault<'a>>
    ensures ok { IfOk result (λ v.
        HasValue (H.world host.now).files (AnObject name.now) (Bytes v.items)) }
    ensures fault { IfErr result (IsUnread (H.world host.now) (AnObject name.now)) }
{
    let mut input = open(host, name)?;
    object_in(alloc, host, name, &mut input)
}

// The bytes that an input gives, which was opened under this name.
fn object_in<'a, H: Host>(
    alloc: Global,
    host: &H,
    name: &'a str,
    input: &mut H::Input,
) -> Result<Vec<u8>, Fault<'a>>
    requires { GivesFile (H.world host.now) name.now
        (H.Input.remaining input.old) (H.Input.sound input.old) }
    ensures ok { IfOk result (λ v.
        HasValue (H.world host.now).files (AnObject name.now) (Bytes v.items)) }
    ensures fault { IfErr result (IsUnread (H.world host.now) (AnObject name.now)) }
{
    read_rest(alloc, input, name)
}

/// The places in a file.
pub fn read_places<'a, H: Host>(
    alloc: Global,
    host: &H,
    name: &'a str,
) -> Result<Vec<PlaceRange>, Fault<'a>>
    ensures ok { IfOk result (λ ranges.
        HasValue (H.world host.now).files (APlaces name.now) (Places ranges.items)) }
    ensures fault { IfErr result (IsUnread (H.world host.now) (APlaces name.now)) }
{
    let text = read_object(alloc, host, name)?;
    match place_ranges(alloc, text.as_slice()) {
        Ok(ranges) => Ok(ranges),
        Err(PlaceFault::NoPlace(word)) => Err(Fault::NoPlace(word)),
        Err(PlaceFault::NoMemory) => Err(Fault::Memory),
    }
}

/// All bytes that the input of this name has left.
pub fn read_rest<'a, R: Read>(
    alloc: Global,
    input: &mut R,
    name: &'a str,
) -> Result<Vec<u8>, Fault<'a>>
    ensures ok { IfOk result (λ v. IfSome (R.remaining input.old) (λ left. left ≡ v.items)) }
    ensures fault { IfErr result (IsRestUnread (R.sound input.old) name.now) }
{
    match read_to_end(alloc, input) {
        Ok(bytes) => Ok(bytes),
        Err(ReadFault::Io) => Err(Fault::File(name)),
        Err(ReadFault::NoMemory) => Err(Fault::Memory),
    }
}
