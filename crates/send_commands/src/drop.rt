//! The command `drop`.
ghost use Rattle.std.specs.Prelude.{IfOk, IfErr};
ghost use Rattle.request.specs.declared.requests.Request.TheVariants.{Drop};
ghost use Rattle.streams.specs.Changes.{reader_change};
ghost use Rattle.session.specs.Thinning.{IsThinned, IsUnthinned};
ghost use Rattle.commands.specs.Doing.{HasMade, HasStopped};
ghost use Rattle.send_commands.specs.Copying.{IsCutShort};
ghost use Rattle.send_commands.specs.Dropping.{AreAll, IsUnplaced};

use commands::{Done, Fault, Unwritten, commit, open, read_places};
use host::Host;
use request::DropRequest;
use session::{FrameFault, PlaceRange, Read, Write, thin_frames};
use std::alloc::Global;

/// Writes the session without some places. One datagram at a time is held. The session is open and
/// the places are read before the output is created.
pub fn drop_places<'a, H: Host>(
    alloc: Global,
    host: &mut H,
    request: &DropRequest<'a>,
) -> Result<Done, Fault<'a>>
    ensures ok { IfOk result
        (HasMade (H.world host.old) (H.world host.new) (Drop request.now)) }
    ensures fault { IfErr result
        (HasStopped (H.world host.old) (H.world host.new) (Drop request.now)) }
{
    let mut input = open(host, request.session)?;
    let ranges = all_ranges(alloc, host, request)?;
    let mut file = host.create_file(request.output.name, request.output.no_clobber)?;
    let thinned = thin_out(alloc, &mut input, ranges.as_slice(), &mut file);
    let failure = Fault::Frame(FrameFault::Io);
    let count = commit(host, &request.output, file, thinned, failure)?;
    Ok(Done::counted("kept", count, " datagrams"))
}

// The places of the command line, and behind them those of the file.
fn all_ranges<'a, H: Host>(
    alloc: Global,
    host: &H,
    request: &DropRequest<'a>,
) -> Result<Vec<PlaceRange>, Fault<'a>>
    ensures ok { IfOk result (λ all. AreAll (H.world host.now).files
        request.now.places_file request.now.places.items all.items) }
    ensures fault { IfErr result (IsUnplaced (H.world host.now) request.now.places_file) }
{
    let mut ranges = Vec::from_slice(alloc, request.places.as_slice())?;
    match request.places_file {
        Some(name) => {
            let more = read_places(alloc, host, name)?;
            ranges.extend_from_slice(more.as_slice())?;
        }
        None => {}
    }
    Ok(ranges)
}

// Answers how many datagrams are left.
fn thin_out<'a, R: Read, W: Write>(
    alloc: Global,
    reader: &mut R,
    ranges: &[PlaceRange],
    writer: &mut W,
) -> Result<u64, Unwritten<'a>>
    ensures thinned { IfOk result (IsThinned ranges.now
        (R.remaining reader.old) (R.remaining reader.new)
        (W.contents writer.old) (W.contents writer.new)) }
    ensures fault { IfErr result (IsCutShort (λ fault. IsUnthinned fault ranges.now
        (reader_change R.Read reader.old reader.new) (W.room writer.old) (W.failed writer.new))) }
{
    match thin_frames(alloc, reader, ranges, writer) {
        Ok(count) => Ok(count as u64),
        Err(FrameFault::Io) => Err(Unwritten::Writing),
        Err(FrameFault::NoMemory) => Err(Unwritten::Fault(Fault::Memory)),
        Err(fault) => Err(Unwritten::Fault(Fault::Frame(fault))),
    }
}
