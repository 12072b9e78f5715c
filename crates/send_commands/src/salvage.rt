//! The command `salvage`.
ghost use Rattle.std.specs.Prelude.{◌≡◌, ◌≤◌, IfOk, IfErr};
ghost use Rattle.request.specs.declared.requests.Request.TheVariants.{Salvage};
ghost use Rattle.commands.specs.Doing.{HasMade, HasStopped};
ghost use Rattle.send_commands.specs.Salvaging.{HasSalvaged, IsBroken, IsUncopied, IsUnreadFor};

use commands::{Done, Fault, Told, Unwritten, Why, commit, open};
use host::Host;
use request::SalvageRequest;
use session::{FrameFault, Read, Write, read_next, write_one};
use std::alloc::Global;

/// How many frames were copied, or why they weren't; the status, 0 where nothing follows them; and
/// what does.
struct Salvaged<'a> {
    written: Result<u64, Unwritten<'a>>,
    status: u8,
    why: Why,
    ghost small: { status ≤ 1 },
}

/// Writes the frames that the session begins with. One datagram at a time is held.
pub fn salvage<'a, H: Host>(
    alloc: Global,
    host: &mut H,
    request: &SalvageRequest<'a>,
) -> Result<Done, Fault<'a>>
    ensures ok { IfOk result
        (HasMade (H.world host.old) (H.world host.new) (Salvage request.now)) }
    ensures fault { IfErr result
        (HasStopped (H.world host.old) (H.world host.new) (Salvage request.now)) }
{
    let mut input = open(host, request.session)?;
    let mut file = host.create_file(request.output.name, request.output.no_clobber)?;
    let Salvaged {
        written,
        status,
        why,
    } = copy_front(alloc, &mut input, &mut file);
    let failure = Fault::Frame(FrameFault::Io);
    let count = commit(host, &request.output, file, written, failure)?;
    Ok(Done {
        told: Told::Count("kept", count, " datagrams"),
        status,
        why,
    })
}

// Copies the frames that a reader has left, up to its end or to what is no frame.
fn copy_front<'a, R: Read, W: Write>(alloc: Global, reader: &mut R, writer: &mut W) -> Salvaged<'a>
    ensures salvaged { IfOk result.written (HasSalvaged (R.remaining reader.old)
        (W.contents writer.old) (W.contents writer.new) result.status) }
    ensures fault { IfErr result.written
        (IsUncopied (R.sound reader.old) (W.failed writer.new)) }
{
    let mut count = 0u64;
    loop {
        let datagram = match read_next(alloc, reader) {
            Ok(Some(datagram)) => datagram,
            Ok(None) => {
                return Salvaged {
                    written: Ok(count),
                    status: 0,
                    why: Why::Plain,
                };
            }
            Err(fault) => return stopped(count, fault),
        };
        let Some(more) = count.checked_add(1) else {
            return stopped(count, FrameFault::NoMemory);
        };
        let Ok(()) = write_one(writer, datagram.as_slice()) else {
            return Salvaged {
                written: Err(Unwritten::Writing),
                status: 1,
                why: Why::Plain,
            };
        };
        count = more;
    }
}

// What comes of so many frames, where no more was read for this fault.
fn stopped<'a>(count: u64, fault: FrameFault) -> Salvaged<'a>
    ensures count { IfOk result.written (λ n. (n ≡ count) × IsBroken fault) }
    ensures fault { IfErr result.written (IsUnreadFor fault) }
    ensures status { result.status ≡ 1 }
{
    let written = match fault {
        FrameFault::Io => Err(Unwritten::Fault(Fault::Frame(FrameFault::Io))),
        FrameFault::NoMemory => Err(Unwritten::Fault(Fault::Memory)),
        _ => Ok(count),
    };
    Salvaged {
        written,
        status: 1,
        why: Why::Cut(fault),
    }
}
