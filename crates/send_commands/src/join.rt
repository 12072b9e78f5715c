//! The command `join`.
ghost use Rattle.std.specs.Prelude.{◌≡◌, ◌<◌, ◌⊎◌, ◌∷◌, ℕ, map, length, false, Some, None, Ok};
ghost use Rattle.std.specs.Prelude.{Err, IfOk, IfErr};
ghost use Rattle.request.specs.declared.requests.Request.TheVariants.{Join};
ghost use Rattle.host.specs.World.{GivesFile};
ghost use Rattle.streams.specs.Changes.{writer_change};
ghost use Rattle.session.specs.Joining.{IsJoined, IsUnjoined};
ghost use Rattle.send_commands.specs.Copying.{IsCutShort};
ghost use Rattle.commands.specs.Doing.{HasMade, HasStopped};
ghost use Rattle.commands.specs.Inputs.{ASession, IsFirstUnread};
ghost use Rattle.commands.specs.declared.fault.Fault.{Fault as FaultValue};
ghost use Rattle.send_commands.specs.Opening.{AreAppended, AreOpened, IsAppended, IsUnappended};
ghost use Rattle.send_commands.specs.Opening.{IsUnappendedOne, sessions};

use commands::{Done, Fault, Unwritten, commit, open};
use host::Host;
use request::JoinRequest;
use session::{FrameFault, Read, Write, join_frames};
use std::alloc::Global;

/// Files that were opened in their order, and why the next one wasn't, if there is one.
#[derive(Drop)]
struct OpenedFiles<'a, I: Drop> {
    inputs: Vec<I>,
    unopened: Option<Fault<'a>>,
}

/// Writes the joined sessions, frame by frame. In turns all are open at once. Else each is read to
/// its end before the next is opened, so that more can be joined than may be open at once. The
/// first is open before the output is asked for.
pub fn join<'a, H: Host>(
    alloc: Global,
    host: &mut H,
    request: &JoinRequest<'a>,
) -> Result<Done, Fault<'a>>
    ensures ok { IfOk result
        (HasMade (H.world host.old) (H.world host.new) (Join request.now)) }
    ensures fault { IfErr result
        (HasStopped (H.world host.old) (H.world host.new) (Join request.now)) }
{
    match request.sessions.as_slice().split_first() {
        Some((first, others)) if !request.turns => {
            join_in_order(alloc, host, request, *first, others)
        }
        _ => join_at_once(alloc, host, request),
    }
}

// One session after the other.
fn join_in_order<'a, H: Host>(
    alloc: Global,
    host: &mut H,
    request: &JoinRequest<'a>,
    first: &'a str,
    others: &[&'a str],
) -> Result<Done, Fault<'a>>
    requires sessions { request.now.sessions.items ≡ first ∷ others.now }
    requires order { request.now.turns ≡ false }
    ensures ok { IfOk result
        (HasMade (H.world host.old) (H.world host.new) (Join request.now)) }
    ensures fault { IfErr result
        (HasStopped (H.world host.old) (H.world host.new) (Join request.now)) }
{
    let input = open(host, first)?;
    let mut file = host.create_file(request.output.name, request.output.no_clobber)?;
    let joined = append_each(alloc, host, first, input, others, &mut file);
    let failure = Fault::Frame(FrameFault::Io);
    let count = commit(host, &request.output, file, joined, failure)?;
    Ok(Done::counted("joined", count, " datagrams"))
}

// Copies the session of this name, which was opened, and then the others. Answers how many
// datagrams there are.
fn append_each<'a, H: Host, W: Write>(
    alloc: Global,
    host: &H,
    first: &'a str,
    input: H::Input,
    others: &[&'a str],
    writer: &mut W,
) -> Result<u64, Unwritten<'a>>
    requires { GivesFile (H.world host.now) first.now
        (H.Input.remaining input) (H.Input.sound input) }
    ensures appended { IfOk result (AreAppended (H.world host.now).files
        (ASession first.now ∷ sessions others.now)
        (W.contents writer.old) (W.contents writer.new)) }
    ensures fault { IfErr result
        (IsUnappended (H.world host.now) (ASession first.now ∷ sessions others.now)) }
{
    let mut count = append_one(alloc, input, writer)?;
    for name in others {
        let input = match open(host, *name) {
            Ok(input) => input,
            Err(fault) => return Err(Unwritten::Fault(fault)),
        };
        let more = append_one(alloc, input, writer)?;
        let Some(sum) = count.checked_add(more) else {
            return Err(Unwritten::Fault(Fault::Memory));
        };
        count = sum;
    }
    Ok(count)
}

// Copies one session to its end. Answers how many datagrams it has.
fn append_one<'a, R: Read + Drop, W: Write>(
    alloc: Global,
    reader: R,
    writer: &mut W,
) -> Result<u64, Unwritten<'a>>
    ensures appended { IfOk result (IsAppended (R.remaining reader)
        (W.contents writer.old) (W.contents writer.new)) }
    ensures fault { IfErr result (IsUnappendedOne (R.remaining reader)) }
{
    let mut readers = Vec::new(alloc);
    let Ok(()) = readers.push(reader) else {
        return Err(Unwritten::Fault(Fault::Memory));
    };
    join_all(alloc, readers.as_mut_slice(), false, writer)
}

// All sessions at once. Where one can't be opened, those before it are read to their ends, as what
// is wrong in one of them comes first.
fn join_at_once<'a, H: Host>(
    alloc: Global,
    host: &mut H,
    request: &JoinRequest<'a>,
) -> Result<Done, Fault<'a>>
    ensures ok { IfOk result
        (HasMade (H.world host.old) (H.world host.new) (Join request.now)) }
    ensures fault { IfErr result
        (HasStopped (H.world host.old) (H.world host.new) (Join request.now)) }
{
    let OpenedFiles {
        mut inputs,
        unopened,
    } = open_all(alloc, host, request.sessions.as_slice())?;
    let mut file = host.create_file(request.output.name, request.output.no_clobber)?;
    let joined = join_all(alloc, inputs.as_mut_slice(), request.turns, &mut file);
    let joined = unless_unopened(joined, unopened);
    let failure = Fault::Frame(FrameFault::Io);
    let count = commit(host, &request.output, file, joined, failure)?;
    Ok(Done::counted("joined", count, " datagrams"))
}

// What came of the files that were opened, if there was no other.
fn unless_unopened<'a>(
    joined: Result<u64, Unwritten<'a>>,
    unopened: Option<Fault<'a>>,
) -> Result<u64, Unwritten<'a>>
    ensures ok { IfOk result (λ n. (joined.entry ≡ Ok n) × (unopened.entry ≡ None)) }
    ensures fault { IfErr result (λ e. (joined.entry ≡ Err e)
        ⊎ ((n : ℕ) × (fault : FaultValue) × (joined.entry ≡ Ok n)
        × (unopened.entry ≡ Some fault) × (e ≡ Unwritten.Fault fault))) }
{
    let count = joined?;
    match unopened {
        Some(fault) => Err(Unwritten::Fault(fault)),
        None => Ok(count),
    }
}

// Answers how many datagrams there are.
fn join_all<'a, R: Read, W: Write>(
    alloc: Global,
    readers: &mut [R],
    turns: bool,
    writer: &mut W,
) -> Result<u64, Unwritten<'a>>
    ensures joined { IfOk result (IsJoined turns
        (map R.remaining readers.old) (map R.remaining readers.new)
        (W.contents writer.old) (W.contents writer.new)) }
    ensures fault { IfErr result (IsCutShort (λ fault. IsUnjoined turns fault
        (map R.remaining readers.old) (map R.sound readers.old) (map R.failed readers.new)
        (writer_change W.Write writer.old writer.new))) }
{
    match join_frames(alloc, readers, turns, writer) {
        Ok(count) => Ok(count as u64),
        Err(FrameFault::Io) => Err(Unwritten::Writing),
        Err(FrameFault::NoMemory) => Err(Unwritten::Fault(Fault::Memory)),
        Err(fault) => Err(Unwritten::Fault(Fault::Frame(fault))),
    }
}

// Files to be read, opened in this order, each by itself, up to one that can't be; a fault where
// that is the first.
fn open_all<'a, H: Host>(
    alloc: Global,
    host: &H,
    names: &[&'a str],
) -> Result<OpenedFiles<'a, H::Input>, Fault<'a>>
    ensures opened { IfOk result (λ files. AreOpened (H.world host.now) names.now
        (map H.Input.remaining files.inputs.items) files.unopened) }
    ensures fault { IfErr result (IsFirstUnread (H.world host.now) (sessions names.now)) }
{
    let mut inputs = Vec::new(alloc);
    for name in names {
        let input = match open(host, *name) {
            Ok(input) => input,
            Err(fault) => return up_to(inputs, fault),
        };
        let Ok(()) = inputs.push(input) else {
            return up_to(inputs, Fault::Memory);
        };
    }
    Ok(OpenedFiles {
        inputs,
        unopened: None,
    })
}

// The files before one that isn't opened, if there are some.
fn up_to<'a, I: Drop>(inputs: Vec<I>, fault: Fault<'a>) -> Result<OpenedFiles<'a, I>, Fault<'a>>
    ensures ok { IfOk result (λ files. (files.inputs ≡ inputs)
        × (files.unopened ≡ Some fault.entry) × (0 < length inputs.items)) }
    ensures fault { IfErr result (λ e. (e ≡ fault.entry) × (length inputs.items ≡ 0)) }
{
    if inputs.is_empty() {
        return Err(fault);
    }
    Ok(OpenedFiles {
        inputs,
        unopened: Some(fault),
    })
}
