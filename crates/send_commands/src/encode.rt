//! The command `encode`.
ghost use Rattle.std.specs.Prelude.{◌≡◌, true, codes, length, IfOk, IfErr};
ghost use Rattle.request.specs.declared.requests.Request.TheVariants.{Encode};
ghost use Rattle.host.specs.World.{GivesFile, LeavesBytes};
ghost use Rattle.commands.specs.Commands.{sized};
ghost use Rattle.commands.specs.Doing.{HasMade, HasStopped, text_of};
ghost use Rattle.commands.specs.Lines.{count_line};
ghost use Rattle.encoder.specs.ObjectRead.{ReadsObject};
ghost use Rattle.send_commands.specs.Sending.{WritesSession, IsUnsent, IsUnsentFrom, where_empty};

use commands::{Done, Fault, Told, Unwritten, Why, commit, fti_of, open, read_rest};
use encoder::{SendFault, SendFromFault};
use host::Host;
use lists::are_bytes;
use partition::{Fti, Order};
use request::{EncodeRequest, Sending};
use session::{Pieces, Read, Write};
use std::alloc::Global;
use streams::WriteAt;

/// Writes the object's session. An object whose length is known beforehand is read block by block,
/// where its session is written so, or to places.
pub fn encode<'a, H: Host>(
    alloc: Global,
    host: &mut H,
    request: &EncodeRequest<'a>,
) -> Result<Done, Fault<'a>>
    ensures ok { IfOk result
        (HasMade (H.world host.old) (H.world host.new) (Encode request.now)) }
    ensures fault { IfErr result
        (HasStopped (H.world host.old) (H.world host.new) (Encode request.now)) }
{
    let mut input = open(host, request.object)?;
    match host.length_of(&input) {
        Some(length) => {
            let fti = fti_of(&request.sending.sizes, length)?;
            encode_read(alloc, host, &mut input, &fti, request)
        }
        None => {
            let object = read_rest(alloc, &mut input, request.object)?;
            let fti = fti_of(&request.sending.sizes, object.len() as u64)?;
            let mut held = Pieces::new(object.as_slice(), usize::MAX);
            encode_read(alloc, host, &mut held, &fti, request)
        }
    }
}

// Writes the session of an object of this length that is read.
fn encode_read<'a, R: Read, H: Host>(
    alloc: Global,
    host: &mut H,
    input: &mut R,
    fti: &Fti,
    request: &EncodeRequest<'a>,
) -> Result<Done, Fault<'a>>
    requires opened { GivesFile (H.world host.old) request.now.object.now
        (R.remaining input.old) (R.sound input.old) }
    requires length { LeavesBytes (R.remaining input.old) fti.now.transfer_length }
    requires sizes { fti.now ≡ sized request.now.sending.sizes fti.now.transfer_length }
    ensures ok { IfOk result
        (HasMade (H.world host.old) (H.world host.new) (Encode request.now)) }
    ensures fault { IfErr result
        (HasStopped (H.world host.old) (H.world host.new) (Encode request.now)) }
{
    let mut file = host.create_file(request.output.name, request.output.no_clobber)?;
    let sent = send_read(alloc, input, fti, request, &mut file);
    let failure = Fault::Send(SendFault::Io);
    let count = commit(host, &request.output, file, sent, failure)?;
    Ok(sent_of(count, fti))
}

// So many datagrams were sent of an object with this FTI. The last block has the fewest repair
// symbols, as it has the fewest source symbols.
fn sent_of(count: u64, fti: &Fti) -> Done
    ensures told { text_of result.told
        ≡ count_line (codes "encoded") count (codes " datagrams") }
    ensures status { result.status ≡ 0 }
{
    let last = fti.block_count() - 1;
    let why = if fti.n(last) == fti.k(last) {
        Why::Unprotected
    } else {
        Why::Plain
    };
    Done {
        told: Told::Count("encoded", count, " datagrams"),
        status: 0,
        why,
    }
}

// Sends an object that is read: by blocks as they come, or in rounds by groups of blocks, where the
// writer's bytes have offsets. Else the object is held.
fn send_read<'a, R: Read, W: WriteAt>(
    alloc: Global,
    reader: &mut R,
    fti: &Fti,
    request: &EncodeRequest<'a>,
    writer: &mut W,
) -> Result<u64, Unwritten<'a>>
    ensures sent { IfOk result (λ count. ReadsObject fti.now (R.remaining reader.old)
        (λ object. WritesSession object fti.now request.now.sending count
        (where_empty (W.contents writer.old)) (W.contents writer.new))) }
    ensures fault { IfErr result (IsUnsentFrom fti.now (R.remaining reader.old)
        (R.sound reader.old) request.now.object.now) }
    ensures writing { IfErr result (λ e. e ≡ Unwritten.Writing
        → W.failed writer.new ≡ true) }
{
    fti.is_valid();
    let Sending {
        identity,
        fti_every,
        order,
        ..
    } = request.sending;
    let (tsi, toi) = (identity.tsi as u32, identity.toi as u32);
    let every = u32::from(fti_every);
    let sent = match order {
        Order::Blocks => encoder::encode_from(alloc, reader, tsi, toi, fti, every, writer),
        Order::Rounds => {
            if !writer.is_seekable() {
                return send_whole(alloc, reader, fti, request, writer);
            }
            encoder::encode_rounds_from(alloc, reader, tsi, toi, fti, every, writer)
        }
    };
    match sent {
        Ok(count) => Ok(count),
        Err(SendFromFault::Object(_)) => Err(Unwritten::Fault(Fault::File(request.object))),
        Err(SendFromFault::SymbolTooLong) => {
            Err(Unwritten::Fault(Fault::Send(SendFault::SymbolTooLong)))
        }
        Err(SendFromFault::NoMemory) => Err(Unwritten::Fault(Fault::Memory)),
        Err(SendFromFault::Write) => Err(Unwritten::Writing),
    }
}

// Reads all of the object, and sends it then.
fn send_whole<'a, R: Read, W: Write>(
    alloc: Global,
    reader: &mut R,
    fti: &Fti,
    request: &EncodeRequest<'a>,
    writer: &mut W,
) -> Result<u64, Unwritten<'a>>
    ensures sent { IfOk result (λ count. ReadsObject fti.now (R.remaining reader.old)
        (λ object. WritesSession object fti.now request.now.sending count
        (W.contents writer.old) (W.contents writer.new))) }
    ensures fault { IfErr result (IsUnsentFrom fti.now (R.remaining reader.old)
        (R.sound reader.old) request.now.object.now) }
    ensures writing { IfErr result (λ e. e ≡ Unwritten.Writing
        → W.failed writer.new ≡ true) }
{
    let object = match read_rest(alloc, reader, request.object) {
        Ok(object) => object,
        Err(fault) => return Err(Unwritten::Fault(fault)),
    };
    let bytes = object.as_slice();
    if bytes.len() as u64 != fti.transfer_length() {
        return Err(Unwritten::Fault(Fault::File(request.object)));
    }
    are_bytes(bytes);
    send_held(alloc, bytes, fti, &request.sending, writer)
}

fn send_held<'a, W: Write>(
    alloc: Global,
    object: &[u8],
    fti: &Fti,
    sending: &Sending,
    writer: &mut W,
) -> Result<u64, Unwritten<'a>>
    requires { length object.now ≡ fti.now.transfer_length }
    ensures sent { IfOk result (λ count. WritesSession object.now fti.now sending.now count
        (W.contents writer.old) (W.contents writer.new)) }
    ensures fault { IfErr result (IsUnsent fti.now) }
    ensures writing { IfErr result (λ e. e ≡ Unwritten.Writing
        → W.failed writer.new ≡ true) }
{
    fti.is_valid();
    let Sending {
        identity,
        fti_every,
        order,
        ..
    } = *sending;
    let (tsi, toi) = (identity.tsi as u32, identity.toi as u32);
    match encoder::encode(
        alloc,
        object,
        tsi,
        toi,
        fti,
        u32::from(fti_every),
        order,
        writer,
    ) {
        Ok(count) => Ok(count),
        Err(SendFault::Length) => unreachable!(),
        Err(SendFault::SymbolTooLong) => {
            Err(Unwritten::Fault(Fault::Send(SendFault::SymbolTooLong)))
        }
        Err(SendFault::NoMemory) => Err(Unwritten::Fault(Fault::Memory)),
        Err(SendFault::Io) => Err(Unwritten::Writing),
    }
}
