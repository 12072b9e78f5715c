//! The command `certify`.
ghost use Rattle.std.specs.Prelude.{◌≡◌, true, IfOk, IfErr};
ghost use Rattle.request.specs.declared.requests.Request.TheVariants.{Certify};
ghost use Rattle.host.specs.World.{GivesFile, LeavesBytes};
ghost use Rattle.commands.specs.Commands.{sized};
ghost use Rattle.commands.specs.Doing.{HasMade, HasStopped};
ghost use Rattle.encoder.specs.ObjectRead.{ReadsObject};
ghost use Rattle.send_commands.specs.Certifying.{WritesCertificate, IsUncertified};

use certificate::CertFault;
use commands::{Done, Fault, Unwritten, commit, fti_of, open, read_rest};
use encoder::{CertifyFromFault, certify_from};
use host::Host;
use partition::Fti;
use request::CertifyRequest;
use session::{Pieces, Read, Write};
use std::alloc::Global;

/// Writes the object's certificate for the packets of an identity, a block at a time. An object
/// whose length is known beforehand is read so too.
pub fn certify<'a, H: Host>(
    alloc: Global,
    host: &mut H,
    request: &CertifyRequest<'a>,
) -> Result<Done, Fault<'a>>
    ensures ok { IfOk result
        (HasMade (H.world host.old) (H.world host.new) (Certify request.now)) }
    ensures fault { IfErr result
        (HasStopped (H.world host.old) (H.world host.new) (Certify request.now)) }
{
    let mut input = open(host, request.object)?;
    match host.length_of(&input) {
        Some(length) => {
            let fti = fti_of(&request.sizes, length)?;
            certify_read(alloc, host, &mut input, &fti, request)
        }
        None => {
            let object = read_rest(alloc, &mut input, request.object)?;
            let fti = fti_of(&request.sizes, object.len() as u64)?;
            let mut held = Pieces::new(object.as_slice(), usize::MAX);
            certify_read(alloc, host, &mut held, &fti, request)
        }
    }
}

// Writes the certificate of an object that is read block by block.
fn certify_read<'a, R: Read, H: Host>(
    alloc: Global,
    host: &mut H,
    input: &mut R,
    fti: &Fti,
    request: &CertifyRequest<'a>,
) -> Result<Done, Fault<'a>>
    requires opened { GivesFile (H.world host.old) request.now.object.now
        (R.remaining input.old) (R.sound input.old) }
    requires length { LeavesBytes (R.remaining input.old) fti.now.transfer_length }
    requires sizes { fti.now ≡ sized request.now.sizes fti.now.transfer_length }
    ensures ok { IfOk result
        (HasMade (H.world host.old) (H.world host.new) (Certify request.now)) }
    ensures fault { IfErr result
        (HasStopped (H.world host.old) (H.world host.new) (Certify request.now)) }
{
    let mut file = host.create_file(request.output.name, request.output.no_clobber)?;
    let written = write_read(alloc, input, fti, request, &mut file);
    let failure = Fault::Certificate(CertFault::Io);
    let count = commit(host, &request.output, file, written, failure)?;
    Ok(Done::counted("certified", count, " blocks"))
}

// Answers the number of blocks.
fn write_read<'a, R: Read, W: Write>(
    alloc: Global,
    reader: &mut R,
    fti: &Fti,
    request: &CertifyRequest<'a>,
    writer: &mut W,
) -> Result<u64, Unwritten<'a>>
    ensures written { IfOk result (λ count. ReadsObject fti.now (R.remaining reader.old)
        (λ object. WritesCertificate object fti.now request.now.identity count
        (W.contents writer.old) (W.contents writer.new))) }
    ensures fault { IfErr result (IsUncertified fti.now (R.remaining reader.old)
        (R.sound reader.old) request.now.object.now) }
    ensures writing { IfErr result (λ e. e ≡ Unwritten.Writing
        → W.failed writer.new ≡ true) }
{
    match certify_from(alloc, reader, fti, request.identity, writer) {
        Ok(()) => Ok(u64::from(fti.block_count())),
        Err(CertifyFromFault::Object(_)) => Err(Unwritten::Fault(Fault::File(request.object))),
        Err(CertifyFromFault::NoMemory) => Err(Unwritten::Fault(Fault::Memory)),
        Err(CertifyFromFault::Write) => Err(Unwritten::Writing),
    }
}
