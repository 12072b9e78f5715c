//! The command `convert`.
ghost use Rattle.std.specs.Prelude.{◌≡◌, true, IfOk, IfErr};
ghost use Rattle.certificate.specs.Certificate.{IsIdentity};
ghost use Rattle.request.specs.declared.requests.Request.TheVariants.{Convert};
ghost use Rattle.commands.specs.Doing.{HasMade, HasStopped};
ghost use Rattle.send_commands.specs.Converted.{Converts, IsUnconverted};

use certificate::{CertFault, ConvertFault};
use commands::{Done, Fault, Unwritten, commit, open};
use host::Host;
use reception::Identity;
use request::ConvertRequest;
use session::{Read, Write};
use std::alloc::Global;

/// Writes a certificate for the packets of an identity, a block at a time.
pub fn convert<'a, H: Host>(
    alloc: Global,
    host: &mut H,
    request: &ConvertRequest<'a>,
) -> Result<Done, Fault<'a>>
    ensures ok { IfOk result
        (HasMade (H.world host.old) (H.world host.new) (Convert request.now)) }
    ensures fault { IfErr result
        (HasStopped (H.world host.old) (H.world host.new) (Convert request.now)) }
{
    let mut input = open(host, request.certificate)?;
    let mut file = host.create_file(request.output.name, request.output.no_clobber)?;
    let converted = convert_file(alloc, &mut input, request.identity, &mut file);
    let failure = Fault::Certificate(CertFault::Io);
    let count = commit(host, &request.output, file, converted, failure)?;
    Ok(Done::counted("converted", count, " blocks"))
}

// Answers the number of blocks.
fn convert_file<'a, R: Read, W: Write>(
    alloc: Global,
    reader: &mut R,
    identity: Identity,
    writer: &mut W,
) -> Result<u64, Unwritten<'a>>
    requires { IsIdentity identity }
    ensures converted { IfOk result (Converts identity (R.remaining reader.old)
        (W.contents writer.old) (W.contents writer.new)) }
    ensures fault { IfErr result (IsUnconverted identity (R.remaining reader.old)
        (R.sound reader.old)) }
    ensures writing { IfErr result (λ e. e ≡ Unwritten.Writing
        → W.failed writer.new ≡ true) }
{
    match certificate::convert(alloc, reader, writer, identity) {
        Ok(fti) => Ok(u64::from(fti.block_count())),
        Err(ConvertFault::Write) => Err(Unwritten::Writing),
        Err(ConvertFault::Certificate(fault)) => {
            Err(Unwritten::Fault(Fault::Certificate(fault)))
        }
    }
}
