//! The command `twin`.
ghost use Rattle.std.specs.Prelude.{◌≡◌, ◌<◌, ℕ, List, Some, true, length, codes, IfOk, IfErr};
ghost use Rattle.std.specs.Prelude.{OnOk};
ghost use Rattle.std.specs.Io.KnownBytes.{Appends};
ghost use Rattle.partition.specs.Fti.{block_count, source_count};
ghost use Rattle.cert.specs.TwinBytes.{AppendsAny, twin_bytes};
ghost use Rattle.cert.specs.Twins.{different_esis};
ghost use Rattle.cert.specs.declared.verdict.Reason.TheVariants.{Thin};
ghost use Rattle.cert.specs.declared.verdict.Verdict.TheVariants.{No};
ghost use Rattle.request.specs.declared.requests.Request.TheVariants.{Twin};
ghost use Rattle.host.specs.World.{GivesFile};
ghost use Rattle.commands.specs.Doing.{HasMade, HasStopped};
ghost use Rattle.commands.specs.Lines.{line_of, short_text};
ghost use Rattle.commands.specs.Wholes.{content_of, reliable_of};
ghost use Rattle.check_commands.specs.TwinsTold.{AreUnread, HoldsFrames, IsFoundIn, IsUntwinned};
ghost use Rattle.check_commands.specs.TwinsTold.{TellsNoTwin};

use crate::check::{open_certificate, reason_line, see_files};
use crate::faults::check_fault;
use cert::{TwinFault, Verdict, write_twin};
use commands::{
    Done, Fault, Text, Told, Unwritten, Whole, Why, commit, if_unchanged, open_session, open_whole,
    pass_frames,
};
use file_check::{Files, ShortBlock, check_files};
use host::Host;
use request::TwinRequest;
use session::Write;
use std::alloc::{AllocError, Global};
use streams::ReadAt;

/// The inputs of a request.
#[derive(Drop)]
struct Opened<I: Drop> {
    session: Whole<I>,
    object: Whole<I>,
    certificate: Whole<I>,
}

// Opens the session, goes over its frames, and opens the object and the certificate then.
fn open_inputs<'a, H: Host>(
    alloc: Global,
    host: &H,
    request: &TwinRequest<'a>,
) -> Result<Opened<H::Input>, Fault<'a>>
    ensures session { IfOk result (λ opened. GivesFile (H.world host.now) request.now.session.now
        (content_of H.Input.content opened.session)
        (reliable_of H.Input.reliable opened.session)) }
    ensures object { IfOk result (λ opened. GivesFile (H.world host.now) request.now.object.now
        (content_of H.Input.content opened.object)
        (reliable_of H.Input.reliable opened.object)) }
    ensures certificate { IfOk result (λ opened. GivesFile (H.world host.now)
        request.now.certificate.now (content_of H.Input.content opened.certificate)
        (reliable_of H.Input.reliable opened.certificate)) }
    ensures framed { IfOk result (λ opened. HoldsFrames (H.world host.now).files request.now) }
    ensures fault { IfErr result (AreUnread (H.world host.now) request.now) }
{
    let session = open_session(alloc, host, request.session)?;
    pass_frames(alloc, &session)?;
    let object = open_whole(alloc, host, request.object)?;
    let certificate = open_certificate(alloc, host, request.certificate)?;
    Ok(Opened {
        session,
        object,
        certificate,
    })
}

// The verdict on files, and the block that is short, if one is.
fn found_in<'a, H: Host>(
    alloc: Global,
    host: &H,
    request: &TwinRequest<'a>,
    files: &Files<'_, Whole<H::Input>, Whole<H::Input>, Whole<H::Input>>,
) -> Result<(Verdict, Option<ShortBlock>), Fault<'a>>
    requires session { GivesFile (H.world host.now) request.now.session.now
        (content_of H.Input.content files.now.session.now)
        (reliable_of H.Input.reliable files.now.session.now) }
    requires object { GivesFile (H.world host.now) request.now.object.now
        (content_of H.Input.content files.now.object.now)
        (reliable_of H.Input.reliable files.now.object.now) }
    requires certificate { GivesFile (H.world host.now) request.now.certificate.now
        (content_of H.Input.content files.now.certificate.now)
        (reliable_of H.Input.reliable files.now.certificate.now) }
    requires framed { HoldsFrames (H.world host.now).files request.now }
    ensures found { IfOk result (λ found.
        IsFoundIn (H.world host.now).files request.now found.0 found.1) }
    ensures fault { IfErr result
        (HasStopped (H.world host.now) (H.world host.now) (Twin request.now)) }
{
    match check_files(alloc, files, request.identity) {
        Ok(checked) => {
            see_files(
                host,
                (request.session, request.object, request.certificate),
                files,
            )?;
            Ok(checked.short_block(alloc)?)
        }
        Err(fault) => Err(check_fault(request.session, request.object, fault)),
    }
}

// What is told of what was found.
fn tell_found<'a, H: Host>(
    alloc: Global,
    host: &mut H,
    request: &TwinRequest<'a>,
    object: &Whole<H::Input>,
    verdict: &Verdict,
    short: Option<ShortBlock>,
) -> Result<Done, Fault<'a>>
    requires object { GivesFile (H.world host.old) request.now.object.now
        (content_of H.Input.content object.now) (reliable_of H.Input.reliable object.now) }
    requires found { IsFoundIn (H.world host.old).files request.now verdict.now short }
    ensures ok { IfOk result
        (HasMade (H.world host.old) (H.world host.new) (Twin request.now)) }
    ensures fault { IfErr result
        (HasStopped (H.world host.old) (H.world host.new) (Twin request.now)) }
{
    match short {
        Some(short) => write_short(alloc, host, request, object, &short),
        None => {
            let told = Told::Lines(untwinned_line(alloc, verdict)?);
            Ok(Done {
                told,
                status: 1,
                why: Why::from(verdict),
            })
        }
    }
}

// Writes a twin for a block that is short. The output is created once the line is there.
fn write_short<'a, H: Host>(
    alloc: Global,
    host: &mut H,
    request: &TwinRequest<'a>,
    object: &Whole<H::Input>,
    short: &ShortBlock,
) -> Result<Done, Fault<'a>>
    requires object { GivesFile (H.world host.old) request.now.object.now
        (content_of H.Input.content object.now) (reliable_of H.Input.reliable object.now) }
    requires found { IsFoundIn (H.world host.old).files request.now
        (No (Thin short.now.block short.now.have short.now.need)) (Some short.now) }
    ensures ok { IfOk result
        (HasMade (H.world host.old) (H.world host.new) (Twin request.now)) }
    ensures fault { IfErr result
        (HasStopped (H.world host.old) (H.world host.new) (Twin request.now)) }
{
    let told = Told::Lines(twin_line(alloc, short.block, short.have, short.need)?);
    let mut file = host.create_file(request.output.name, request.output.no_clobber)?;
    let written = write_other(alloc, object, request.object, short, &mut file);
    let written = if_unchanged(host, request.object, object, written);
    let failure = Fault::File(request.output.name);
    commit(host, &request.output, file, written, failure)?;
    Ok(Done {
        told,
        status: 0,
        why: Why::Plain,
    })
}

// Answers the number of bytes.
fn write_other<'a, O: ReadAt, W: Write>(
    alloc: Global,
    object: &O,
    name: &'a str,
    short: &ShortBlock,
    writer: &mut W,
) -> Result<u64, Unwritten<'a>>
    requires block { short.now.block < block_count short.now.fti }
    requires few { length (different_esis short.now.arrived_esis.items)
        < source_count short.now.fti short.now.block }
    ensures written { (o : List ℕ) → O.content object.now ≡ Some o
        → length o ≡ short.now.fti.transfer_length → OnOk result
        (Appends (W.contents writer.old) (W.contents writer.new)
        (twin_bytes short.now.fti short.now.block short.now.arrived_esis.items o)) }
    ensures some { AppendsAny (W.contents writer.old) (W.contents writer.new) }
    ensures fault { IfErr result (IsUntwinned short.now.fti.transfer_length
        (O.content object.now) (O.reliable object.now) name.now) }
    ensures writing { IfErr result
        (λ e. e ≡ Unwritten.Writing → W.failed writer.new ≡ true) }
{
    let esis = short.arrived_esis.as_slice();
    match write_twin(alloc, object, &short.fti, short.block, esis, writer) {
        Ok(()) => Ok(short.fti.transfer_length()),
        Err(TwinFault::Object) => Err(Unwritten::Fault(Fault::File(name))),
        Err(TwinFault::NoMemory) => Err(Unwritten::Fault(Fault::Memory)),
        Err(TwinFault::Write) => Err(Unwritten::Writing),
    }
}

/// Writes another object that agrees with all datagrams of the session, if the check finds a block
/// short.
pub fn twin<'a, H: Host>(
    alloc: Global,
    host: &mut H,
    request: &TwinRequest<'a>,
) -> Result<Done, Fault<'a>>
    ensures ok { IfOk result
        (HasMade (H.world host.old) (H.world host.new) (Twin request.now)) }
    ensures fault { IfErr result
        (HasStopped (H.world host.old) (H.world host.new) (Twin request.now)) }
{
    let opened = open_inputs(alloc, host, request)?;
    let files = Files {
        session: &opened.session,
        object: &opened.object,
        certificate: &opened.certificate,
    };
    let (verdict, short) = found_in(alloc, host, request, &files)?;
    tell_found(alloc, host, request, &opened.object, &verdict, short)
}

fn no_twin_line(alloc: Global) -> Result<Text, AllocError>
    ensures { IfOk result (λ line. line ≡ line_of (codes "no twin")) }
{
    let mut line = Text::new(alloc);
    line.text("no twin\n")?;
    Ok(line)
}

// The line of a verdict where no block is short.
fn untwinned_line(alloc: Global, verdict: &Verdict) -> Result<Text, AllocError>
    ensures { IfOk result (TellsNoTwin verdict.now) }
{
    match verdict {
        Verdict::Yes(_) => no_twin_line(alloc),
        Verdict::No(reason) => reason_line(alloc, *reason),
    }
}

fn twin_line(alloc: Global, block: u32, have: usize, need: usize) -> Result<Text, AllocError>
    ensures { IfOk result (λ line.
        line ≡ line_of (short_text (codes "twin block") block have need)) }
{
    let mut line = Text::new(alloc);
    line.short_block("twin block", block, have, need)?;
    line.end_line()?;
    Ok(line)
}
