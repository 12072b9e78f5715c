//! The command `check`.
ghost use Rattle.std.specs.Prelude.{◌≡◌, ◌<◌, ◌≤◌, ◌⊎◌, ◌++◌, ℕ, List, true, false, decimal};
ghost use Rattle.std.specs.Prelude.{IfOk, IfErr, OnOk};
ghost use Rattle.certificate.specs.Certificate.{IsCertificate};
ghost use Rattle.cert.specs.FromReader.{IsCheckFault, IsCheckedFrom, IsRefusedBehind};
ghost use Rattle.cert.specs.Report.{OnYes};
ghost use Rattle.cert.specs.declared.verdict.Verdict.TheVariants.{No};
ghost use Rattle.request.specs.declared.requests.Request.TheVariants.{Check};
ghost use Rattle.commands.specs.Commands.{IsCheckStatus, TellsVerdict};
ghost use Rattle.commands.specs.Doing.{HasMade, HasStopped, text_of};
ghost use Rattle.commands.specs.Inputs.{ACertificate, IsUnread};
ghost use Rattle.commands.specs.Wholes.{content_of, reliable_of};
ghost use Rattle.file_check.specs.Answers.{HasChecked, HasCheckedSome};
ghost use Rattle.file_check.specs.Files.{IsVerdictIn, IsVerdictOnSome};
ghost use Rattle.host.specs.World.{GivesFile};
ghost use Rattle.check_commands.specs.Checks.{HaveChanged, IsNotChecked, TellsCheck, TellsRequest};
ghost use Rattle.check_commands.specs.Drawing.{HasDrawn, IsSurveyed};
ghost use Rattle.check_commands.specs.Summing.{CanBeSummed};
ghost use Rattle.commands.specs.Lines.{named, block_text, kill_text, losses_text, report_text};
ghost use Rattle.commands.specs.Lines.{reason_text, verdict_text as text_of_verdict};

use crate::drawing::{Drawn, picture_of};
use crate::faults::check_fault;
use crate::summary::summary_lines;
use cert::{CheckFault, Checker, Reason, Report, Survey, Verdict};
use certificate::{CertFault, Certificate};
use commands::{
    Done, Fault, Text, Told, Whole, Why, open, open_whole, put_packet_fault, read_certificate,
    read_object, see_whole, write_output,
};
use file_check::{Checked, Files, check_files};
use host::Host;
use request::{CheckRequest, Output};
use session::{FrameFault, Read};
use std::alloc::{AllocError, Global};
use std::borrow::CowSlice;

/// What is told of a check, and the picture, where one is asked for and the answer is yes.
#[derive(Drop)]
struct Answered<'a> {
    done: Done,
    picture: Option<Drawn<'a>>,
}

/// The verdict. The session is opened first, but the object and the certificate are read before its
/// frames. A picture is created once it and the lines are there.
pub fn check<'a, H: Host>(
    alloc: Global,
    host: &mut H,
    request: &CheckRequest<'a>,
) -> Result<Done, Fault<'a>>
    ensures ok { IfOk result
        (HasMade (H.world host.old) (H.world host.new) (Check request.now)) }
    ensures fault { IfErr result
        (HasStopped (H.world host.old) (H.world host.new) (Check request.now)) }
{
    let Answered { done, picture } = read_and_answer(alloc, host, request)?;
    match picture {
        Some(drawn) => {
            let output = Output {
                name: drawn.name,
                no_clobber: request.no_clobber,
            };
            let failure = Fault::File(drawn.name);
            write_output(host, &output, drawn.text.as_bytes(), failure)?;
            Ok(done)
        }
        None => Ok(done),
    }
}

// What is told of the files of a request. The session is checked where it stands, or, if it is a
// pipe or a device, as its frames come.
fn read_and_answer<'a, H: Host>(
    alloc: Global,
    host: &H,
    request: &CheckRequest<'a>,
) -> Result<Answered<'a>, Fault<'a>>
    ensures ok { IfOk result (TellsRequest (H.world host.now).files request.now) }
    ensures fault { IfErr result
        (HasStopped (H.world host.now) (H.world host.now) (Check request.now)) }
{
    let mut session = open(host, request.session)?;
    if host.length_of(&session).is_some() {
        let session = Whole::File(session);
        let object = open_whole(alloc, host, request.object)?;
        let certificate = open_certificate(alloc, host, request.certificate)?;
        let files = Files {
            session: &session,
            object: &object,
            certificate: &certificate,
        };
        return answer_files(alloc, host, request, &files);
    }
    let object = read_object(alloc, host, request.object)?;
    let certificate = read_certificate(alloc, host, request.certificate)?;
    answer_of(
        alloc,
        &mut session,
        object.as_slice(),
        &certificate,
        request,
    )
}

/// Opens a certificate that is read at offsets. That a pipe can't be read is told as its fault.
pub(crate) fn open_certificate<'a, H: Host>(
    alloc: Global,
    host: &H,
    name: &'a str,
) -> Result<Whole<H::Input>, Fault<'a>>
    ensures content { IfOk result (λ whole. GivesFile (H.world host.now) name.now
        (content_of H.Input.content whole) (reliable_of H.Input.reliable whole)) }
    ensures fault { IfErr result (IsUnread (H.world host.now) (ACertificate name.now)) }
{
    match open_whole(alloc, host, name) {
        Ok(whole) => Ok(whole),
        Err(Fault::File(_)) => Err(Fault::Certificate(CertFault::Io)),
        Err(fault) => Err(fault),
    }
}

// What is told of files that stand where they are.
fn answer_files<'a, H: Host>(
    alloc: Global,
    host: &H,
    request: &CheckRequest<'a>,
    files: &Files<'_, Whole<H::Input>, Whole<H::Input>, Whole<H::Input>>,
) -> Result<Answered<'a>, Fault<'a>>
    requires session { GivesFile (H.world host.now) request.now.session.now
        (content_of H.Input.content files.now.session.now)
        (reliable_of H.Input.reliable files.now.session.now) }
    requires object { GivesFile (H.world host.now) request.now.object.now
        (content_of H.Input.content files.now.object.now)
        (reliable_of H.Input.reliable files.now.object.now) }
    requires certificate { GivesFile (H.world host.now) request.now.certificate.now
        (content_of H.Input.content files.now.certificate.now)
        (reliable_of H.Input.reliable files.now.certificate.now) }
    ensures ok { IfOk result (TellsRequest (H.world host.now).files request.now) }
    ensures fault { IfErr result
        (HasStopped (H.world host.now) (H.world host.now) (Check request.now)) }
{
    let checked = match check_files(alloc, files, request.identity) {
        Ok(checked) => checked,
        Err(fault) => return Err(check_fault(request.session, request.object, fault)),
    };
    see_files(
        host,
        (request.session, request.object, request.certificate),
        files,
    )?;
    let (verdict, survey) = surveyed_verdict(alloc, &checked, request)?;
    let length = checked.fti().transfer_length();
    Ok(answer_verdict(alloc, request, length, &verdict, &survey)?)
}

// The verdict of a check, and its survey, where a picture is asked for.
fn surveyed_verdict(
    alloc: Global,
    checked: &Checked,
    request: &CheckRequest<'_>,
) -> Result<(Verdict, Option<Survey>), AllocError>
    requires { HasCheckedSome request.now.identity checked.now }
    ensures verdict { (x o text : List ℕ) → HasChecked request.now.identity x o text checked.now
        → IfOk result (λ found. IsVerdictIn request.now.identity x o text found.0) }
    ensures some { IfOk result (λ found. IsVerdictOnSome request.now.identity found.0) }
    ensures surveyed { IfOk result (λ found.
        IsSurveyed request.now.picture found.0 found.1) }
{
    if request.picture.is_some() {
        checked.survey(alloc)
    } else {
        Ok((checked.verdict(alloc)?, None))
    }
}

/// Fails where one of the files, which were opened under these names, isn't as it was then: the
/// session, the object or the certificate, the first in this order.
pub(crate) fn see_files<'a, H: Host>(
    host: &H,
    names: (&'a str, &'a str, &'a str),
    files: &Files<'_, Whole<H::Input>, Whole<H::Input>, Whole<H::Input>>,
) -> Result<(), Fault<'a>>
    ensures { IfErr result (HaveChanged
        (names.entry.0.now, reliable_of H.Input.reliable files.now.session.now)
        (names.entry.1.now, reliable_of H.Input.reliable files.now.object.now)
        (names.entry.2.now, reliable_of H.Input.reliable files.now.certificate.now)) }
{
    see_whole(host, names.0, files.session)?;
    see_whole(host, names.1, files.object)?;
    see_whole(host, names.2, files.certificate)
}

// The verdict on the frames that a reader has left, and its survey, where a picture is asked for.
fn verdict_from<R: Read>(
    alloc: Global,
    frames: &mut R,
    object: &[u8],
    certificate: &Certificate,
    request: &CheckRequest<'_>,
) -> Result<(Verdict, Option<Survey>), CheckFault>
    ensures verdict { IfOk result (λ found. IsCheckedFrom request.now.identity
        (R.remaining frames.old) (R.remaining frames.new) object.now certificate.now found.0) }
    ensures surveyed { IfOk result (λ found.
        IsSurveyed request.now.picture found.0 found.1) }
    ensures fault { IfErr result (IsCheckFault (λ fault. IsRefusedBehind request.now.identity fault
        (R.remaining frames.old) (R.remaining frames.new) (R.failed frames.new)
        object.now certificate.now)) }
    ensures unsound { IfErr result (λ fault.
        fault ≡ CheckFault.Frame FrameFault.Io → R.sound frames.old ≡ false) }
{
    let object = CowSlice::Borrowed(object);
    let mut checker = match Checker::new(alloc, object, certificate.view(), request.identity)? {
        Ok(checker) => checker,
        Err(reason) => return Ok((Verdict::No(reason), None)),
    };
    checker.feed_all(alloc, frames)?;
    if request.picture.is_some() {
        Ok(checker.survey(alloc)?)
    } else {
        Ok((checker.verdict(alloc)?, None))
    }
}

// What is told of the frames that a reader has left.
fn answer_of<'a, R: Read>(
    alloc: Global,
    frames: &mut R,
    object: &[u8],
    certificate: &Certificate,
    request: &CheckRequest<'a>,
) -> Result<Answered<'a>, Fault<'a>>
    requires { IsCertificate certificate.now }
    ensures ok { IfOk result (TellsCheck request.now (R.remaining frames.old)
        (R.remaining frames.new) object.now certificate.now) }
    ensures fault { IfErr result (IsNotChecked request.now.identity (R.sound frames.old)
        (R.remaining frames.old) object.now certificate.now) }
{
    let checked = verdict_from(alloc, frames, object, certificate, request);
    match checked {
        Ok((verdict, survey)) => {
            let length = object.len() as u64;
            Ok(answer_verdict(alloc, request, length, &verdict, &survey)?)
        }
        Err(fault) => Err(check_fault(request.session, request.object, fault)),
    }
}

// What is told of a verdict, and the picture, where one is asked for.
fn answer_verdict<'a>(
    alloc: Global,
    request: &CheckRequest<'a>,
    object_length: u64,
    verdict: &Verdict,
    survey: &Option<Survey>,
) -> Result<Answered<'a>, AllocError>
    requires summed { OnYes verdict.now CanBeSummed }
    requires surveyed { IsSurveyed request.now.picture verdict.now survey.now }
    ensures text { IfOk result (λ answered.
        TellsVerdict request.now.summary verdict.now (text_of answered.done.told)) }
    ensures status { IfOk result (λ answered.
        IsCheckStatus request.now verdict.now answered.done.status) }
    ensures picture { IfOk result (λ answered.
        HasDrawn request.now.picture verdict.now answered.picture) }
{
    Ok(Answered {
        done: told_of(alloc, request, verdict)?,
        picture: picture_of(alloc, request, object_length, verdict, survey)?,
    })
}

// What is told of a verdict, by what is asked for.
fn told_of(alloc: Global, request: &CheckRequest<'_>, verdict: &Verdict) -> Result<Done, AllocError>
    requires { OnYes verdict.now CanBeSummed }
    ensures text { IfOk result (λ done.
        TellsVerdict request.now.summary verdict.now (text_of done.told)) }
    ensures status { IfOk result (λ done.
        IsCheckStatus request.now verdict.now done.status) }
{
    Ok(Done {
        told: Told::Lines(verdict_text(alloc, request.summary, verdict)?),
        status: status_of(request, verdict),
        why: Why::from(verdict),
    })
}

fn status_of(request: &CheckRequest<'_>, verdict: &Verdict) -> u8
    ensures status { IsCheckStatus request.now verdict.now result }
    ensures small { result ≤ 3 }
{
    match verdict {
        Verdict::Yes(report) if bears(request, report) => 0,
        Verdict::Yes(_) => 3,
        Verdict::No(_) => 1,
    }
}

// Whether the session bears the losses that it is asked to.
fn bears(request: &CheckRequest<'_>, report: &Report) -> bool
    ensures yes { result ≡ true → request.now.margin ≤ report.now.margin
        × request.now.burst ≤ report.now.burst }
    ensures no { result ≡ false → report.now.margin < request.now.margin
        ⊎ report.now.burst < request.now.burst }
{
    request.margin as usize <= report.margin && request.burst as usize <= report.burst
}

// The lines of a verdict: of a yes the summary, where one is asked for.
fn verdict_text(alloc: Global, summary: bool, verdict: &Verdict) -> Result<Text, AllocError>
    requires { OnYes verdict.now CanBeSummed }
    ensures { IfOk result (TellsVerdict summary verdict.now) }
{
    match verdict {
        Verdict::Yes(report) if summary => summary_lines(alloc, report),
        Verdict::Yes(report) => report_lines(alloc, report),
        Verdict::No(reason) => reason_line(alloc, *reason),
    }
}

// The line of a block: how many symbols it needs, and how many it has.
pub(crate) fn block_line(
    alloc: Global,
    name: &str,
    block: usize,
    counts: (usize, usize),
) -> Result<Text, AllocError>
    ensures { IfOk result (λ line. line ≡ block_text name.now block counts) }
{
    let (need, have) = counts;
    let mut line = Text::new(alloc);
    line.named(name, block)?;
    line.named(" need", need)?;
    line.named(" have", have)?;
    Ok(line)
}

fn kill_line(alloc: Global, places: &[usize]) -> Result<Text, AllocError>
    ensures { IfOk result (λ line. line ≡ kill_text places.now) }
{
    let mut line = Text::new(alloc);
    line.text("kill")?;
    for place in places {
        line.named("", *place)?;
    }
    Ok(line)
}

// The line of a number with its name.
pub(crate) fn number_line(alloc: Global, name: &str, number: usize) -> Result<Text, AllocError>
    ensures { IfOk result (λ line. line ≡ named name.now (decimal number)) }
{
    let mut line = Text::new(alloc);
    line.named(name, number)?;
    Ok(line)
}

// Puts the lines of the carriers and of what can be lost last.
fn put_losses(alloc: Global, lines: &mut Text, report: &Report) -> Result<(), AllocError>
    ensures { OnOk result (lines.new ≡ lines.old ++ losses_text report.now) }
{
    lines.put_line(&number_line(alloc, "carriers", report.carriers)?)?;
    lines.put_line(&number_line(alloc, "margin", report.margin)?)?;
    lines.put_line(&kill_line(alloc, report.kill.as_slice())?)?;
    lines.put_line(&number_line(alloc, "burst", report.burst)?)
}

// The lines of a yes: they are printed together, so that want of memory leaves no yes behind.
fn report_lines(alloc: Global, report: &Report) -> Result<Text, AllocError>
    ensures { IfOk result (λ lines. lines ≡ report_text report.now) }
{
    let mut lines = Text::new(alloc);
    lines.text("yes\n")?;
    for (block, counts) in report.blocks.iter().enumerate() {
        lines.put_line(&block_line(alloc, "block", block, *counts)?)?;
    }
    put_losses(alloc, &mut lines, report)?;
    Ok(lines)
}

// Puts a reason last.
fn put_reason(line: &mut Text, reason: Reason) -> Result<(), AllocError>
    ensures { OnOk result (line.new ≡ line.old ++ reason_text reason) }
{
    match reason {
        Reason::OtherCertificate => line.text("N12 OtherCertificate"),
        Reason::ObjectLength => line.text("N1 ObjectLength"),
        Reason::NotObject {
            block,
            column,
            symbol,
        } => {
            line.named("N2 NotObject block", block)?;
            line.named(" column", column)?;
            line.named(" symbol", symbol)
        }
        Reason::Empty => line.text("N3 Empty"),
        Reason::Packet(place, fault) => {
            line.named("N4 Packet place", place)?;
            line.text(" ")?;
            put_packet_fault(line, fault)
        }
        Reason::OtherFti(place) => line.named("N6 OtherFti place", place),
        Reason::SymbolLength(place) => line.named("N10 SymbolLength place", place),
        Reason::Range(place) => line.named("N7 Range place", place),
        Reason::Symbol(place, column) => {
            line.named("N8 Symbol place", place)?;
            line.named(" column", column)
        }
        Reason::Thin { block, have, need } => {
            line.short_block("N9 Thin block", block, have, need)
        }
        Reason::NoCarrier => line.text("N11 NoCarrier"),
    }
}

/// The line of a no.
pub(crate) fn reason_line(alloc: Global, reason: Reason) -> Result<Text, AllocError>
    ensures { IfOk result (λ line. line ≡ text_of_verdict (No reason)) }
{
    let mut line = Text::new(alloc);
    line.text("no ")?;
    put_reason(&mut line, reason)?;
    line.end_line()?;
    Ok(line)
}
