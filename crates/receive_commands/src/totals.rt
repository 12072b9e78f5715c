//! The numbers of a session's datagrams, where a summary is shown.
ghost use Rattle.std.specs.Prelude.{◌≡◌, ◌≤◌, ◌++◌, List, true, false, flat_map};
ghost use Rattle.std.specs.Prelude.{IfOk, IfErr, OnOk};
ghost use Rattle.alc.specs.Reading.{Reading};
ghost use Rattle.inventory.specs.Tells.{Tells};
ghost use Rattle.request.specs.declared.requests.Request.TheVariants.{Show};
ghost use Rattle.commands.specs.Commands.{shown_status};
ghost use Rattle.commands.specs.Doing.{HasMade, HasStopped};
ghost use Rattle.commands.specs.Lines.{line_of};
ghost use Rattle.commands.specs.Totals.{identity_text, packets_text, fti_of_text, fti_lines};
ghost use Rattle.commands.specs.Totals.{weakest_text, weakest_lines, part_lines, count_text};
ghost use Rattle.commands.specs.Totals.{AreTotals};
ghost use Rattle.receive_commands.specs.Totalling.{AreAllCounted, IsUncounted};
ghost use Rattle.commands.specs.declared.fault.Fault.TheVariants.{Frame};

use crate::show::{put_fti, strays_of};
use commands::{Done, Fault, Text, Told, next_datagram, open, put_packet_fault};
use host::Host;
use inventory::{FaultCount, FtiCount, Part, Summary};
use reception::Identity;
use request::ShowRequest;
use session::{FrameFault, Read};
use std::alloc::{AllocError, Global};

/// What is told of a session, once it was read to its end.
pub(crate) fn summarize<'a, H: Host>(
    alloc: Global,
    host: &H,
    request: &ShowRequest<'a>,
) -> Result<Done, Fault<'a>>
    requires { request.now.summary ≡ true }
    ensures ok { IfOk result
        (HasMade (H.world host.now) (H.world host.now) (Show request.now)) }
    ensures fault { IfErr result
        (HasStopped (H.world host.now) (H.world host.now) (Show request.now)) }
{
    let mut frames = open(host, request.session)?;
    let summary = read_all(alloc, &mut frames)?;
    let text = totals_lines(alloc, &summary)?;
    let status = status_of(&summary);
    Ok(Done {
        told: Told::Lines(text),
        status,
        why: strays_of(status),
    })
}

// The numbers of the datagrams that a reader has left. One datagram at a time is held.
fn read_all<'a, R: Read>(alloc: Global, frames: &mut R) -> Result<Summary, Fault<'a>>
    ensures ok { IfOk result (AreAllCounted (R.remaining frames.old)) }
    ensures fault { IfErr result (IsUncounted (R.remaining frames.old)) }
    ensures unsound { IfErr result (λ fault.
        fault ≡ Frame FrameFault.Io → R.sound frames.old ≡ false) }
{
    let mut summary = Summary::new(alloc);
    loop {
        let Some(datagram) = next_datagram(alloc, frames)? else {
            return Ok(summary);
        };
        summary.add(alloc, datagram.as_slice())?;
    }
}

// 0 where all are packets, else 1.
fn status_of(summary: &Summary) -> u8
    ensures value { (readings : List Reading) → Tells readings summary.now
        → result ≡ shown_status readings }
    ensures small { result ≤ 3 }
{
    if summary.has_faults() { 1 } else { 0 }
}

// Puts whose packets they are last.
fn put_identity(line: &mut Text, who: Identity) -> Result<(), AllocError>
    ensures { OnOk result (line.new ≡ line.old ++ identity_text who) }
{
    line.named("tsi", who.tsi)?;
    line.named(" toi", who.toi)
}

// The line of an identity's packets.
fn packets_line(alloc: Global, part: &Part) -> Result<Text, AllocError>
    ensures { IfOk result (λ line. line ≡ packets_text part.now) }
{
    let mut line = Text::new(alloc);
    put_identity(&mut line, part.identity)?;
    line.named(" datagrams", part.datagrams)?;
    line.named(" first", part.first)?;
    line.named(" last", part.last)?;
    line.named(" carriers", part.carriers)?;
    line.named(" symbols", part.symbols)?;
    line.named(" repeats", part.datagrams.saturating_sub(part.symbols))?;
    Ok(line)
}

// The line of an FTI, and of how many carriers have it.
fn fti_line(alloc: Global, who: Identity, counted: &FtiCount) -> Result<Text, AllocError>
    ensures { IfOk result (λ line. line ≡ fti_of_text who counted.now) }
{
    let mut line = Text::new(alloc);
    put_identity(&mut line, who)?;
    put_fti(&mut line, &Some(counted.fti), 0)?;
    line.named(" carriers", counted.carriers)?;
    Ok(line)
}

// Puts the line of each FTI last.
fn put_ftis(
    alloc: Global,
    lines: &mut Text,
    who: Identity,
    ftis: &[FtiCount],
) -> Result<(), AllocError>
    ensures { OnOk result (lines.new ≡ lines.old ++ fti_lines who ftis.now) }
{
    for counted in ftis {
        lines.put_line(&fti_line(alloc, who, counted)?)?;
    }
    Ok(())
}

// The line of the block with the fewest symbols beyond those that it needs.
fn weakest_line(
    alloc: Global,
    who: Identity,
    weakest: (u32, usize, usize),
) -> Result<Text, AllocError>
    ensures { IfOk result (λ line. line ≡ weakest_text who weakest) }
{
    let (block, need, have) = weakest;
    let mut line = Text::new(alloc);
    put_identity(&mut line, who)?;
    line.named(" weakest block", block)?;
    line.named(" need", need)?;
    line.named(" have", have)?;
    Ok(line)
}

// Puts that line last, where there is one.
fn put_weakest(
    alloc: Global,
    lines: &mut Text,
    who: Identity,
    weakest: Option<(u32, usize, usize)>,
) -> Result<(), AllocError>
    ensures { OnOk result (lines.new ≡ lines.old ++ weakest_lines who weakest) }
{
    match weakest {
        Some(weakest) => lines.put_line(&weakest_line(alloc, who, weakest)?),
        None => Ok(()),
    }
}

// Puts the lines of an identity last.
fn put_part(alloc: Global, lines: &mut Text, part: &Part) -> Result<(), AllocError>
    ensures { OnOk result (lines.new ≡ lines.old ++ part_lines part.now) }
{
    lines.put_line(&packets_line(alloc, part)?)?;
    put_ftis(alloc, lines, part.identity, part.ftis.as_slice())?;
    put_weakest(alloc, lines, part.identity, part.weakest)
}

// The line of those that are no packets for one reason.
fn count_line(alloc: Global, count: &FaultCount) -> Result<Text, AllocError>
    ensures { IfOk result (λ line. line ≡ count_text count.now) }
{
    let mut line = Text::new(alloc);
    line.text("no packet ")?;
    put_packet_fault(&mut line, count.fault)?;
    line.named(" datagrams", count.datagrams)?;
    Ok(line)
}

// Puts the lines of all identities last.
fn put_parts(alloc: Global, lines: &mut Text, parts: &[Part]) -> Result<(), AllocError>
    ensures { OnOk result (lines.new ≡ lines.old ++ flat_map part_lines parts.now) }
{
    for part in parts {
        put_part(alloc, lines, part)?;
    }
    Ok(())
}

// Puts the lines of all reasons last.
fn put_counts(alloc: Global, lines: &mut Text, counts: &[FaultCount]) -> Result<(), AllocError>
    ensures { OnOk result (lines.new
        ≡ lines.old ++ flat_map (λ count. line_of (count_text count)) counts.now) }
{
    for count in counts {
        lines.put_line(&count_line(alloc, count)?)?;
    }
    Ok(())
}

// The lines of the numbers of the datagrams that were read.
fn totals_lines(alloc: Global, summary: &Summary) -> Result<Text, AllocError>
    ensures { (readings : List Reading) → Tells readings summary.now
        → IfOk result (AreTotals readings) }
{
    let parts = summary.parts(alloc)?;
    let counts = summary.fault_counts(alloc)?;
    let mut lines = Text::new(alloc);
    put_parts(alloc, &mut lines, &parts)?;
    put_counts(alloc, &mut lines, &counts)?;
    Ok(lines)
}
