//! The command `show`.
ghost use Rattle.std.specs.Prelude.{◌≡◌, ◌≤◌, ◌++◌, true, false, Ok, Err, IfOk, IfErr, OnOk, OnErr};
ghost use Rattle.alc.specs.Views.{packet_of};
ghost use Rattle.request.specs.declared.requests.Request.TheVariants.{Show};
ghost use Rattle.std.specs.Io.KnownBytes.{Keeps};
ghost use Rattle.host.specs.World.{KeepsFiles};
ghost use Rattle.commands.specs.Doing.{IsUndone};
ghost use Rattle.commands.specs.Outcomes.{IsDone};
ghost use Rattle.commands.specs.Lines.{line_of, fti_text, reading_text};
ghost use Rattle.receive_commands.specs.Listening.{IsUnsaid};
ghost use Rattle.receive_commands.specs.Showing.{ShowsOne, ShowsAll, IsUnshown};
ghost use Rattle.commands.specs.declared.fault.Fault.TheVariants.{Frame};
ghost use Rattle.commands.specs.declared.fault.Stop.TheVariants.{ByFault};

use crate::totals::summarize;
use alc::{Packet, PacketFault, read};
use commands::{
    Ended, Fault, Stop, Text, Why, finish, next_datagram, open, pass_frames, put_packet_fault,
    see_unchanged,
};
use host::Host;
use partition::Fti;
use request::ShowRequest;
use session::{Failed, FrameFault, Read};
use std::alloc::{AllocError, Global};

/// Prints a line for each datagram; or, where a summary is asked for, the session's numbers at its
/// end. The status is 0 where all are packets.
pub fn show<'a, H: Host>(
    alloc: Global,
    host: &mut H,
    request: &ShowRequest<'a>,
) -> Result<Ended, Stop<'a>>
    ensures ok { IfOk result (λ ended.
        IsDone (H.world host.old) (H.world host.new) (Show request.now) ended.status) }
    ensures fault { IfErr result
        (IsUndone (H.world host.old) (H.world host.new) (Show request.now)) }
{
    if request.summary {
        let done = summarize(alloc, host, request);
        return finish(host, done);
    }
    show_each(alloc, host, request)
}

// Prints a line for each datagram. Where the session comes as it is sent, a line is passed on
// before the next datagram is read. Else its frames are gone over first, so that what is wrong with
// one of them is all that is printed.
fn show_each<'a, H: Host>(
    alloc: Global,
    host: &mut H,
    request: &ShowRequest<'a>,
) -> Result<Ended, Stop<'a>>
    requires { request.now.summary ≡ false }
    ensures ok { IfOk result (λ ended.
        IsDone (H.world host.old) (H.world host.new) (Show request.now) ended.status) }
    ensures fault { IfErr result
        (IsUndone (H.world host.old) (H.world host.new) (Show request.now)) }
{
    let mut frames = open(host, request.session)?;
    // What has no length comes as it is sent.
    let is_live = host.length_of(&frames).is_none();
    if !is_live {
        pass_frames(alloc, &frames)?;
        see_unchanged(host, request.session, &frames)?;
    }
    print_datagrams(alloc, &mut frames, host, is_live)
}

// Prints a line for each datagram that a reader has left, up to its end or a fault.
fn print_datagrams<'a, R: Read, H: Host>(
    alloc: Global,
    frames: &mut R,
    host: &mut H,
    is_live: bool,
) -> Result<Ended, Stop<'a>>
    ensures shown { IfOk result (λ ended. ShowsAll (R.remaining frames.old)
        (H.world host.old) (H.world host.new) ended.status) }
    ensures fault { IfErr result
        (IsUnshown (R.remaining frames.old) (H.world host.old) (H.world host.new)) }
    ensures unsound { IfErr result (λ stop.
        stop ≡ ByFault (Frame FrameFault.Io) → R.sound frames.old ≡ false) }
    ensures files { KeepsFiles (H.world host.old) (H.world host.new) }
{
    let mut status = 0;
    let mut place = 0usize;
    loop {
        let Some(datagram) = next_datagram(alloc, frames)? else {
            return Ok(Ended {
                status,
                why: strays_of(status),
            });
        };
        let Some(next) = place.checked_add(1) else {
            return Err(Stop::ByFault(Fault::Memory));
        };
        if print_datagram(alloc, host, place, datagram.as_slice(), is_live)? == 1 {
            status = 1;
        }
        place = next;
    }
}

/// Why the command ends with this status, which is 0 where all datagrams are packets.
pub(crate) fn strays_of(status: u8) -> Why {
    if status == 0 { Why::Plain } else { Why::Strays }
}

// Prints the line of the datagram at a place. Answers its status: 0 of a packet, else 1.
fn print_datagram<'a, H: Host>(
    alloc: Global,
    host: &mut H,
    place: usize,
    datagram: &[u8],
    is_live: bool,
) -> Result<u8, Stop<'a>>
    ensures ok { IfOk result
        (ShowsOne place datagram.now (H.world host.old) (H.world host.new)) }
    ensures fault { IfErr result (IsUnsaid (H.world host.old) (H.world host.new)) }
    ensures files { KeepsFiles (H.world host.old) (H.world host.new) }
{
    match read(datagram) {
        Ok(packet) => {
            packet_line(alloc, place, &packet)?.print(host)?;
            pass_on_live(host, is_live)?;
            Ok(0)
        }
        Err(fault) => {
            fault_line(alloc, place, fault)?.print(host)?;
            pass_on_live(host, is_live)?;
            Ok(1)
        }
    }
}

// Passes on what was printed, where the next datagram may be long in coming.
fn pass_on_live<H: Host>(host: &mut H, is_live: bool) -> Result<(), Failed>
    ensures stays { OnOk result (Keeps (H.world host.old).printed (H.world host.new).printed) }
    ensures fails { OnErr result ((H.world host.new).failed ≡ true) }
    ensures files { KeepsFiles (H.world host.old) (H.world host.new) }
{
    if is_live { host.pass_on() } else { Ok(()) }
}

/// Puts the FTI of a carrier, or how many bytes of symbol another packet has.
pub(crate) fn put_fti(line: &mut Text, fti: &Option<Fti>, size: usize) -> Result<(), AllocError>
    ensures { OnOk result (line.new ≡ line.old ++ fti_text fti.now size) }
{
    match fti {
        Some(fti) => {
            line.named(" length", fti.transfer_length())?;
            line.named(" symbol", fti.symbol_length())?;
            line.named(" block", fti.block_length())?;
            line.named(" max", fti.max_symbols())
        }
        None => {
            line.text(" no fti")?;
            line.named(" symbol", size)
        }
    }
}

fn packet_line(alloc: Global, place: usize, packet: &Packet<'_>) -> Result<Text, AllocError>
    ensures { IfOk result (λ line.
        line ≡ line_of (reading_text place (Ok (packet_of packet.now)))) }
{
    let mut line = Text::new(alloc);
    line.number(place)?;
    line.named(" tsi", packet.tsi)?;
    line.named(" toi", packet.toi)?;
    put_fti(&mut line, &packet.fti, packet.symbol.len())?;
    line.named(" sbn", packet.sbn)?;
    line.named(" esi", packet.esi)?;
    line.end_line()?;
    Ok(line)
}

fn fault_line(alloc: Global, place: usize, fault: PacketFault) -> Result<Text, AllocError>
    ensures { IfOk result (λ line. line ≡ line_of (reading_text place (Err fault))) }
{
    let mut line = Text::new(alloc);
    line.number(place)?;
    line.text(" ")?;
    put_packet_fault(&mut line, fault)?;
    line.end_line()?;
    Ok(line)
}
