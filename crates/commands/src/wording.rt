//! The words of faults.
ghost use Rattle.std.specs.Prelude.{◌≡◌, ◌++◌, codes, IfOk, OnOk};
ghost use Rattle.commands.specs.Lines.{line_of, fault_text};
ghost use Rattle.commands.specs.Words.{fti_words, packet_words, frame_words, certificate_words};
ghost use Rattle.commands.specs.Words.{send_words};

use crate::fault::Fault;
use crate::print::Text;
use alc::PacketFault;
use certificate::CertFault;
use encoder::SendFault;
use partition::FtiError;
use session::FrameFault;
use std::alloc::{AllocError, Global};

// Puts the words of a fault of an FTI last.
fn put_fti_fault(line: &mut Text, fault: FtiError) -> Result<(), AllocError>
    ensures { OnOk result (line.new ≡ line.old ++ fti_words fault) }
{
    match fault {
        FtiError::LengthZero => line.text("F1 LengthZero"),
        FtiError::LengthTooGreat => line.text("F2 LengthTooGreat"),
        FtiError::SymbolZero => line.text("F3 SymbolZero"),
        FtiError::BlockZero => line.text("F4 BlockZero"),
        FtiError::MaxBelowBlock => line.text("F5 MaxBelowBlock"),
        FtiError::TooManyBlocks => line.text("F6 TooManyBlocks"),
    }
}

/// Puts the words of a fault of a packet last.
pub fn put_packet_fault(line: &mut Text, fault: PacketFault) -> Result<(), AllocError>
    ensures { OnOk result (line.new ≡ line.old ++ packet_words fault) }
{
    match fault {
        PacketFault::TooShort => line.text("P1 TooShort"),
        PacketFault::Version => line.text("P2 Version"),
        PacketFault::Psi => line.text("P3 Psi"),
        PacketFault::Codepoint => line.text("P4 Codepoint"),
        PacketFault::NoIdentity => line.text("P5 NoIdentity"),
        PacketFault::HeaderLength => line.text("P6 HeaderLength"),
        PacketFault::Extension => line.text("P7 Extension"),
        PacketFault::FtiLength => line.text("P8 FtiLength"),
        PacketFault::TwoFti => line.text("P9 TwoFti"),
        PacketFault::FtiValue(fault) => {
            line.text("P11 FtiValue ")?;
            put_fti_fault(line, fault)
        }
        PacketFault::PayloadLength => line.text("P12 PayloadLength"),
    }
}

// Puts the words of a fault of a session last.
fn put_frame_fault(line: &mut Text, fault: FrameFault) -> Result<(), AllocError>
    ensures { OnOk result (line.new ≡ line.old ++ frame_words fault) }
{
    match fault {
        FrameFault::CutLength => line.text("S1 CutLength"),
        FrameFault::CutDatagram => line.text("S2 CutDatagram"),
        FrameFault::TooLong => line.text("S3 TooLong"),
        FrameFault::Io => line.text("S4 Io"),
        FrameFault::NoMemory => line.text("memory"),
        FrameFault::NoSuchPlace(place) => {
            line.text("S6 NoSuchPlace ")?;
            line.number(place)
        }
    }
}

// Puts the words of a fault of a certificate last.
fn put_certificate_fault(line: &mut Text, fault: CertFault) -> Result<(), AllocError>
    ensures { OnOk result (line.new ≡ line.old ++ certificate_words fault) }
{
    match fault {
        CertFault::Magic => line.text("Z1 Magic"),
        CertFault::Fti(fault) => {
            line.text("Z2 Fti ")?;
            put_fti_fault(line, fault)
        }
        CertFault::Size => line.text("Z3 Size"),
        CertFault::Io => line.text("Z4 Io"),
        CertFault::NoMemory => line.text("memory"),
        CertFault::OtherIdentity => line.text("Z6 OtherIdentity"),
    }
}

// Puts the words of a fault of sending last.
fn put_send_fault(line: &mut Text, fault: SendFault) -> Result<(), AllocError>
    ensures { OnOk result (line.new ≡ line.old ++ send_words fault) }
{
    match fault {
        SendFault::Length => line.text("O1 Length"),
        SendFault::SymbolTooLong => line.text("O2 SymbolTooLong"),
        SendFault::Io => line.text("O3 Io"),
        SendFault::NoMemory => line.text("memory"),
    }
}

/// The line of a fault of a command.
pub fn fault_line(alloc: Global, fault: Fault<'_>) -> Result<Text, AllocError>
    ensures { IfOk result (λ line.
        line ≡ line_of (codes "fault " ++ fault_text fault.entry)) }
{
    let mut line = Text::new(alloc);
    line.text("fault ")?;
    put_fault(&mut line, fault)?;
    line.end_line()?;
    Ok(line)
}

// Puts the words of a fault behind what stands in the line.
fn put_fault(line: &mut Text, fault: Fault<'_>) -> Result<(), AllocError>
    ensures { OnOk result (line.new ≡ line.old ++ fault_text fault.entry) }
{
    match fault {
        Fault::Open(name) => put_named(line, "open ", name),
        Fault::File(name) => put_named(line, "file ", name),
        Fault::Memory => line.text("memory"),
        Fault::Frame(fault) => put_frame_fault(line, fault),
        Fault::Certificate(fault) => put_certificate_fault(line, fault),
        Fault::Fti(fault) => put_fti_fault(line, fault),
        Fault::Send(fault) => put_send_fault(line, fault),
        Fault::NoPlace(word) => line.named("L1 NoPlace word", word),
    }
}

fn put_named(line: &mut Text, word: &str, name: &str) -> Result<(), AllocError>
    ensures { OnOk result (line.new ≡ line.old ++ (word.now ++ name.now)) }
{
    line.text(word)?;
    line.text(name)
}
