//! What C is told: structs of numbers in place of enums.
ghost use Rattle.std.specs.Prelude.{◌≡◌, ◌<◌, ◌++◌, true, false, length, drop, map};
ghost use Rattle.alcrs_c.specs.Statuses.{in_front};
ghost use Rattle.alcrs_c.specs.Told.{numbered, fti_number, packet_number, packet_fti, told_packet};
ghost use Rattle.alcrs_c.specs.Told.{told_reason, told_decode, told_missing, told_fti, told_frame};
ghost use Rattle.alcrs_c.specs.Told.{told_certificate, told_block, told_report};

use alc::PacketFault;
use block_recovery::DecodeFault;
use cert::{Reason, Report};
use certificate::CertFault;
use partition::FtiError;
use session::FrameFault;

/// Why a call says no, or says nothing. `number` counts the reasons of the call, from 1; `packet`
/// is the number of a packet's fault and `fti` that of an FTI's, where there is one. What doesn't
/// belong to the reason is 0.
#[repr(C)]
#[derive(Clone, Copy)]
pub struct AlcrsFault {
    pub number: u32,
    pub packet: u32,
    pub fti: u32,
    pub block: u32,
    pub place: usize,
    pub column: usize,
    pub symbol: usize,
    pub have: usize,
    pub need: usize,
}

/// How many source symbols a block has, and how many different ESIs of it came.
#[repr(C)]
#[derive(Clone, Copy)]
pub struct AlcrsBlock {
    pub need: usize,
    pub have: usize,
}

/// What a session can lose, and how many blocks and kill places there are to be told.
#[repr(C)]
#[derive(Clone, Copy)]
pub struct AlcrsReport {
    pub block_count: usize,
    pub carriers: usize,
    pub margin: usize,
    pub burst: usize,
    pub kill_count: usize,
}

// Only a number.
fn only(number: u32) -> AlcrsFault
    ensures { result ≡ numbered number }
{
    AlcrsFault {
        number,
        packet: 0,
        fti: 0,
        block: 0,
        place: 0,
        column: 0,
        symbol: 0,
        have: 0,
        need: 0,
    }
}

fn number_of_fti(error: FtiError) -> u32
    ensures { result ≡ fti_number error }
{
    match error {
        FtiError::LengthZero => 1,
        FtiError::LengthTooGreat => 2,
        FtiError::SymbolZero => 3,
        FtiError::BlockZero => 4,
        FtiError::MaxBelowBlock => 5,
        FtiError::TooManyBlocks => 6,
    }
}

fn number_of_packet(fault: PacketFault) -> u32
    ensures { result ≡ packet_number fault }
{
    match fault {
        PacketFault::TooShort => 1,
        PacketFault::Version => 2,
        PacketFault::Psi => 3,
        PacketFault::Codepoint => 4,
        PacketFault::NoIdentity => 5,
        PacketFault::HeaderLength => 6,
        PacketFault::Extension => 7,
        PacketFault::FtiLength => 8,
        PacketFault::TwoFti => 9,
        PacketFault::FtiValue(_) => 11,
        PacketFault::PayloadLength => 12,
    }
}

fn fti_of_packet(fault: PacketFault) -> u32
    ensures { result ≡ packet_fti fault }
{
    match fault {
        PacketFault::FtiValue(error) => number_of_fti(error),
        _ => 0,
    }
}

fn packet_fault(number: u32, place: usize, fault: PacketFault) -> AlcrsFault
    ensures { result ≡ told_packet number place fault }
{
    let packet = number_of_packet(fault);
    let fti = fti_of_packet(fault);
    AlcrsFault {
        packet,
        fti,
        place,
        ..only(number)
    }
}

fn at(number: u32, place: usize) -> AlcrsFault
    ensures { result ≡ record (numbered number) { place = place } }
{
    AlcrsFault {
        place,
        ..only(number)
    }
}

/// N1 to N12.
pub(crate) fn reason_fault(reason: Reason) -> AlcrsFault
    ensures { result ≡ told_reason reason }
{
    match reason {
        Reason::ObjectLength => only(1),
        Reason::NotObject {
            block,
            column,
            symbol,
        } => AlcrsFault {
            block,
            column,
            symbol,
            ..only(2)
        },
        Reason::Empty => only(3),
        Reason::Packet(place, fault) => packet_fault(4, place, fault),
        Reason::OtherFti(place) => at(6, place),
        Reason::Range(place) => at(7, place),
        Reason::Symbol(place, column) => AlcrsFault {
            place,
            column,
            ..only(8)
        },
        Reason::Thin { block, have, need } => AlcrsFault {
            block,
            have,
            need,
            ..only(9)
        },
        Reason::SymbolLength(place) => at(10, place),
        Reason::NoCarrier => only(11),
        Reason::OtherCertificate => only(12),
    }
}

/// R1 to R7.
pub(crate) fn decode_fault(fault: DecodeFault) -> AlcrsFault
    ensures { result ≡ told_decode fault }
{
    match fault {
        DecodeFault::Packet(place, fault) => packet_fault(1, place, fault),
        DecodeFault::OtherFti(place) => at(3, place),
        DecodeFault::Range(place) => at(4, place),
        DecodeFault::Clash(place) => at(5, place),
        DecodeFault::NotCode(block) => AlcrsFault { block, ..only(6) },
        DecodeFault::SymbolLength(place) => at(7, place),
    }
}

/// The least block that is short.
pub(crate) fn missing_fault(block: u32, have: usize, need: usize) -> AlcrsFault
    ensures { result ≡ told_missing block have need }
{
    AlcrsFault {
        block,
        have,
        need,
        ..only(0)
    }
}

/// Why bytes are no session.
pub(crate) fn frame_fault(fault: FrameFault) -> AlcrsFault
    ensures { result ≡ told_frame fault }
{
    match fault {
        FrameFault::CutLength => only(1),
        FrameFault::CutDatagram => only(2),
        FrameFault::TooLong => only(3),
        _ => only(0),
    }
}

/// Z1 to Z3.
pub(crate) fn certificate_fault(fault: CertFault) -> AlcrsFault
    ensures { result ≡ told_certificate fault }
{
    match fault {
        CertFault::Magic => only(1),
        CertFault::Fti(error) => {
            let fti = number_of_fti(error);
            AlcrsFault { fti, ..only(2) }
        }
        CertFault::Size => only(3),
        _ => only(0),
    }
}

/// The numbers of a report.
pub(crate) fn report_numbers(report: &Report) -> AlcrsReport
    ensures { result ≡ told_report report.now }
{
    AlcrsReport {
        block_count: report.blocks.len(),
        carriers: report.carriers,
        margin: report.margin,
        burst: report.burst,
        kill_count: report.kill.len(),
    }
}

/// F1 to F6.
pub(crate) fn fti_fault(error: FtiError) -> AlcrsFault
    ensures { result ≡ told_fti error }
{
    let fti = number_of_fti(error);
    AlcrsFault { fti, ..only(0) }
}

/// Puts bytes in front where there is room for all of them, and returns whether there is. `size` is
/// how many they are.
pub(crate) fn put_bytes(bytes: &[u8], to: &mut [u8], size: &mut usize) -> bool
    ensures size { size.new ≡ length bytes.now }
    ensures put { result ≡ true → to.new ≡ bytes.now ++ drop (length bytes.now) to.old }
    ensures room { result ≡ false → length to.old < length bytes.now }
    ensures stays { result ≡ false → to.new ≡ to.old }
{
    *size = bytes.len();
    if to.len() < bytes.len() {
        return false;
    }
    to[..bytes.len()].copy_from_slice(bytes);
    true
}

/// Puts in front as many blocks as there is room for.
pub(crate) fn put_blocks(report: &Report, blocks: &mut [AlcrsBlock])
    ensures { blocks.new ≡ in_front (map told_block report.now.blocks.items) blocks.old }
{
    let count = blocks.len().min(report.blocks.len());
    for i in 0..count {
        let (need, have) = report.blocks[i];
        blocks[i] = AlcrsBlock { need, have };
    }
}

/// Puts in front as many kill places as there is room for.
pub(crate) fn put_kill(report: &Report, kill: &mut [usize])
    ensures { kill.new ≡ in_front report.now.kill.items kill.old }
{
    let count = kill.len().min(report.kill.len());
    kill[..count].copy_from_slice(&report.kill[..count]);
}
