//! Reading a datagram.
ghost use Rattle.std.specs.Prelude.{◌≡◌, ◌+◌, ◌<◌, ◌≤◌, ◌^◌, ℕ, List, length, IfOk, IfSome};
ghost use Rattle.lists.specs.Bytes.{AreBytes};
ghost use Rattle.partition.specs.Fti.{IsValidFti};
ghost use Rattle.alc.specs.Packet.{IsSymbolLength};
ghost use Rattle.alc.specs.Computed.{read_of, packet_with};
ghost use Rattle.alc.specs.Layout.{Lies};
ghost use Rattle.alc.specs.Reading.{Reading, Reads};
ghost use Rattle.alc.specs.Views.{packet_of, reading_of};

use crate::extensions::{fti_content, fti_of};
use crate::fault::PacketFault;
use crate::header::{Header, header_of};
use byteorder::{BigEndian, ByteOrder};
use partition::Fti;

/// A datagram read. TSI and TOI are numbers, whatever their width in the header.
#[derive(Debug, Clone, Copy, PartialEq, Eq)]
pub struct Packet<'a> {
    /// The transport session identifier, below 2^48.
    pub tsi: u64,
    /// The transport object identifier, below 2^112.
    pub toi: u128,
    /// The FTI in EXT_FTI, where the packet has one. Such a packet is a carrier.
    pub fti: Option<Fti>,
    /// The source block number, below 2^24. It may be past the blocks of the FTI.
    pub sbn: u32,
    /// The encoding symbol ID. It may be past the encoding symbols of the block.
    pub esi: u8,
    /// The encoding symbol, of the length that the FTI tells, else of at least one byte; the bytes
    /// are the datagram's.
    pub symbol: &'a [u8],
}

// The packet with this FTI, or without one.
fn packet_with_fti(datagram: &[u8], header: Header, fti: Option<Fti>) -> Packet<'_>
    requires lies { Lies header datagram.now }
    requires size { header.end + 4 ≤ length datagram.now }
    ensures { packet_of result ≡ packet_with datagram.now fti }
{
    let payload = &datagram[header.end..];
    Packet {
        tsi: BigEndian::read_uint(&datagram[header.tsi..], header.toi - header.tsi),
        toi: BigEndian::read_uint128(&datagram[header.toi..], header.extensions - header.toi),
        fti,
        sbn: BigEndian::read_u24(payload),
        esi: payload[3],
        symbol: &payload[4..],
    }
}

// The packet or the first fault, as a function of the bytes computes them.
fn parse<'a>(datagram: &'a [u8], known: Option<&Fti>) -> Result<Packet<'a>, PacketFault>
    ensures { read_of datagram.now ≡ reading_of result }
{
    let header = header_of(datagram)?;
    let Some(content) = fti_content(&datagram[header.extensions..header.end])? else {
        if datagram.len() < header.end + 5 {
            return Err(PacketFault::PayloadLength);
        }
        return Ok(packet_with_fti(datagram, header, None));
    };
    let fti = fti_of(content, known)?;
    if datagram.len() != header.end + 4 + usize::from(fti.symbol_length()) {
        return Err(PacketFault::PayloadLength);
    }
    Ok(packet_with_fti(datagram, header, Some(fti)))
}

/// The packet that the datagram is, or the first fault for which it is none, in the order of
/// `PacketFault`'s variants. Any bytes may be given. The packet's symbol is the end of the
/// datagram.
pub fn read(datagram: &[u8]) -> Result<Packet<'_>, PacketFault>
    // The datagram is that packet, or has that fault and none before it.
    ensures reads { Reads datagram.now (reading_of result) }
    // It is no other packet, and has no other first fault.
    ensures only { (r : Reading) → Reads datagram.now r → r ≡ reading_of result }
    ensures valid { IfOk result (λ p. IfSome p.fti IsValidFti) }
    ensures symbol { IfOk result (λ p. IsSymbolLength p.fti (length p.symbol.now)) }
    ensures block { IfOk result (λ p. p.sbn < 2 ^ 24) }
    ensures tsi { IfOk result (λ p. p.tsi < 2 ^ 48) }
    ensures toi { IfOk result (λ p. p.toi < 2 ^ 112) }
{
    read_with(datagram, None)
}

/// As [`read`]. A packet that carries the FTI that is known is read faster.
pub fn read_with<'a>(datagram: &'a [u8], known: Option<&Fti>) -> Result<Packet<'a>, PacketFault>
    // The datagram is that packet, or has that fault and none before it.
    ensures reads { Reads datagram.now (reading_of result) }
    // It is no other packet, and has no other first fault.
    ensures only { (r : Reading) → Reads datagram.now r → r ≡ reading_of result }
    ensures valid { IfOk result (λ p. IfSome p.fti IsValidFti) }
    ensures symbol { IfOk result (λ p. IsSymbolLength p.fti (length p.symbol.now)) }
    ensures block { IfOk result (λ p. p.sbn < 2 ^ 24) }
    ensures tsi { IfOk result (λ p. p.tsi < 2 ^ 48) }
    ensures toi { IfOk result (λ p. p.toi < 2 ^ 112) }
{
    parse(datagram, known)
}

/// Every list of bytes has one reading: it is a packet, or isn't one for one reason. A list that
/// isn't of bytes has one at most.
pub fn one_reading()
    ensures some { (d : List ℕ) → AreBytes d → (r : Reading) × Reads d r }
    ensures only { (d : List ℕ) (r s : Reading) → Reads d r → Reads d s → r ≡ s }
{}
