//! Writing a datagram, in the one form that is written: TSI and TOI of 32 bits, CCI of 32 bits, all
//! zero, and no header extension but EXT_FTI, which may be left out.
ghost use Rattle.std.specs.Prelude.{◌≡◌, ◌+◌, ◌<◌, ◌≤◌, ◌++◌, ◌^◌, length, drop, take, IfSome};
ghost use Rattle.partition.specs.Fti.{IsValidFti};
ghost use Rattle.alc.specs.Packet.{IsPacket, written};
ghost use Rattle.alc.specs.Views.{lent};
ghost use Rattle.alc.specs.Written.{IsWritable, header_size, packet_from};
ghost use Rattle.alc.specs.WrittenParts.{fixed_part, header_part, fti_part, payload_id};
ghost use Rattle.alc.specs.WrittenParts.{payload_part};

use crate::extensions::{EXT_FTI, EXT_FTI_SIZE};
use byteorder::{BigEndian, ByteOrder};
use partition::Fti;

// The header's bytes before its extension.
const FIXED_SIZE: usize = 16;

const PAYLOAD_ID_SIZE: usize = 4;

/// The bytes of a datagram that is written before its encoding symbol: the header with EXT_FTI, and
/// the FEC payload ID.
pub const HEADER_SIZE: usize = FIXED_SIZE + EXT_FTI_SIZE + PAYLOAD_ID_SIZE;

/// The bytes of a datagram without EXT_FTI that are written before its encoding symbol.
pub const HEADER_SIZE_WITHOUT_FTI: usize = FIXED_SIZE + PAYLOAD_ID_SIZE;

// The version, the flags S and O, the header's length in words, the codepoint, CCI, TSI and TOI.
fn write_fixed_part(out: &mut [u8], words: u8, tsi: u32, toi: u32)
    requires { length out.old ≡ FIXED_SIZE }
    ensures { out.new ≡ fixed_part words tsi toi }
{
    out[..8].copy_from_slice(&[0x10, 0xA0, words, 5, 0, 0, 0, 0]);
    BigEndian::write_u32(&mut out[8..], tsi);
    BigEndian::write_u32(&mut out[12..], toi);
}

fn write_fti(out: &mut [u8], fti: &Fti)
    requires { length out.old ≡ EXT_FTI_SIZE }
    ensures written { out.new ≡ fti_part fti.now }
    ensures valid { IsValidFti fti.now }
{
    out[..2].copy_from_slice(&[EXT_FTI, 3]);
    fti.write_to(&mut out[2..]);
}

fn write_payload_id(out: &mut [u8], sbn: u32, esi: u8)
    requires size { length out.old ≡ PAYLOAD_ID_SIZE }
    requires block { sbn < 2 ^ 24 }
    ensures { out.new ≡ payload_id sbn esi }
{
    BigEndian::write_u24(out, sbn);
    out[3] = esi;
}

// The header, of seven words with EXT_FTI and of four without, and its size. What is behind it
// stays.
fn write_header(out: &mut [u8], tsi: u32, toi: u32, fti: Option<&Fti>) -> usize
    requires { length (header_part tsi toi (lent fti)) ≤ length out.old }
    ensures size { result ≡ length (header_part tsi toi (lent fti.entry)) }
    ensures written { out.new ≡ header_part tsi toi (lent fti.entry) ++ drop result out.old }
    ensures valid { IfSome (lent fti.entry) IsValidFti }
{
    let (fixed, rest) = out.split_at_mut(FIXED_SIZE);
    match fti {
        Some(fti) => {
            write_fixed_part(fixed, 7, tsi, toi);
            write_fti(&mut rest[..EXT_FTI_SIZE], fti);
            FIXED_SIZE + EXT_FTI_SIZE
        }
        None => {
            write_fixed_part(fixed, 4, tsi, toi);
            FIXED_SIZE
        }
    }
}

// The payload ID and the symbol. What is behind them stays.
fn write_payload(out: &mut [u8], sbn: u32, esi: u8, symbol: &[u8])
    requires block { sbn < 2 ^ 24 }
    requires room { PAYLOAD_ID_SIZE + length symbol.now ≤ length out.old }
    ensures { out.new
        ≡ payload_part sbn esi symbol.now ++ drop (PAYLOAD_ID_SIZE + length symbol.now) out.old }
{
    let (payload_id, rest) = out.split_at_mut(PAYLOAD_ID_SIZE);
    write_payload_id(payload_id, sbn, esi);
    rest[..symbol.len()].copy_from_slice(symbol);
}

/// Writes the datagram of this packet at the front of `out`, and returns the datagram's length:
/// [`HEADER_SIZE`] bytes, or [`HEADER_SIZE_WITHOUT_FTI`] where there is no `fti`, and the symbol's.
/// The rest of `out` stays as it was.
///
/// With an `fti`, `sbn` is one of its blocks, `esi` one of that block's encoding symbols, and
/// `symbol` has E bytes. Without one, `sbn` is below 2^24, and `symbol` has at least one byte.
/// `out` has room for the whole datagram.
pub fn write(
    tsi: u32,
    toi: u32,
    fti: Option<&Fti>,
    sbn: u32,
    esi: u8,
    symbol: &[u8],
    out: &mut [u8],
) -> usize
    requires writable { IsWritable (lent fti) sbn esi (length symbol.now) }
    requires room { header_size (lent fti) + length symbol.now ≤ length out.old }
    ensures length { result ≡ header_size (lent fti.entry) + length symbol.now }
    ensures written { out.new
        ≡ written (packet_from tsi toi (lent fti.entry) sbn esi symbol.now)
        ++ drop result out.old }
    ensures packet { IsPacket (take result out.new)
        (packet_from tsi toi (lent fti.entry) sbn esi symbol.now) }
{
    let header = write_header(out, tsi, toi, fti);
    let (_, payload) = out.split_at_mut(header);
    write_payload(payload, sbn, esi, symbol);
    header + PAYLOAD_ID_SIZE + symbol.len()
}
