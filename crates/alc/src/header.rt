//! The fixed part of the header (RFC 5651, section 5.1).
ghost use Rattle.std.specs.Prelude.{◌≡◌, Err, IfOk, IfErr};
ghost use Rattle.alc.specs.Computed.{read_of};
ghost use Rattle.alc.specs.Layout.{Lies};

use crate::fault::PacketFault;

/// Where the fields of a header begin, as places in the datagram. Each ends where the next begins,
/// and behind `end` stands the payload ID.
#[derive(Clone, Copy)]
pub(crate) struct Header {
    pub(crate) tsi: usize,
    pub(crate) toi: usize,
    pub(crate) extensions: usize,
    pub(crate) end: usize,
}

/// The places of the fields, where the fixed part has no fault.
#[tactic(auto, using(std::proofs::lemmas::Bool::Decides::nat_tests), unfolding(crate::specs::Computed::read_of))]
pub(crate) fn header_of(datagram: &[u8]) -> Result<Header, PacketFault>
    ensures found { IfOk result (λ h. Lies h datagram.now) }
    ensures fault { IfErr result (λ e. read_of datagram.now ≡ Err e) }
{
    let [first, flags, words, codepoint, ..] = *datagram else {
        return Err(PacketFault::TooShort);
    };
    if first / 16 != 1 {
        return Err(PacketFault::Version);
    }
    if first % 4 != 0 {
        return Err(PacketFault::Psi);
    }
    if codepoint != 5 {
        return Err(PacketFault::Codepoint);
    }
    let c = usize::from(first / 4 % 4);
    let s = usize::from(flags / 128);
    let o = usize::from(flags / 32 % 4);
    let h = usize::from(flags / 16 % 2);
    if s + h == 0 || o + h == 0 {
        return Err(PacketFault::NoIdentity);
    }
    let tsi = 4 + 4 * (c + 1);
    let toi = tsi + 4 * s + 2 * h;
    let extensions = toi + 4 * o + 2 * h;
    let end = 4 * usize::from(words);
    if end < extensions || datagram.len() < end {
        return Err(PacketFault::HeaderLength);
    }
    Ok(Header {
        tsi,
        toi,
        extensions,
        end,
    })
}
