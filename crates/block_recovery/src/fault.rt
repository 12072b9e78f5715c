//! Why datagrams are of no object.

use alc::PacketFault;
use thiserror::Error;

/// Why datagrams are of no object. A place is that of a datagram, counted from 0. The FTI is that
/// of the first carrier: the first packet of the identity that has one.
#[derive(Debug, Clone, Copy, PartialEq, Eq, Error)]
pub enum DecodeFault {
    /// The datagram is no packet.
    #[error("R1 Packet place {0} {1}")]
    Packet(usize, PacketFault),
    /// The FTI isn't that of the first carrier.
    #[error("R3 OtherFti place {0}")]
    OtherFti(usize),
    /// The symbol isn't as long as the FTI tells.
    #[error("R7 SymbolLength place {0}")]
    SymbolLength(usize),
    /// The FTI has no such block, or the block no such encoding symbol.
    #[error("R4 Range place {0}")]
    Range(usize),
    /// An earlier symbol of the same block and ESI has other bytes.
    #[error("R5 Clash place {0}")]
    Clash(usize),
    /// The block has enough symbols, and they aren't those of any object.
    #[error("R6 NotCode block {0}")]
    NotCode(u32),
}
