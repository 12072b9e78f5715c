//! What is told of an identity, and of what is no packet.
use alc::PacketFault;
use partition::Fti;
use reception::Identity;

/// An FTI, and how many carriers have it.
#[derive(Debug, Clone, Copy, PartialEq, Eq)]
pub struct FtiCount {
    pub fti: Fti,
    pub carriers: usize,
}

/// What is told of an identity, of which a packet came.
#[derive(Drop)]
pub struct Part {
    pub identity: Identity,
    /// How many of the datagrams are its packets.
    pub datagrams: usize,
    /// The place of the first one in the session.
    pub first: usize,
    /// The place of the last one.
    pub last: usize,
    /// How many of them carry an FTI.
    pub carriers: usize,
    /// How many different symbols they have: not two of one block and ESI.
    pub symbols: usize,
    /// Each FTI that carriers have, by its numbers.
    pub ftis: Vec<FtiCount>,
    /// By the first carrier's FTI the block with the fewest symbols beyond those that it needs, how
    /// many it needs, and how many different ones it has.
    pub weakest: Option<(u32, usize, usize)>,
}

/// Why datagrams are no packets, and how many for this reason.
#[derive(Debug, Clone, Copy, PartialEq, Eq)]
pub struct FaultCount {
    pub fault: PacketFault,
    pub datagrams: usize,
}
