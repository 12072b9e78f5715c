//! A receiver of one datagram at a time.
use crate::receiving::Receiving;
use block_bytes::{BytesFault, HeldBlocks};
use block_recovery::DecodeFault;
use reception::Identity;
use session::Failed;
use std::alloc::AllocError;
use thiserror::Error;

/// Whether more datagrams are needed.
#[derive(Debug, Clone, Copy, PartialEq, Eq)]
pub enum Progress {
    /// Some block has fewer symbols than it needs, or no carrier came.
    More,
    /// Every block has as many symbols as it needs.
    Complete,
}

/// Why a datagram wasn't accepted.
#[derive(Debug, Clone, Copy, PartialEq, Eq, Error)]
pub enum FeedFault {
    /// With it the datagrams would be of no object. A place is how many were accepted before.
    #[error("{0}")]
    Fault(DecodeFault),
    /// As many datagrams were accepted as can be counted.
    #[error("G1 Full")]
    Full,
    /// A packet of the identity that carries no FTI, where no carrier was accepted: nothing can be
    /// said of its symbol.
    #[error("G2 Early")]
    Early,
    /// Memory is wanting.
    #[error("NoMemory")]
    NoMemory,
    /// Reading or writing a block's bytes has failed: what is kept isn't known any more. A
    /// `Receiver` never answers this, as it keeps its bytes in memory.
    #[error("Failed")]
    Failed,
}

/// There is no memory for what is kept of the datagram.
impl From<AllocError> for FeedFault {
    ghost use Rattle.std.specs.Prelude.{◌≡◌};
    ghost use Rattle.receiver.specs.declared.receiver.FeedFault.TheVariants.{NoMemory};

    ghost from_gives = { λ _ fault. fault ≡ NoMemory };

    fn from(_: AllocError) -> Self {
        FeedFault::NoMemory
    }
}

/// A block's bytes weren't read.
impl From<Failed> for FeedFault {
    ghost use Rattle.std.specs.Prelude.{◌≡◌};
    ghost use Rattle.receiver.specs.declared.receiver.FeedFault.TheVariants as feed;

    ghost from_gives = { λ _ fault. fault ≡ feed.Failed };

    fn from(_: Failed) -> Self {
        FeedFault::Failed
    }
}

/// A block's bytes weren't written.
impl From<BytesFault> for FeedFault {
    ghost use Rattle.std.specs.Prelude.{◌≡◌};
    ghost use Rattle.block_bytes.specs.declared.block_bytes.BytesFault.TheVariants as bytes;
    ghost use Rattle.receiver.specs.declared.receiver.FeedFault.TheVariants as feed;

    ghost from_gives = { λ from fault. (from ≡ bytes.NoMemory → fault ≡ feed.NoMemory)
        × (from ≡ bytes.Failed → fault ≡ feed.Failed) };

    fn from(fault: BytesFault) -> Self {
        match fault {
            BytesFault::NoMemory => FeedFault::NoMemory,
            BytesFault::Failed => FeedFault::Failed,
        }
    }
}

/// A receiver of an object's datagrams, one at a time. Packets of other identities are accepted and
/// passed over. Its FTI is that of the first carrier that it accepts, and before that it keeps no
/// symbol. It keeps copies of symbols, of each block at most as many as it has source symbols, and
/// no datagram.
#[derive(Drop)]
pub struct Receiver {
    pub(crate) receiving: Receiving,
    pub(crate) blocks: HeldBlocks,
}

impl Receiver {
    ghost use Rattle.std.specs.Prelude.{◌≡◌, []};
    ghost use Rattle.receiver.specs.Stands.{Stands};

    /// A receiver of this identity's packets, to which nothing came.
    pub fn new(identity: Identity) -> Receiver
        ensures stands { Stands result [] }
        ensures identity { result.receiving.identity ≡ identity }
    {
        Receiver {
            receiving: Receiving::new(identity),
            blocks: HeldBlocks::new(),
        }
    }
}
