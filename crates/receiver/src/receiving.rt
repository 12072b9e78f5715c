//! Datagrams that come one at a time, whose symbols are kept elsewhere.
use crate::store::Store;
use reception::Identity;

/// A reception of an object's datagrams, one at a time, as a `Receiver`'s, but for the bytes of its
/// symbols: they are kept by block, wherever the caller says. It has of each symbol that came its
/// ESI.
#[derive(Drop)]
pub struct Receiving {
    pub(crate) identity: Identity,
    /// Where no carrier came yet there is none, and no FTI.
    pub(crate) store: Option<Store>,
    pub(crate) accepted: usize,
}

impl Receiving {
    ghost use Rattle.std.specs.Prelude.{◌≡◌, [], ℕ, List, Option, None};
    ghost use Rattle.partition.specs.Fti.{Fti as FtiValue};
    ghost use Rattle.block_bytes.specs.Bytes.{AreTold};
    ghost use Rattle.receiver.specs.Stands.{StandsWith};

    /// A reception of this identity's packets, to which nothing came.
    pub fn new(identity: Identity) -> Receiving
        ensures stands { (told : FtiValue → Option (ℕ → List ℕ)) → AreTold told
            → StandsWith result told [] }
        ensures identity { result.identity ≡ identity }
        ensures store { result.store ≡ None }
    {
        Receiving {
            identity,
            store: None,
            accepted: 0,
        }
    }
}
