//! The encoding symbols that came, by block and ESI.
ghost use Rattle.std.specs.Prelude.{◌≡◌, ◌==◌, ◌&&◌, ◌++◌, ◌∷◌, [], ℕ, List, Some, None, true};
ghost use Rattle.std.specs.Prelude.{false, is_some, IsNone, IfSome, IfOk, OnOk};
ghost use Rattle.std.specs.List.{Contains};
ghost use Rattle.block_recovery.specs.Arrivals.{arrived_at};
ghost use Rattle.block_recovery.specs.Received.{came_at, list_of};

use crate::arrivals::Arrival;
use crate::shared_arrivals::SharedArrivals;
use shared_lists::Sharing;
use std::alloc::{AllocError, Global};
use std::collections::BTreeMap;

/// The symbols of a session: by source block number those of a block, in the order in which they
/// came. Those of neighbouring blocks that have few share an allocation.
#[derive(Drop)]
pub struct Symbols<S> {
    pub(crate) sharing: Sharing,
    /// By the number that `sharing` gives the allocation.
    pub(crate) shares: BTreeMap<u32, SharedArrivals<S>>,
}

impl<S: Drop> Symbols<S> {
    /// Nothing came of an object whose blocks have so many encoding symbols, or fewer.
    pub fn new(alloc: Global, most: usize) -> Symbols<S>
        ensures none { (held : S → List ℕ) (b j : ℕ) → came_at held result b j ≡ None }
        ensures empty { (b : ℕ) → list_of result b ≡ [] }
    {
        Symbols {
            sharing: Sharing::of_lengths(most),
            shares: BTreeMap::new(alloc),
        }
    }

    /// The symbols of a block, where some came.
    pub fn of_block(&self, block: u32) -> Option<&[Arrival<S>]>
        ensures none { IsNone result
            → (held : S → List ℕ) (j : ℕ) → came_at held self.now block j ≡ None }
        ensures some { IfSome result (λ v. (held : S → List ℕ) (j : ℕ)
            → arrived_at held v.now j ≡ came_at held self.now block j) }
        ensures list { IfSome result (λ v. v.now ≡ list_of self.now block) }
        ensures empty { IsNone result → list_of self.now block ≡ [] }
    {
        match self.shares.get(&self.sharing.share(block)) {
            Some(arrivals) => Some(arrivals.get(self.sharing.index(block))),
            None => None,
        }
    }

    /// Whether something came of a block.
    pub(crate) fn has_some(&self, block: u32) -> bool
        ensures some { result ≡ true → (held : S → List ℕ)
            → (j : ℕ) × (is_some (came_at held self.now block j) ≡ true) }
        ensures none { result ≡ false → (held : S → List ℕ) (j : ℕ)
            → came_at held self.now block j ≡ None }
    {
        match self.of_block(block) {
            Some(arrivals) => !arrivals.is_empty(),
            None => false,
        }
    }
}

impl<S: Copy + Drop> Symbols<S> {
    /// Puts a symbol behind those of its block, if none of them has its ESI; else answers the one
    /// that has it.
    pub fn put(
        &mut self,
        alloc: Global,
        block: u32,
        esi: u8,
        symbol: S,
    ) -> Result<Option<S>, AllocError>
        ensures free { IfOk result (λ o. IsNone o → (held : S → List ℕ)
            → came_at held self.old block esi ≡ None) }
        ensures here { IfOk result (λ o. IsNone o → (held : S → List ℕ)
            → came_at held self.new block esi ≡ Some (held symbol)) }
        ensures elsewhere { OnOk result ((held : S → List ℕ) (b j : ℕ)
            → (block == b && esi == j) ≡ false
            → came_at held self.new b j ≡ came_at held self.old b j) }
        ensures more { IfOk result (λ o. IsNone o → list_of self.new block
            ≡ list_of self.old block ++ record { esi = esi; symbol = symbol } ∷ []) }
        ensures others { OnOk result ((b : ℕ) → (block == b) ≡ false
            → list_of self.new b ≡ list_of self.old b) }
        ensures earlier { IfOk result (λ o. IfSome o (λ s.
            ((held : S → List ℕ) → came_at held self.old block esi ≡ Some (held s))
            × Contains (list_of self.old block) (record { esi = esi; symbol = s }))) }
        ensures stays { IfOk result (λ o. IfSome o (λ _. (b : ℕ)
            → list_of self.new b ≡ list_of self.old b)) }
    {
        let arrival = Arrival { esi, symbol };
        let share = self.sharing.share(block);
        let index = self.sharing.index(block);
        match self.shares.get_mut(&share) {
            Some(arrivals) => arrivals.put(index, arrival),
            None => {
                let mut arrivals = SharedArrivals::new(alloc);
                arrivals.put(index, arrival)?;
                self.shares.insert(share, arrivals)?;
                Ok(None)
            }
        }
    }
}
