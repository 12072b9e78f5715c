//! The symbols that came of blocks that share an allocation, and a bound on their ESIs.
ghost use Rattle.std.specs.Prelude.{◌<◌, ℕ};
ghost use Rattle.std.specs.List.{All};
ghost use Rattle.shared_lists.specs.SharedLists.{list_at};

use crate::arrivals::{Arrival, last_of};
use shared_lists::SharedLists;
use std::alloc::{AllocError, Global};

/// The symbols that came of several blocks, of each in the order in which they came.
#[derive(Drop)]
pub(crate) struct SharedArrivals<S> {
    lists: SharedLists<Arrival<S>>,
    // Above each ESI. Where ESIs rise over all these blocks, no list is searched for the next one.
    limit: u16,
    ghost below: { (i : ℕ) → All (λ a. a.esi < limit) (list_at lists i) },
}

impl<S: Drop> SharedArrivals<S> {
    ghost use Rattle.std.specs.Prelude.{◌≡◌, ◌≢◌, ◌++◌, ◌∷◌, [], ℕ, List, None, false, OnOk};
    ghost use Rattle.shared_lists.specs.SharedLists.{list_at};
    ghost use Rattle.block_recovery.specs.Arrivals.{arrived_at};

    /// Nothing came.
    pub(crate) fn new(alloc: Global) -> SharedArrivals<S>
        ensures { (i : ℕ) → list_at result.lists i ≡ [] }
    {
        SharedArrivals {
            lists: SharedLists::new(alloc),
            limit: 0,
        }
    }

    /// The symbols of the block at an index.
    pub(crate) fn get(&self, index: usize) -> &[Arrival<S>]
        ensures { result.now ≡ list_at self.now.lists index }
    {
        self.lists.get(index)
    }

    // Puts a symbol behind the others of the block at an index.
    fn push(&mut self, index: usize, arrival: Arrival<S>) -> Result<(), AllocError>
        ensures pushed { OnOk result (list_at self.new.lists index
            ≡ list_at self.old.lists index ++ arrival ∷ []) }
        ensures others { (i : ℕ) → index ≢ i
            → list_at self.new.lists i ≡ list_at self.old.lists i }
    {
        let esi = arrival.esi;
        self.lists.push(index, arrival)?;
        self.limit = self.limit.max(u16::from(esi) + 1);
        Ok(())
    }

    // Whether a symbol with this ESI may be among them. If not, none is.
    #[tactic(auto, using(crate::proofs::Arrived::none_past))]
    fn may_have(&self, esi: u8) -> bool
        ensures { result ≡ false → (i : ℕ) (held : S → List ℕ)
            → arrived_at held (list_at self.now.lists i) esi ≡ None }
    {
        u16::from(esi) < self.limit
    }
}

impl<S: Copy + Drop> SharedArrivals<S> {
    ghost use Rattle.std.specs.Prelude.{◌≡◌, ◌≢◌, ◌++◌, ◌∷◌, [], ℕ, List, Some, None};
    ghost use Rattle.std.specs.Prelude.{IfOk, IfSome, IsNone};
    ghost use Rattle.std.specs.List.{Contains};
    ghost use Rattle.shared_lists.specs.SharedLists.{list_at};
    ghost use Rattle.block_recovery.specs.Arrivals.{arrived_at};

    /// Puts a symbol behind the others of the block at an index, if none of them has its ESI; else
    /// answers the one that has it.
    pub(crate) fn put(&mut self, index: usize, arrival: Arrival<S>) -> Result<Option<S>, AllocError>
        ensures free { IfOk result (λ o. IsNone o → (held : S → List ℕ)
            → arrived_at held (list_at self.old.lists index) arrival.esi ≡ None) }
        ensures pushed { IfOk result (λ o. IsNone o → list_at self.new.lists index
            ≡ list_at self.old.lists index ++ arrival ∷ []) }
        ensures others { (i : ℕ) → index ≢ i
            → list_at self.new.lists i ≡ list_at self.old.lists i }
        ensures earlier { IfOk result (λ o. IfSome o (λ s. ((held : S → List ℕ)
            → arrived_at held (list_at self.old.lists index) arrival.esi ≡ Some (held s))
            × Contains (list_at self.old.lists index)
            (record { esi = arrival.esi; symbol = s }))) }
        ensures stays { IfOk result (λ o. IfSome o (λ _.
            list_at self.new.lists index ≡ list_at self.old.lists index)) }
    {
        if self.may_have(arrival.esi) {
            if let Some(earlier) = last_of(self.get(index), arrival.esi) {
                return Ok(Some(earlier));
            }
        }
        self.push(index, arrival)?;
        Ok(None)
    }
}
