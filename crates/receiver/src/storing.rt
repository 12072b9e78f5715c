//! How much a receiver keeps.
ghost use Rattle.std.specs.Prelude.{◌≡◌, ℕ, List, Option, min, length, filter, is_some};
ghost use Rattle.lists.specs.Below.{below};
ghost use Rattle.partition.specs.Fti.{source_count, encoding_count};
ghost use Rattle.alc.specs.Reading.{Reading};
ghost use Rattle.reception.specs.Reception.{ReadAll};
ghost use Rattle.reception.specs.Answer.{reception_of};
ghost use Rattle.receiver.specs.Holds.{Holds};
ghost use Rattle.receiver.specs.Stands.{Stands};
ghost use Rattle.receiver.specs.Receiving.{stored_count};

use crate::receiver::Receiver;
use crate::store::Store;

impl Store {
    // How many symbols of a block are kept.
    fn stored(&self, block: u32) -> usize
        ensures { (bytes : ℕ → List ℕ) (at : ℕ → ℕ → Option (List ℕ))
            → Holds self.now bytes at
            → result ≡ min (source_count self.now.fti block)
            (length (filter (λ j. is_some (at block j))
            (below (encoding_count self.now.fti block)))) }
    {
        if block >= self.fti.block_count() {
            return 0;
        }
        self.esis.get(block).len().min(self.fti.k(block))
    }
}

impl Receiver {
    /// How many symbols of a block are kept: as many as came with different ESIs, and no more than
    /// the block has source symbols. None where no FTI is known.
    pub fn stored(&self, block: u32) -> usize
        ensures { (ds : List (List ℕ)) (rs : List Reading) → Stands self.now ds
            → ReadAll ds rs
            → result ≡ stored_count (reception_of self.now.receiving.identity rs) block }
    {
        let Some(store) = &self.receiving.store else {
            return 0;
        };
        store.fti.is_valid();
        store.stored(block)
    }
}
