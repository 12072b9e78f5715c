//! Which ESIs came of each block.
use shared_lists::{SharedLists, Sharing};
use std::alloc::{AllocError, Global};
use std::collections::BTreeMap;

/// The ESIs that came of each block, in the order in which they came. Neighbouring blocks share an
/// allocation, as there may be many blocks of few symbols.
#[derive(Drop)]
pub(crate) struct Esis {
    // Which blocks share one.
    pub(crate) sharing: Sharing,
    // The lists of each share, by its number. Nothing came of blocks whose share isn't there.
    pub(crate) shares: BTreeMap<u32, SharedLists<u8>>,
}

impl Esis {
    ghost use Rattle.std.specs.Prelude.{◌≡◌, ◌≢◌, ◌∷◌, ◌++◌, ℕ, [], OnOk};
    ghost use Rattle.receiver.specs.Esis.{esis_of, HasRoomFor};

    /// None of any block. No block has more than so many.
    pub(crate) fn new(alloc: Global, most: usize) -> Esis
        ensures { (b : ℕ) → esis_of result b ≡ [] }
    {
        Esis {
            sharing: Sharing::of_lengths(most),
            shares: BTreeMap::new(alloc),
        }
    }

    /// Those of a block.
    pub(crate) fn get(&self, block: u32) -> &[u8]
        ensures { result.now ≡ esis_of self.now block }
    {
        match self.shares.get(&self.sharing.share(block)) {
            Some(lists) => lists.get(self.sharing.index(block)),
            None => &[],
        }
    }

    /// Makes room for one more of a block.
    pub(crate) fn reserve(&mut self, alloc: Global, block: u32) -> Result<(), AllocError>
        ensures same { (b : ℕ) → esis_of self.new b ≡ esis_of self.old b }
        ensures room { OnOk result (HasRoomFor self.new block) }
    {
        let share = self.sharing.share(block);
        let index = self.sharing.index(block);
        if let Some(lists) = self.shares.get_mut(&share) {
            return lists.reserve(index);
        }
        let mut lists = SharedLists::new(alloc);
        lists.reserve(index)?;
        match self.shares.insert(share, lists) {
            Ok(_) => Ok(()),
            Err(_) => Err(AllocError),
        }
    }

    /// Notes one more of a block, for which there is room.
    pub(crate) fn push(&mut self, block: u32, esi: u8)
        requires { HasRoomFor self.old block }
        ensures pushed { esis_of self.new block ≡ esis_of self.old block ++ esi ∷ [] }
        ensures others { (b : ℕ) → block ≢ b → esis_of self.new b ≡ esis_of self.old b }
    {
        let share = self.sharing.share(block);
        let index = self.sharing.index(block);
        match self.shares.get_mut(&share) {
            Some(lists) => lists.push(index, esi).unwrap(),
            None => unreachable!(),
        }
    }
}
