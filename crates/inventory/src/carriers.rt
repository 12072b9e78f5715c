//! The FTIs of carriers, counted.
ghost use Rattle.std.specs.Prelude.{◌≡◌, ◌<◌, ◌≤◌, ◌+◌, ◌^◌, ◌++◌, ◌∷◌, [], List, IfOk, OnOk};
ghost use Rattle.partition.specs.Fti.{Fti as FtiValue};
ghost use Rattle.inventory.specs.Parts.{AreFtis};
ghost use Rattle.inventory.specs.Tally.{key_of as key_of_fti};

use crate::part::FtiCount;
use partition::Fti;
use std::alloc::{AllocError, Global};
use std::collections::BTreeMap;

// The numbers of an FTI: the lengths of object and symbol, and the most symbols of a block.
type Key = ((u64, u16), (u8, u8));

fn key_of(fti: &Fti) -> Key
    ensures { result ≡ key_of_fti fti.now }
{
    (
        (fti.transfer_length(), fti.symbol_length()),
        (fti.block_length(), fti.max_symbols()),
    )
}

/// How many carriers came, the FTI of the first, and of each FTI how many have it.
#[derive(Drop)]
pub(crate) struct Carriers {
    pub(crate) count: usize,
    pub(crate) first: Option<Fti>,
    pub(crate) counts: BTreeMap<Key, FtiCount>,
}

impl Carriers {
    ghost use Rattle.inventory.specs.Tally.{AreCounted};

    /// None came.
    pub(crate) fn new(alloc: Global) -> Carriers
        ensures none { AreCounted [] result }
        ensures count { result.count ≡ 0 }
    {
        Carriers {
            count: 0,
            first: None,
            counts: BTreeMap::new(alloc),
        }
    }

    /// One more came, with this FTI. After a fault nothing is said.
    pub(crate) fn note(&mut self, fti: Fti) -> Result<(), AllocError>
        requires { self.old.count + 1 < 2 ^ 64 }
        ensures counted { (ftis : List FtiValue) → AreCounted ftis self.old
            → OnOk result (AreCounted (ftis ++ fti ∷ []) self.new) }
        ensures few { self.new.count ≤ self.old.count + 1 }
    {
        let key = key_of(&fti);
        let before = match self.counts.get(&key) {
            Some(counted) => counted.carriers,
            None => 0,
        };
        let carriers = before.saturating_add(1);
        self.counts.insert(key, FtiCount { fti, carriers })?;
        if self.count == 0 {
            self.first = Some(fti);
        }
        self.count += 1;
        Ok(())
    }

    /// Each FTI that came, by its numbers, and how many carriers have it.
    pub(crate) fn ftis(&self, alloc: Global) -> Result<Vec<FtiCount>, AllocError>
        ensures { (ftis : List FtiValue) → AreCounted ftis self.now
            → IfOk result (λ counts. AreFtis ftis counts.items) }
    {
        let mut ftis = Vec::new(alloc);
        for (_key, counted) in &self.counts {
            ftis.push(*counted)?;
        }
        Ok(ftis)
    }
}
