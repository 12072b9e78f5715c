//! The packets of an identity, counted.
ghost use Rattle.std.specs.Prelude.{◌≡◌, ◌<◌, ◌≤◌, ◌+◌, ◌*◌, ◌^◌, ◌++◌, ◌∷◌, [], ℕ, List};
ghost use Rattle.std.specs.Prelude.{length, IfOk, OnOk};
ghost use Rattle.alc.specs.Packet.{Packet as PacketValue};
ghost use Rattle.alc.specs.Views.{packet_of};

use crate::carriers::Carriers;
use crate::part::Part;
use crate::weakest::weakest;
use alc::Packet;
use reception::Identity;
use std::alloc::{AllocError, Global};
use std::collections::BTreeSet;

/// The packets of an identity, counted, and the blocks and ESIs of their symbols.
#[derive(Drop)]
pub(crate) struct Tally {
    pub(crate) datagrams: usize,
    pub(crate) first: usize,
    pub(crate) last: usize,
    pub(crate) carriers: Carriers,
    pub(crate) symbols: BTreeSet<(u32, u8)>,
    // So one more can be counted where `datagrams` can.
    ghost few: { carriers.count ≤ datagrams },
}

impl Tally {
    ghost use Rattle.inventory.specs.Parts.{IsWeakestBy, IsPartOf};
    ghost use Rattle.inventory.specs.Tally.{AreIds, IsTally};

    /// No packet came.
    pub(crate) fn new(alloc: Global) -> Tally
        ensures none { IsTally [] result }
        ensures datagrams { result.datagrams ≡ 0 }
    {
        Tally {
            datagrams: 0,
            first: 0,
            last: 0,
            carriers: Carriers::new(alloc),
            symbols: BTreeSet::new(alloc),
        }
    }

    /// One more packet came, at this place. After a fault nothing is said.
    pub(crate) fn note(&mut self, place: usize, packet: &Packet<'_>) -> Result<(), AllocError>
        requires { self.old.datagrams + 1 < 2 ^ 64 }
        ensures counted { (xs : List (ℕ × PacketValue)) → IsTally xs self.old
            → OnOk result (IsTally (xs ++ (place, packet_of packet.now) ∷ []) self.new) }
        ensures datagrams { OnOk result (self.new.datagrams ≡ self.old.datagrams + 1) }
    {
        self.symbols.insert((packet.sbn, packet.esi))?;
        let first = if self.datagrams == 0 {
            place
        } else {
            self.first
        };
        self.first = first;
        self.last = place;
        self.datagrams += 1;
        if let Some(fti) = packet.fti {
            self.carriers.note(fti)?;
        }
        Ok(())
    }

    // The weakest block by the first carrier's FTI, where one came.
    fn weakest(&self) -> Option<(u32, usize, usize)>
        ensures { (ids : List (ℕ × ℕ)) → AreIds ids self.now.symbols
            → IsWeakestBy self.now.carriers.first ids result }
    {
        match &self.carriers.first {
            Some(fti) => Some(weakest(&self.symbols, fti)),
            None => None,
        }
    }

    /// What is told of them, where this is whose packets they are.
    pub(crate) fn part(&self, alloc: Global, identity: Identity) -> Result<Part, AllocError>
        ensures identity { IfOk result (λ part. part.identity ≡ identity) }
        ensures part { (xs : List (ℕ × PacketValue)) → 0 < length xs → IsTally xs self.now
            → IfOk result (IsPartOf xs) }
    {
        Ok(Part {
            identity,
            datagrams: self.datagrams,
            first: self.first,
            last: self.last,
            carriers: self.carriers.count,
            symbols: self.symbols.len(),
            ftis: self.carriers.ftis(alloc)?,
            weakest: self.weakest(),
        })
    }
}
