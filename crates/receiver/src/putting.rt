//! Putting a symbol to what is kept of an object.
ghost use Rattle.std.specs.Prelude.{◌≡◌, ◌<◌, ℕ, List, Option, length};
ghost use Rattle.partition.specs.Fti.{block_count, encoding_count};
ghost use Rattle.receiver.specs.Holds.{IsSound, HoldsIn};
ghost use Rattle.receiver.specs.Putting.{StoreOutcome, bytes_now};

use crate::pending_block::{compare, place_of};
use crate::receiver::FeedFault;
use crate::store::Store;
use alc::Packet;
use block_bytes::BlockBytes;
use std::alloc::Global;

impl Store {
    /// Puts the symbol of the packet at a place, which the FTI has.
    pub(crate) fn put<B: BlockBytes>(
        &mut self,
        alloc: Global,
        place: usize,
        packet: &Packet<'_>,
        bytes: &mut B,
    ) -> Result<(), FeedFault>
        requires sound { IsSound self.old }
        requires number { packet.now.sbn < block_count self.old.fti }
        requires esi { packet.now.esi < encoding_count self.old.fti packet.now.sbn }
        requires symbol { length packet.now.symbol.now ≡ self.old.fti.symbol_length }
        ensures fti { self.new.fti ≡ self.old.fti }
        ensures sound { IsSound self.new }
        ensures outcome { (at : ℕ → ℕ → Option (List ℕ))
            → HoldsIn self.old (B.kept bytes.old self.old.fti) at
            → StoreOutcome self.old.fti place packet.now at (bytes_now B.BlockBytes bytes.new)
            result self.new }
    {
        self.fti.is_valid();
        let fti = &self.fti;
        let solver = &mut self.solver;
        let esis = self.esis.get(packet.sbn);
        let have = esis.len();
        let need = fti.k(packet.sbn);
        if need <= have {
            return self
                .esis
                .put_to_solved(alloc, fti, place, packet, solver, bytes);
        }
        if let Some(index) = place_of(esis, packet.esi) {
            return compare(alloc, fti, place, packet, esis, index, bytes);
        }
        if have + 1 < need {
            return self.esis.keep(alloc, fti, packet, have, bytes);
        }
        self.esis.solve(alloc, fti, packet, solver, bytes)?;
        self.solved += 1;
        Ok(())
    }
}
