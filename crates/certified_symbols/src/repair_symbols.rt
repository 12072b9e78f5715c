//! The repair symbols that a certificate gives of the first blocks, kept for the datagrams.
ghost use Rattle.std.specs.Prelude.{◌≡◌, ◌<◌, ◌+◌, length, IfSome, IfOk, IsNone};
ghost use Rattle.partition.specs.Fti.{block_count, source_count};
ghost use Rattle.certified_symbols.specs.CertifiedSymbol.{IsCertifiedSymbol};
ghost use Rattle.certificate.specs.BlockSymbols.{made_of};
ghost use Rattle.certified_symbols.specs.RepairSymbols.{AreKept, Keeps};

use crate::block_symbols::BlockSymbols;
use std::alloc::{AllocError, Global};

/// As many symbols of each of the first blocks, from the block's first repair symbol on, as the
/// greatest block has repair symbols. Whose they are, the symbols say that are passed with them.
#[derive(Drop)]
pub(crate) struct RepairSymbols {
    // Of each block.
    count: usize,
    blocks: u32,
    bytes: Vec<u8>,
}

impl RepairSymbols {
    /// Asks for room for all blocks, and keeps none yet.
    pub(crate) fn new(alloc: Global, latest: &BlockSymbols<'_>) -> Result<RepairSymbols, AllocError>
        ensures { IfOk result (λ s.
            AreKept latest.now.certificate s.count s.blocks s.bytes.items) }
    {
        let fti = latest.fti();
        let count = fti.n(0) - fti.k(0);
        let size = count * usize::from(fti.symbol_length());
        let bytes = Vec::with_capacity(alloc, fti.block_count() as usize * size)?;
        Ok(RepairSymbols {
            count,
            blocks: 0,
            bytes,
        })
    }

    /// The block behind those of which symbols are kept.
    pub(crate) fn next_block(&self) -> u32
        ensures { result ≡ self.now.blocks }
    {
        self.blocks
    }

    /// Makes all symbols of the next block at once, and keeps its repair symbols.
    pub(crate) fn make_next(&mut self, latest: &mut BlockSymbols<'_>)
        requires kept { AreKept latest.old.certificate self.old.count self.old.blocks
            self.old.bytes.items }
        requires block { self.old.blocks < block_count latest.old.certificate.fti }
        ensures kept { AreKept latest.old.certificate self.new.count self.new.blocks
            self.new.bytes.items }
        ensures made { latest.new ≡ made_of latest.old.certificate self.old.blocks 0
            (source_count latest.old.certificate.fti self.old.blocks + self.old.count) }
    {
        let block = self.blocks;
        let k = latest.fti().k(block);
        latest.make(block, 0, k + self.count);
        if let Ok(()) = self.bytes.extend_from_slice(latest.symbols_from(k)) {
            self.blocks += 1;
        }
    }

    /// The symbol of a block that has this ESI, where it is kept.
    pub(crate) fn get(&self, latest: &BlockSymbols<'_>, block: u32, esi: u8) -> Option<&[u8]>
        requires kept { AreKept latest.now.certificate self.now.count self.now.blocks
            self.now.bytes.items }
        requires block { block < block_count latest.now.certificate.fti }
        ensures none { IsNone result
            → ¬ Keeps latest.now.certificate self.now.count self.now.blocks block esi }
        ensures some { IfSome result (λ s.
            IsCertifiedSymbol latest.now.certificate block esi s.now) }
        ensures len { IfSome result (λ s.
            length s.now ≡ latest.now.certificate.fti.symbol_length) }
    {
        let fti = latest.fti();
        let k = fti.k(block);
        let esi = usize::from(esi);
        if block >= self.blocks || esi < k || esi - k >= self.count {
            return None;
        }
        let width = usize::from(fti.symbol_length());
        let from = block as usize * (self.count * width) + (esi - k) * width;
        Some(&self.bytes[from..from + width])
    }
}
