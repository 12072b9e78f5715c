//! The symbols that a certificate gives, made when they are asked for.
//!
//! The object's come first, block by block. With them a block's repair symbols are made and kept,
//! as all of a block's symbols cost little more than some. Where they would be more bytes than the
//! object, they are made when a datagram asks for them.
ghost use Rattle.std.specs.Prelude.{◌≡◌, ◌↔◌, ◌<◌, ◌≤◌, ◌-◌, ◌*◌, IsTrue, IsNone, IfSome, IfOk};
ghost use Rattle.partition.specs.Fti.{symbol_count, block_count, source_count, encoding_count};
ghost use Rattle.certificate.specs.Certificate.{IsCertificate};
ghost use Rattle.certified_symbols.specs.CertifiedSymbol.{IsCertifiedSymbol};
ghost use Rattle.certificate.specs.BlockSymbols.{Holds};
ghost use Rattle.certified_symbols.specs.FirstWrong.{IsFirstWrong};
ghost use Rattle.certified_symbols.specs.RepairSymbols.{AreKept};

use crate::block_symbols::BlockSymbols;
use crate::differing::first_difference;
use crate::repair_symbols::RepairSymbols;
use crate::runs::Runs;
use certificate::CertificateView;
use partition::Fti;
use std::alloc::{AllocError, Global};
use std::marker::Model;

/// The symbols that a certificate gives. Contracts see the certificate.
#[derive(Drop)]
pub struct CertifiedSymbols<'a> {
    latest: BlockSymbols<'a>,
    // The repair symbols of the blocks so far, where all are few enough and there is room for them.
    kept: Option<RepairSymbols>,
    runs: Runs,
}

impl<'a> Model for CertifiedSymbols<'a> {
    ghost use Rattle.std.specs.Prelude.{IfSome};
    ghost use Rattle.certificate.specs.Certificate.{Certificate as CertificateValue};
    ghost use Rattle.certified_symbols.specs.RepairSymbols.{AreKept};

    ghost Value = { CertificateValue };

    ghost view = { λ s. s.latest.certificate };

    ghost invariant = { λ s. IfSome s.kept
        (λ k. AreKept s.latest.certificate k.count k.blocks k.bytes.items) };
}

// Whether the repair symbols of all blocks, as many of each as of the greatest, are no more than
// the source symbols.
fn are_few(fti: &Fti) -> bool
    ensures { IsTrue result
        ↔ (block_count fti.now * (encoding_count fti.now 0 - source_count fti.now 0)
        ≤ symbol_count fti.now) }
{
    let blocks = u64::from(fti.block_count());
    let most = (fti.n(0) - fti.k(0)) as u64;
    blocks * most <= fti.symbol_count()
}

// Makes all source symbols of a block, and its repair symbols with them where they are the next to
// be kept.
fn make_source(latest: &mut BlockSymbols<'_>, kept: &mut Option<RepairSymbols>, block: u32)
    requires block { block < block_count latest.old.certificate.fti }
    requires kept { IfSome kept.old
        (λ s. AreKept latest.old.certificate s.count s.blocks s.bytes.items) }
    ensures certificate { latest.new.certificate ≡ latest.old.certificate }
    ensures kept { IfSome kept.new
        (λ s. AreKept latest.old.certificate s.count s.blocks s.bytes.items) }
    ensures block { latest.new.block ≡ block }
    ensures first { latest.new.first ≡ 0 }
    ensures count { source_count latest.old.certificate.fti block ≤ latest.new.count }
{
    if let Some(kept) = kept {
        if kept.next_block() == block {
            kept.make_next(latest);
            return;
        }
    }
    let k = latest.fti().k(block);
    latest.make(block, 0, k);
}

// Makes a block's symbol with this ESI, and all its repair symbols with it unless it is alone.
fn make_repair(symbols: &mut BlockSymbols<'_>, block: u32, esi: u8, alone: bool)
    requires block { block < block_count symbols.old.certificate.fti }
    requires repair { source_count symbols.old.certificate.fti block ≤ esi }
    requires esi { esi < 255 }
    ensures certificate { symbols.new.certificate ≡ symbols.old.certificate }
    ensures holds { Holds symbols.new block esi }
{
    let fti = symbols.fti();
    let (k, n) = (fti.k(block), fti.n(block));
    let esi = usize::from(esi);
    if alone || esi >= n {
        symbols.make(block, esi, 1);
    } else {
        symbols.make(block, k, n - k);
    }
}

impl<'a> CertifiedSymbols<'a> {
    /// Asks for room for one block.
    pub fn new(
        alloc: Global,
        certificate: CertificateView<'a>,
    ) -> Result<CertifiedSymbols<'a>, AllocError>
        ensures { IfOk result (λ s. s ≡ certificate.entry) }
    {
        let latest = BlockSymbols::new(alloc, certificate)?;
        let kept = if are_few(&latest.fti()) {
            RepairSymbols::new(alloc, &latest).ok()
        } else {
            None
        };
        Ok(CertifiedSymbols {
            latest,
            kept,
            runs: Runs::new(),
        })
    }

    /// The certificate's FTI.
    pub fn fti(&self) -> Fti
        ensures value { result ≡ self.now.fti }
        ensures certificate { IsCertificate self.now }
    {
        self.latest.fti()
    }

    // Takes note of a symbol that is asked for.
    fn take_note(&mut self, block: u32, esi: u8)
        requires block { block < block_count self.old.fti }
        ensures { self.new ≡ self.old }
    {
        let fti = self.latest.fti();
        let k = fti.k(block);
        if usize::from(esi) >= k {
            self.runs.take(block, fti.n(block) - k);
        }
    }

    /// The least column in which these bytes, with zeros behind them, aren't the symbol of a block
    /// that has this ESI.
    pub fn first_wrong_column(&mut self, block: u32, esi: u8, bytes: &[u8]) -> Option<usize>
        requires block { block < block_count self.old.fti }
        requires esi { esi < 255 }
        ensures certificate { self.new ≡ self.old }
        ensures none { IsNone result → IsCertifiedSymbol self.old block esi bytes.now }
        ensures some { IfSome result (IsFirstWrong self.old block esi bytes.now) }
    {
        if let Some(kept) = &self.kept {
            if let Some(symbol) = kept.get(&self.latest, block, esi) {
                return first_difference(symbol, bytes);
            }
        }
        self.take_note(block, esi);
        if !self.latest.holds(block, esi) {
            if usize::from(esi) < self.latest.fti().k(block) {
                make_source(&mut self.latest, &mut self.kept, block);
            } else {
                make_repair(&mut self.latest, block, esi, self.runs.are_short());
            }
        }
        first_difference(self.latest.symbol(esi), bytes)
    }
}
