//! The symbols of a block that a certificate gives, many of them at once.
ghost use Rattle.std.specs.Prelude.{◌≡◌, ◌↔◌, ◌<◌, ◌≤◌, ◌+◌, ◌-◌, ◌*◌, IsTrue, length, IfOk};
ghost use Rattle.partition.specs.Fti.{block_count, encoding_count};
ghost use Rattle.certificate.specs.Certificate.{IsCertificate};
ghost use Rattle.certified_symbols.specs.CertifiedSymbol.{IsCertifiedSymbol};
ghost use Rattle.certificate.specs.BlockSymbols.{AreSymbols, Holds};

use certificate::CertificateView;
use evaluation::evaluate;
use partition::Fti;
use std::alloc::{AllocError, Global};
use std::marker::Model;

// Makes the front of these bytes `count` symbols of a block, from ESI `first` on.
fn put_symbols(
    certificate: &CertificateView<'_>,
    block: u32,
    first: usize,
    count: usize,
    bytes: &mut [u8],
)
    requires block { block < block_count certificate.now.fti }
    requires near { first ≤ 255 }
    requires few { count ≤ 255 }
    requires bytes { count * certificate.now.fti.symbol_length ≤ length bytes.old }
    ensures { AreSymbols certificate.now block first count bytes.new }
{
    let fti = certificate.fti();
    let k = fti.k(block);
    let width = usize::from(fti.symbol_length());
    evaluate(
        &mut bytes[..count * width],
        first,
        count,
        certificate.rows(block),
        k,
        width,
    );
}

/// Some symbols of one block, those that were made last, in room for all of the greatest block.
/// Contracts see of which certificate and block they are, and their ESIs.
#[derive(Drop)]
pub(crate) struct BlockSymbols<'a> {
    certificate: CertificateView<'a>,
    block: u32,
    first: usize,
    count: usize,
    bytes: Vec<u8>,
}

impl<'a> Model for BlockSymbols<'a> {
    ghost use Rattle.certificate.specs.BlockSymbols.{MadeSymbols, made_of, AreMade};

    ghost Value = { MadeSymbols };

    ghost view = { λ s. made_of s.certificate s.block s.first s.count };

    ghost invariant = { λ s.
        AreMade (made_of s.certificate s.block s.first s.count) s.bytes.items };
}

impl<'a> BlockSymbols<'a> {
    ghost use Rattle.certificate.specs.BlockSymbols.{made_of};

    /// Asks for room. No symbols are made yet.
    pub(crate) fn new(
        alloc: Global,
        certificate: CertificateView<'a>,
    ) -> Result<BlockSymbols<'a>, AllocError>
        ensures { IfOk result (λ s. s ≡ made_of certificate.entry 0 0 0) }
    {
        let fti = certificate.fti();
        let width = usize::from(fti.symbol_length());
        let bytes = Vec::from_elem(alloc, 0u8, fti.n(0) * width)?;
        Ok(BlockSymbols {
            certificate,
            block: 0,
            first: 0,
            count: 0,
            bytes,
        })
    }

    /// The certificate's FTI.
    pub(crate) fn fti(&self) -> Fti
        ensures value { result ≡ self.now.certificate.fti }
        ensures certificate { IsCertificate self.now.certificate }
    {
        self.certificate.fti()
    }

    /// Makes `count` symbols of a block, from ESI `first` on.
    pub(crate) fn make(&mut self, block: u32, first: usize, count: usize)
        requires block { block < block_count self.old.certificate.fti }
        requires near { first ≤ 255 }
        requires few { count ≤ encoding_count self.old.certificate.fti 0 }
        ensures { self.new ≡ made_of self.old.certificate block first count }
    {
        put_symbols(&self.certificate, block, first, count, &mut self.bytes);
        self.block = block;
        self.first = first;
        self.count = count;
    }

    /// Of the symbols that were made last those from one on, one behind the other.
    pub(crate) fn symbols_from(&self, place: usize) -> &[u8]
        requires { place ≤ self.now.count }
        ensures len { length result.now
            ≡ (self.now.count - place) * self.now.certificate.fti.symbol_length }
        ensures certified { AreSymbols self.now.certificate self.now.block
            (self.now.first + place) (self.now.count - place) result.now }
    {
        let width = usize::from(self.certificate.fti().symbol_length());
        &self.bytes[place * width..self.count * width]
    }

    /// Whether the symbol of a block that has this ESI was made last.
    pub(crate) fn holds(&self, block: u32, esi: u8) -> bool
        ensures { IsTrue result ↔ Holds self.now block esi }
    {
        let esi = usize::from(esi);
        block == self.block && self.first <= esi && esi - self.first < self.count
    }

    /// The symbol with this ESI, where it was made last.
    pub(crate) fn symbol(&self, esi: u8) -> &[u8]
        requires { Holds self.now self.now.block esi }
        ensures len { length result.now ≡ self.now.certificate.fti.symbol_length }
        ensures certified { IsCertifiedSymbol self.now.certificate self.now.block esi result.now }
    {
        let width = usize::from(self.certificate.fti().symbol_length());
        let from = (usize::from(esi) - self.first) * width;
        &self.bytes[from..from + width]
    }
}
