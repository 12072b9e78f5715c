//! The FEC object transmission information (FTI) of FEC Encoding ID 5 (RFC 5510, section 5.2) and
//! the partition of an object into source blocks (RFC 5052, section 9.1).
//!
//! ```
//! let fti = Fti::new(OBJECT.len() as u64, 8, 5, 8)?;
//! println!(rt;
//!     "{} blocks of up to {} symbols",
//!     fti.block_count(),
//!     fti.block_length()
//! )?;
//! ```
//!
//! An object of L bytes is cut into T source symbols of E bytes, the last of them filled up with
//! zeros, and these into N source blocks of nearly equal size: the first I of them have one source
//! symbol more than the others.
//!
//! The FTI and what it makes of an object are in this file; `order` is how the symbols follow one
//! another when they are sent. No call takes memory.
#![tactic(auto)]

ghost use Rattle.std.specs.Prelude.{◌≡◌, ℕ, ◌+◌, ◌*◌, ◌^◌, ◌<◌, ◌≤◌, min, length, true, Some, None};
ghost use Rattle.std.specs.Prelude.{IfOk, IfErr};
ghost use Rattle.partition.specs.Fti.{symbol_count, block_count, source_count, start_of};
ghost use Rattle.partition.specs.Fti.{block_bytes, encoding_count, has_symbol, last_length};
ghost use Rattle.partition.specs.Fti.{fti_from, IsValidFti};
ghost use Rattle.partition.specs.FtiBytes.{bytes_of_fti, fti_of_bytes};

mod first_fault;
mod order;

use byteorder::{BigEndian, ByteOrder};
pub use first_fault::fault_order;
pub use order::Order;
use std::fmt;
use std::marker::Model;
use thiserror::Error;

/// Why four numbers are no FTI: the first fault that holds, in this order.
#[derive(Debug, Clone, Copy, PartialEq, Eq, Error)]
pub enum FtiError {
    /// The transfer length is 0.
    #[error("F1 LengthZero")]
    LengthZero,
    /// The transfer length is 2^48 bytes or more, and so doesn't stand in the six bytes of EXT_FTI.
    #[error("F2 LengthTooGreat")]
    LengthTooGreat,
    /// The encoding symbol length is 0.
    #[error("F3 SymbolZero")]
    SymbolZero,
    /// The maximum source block length is 0.
    #[error("F4 BlockZero")]
    BlockZero,
    /// The maximum number of encoding symbols is below the maximum source block length.
    #[error("F5 MaxBelowBlock")]
    MaxBelowBlock,
    /// There are more than 2^24 source blocks, and so a source block number doesn't stand in its
    /// three bytes.
    #[error("F6 TooManyBlocks")]
    TooManyBlocks,
}

/// A valid FTI, compared by its four numbers. Contracts see these, and that they are valid.
#[derive(Clone, Copy)]
#[derive_where(PartialEq, Eq)]
pub struct Fti {
    transfer_length: u64,
    symbol_length: u16,
    block_length: u8,
    max_symbols: u8,
    // The rest is what these determine of the partition. It is kept, so that a look at a packet
    // divides nothing, where it carries no FTI or one that is known.
    //
    // N: how many source blocks there are.
    #[derive_where(skip)]
    blocks: u32,
    // I: how many of them, the first ones, have one source symbol more than the others.
    #[derive_where(skip)]
    large: u32,
    // How many source symbols each of the others has.
    #[derive_where(skip)]
    small: u8,
}

impl Model for Fti {
    ghost use Rattle.std.specs.Prelude.{◌/◌, refl};
    ghost use Rattle.partition.specs.Fti.{Fti as FtiValue, fti_from};
    ghost use Rattle.partition.specs.Fti.{symbol_count, block_count, large_blocks};
    ghost use Rattle.partition.specs.Kept.{IsKept};

    ghost Value = { FtiValue };

    ghost view = { λ f. fti_from f.transfer_length f.symbol_length f.block_length f.max_symbols };

    ghost invariant = { λ f. IsKept
        (fti_from f.transfer_length f.symbol_length f.block_length f.max_symbols)
        f.blocks f.large f.small };

    ghost inverse = { λ v. record {
      transfer_length = v.transfer_length;
      symbol_length = v.symbol_length;
      block_length = v.block_length;
      max_symbols = v.max_symbols;
      blocks = block_count v;
      large = large_blocks v;
      small = symbol_count v / block_count v;
    } };

    ghost inverse_ok = { λ f kept. rw (kept.blocks_are, kept.large_are, kept.small_is) refl };
}

// As a derive shows the four numbers: what is kept beside them isn't shown.
impl fmt::Debug for Fti {
    fn fmt<W: fmt::Write>(&self, f: &mut fmt::Formatter<W>) -> fmt::Result {
        f.debug_struct("Fti")
            .field("transfer_length", &self.transfer_length)
            .field("symbol_length", &self.symbol_length)
            .field("block_length", &self.block_length)
            .field("max_symbols", &self.max_symbols)
            .finish()
    }
}

impl Fti {
    ghost use Rattle.partition.specs.FtiFault.{fti_fault};

    /// The FTI of transfer length `l` and encoding symbol length `e`, both in bytes, of at most `b`
    /// source symbols and at most `max_n` encoding symbols a block. Any numbers may be given. Where
    /// they are no FTI, the error is the first that holds of `LengthZero`, `LengthTooGreat`,
    /// `SymbolZero`, `BlockZero`, `MaxBelowBlock` and `TooManyBlocks`.
    #[tactic(auto, using(crate::proofs::Laws::ceiling_is, crate::proofs::Faults::valid_no_fault), unfolding(crate::specs::Fti::symbol_count, crate::specs::Fti::block_count))]
    pub fn new(l: u64, e: u16, b: u8, max_n: u8) -> Result<Fti, FtiError>
        ensures numbers { IfOk result (λ f. f ≡ fti_from l e b max_n) }
        ensures valid { IfOk result IsValidFti }
        ensures no_fault { IfOk result (λ f. fti_fault f ≡ None) }
        ensures invalid { IfErr result (λ _. ¬ IsValidFti (fti_from l e b max_n)) }
        ensures first_fault { IfErr result (λ r. fti_fault (fti_from l e b max_n) ≡ Some r) }
    {
        if l == 0 {
            return Err(FtiError::LengthZero);
        }
        if l >= 1 << 48 {
            return Err(FtiError::LengthTooGreat);
        }
        if e == 0 {
            return Err(FtiError::SymbolZero);
        }
        if b == 0 {
            return Err(FtiError::BlockZero);
        }
        if max_n < b {
            return Err(FtiError::MaxBelowBlock);
        }
        let symbols = l.div_ceil(u64::from(e));
        let blocks = symbols.div_ceil(u64::from(b));
        if blocks > 1 << 24 {
            return Err(FtiError::TooManyBlocks);
        }
        // At most 2^24 blocks of at most 255 source symbols have fewer than 2^32. Numbers of 32
        // bits are divided faster than those of 64.
        let (symbols, blocks) = (symbols as u32, blocks as u32);
        Ok(Fti {
            transfer_length: l,
            symbol_length: e,
            block_length: b,
            max_symbols: max_n,
            blocks,
            large: symbols % blocks,
            small: (symbols / blocks) as u8,
        })
    }

    // Whether these are the numbers.
    fn has_numbers(&self, l: u64, e: u16, b: u8, max_n: u8) -> bool
        ensures { result ≡ true → self.now ≡ fti_from l e b max_n }
    {
        l == self.transfer_length
            && e == self.symbol_length
            && b == self.block_length
            && max_n == self.max_symbols
    }

    // As `new`. Where the numbers are those of the FTI that is known, nothing is divided.
    #[tactic(auto, using(crate::proofs::Faults::valid_no_fault))]
    fn new_with(known: Option<&Fti>, l: u64, e: u16, b: u8, max_n: u8) -> Result<Fti, FtiError>
        ensures numbers { IfOk result (λ f. f ≡ fti_from l e b max_n) }
        ensures valid { IfOk result IsValidFti }
        ensures no_fault { IfOk result (λ f. fti_fault f ≡ None) }
        ensures invalid { IfErr result (λ _. ¬ IsValidFti (fti_from l e b max_n)) }
        ensures first_fault { IfErr result (λ r. fti_fault (fti_from l e b max_n) ≡ Some r) }
    {
        match known {
            Some(known) if known.has_numbers(l, e, b, max_n) => {
                known.is_valid();
                Ok(*known)
            }
            _ => Fti::new(l, e, b, max_n),
        }
    }

    /// The FTI in its ten bytes (RFC 5510, section 5.2.4.1): L in six, E in two, B and max_n in one
    /// each. The errors are those of [`Fti::new`]. Where the bytes are those of the FTI that is
    /// known, nothing is divided.
    pub fn from_bytes(bytes: &[u8], known: Option<&Fti>) -> Result<Fti, FtiError>
        requires { length bytes.now ≡ 10 }
        ensures numbers { IfOk result (λ f. f ≡ fti_of_bytes bytes.now) }
        ensures valid { IfOk result IsValidFti }
        ensures no_fault { IfOk result (λ _. fti_fault (fti_of_bytes bytes.now) ≡ None) }
        ensures fault { IfErr result (λ e. fti_fault (fti_of_bytes bytes.now) ≡ Some e) }
    {
        let transfer_length = BigEndian::read_u48(bytes);
        let symbol_length = BigEndian::read_u16(&bytes[6..]);
        Fti::new_with(known, transfer_length, symbol_length, bytes[8], bytes[9])
    }

    /// Writes the ten bytes of the FTI.
    pub fn write_to(&self, out: &mut [u8])
        requires { length out.old ≡ 10 }
        ensures written { out.new ≡ bytes_of_fti self.now }
        ensures valid { IsValidFti self.now }
    {
        BigEndian::write_u48(out, self.transfer_length());
        BigEndian::write_u16(&mut out[6..], self.symbol_length());
        out[8..].copy_from_slice(&[self.block_length(), self.max_symbols()]);
    }

    /// What the type says: an `Fti` is valid.
    pub fn is_valid(&self)
        ensures { IsValidFti self.now }
    {
        // A field that is read brings what the type says.
        let _ = &self.max_symbols;
    }

    /// L: the transfer length, the object's length in bytes, at least one and below 2^48.
    pub fn transfer_length(&self) -> u64
        ensures value { result ≡ self.now.transfer_length }
        ensures valid { IsValidFti self.now }
    {
        self.transfer_length
    }

    /// E: the encoding symbol length, the bytes of each symbol, at least one.
    pub fn symbol_length(&self) -> u16
        ensures value { result ≡ self.now.symbol_length }
        ensures valid { IsValidFti self.now }
    {
        self.symbol_length
    }

    /// B: the maximum source block length, the most source symbols of a block, at least one.
    pub fn block_length(&self) -> u8
        ensures value { result ≡ self.now.block_length }
        ensures bounds { (1 ≤ result) × (result ≤ self.now.max_symbols) }
    {
        self.block_length
    }

    /// The most encoding symbols of a block, at least B and at most 255.
    pub fn max_symbols(&self) -> u8
        ensures value { result ≡ self.now.max_symbols }
        ensures bounds { (self.now.block_length ≤ result) × (result ≤ 255) }
    {
        self.max_symbols
    }

    /// T: how many source symbols the object has, at least one.
    #[tactic(auto, using(crate::proofs::Kept::kept_symbols, crate::proofs::Laws::some_symbol, crate::proofs::Laws::symbols_few))]
    pub fn symbol_count(&self) -> u64
        ensures value { result ≡ symbol_count self.now }
        ensures some { 1 ≤ result }
        ensures few { result ≤ self.now.transfer_length }
    {
        u64::from(self.blocks) * u64::from(self.small) + u64::from(self.large)
    }

    /// N: how many source blocks the object has, at least one and at most 2^24. They share its
    /// source symbols.
    #[tactic(auto, using(crate::proofs::Kept::kept_some, crate::proofs::Laws::start_end))]
    pub fn block_count(&self) -> u32
        ensures value { result ≡ block_count self.now }
        ensures some { 1 ≤ result }
        ensures few { result ≤ 2 ^ 24 }
        // The source symbols of all blocks are those of the object.
        ensures whole { start_of self.now result ≡ symbol_count self.now }
        ensures valid { IsValidFti self.now }
    {
        self.blocks
    }

    // The source symbols of a small block, and how many blocks, the first ones, have one more.
    #[tactic(auto, using(crate::proofs::Laws::large_is, crate::proofs::Laws::large_count, crate::proofs::Laws::other_count, crate::proofs::Laws::start_is))]
    fn shares(&self) -> (usize, u32)
        ensures large { (b : ℕ) → b < result.1 → source_count self.now b ≡ result.0 + 1 }
        ensures small { (b : ℕ) → result.1 ≤ b → source_count self.now b ≡ result.0 }
        ensures start { (b : ℕ) → start_of self.now b ≡ b * result.0 + min b result.1 }
    {
        (usize::from(self.small), self.large)
    }

    /// k: how many source symbols block `b`, which is below N, has: at least one and at most B.
    #[tactic(auto, using(crate::proofs::Laws::some_source, crate::proofs::Laws::source_most))]
    pub fn k(&self, b: u32) -> usize
        requires { b < block_count self.now }
        ensures value { result ≡ source_count self.now b }
        ensures some { 1 ≤ result }
        ensures most { result ≤ self.now.block_length }
        ensures byte { result ≤ 255 }
    {
        self.is_valid();
        let (small, large) = self.shares();
        if b < large { small + 1 } else { small }
    }

    // k * max_symbols. A B-th of it, rounded down, is n.
    fn product(&self, b: u32) -> u32
        requires { b < block_count self.now }
        ensures { result ≡ source_count self.now b * self.now.max_symbols }
    {
        self.k(b) as u32 * u32::from(self.max_symbols)
    }

    /// n: how many encoding symbols block `b`, which is below N, has, its source symbols among them
    /// (RFC 5510, section 6.2): at least k and at most `max_symbols`.
    #[tactic(auto, using(crate::proofs::Laws::source_encoding, crate::proofs::Laws::encoding_most), unfolding(crate::specs::Fti::encoding_count))]
    pub fn n(&self, b: u32) -> usize
        requires { b < block_count self.now }
        ensures value { result ≡ encoding_count self.now b }
        ensures least { source_count self.now b ≤ result }
        ensures most { result ≤ self.now.max_symbols }
        ensures byte { result ≤ 255 }
    {
        (self.product(b) / u32::from(self.block_length)) as usize
    }

    /// Whether the object has source block `b`, and the block the encoding symbol with this ESI.
    /// Any two numbers may be given.
    #[tactic(auto, using(crate::proofs::Kept::has_multiplied))]
    pub fn has(&self, b: u32, esi: u8) -> bool
        ensures { result ≡ has_symbol self.now b esi }
    {
        // The ESI is below n where ESI + 1 is at most a B-th of the product. Multiplied by B, this
        // takes no division.
        b < self.block_count()
            && (u32::from(esi) + 1) * u32::from(self.block_length) <= self.product(b)
    }

    /// How many source symbols the blocks before `b` have, and so the place of the first one of
    /// block `b`, which is below N, among those of the object.
    #[tactic(auto, using(crate::proofs::Laws::block_end, crate::proofs::Laws::start_fits))]
    pub fn start(&self, b: u32) -> u64
        requires { b < block_count self.now }
        ensures value { result ≡ start_of self.now b }
        ensures within { result + source_count self.now b ≤ symbol_count self.now }
    {
        self.is_valid();
        let (small, large) = self.shares();
        u64::from(b) * small as u64 + u64::from(b.min(large))
    }

    /// How many bytes of the object are those of block `b`, which is below N: fewer than those of
    /// its source symbols in the last block, where its last symbol is padded.
    #[tactic(auto, using(crate::proofs::Laws::begins_within))]
    pub fn block_bytes(&self, b: u32) -> usize
        requires { b < block_count self.now }
        ensures value { result ≡ block_bytes self.now b }
        ensures valid { IsValidFti self.now }
    {
        let size = u64::from(self.symbol_length());
        let left = self.transfer_length() - self.start(b) * size;
        left.min(self.k(b) as u64 * size) as usize
    }

    /// How many bytes of the object its last source symbol holds, at least one and at most E.
    #[tactic(auto, using(crate::proofs::Laws::last_bounds), unfolding(crate::specs::Fti::last_length))]
    pub fn last_length(&self) -> usize
        ensures value { result ≡ last_length self.now }
        ensures bounds { (1 ≤ result) × (result ≤ self.now.symbol_length) }
    {
        self.is_valid();
        (self.transfer_length - (self.symbol_count() - 1) * u64::from(self.symbol_length)) as usize
    }
}
