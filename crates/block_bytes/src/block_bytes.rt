//! Where the bytes of source blocks are kept.
ghost use Rattle.std.specs.Prelude.{◌≡◌, ◌<◌, ◌≤◌, ◌+◌, ◌*◌, ℕ, Bool, List, Option, Ok, Err, true};
ghost use Rattle.std.specs.Prelude.{length, is_some, OnOk, OnErr};
ghost use Rattle.partition.specs.Fti.{Fti as FtiValue, block_count, source_count};
ghost use Rattle.block_bytes.specs.Bytes.{StandIn, IsThere, Puts};

use partition::Fti;
use session::Failed;
use std::alloc::Global;

/// Why bytes aren't written.
#[derive(Debug, Clone, Copy, PartialEq, Eq)]
pub enum BytesFault {
    /// Memory is wanting, and nothing has changed.
    NoMemory,
    /// Writing has failed, or the bytes before these aren't there. What is kept isn't known.
    Failed,
}

/// The bytes of an object's source blocks, by the block's number. Of each block those stand first
/// that were put, one behind the other. What stands behind them isn't said.
pub trait BlockBytes {
    /// What is kept of each block of an object with this FTI, where it is told.
    ghost kept: { Self → FtiValue → Option (ℕ → List ℕ) };

    /// It is told for every FTI, or for none.
    ghost all_told: { (s : Self) (f g : FtiValue) → is_some (kept s f) ≡ is_some (kept s g) };

    /// Whether reading or writing has failed.
    ghost failed: { Self → Bool };

    /// Reads a block's bytes from a place on, all that `into` has room for. Where so many are
    /// there, an error comes only where reading has failed.
    fn read(&mut self, fti: &Fti, block: u32, from: usize, into: &mut [u8]) -> Result<(), Failed>
        requires number { block < block_count fti.now }
        requires inside { from + length into.old
            ≤ source_count fti.now block * fti.now.symbol_length }
        ensures len { length into.new ≡ length into.old }
        ensures bytes { OnOk result (StandIn (kept self.old fti.now) block from into.new) }
        ensures stays { kept self.new ≡ kept self.old }
        ensures fails { IsThere (kept self.old fti.now) block (from + length into.old)
            → OnErr result (failed self.new ≡ true) };

    /// Puts bytes behind the first `from` of a block. Where so many are there, `Failed` comes only
    /// where writing has failed.
    fn write(
        &mut self,
        alloc: Global,
        fti: &Fti,
        block: u32,
        from: usize,
        bytes: &[u8],
    ) -> Result<(), BytesFault>
        requires number { block < block_count fti.now }
        requires inside { from + length bytes.now
            ≤ source_count fti.now block * fti.now.symbol_length }
        ensures put { OnOk result (Puts (kept self.old fti.now) (kept self.new fti.now)
            block from bytes.now) }
        ensures stays { result ≡ Err BytesFault.NoMemory → kept self.new ≡ kept self.old }
        ensures fails { IsThere (kept self.old fti.now) block from
            → result ≡ Err BytesFault.Failed → failed self.new ≡ true };
}
