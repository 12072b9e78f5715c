//! Where the symbols of an object are had from, block by block.
ghost use Rattle.std.specs.Prelude.{◌≡◌, ◌<◌, ◌≤◌, ◌^◌, ℕ, Bool, List, Option, true, length};
ghost use Rattle.std.specs.Prelude.{filter, is_some, slice_index, ⊤, IfOk, IfErr, IfSome, IsNone};
ghost use Rattle.lists.specs.Below.{below};
ghost use Rattle.partition.specs.Fti.{Fti as FtiValue, block_count};
ghost use Rattle.block_code.specs.Codes.{EachBlockHas};
ghost use Rattle.block_code.specs.CodesOf.{IsCodeOf};
ghost use Rattle.block_code.specs.declared.codes.BlockCodes.{BlockCodes as BlockCodesValue};
ghost use Rattle.block_recovery.specs.Decoded.{AreWithin, IsEnoughAt, AreRows, IsUnexplained};
ghost use Rattle.block_recovery.specs.Received.{bytes_at};
ghost use Rattle.block_recovery.specs.Recoveries.{IsKeptOf};
ghost use Rattle.decoder.specs.Sources.{IsUnreadOf};

use crate::counting::have;
use block_code::BlockCodes;
use block_recovery::{Received, Recovery, Rows, blocks_of, received_rows};
use partition::Fti;
use std::alloc::{AllocError, Global};
use thiserror::Error;

/// Why symbols that came weren't read again.
#[derive(Debug, Clone, Copy, PartialEq, Eq, Error)]
pub enum Unread {
    /// Reading has failed.
    #[error("Io")]
    Io,
    /// What is there isn't what was there before.
    #[error("Changed")]
    Changed,
    /// Memory is wanting.
    #[error("NoMemory")]
    NoMemory,
}

impl From<AllocError> for Unread {
    ghost use Rattle.std.specs.Prelude.{◌≡◌};
    ghost use Rattle.decoder.specs.declared.source.Unread.TheVariants.{NoMemory};

    ghost from_gives = { λ _ fault. fault ≡ NoMemory };

    fn from(_: AllocError) -> Self {
        Unread::NoMemory
    }
}

/// What came of an object. Which ESIs came of a block is known; their symbols are given where they
/// can be had again.
pub trait Source {
    /// What is used again from block to block: what symbols are read with, and what is kept of a
    /// solution.
    type Workspace: Drop;

    /// The object's FTI.
    ghost known: { Self → FtiValue };

    /// The bytes that came at each block and ESI.
    ghost at: { Self → ℕ → ℕ → Option (List ℕ) };

    /// That these bytes are those that are given.
    ghost Told: { Self → Type 0 };

    /// Whether reading can't fail.
    ghost reliable: { Self → Bool };

    /// That a workspace is for this source and these codes.
    ghost Fits: { Self → BlockCodesValue → Self.Workspace → Type 0 };

    /// The object's FTI.
    fn fti(&self) -> Fti
        ensures { result ≡ known self.now };

    /// How many different ESIs below `n` came of a block.
    fn count(&self, b: u32, n: usize) -> usize
        requires { n ≤ 255 }
        ensures { result ≡ length (filter (λ j. is_some (at self.now b j)) (below n)) };

    /// The source blocks of which something came.
    fn blocks(&self, alloc: Global) -> Result<Vec<u32>, AllocError>
        ensures all { IfOk result (λ v. (b j : ℕ) → b < 2 ^ 32
            → is_some (at self.now b j) ≡ true
            → (i : ℕ) × (i < length v.items) × (slice_index v.items i ≡ b)) }
        ensures some { IfOk result (λ v. (i : ℕ) → i < length v.items
            → (j : ℕ) × (is_some (at self.now (slice_index v.items i) j) ≡ true)) };

    /// A workspace in which nothing was read or solved yet.
    fn workspace(&self, alloc: Global) -> Result<Self::Workspace, AllocError>
        ensures { IfOk result (λ workspace. (codes : BlockCodesValue)
            → Fits self.now codes workspace) };

    /// The source symbols of a block, if all that came of it are symbols of an object.
    fn rows(
        &self,
        alloc: Global,
        codes: &BlockCodes,
        b: u32,
        workspace: &mut Self::Workspace,
    ) -> Result<Option<Rows>, Unread>
        requires number { b < block_count (known self.now) }
        requires codes { EachBlockHas (IsCodeOf (known self.now)) (known self.now) codes.now }
        requires within { Told self.now → AreWithin (known self.now) (at self.now) }
        requires enough { IsEnoughAt (known self.now) b (at self.now b) }
        requires fits { Fits self.now codes.now workspace.old }
        ensures rows { Told self.now → IfOk result (λ o. IfSome o (λ rows.
            AreRows (known self.now) b (at self.now b) rows.bytes.items)) }
        ensures none { Told self.now → IfOk result (λ o. IsNone o
            → IsUnexplained (known self.now) b (at self.now b)) }
        ensures fits { Fits self.now codes.now workspace.new }
        ensures fault { IfErr result (IsUnreadOf (Told self.now) (reliable self.now)) };
}

impl Source for Received<'_> {
    type Workspace = Option<Recovery>;

    ghost known = { λ received. received.fti };

    ghost at = { λ received. bytes_at received.symbols };

    ghost Told = { λ _. ⊤ };

    ghost reliable = { λ _. true };

    ghost Fits = { λ _ codes kept. IsKeptOf codes kept };

    fn fti(&self) -> Fti {
        self.fti
    }

    fn count(&self, b: u32, n: usize) -> usize {
        have(&self.symbols, b, n)
    }

    fn blocks(&self, alloc: Global) -> Result<Vec<u32>, AllocError> {
        blocks_of(alloc, &self.symbols)
    }

    fn workspace(&self, _alloc: Global) -> Result<Option<Recovery>, AllocError> {
        Ok(None)
    }

    fn rows(
        &self,
        alloc: Global,
        codes: &BlockCodes,
        b: u32,
        workspace: &mut Option<Recovery>,
    ) -> Result<Option<Rows>, Unread> {
        Ok(received_rows(alloc, self, codes, b, workspace)?)
    }
}
