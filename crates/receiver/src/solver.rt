//! What source blocks are solved with.
ghost use Rattle.std.specs.Prelude.{◌≡◌, ◌<◌, ◌^◌, IfOk};
ghost use Rattle.block_recovery.specs.Rows.{HasSizes};

use block_code::BlockCodes;
use block_recovery::{Recovery, Rows};
use std::alloc::{AllocError, Global};

/// What source blocks are solved with: their codes, and what is used again from block to block.
#[derive(Drop)]
pub(crate) struct Solver {
    /// The code of each block.
    pub(crate) codes: BlockCodes,
    /// What recovered the missing symbols of a block, as blocks mostly lose the same ones.
    pub(crate) recovery: Option<Recovery>,
    /// Room for a block's source symbols.
    pub(crate) rows: Option<Rows>,
}

impl Solver {
    /// With these codes, and nothing else yet.
    pub(crate) fn new(codes: BlockCodes) -> Solver
        ensures codes { result.codes ≡ codes }
        ensures recovery { result.recovery ≡ None }
    {
        Solver {
            codes,
            recovery: None,
            rows: None,
        }
    }

    /// Room for rows of these sizes. What it has isn't said.
    pub(crate) fn room(
        &mut self,
        alloc: Global,
        count: usize,
        size: usize,
    ) -> Result<Rows, AllocError>
        requires few { count < 2 ^ 8 }
        requires small { size < 2 ^ 16 }
        ensures sizes { IfOk result (HasSizes count size) }
        ensures codes { self.new.codes ≡ self.old.codes }
        ensures recovery { self.new.recovery ≡ self.old.recovery }
    {
        if let Some(rows) = self.rows.take() {
            if rows.count == count && rows.size == size {
                return Ok(rows);
            }
        }
        Ok(Rows {
            bytes: vec![in alloc; 0; count * size]?,
            size,
            count,
        })
    }
}
