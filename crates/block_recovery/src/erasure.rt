//! Which source symbols of a block are missing, and which repair symbols came.
ghost use Rattle.std.specs.Prelude.{◌≡◌, ◌<◌, ◌≤◌, ℕ, not, length, slice_index, is_some, IfOk};
ghost use Rattle.block_recovery.specs.Blocks.{bytes_of_esi};
ghost use Rattle.block_recovery.specs.Erasures.{AreThose, AreErased};

use std::alloc::{AllocError, Global};

/// The ESIs of a block's source symbols that are missing, and of the repair symbols that came, both
/// rising.
#[derive(Drop)]
pub(crate) struct Erasure {
    pub(crate) missing: Vec<u8>,
    pub(crate) repair: Vec<u8>,
}

// The ESIs of a block's `k` source symbols that are missing.
fn missing_esis(alloc: Global, received: &[Option<&[u8]>], k: usize) -> Result<Vec<u8>, AllocError>
    requires few { k ≤ 255 }
    requires within { k ≤ length received.now }
    ensures { IfOk result
        (λ v. AreThose (λ j. not (is_some (bytes_of_esi received.now j))) 0 k v.items) }
{
    let mut missing = Vec::new(alloc);
    for i in 0..k {
        if received[i].is_none() {
            missing.push(i as u8)?;
        }
    }
    Ok(missing)
}

// The ESIs of the repair symbols that came, of a block of `k` source symbols.
fn repair_esis(alloc: Global, received: &[Option<&[u8]>], k: usize) -> Result<Vec<u8>, AllocError>
    requires few { length received.now ≤ 255 }
    requires within { k ≤ length received.now }
    ensures { IfOk result
        (λ v. AreThose (λ j. is_some (bytes_of_esi received.now j))
        k (length received.now) v.items) }
{
    let mut repair = Vec::new(alloc);
    for j in k..received.len() {
        if received[j].is_some() {
            repair.push(j as u8)?;
        }
    }
    Ok(repair)
}

/// What is missing of a block's `k` source symbols, and what came beside them.
pub(crate) fn erasure_of(
    alloc: Global,
    received: &[Option<&[u8]>],
    k: usize,
) -> Result<Erasure, AllocError>
    requires few { length received.now ≤ 255 }
    requires within { k ≤ length received.now }
    ensures { IfOk result
        (λ e. AreErased (bytes_of_esi received.now) k (length received.now)
        e.missing.items e.repair.items) }
{
    let missing = missing_esis(alloc, received, k)?;
    let repair = repair_esis(alloc, received, k)?;
    Ok(Erasure { missing, repair })
}

/// The ESIs of a block's `k` source symbols.
pub(crate) fn source_esis(alloc: Global, k: usize) -> Result<Vec<u8>, AllocError>
    requires { k ≤ 255 }
    ensures len { IfOk result (λ v. length v.items ≡ k) }
    ensures all { IfOk result (λ v. (i : ℕ) → i < k → slice_index v.items i ≡ i) }
{
    let mut esis = Vec::with_capacity(alloc, k)?;
    for i in 0..k {
        esis.push(i as u8)?;
    }
    Ok(esis)
}
