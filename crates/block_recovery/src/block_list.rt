//! The source blocks of which something came.
ghost use Rattle.std.specs.Prelude.{◌≡◌, ◌<◌, ◌^◌, ℕ, List, true, is_some, IfOk, OnOk};
ghost use Rattle.shared_lists.specs.SharedLists.{share_of};
ghost use Rattle.block_recovery.specs.Listed.{Stands, HaveSome};
ghost use Rattle.block_recovery.specs.Received.{came_at};

use crate::symbols::Symbols;
use std::alloc::{AllocError, Global};

// Lists the source blocks of which something came, of those whose symbols are in one allocation.
fn list_share<S: Drop>(
    symbols: &Symbols<S>,
    share: u32,
    blocks: &mut Vec<u32>,
) -> Result<(), AllocError>
    ensures here { OnOk result ((held : S → List ℕ) (b j : ℕ) → b < 2 ^ 32
        → share_of symbols.now.sharing b ≡ share
        → is_some (came_at held symbols.now b j) ≡ true → Stands blocks.new.items b) }
    ensures keeps { (b : ℕ) → Stands blocks.old.items b → Stands blocks.new.items b }
    ensures some { (held : S → List ℕ) → HaveSome held symbols.now blocks.old.items
        → HaveSome held symbols.now blocks.new.items }
{
    for index in 0..symbols.sharing.lists() {
        let Some(block) = symbols.sharing.number(share, index) else {
            continue;
        };
        if symbols.has_some(block) {
            blocks.push(block)?;
        }
    }
    Ok(())
}

/// The source blocks of which something came.
pub fn blocks_of<S: Drop>(alloc: Global, symbols: &Symbols<S>) -> Result<Vec<u32>, AllocError>
    ensures all { IfOk result (λ v. (held : S → List ℕ) (b j : ℕ) → b < 2 ^ 32
        → is_some (came_at held symbols.now b j) ≡ true → Stands v.items b) }
    ensures some { IfOk result (λ v. (held : S → List ℕ)
        → HaveSome held symbols.now v.items) }
{
    let mut blocks = Vec::new(alloc);
    for share in symbols.shares.keys() {
        list_share(symbols, *share, &mut blocks)?;
    }
    Ok(blocks)
}
