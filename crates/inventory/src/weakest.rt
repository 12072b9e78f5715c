//! The block that has the fewest symbols beyond those that it needs.
ghost use Rattle.std.specs.Prelude.{◌≡◌, ◌<◌, ◌≤◌, ℕ, List, length, filter};
ghost use Rattle.std.specs.BTreeSet.{contains};
ghost use Rattle.lists.specs.Below.{below};
ghost use Rattle.partition.specs.Fti.{block_count, encoding_count};
ghost use Rattle.inventory.specs.Parts.{IsWeakest};
ghost use Rattle.inventory.specs.Tally.{pair_cmp, AreIds};

use partition::Fti;
use std::collections::BTreeSet;

// How many different encoding symbols of a block came.
fn have_of(symbols: &BTreeSet<(u32, u8)>, fti: &Fti, block: u32) -> usize
    requires { block < block_count fti.now }
    ensures count { result ≡ length (filter (λ j. contains pair_cmp symbols.now (block, j))
        (below (encoding_count fti.now block))) }
    ensures small { result ≤ 255 }
{
    let count = fti.n(block) as u8;
    let mut have = 0;
    for esi in 0..count {
        if symbols.contains(&(block, esi)) {
            have += 1;
        }
    }
    have
}

/// The block with the fewest symbols beyond those that it needs, the first of such blocks; how many
/// it needs, and how many it has. Of the blocks behind the first of which nothing came, none needs
/// more than that one.
pub(crate) fn weakest(symbols: &BTreeSet<(u32, u8)>, fti: &Fti) -> (u32, usize, usize)
    ensures { (ids : List (ℕ × ℕ)) → AreIds ids symbols.now
        → IsWeakest fti.now ids result.0 result.1 result.2 }
{
    fti.is_valid();
    let mut weakest = 0;
    let mut least_need = fti.k(0);
    let mut least_have = have_of(symbols, fti, 0);
    for block in 0..fti.block_count() {
        let need = fti.k(block);
        let have = have_of(symbols, fti, block);
        if have + least_need < least_have + need {
            weakest = block;
            least_need = need;
            least_have = have;
        }
        if have == 0 {
            return (weakest, least_need, least_have);
        }
    }
    (weakest, least_need, least_have)
}
