//! How many of a block's encoding symbols came.
ghost use Rattle.std.specs.Prelude.{◌≡◌, ◌<◌, ◌≤◌, ℕ, List, length, filter, is_some, IfSome};
ghost use Rattle.std.specs.Prelude.{IfNone};
ghost use Rattle.lists.specs.Below.{below};
ghost use Rattle.decoder.specs.Answered.{IsShort, NoneIsShort};
ghost use Rattle.block_recovery.specs.Received.{came_at};

use crate::answer::Short;
use crate::source::Source;
use block_recovery::{Symbols, seen_of};

/// How many different ESIs below `n` came of a block.
pub fn have<S: Drop>(symbols: &Symbols<S>, b: u32, n: usize) -> usize
    requires { n ≤ 255 }
    ensures { (held : S → List ℕ)
        → result ≡ length (filter (λ j. is_some (came_at held symbols.now b j)) (below n)) }
{
    let Some(arrivals) = symbols.of_block(b) else {
        return 0;
    };
    let seen = seen_of(arrivals);
    let mut count = 0;
    for j in 0..n {
        if seen[j] {
            count += 1;
        }
    }
    count
}

/// The first block that has fewer encoding symbols than source symbols.
pub(crate) fn first_short<S: Source>(source: &S) -> Option<Short>
    ensures short { IfSome result (IsShort (S.known source.now) (S.at source.now)) }
    ensures enough { IfNone result (NoneIsShort (S.known source.now) (S.at source.now)) }
{
    let fti = source.fti();
    for block in 0..fti.block_count() {
        let have = source.count(block, fti.n(block));
        let need = fti.k(block);
        if have < need {
            return Some(Short { block, have, need });
        }
    }
    None
}
