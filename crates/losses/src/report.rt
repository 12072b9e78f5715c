//! Margin, kill and burst.
ghost use Rattle.std.specs.Prelude.{◌≡◌, ℕ, ◌+◌, ◌<◌, IfOk, length};
ghost use Rattle.losses.specs.Groups.{groups_of, AreOfAList, InEachList};
ghost use Rattle.losses.specs.Ordered.{AreOrdered};
ghost use Rattle.losses.specs.Losses.{IsMargin, IsKill, IsBurst};
ghost use Rattle.losses.specs.Lightest.{IsLightest, IsNarrowest};
ghost use Rattle.losses.specs.Runs.{IsFirstBurst};

use crate::groups::Groups;
use crate::pricing::Threshold;
use crate::weighing::{doomed_places, weigh};
use crate::window::Gap;
use std::alloc::{AllocError, Global};

/// What a list can lose, in places.
#[derive(Drop, Debug)]
pub struct Figures {
    /// The greatest number of places whose loss, whichever they are, leaves no group short and a
    /// carrier.
    pub margin: usize,
    /// One place more, rising, whose loss does leave a group short, or else no carrier.
    pub kill: Vec<usize>,
    /// The group whose kill it is. With `None` it takes all carriers.
    pub kill_block: Option<usize>,
    /// The greatest number of neighbouring places whose loss, wherever they stand, leaves no group
    /// short and a carrier.
    pub burst: usize,
    /// The first place from which no more neighbours than the burst may be missed.
    pub burst_place: usize,
    /// The first group that one neighbour more from there leaves short. With `None` that leaves no
    /// group short, but takes all carriers.
    pub burst_block: Option<usize>,
}

// The first of the groups whose loss costs least. The first of the narrowest windows that leave a
// group short, and the first such group.
#[derive(Clone, Copy)]
struct Lightest {
    at: usize,
    threshold: Threshold,
    gap: Gap,
    gap_at: usize,
}

fn weigh_all(alloc: Global, groups: &Groups) -> Result<Lightest, AllocError>
    requires some { 0 < length (groups_of groups.now) }
    requires groups { (n : ℕ) × AreOrdered (groups_of groups.now) n }
    ensures lightest { IfOk result (IsLightest (groups_of groups.now)) }
    ensures narrowest { IfOk result (IsNarrowest (groups_of groups.now)) }
{
    let mut members = Vec::new(alloc);
    groups.copy_members(0, &mut members)?;
    let first = weigh(alloc, &members, groups.need(0))?;
    let mut at = 0;
    let mut threshold = first.threshold;
    let mut gap = first.gap;
    let mut gap_at = 0;
    for block in 1..groups.len() {
        groups.copy_members(block, &mut members)?;
        let weight = weigh(alloc, &members, groups.need(block))?;
        if weight.threshold.cost < threshold.cost {
            threshold = weight.threshold;
            at = block;
        }
        if weight.gap.is_before(gap) {
            gap = weight.gap;
            gap_at = block;
        }
    }
    Ok(Lightest {
        at,
        threshold,
        gap,
        gap_at,
    })
}

/// The figures of groups and of the places of carriers, of each one at least, in any list that has
/// their places. A group has the symbols that it needs: at least one, and no more than there are
/// different ones among the group's. The carriers' places rise. Want of memory is the only error.
pub fn figures_of(alloc: Global, groups: &Groups, carriers: &[usize]) -> Result<Figures, AllocError>
    requires some { 0 < length (groups_of groups.now) }
    requires groups { AreOfAList (groups_of groups.now) carriers.now }
    ensures margin { IfOk result (λ r. InEachList (groups_of groups.now) carriers.now
        (λ blocks xs. IsMargin blocks xs r.margin)) }
    ensures kill { IfOk result (λ r. InEachList (groups_of groups.now) carriers.now
        (λ blocks xs. IsKill blocks xs (r.margin + 1) r.kill.items r.kill_block)) }
    ensures burst { IfOk result (λ r. InEachList (groups_of groups.now) carriers.now
        (λ blocks xs. IsBurst blocks xs r.burst)) }
    ensures first { IfOk result (λ r. InEachList (groups_of groups.now) carriers.now
        (λ blocks xs. IsFirstBurst blocks xs r.burst r.burst_place r.burst_block)) }
{
    let block = weigh_all(alloc, groups)?;
    // The narrowest run that takes all carriers goes from the first to the last.
    let first = carriers[0];
    let span = Gap {
        place: first,
        length: carriers[carriers.len() - 1] - first,
    };
    let mut gap = block.gap;
    let mut burst_block = Some(block.gap_at);
    if span.is_before(gap) {
        gap = span;
        burst_block = None;
    }
    if carriers.len() < block.threshold.cost {
        return Ok(Figures {
            margin: carriers.len() - 1,
            kill: carriers.to_vec(alloc)?,
            kill_block: None,
            burst: gap.length,
            burst_place: gap.place,
            burst_block,
        });
    }
    let mut members = Vec::new(alloc);
    groups.copy_members(block.at, &mut members)?;
    let kill = doomed_places(alloc, &members, block.threshold)?;
    Ok(Figures {
        margin: block.threshold.cost - 1,
        kill,
        kill_block: Some(block.at),
        burst: gap.length,
        burst_place: gap.place,
        burst_block,
    })
}
