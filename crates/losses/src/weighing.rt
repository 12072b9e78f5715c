//! What a block can lose.
ghost use Rattle.std.specs.Prelude.{◌≡◌, ◌<◌, ◌≤◌, IfOk, nat_lt, nat_le, ◌||◌, ◌&&◌, ◌==◌};
ghost use Rattle.losses.specs.Members.{different_outside};
ghost use Rattle.losses.specs.Starts.{IsFirstGap};
ghost use Rattle.losses.specs.Windows.{ArePlaced, IsLeastGap};
ghost use Rattle.losses.specs.Costs.{IsWeighed, cheap_places};

use crate::counting::{copies_of, different};
use crate::groups::Member;
use crate::pricing::{Threshold, cheapest};
use crate::window::{Gap, least_gap};
use std::alloc::{AllocError, Global};

/// What leaves a block short: the cheapest symbols to lose, and the narrowest window.
#[derive(Clone, Copy)]
pub(crate) struct Weight {
    pub(crate) threshold: Threshold,
    pub(crate) gap: Gap,
}

/// The cheapest loss and the narrowest window that leave a block fewer than `need` different ESIs.
pub(crate) fn weigh(alloc: Global, members: &[Member], need: usize) -> Result<Weight, AllocError>
    requires placed { ArePlaced members.now }
    requires some { 0 < need }
    requires enough { need ≤ different_outside members.now 0 0 }
    ensures cut { IfOk result (λ w.
        IsWeighed members.now need w.threshold.cost w.threshold.most_copies w.threshold.last_esi) }
    ensures least { IfOk result (λ w. IsLeastGap members.now need w.gap.length) }
    ensures first { IfOk result (λ w. IsFirstGap members.now need w.gap.place w.gap.length) }
{
    let copies = copies_of(members);
    let esi_count = different(&copies);
    let threshold = cheapest(alloc, &copies, esi_count - need + 1)?;
    let gap = least_gap(members, need);
    Ok(Weight { threshold, gap })
}

// Whether an ESI with so many copies is among the cheapest.
fn is_up_to(copies: usize, esi: u8, threshold: Threshold) -> bool
    ensures { result
        ≡ (nat_lt copies threshold.most_copies
        || (copies == threshold.most_copies && nat_le esi threshold.last_esi)) }
{
    copies < threshold.most_copies || (copies == threshold.most_copies && esi <= threshold.last_esi)
}

/// All places of the cheapest symbols.
pub(crate) fn doomed_places(
    alloc: Global,
    members: &[Member],
    threshold: Threshold,
) -> Result<Vec<usize>, AllocError>
    ensures { IfOk result (λ v.
        v.items ≡ cheap_places members.now threshold.most_copies threshold.last_esi) }
{
    let copies = copies_of(members);
    let mut places = Vec::new(alloc);
    for member in members {
        if is_up_to(copies[member.esi as usize], member.esi, threshold) {
            places.push(member.place)?;
        }
    }
    Ok(places)
}
