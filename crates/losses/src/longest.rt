//! The longest harmless run from each place on.
//!
//! A run is too long once it takes a whole window that leaves its block short, or all carriers. So
//! a run that is shorter by one is put at the first place of each window, and goes on to the places
//! before it where none that ends earlier stands there.
ghost use Rattle.std.specs.Prelude.{◌≡◌, ℕ, ◌+◌, ◌<◌, ◌≤◌, ◌^◌, Some, None, IfOk, length};
ghost use Rattle.std.specs.Prelude.{slice_set, OnOk};
ghost use Rattle.losses.specs.Groups.{groups_of, AreGroups, AreCarriers, blocks_of_groups, places};
ghost use Rattle.losses.specs.Losses.{IsBurst};
ghost use Rattle.losses.specs.Members.{different_outside};
ghost use Rattle.losses.specs.Runs.{run_at, AreRuns, IsLeastLength};
ghost use Rattle.losses.specs.Starts.{shorter, AreMarked, AreSpread, AreFilled};
ghost use Rattle.losses.specs.Windows.{ArePlaced, place_at};

use crate::groups::{Groups, Member};
use crate::window::Window;
use std::alloc::{AllocError, Global};

/// The longest run of neighbouring places from a place on whose loss is harmless, and what one
/// place more would leave short.
#[derive(Clone, Copy, Debug, PartialEq, Eq)]
pub struct Run {
    /// How many places it has.
    pub length: usize,
    /// A group that a run longer by one leaves short; `None` where that takes all carriers.
    pub block: Option<usize>,
}

// Puts a run in at a place, unless one stands there that is as short.
fn put(runs: &mut [Option<Run>], start: usize, run: Run)
    requires { start < length runs.old }
    ensures { runs.new ≡ slice_set runs.old start (Some (shorter (run_at runs.old start) run)) }
{
    match runs[start] {
        Some(old) if old.length <= run.length => {}
        _ => runs[start] = Some(run),
    }
}

// At the place of each member the narrowest window from there on whose loss leaves the group short.
fn mark(runs: &mut [Option<Run>], block: usize, members: &[Member], need: usize)
    requires placed { ArePlaced members.now }
    requires within { (i : ℕ) → i < length members.now
        → place_at members.now i < length runs.old }
    requires some { 0 < need }
    requires enough { need ≤ different_outside members.now 0 0 }
    ensures { AreMarked members.now need block (length members.now) runs.old runs.new }
{
    let mut window = Window::new(members);
    for start in 0..members.len() {
        if !window.widen(members, need) {
            break;
        }
        let place = members[start].place;
        let length = members[window.end - 1].place - place;
        let run = Run {
            length,
            block: Some(block),
        };
        put(runs, place, run);
        window.narrow(members);
    }
}

// A run from a place on ends where one from the place behind it ends, or earlier.
fn spread(runs: &mut [Option<Run>])
    requires { (s : ℕ) (run : Run) → run_at runs.old s ≡ Some run
        → s + run.length < 2 ^ 64 }
    ensures { AreSpread 0 runs.old runs.new }
{
    // From the end down, so that the run behind is the shortest already.
    let mut place = runs.len();
    while place > 1 {
        place -= 1;
        if let Some(behind) = runs[place] {
            let run = Run {
                length: behind.length + 1,
                block: behind.block,
            };
            put(runs, place - 1, run);
        }
    }
}

// Puts in at each place the longest harmless run from there on.
fn fill(
    alloc: Global,
    runs: &mut [Option<Run>],
    groups: &Groups,
    carriers: &[usize],
) -> Result<(), AllocError>
    requires empty { (s : ℕ) → run_at runs.old s ≡ None }
    requires small { length runs.old < 2 ^ 64 }
    requires groups { AreGroups (groups_of groups.now) (length runs.old) }
    requires carriers { AreCarriers carriers.now (length runs.old) }
    ensures { OnOk result
        (AreFilled (groups_of groups.now) carriers.now (length runs.old) runs.new) }
{
    let mut members = Vec::new(alloc);
    for block in 0..groups.len() {
        groups.copy_members(block, &mut members)?;
        mark(runs, block, &members, groups.need(block));
    }
    // The narrowest run that takes all carriers goes from the first to the last.
    let first = carriers[0];
    let run = Run {
        length: carriers[carriers.len() - 1] - first,
        block: None,
    };
    put(runs, first, run);
    spread(runs);
    Ok(())
}

/// For each place of a list of `count` places the longest harmless run from there on, or `None`
/// where every run from there up to the list's end is harmless. The groups and the carriers' places
/// are those of the list, as [`crate::figures_of`] asks. Want of memory is the only error.
pub fn runs_of(
    alloc: Global,
    groups: &Groups,
    carriers: &[usize],
    count: usize,
) -> Result<Vec<Option<Run>>, AllocError>
    requires groups { AreGroups (groups_of groups.now) count }
    requires carriers { AreCarriers carriers.now count }
    ensures runs { IfOk result (λ runs. AreRuns
        (blocks_of_groups (groups_of groups.now) carriers.now) (places 0 count) runs.items) }
    // The shortest of them is the burst.
    ensures burst { IfOk result (λ runs. (burst : ℕ)
        → IsBurst (blocks_of_groups (groups_of groups.now) carriers.now) (places 0 count) burst
        → IsLeastLength runs.items burst) }
{
    let mut runs = vec![in alloc; None; count]?;
    fill(alloc, &mut runs, groups, carriers)?;
    Ok(runs)
}
