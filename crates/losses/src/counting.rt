//! Different symbols of a group.
ghost use Rattle.std.specs.Prelude.{◌≡◌, ◌<◌, ℕ, count_by, slice_index};
ghost use Rattle.losses.specs.Groups.{members_among};
ghost use Rattle.losses.specs.Members.{has_esi};
ghost use Rattle.losses.specs.Windows.{filled};

use crate::groups::{Entry, Member};

/// How often each ESI stands among the members.
pub(crate) fn copies_of(members: &[Member]) -> [usize; 256]
    ensures { (j : ℕ) → j < 256 → slice_index result j ≡ count_by (has_esi j) members.now }
{
    let mut copies = [0usize; 256];
    for member in members {
        let esi = member.esi as usize;
        copies[esi] += 1;
    }
    copies
}

/// How often each ESI stands among the members of a group, of which these are the entries, and
/// maybe of other groups.
pub(crate) fn copies_among(group: usize, entries: &[Entry]) -> [usize; 256]
    ensures { (j : ℕ) → j < 256
        → slice_index result j ≡ count_by (has_esi j) (members_among group entries.now) }
{
    let mut copies = [0usize; 256];
    for entry in entries {
        if entry.group as usize == group {
            let esi = entry.esi as usize;
            copies[esi] += 1;
        }
    }
    copies
}

/// How many of the counts aren't zero.
pub(crate) fn different(copies: &[usize; 256]) -> usize
    ensures { result ≡ filled copies.now }
{
    let mut different = 0;
    for esi in 0..256usize {
        if copies[esi] > 0 {
            different += 1;
        }
    }
    different
}
