//! Places of a session by ranges: which it hasn't, and which were gone over.
ghost use Rattle.std.specs.Prelude.{◌≡◌, ◌&&◌, ℕ, nat_lt, nat_le, IfOk};
ghost use Rattle.session.specs.Ranges.{is_in_some, first_unhad};
ghost use Rattle.session.specs.RangeSteps.{AreByFirst, HaveSamePlaces, HaveBegun};

use crate::range::PlaceRange;
use std::alloc::{AllocError, Global};

/// The first place that a session so long doesn't have, of the first range that has such a place.
pub(crate) fn unhad(ranges: &[PlaceRange], len: usize) -> Option<usize>
    ensures { result ≡ first_unhad len ranges.now }
{
    for range in ranges {
        if range.last >= len {
            return Some(len.max(range.first));
        }
    }
    None
}

/// The ranges, sorted by their first places.
pub(crate) fn by_first(alloc: Global, ranges: &[PlaceRange]) -> Result<Vec<PlaceRange>, AllocError>
    ensures same { IfOk result (λ v. HaveSamePlaces ranges.now v.items) }
    ensures rising { IfOk result (λ v. AreByFirst v.items) }
{
    let mut sorted = Vec::from_slice(alloc, ranges)?;
    sorted.sort_unstable_by_key(|range| range.first);
    Ok(sorted)
}

/// How many ranges begin at the places that were met, and the greatest of their last places, where
/// there are some.
#[derive(Clone, Copy)]
pub(crate) struct Begun {
    pub(crate) count: usize,
    pub(crate) last: usize,
}

impl Begun {
    /// Those that begin at the next place, too. A place that was met isn't asked for again.
    pub(crate) fn meet(self, ranges: &[PlaceRange], place: usize) -> Begun
        requires { HaveBegun ranges.now self.count self.last place }
        ensures begun { HaveBegun ranges.now result.count result.last place }
        ensures value { is_in_some ranges.now place
            ≡ (nat_lt 0 result.count && nat_le place result.last) }
    {
        let mut begun = self;
        while begun.count < ranges.len() {
            let range = ranges[begun.count];
            if range.first > place {
                return begun;
            }
            begun = Begun {
                count: begun.count + 1,
                last: begun.last.max(range.last),
            };
        }
        begun
    }

    /// Whether one of them has the place that was met last.
    pub(crate) fn has(self, place: usize) -> bool
        ensures { result ≡ (nat_lt 0 self.count && nat_le place self.last) }
    {
        self.count > 0 && place <= self.last
    }
}
