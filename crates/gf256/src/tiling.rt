//! How sources and columns are taken together.
ghost use Rattle.std.specs.Prelude.{◌≡◌, ◌≤◌, ◌+◌, ◌^◌};

/// How many bytes a list has for each bit of its coefficients. Each of the first ones tells the
/// entry of one group.
pub(crate) const STEP: usize = 16;

/// The bytes of a list, for 8 bits.
pub(crate) const LIST: usize = 128;

/// How the sources of one table are grouped. Source `q + x * groups` is number `x` of group `q`. A
/// group has `size` sources, and the table `entries` sums of it, one for each choice of them.
#[derive(Clone, Copy)]
pub(crate) struct Tiling {
    pub(crate) groups: usize,
    pub(crate) size: usize,
    pub(crate) entries: usize,
    ghost few: { groups ≤ 16 },
    ghost small: { size ≤ 5 },
    ghost all: { entries ≡ 2 ^ size },
}

impl Tiling {
    /// Groups of four.
    #[inline(always)]
    pub(crate) fn fours(groups: usize) -> Tiling
        requires { groups ≤ 16 }
        ensures groups { result.groups ≡ groups }
        ensures size { result.size ≡ 4 }
        ensures entries { result.entries ≡ 16 }
    {
        Tiling {
            groups,
            size: 4,
            entries: 16,
        }
    }

    /// Groups of five.
    #[inline(always)]
    pub(crate) fn fives(groups: usize) -> Tiling
        requires { groups ≤ 16 }
        ensures groups { result.groups ≡ groups }
        ensures size { result.size ≡ 5 }
        ensures entries { result.entries ≡ 32 }
    {
        Tiling {
            groups,
            size: 5,
            entries: 32,
        }
    }

    /// This tiling with fewer groups.
    #[inline(always)]
    pub(crate) fn with_groups(self, groups: usize) -> Tiling
        requires { groups ≤ self.groups }
        ensures groups { result.groups ≡ groups }
        ensures size { result.size ≡ self.size }
        ensures entries { result.entries ≡ self.entries }
    {
        Tiling {
            groups,
            size: self.size,
            entries: self.entries,
        }
    }
}

/// `used` columns from one on, 64 at most, of rows of `width` bytes.
#[derive(Clone, Copy)]
pub(crate) struct Columns {
    pub(crate) width: usize,
    pub(crate) at: usize,
    pub(crate) used: usize,
    ghost narrow: { used ≤ 64 },
    ghost within: { at + used ≤ width },
}
