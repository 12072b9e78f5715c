//! Which of many numbered lists share an allocation.
ghost use Rattle.std.specs.Prelude.{◌<◌};

/// How many lists whose numbers follow each other share an allocation.
#[derive(Clone, Copy)]
pub struct Sharing {
    lists: u32,
    ghost some: { 0 < lists },
}

impl Sharing {
    ghost use Rattle.std.specs.Prelude.{◌≡◌, ◌≤◌, ◌+◌, ◌*◌, ◌/◌, ◌^◌, max, min, IfSome, IsNone};
    ghost use Rattle.shared_lists.specs.SharedLists.{share_of, index_of};

    /// How many lists share an allocation if each has up to so many values: as many as have some
    /// sixty values together, at least one and at most 32.
    pub fn of_lengths(length: usize) -> Sharing
        ensures { result.lists ≡ max 1 (min 32 (64 / max 1 length)) }
    {
        Sharing {
            lists: (64 / length.max(1)).min(32).max(1) as u32,
        }
    }

    /// The number of the allocation in which the list of a number is.
    pub fn share(&self, number: u32) -> u32
        ensures { result ≡ share_of self.now number }
    {
        // A division takes as long as a look at a packet's header.
        if self.lists == 1 {
            return number;
        }
        number / self.lists
    }

    /// The list's index there.
    pub fn index(&self, number: u32) -> usize
        ensures { result ≡ index_of self.now number }
    {
        if self.lists == 1 {
            return 0;
        }
        (number % self.lists) as usize
    }

    /// How many lists share an allocation.
    pub fn lists(&self) -> u32
        ensures { result ≡ self.now.lists }
    {
        self.lists
    }

    /// The number of the list at an index of an allocation, which is below `lists`. `None` says
    /// that it would be 2^32 or more.
    pub fn number(&self, share: u32, index: u32) -> Option<u32>
        ensures number { IfSome result (λ n. n ≡ share * self.now.lists + index) }
        ensures none { IsNone result → 2 ^ 32 ≤ share * self.now.lists + index }
    {
        share.checked_mul(self.lists)?.checked_add(index)
    }
}
