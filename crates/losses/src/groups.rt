//! Groups of places.
ghost use Rattle.std.specs.Prelude.{◌≡◌, ◌<◌, ◌^◌, ◌++◌, ◌∷◌, [], ℕ, length, map};
ghost use Rattle.std.specs.Prelude.{IfOk, OnOk, OnErr};
ghost use Rattle.shared_lists.specs.SharedLists.{share_of};

use crate::counting::{copies_among, different};
use shared_lists::Sharing;
use std::alloc::{AllocError, Global};

/// A place of a list, counted from 0, and the encoding symbol ID of the symbol there.
#[derive(Clone, Copy, PartialEq, Eq, Debug)]
pub struct Member {
    /// The place.
    pub place: usize,
    /// The encoding symbol ID; several places may have one.
    pub esi: u8,
}

/// A member and the number of its group.
#[derive(Clone, Copy, PartialEq, Eq, Debug)]
pub struct Entry {
    /// The member's place.
    pub place: usize,
    /// The group's number.
    pub group: u32,
    /// The member's encoding symbol ID.
    pub esi: u8,
}

/// For each block how many different symbols it needs, at least one where figures are asked for,
/// and the places of a list that hold its symbols, which rise there.
#[derive(Drop)]
pub struct Groups {
    // How many symbols of different ESIs each block needs.
    needs: Vec<u8>,
    // Their members, as they were put in. Those of neighbouring groups share an allocation.
    sharing: Sharing,
    shares: Vec<Vec<Entry>>,
    ghost few: { length needs.items < 2 ^ 32 },
    ghost shared: { (b : ℕ) → b < length needs.items
        → share_of sharing b < length shares.items },
}

// Puts a value behind the others. Where there is no room for it, makes room for it and for a
// quarter of the others: room for as many again is much where there are many.
fn put_behind<T: Drop>(values: &mut Vec<T>, value: T) -> Result<(), AllocError>
    ensures put { OnOk result (values.new.items ≡ values.old.items ++ value ∷ []) }
    ensures stays { OnErr result (values.new.items ≡ values.old.items) }
{
    if values.len() == values.capacity() {
        values.reserve_exact(values.len() / 4 + 1)?;
    }
    values.push(value)?;
    Ok(())
}

impl Groups {
    ghost use Rattle.losses.specs.Groups.{different as different_of, group_at, groups_of};
    ghost use Rattle.losses.specs.Groups.{group_without, members_among, with_member};

    /// A group for each need, without members. `lengths` says about how many members each will
    /// have, and so how many groups share an allocation.
    pub fn new(alloc: Global, needs: Vec<u8>, lengths: usize) -> Result<Groups, AllocError>
        requires { length needs.items < 2 ^ 32 }
        ensures { IfOk result (λ groups. groups_of groups ≡ map group_without needs.items) }
    {
        let sharing = Sharing::of_lengths(lengths);
        let count = match needs.len() {
            0 => 0,
            count => sharing.share(count as u32 - 1) as usize + 1,
        };
        let mut shares = Vec::with_capacity(alloc, count)?;
        for _ in 0..count {
            shares.push(Vec::new(alloc))?;
        }
        Ok(Groups {
            needs,
            sharing,
            shares,
        })
    }

    /// How many groups there are.
    pub fn len(&self) -> usize
        ensures { result ≡ length (groups_of self.now) }
    {
        self.needs.len()
    }

    /// How many different symbols a group needs.
    pub fn need(&self, group: usize) -> usize
        requires { group < length (groups_of self.now) }
        ensures { result ≡ (group_at (groups_of self.now) group).need }
    {
        usize::from(self.needs[group])
    }

    /// The members of a group and those of its neighbours, as they were put in.
    pub fn entries_near(&self, group: usize) -> &[Entry]
        requires { group < length (groups_of self.now) }
        ensures { members_among group result.now ≡ (group_at (groups_of self.now) group).members }
    {
        let share = self.sharing.share(group as u32) as usize;
        self.shares[share].as_slice()
    }

    /// Replaces what a list has by the members of a group, as they were put in. Want of memory is
    /// the only error.
    pub fn copy_members(&self, group: usize, members: &mut Vec<Member>) -> Result<(), AllocError>
        requires { group < length (groups_of self.now) }
        ensures { OnOk result
            (members.new.items ≡ (group_at (groups_of self.now) group).members) }
    {
        members.clear();
        let entries = self.entries_near(group);
        for entry in entries {
            if entry.group as usize == group {
                let Entry { place, esi, .. } = *entry;
                put_behind(members, Member { place, esi })?;
            }
        }
        Ok(())
    }

    /// How many different symbols a group has: how many ESIs stand among its members, at most 256.
    pub fn different(&self, group: usize) -> usize
        requires { group < length (groups_of self.now) }
        ensures { result ≡ different_of (group_at (groups_of self.now) group).members }
    {
        different(&copies_among(group, self.entries_near(group)))
    }

    /// Puts a member behind those of a group. Want of memory is the only error.
    pub fn push(&mut self, group: u32, member: Member) -> Result<(), AllocError>
        requires { group < length (groups_of self.old) }
        ensures pushed { OnOk result
            (groups_of self.new ≡ with_member (groups_of self.old) group member) }
        ensures stays { OnErr result (groups_of self.new ≡ groups_of self.old) }
    {
        let Member { place, esi } = member;
        let share = self.sharing.share(group) as usize;
        put_behind(&mut self.shares[share], Entry { place, group, esi })
    }
}
