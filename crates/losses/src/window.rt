//! The narrowest run of places whose loss leaves a block short.
ghost use Rattle.std.specs.Prelude.{◌≡◌, ℕ, ◌+◌, ◌<◌, ◌≤◌, slice_set, nat_lt, false, length};
ghost use Rattle.std.specs.Prelude.{◌||◌, ◌&&◌, ◌==◌};
ghost use Rattle.losses.specs.Members.{different_outside};
ghost use Rattle.losses.specs.Windows.{filled, ArePlaced, IsLeastGap};
ghost use Rattle.losses.specs.Starts.{IsWindow, IsFirstGap};

use crate::counting::{copies_of, different};
use crate::groups::Member;

// Sets how many copies of an ESI there are: how many counts aren't zero then.
fn set_copies(copies: &mut [usize; 256], different: usize, esi: u8, count: usize) -> usize
    requires counted { different ≡ filled copies.old }
    ensures copies { copies.new ≡ slice_set copies.old esi count }
    ensures counted { result ≡ filled copies.new }
{
    let before = copies[esi as usize];
    copies[esi as usize] = count;
    different + usize::from(count > 0) - usize::from(before > 0)
}

/// The members of a block from `start` up to `end`, and what their loss leaves: how often each ESI,
/// and how many different ones.
#[derive(Drop)]
pub(crate) struct Window {
    pub(crate) start: usize,
    pub(crate) end: usize,
    copies: [usize; 256],
    left: usize,
}

impl Window {
    /// No member, before the first.
    pub(crate) fn new(members: &[Member]) -> Window
        ensures start { result.start ≡ 0 }
        ensures window { (need : ℕ) → IsWindow members.now need result }
    {
        let copies = copies_of(members);
        let left = different(&copies);
        Window {
            start: 0,
            end: 0,
            copies,
            left,
        }
    }

    /// Takes members at the end until fewer than `need` different ESIs are left: whether that came
    /// about. The end never goes back, so that each member enters once and leaves once.
    pub(crate) fn widen(&mut self, members: &[Member], need: usize) -> bool
        requires { IsWindow members.now need self.old }
        ensures start { self.new.start ≡ self.old.start }
        ensures window { IsWindow members.now need self.new }
        ensures short { result
            ≡ nat_lt (different_outside members.now self.new.start self.new.end) need }
        ensures all { result ≡ false → self.new.end ≡ length members.now }
    {
        while self.left >= need && self.end < members.len() {
            let esi = members[self.end].esi;
            let count = self.copies[esi as usize] - 1;
            self.left = set_copies(&mut self.copies, self.left, esi, count);
            self.end += 1;
        }
        self.left < need
    }

    /// Gives the first member back.
    pub(crate) fn narrow(&mut self, members: &[Member])
        requires window { (need : ℕ) × IsWindow members.now need self.old }
        requires some { self.old.start < self.old.end }
        ensures start { self.new.start ≡ self.old.start + 1 }
        ensures window { (need : ℕ) → IsWindow members.now need self.old
            → IsWindow members.now need self.new }
    {
        let esi = members[self.start].esi;
        let count = self.copies[esi as usize] + 1;
        self.left = set_copies(&mut self.copies, self.left, esi, count);
        self.start += 1;
    }
}

/// A window, by its first place and by how many places it has behind that one.
#[derive(Clone, Copy)]
pub(crate) struct Gap {
    pub(crate) place: usize,
    pub(crate) length: usize,
}

impl Gap {
    /// Whether this gap is narrower than the other, or as wide and begins earlier.
    pub(crate) fn is_before(self, other: Gap) -> bool
        ensures { result ≡ (nat_lt self.length other.length
            || (self.length == other.length && nat_lt self.place other.place)) }
    {
        self.length < other.length || (self.length == other.length && self.place < other.place)
    }
}

/// The first of the narrowest windows whose loss leaves fewer than `need` different ESIs.
pub(crate) fn least_gap(members: &[Member], need: usize) -> Gap
    requires placed { ArePlaced members.now }
    requires some { 0 < need }
    requires enough { need ≤ different_outside members.now 0 0 }
    ensures least { IsLeastGap members.now need result.length }
    ensures first { IsFirstGap members.now need result.place result.length }
{
    let mut window = Window::new(members);
    let mut least = Gap {
        place: 0,
        length: 0,
    };
    for start in 0..members.len() {
        if !window.widen(members, need) {
            break;
        }
        let place = members[start].place;
        let length = members[window.end - 1].place - place;
        if start == 0 || length < least.length {
            least = Gap { place, length };
        }
        window.narrow(members);
    }
    least
}
