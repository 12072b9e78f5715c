//! Where the datagrams of a session file stand, of which 8 bytes are held for each.
ghost use Rattle.std.specs.Prelude.{◌≡◌, ◌<◌, ◌≤◌, ◌+◌, ◌-◌, ◌^◌, ◌++◌, ◌∷◌, [], ℕ, length};
ghost use Rattle.std.specs.Prelude.{slice_index, slice_index_or, IsNone, IfSome, OnOk};
ghost use Rattle.file_check.specs.Standing.{begin_from, end_from, extents_from, no_extent};

use session::Extent;
use std::alloc::{AllocError, Global};

/// The extents of datagrams whose frames stand one behind the other from the file's front on. Where
/// each ends is held; it begins behind the end of the one before, and its length's two bytes.
#[derive(Drop)]
pub(crate) struct Extents {
    ends: Vec<u64>,
    ghost apart: { (i : ℕ) → i < length ends.items
        → (begin_from 0 ends.items i + 2 ≤ slice_index ends.items i)
        × (slice_index ends.items i - (begin_from 0 ends.items i + 2) < 2 ^ 16) },
}

impl Extents {
    /// None.
    pub(crate) fn new(alloc: Global) -> Extents
        ensures none { extents_from 0 result.ends.items ≡ [] }
        ensures end { end_from 0 result.ends.items ≡ 0 }
    {
        Extents {
            ends: Vec::new(alloc),
        }
    }

    /// Puts that of the next datagram last.
    pub(crate) fn push(&mut self, extent: Extent) -> Result<(), AllocError>
        requires begin { extent.offset ≡ end_from 0 self.old.ends.items + 2 }
        requires fits { extent.offset + extent.length < 2 ^ 64 }
        ensures pushed { OnOk result (extents_from 0 self.new.ends.items
            ≡ extents_from 0 self.old.ends.items ++ extent ∷ []) }
        ensures end { OnOk result (end_from 0 self.new.ends.items
            ≡ extent.offset + extent.length) }
    {
        self.ends.push(extent.offset + u64::from(extent.length))?;
        Ok(())
    }

    // Where the frame of a datagram begins.
    fn begin_of(&self, place: usize) -> u64
        requires { place < length self.now.ends.items }
        ensures { result ≡ begin_from 0 self.now.ends.items place }
    {
        match place.checked_sub(1) {
            Some(before) => self.ends.as_slice()[before],
            None => 0,
        }
    }

    /// That of the datagram at a place, if there is one.
    pub(crate) fn get(&self, place: usize) -> Option<Extent>
        ensures some { IfSome result (λ extent.
            extent ≡ slice_index_or (extents_from 0 self.now.ends.items) place no_extent) }
        ensures inside { IfSome result (λ _.
            place < length (extents_from 0 self.now.ends.items)) }
        ensures none { IsNone result
            → length (extents_from 0 self.now.ends.items) ≤ place }
    {
        let end = *self.ends.as_slice().get(place)?;
        let offset = self.begin_of(place) + 2;
        Some(Extent {
            offset,
            length: (end - offset) as u16,
        })
    }
}
