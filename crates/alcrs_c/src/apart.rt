//! A box taken apart.
ghost use Rattle.std.specs.Prelude.{◌≡◌};
ghost use Rattle.std_alloc.specs.Box.Ownership.{box_owns};

use std::alloc::Allocator;
use std::marker::Model;

/// Where a box's value is, and the allocator that frees it.
pub(crate) struct Apart<T, A: Allocator> {
    pub(crate) place: *mut T,
    pub(crate) alloc: A,
    pub(crate) ghost value: { T },
}

impl<T, A: Allocator> Model for Apart<T, A> {
    ghost also_owns = { λ p. box_owns (A.dealloc_token p.alloc) T.row p.place p.value };
}

impl<T: Drop, A: Allocator> Apart<T, A> {
    // Takes a box apart.
    pub(crate) fn from_box(whole: Box<T, A>) -> Apart<T, A>
        ensures { result.value ≡ whole.value }
    {
        let (place, alloc) = Box::into_raw_with_allocator(whole);
        Apart { place, alloc }
    }

    // Puts it together again.
    pub(crate) fn into_box(self) -> Box<T, A>
        ensures { result.value ≡ self.value }
    {
        let Apart { place, alloc } = self;
        unsafe { Box::from_raw(alloc, place) }
    }
}
