//! A range of places of a session.
ghost use Rattle.std.specs.Prelude.{◌≤◌};

/// Places that follow one another, counted from 0: the first, the last, and those between them.
#[derive(Clone, Copy, Debug, PartialEq, Eq)]
pub struct PlaceRange {
    pub first: usize,
    pub last: usize,
    ghost ordered: { first ≤ last },
}
