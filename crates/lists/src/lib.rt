//! What several crates say of lists and numbers: bytes, numbers below a bound, selections and
//! losses of places. Specifications and lemmas, and the laws that a type carries for its values.
#![tactic(auto)]

ghost use Rattle.lists.specs.Bytes.{AreBytes};

/// What the type says of a slice: each member is a byte.
pub fn are_bytes(bytes: &[u8])
    ensures { AreBytes bytes.now }
{}
