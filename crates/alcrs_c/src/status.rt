//! What a call returns, as alcrs.h names it.

/// Yes, or done.
pub(crate) const OK: u32 = 0;
/// The check says no.
pub(crate) const NO: u32 = 1;
/// A block is short.
pub(crate) const MISSING: u32 = 2;
/// No carrier of the FTI came.
pub(crate) const EMPTY: u32 = 3;
/// The datagrams are of no object.
pub(crate) const REFUSED: u32 = 4;
/// The bytes are no session's.
pub(crate) const NO_SESSION: u32 = 5;
/// The bytes are no certificate's.
pub(crate) const NO_CERTIFICATE: u32 = 6;
/// The numbers are no FTI.
pub(crate) const NO_FTI: u32 = 7;
/// No datagram holds the encoding symbol.
pub(crate) const TOO_LONG: u32 = 8;
/// The buffer is too small.
pub(crate) const NO_ROOM: u32 = 9;
/// Memory is wanting.
pub(crate) const NO_MEMORY: u32 = 10;
/// A number is out of its range.
pub(crate) const OUT_OF_RANGE: u32 = 11;
/// The check says yes, so no block is short.
pub(crate) const NONE_SHORT: u32 = 12;
/// The handle is open already.
pub(crate) const IS_OPEN: u32 = 13;
/// The handle isn't open.
pub(crate) const NOT_OPEN: u32 = 14;
/// The datagram was accepted, and more are needed.
pub(crate) const MORE: u32 = 15;
/// The datagram has no FTI, and came before one.
pub(crate) const EARLY: u32 = 16;
/// As many datagrams were accepted as can be counted.
pub(crate) const FULL: u32 = 17;
