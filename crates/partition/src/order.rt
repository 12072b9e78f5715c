//! The order of an object's encoding symbols.

/// In which order the encoding symbols of all source blocks follow one another.
#[derive(Debug, Clone, Copy, PartialEq, Eq)]
pub enum Order {
    /// Block after block, in a block ESIs rising.
    Blocks,
    /// ESI after ESI, with one ESI the blocks that have it, rising.
    Rounds,
}
