//! What a decoder answers.

use block_recovery::DecodeFault;

/// What datagrams say of the object that was sent.
#[derive(Drop)]
pub enum Answer {
    /// No carrier came, and so nothing can be said of symbols that did.
    Empty,
    Fault(DecodeFault),
    /// The first block that has fewer symbols than it needs: its source block number, how many
    /// different ESIs it has, and how many source symbols.
    Missing {
        block: u32,
        have: usize,
        need: usize,
    },
    /// The object, of the FTI's transfer length.
    Object(Vec<u8>),
}

/// A block that has fewer encoding symbols than it needs.
#[derive(Clone, Copy)]
pub struct Short {
    /// Its source block number.
    pub block: u32,
    /// How many different ESIs of it came.
    pub have: usize,
    /// How many source symbols it has.
    pub need: usize,
}
