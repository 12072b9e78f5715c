//! What came of a source block.
ghost use Rattle.std.specs.Prelude.{◌≡◌, ◌<◌, ◌^◌, length};
ghost use Rattle.lists.specs.Bytes.{IsByte};
ghost use Rattle.elim.specs.Grid.{IsMatrix};
ghost use Rattle.block_recovery.specs.Blocks.{bytes_of_esi, HaveLength};

use block_code::Code;

/// A source block of which some symbols came: at each ESI the symbol, if it did, their size in
/// bytes, and the code.
#[derive(Clone, Copy)]
pub(crate) struct Block<'a> {
    pub(crate) received: &'a [Option<&'a [u8]>],
    pub(crate) size: usize,
    pub(crate) code: &'a Code,
    ghost matrix: { IsMatrix IsByte 0 code.now.matrix },
    ghost all: { length received.now ≡ code.now.matrix.cols },
    ghost small: { size < 2 ^ 16 },
    ghost symbols: { HaveLength size (bytes_of_esi received.now) },
}
