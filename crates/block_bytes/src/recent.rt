//! Bytes that were read of an output, kept to be given again.
ghost use Rattle.std.specs.Prelude.{◌≡◌, ◌⊎◌, [], true, length};

use std::alloc::Global;

/// The bytes that were read last, kept where the read before was of the same place. A symbol that
/// comes to a solved block is compared by all of the block's bytes.
#[derive(Drop)]
pub(crate) struct Recent {
    pub(crate) offset: u64,
    // How many bytes were read there.
    count: usize,
    /// These bytes, or none.
    pub(crate) bytes: Vec<u8>,
}

impl Recent {
    /// Nothing was read.
    pub(crate) fn new(alloc: Global) -> Recent
        ensures { result.bytes.items ≡ [] }
    {
        Recent {
            offset: 0,
            count: 0,
            bytes: Vec::new(alloc),
        }
    }

    /// Whether so many bytes at an offset are kept.
    pub(crate) fn has(&self, offset: u64, count: usize) -> bool
        ensures { result ≡ true
            → (self.now.offset ≡ offset) × (length self.now.bytes.items ≡ count) }
    {
        self.offset == offset && self.bytes.len() == count
    }

    /// Forgets what was read. The memory for it is kept.
    pub(crate) fn forget(&mut self)
        ensures { self.new.bytes.items ≡ [] }
    {
        self.count = 0;
        self.bytes.clear();
    }

    /// Notes bytes that were read at an offset. They are kept where the last read was of the same
    /// bytes, and where there is memory.
    pub(crate) fn note(&mut self, offset: u64, bytes: &[u8])
        ensures { (self.new.bytes.items ≡ [])
            ⊎ ((self.new.offset ≡ offset) × (self.new.bytes.items ≡ bytes.now)) }
    {
        let again = self.offset == offset && self.count == bytes.len();
        self.forget();
        self.offset = offset;
        self.count = bytes.len();
        if again {
            let _ = self.bytes.extend_from_slice(bytes);
        }
    }
}
