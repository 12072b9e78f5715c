//! The bytes of blocks, held in memory.
ghost use Rattle.std.specs.Prelude.{◌≡◌, ◌<◌, ◌≤◌, ◌+◌, [], Some, false, length, IfOk, OnErr};
ghost use Rattle.std.specs.Prelude.{take, true, ◌++◌, OnOk, refl};
ghost use Rattle.std.specs.Io.KnownBytes.{Appends};
ghost use Rattle.session.specs.Frames.{AppendsSome};
ghost use Rattle.partition.specs.Fti.{block_count};
ghost use Rattle.block_bytes.specs.Parts.{part_of, object_in};

use crate::block_bytes::{BlockBytes, BytesFault};
use partition::Fti;
use session::{Failed, Write, write_all};
use std::alloc::{AllocError, Global};
use std::collections::BTreeMap;

/// The bytes of each block of which something came.
#[derive(Drop)]
pub struct HeldBlocks {
    // There is none before something is put.
    pub(crate) blocks: Option<BTreeMap<u32, Vec<u8>>>,
}

// Puts bytes behind the first `from`, of a block that has at most so many. Where there is no room
// for them, makes room for them, or for as much as is there, but not for more than the block has.
fn put(held: &mut Vec<u8>, from: usize, bytes: &[u8], most: usize) -> Result<(), AllocError>
    requires { from ≤ length held.old.items }
    ensures put { OnOk result (take (from + length bytes.now) held.new.items
        ≡ take from held.old.items ++ bytes.now) }
    ensures stays { OnErr result (held.new.items ≡ held.old.items) }
{
    let over = bytes.len().min(held.len() - from);
    let (front, rest) = bytes.split_at(over);
    if rest.len() > held.capacity() - held.len() {
        let more = held.len().min(most.saturating_sub(held.len()));
        held.reserve_exact(rest.len().max(more))?;
    }
    held.extend_from_slice(rest)?;
    held[from..from + over].copy_from_slice(front);
    Ok(())
}

impl HeldBlocks {
    ghost use Rattle.partition.specs.Fti.{Fti as FtiValue};
    ghost use Rattle.block_bytes.specs.Held.{held_of, held_in};

    /// None of any block.
    pub fn new() -> HeldBlocks
        ensures { (f : FtiValue) → held_in result f ≡ Some (λ b. []) }
    {
        HeldBlocks { blocks: None }
    }

    /// What is held of a block.
    pub fn block(&self, block: u32) -> &[u8]
        ensures { result.now ≡ held_of self.now block }
    {
        let Some(blocks) = &self.blocks else {
            return &[];
        };
        match blocks.get(&block) {
            Some(bytes) => bytes,
            None => &[],
        }
    }

    // The object's bytes in a block.
    fn part(&self, fti: &Fti, b: u32) -> &[u8]
        requires { b < block_count fti.now }
        ensures { result.now ≡ part_of fti.now (held_of self.now) b }
    {
        let bytes = self.block(b);
        &bytes[..fti.block_bytes(b).min(bytes.len())]
    }

    /// The object.
    pub fn object(&self, alloc: Global, fti: &Fti) -> Result<Vec<u8>, AllocError>
        ensures { IfOk result (λ v. v.items ≡ object_in fti.now (held_of self.now)) }
    {
        let mut object = Vec::with_capacity(alloc, fti.transfer_length() as usize)?;
        for b in 0..fti.block_count() {
            object.extend_from_slice(self.part(fti, b))?;
        }
        Ok(object)
    }

    /// Writes the object. At an error the writer has a beginning of it.
    pub fn write_object<W: Write>(&self, fti: &Fti, writer: &mut W) -> Result<(), Failed>
        ensures ok { OnOk result (Appends (W.contents writer.old) (W.contents writer.new)
            (object_in fti.now (held_of self.now))) }
        ensures err { OnErr result (AppendsSome (W.contents writer.old) (W.contents writer.new)
            (object_in fti.now (held_of self.now))) }
        ensures fails { OnErr result (W.failed writer.new ≡ true) }
        ensures full { OnErr result
            (W.room writer.old < length (object_in fti.now (held_of self.now))) }
    {
        for b in 0..fti.block_count() {
            write_all(writer, self.part(fti, b))?;
        }
        Ok(())
    }
}

impl BlockBytes for HeldBlocks {
    ghost use Rattle.block_bytes.specs.Held.{held_in};

    ghost kept = { held_in };

    ghost all_told = { λ s f g. refl };

    ghost failed = { λ _. false };

    /// Fails where the block has fewer bytes.
    fn read(&mut self, _fti: &Fti, block: u32, from: usize, into: &mut [u8]) -> Result<(), Failed> {
        let bytes = self.block(block);
        if bytes.len() < from || bytes.len() - from < into.len() {
            return Err(Failed);
        }
        into.copy_from_slice(&bytes[from..from + into.len()]);
        Ok(())
    }

    /// Fails where the block has fewer bytes before them.
    fn write(
        &mut self,
        alloc: Global,
        fti: &Fti,
        block: u32,
        from: usize,
        bytes: &[u8],
    ) -> Result<(), BytesFault> {
        let blocks = self.blocks.get_or_insert_with(|| BTreeMap::new(alloc));
        if let Some(held) = blocks.get_mut(&block) {
            if held.len() < from {
                return Err(BytesFault::Failed);
            }
            let most = fti
                .k(block)
                .saturating_mul(usize::from(fti.symbol_length()));
            return match put(held, from, bytes, most) {
                Ok(()) => Ok(()),
                Err(_) => Err(BytesFault::NoMemory),
            };
        }
        if 0 < from {
            return Err(BytesFault::Failed);
        }
        let Ok(copy) = bytes.to_vec(alloc) else {
            return Err(BytesFault::NoMemory);
        };
        match blocks.insert(block, copy) {
            Ok(_) => Ok(()),
            Err(_) => Err(BytesFault::NoMemory),
        }
    }
}
