//! The bytes of blocks, kept in an output that is written at offsets.
ghost use Rattle.std.specs.Prelude.{◌≡◌, ◌<◌, ◌≤◌, ◌+◌, ◌*◌, ◌^◌, ◌⊎◌, ℕ, None, [], true, false};
ghost use Rattle.std.specs.Prelude.{Err, length, replicate, IfSome, OnOk, OnErr};
ghost use Rattle.std.specs.Option.{option_map};
ghost use Rattle.std.proofs.Props.{props};
ghost use Rattle.partition.specs.Fti.{Fti as FtiValue, IsValidFti, block_count, source_count};
ghost use Rattle.partition.specs.Fti.{start_of};
ghost use Rattle.streams.specs.Offsets.{StandsAt, HasRoomAt};
ghost use Rattle.block_bytes.specs.Bytes.{StandIn, Puts};
ghost use Rattle.block_bytes.specs.InFile.{kept_at};
ghost use Rattle.block_bytes.specs.Recalled.{StandsStill};
ghost use Rattle.block_bytes.specs.Parts.{object_in};

use crate::block_bytes::{BlockBytes, BytesFault};
use crate::recent::Recent;
use partition::Fti;
use session::Failed;
use std::alloc::Global;
use streams::{WriteAt, read_all_back, write_all_at};

/// The bytes of blocks in an output, one block behind the other. It is made so long that there is
/// room for the last block of which something was put or read. What isn't there counts as zeros.
#[derive(Drop)]
pub struct FileBlocks<W: WriteAt> {
    output: W,
    // How long the output is.
    len: u64,
    // `None` until the first write, which brings the allocator.
    recent: Option<Recent>,
    ghost long: { IfSome (W.contents output) (λ x. length x ≡ len) } by { Prim.hlevel props },
    ghost again: { IfSome recent (StandsStill (W.contents output)) } by { Prim.hlevel props },
}

// Where a block's bytes begin.
fn begin_of(fti: &Fti, block: u32) -> u64
    requires { block < block_count fti.now }
    ensures value { result ≡ start_of fti.now block * fti.now.symbol_length }
    ensures fits { result + source_count fti.now block * fti.now.symbol_length < 2 ^ 64 }
    ensures valid { IsValidFti fti.now }
{
    fti.start(block) * u64::from(fti.symbol_length())
}

// Where they end.
fn end_of(fti: &Fti, block: u32) -> u64
    requires { block < block_count fti.now }
    ensures value { result ≡ start_of fti.now block * fti.now.symbol_length
        + source_count fti.now block * fti.now.symbol_length }
{
    begin_of(fti, block) + fti.k(block) as u64 * u64::from(fti.symbol_length())
}

impl<W: WriteAt> FileBlocks<W> {
    /// Keeps the bytes in this output, to which nothing was written.
    pub fn new(output: W) -> FileBlocks<W>
        requires empty { IfSome (W.contents output) (λ x. x ≡ []) }
        ensures output { result.output ≡ output }
        ensures zeros { (f : FtiValue) → IfSome (kept_at (W.contents result.output) f)
            (λ bytes. (b : ℕ) → bytes b ≡ replicate (source_count f b * f.symbol_length) 0) }
    {
        FileBlocks {
            output,
            len: 0,
            recent: None,
        }
    }

    // Makes the output so long, where it is shorter. That changes nothing of what is kept.
    fn grow(&mut self, len: u64) -> Result<(), Failed>
        ensures long { OnOk result (len ≤ self.new.len) }
        ensures stays { kept_at (W.contents self.new.output)
            ≡ kept_at (W.contents self.old.output) }
        ensures fails { OnErr result (W.failed self.new.output ≡ true) }
        ensures none { IfSome self.old.recent (λ r. r.bytes.items ≡ [])
            → IfSome self.new.recent (λ r. r.bytes.items ≡ []) }
    {
        if self.len < len {
            self.forget();
            self.output.set_len(len)?;
            self.len = len;
        }
        Ok(())
    }

    // Forgets what was read.
    fn forget(&mut self)
        ensures output { self.new.output ≡ self.old.output }
        ensures len { self.new.len ≡ self.old.len }
        ensures none { IfSome self.new.recent (λ r. r.bytes.items ≡ []) }
    {
        if let Some(recent) = &mut self.recent {
            recent.forget();
        }
    }

    // Notes bytes that were read at an offset.
    fn note(&mut self, offset: u64, bytes: &[u8])
        requires { StandsAt (W.contents self.old.output) offset bytes.now }
        ensures output { self.new.output ≡ self.old.output }
        ensures len { self.new.len ≡ self.old.len }
    {
        if let Some(recent) = &mut self.recent {
            recent.note(offset, bytes);
        }
    }

    // Reads bytes of the output, or gives them as they were read before.
    fn read_or_recall(&mut self, offset: u64, into: &mut [u8]) -> Result<(), Failed>
        requires within { HasRoomAt (W.contents self.old.output) offset (length into.old) }
        requires fits { offset + length into.old < 2 ^ 64 }
        ensures bytes { OnOk result (StandsAt (W.contents self.old.output) offset into.new) }
        ensures size { length into.new ≡ length into.old }
        ensures len { self.new.len ≡ self.old.len }
        ensures stays { W.contents self.new.output ≡ W.contents self.old.output }
        ensures fails { OnErr result
            ((W.failed self.new.output ≡ true) ⊎ (W.contents self.old.output ≡ None)) }
    {
        if let Some(recent) = &self.recent {
            if recent.has(offset, into.len()) {
                into.copy_from_slice(&recent.bytes);
                return Ok(());
            }
        }
        read_all_back(&mut self.output, offset, into)?;
        self.note(offset, into);
        Ok(())
    }

    // Puts bytes at a place of a block. An error comes only where the output has failed.
    fn put(&mut self, fti: &Fti, block: u32, from: usize, bytes: &[u8]) -> Result<(), Failed>
        requires none { IfSome self.old.recent (λ r. r.bytes.items ≡ []) }
        requires number { block < block_count fti.now }
        requires inside { from + length bytes.now
            ≤ source_count fti.now block * fti.now.symbol_length }
        ensures put { OnOk result (Puts (kept_at (W.contents self.old.output) fti.now)
            (kept_at (W.contents self.new.output) fti.now) block from bytes.now) }
        ensures fails { OnErr result (W.failed self.new.output ≡ true) }
    {
        self.grow(end_of(fti, block))?;
        let offset = begin_of(fti, block) + from as u64;
        write_all_at(&mut self.output, offset, bytes)
    }

    /// Gives the output back, whatever was written to it.
    pub fn into_output(self) -> W
        ensures { result ≡ self.output }
    {
        self.output
    }

    /// Gives the output back, cut to the object of what is kept, or filled up with zeros. Cutting
    /// fails only where the output has failed.
    pub fn finish(self, fti: &Fti) -> (W, Result<(), Failed>)
        ensures object { OnOk result.1 (W.contents result.0
            ≡ option_map (object_in fti.now) (kept_at (W.contents self.output) fti.now)) }
        ensures fails { OnErr result.1 (W.failed result.0 ≡ true) }
    {
        let FileBlocks {
            mut output,
            len: _,
            recent: _,
        } = self;
        let cut = output.set_len(fti.transfer_length());
        (output, cut)
    }
}

impl<W: WriteAt> BlockBytes for FileBlocks<W> {
    ghost use Rattle.block_bytes.specs.InFile.{kept_at};
    ghost use Rattle.std.proofs.Common.{refl};
    ghost use Rattle.std.specs.Prelude.{Some, is_some};

    ghost kept = { λ file. kept_at (W.contents file.output) };

    ghost all_told = { λ file f g. elim (W.contents file.output)
        as (λ o. is_some (kept_at o f) ≡ is_some (kept_at o g)) [
          | None ↦ refl
          | Some x ↦ refl
        ] };

    ghost failed = { λ file. W.failed file.output };

    /// Fails only where the output has failed, or what it has isn't told.
    fn read(&mut self, fti: &Fti, block: u32, from: usize, into: &mut [u8]) -> Result<(), Failed>
        requires number { block < block_count fti.now }
        requires inside { from + length into.old
            ≤ source_count fti.now block * fti.now.symbol_length }
        ensures len { length into.new ≡ length into.old }
        ensures bytes { OnOk result
            (StandIn (kept_at (W.contents self.old.output) fti.now) block from into.new) }
        ensures stays { kept_at (W.contents self.new.output)
            ≡ kept_at (W.contents self.old.output) }
        ensures fails { OnErr result
            ((W.failed self.new.output ≡ true) ⊎ (W.contents self.old.output ≡ None)) }
    {
        self.grow(end_of(fti, block))?;
        let offset = begin_of(fti, block) + from as u64;
        self.read_or_recall(offset, into)
    }

    /// Fails only where the output has failed.
    fn write(
        &mut self,
        alloc: Global,
        fti: &Fti,
        block: u32,
        from: usize,
        bytes: &[u8],
    ) -> Result<(), BytesFault>
        requires number { block < block_count fti.now }
        requires inside { from + length bytes.now
            ≤ source_count fti.now block * fti.now.symbol_length }
        ensures put { OnOk result (Puts (kept_at (W.contents self.old.output) fti.now)
            (kept_at (W.contents self.new.output) fti.now) block from bytes.now) }
        ensures stays { result ≡ Err BytesFault.NoMemory → kept_at (W.contents self.new.output)
            ≡ kept_at (W.contents self.old.output) }
        ensures fails { OnErr result (W.failed self.new.output ≡ true) }
    {
        if self.recent.is_none() {
            self.recent = Some(Recent::new(alloc));
        }
        self.forget();
        match self.put(fti, block, from, bytes) {
            Ok(()) => Ok(()),
            Err(_) => Err(BytesFault::Failed),
        }
    }
}
