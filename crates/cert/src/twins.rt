//! Another object that agrees with all that came, where a block is short.
ghost use Rattle.std.specs.Prelude.{◌≡◌, ◌<◌, ◌≤◌, ◌+◌, ◌-◌, ◌*◌, ℕ, Bool, List, Option, Some};
ghost use Rattle.std.specs.Prelude.{length, map, take, drop, slice_index, IfOk, IfErr, IfSome};
ghost use Rattle.std.specs.Prelude.{OnOk};
ghost use Rattle.std.specs.Io.KnownBytes.{Appends};
ghost use Rattle.streams.specs.Offsets.{StandsAt};
ghost use Rattle.lists.specs.Bytes.{AreBytes};
ghost use Rattle.gf256.specs.Arithmetic.{point as point_of};
ghost use Rattle.partition.specs.Fti.{IsValidFti, block_bytes, block_count, source_count, start_of};
ghost use Rattle.cert.specs.Twins.{different_esis, IsTwin};
ghost use Rattle.cert.specs.TwinBytes.{AppendsAny, IsTwinFault, twin_bytes};
ghost use Rattle.cert.specs.TwinPieces.{AppendsBlock, byte_with_value};

use gf256::{Field, Gf, point};
use lists::are_bytes;
use partition::Fti;
use poly::Poly;
use std::alloc::{AllocError, Global};
use streams::{Failed, ReadAt, Write, fill_at, write_all};

// The points of the different ESIs among these, rising.
fn points_of(alloc: Global, fti: &Fti, arrived_esis: &[u8]) -> Result<Vec<Gf>, AllocError>
    ensures points { IfOk result (λ v.
        v.items ≡ map point_of (different_esis arrived_esis.now)) }
    ensures valid { IsValidFti fti.now }
{
    fti.is_valid();
    let mut points = Vec::with_capacity(alloc, usize::from(fti.block_length()))?;
    for esi in 0..255u8 {
        if arrived_esis.contains(&esi) {
            points.push(point(esi))?;
        }
    }
    Ok(points)
}

// Adds the polynomial's values at the points of a block's source symbols to their first bytes, in
// the object's bytes of this block.
fn add_values(bytes: &mut [u8], fti: &Fti, block: u32, polynomial: &Poly<Gf>)
    requires block { block < block_count fti.now }
    requires bytes { length bytes.old ≡ block_bytes fti.now block }
    ensures length { length bytes.new ≡ length bytes.old }
    ensures bytes { (x : ℕ)
        → slice_index bytes.new x ≡ byte_with_value fti.now block polynomial.now bytes.old x }
{
    let length = usize::from(fti.symbol_length());
    for i in 0..fti.k(block) {
        let place = i * length;
        let added = polynomial.eval(point(i as u8));
        bytes[place] = Gf(bytes[place]).add(added).0;
    }
}

/// A twin: another object of this FTI that agrees with every symbol of other blocks with which the
/// object does, and with every one of this block whose ESI is held.
///
/// It needs that the object has the FTI's length, that the FTI has the block, and that there are
/// fewer different ESIs held than the block has source symbols. ESIs may come in any order and more
/// than once, and those past 254 are passed over. Want of memory is the only error.
pub fn twin(
    alloc: Global,
    object: &[u8],
    fti: &Fti,
    block: u32,
    arrived_esis: &[u8],
) -> Result<Vec<u8>, AllocError>
    requires object { length object.now ≡ fti.now.transfer_length }
    requires block { block < block_count fti.now }
    requires few { length (different_esis arrived_esis.now) < source_count fti.now block }
    ensures { IfOk result (λ other. IsTwin fti.now block arrived_esis.now object.now other.items) }
{
    are_bytes(object);
    let points = points_of(alloc, fti, arrived_esis)?;
    let polynomial = Poly::from_roots(points.as_slice());
    let mut other = object.to_vec(alloc)?;
    let from = begin_of(fti, block) as usize;
    let end = from + fti.block_bytes(block);
    add_values(&mut other[from..end], fti, block, &polynomial);
    Ok(other)
}

// Where a block begins in the object.
fn begin_of(fti: &Fti, block: u32) -> u64
    requires { block < block_count fti.now }
    ensures place { result ≡ start_of fti.now block * fti.now.symbol_length }
    ensures valid { IsValidFti fti.now }
{
    fti.start(block) * u64::from(fti.symbol_length())
}

/// Why a twin wasn't written to its end.
#[derive(Debug, Clone, Copy, PartialEq, Eq)]
pub enum TwinFault {
    /// The object's file has failed, or has changed.
    Object,
    /// Writing has failed.
    Write,
    /// There is no memory.
    NoMemory,
}

impl From<AllocError> for TwinFault {
    ghost use Rattle.cert.specs.declared.twins.TwinFault.TheVariants.{NoMemory};

    ghost from_gives = { λ _ fault. fault ≡ NoMemory };

    fn from(_: AllocError) -> Self {
        TwinFault::NoMemory
    }
}

// A failure of the object's file is `Object`: it is told where it is read.
impl From<Failed> for TwinFault {
    ghost use Rattle.cert.specs.declared.twins.TwinFault.TheVariants.{Write as WriteFault};

    ghost from_gives = { λ _ fault. fault ≡ WriteFault };

    fn from(_: Failed) -> Self {
        TwinFault::Write
    }
}

// Reads the object's bytes from an offset on.
fn read_piece<O: ReadAt>(object: &O, from: u64, bytes: &mut [u8]) -> Result<(), TwinFault>
    ensures stands { OnOk result (StandsAt (O.content object.now) from bytes.new) }
    ensures len { length bytes.new ≡ length bytes.old }
    ensures each { 0 < length bytes.old → IfSome (O.content object.now) AreBytes }
    ensures fault { IfErr result (λ e. (failed : Bool) → IsTwinFault (from + length bytes.old)
        (O.content object.now) (O.reliable object.now) failed e) }
{
    let Ok(count) = fill_at(object, from, bytes) else {
        return Err(TwinFault::Object);
    };
    if count < bytes.len() {
        return Err(TwinFault::Object);
    }
    Ok(())
}

// Copies the object's bytes from one offset up to another, in pieces that the buffer holds.
fn copy_part<O: ReadAt, W: Write>(
    object: &O,
    from: u64,
    to: u64,
    buffer: &mut [u8],
    writer: &mut W,
) -> Result<(), TwinFault>
    requires order { from ≤ to }
    requires room { 0 < length buffer.old }
    ensures copied { (o : List ℕ) → O.content object.now ≡ Some o → OnOk result
        (Appends (W.contents writer.old) (W.contents writer.new) (take (to - from) (drop from o))) }
    ensures some { AppendsAny (W.contents writer.old) (W.contents writer.new) }
    ensures fault { IfErr result (IsTwinFault to (O.content object.now) (O.reliable object.now)
        (W.failed writer.new)) }
{
    let mut at = from;
    while at < to {
        let count = (to - at).min(buffer.len() as u64) as usize;
        let piece = &mut buffer[..count];
        read_piece(object, at, piece)?;
        write_all(writer, piece)?;
        at += count as u64;
    }
    Ok(())
}

// Writes a block of a twin: the object's bytes there, with the polynomial's values added.
fn write_block<O: ReadAt, W: Write>(
    object: &O,
    fti: &Fti,
    block: u32,
    polynomial: &Poly<Gf>,
    bytes: &mut [u8],
    writer: &mut W,
) -> Result<(), TwinFault>
    requires block { block < block_count fti.now }
    requires bytes { length bytes.old ≡ block_bytes fti.now block }
    ensures written { (o : List ℕ) → O.content object.now ≡ Some o → OnOk result
        (AppendsBlock fti.now block polynomial.now o (W.contents writer.old)
        (W.contents writer.new)) }
    ensures each { OnOk result (IfSome (O.content object.now) AreBytes) }
    ensures some { AppendsAny (W.contents writer.old) (W.contents writer.new) }
    ensures fault { IfErr result (IsTwinFault fti.now.transfer_length (O.content object.now)
        (O.reliable object.now) (W.failed writer.new)) }
{
    read_piece(object, begin_of(fti, block), bytes)?;
    add_values(bytes, fti, block, polynomial);
    write_all(writer, bytes)?;
    Ok(())
}

// How many bytes are copied at a time, at least.
const PIECE_SIZE: usize = 1 << 16;

/// Writes a twin, as [`twin`] makes it, of an object that is read at offsets. A piece is held at a
/// time: the block's bytes, or 64 KiB where these are fewer.
///
/// `Object` tells that the object's file has failed or is shorter than the FTI's length, `Write`
/// that the writer has failed. Memory is asked for before the first byte is written.
pub fn write_twin<O: ReadAt, W: Write>(
    alloc: Global,
    object: &O,
    fti: &Fti,
    block: u32,
    arrived_esis: &[u8],
    writer: &mut W,
) -> Result<(), TwinFault>
    requires block { block < block_count fti.now }
    requires few { length (different_esis arrived_esis.now) < source_count fti.now block }
    ensures written { (o : List ℕ) → O.content object.now ≡ Some o
        → length o ≡ fti.now.transfer_length → OnOk result
        (Appends (W.contents writer.old) (W.contents writer.new)
        (twin_bytes fti.now block arrived_esis.now o)) }
    // These bytes are a twin.
    ensures twin { (o : List ℕ) → O.content object.now ≡ Some o
        → length o ≡ fti.now.transfer_length → OnOk result
        (IsTwin fti.now block arrived_esis.now o (twin_bytes fti.now block arrived_esis.now o)) }
    // Of an object whose bytes aren't told no more is said.
    ensures some { AppendsAny (W.contents writer.old) (W.contents writer.new) }
    ensures fault { IfErr result (IsTwinFault fti.now.transfer_length (O.content object.now)
        (O.reliable object.now) (W.failed writer.new)) }
{
    let points = points_of(alloc, fti, arrived_esis)?;
    let polynomial = Poly::from_roots(points.as_slice());
    let size = fti.block_bytes(block);
    let mut buffer = Vec::from_elem(alloc, 0u8, size.max(PIECE_SIZE))?;
    let from = begin_of(fti, block);
    copy_part(object, 0, from, &mut buffer, writer)?;
    write_block(object, fti, block, &polynomial, &mut buffer[..size], writer)?;
    let end = from + size as u64;
    copy_part(object, end, fti.transfer_length(), &mut buffer, writer)
}
