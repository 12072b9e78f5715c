//! Sending in order `Rounds` an object that comes from a reader, by groups of blocks.
//!
//! Neighbouring blocks stand side by side in each round. So a group of them is read, all its
//! encoding symbols are made as in order `Blocks`, and what is sent of it in a round is written at
//! once, to its place in the session. Memory is that of a group, whatever the object's length.
ghost use Rattle.std.specs.Prelude.{◌≡◌, ◌<◌, ◌≤◌, ◌+◌, ◌*◌, ◌^◌, ℕ, List, [], length, take};
ghost use Rattle.std.specs.Prelude.{slice_index, true, is_some, Some, IfOk, IfErr, IfSome, OnOk};
ghost use Rattle.std.specs.Prelude.{OnErr};
ghost use Rattle.std.specs.Io.KnownBytes.{IsAtEnd};
ghost use Rattle.streams.specs.Changes.{reader_change, writer_change};
ghost use Rattle.partition.specs.Fti.{block_count, source_count, encoding_count};
ghost use Rattle.partition.specs.Fti.{block_bytes, large_blocks};
ghost use Rattle.partition.specs.declared.order.Order.TheVariants.{Rounds};
ghost use Rattle.block_code.specs.Codes.{EachBlockHas};
ghost use Rattle.block_code.specs.CodesOf.{IsCodeOf};
ghost use Rattle.reception.specs.Symbols.{Agrees};
ghost use Rattle.encoder.specs.ObjectRead.{ReadsObject};
ghost use Rattle.encoder.specs.BlocksRead.{HasRead, IsReadFault};
ghost use Rattle.encoder.specs.Sending.{pairs, items, items_from, AreSent, Sends};
ghost use Rattle.encoder.specs.Passes.{IsBlocksFault};
ghost use Rattle.encoder.specs.Sending.{most_symbol_bytes, frame_bytes};
ghost use Rattle.encoder.specs.RoundPlaces.{sent_before, place_of, offset_of, run_of_round};
ghost use Rattle.encoder.specs.RoundPlaces.{AreSymbolsAt, AreSymbolsOf, ReadsBlock, progress};
ghost use Rattle.encoder.specs.RoundPlaces.{IsFrameOf, HasFrames, IsAsLong};
ghost use Rattle.encoder.specs.SentInRounds.{emptied, IsRoundsFromFault};

use crate::object::{ObjectFault, read_block, read_end};
use crate::rows::encoding_symbols;
use crate::sending::{MOST_SYMBOL_BYTES, Transmission};
use crate::sending_from::SendFromFault;
use alc::{HEADER_SIZE, HEADER_SIZE_WITHOUT_FTI, write};
use block_code::{BlockCodes, Kind};
use byteorder::{BigEndian, ByteOrder};
use partition::{Fti, Order};
use std::alloc::Global;
use streams::{Failed, Read, WriteAt, write_all_at};

// How many bytes a group takes: as many as the caches hold.
const LEAST_GROUP_BYTES: usize = 5 << 18;

// How many it takes at most.
const MOST_GROUP_BYTES: usize = 1 << 25;

// Of how many blocks the frames of a round are a run that is written fast.
const LONG_RUN_BLOCKS: usize = 16;

// How many groups a large object has: its runs go to a disk, and shorter ones are slow there.
const LARGE_OBJECT_GROUPS: u64 = 64;

// The bytes of a datagram's length before it.
const LENGTH_SIZE: usize = 2;

/// Neighbouring blocks: `count` of them, from `first` on.
#[derive(Clone, Copy)]
pub(crate) struct Group {
    pub(crate) first: u32,
    pub(crate) count: usize,
}

// How many blocks, the first ones, have one source symbol more than the others.
fn large_blocks(fti: &Fti) -> u64
    ensures { result ≡ large_blocks fti.now }
{
    let blocks = fti.block_count();
    fti.symbol_count() - fti.k(blocks - 1) as u64 * u64::from(blocks)
}

// How many blocks before this one have an encoding symbol with this ESI. Large blocks come first,
// and have no fewer than the others.
fn sent_before(fti: &Fti, esi: u8, block: u32) -> u64
    ensures { result ≡ sent_before fti.now esi block }
{
    let blocks = u64::from(block);
    let esi = usize::from(esi);
    if esi < fti.n(fti.block_count() - 1) {
        blocks
    } else if esi < fti.n(0) {
        blocks.min(large_blocks(fti))
    } else {
        0
    }
}

// How many datagrams the session has.
fn datagram_count(fti: &Fti) -> u64
    ensures { result ≡ length (pairs Rounds fti.now) }
{
    let mut count = 0;
    for esi in 0..fti.max_symbols() {
        count += sent_before(fti, esi, fti.block_count());
    }
    count
}

// Where the frame of the datagram at a place begins. Those at the places that `every` divides have
// the longer header.
fn frame_offset(fti: &Fti, every: u32, place: u64) -> u64
    requires every { 1 ≤ every }
    requires place { place ≤ 2 ^ 32 }
    ensures { result ≡ offset_of fti.now every place }
{
    let size = (LENGTH_SIZE + HEADER_SIZE_WITHOUT_FTI) as u64 + u64::from(fti.symbol_length());
    let more = (HEADER_SIZE - HEADER_SIZE_WITHOUT_FTI) as u64;
    place * size + place.div_ceil(u64::from(every)) * more
}

// Puts the frame of an encoding symbol's datagram, at this place of the session, at the front of
// `out`, and answers its length.
fn put_frame(
    t: &Transmission,
    place: u64,
    block: u32,
    esi: u8,
    symbol: &[u8],
    out: &mut [u8],
) -> usize
    requires block { block < block_count t.now.fti }
    requires esi { esi < encoding_count t.now.fti block }
    requires symbol { length symbol.now ≡ t.now.fti.symbol_length }
    requires room { 34 + t.now.fti.symbol_length ≤ length out.old }
    ensures size { result ≡ frame_bytes t.now.fti t.now.every place }
    ensures most { result ≤ 34 + t.now.fti.symbol_length }
    ensures frame { (object : List ℕ)
        → Agrees t.now.fti object (record { block = block; esi = esi; bytes = symbol.now })
        → IsFrameOf object t.now.fti t.now.tsi t.now.toi t.now.every
        (record { place = place; block = block; esi = esi }) (take result out.new) }
{
    let (length, datagram) = out.split_at_mut(LENGTH_SIZE);
    let size = write(t.tsi, t.toi, t.fti_at(place), block, esi, symbol, datagram);
    BigEndian::write_u16(length, size as u16);
    LENGTH_SIZE + size
}

// Puts the frames that are sent of a group in a round, at the places of the session from `place`
// on, behind one another at the front of `run`, and answers their length. `symbols` are the
// group's.
fn put_run(
    t: &Transmission,
    group: Group,
    esi: u8,
    place: u64,
    symbols: &[u8],
    run: &mut [u8],
) -> usize
    requires blocks { group.first + group.count ≤ block_count t.now.fti }
    requires place { place ≤ 2 ^ 40 }
    requires symbols { group.count * (encoding_count t.now.fti 0 * t.now.fti.symbol_length)
        ≤ length symbols.now }
    requires room { group.count * (34 + t.now.fti.symbol_length) ≤ length run.old }
    ensures bound { result ≤ length run.old }
    ensures size { offset_of t.now.fti t.now.every place + result
        ≡ offset_of t.now.fti t.now.every
        (place + length (run_of_round t.now.fti esi group.first group.count)) }
    ensures sent { (object : List ℕ)
        → AreSymbolsOf object t.now.fti group.first group.count symbols.now
        → Sends (AreSent object t.now.fti t.now.tsi t.now.toi t.now.every)
        (items_from place (run_of_round t.now.fti esi group.first group.count))
        (Some []) (Some (take result run.new)) }
{
    let size = usize::from(t.fti.symbol_length());
    let part = t.fti.n(0);
    let mut at = 0;
    let mut next = place;
    for i in 0..group.count {
        let block = group.first + i as u32;
        if usize::from(esi) < t.fti.n(block) {
            let row = i * part + usize::from(esi);
            let symbol = &symbols[row * size..(row + 1) * size];
            at += put_frame(t, next, block, esi, symbol, &mut run[at..]);
            next += 1;
        }
    }
    at
}

// Writes what is sent of a group in a round to its place in the session. `place` is that of the
// first datagram, `symbols` are the group's, and `run` has room for a frame of each block.
fn write_run<W: WriteAt>(
    t: &Transmission,
    group: Group,
    esi: u8,
    place: u64,
    symbols: &[u8],
    run: &mut [u8],
    writer: &mut W,
) -> Result<(), Failed>
    requires blocks { group.first + group.count ≤ block_count t.now.fti }
    requires esi { esi < t.now.fti.max_symbols }
    requires place { place ≡ place_of t.now.fti esi group.first }
    requires symbols { group.count * (encoding_count t.now.fti 0 * t.now.fti.symbol_length)
        ≤ length symbols.now }
    requires room { group.count * (34 + t.now.fti.symbol_length) ≤ length run.old }
    requires long { IsAsLong t.now.fti t.now.every (W.contents writer.old) }
    ensures frames { (object : List ℕ)
        → AreSymbolsOf object t.now.fti group.first group.count symbols.now
        → HasFrames object t.now.fti t.now.tsi t.now.toi t.now.every
        (progress group.first group.count esi) (W.contents writer.old)
        → OnOk result (HasFrames object t.now.fti t.now.tsi t.now.toi t.now.every
        (progress group.first group.count (esi + 1)) (W.contents writer.new)) }
    ensures long { OnOk result (IsAsLong t.now.fti t.now.every (W.contents writer.new)) }
    ensures told { OnOk result
        (is_some (W.contents writer.new) ≡ is_some (W.contents writer.old)) }
    ensures fails { OnErr result (W.failed writer.new ≡ true) }
{
    let size = put_run(t, group, esi, place, symbols, run);
    write_all_at(writer, frame_offset(&t.fti, t.every, place), &run[..size])
}

// Writes all that is sent of a group, round after round, each to its place.
fn write_group<W: WriteAt>(
    t: &Transmission,
    group: Group,
    symbols: &[u8],
    run: &mut [u8],
    writer: &mut W,
) -> Result<(), Failed>
    requires blocks { group.first + group.count ≤ block_count t.now.fti }
    requires symbols { group.count * (encoding_count t.now.fti 0 * t.now.fti.symbol_length)
        ≤ length symbols.now }
    requires room { group.count * (34 + t.now.fti.symbol_length) ≤ length run.old }
    requires long { IsAsLong t.now.fti t.now.every (W.contents writer.old) }
    ensures frames { (object : List ℕ)
        → AreSymbolsOf object t.now.fti group.first group.count symbols.now
        → HasFrames object t.now.fti t.now.tsi t.now.toi t.now.every
        (progress group.first 0 0) (W.contents writer.old)
        → OnOk result (HasFrames object t.now.fti t.now.tsi t.now.toi t.now.every
        (progress (group.first + group.count) 0 0) (W.contents writer.new)) }
    ensures long { OnOk result (IsAsLong t.now.fti t.now.every (W.contents writer.new)) }
    ensures told { OnOk result
        (is_some (W.contents writer.new) ≡ is_some (W.contents writer.old)) }
    ensures fails { OnErr result (W.failed writer.new ≡ true) }
{
    let mut start = 0;
    for esi in 0..t.fti.max_symbols() {
        let place = start + sent_before(&t.fti, esi, group.first);
        write_run(t, group, esi, place, symbols, run, writer)?;
        start += sent_before(&t.fti, esi, t.fti.block_count());
    }
    Ok(())
}

// Reads the next block, and makes all its encoding symbols, in part `i` of the rows.
fn make_block<R: Read>(
    t: &Transmission,
    reader: &mut R,
    block: u32,
    i: usize,
    sources: &mut [u8],
    symbols: &mut [u8],
) -> Result<(), ObjectFault>
    requires codes { EachBlockHas (IsCodeOf t.now.fti) t.now.fti t.now.codes }
    requires block { block < block_count t.now.fti }
    requires sources { length sources.old ≡ source_count t.now.fti 0 * t.now.fti.symbol_length }
    requires room { (i + 1) * (encoding_count t.now.fti 0 * t.now.fti.symbol_length)
        ≤ length symbols.old }
    ensures read { OnOk result (ReadsBlock t.now.fti block
        (R.remaining reader.old) (R.remaining reader.new)
        (λ object. AreSymbolsAt object t.now.fti i block symbols.new)) }
    ensures before { OnOk result ((p : ℕ)
        → p < i * (encoding_count t.now.fti 0 * t.now.fti.symbol_length)
        → slice_index symbols.new p ≡ slice_index symbols.old p) }
    ensures short { IfErr result (λ e. e ≡ ObjectFault.Length → IfSome (R.remaining reader.old)
        (λ x. length x < block_bytes t.now.fti block)) }
    ensures io { IfErr result
        (λ e. IsReadFault e (R.sound reader.old) (R.failed reader.new)) }
    ensures stays { R.sound reader.new ≡ R.sound reader.old }
{
    let size = usize::from(t.fti.symbol_length());
    let bytes = &mut sources[..t.fti.block_bytes(block)];
    read_block(reader, bytes)?;
    let count = t.fti.n(block);
    let from = i * (t.fti.n(0) * size);
    let rows = &mut symbols[from..from + count * size];
    let code = t.codes.of(t.fti.k(block));
    encoding_symbols(bytes, &t.fti, block, code, 0, count, rows);
    Ok(())
}

// Reads the blocks, and writes what is sent of each group of `at_once` of them, the last one of
// what is left, before the next is read. There is room for the bytes of the greatest block, for a
// group's encoding symbols and for its frames of a round.
fn write_groups<R: Read, W: WriteAt>(
    t: &Transmission,
    reader: &mut R,
    at_once: usize,
    sources: &mut [u8],
    symbols: &mut [u8],
    run: &mut [u8],
    writer: &mut W,
) -> Result<(), SendFromFault>
    requires codes { EachBlockHas (IsCodeOf t.now.fti) t.now.fti t.now.codes }
    requires some { 0 < at_once }
    requires sources { length sources.old ≡ source_count t.now.fti 0 * t.now.fti.symbol_length }
    requires symbols { at_once * (encoding_count t.now.fti 0 * t.now.fti.symbol_length)
        ≤ length symbols.old }
    requires room { at_once * (34 + t.now.fti.symbol_length) ≤ length run.old }
    requires long { IsAsLong t.now.fti t.now.every (W.contents writer.old) }
    ensures ok { OnOk result (HasRead t.now.fti (block_count t.now.fti)
        (R.remaining reader.old) (R.remaining reader.new)
        (λ object. HasFrames object t.now.fti t.now.tsi t.now.toi t.now.every
        (progress (block_count t.now.fti) 0 0) (W.contents writer.new))) }
    ensures told { OnOk result
        (is_some (W.contents writer.new) ≡ is_some (W.contents writer.old)) }
    ensures fault { IfErr result (λ e. IsBlocksFault e t.now.fti (R.remaining reader.old)
        (R.sound reader.old) (R.failed reader.new) (W.failed writer.new)) }
    ensures stays { R.sound reader.new ≡ R.sound reader.old }
{
    let blocks = t.fti.block_count();
    let mut group = Group { first: 0, count: 0 };
    for block in 0..blocks {
        make_block(t, reader, block, group.count, sources, symbols)?;
        group.count += 1;
        if group.count == at_once || block + 1 == blocks {
            let Ok(()) = write_group(t, group, symbols, run, writer) else {
                return Err(SendFromFault::Write);
            };
            group = Group {
                first: block + 1,
                count: 0,
            };
        }
    }
    Ok(())
}

// How many blocks make a group: as many as its bytes hold, their encoding symbols and a frame of
// each, and no more than there are. No block takes more than a group does at most.
fn blocks_at_once(fti: &Fti) -> usize
    ensures some { 0 < result }
    ensures few { result ≤ 2 ^ 20 }
{
    let size = usize::from(fti.symbol_length());
    let block = fti.n(0) * size + LENGTH_SIZE + HEADER_SIZE + size;
    let part = fti.transfer_length() / LARGE_OBJECT_GROUPS;
    let bytes = (LONG_RUN_BLOCKS * block)
        .max(part.min(MOST_GROUP_BYTES as u64) as usize)
        .clamp(LEAST_GROUP_BYTES, MOST_GROUP_BYTES);
    (bytes / block).min(fti.block_count() as usize).max(1)
}

/// Reads the object, all up to the reader's end, and writes what `encode` writes of it in order
/// `Rounds`, in the place of all that the writer held; tells how many datagrams. The writer's
/// length is set, and then groups of blocks are written, each frame to its place. So its bytes must
/// have offsets.
///
/// Memory is asked for two generator matrices at most, for the bytes of the greatest block, for the
/// encoding symbols of a group, and for one frame of each of its blocks. A group takes a 64th of
/// the object, or as much as 16 blocks where that is more, within 1.25 and 32 MiB, and no more
/// blocks than there are. It is all there before the first byte is written.
///
/// `Object` tells that the object has another length than the FTI's, or that the reader has failed,
/// which a sound one never does; `Write` comes only where the writer has failed. What stands in the
/// writer then is no beginning of the session. Nothing was written after the other faults.
pub fn encode_rounds_from<R: Read, W: WriteAt>(
    alloc: Global,
    reader: &mut R,
    tsi: u32,
    toi: u32,
    fti: &Fti,
    every: u32,
    writer: &mut W,
) -> Result<u64, SendFromFault>
    requires every { 1 ≤ every }
    ensures sent { OnOk result (ReadsObject fti.now (R.remaining reader.old)
        (λ object. Sends (AreSent object fti.now tsi toi every) (items Rounds fti.now)
        (emptied (W.contents writer.old)) (W.contents writer.new))) }
    ensures end { OnOk result (IsAtEnd (R.remaining reader.new)) }
    ensures count { IfOk result (λ n. n ≡ length (pairs Rounds fti.now)) }
    ensures short { OnOk result (fti.now.symbol_length ≤ most_symbol_bytes) }
    ensures fault { IfErr result (λ e. IsRoundsFromFault e fti.now
        (reader_change R.Read reader.old reader.new)
        (writer_change W.Write writer.old writer.new)) }
{
    if fti.symbol_length() > MOST_SYMBOL_BYTES {
        return Err(SendFromFault::SymbolTooLong);
    }
    let codes = BlockCodes::new(alloc, Kind::Generator, fti)?;
    let size = usize::from(fti.symbol_length());
    let at_once = blocks_at_once(fti);
    let mut sources = Vec::from_elem(alloc, 0u8, fti.k(0) * size)?;
    let mut symbols = Vec::from_elem(alloc, 0u8, at_once * (fti.n(0) * size))?;
    let mut run = Vec::from_elem(alloc, 0u8, at_once * (LENGTH_SIZE + HEADER_SIZE + size))?;
    let transmission = Transmission {
        tsi,
        toi,
        fti: *fti,
        every,
        order: Order::Rounds,
        codes,
    };
    let count = datagram_count(fti);
    let Ok(()) = writer.set_len(frame_offset(fti, every, count)) else {
        return Err(SendFromFault::Write);
    };
    write_groups(
        &transmission,
        reader,
        at_once,
        &mut sources,
        &mut symbols,
        &mut run,
        writer,
    )?;
    read_end(reader)?;
    Ok(count)
}
