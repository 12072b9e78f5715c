//! Sending an object that comes from a reader, block by block.
ghost use Rattle.std.specs.Prelude.{◌≡◌, ◌≤◌, ◌<◌, ◌+◌, ◌*◌, length, IfOk, IfErr, OnOk, OnErr};
ghost use Rattle.std.specs.Io.KnownBytes.{IsAtEnd};
ghost use Rattle.streams.specs.Changes.{reader_change, writer_change};
ghost use Rattle.partition.specs.Fti.{block_count, source_count, encoding_count};
ghost use Rattle.partition.specs.declared.order.Order.TheVariants.{Blocks};
ghost use Rattle.block_code.specs.Codes.{EachBlockHas};
ghost use Rattle.block_code.specs.CodesOf.{IsCodeOf};
ghost use Rattle.encoder.specs.ObjectRead.{ReadsObject, ReadsSome};
ghost use Rattle.encoder.specs.BlocksRead.{HasRead};
ghost use Rattle.encoder.specs.Sending.{pairs, items, AreSent, Sends, SendsSome};
ghost use Rattle.encoder.specs.Sending.{most_symbol_bytes, session_bytes};
ghost use Rattle.encoder.specs.SentFrom.{IsSendFromFault};
ghost use Rattle.encoder.specs.Passes.{IsDatagramRoom, IsBlocksFault};

use crate::object::{ObjectFault, read_block, read_end};
use crate::sending::{MOST_SYMBOL_BYTES, Run, Transmission, send_symbols};
use alc::HEADER_SIZE;
use block_code::{BlockCodes, Kind};
use partition::{Fti, Order};
use session::{Read, Write};
use std::alloc::{AllocError, Global};
use thiserror::Error;

/// Why the session of an object that comes from a reader wasn't sent.
#[derive(Debug, Clone, Copy, PartialEq, Eq, Error)]
pub enum SendFromFault {
    /// The object wasn't read.
    #[error(transparent)]
    Object(ObjectFault),
    /// A datagram of 65,507 bytes doesn't hold an encoding symbol: E is above 65,475.
    #[error("O2 SymbolTooLong")]
    SymbolTooLong,
    /// The writer has failed.
    #[error("O3 Io")]
    Write,
    #[error("O4 NoMemory")]
    NoMemory,
}

impl From<ObjectFault> for SendFromFault {
    ghost use Rattle.encoder.specs.declared.sending_from.SendFromFault.TheVariants.{Object};

    ghost from_gives = { λ e fault. fault ≡ Object e };

    fn from(e: ObjectFault) -> Self {
        SendFromFault::Object(e)
    }
}

impl From<AllocError> for SendFromFault {
    ghost use Rattle.encoder.specs.declared.sending_from.SendFromFault.TheVariants.{NoMemory};

    ghost from_gives = { λ _ fault. fault ≡ NoMemory };

    fn from(_: AllocError) -> Self {
        SendFromFault::NoMemory
    }
}

// Reads the blocks, and sends the encoding symbols of each before it reads the next. There is room
// for the bytes and for the encoding symbols of the greatest block. Tells how many datagrams.
fn send_blocks<R: Read, W: Write>(
    t: &Transmission,
    reader: &mut R,
    sources: &mut [u8],
    symbols: &mut [u8],
    datagram: &mut [u8],
    writer: &mut W,
) -> Result<u64, SendFromFault>
    requires codes { EachBlockHas (IsCodeOf t.now.fti) t.now.fti t.now.codes }
    requires sources { length sources.old ≡ source_count t.now.fti 0 * t.now.fti.symbol_length }
    requires room { length symbols.old ≡ encoding_count t.now.fti 0 * t.now.fti.symbol_length }
    requires datagram { IsDatagramRoom t.now.fti datagram.old }
    ensures ok { OnOk result (HasRead t.now.fti (block_count t.now.fti)
        (R.remaining reader.old) (R.remaining reader.new)
        (λ object. Sends (AreSent object t.now.fti t.now.tsi t.now.toi t.now.every)
        (items Blocks t.now.fti) (W.contents writer.old) (W.contents writer.new))) }
    ensures count { IfOk result (λ n. n ≡ length (pairs Blocks t.now.fti)) }
    ensures err { OnErr result (ReadsSome t.now.fti (R.remaining reader.old)
        (λ object. SendsSome (AreSent object t.now.fti t.now.tsi t.now.toi t.now.every)
        (items Blocks t.now.fti) (W.contents writer.old) (W.contents writer.new))) }
    ensures fault { IfErr result (λ e. IsBlocksFault e t.now.fti (R.remaining reader.old)
        (R.sound reader.old) (R.failed reader.new) (W.failed writer.new)) }
    ensures full { IfErr result (λ e. e ≡ SendFromFault.Write
        → W.room writer.old < session_bytes t.now.fti t.now.every (items Blocks t.now.fti)) }
    ensures stays { R.sound reader.new ≡ R.sound reader.old }
{
    let size = usize::from(t.fti.symbol_length());
    let mut place = 0;
    for block in 0..t.fti.block_count() {
        let bytes = &mut sources[..t.fti.block_bytes(block)];
        read_block(reader, bytes)?;
        let count = t.fti.n(block);
        let room = &mut symbols[..count * size];
        let run = Run {
            block,
            first: 0,
            count,
        };
        let Ok(()) = send_symbols(t, bytes, run, place, room, datagram, writer) else {
            return Err(SendFromFault::Write);
        };
        place += count as u64;
    }
    Ok(place)
}

/// Reads the object, all up to the reader's end, and writes what `encode` writes of it in order
/// `Blocks`; tells how many datagrams. In order `Rounds` `encode_rounds_from` writes it, where the
/// writer's bytes have offsets.
///
/// One block is held at a time: memory is asked for two generator matrices at most, and for the
/// bytes and the encoding symbols of the greatest block and one datagram, and all of it before the
/// first byte is written.
///
/// `Object` tells that the object has another length than the FTI's, or that the reader has failed,
/// which a sound one never does; `Write` comes only where the writer has failed, and never where it
/// is sure to have room for the whole session. A beginning of the session was written then, of each
/// object of the FTI's length that begins with the blocks that were read, and nothing after the
/// other faults.
pub fn encode_from<R: Read, W: Write>(
    alloc: Global,
    reader: &mut R,
    tsi: u32,
    toi: u32,
    fti: &Fti,
    every: u32,
    writer: &mut W,
) -> Result<u64, SendFromFault>
    requires every { 1 ≤ every }
    ensures sent { OnOk result (ReadsObject fti.now (R.remaining reader.old)
        (λ object. Sends (AreSent object fti.now tsi toi every) (items Blocks fti.now)
        (W.contents writer.old) (W.contents writer.new))) }
    ensures end { OnOk result (IsAtEnd (R.remaining reader.new)) }
    ensures count { IfOk result (λ n. n ≡ length (pairs Blocks fti.now)) }
    ensures short { OnOk result (fti.now.symbol_length ≤ most_symbol_bytes) }
    ensures fault { IfErr result (λ e. IsSendFromFault e fti.now tsi toi every
        (reader_change R.Read reader.old reader.new)
        (writer_change W.Write writer.old writer.new)) }
    ensures full { IfErr result (λ e. e ≡ SendFromFault.Write
        → W.room writer.old < session_bytes fti.now every (items Blocks fti.now)) }
{
    if fti.symbol_length() > MOST_SYMBOL_BYTES {
        return Err(SendFromFault::SymbolTooLong);
    }
    let codes = BlockCodes::new(alloc, Kind::Generator, fti)?;
    let size = usize::from(fti.symbol_length());
    let mut sources = Vec::from_elem(alloc, 0u8, fti.k(0) * size)?;
    let mut symbols = Vec::from_elem(alloc, 0u8, fti.n(0) * size)?;
    let mut datagram = Vec::from_elem(alloc, 0u8, HEADER_SIZE + size)?;
    let transmission = Transmission {
        tsi,
        toi,
        fti: *fti,
        every,
        order: Order::Blocks,
        codes,
    };
    let count = send_blocks(
        &transmission,
        reader,
        &mut sources,
        &mut symbols,
        &mut datagram,
        writer,
    )?;
    read_end(reader)?;
    Ok(count)
}
