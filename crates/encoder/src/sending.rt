//! Sending an object: its encoding symbols as the datagrams of a session.
ghost use Rattle.std.specs.Prelude.{ℕ, List, ◌≡◌, ◌^◌, ◌≤◌, ◌<◌, ◌+◌, ◌*◌, ◌∷◌, [], true, length};
ghost use Rattle.std.specs.Prelude.{IfOk, IfErr, OnOk, OnErr};
ghost use Rattle.alc.specs.Views.{lent};
ghost use Rattle.reception.specs.Symbols.{Agrees};
ghost use Rattle.partition.specs.Fti.{IsValidFti, block_count, encoding_count};
ghost use Rattle.partition.specs.declared.order.Order.TheVariants.{Rounds};
ghost use Rattle.block_code.specs.Codes.{EachBlockHas};
ghost use Rattle.block_code.specs.CodesOf.{IsCodeOf};
ghost use Rattle.lists.specs.Bytes.{AreBytes};
ghost use Rattle.encoder.specs.Rows.{AreSourcesOf};
ghost use Rattle.encoder.specs.Passes.{IsDatagramRoom, run_of, pairs_in, pairs_of_pass, passes};
ghost use Rattle.encoder.specs.Passes.{at_once};
ghost use Rattle.streams.specs.Changes.{writer_change};
ghost use Rattle.encoder.specs.Sending.{pairs, items, items_from, fti_at, AreSent};
ghost use Rattle.encoder.specs.Sending.{Sends, SendsSome};
ghost use Rattle.encoder.specs.Sending.{CanBeSent, IsSendFault, most_symbol_bytes, frame_bytes};
ghost use Rattle.encoder.specs.Sending.{session_bytes};

use crate::rounds::{self, send_rounds};
use crate::rows::{block_of, encoding_symbols};
use alc::{HEADER_SIZE, write};
use block_code::{BlockCodes, Kind};
use partition::{Fti, Order};
use session::{Failed, MOST_BYTES, Write, write_one};
use std::alloc::{AllocError, Global};
use thiserror::Error;

/// Why a session wasn't sent.
#[derive(Debug, Clone, Copy, PartialEq, Eq, Error)]
pub enum SendFault {
    /// The object hasn't the FTI's transfer length.
    #[error("O1 Length")]
    Length,
    /// A datagram of 65,507 bytes doesn't hold an encoding symbol: E is above 65,475.
    #[error("O2 SymbolTooLong")]
    SymbolTooLong,
    /// The writer has failed.
    #[error("O3 Io")]
    Io,
    #[error("O4 NoMemory")]
    NoMemory,
}

impl From<AllocError> for SendFault {
    ghost use Rattle.encoder.specs.declared.sending.SendFault.TheVariants.{NoMemory};

    ghost from_gives = { λ _ fault. fault ≡ NoMemory };

    fn from(_: AllocError) -> Self {
        SendFault::NoMemory
    }
}

/// The most bytes of an encoding symbol that can be sent.
pub(crate) const MOST_SYMBOL_BYTES: u16 = (MOST_BYTES - HEADER_SIZE) as u16;

/// How an object is sent, and the codes of its blocks.
#[derive(Drop)]
pub(crate) struct Transmission {
    pub(crate) tsi: u32,
    pub(crate) toi: u32,
    pub(crate) fti: Fti,
    pub(crate) every: u32,
    pub(crate) order: Order,
    pub(crate) codes: BlockCodes,
    ghost short: { fti.symbol_length ≤ most_symbol_bytes },
    ghost valid: { IsValidFti fti },
    ghost some: { 1 ≤ every },
}

/// Encoding symbols of a block: `count` of them, from ESI `first` on.
#[derive(Clone, Copy)]
pub(crate) struct Run {
    pub(crate) block: u32,
    pub(crate) first: usize,
    pub(crate) count: usize,
}

impl Transmission {
    // The FTI, where the datagram at this place of the session carries it.
    pub(crate) fn fti_at(&self, place: u64) -> Option<&Fti>
        ensures { lent result ≡ fti_at self.now.fti self.now.every place }
    {
        if place % u64::from(self.every) == 0 {
            Some(&self.fti)
        } else {
            None
        }
    }
}

/// Sends the datagram of an encoding symbol, at this place of the session. `datagram` has room for
/// it.
pub(crate) fn send_symbol<W: Write>(
    t: &Transmission,
    place: u64,
    block: u32,
    esi: u8,
    symbol: &[u8],
    datagram: &mut [u8],
    writer: &mut W,
) -> Result<(), Failed>
    requires block { block < block_count t.now.fti }
    requires esi { esi < encoding_count t.now.fti block }
    requires symbol { length symbol.now ≡ t.now.fti.symbol_length }
    requires datagram { IsDatagramRoom t.now.fti datagram.old }
    ensures sent { (object : List ℕ)
        → Agrees t.now.fti object (record { block = block; esi = esi; bytes = symbol.now })
        → OnOk result (Sends (AreSent object t.now.fti t.now.tsi t.now.toi t.now.every)
        (items_from place ((block, esi) ∷ []))
        (W.contents writer.old) (W.contents writer.new)) }
    ensures some { (object : List ℕ)
        → Agrees t.now.fti object (record { block = block; esi = esi; bytes = symbol.now })
        → OnErr result (SendsSome (AreSent object t.now.fti t.now.tsi t.now.toi t.now.every)
        (items_from place ((block, esi) ∷ []))
        (W.contents writer.old) (W.contents writer.new)) }
    ensures fails { OnErr result (W.failed writer.new ≡ true) }
    ensures full { OnErr result
        (W.room writer.old < frame_bytes t.now.fti t.now.every place) }
    ensures fills { OnOk result
        (W.room writer.old ≤ W.room writer.new + frame_bytes t.now.fti t.now.every place) }
{
    let size = write(t.tsi, t.toi, t.fti_at(place), block, esi, symbol, datagram);
    match write_one(writer, &datagram[..size]) {
        Ok(()) => Ok(()),
        Err(_) => Err(Failed),
    }
}

/// Sends a run of encoding symbols, as many as there is room for, at the places of the session from
/// `place` on. They are made of the block's source symbols.
pub(crate) fn send_symbols<W: Write>(
    t: &Transmission,
    sources: &[u8],
    run: Run,
    place: u64,
    symbols: &mut [u8],
    datagram: &mut [u8],
    writer: &mut W,
) -> Result<(), Failed>
    requires codes { EachBlockHas (IsCodeOf t.now.fti) t.now.fti t.now.codes }
    requires place { place + run.count < 2 ^ 64 }
    requires block { run.block < block_count t.now.fti }
    requires within { run.first + run.count ≤ encoding_count t.now.fti run.block }
    requires symbols { length symbols.old ≡ run.count * t.now.fti.symbol_length }
    requires datagram { IsDatagramRoom t.now.fti datagram.old }
    ensures sent { (object : List ℕ) → AreBytes object
        → AreSourcesOf t.now.fti object run.block sources.now
        → OnOk result (Sends (AreSent object t.now.fti t.now.tsi t.now.toi t.now.every)
        (items_from place (run_of run.block run.first run.count))
        (W.contents writer.old) (W.contents writer.new)) }
    ensures some { (object : List ℕ) → AreBytes object
        → AreSourcesOf t.now.fti object run.block sources.now
        → OnErr result (SendsSome (AreSent object t.now.fti t.now.tsi t.now.toi t.now.every)
        (items_from place (run_of run.block run.first run.count))
        (W.contents writer.old) (W.contents writer.new)) }
    ensures fails { OnErr result (W.failed writer.new ≡ true) }
    ensures full { OnErr result (W.room writer.old
        < session_bytes t.now.fti t.now.every
        (items_from place (run_of run.block run.first run.count))) }
    ensures fills { OnOk result (W.room writer.old ≤ W.room writer.new
        + session_bytes t.now.fti t.now.every
        (items_from place (run_of run.block run.first run.count))) }
{
    let Run {
        block,
        first,
        count,
    } = run;
    let code = t.codes.of(t.fti.k(block));
    encoding_symbols(sources, &t.fti, block, code, first, count, symbols);
    let size = usize::from(t.fti.symbol_length());
    for i in 0..count {
        let symbol = &symbols[i * size..(i + 1) * size];
        let esi = (first + i) as u8;
        send_symbol(t, place + i as u64, block, esi, symbol, datagram, writer)?;
    }
    Ok(())
}

// What a pass sends of a block.
fn run_in_pass(fti: &Fti, order: Order, pass: u8, block: u32) -> Run
    requires valid { IsValidFti fti.now }
    requires block { block < block_count fti.now }
    ensures block { result.block ≡ block }
    ensures within { result.first + result.count ≤ encoding_count fti.now block }
    ensures most { result.count ≤ at_once order fti.now }
    ensures pairs { run_of result.block result.first result.count
        ≡ pairs_in order fti.now pass block }
{
    let n = fti.n(block);
    let esi = usize::from(pass);
    match order {
        Order::Blocks => Run {
            block,
            first: 0,
            count: n,
        },
        Order::Rounds => {
            if esi < n {
                Run {
                    block,
                    first: esi,
                    count: 1,
                }
            } else {
                Run {
                    block,
                    first: 0,
                    count: 0,
                }
            }
        }
    }
}

// Sends one pass over the blocks, at the places from `place` on, and tells the place behind it.
fn send_pass<W: Write>(
    t: &Transmission,
    object: &[u8],
    pass: u8,
    place: u64,
    symbols: &mut [u8],
    datagram: &mut [u8],
    writer: &mut W,
) -> Result<u64, Failed>
    requires codes { EachBlockHas (IsCodeOf t.now.fti) t.now.fti t.now.codes }
    requires place { place ≤ 2 ^ 40 }
    requires room { length symbols.old ≡ at_once t.now.order t.now.fti * t.now.fti.symbol_length }
    requires datagram { IsDatagramRoom t.now.fti datagram.old }
    ensures sent { OnOk result (Sends
        (AreSent object.now t.now.fti t.now.tsi t.now.toi t.now.every)
        (items_from place (pairs_of_pass t.now.order t.now.fti pass))
        (W.contents writer.old) (W.contents writer.new)) }
    ensures next { IfOk result (λ n.
        n ≡ place + length (pairs_of_pass t.now.order t.now.fti pass)) }
    ensures few { IfOk result (λ n. n ≤ place + 2 ^ 24 * 255) }
    ensures some { OnErr result (SendsSome
        (AreSent object.now t.now.fti t.now.tsi t.now.toi t.now.every)
        (items_from place (pairs_of_pass t.now.order t.now.fti pass))
        (W.contents writer.old) (W.contents writer.new)) }
    ensures fails { OnErr result (W.failed writer.new ≡ true) }
    ensures full { OnErr result (W.room writer.old < session_bytes t.now.fti t.now.every
        (items_from place (pairs_of_pass t.now.order t.now.fti pass))) }
    ensures fills { OnOk result (W.room writer.old ≤ W.room writer.new + session_bytes t.now.fti
        t.now.every (items_from place (pairs_of_pass t.now.order t.now.fti pass))) }
{
    let size = usize::from(t.fti.symbol_length());
    let mut next = place;
    for block in 0..t.fti.block_count() {
        let run = run_in_pass(&t.fti, t.order, pass, block);
        let room = &mut symbols[..run.count * size];
        let sources = block_of(object, &t.fti, run.block);
        send_symbols(t, sources, run, next, room, datagram, writer)?;
        next += run.count as u64;
    }
    Ok(next)
}

// How many passes there are.
fn pass_count(fti: &Fti, order: Order) -> u8
    ensures { result ≡ passes order fti.now }
{
    match order {
        Order::Blocks => 1,
        Order::Rounds => fti.max_symbols(),
    }
}

// Sends all passes: one in order `Blocks`, where a block's symbols are made and sent at once; one
// for each ESI in order `Rounds`, where a single symbol is made of the object at a time.
fn send_all<W: Write>(
    t: &Transmission,
    object: &[u8],
    symbols: &mut [u8],
    datagram: &mut [u8],
    writer: &mut W,
) -> Result<u64, Failed>
    requires codes { EachBlockHas (IsCodeOf t.now.fti) t.now.fti t.now.codes }
    requires room { length symbols.old ≡ at_once t.now.order t.now.fti * t.now.fti.symbol_length }
    requires datagram { IsDatagramRoom t.now.fti datagram.old }
    ensures sent { OnOk result (Sends
        (AreSent object.now t.now.fti t.now.tsi t.now.toi t.now.every)
        (items t.now.order t.now.fti) (W.contents writer.old) (W.contents writer.new)) }
    ensures count { IfOk result (λ n. n ≡ length (pairs t.now.order t.now.fti)) }
    ensures some { OnErr result (SendsSome
        (AreSent object.now t.now.fti t.now.tsi t.now.toi t.now.every)
        (items t.now.order t.now.fti) (W.contents writer.old) (W.contents writer.new)) }
    ensures fails { OnErr result (W.failed writer.new ≡ true) }
    ensures full { OnErr result (W.room writer.old
        < session_bytes t.now.fti t.now.every (items t.now.order t.now.fti)) }
    ensures fills { OnOk result (W.room writer.old ≤ W.room writer.new
        + session_bytes t.now.fti t.now.every (items t.now.order t.now.fti)) }
{
    let mut place = 0;
    for pass in 0..pass_count(&t.fti, t.order) {
        place = send_pass(t, object, pass, place, symbols, datagram, writer)?;
    }
    Ok(place)
}

// How many encoding symbols are made at once: all of the greatest block, or one.
fn most_at_once(fti: &Fti, order: Order) -> usize
    requires { IsValidFti fti.now }
    ensures value { result ≡ at_once order fti.now }
    ensures byte { result ≤ 255 }
{
    match order {
        Order::Blocks => fti.n(0),
        Order::Rounds => 1,
    }
}

// How many rounds are made at once. Where these are fewer than two, one symbol is made at a time.
fn rounds_at_once(fti: &Fti, order: Order) -> usize
    ensures few { result ≤ 255 }
    ensures rounds { 1 < result → order ≡ Rounds }
{
    match order {
        Order::Blocks => 0,
        Order::Rounds => rounds::rounds_at_once(fti),
    }
}

// How many bytes the encoding symbols take that are made at once.
fn room(fti: &Fti, order: Order, rounds: usize) -> usize
    requires { rounds ≤ 255 }
    ensures one { rounds ≤ 1 → result ≡ at_once order fti.now * fti.now.symbol_length }
    ensures many { 1 < rounds
        → result ≡ block_count fti.now * (rounds * fti.now.symbol_length) }
{
    let size = usize::from(fti.symbol_length());
    if rounds > 1 {
        fti.block_count() as usize * (rounds * size)
    } else {
        most_at_once(fti, order) * size
    }
}

/// Sends the object: writes the frame of the datagram of each encoding symbol of each block, source
/// symbols among them (RFC 5510, section 8), in this order, and tells how many datagrams. Those at
/// the places that `every` divides, 0 among them, carry the FTI, and no others.
///
/// All memory is asked for before the first byte is written: two generator matrices at most, and
/// room for one datagram and for the encoding symbols that are made at once: a block's, or in order
/// `Rounds` those of some rounds, 64 MiB at most. `Io` comes only where the writer has failed, and
/// never where it is sure to have room for the whole session.
pub fn encode<W: Write>(
    alloc: Global,
    object: &[u8],
    tsi: u32,
    toi: u32,
    fti: &Fti,
    every: u32,
    order: Order,
    writer: &mut W,
) -> Result<u64, SendFault>
    requires every { 1 ≤ every }
    ensures sent { OnOk result (Sends (AreSent object.now fti.now tsi toi every)
        (items order fti.now) (W.contents writer.old) (W.contents writer.new)) }
    ensures count { IfOk result (λ n. n ≡ length (pairs order fti.now)) }
    ensures can { OnOk result (CanBeSent object.now fti.now) }
    ensures fault { IfErr result (λ e. IsSendFault e object.now fti.now
        (SendsSome (AreSent object.now fti.now tsi toi every) (items order fti.now))
        (writer_change W.Write writer.old writer.new)) }
    ensures full { IfErr result (λ e. e ≡ SendFault.Io
        → W.room writer.old < session_bytes fti.now every (items order fti.now)) }
{
    if object.len() as u64 != fti.transfer_length() {
        return Err(SendFault::Length);
    }
    if fti.symbol_length() > MOST_SYMBOL_BYTES {
        return Err(SendFault::SymbolTooLong);
    }
    let codes = BlockCodes::new(alloc, Kind::Generator, fti)?;
    let size = usize::from(fti.symbol_length());
    let rounds = rounds_at_once(fti, order);
    let mut symbols = Vec::from_elem(alloc, 0u8, room(fti, order, rounds))?;
    let mut datagram = Vec::from_elem(alloc, 0u8, HEADER_SIZE + size)?;
    let transmission = Transmission {
        tsi,
        toi,
        fti: *fti,
        every,
        order,
        codes,
    };
    let t = &transmission;
    let sent = if rounds > 1 {
        send_rounds(t, object, rounds, &mut symbols, &mut datagram, writer)
    } else {
        send_all(t, object, &mut symbols, &mut datagram, writer)
    };
    let Ok(count) = sent else {
        return Err(SendFault::Io);
    };
    Ok(count)
}
