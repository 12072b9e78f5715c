//! Sending in order `Rounds` with several symbols of each block made at once.
//!
//! A product of a block's source symbols costs each of its outputs less, the more of them it makes
//! at once. So the repair symbols of several rounds are made before the first of them is sent.
ghost use Rattle.std.specs.Prelude.{◌≡◌, ◌<◌, ◌≤◌, ◌+◌, ◌*◌, ◌^◌, ℕ, List, length, true};
ghost use Rattle.std.specs.Prelude.{IfOk, OnOk, OnErr};
ghost use Rattle.partition.specs.Fti.{block_count};
ghost use Rattle.partition.specs.declared.order.Order.TheVariants.{Rounds};
ghost use Rattle.block_code.specs.Codes.{EachBlockHas};
ghost use Rattle.block_code.specs.CodesOf.{IsCodeOf};
ghost use Rattle.encoder.specs.Passes.{IsDatagramRoom, pairs_of_pass};
ghost use Rattle.encoder.specs.Rounds.{AreMade};
ghost use Rattle.encoder.specs.Sending.{pairs, items, items_from, AreSent, Sends, SendsSome};
ghost use Rattle.encoder.specs.Sending.{session_bytes};

use crate::rows::{block_of, encoding_symbols};
use crate::sending::{Transmission, send_symbol};
use partition::Fti;
use session::{Failed, Write};

// The most bytes that the symbols of several rounds take.
const MOST_BYTES: usize = 1 << 26;

/// Rounds whose symbols are made at once: `count` of them, from that of ESI `first` on.
#[derive(Clone, Copy)]
struct Batch {
    first: usize,
    count: usize,
}

/// How many rounds of repair symbols are made at once: as many as 64 MiB hold, and no more than
/// there are.
pub(crate) fn rounds_at_once(fti: &Fti) -> usize
    ensures { result ≤ 255 }
{
    let blocks = fti.block_count();
    let round = blocks as usize * usize::from(fti.symbol_length());
    (MOST_BYTES / round).min(fti.n(0).saturating_sub(fti.k(blocks - 1)))
}

// Makes the symbols of a batch of all blocks, of each as far as it has them, at its place among
// those of all.
fn make(t: &Transmission, object: &[u8], batch: Batch, symbols: &mut [u8])
    requires codes { EachBlockHas (IsCodeOf t.now.fti) t.now.fti t.now.codes }
    requires few { batch.count ≤ 255 }
    requires room { block_count t.now.fti * (batch.count * t.now.fti.symbol_length)
        ≤ length symbols.old }
    ensures { AreMade object.now t.now.fti batch.first batch.count symbols.new }
{
    let fti = &t.fti;
    let size = usize::from(fti.symbol_length());
    for block in 0..fti.block_count() {
        let n = fti.n(block);
        if batch.first < n {
            let count = batch.count.min(n - batch.first);
            let from = block as usize * (batch.count * size);
            let rows = &mut symbols[from..from + count * size];
            let code = t.codes.of(fti.k(block));
            let sources = block_of(object, fti, block);
            encoding_symbols(sources, fti, block, code, batch.first, count, rows);
        }
    }
}

// Sends a round, of which the symbols were made, at the places of the session from `place` on.
// Answers the place behind it.
fn send_round<W: Write>(
    t: &Transmission,
    batch: Batch,
    esi: u8,
    place: u64,
    symbols: &[u8],
    datagram: &mut [u8],
    writer: &mut W,
) -> Result<u64, Failed>
    requires first { batch.first ≤ esi }
    requires last { esi < batch.first + batch.count }
    requires few { batch.count ≤ 255 }
    requires place { place ≤ 2 ^ 40 }
    requires room { block_count t.now.fti * (batch.count * t.now.fti.symbol_length)
        ≤ length symbols.now }
    requires datagram { IsDatagramRoom t.now.fti datagram.old }
    ensures sent { (object : List ℕ)
        → AreMade object t.now.fti batch.first batch.count symbols.now
        → OnOk result (Sends (AreSent object t.now.fti t.now.tsi t.now.toi t.now.every)
        (items_from place (pairs_of_pass Rounds t.now.fti esi))
        (W.contents writer.old) (W.contents writer.new)) }
    ensures next { IfOk result (λ n.
        n ≡ place + length (pairs_of_pass Rounds t.now.fti esi)) }
    ensures few { IfOk result (λ n. n ≤ place + 2 ^ 24 * 255) }
    ensures some { (object : List ℕ)
        → AreMade object t.now.fti batch.first batch.count symbols.now
        → OnErr result (SendsSome (AreSent object t.now.fti t.now.tsi t.now.toi t.now.every)
        (items_from place (pairs_of_pass Rounds t.now.fti esi))
        (W.contents writer.old) (W.contents writer.new)) }
    ensures fails { OnErr result (W.failed writer.new ≡ true) }
    ensures full { OnErr result (W.room writer.old < session_bytes t.now.fti t.now.every
        (items_from place (pairs_of_pass Rounds t.now.fti esi))) }
    ensures fills { OnOk result (W.room writer.old ≤ W.room writer.new + session_bytes t.now.fti
        t.now.every (items_from place (pairs_of_pass Rounds t.now.fti esi))) }
{
    let size = usize::from(t.fti.symbol_length());
    let within = usize::from(esi) - batch.first;
    let mut next = place;
    for block in 0..t.fti.block_count() {
        if usize::from(esi) < t.fti.n(block) {
            let row = block as usize * batch.count + within;
            let symbol = &symbols[row * size..(row + 1) * size];
            send_symbol(t, next, block, esi, symbol, datagram, writer)?;
            next += 1;
        }
    }
    Ok(next)
}

/// Sends all rounds: source symbols as they stand in the object, one of each block at a time, and
/// repair symbols in batches of `at_once` rounds, for which `symbols` has room. Answers how many
/// datagrams there are.
pub(crate) fn send_rounds<W: Write>(
    t: &Transmission,
    object: &[u8],
    at_once: usize,
    symbols: &mut [u8],
    datagram: &mut [u8],
    writer: &mut W,
) -> Result<u64, Failed>
    requires codes { EachBlockHas (IsCodeOf t.now.fti) t.now.fti t.now.codes }
    requires some { 0 < at_once }
    requires few { at_once ≤ 255 }
    requires room { block_count t.now.fti * (at_once * t.now.fti.symbol_length)
        ≤ length symbols.old }
    requires datagram { IsDatagramRoom t.now.fti datagram.old }
    ensures sent { OnOk result (Sends
        (AreSent object.now t.now.fti t.now.tsi t.now.toi t.now.every)
        (items Rounds t.now.fti) (W.contents writer.old) (W.contents writer.new)) }
    ensures count { IfOk result (λ n. n ≡ length (pairs Rounds t.now.fti)) }
    ensures some { OnErr result (SendsSome
        (AreSent object.now t.now.fti t.now.tsi t.now.toi t.now.every)
        (items Rounds t.now.fti) (W.contents writer.old) (W.contents writer.new)) }
    ensures fails { OnErr result (W.failed writer.new ≡ true) }
    ensures full { OnErr result (W.room writer.old
        < session_bytes t.now.fti t.now.every (items Rounds t.now.fti)) }
    ensures fills { OnOk result (W.room writer.old ≤ W.room writer.new
        + session_bytes t.now.fti t.now.every (items Rounds t.now.fti)) }
{
    let sources = t.fti.k(t.fti.block_count() - 1);
    let mut batch = Batch { first: 0, count: 0 };
    let mut place = 0;
    for esi in 0..t.fti.max_symbols() {
        let first = usize::from(esi);
        if first == batch.first + batch.count {
            let count = if first < sources { 1 } else { at_once };
            batch = Batch { first, count };
            make(t, object, batch, symbols);
        }
        place = send_round(t, batch, esi, place, symbols, datagram, writer)?;
    }
    Ok(place)
}
