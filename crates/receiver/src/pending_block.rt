//! A block that has fewer symbols than it needs.
ghost use Rattle.std.specs.Prelude.{◌≡◌, ◌≢◌, ◌<◌, ◌≤◌, ◌+◌, ◌*◌, ◌++◌, ◌∷◌, ◌==◌, ◌||◌, ℕ, List};
ghost use Rattle.std.specs.Prelude.{Option, Some, [], false, length, is_some, option_map};
ghost use Rattle.std.specs.Prelude.{slice_index, IfOk, IfSome, OnOk, OnErr};
ghost use Rattle.partition.specs.Fti.{block_count, source_count, encoding_count};
ghost use Rattle.block_recovery.specs.Blocks.{bytes_of_esi, HaveLength};
ghost use Rattle.block_recovery.specs.Arrivals.{with_esi};
ghost use Rattle.receiver.specs.Esis.{esis_of};
ghost use Rattle.receiver.specs.Putting.{MayPut, IsPutFault, Outcome, BlockOutcome, bytes_change};
ghost use Rattle.receiver.specs.Stored.{IsOf, IsPending, IsSolved, AreSymbols, is_among};

use crate::esis::Esis;
use crate::receiver::FeedFault;
use crate::solver::Solver;
use alc::Packet;
use block_bytes::BlockBytes;
use block_recovery::{DecodeFault, block_rows};
use partition::Fti;
use std::alloc::{AllocError, Global};

/// At which place an ESI stands among others.
pub(crate) fn place_of(esis: &[u8], esi: u8) -> Option<usize>
    ensures found { IfSome result (λ i.
        (i < length esis.now) × (slice_index esis.now i ≡ esi)) }
    ensures among { is_some result ≡ is_among esis.now esi }
{
    for i in 0..esis.len() {
        if esis[i] == esi {
            return Some(i);
        }
    }
    None
}

// The symbol at an ESI of a block: the last, or one of those whose bytes stand one behind the
// other.
fn symbol_at<'a>(
    esis: &[u8],
    bytes: &'a [u8],
    last_esi: u8,
    last: &'a [u8],
    esi: u8,
) -> Option<&'a [u8]>
    requires { length esis.now * length last.now ≤ length bytes.now }
    ensures size { IfSome result (λ s. length s.now ≡ length last.now) }
    ensures some { is_some result ≡ (last_esi == esi || is_among esis.now esi) }
    ensures at { (at : ℕ → Option (List ℕ))
        → AreSymbols (length last.now) esis.now bytes.now at
        → option_map (λ s. s.now) result ≡ with_esi at last_esi last.now esi }
{
    if last_esi == esi {
        return Some(last);
    }
    let i = place_of(esis, esi)?;
    Some(&bytes[i * last.len()..(i + 1) * last.len()])
}

// The symbols at the first `n` ESIs, those that came and the last.
fn symbols_with<'a>(
    alloc: Global,
    esis: &[u8],
    bytes: &'a [u8],
    last_esi: u8,
    last: &'a [u8],
    n: usize,
) -> Result<Vec<Option<&'a [u8]>>, AllocError>
    requires most { n ≤ 255 }
    requires whole { length esis.now * length last.now ≤ length bytes.now }
    ensures len { IfOk result (λ v. length v.items ≡ n) }
    ensures sizes { IfOk result (λ v. HaveLength (length last.now) (bytes_of_esi v.items)) }
    ensures some { IfOk result (λ v. (j : ℕ) → j < n → is_some (bytes_of_esi v.items j)
        ≡ (last_esi == j || is_among esis.now j)) }
    ensures at { (at : ℕ → Option (List ℕ))
        → AreSymbols (length last.now) esis.now bytes.now at
        → IfOk result (λ v. (j : ℕ) → j < n
        → bytes_of_esi v.items j ≡ with_esi at last_esi last.now j) }
{
    let mut symbols = Vec::with_capacity(alloc, n)?;
    for esi in 0..n {
        symbols.push(symbol_at(esis, bytes, last_esi, last, esi as u8))?;
    }
    Ok(symbols)
}

/// Compares the symbol of the packet at a place with the one that came, which stands at an index
/// among those that did.
pub(crate) fn compare<B: BlockBytes>(
    alloc: Global,
    fti: &Fti,
    place: usize,
    packet: &Packet<'_>,
    esis: &[u8],
    index: usize,
    bytes: &mut B,
) -> Result<(), FeedFault>
    requires number { packet.now.sbn < block_count fti.now }
    requires symbol { length packet.now.symbol.now ≡ fti.now.symbol_length }
    requires index { (index < length esis.now) × (slice_index esis.now index ≡ packet.now.esi) }
    requires few { length esis.now < source_count fti.now packet.now.sbn }
    ensures outcome { (x : ℕ → List ℕ) (at : ℕ → Option (List ℕ))
        → B.kept bytes.old fti.now ≡ Some x
        → IsPending fti.now packet.now.sbn (x packet.now.sbn) esis.now at
        → Outcome (B.failed bytes.new) result
        (at packet.now.esi ≡ Some packet.now.symbol.now)
        (IsPutFault fti.now place packet.now at) }
    ensures stays { B.kept bytes.new ≡ B.kept bytes.old }
{
    let size = usize::from(fti.symbol_length());
    let mut symbol = vec![in alloc; 0u8; size]?;
    bytes.read(fti, packet.sbn, index * size, &mut symbol)?;
    if symbol.as_slice() == packet.symbol {
        Ok(())
    } else {
        Err(FeedFault::Fault(DecodeFault::Clash(place)))
    }
}

impl Esis {
    /// Keeps the packet's symbol behind those that came of its block, so many, where it isn't the
    /// last that the block needs.
    pub(crate) fn keep<B: BlockBytes>(
        &mut self,
        alloc: Global,
        fti: &Fti,
        packet: &Packet<'_>,
        have: usize,
        bytes: &mut B,
    ) -> Result<(), FeedFault>
        requires have { have ≡ length (esis_of self.old packet.now.sbn) }
        requires number { packet.now.sbn < block_count fti.now }
        requires symbol { length packet.now.symbol.now ≡ fti.now.symbol_length }
        requires esi { packet.now.esi < encoding_count fti.now packet.now.sbn }
        requires few { have + 1 < source_count fti.now packet.now.sbn }
        requires free { is_among (esis_of self.old packet.now.sbn) packet.now.esi ≡ false }
        ensures kept { OnOk result (esis_of self.new packet.now.sbn
            ≡ esis_of self.old packet.now.sbn ++ packet.now.esi ∷ []) }
        ensures same { OnErr result
            (esis_of self.new packet.now.sbn ≡ esis_of self.old packet.now.sbn) }
        ensures others { (a : ℕ) → packet.now.sbn ≢ a
            → esis_of self.new a ≡ esis_of self.old a }
        ensures outcome { (place : ℕ) (x : ℕ → List ℕ) (at : ℕ → Option (List ℕ))
            → B.kept bytes.old fti.now ≡ Some x
            → IsPending fti.now packet.now.sbn (x packet.now.sbn)
            (esis_of self.old packet.now.sbn) at
            → BlockOutcome packet.now at (bytes_change B.BlockBytes fti.now x bytes.new) result
            (λ y. IsPending fti.now packet.now.sbn y (esis_of self.new packet.now.sbn))
            (λ y. IsPending fti.now packet.now.sbn y (esis_of self.new packet.now.sbn) at)
            (IsPutFault fti.now place packet.now at) }
    {
        let from = have * usize::from(fti.symbol_length());
        self.reserve(alloc, packet.sbn)?;
        bytes.write(alloc, fti, packet.sbn, from, packet.symbol)?;
        self.push(packet.sbn, packet.esi);
        Ok(())
    }

    /// Solves the packet's block, by the symbols that came and this one, which is the last that it
    /// needs. Room for its ESI is made first: where the source symbols are written, it is noted.
    pub(crate) fn solve<B: BlockBytes>(
        &mut self,
        alloc: Global,
        fti: &Fti,
        packet: &Packet<'_>,
        solver: &mut Solver,
        bytes: &mut B,
    ) -> Result<(), FeedFault>
        requires given { MayPut fti.now packet.now solver.old }
        requires of { IsOf fti.now packet.now.sbn (esis_of self.old packet.now.sbn) }
        requires few { length (esis_of self.old packet.now.sbn)
            < source_count fti.now packet.now.sbn }
        requires free { is_among (esis_of self.old packet.now.sbn) packet.now.esi ≡ false }
        requires last { source_count fti.now packet.now.sbn
            ≤ length (esis_of self.old packet.now.sbn) + 1 }
        ensures keeps { MayPut fti.now packet.now solver.new }
        ensures kept { OnOk result (esis_of self.new packet.now.sbn
            ≡ esis_of self.old packet.now.sbn ++ packet.now.esi ∷ []) }
        ensures same { OnErr result
            (esis_of self.new packet.now.sbn ≡ esis_of self.old packet.now.sbn) }
        ensures others { (a : ℕ) → packet.now.sbn ≢ a
            → esis_of self.new a ≡ esis_of self.old a }
        ensures outcome { (place : ℕ) (x : ℕ → List ℕ) (at : ℕ → Option (List ℕ))
            → B.kept bytes.old fti.now ≡ Some x
            → IsPending fti.now packet.now.sbn (x packet.now.sbn)
            (esis_of self.old packet.now.sbn) at
            → BlockOutcome packet.now at (bytes_change B.BlockBytes fti.now x bytes.new) result
            (λ y. IsSolved fti.now packet.now.sbn y (esis_of self.new packet.now.sbn))
            (λ y. IsPending fti.now packet.now.sbn y (esis_of self.new packet.now.sbn) at)
            (IsPutFault fti.now place packet.now at) }
    {
        let b = packet.sbn;
        let n = fti.n(b);
        let size = usize::from(fti.symbol_length());
        let esis = self.get(b);
        let mut came = vec![in alloc; 0u8; esis.len() * size]?;
        bytes.read(fti, b, 0, &mut came)?;
        let symbols = symbols_with(alloc, esis, &came, packet.esi, packet.symbol, n)?;
        let codes = &solver.codes;
        let recovery = &mut solver.recovery;
        let Some(rows) = block_rows(alloc, fti, codes, b, &symbols, recovery)? else {
            return Err(FeedFault::Fault(DecodeFault::NotCode(b)));
        };
        self.reserve(alloc, b)?;
        bytes.write(alloc, fti, b, 0, &rows.bytes)?;
        solver.rows = Some(rows);
        self.push(b, packet.esi);
        Ok(())
    }
}
