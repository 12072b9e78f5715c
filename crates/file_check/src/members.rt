//! A block's symbols in the datagrams of a session file, read again where they stand.
ghost use Rattle.std.specs.Prelude.{◌≡◌, ◌<◌, ◌≤◌, ◌+◌, ◌*◌, ◌↔◌, IsTrue, ℕ, List, Some, Ok, false};
ghost use Rattle.std.specs.Prelude.{length};
ghost use Rattle.std.specs.Prelude.{IfOk, IfSome, OnErr};
ghost use Rattle.losses.specs.Groups.{groups_of};
ghost use Rattle.partition.specs.Fti.{Fti as FtiValue, block_count, encoding_count};
ghost use Rattle.session.specs.Extents.{datagram_in};
ghost use Rattle.alc.specs.Computed.{read_of};
ghost use Rattle.alc.specs.Packet.{Packet as PacketValue};
ghost use Rattle.reception.specs.Reception.{InRange, is_carrier, look, symbol_of};
ghost use Rattle.certificate.specs.BlockSymbols.{AreSymbols};
ghost use Rattle.certificate.specs.Certificate.{Certificate as CertificateValue, IsCertificate};
ghost use Rattle.cert.specs.Tallying.{IsPacketOf, by_certificate, reading_at, tallied_of};
ghost use Rattle.file_check.specs.Blocks.{AreSaid, IsWrong, limit_of};
ghost use Rattle.file_check.specs.Indexed.{IsIndexOf};
ghost use Rattle.file_check.specs.declared.blocks.Wrong.{Wrong as WrongValue};

use crate::blocks::Wrong;
use crate::index::Index;
use certified_symbols::first_difference;
use reception::{Look, Scope};
use session::{Extent, Failed};
use streams::{Lanes, ReadAt};

/// Room for the bytes of any datagram.
pub(crate) const ROOM: usize = 1 << 16;

/// What is compared with a block's symbols: the block, and all symbols that the certificate gives
/// of it, one behind the other.
#[derive(Clone, Copy)]
pub(crate) struct Made<'a> {
    pub(crate) block: u32,
    pub(crate) symbols: &'a [u8],
}

// Whether the datagram at a place was a carrier, when the frames were gone over.
fn was_carrier(index: &Index, place: usize) -> bool
    ensures { (x : List ℕ) (f : FtiValue) (ds : List (List ℕ)) → IsIndexOf x f index.now ds
        → place < length ds
        → result ≡ is_carrier index.now.tally.scope.identity (reading_at ds place) }
{
    match index.tally.carriers.binary_search(&place) {
        Ok(_) => true,
        Err(_) => false,
    }
}

// The least column in which the symbol of the datagram at an extent isn't the certified one.
// `Failed` tells that the file has failed, or that no packet of the block and the ESI stands there,
// which is a carrier just where this is told.
fn wrong_column<S: ReadAt>(
    session: &mut Lanes<'_, S>,
    scope: &Scope,
    extent: Extent,
    esi: u8,
    carrier: bool,
    made: Made<'_>,
    datagram: &mut [u8],
) -> Result<Option<usize>, Failed>
    requires room { length datagram.old ≡ ROOM }
    requires known { (f : FtiValue) × (scope.now.fti ≡ Some f) × (made.block < block_count f)
        × (length made.symbols.now ≡ encoding_count f made.block * f.symbol_length) }
    ensures says { (x : List ℕ) (z : CertificateValue) (p : PacketValue)
        → S.content session.old.file.now ≡ Some x → IsCertificate z
        → scope.now.fti ≡ Some z.fti
        → AreSymbols z made.entry.block 0 (encoding_count z.fti made.entry.block)
        made.entry.symbols.now
        → extent.offset + extent.length ≤ length x
        → look scope.now (read_of (datagram_in x extent)) ≡ Ok (InRange p)
        → IfOk result (λ o. by_certificate z (symbol_of p) ≡ o) }
    ensures lost { OnErr result ((x : List ℕ) → S.content session.old.file.now ≡ Some x
        → extent.offset + extent.length ≤ length x
        → IsPacketOf scope.now made.entry.block esi (read_of (datagram_in x extent))
        → carrier ≡ is_carrier scope.now.identity (read_of (datagram_in x extent))
        → S.reliable session.old.file.now ≡ false) }
    ensures file { session.new.file.now ≡ session.old.file.now }
    ensures len { length datagram.new ≡ ROOM }
{
    let bytes = &mut datagram[..usize::from(extent.length)];
    if session.fill(usize::from(esi), extent.offset, bytes)? < bytes.len() {
        return Err(Failed);
    }
    let mut known = *scope;
    let packet = match known.look(bytes) {
        Ok(Look::InRange(packet)) => packet,
        Ok(Look::Other) => return Err(Failed),
        Ok(Look::Early) => return Err(Failed),
        Ok(Look::OtherFti) => return Err(Failed),
        Ok(Look::SymbolLength) => return Err(Failed),
        Ok(Look::Range) => return Err(Failed),
        Err(_) => return Err(Failed),
    };
    if packet.sbn != made.block {
        return Err(Failed);
    }
    if packet.esi != esi {
        return Err(Failed);
    }
    if packet.fti.is_some() != carrier {
        return Err(Failed);
    }
    let width = packet.symbol.len();
    let from = usize::from(esi) * width;
    Ok(first_difference(&made.symbols[from..from + width], packet.symbol))
}

// Whether a place stands behind that of a wrong symbol, or is it.
fn is_behind(wrong: Option<Wrong>, place: usize) -> bool
    ensures { IsTrue result ↔ ((w : WrongValue) × (wrong ≡ Some w) × (w.place ≤ place)) }
{
    match wrong {
        Some(wrong) => wrong.place <= place,
        None => false,
    }
}

/// The first wrong symbol, by its datagram's place, of this block and of those before it, of which
/// it is known. `Failed` tells that the file has failed, or has changed.
pub(crate) fn first_wrong<S: ReadAt>(
    session: &mut Lanes<'_, S>,
    index: &Index,
    made: Made<'_>,
    datagram: &mut [u8],
    before: Option<Wrong>,
) -> Result<Option<Wrong>, Failed>
    requires room { length datagram.old ≡ ROOM }
    requires block { made.block < length (groups_of index.now.tally.groups) }
    requires known { (f : FtiValue) × (index.now.tally.scope.fti ≡ Some f)
        × (made.block < block_count f)
        × (length made.symbols.now ≡ encoding_count f made.block * f.symbol_length) }
    ensures said { (x : List ℕ) (z : CertificateValue) (ds : List (List ℕ))
        → S.content session.old.file.now ≡ Some x → IsCertificate z
        → IsIndexOf x z.fti index.now ds
        → AreSymbols z made.entry.block 0 (encoding_count z.fti made.entry.block)
        made.entry.symbols.now → IfOk result (λ w.
        AreSaid z (tallied_of index.now.tally) ds made.entry.block (limit_of w (length ds))) }
    ensures wrong { (x : List ℕ) (z : CertificateValue) (ds : List (List ℕ))
        → S.content session.old.file.now ≡ Some x → IsCertificate z
        → IsIndexOf x z.fti index.now ds
        → AreSymbols z made.entry.block 0 (encoding_count z.fti made.entry.block)
        made.entry.symbols.now → IfSome before (IsWrong z index.now.tally.scope ds)
        → IfOk result (λ w. IfSome w (IsWrong z index.now.tally.scope ds)) }
    ensures earlier { (x : List ℕ) (f : FtiValue) (ds : List (List ℕ))
        → IsIndexOf x f index.now ds
        → IfOk result (λ w. limit_of w (length ds) ≤ limit_of before (length ds)) }
    ensures lost { OnErr result ((x : List ℕ) (f : FtiValue) (ds : List (List ℕ))
        → S.content session.old.file.now ≡ Some x → IsIndexOf x f index.now ds
        → S.reliable session.old.file.now ≡ false) }
    ensures file { session.new.file.now ≡ session.old.file.now }
    ensures len { length datagram.new ≡ ROOM }
{
    let mut first = before;
    let entries = index.tally.groups.entries_near(made.block as usize);
    for entry in entries {
        if entry.group != made.block {
            continue;
        }
        if is_behind(first, entry.place) {
            continue;
        }
        let Some(extent) = index.extents.get(entry.place) else {
            return Err(Failed);
        };
        let scope = &index.tally.scope;
        let carrier = was_carrier(index, entry.place);
        match wrong_column(session, scope, extent, entry.esi, carrier, made, datagram)? {
            Some(column) => {
                first = Some(Wrong {
                    place: entry.place,
                    column,
                });
            }
            None => {}
        }
    }
    Ok(first)
}
