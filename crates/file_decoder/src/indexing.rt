//! The places of an object's packets in a session file, of which no more is held.
//!
//! The FTI of the first carrier is found in a pass of its own, which ends there, as it may stand
//! behind a packet that has a fault by it. A fault of the frames is told before one at a place,
//! wherever it stands: so behind a fault at a place the frames are read to their end.
ghost use Rattle.std.specs.Prelude.{◌≡◌, ◌==◌, ◌&&◌, ◌<◌, ℕ, List, Some, true, false, not};
ghost use Rattle.std.specs.Prelude.{option_map, IsNone, IfSome, IfOk, IfErr, OnOk};
ghost use Rattle.std.specs.List.{Contains};
ghost use Rattle.alc.specs.Views.{packet_of};
ghost use Rattle.reception.specs.Symbols.{Symbol};
ghost use Rattle.reception.specs.Reception.{symbol_of, with_fti};
ghost use Rattle.reception.specs.Answer.{clashes};
ghost use Rattle.reception.specs.Walks.{scope_in};
ghost use Rattle.session.specs.Extents.{AreFrames};
ghost use Rattle.session.specs.Frames.{IsFramed, IsSessionFault};
ghost use Rattle.block_recovery.specs.Arrivals.{arrived_at};
ghost use Rattle.file_decoder.specs.InFile.{held_in, AreSymbolsIn, IsSymbolIn};
ghost use Rattle.file_decoder.specs.IndexedIn.{IsFileFault};
ghost use Rattle.file_decoder.specs.Indexing.{IsAlone, IsCarriedIn, IsWholeBut};
ghost use Rattle.block_recovery.specs.Refusals.{IsRefusal};
ghost use Rattle.block_recovery.specs.Received.{AreReceived, IsIndex, IsNothing, came_at, list_of};
ghost use Rattle.block_recovery.specs.Decoded.{AreInRange};
ghost use Rattle.file_decoder.specs.declared.rereading.Place.{Place as PlaceValue};
ghost use Rattle.partition.specs.Fti.{Fti as FtiValue, block_count, encoding_count};

use crate::indexed_file::FileFault;
use crate::rereading::{Place, is_symbol};
use alc::Packet;
use block_recovery::{Arrival, DecodeFault, Symbols, fault_at};
use decoder::Unread;
use lists::are_bytes;
use partition::Fti;
use reception::{Identity, Look, Scope};
use session::{FrameFault, Position, Read, read_next, read_next_into};
use std::alloc::Global;
use streams::{Cursor, ReadAt};

// Reads the frames that are left.
fn read_rest<R: Read>(alloc: Global, reader: &mut R) -> Result<(), FrameFault>
    ensures whole { OnOk result (AreFrames (R.remaining reader.old)) }
    ensures fault { IfErr result (λ e.
        IsSessionFault e (R.remaining reader.old) (R.failed reader.new)) }
    ensures unsound { IfErr result (λ e. e ≡ FrameFault.Io → R.sound reader.old ≡ false) }
{
    loop {
        let Some(datagram) = read_next(alloc, reader)? else {
            return Ok(());
        };
        are_bytes(datagram.as_slice());
    }
}

// The FTI that a datagram of the identity carries, if it does, and its fault, if it has one, where
// no FTI is known before.
fn look_alone(
    identity: Identity,
    place: usize,
    datagram: &[u8],
) -> (Option<Fti>, Option<DecodeFault>)
    ensures { IsAlone identity place datagram.now result.0 result.1 }
{
    let mut scope = Scope::new(identity);
    let fault = fault_at(place, &scope.look(datagram));
    (scope.fti, fault)
}

// The FTI of the first carrier of the identity, if there is one. A fault is told where there is
// none: the first datagram that is no packet.
fn first_fti<R: Read>(
    alloc: Global,
    reader: &mut R,
    identity: Identity,
) -> Result<Result<Option<Fti>, DecodeFault>, FileFault>
    ensures carrier { (x : List ℕ) (ds : List (List ℕ)) → R.remaining reader.old ≡ Some x
        → IsFramed ds x → IfOk result (IsCarriedIn identity ds) }
    ensures whole { IfOk result (IsWholeBut (R.remaining reader.old)) }
    ensures unread { IfErr result (IsFileFault (R.remaining reader.old) (R.sound reader.old)) }
{
    let mut first = None;
    let mut place = 0usize;
    loop {
        let Some(datagram) = read_next(alloc, reader)? else {
            return match first {
                Some(fault) => Ok(Err(fault)),
                None => Ok(Ok(None)),
            };
        };
        let bytes = datagram.as_slice();
        are_bytes(bytes);
        let (carried, fault) = look_alone(identity, place, bytes);
        if let Some(fti) = carried {
            return Ok(Ok(Some(fti)));
        }
        first = first.or(fault);
        let Some(next) = place.checked_add(1) else {
            return Err(FileFault::NoMemory);
        };
        place = next;
    }
}

/// The FTI of the first carrier of the identity in a file, if there is one. A fault is told where
/// there is none: the first datagram that is no packet.
pub(crate) fn find_fti<F: ReadAt>(
    alloc: Global,
    file: &F,
    identity: Identity,
) -> Result<Result<Option<Fti>, DecodeFault>, FileFault>
    ensures carrier { (x : List ℕ) (ds : List (List ℕ)) → F.content file.now ≡ Some x
        → IsFramed ds x → IfOk result (IsCarriedIn identity ds) }
    ensures whole { IfOk result (IsWholeBut (F.content file.now)) }
    ensures unread { IfErr result (IsFileFault (F.content file.now) (F.reliable file.now)) }
{
    let mut cursor = Cursor::new(file);
    first_fti(alloc, &mut cursor, identity)
}

// Keeps the packet's place, and answers whether it did: not where an earlier packet of its block
// and ESI has other bytes.
fn keep<F: ReadAt>(
    alloc: Global,
    file: &F,
    scope: &Scope,
    symbols: &mut Symbols<Place>,
    packet: &Packet<'_>,
    place: Place,
) -> Result<bool, Unread>
    requires { (f : FtiValue) × (scope.now.fti ≡ Some f) }
    ensures here { (x : List ℕ) → F.content file.now ≡ Some x
        → AreSymbolsIn x scope.now symbols.old
        → packet.now.symbol.now ≡ held_in x place → IfOk result (λ kept. kept ≡ true
        → came_at (held_in x) symbols.new packet.now.sbn packet.now.esi
        ≡ Some packet.now.symbol.now) }
    ensures elsewhere { OnOk result ((held : PlaceValue → List ℕ) (b j : ℕ)
        → (packet.now.sbn == b && packet.now.esi == j) ≡ false
        → came_at held symbols.new b j ≡ came_at held symbols.old b j) }
    ensures clash { (x : List ℕ) → F.content file.now ≡ Some x
        → AreSymbolsIn x scope.now symbols.old
        → IfOk result (λ kept. (earlier : List Symbol)
        → IsIndex earlier (came_at (held_in x) symbols.old)
        → clashes earlier (symbol_of (packet_of packet.now)) ≡ not kept) }
    ensures placed { (x : List ℕ) → AreSymbolsIn x scope.now symbols.old
        → IsSymbolIn x scope.now packet.now.sbn packet.now.esi place
        → OnOk result (AreSymbolsIn x scope.now symbols.new) }
    ensures range { (f : FtiValue) → packet.now.sbn < block_count f
        → packet.now.esi < encoding_count f packet.now.sbn → (held : PlaceValue → List ℕ)
        → AreInRange f (came_at held symbols.old)
        → OnOk result (AreInRange f (came_at held symbols.new)) }
    ensures again { (x : List ℕ) → F.content file.now ≡ Some x
        → AreSymbolsIn x scope.now symbols.old
        → IfErr result (λ e. e ≡ Unread.Changed → ⊥) }
    ensures io { IfErr result (λ e. e ≡ Unread.Io → F.reliable file.now ≡ false) }
{
    match symbols.put(alloc, packet.sbn, packet.esi, place)? {
        Some(earlier) => is_symbol(alloc, file, scope, packet, earlier),
        None => Ok(true),
    }
}

// The places of the identity's packets, where this is the FTI of the first carrier. The reader
// gives the file's bytes.
fn index_frames<R: Read, F: ReadAt>(
    alloc: Global,
    reader: &mut R,
    file: &F,
    identity: Identity,
    fti: Fti,
) -> Result<Result<Symbols<Place>, DecodeFault>, FileFault>
    requires bytes { R.remaining reader.old ≡ F.content file.now }
    requires sound { R.sound reader.old ≡ F.reliable file.now }
    ensures received { (x : List ℕ) (ds : List (List ℕ)) → F.content file.now ≡ Some x
        → IsFramed ds x → scope_in identity ds ≡ with_fti identity fti → IfOk result (λ r.
        IfOk r (λ s. AreReceived identity ds fti (came_at (held_in x) s))) }
    ensures placed { (x : List ℕ) → F.content file.now ≡ Some x → IfOk result (λ r.
        IfOk r (AreSymbolsIn x (with_fti identity fti))) }
    ensures range { IfOk result (λ r. IfOk r (λ s. (held : PlaceValue → List ℕ)
        → AreInRange fti (came_at held s))) }
    ensures fault { (x : List ℕ) (ds : List (List ℕ)) → F.content file.now ≡ Some x
        → IsFramed ds x → scope_in identity ds ≡ with_fti identity fti → IfOk result (λ r.
        IfErr r (IsRefusal identity ds)) }
    ensures whole { OnOk result (AreFrames (F.content file.now)) }
    ensures unread { IfErr result (IsFileFault (F.content file.now) (F.reliable file.now)) }
{
    let mut symbols = Symbols::new(alloc, usize::from(fti.max_symbols()));
    let mut position = Position::new();
    let mut room = Vec::new(alloc);
    loop {
        let Some(datagram) = read_next_into(reader, room)? else {
            return Ok(Ok(symbols));
        };
        let bytes = datagram.as_slice();
        are_bytes(bytes);
        let place = position.place;
        let (here, next) = position.pass(bytes.len())?;
        position = next;
        let mut scope = Scope::with_fti(identity, fti);
        let look = scope.look(bytes);
        if let Some(fault) = fault_at(place, &look) {
            read_rest(alloc, reader)?;
            return Ok(Err(fault));
        }
        let packet = match look {
            Ok(Look::InRange(packet)) => packet,
            Ok(Look::Other) => {
                room = datagram;
                continue;
            }
            Ok(Look::Early) => unreachable!(),
            Ok(Look::OtherFti | Look::SymbolLength | Look::Range) | Err(_) => unreachable!(),
        };
        let stands = Place {
            offset: here.offset,
            length: here.length,
            carrier: packet.fti.is_some(),
        };
        if !keep(alloc, file, &scope, &mut symbols, &packet, stands)? {
            read_rest(alloc, reader)?;
            return Ok(Err(DecodeFault::Clash(place)));
        }
        room = datagram;
    }
}

/// The places of the identity's packets in a file, where this is the FTI of the first carrier.
pub(crate) fn index<F: ReadAt>(
    alloc: Global,
    file: &F,
    identity: Identity,
    fti: Fti,
) -> Result<Result<Symbols<Place>, DecodeFault>, FileFault>
    ensures received { (x : List ℕ) (ds : List (List ℕ)) → F.content file.now ≡ Some x
        → IsFramed ds x → scope_in identity ds ≡ with_fti identity fti → IfOk result (λ r.
        IfOk r (λ s. AreReceived identity ds fti (came_at (held_in x) s))) }
    ensures placed { (x : List ℕ) → F.content file.now ≡ Some x → IfOk result (λ r.
        IfOk r (AreSymbolsIn x (with_fti identity fti))) }
    ensures range { IfOk result (λ r. IfOk r (λ s. (held : PlaceValue → List ℕ)
        → AreInRange fti (came_at held s))) }
    ensures fault { (x : List ℕ) (ds : List (List ℕ)) → F.content file.now ≡ Some x
        → IsFramed ds x → scope_in identity ds ≡ with_fti identity fti → IfOk result (λ r.
        IfErr r (IsRefusal identity ds)) }
    ensures whole { OnOk result (AreFrames (F.content file.now)) }
    ensures unread { IfErr result (IsFileFault (F.content file.now) (F.reliable file.now)) }
{
    let mut cursor = Cursor::new(file);
    index_frames(alloc, &mut cursor, file, identity, fti)
}
