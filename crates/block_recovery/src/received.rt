//! The encoding symbols that came, by block and ESI.
ghost use Rattle.std.specs.Prelude.{◌≡◌, ◌==◌, ◌&&◌, ℕ, List, Some, true, false, not, map};
ghost use Rattle.std.specs.Prelude.{Err, IsNone, IfSome, IsOk, IfOk, IfErr, OnOk};
ghost use Rattle.alc.specs.Views.{packet_of};
ghost use Rattle.reception.specs.Symbols.{Symbol};
ghost use Rattle.reception.specs.Reception.{Faulty, PlaceFault, ReadAll, symbol_of};
ghost use Rattle.reception.specs.Readings.{readings_of};
ghost use Rattle.reception.specs.Step.{looked};
ghost use Rattle.reception.specs.Answer.{Fault, clashes};
ghost use Rattle.block_recovery.specs.Faults.{fault_value};
ghost use Rattle.block_recovery.specs.Refusals.{IsRefusal};
ghost use Rattle.block_recovery.specs.Received.{bytes_at, IsIndex, AreReceived, IsNothing};

use crate::fault::DecodeFault;
use crate::symbols::Symbols;
use alc::{Packet, PacketFault};
use partition::Fti;
use reception::{Identity, Look, Scope};
use std::alloc::{AllocError, Global};

/// What came of an object.
#[derive(Drop)]
pub struct Received<'a> {
    pub fti: Fti,
    pub symbols: Symbols<&'a [u8]>,
}

/// The fault of the datagram at a place, by what was seen of it, if it is one.
pub fn fault_at(place: usize, look: &Result<Look<'_>, PacketFault>) -> Option<DecodeFault>
    ensures fault { IfSome result (λ fault. (e : PlaceFault) × (looked look.now ≡ Err e)
        × (fault_value fault ≡ Fault place (Faulty e))) }
    ensures none { IsNone result → IsOk (looked look.now) }
{
    match look {
        Ok(Look::Other | Look::Early | Look::InRange(_)) => None,
        Ok(Look::OtherFti) => Some(DecodeFault::OtherFti(place)),
        Ok(Look::SymbolLength) => Some(DecodeFault::SymbolLength(place)),
        Ok(Look::Range) => Some(DecodeFault::Range(place)),
        Err(fault) => Some(DecodeFault::Packet(place, *fault)),
    }
}

// Keeps the packet's symbol, and answers whether it did: not where an earlier one of its block and
// ESI has other bytes.
fn keep<'a>(
    alloc: Global,
    symbols: &mut Symbols<&'a [u8]>,
    packet: &Packet<'a>,
) -> Result<bool, AllocError>
    ensures here { IfOk result (λ kept. kept ≡ true
        → bytes_at symbols.new packet.now.sbn packet.now.esi ≡ Some packet.now.symbol.now) }
    ensures elsewhere { OnOk result
        ((b j : ℕ) → (packet.now.sbn == b && packet.now.esi == j) ≡ false
        → bytes_at symbols.new b j ≡ bytes_at symbols.old b j) }
    ensures clash { IfOk result (λ kept. (earlier : List Symbol)
        → IsIndex earlier (bytes_at symbols.old)
        → clashes earlier (symbol_of (packet_of packet.now)) ≡ not kept) }
{
    match symbols.put(alloc, packet.sbn, packet.esi, packet.symbol)? {
        Some(earlier) => Ok(*earlier == *packet.symbol),
        None => Ok(true),
    }
}

// How many encoding symbols each block has at most, where the FTI is known.
fn most_symbols(scope: &Scope) -> u8
    ensures { IfSome scope.now.fti (λ f. result ≡ f.max_symbols) }
{
    match &scope.fti {
        Some(fti) => fti.max_symbols(),
        None => 0,
    }
}

/// The symbols of the identity's packets, if a carrier came; or the first fault at the least place
/// that has one. The FTI of the first carrier is found before any fault is looked for: it may stand
/// behind a packet that has a fault by it.
pub fn receive<'a>(
    alloc: Global,
    datagrams: &[&'a [u8]],
    identity: Identity,
) -> Result<Result<Option<Received<'a>>, DecodeFault>, AllocError>
    requires { ReadAll (map (λ d. d.now) datagrams.now)
        (readings_of (map (λ d. d.now) datagrams.now)) }
    ensures received { IfOk result (λ r. IfOk r (λ o. IfSome o (λ received.
        AreReceived identity (map (λ d. d.now) datagrams.now) received.fti
        (bytes_at received.symbols)))) }
    ensures nothing { IfOk result (λ r. IfOk r (λ o. IsNone o
        → IsNothing identity (map (λ d. d.now) datagrams.now))) }
    ensures refusal { IfOk result (λ r. IfErr r
        (IsRefusal identity (map (λ d. d.now) datagrams.now))) }
{
    let mut scope = Scope::found_in(identity, datagrams);
    let mut symbols = Symbols::new(alloc, usize::from(most_symbols(&scope)));
    for place in 0..datagrams.len() {
        let look = scope.look(datagrams[place]);
        if let Some(fault) = fault_at(place, &look) {
            return Ok(Err(fault));
        }
        let packet = match look {
            Ok(Look::InRange(packet)) => packet,
            Ok(Look::Other) => continue,
            // There is no carrier at all.
            Ok(Look::Early) => continue,
            Ok(Look::OtherFti | Look::SymbolLength | Look::Range) | Err(_) => unreachable!(),
        };
        if !keep(alloc, &mut symbols, &packet)? {
            return Ok(Err(DecodeFault::Clash(place)));
        }
    }
    match scope.fti {
        Some(fti) => Ok(Ok(Some(Received { fti, symbols }))),
        None => Ok(Ok(None)),
    }
}
