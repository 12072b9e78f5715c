//! What is asked of one datagram, and where its symbol and its place go.
ghost use Rattle.reception.specs.Walks.{in_range};
ghost use Rattle.std.specs.Prelude.{◌≡◌, ◌<◌, true, [], length, IfOk, OnOk};
ghost use Rattle.alc.specs.Views.{packet_of};
ghost use Rattle.reception.specs.Reception.{symbol_of};
ghost use Rattle.cert.specs.Verdict.{GivesObject, uncertified};
ghost use Rattle.cert.specs.Scan.{AreGroupsOf, IsPut, with_carrier};
ghost use Rattle.losses.specs.Groups.{groups_of};

use crate::source::source_symbol;
use alc::Packet;
use certified_symbols::{CertifiedSymbols, first_difference};
use losses::{Groups, Member};
use partition::Fti;
use std::alloc::{AllocError, Global};

/// The least column in which a packet's symbol isn't the certified one, which is the object's where
/// it is a source symbol.
pub(crate) fn first_wrong_column_of(
    symbols: &mut CertifiedSymbols<'_>,
    object: &[u8],
    packet: &Packet<'_>,
) -> Option<usize>
    requires gives { GivesObject object.now symbols.old }
    requires range { in_range (packet_of packet.now) symbols.old.fti ≡ true }
    requires symbol { length packet.now.symbol.now ≡ symbols.old.fti.symbol_length }
    ensures certificate { symbols.new ≡ symbols.old }
    ensures column { result ≡ uncertified symbols.old [] (symbol_of (packet_of packet.now)) }
{
    let fti = symbols.fti();
    let esi = usize::from(packet.esi);
    if esi < fti.k(packet.sbn) {
        return first_difference(packet.symbol, source_symbol(object, &fti, packet.sbn, esi));
    }
    symbols.first_wrong_column(packet.sbn, packet.esi, packet.symbol)
}

/// A group for each block, with no symbols yet.
pub(crate) fn empty_groups(alloc: Global, fti: &Fti) -> Result<Groups, AllocError>
    ensures { IfOk result (λ groups. AreGroupsOf fti.now [] (groups_of groups)) }
{
    let mut needs = Vec::with_capacity(alloc, fti.block_count() as usize)?;
    for block in 0..fti.block_count() {
        needs.push(fti.k(block) as u8)?;
    }
    Groups::new(alloc, needs, usize::from(fti.max_symbols()))
}

/// Puts the symbol of the packet at a place into its block's group.
pub(crate) fn put(groups: &mut Groups, place: usize, packet: &Packet<'_>) -> Result<(), AllocError>
    requires { packet.now.sbn < length (groups_of groups.old) }
    ensures { OnOk result
        (IsPut (groups_of groups.old) place (symbol_of (packet_of packet.now))
        (groups_of groups.new)) }
{
    let esi = packet.esi;
    groups.push(packet.sbn, Member { place, esi })
}

/// Puts the place of a packet behind those of the carriers, where it carries an FTI.
pub(crate) fn put_carrier(
    carriers: &mut Vec<usize>,
    place: usize,
    packet: &Packet<'_>,
) -> Result<(), AllocError>
    ensures { OnOk result
        (carriers.new.items ≡ with_carrier carriers.old.items place packet.now.fti) }
{
    if packet.fti.is_some() {
        carriers.push(place)?;
    }
    Ok(())
}
