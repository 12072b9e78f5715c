//! A session's datagrams, counted one after the other.
ghost use Rattle.std.specs.Prelude.{◌≡◌, ◌<◌, ◌≤◌, ◌+◌, ◌^◌, ◌++◌, ◌∷◌, [], ℕ, List};
ghost use Rattle.std.specs.Prelude.{None, Ok, OnOk};
ghost use Rattle.std.specs.BTreeMap.{get};
ghost use Rattle.std.specs.Option.{ForSome};
ghost use Rattle.alc.specs.Reading.{Reading, Reads};
ghost use Rattle.alc.specs.Views.{packet_of};
ghost use Rattle.alc.specs.Packet.{Packet as PacketValue};
ghost use Rattle.inventory.specs.Tally.{pair_cmp, IsTally};
ghost use Rattle.inventory.specs.Tallies.{IsTallyAt, AreFew, Changes};

use crate::tally::Tally;
use alc::{Packet, PacketFault, read};
use std::alloc::{AllocError, Global};
use std::collections::BTreeMap;

/// What the datagrams that were read tell of each identity, and why some are no packets.
#[derive(Drop)]
pub struct Summary {
    // How many datagrams were read.
    pub(crate) read: usize,
    // By TSI and TOI the packets of an identity.
    pub(crate) tallies: BTreeMap<(u64, u128), Tally>,
    // Why the others are no packets.
    pub(crate) faults: Vec<PacketFault>,
    // So one more can be counted where `read` can.
    ghost few: { (key : ℕ × ℕ) → ForSome (get pair_cmp tallies key)
        (λ tally. tally.datagrams ≤ read) },
}

// The counts of an identity, no longer in the map; or those of no packet.
fn take(alloc: Global, tallies: &mut BTreeMap<(u64, u128), Tally>, key: (u64, u128)) -> Tally
    ensures rest { Changes tallies.old tallies.new key None }
    ensures tally { (xs : List (ℕ × PacketValue)) → IsTallyAt xs (get pair_cmp tallies.old key)
        → IsTally xs result }
    ensures few { (read : ℕ) → AreFew tallies.old read → result.datagrams ≤ read }
{
    match tallies.remove(&key) {
        Some(tally) => tally,
        None => Tally::new(alloc),
    }
}

impl Summary {
    ghost use Rattle.inventory.specs.Tells.{Tells};

    /// Nothing was read.
    pub fn new(alloc: Global) -> Summary
        ensures { Tells [] result }
    {
        Summary {
            read: 0,
            tallies: BTreeMap::new(alloc),
            faults: Vec::new(alloc),
        }
    }

    /// One more datagram was read. After a fault, want of memory, nothing is said.
    pub fn add(&mut self, alloc: Global, datagram: &[u8]) -> Result<(), AllocError>
        ensures { (readings : List Reading) → Tells readings self.old
            → OnOk result ((reading : Reading) × Reads datagram.now reading
            × Tells (readings ++ reading ∷ []) self.new) }
    {
        if self.read == usize::MAX {
            return Err(AllocError);
        }
        match read(datagram) {
            Ok(packet) => self.note(alloc, &packet),
            Err(fault) => {
                self.read += 1;
                self.faults.push(fault)?;
                Ok(())
            }
        }
    }

    // One more datagram was read, which is this packet.
    fn note(&mut self, alloc: Global, packet: &Packet<'_>) -> Result<(), AllocError>
        requires { self.old.read + 1 < 2 ^ 64 }
        ensures { (readings : List Reading) → Tells readings self.old
            → OnOk result (Tells (readings ++ Ok (packet_of packet.now) ∷ []) self.new) }
    {
        let key = (packet.tsi, packet.toi);
        let mut tally = take(alloc, &mut self.tallies, key);
        tally.note(self.read, packet)?;
        self.read += 1;
        self.tallies.insert(key, tally)?;
        Ok(())
    }
}
