//! A block that has as many symbols as it needs.
ghost use Rattle.std.specs.Prelude.{◌≡◌, ◌≢◌, ◌≤◌, ℕ, List, Option, Some, length};
ghost use Rattle.partition.specs.Fti.{source_count};
ghost use Rattle.block_recovery.specs.Blocks.{HaveLength};
ghost use Rattle.receiver.specs.Esis.{esis_of};
ghost use Rattle.receiver.specs.Putting.{MayPut, BlockOutcome, IsPutFault, bytes_change};
ghost use Rattle.receiver.specs.Stored.{IsOf, IsSolved};

use crate::esis::Esis;
use crate::pending_block::place_of;
use crate::receiver::FeedFault;
use crate::solver::Solver;
use alc::Packet;
use block_bytes::BlockBytes;
use block_recovery::{DecodeFault, gives};
use partition::Fti;
use std::alloc::Global;

impl Esis {
    /// Puts the symbol of the packet at a place to a block that is solved: it is compared with the
    /// one that the source symbols give. That it came is noted where it is that one.
    pub(crate) fn put_to_solved<B: BlockBytes>(
        &mut self,
        alloc: Global,
        fti: &Fti,
        place: usize,
        packet: &Packet<'_>,
        solver: &mut Solver,
        bytes: &mut B,
    ) -> Result<(), FeedFault>
        requires given { MayPut fti.now packet.now solver.old }
        requires of { IsOf fti.now packet.now.sbn (esis_of self.old packet.now.sbn) }
        requires enough { source_count fti.now packet.now.sbn
            ≤ length (esis_of self.old packet.now.sbn) }
        ensures keeps { MayPut fti.now packet.now solver.new }
        ensures of { IsOf fti.now packet.now.sbn (esis_of self.new packet.now.sbn) }
        ensures enough { source_count fti.now packet.now.sbn
            ≤ length (esis_of self.new packet.now.sbn) }
        ensures others { (a : ℕ) → packet.now.sbn ≢ a
            → esis_of self.new a ≡ esis_of self.old a }
        ensures outcome { (x : ℕ → List ℕ) (at : ℕ → Option (List ℕ))
            → B.kept bytes.old fti.now ≡ Some x
            → IsSolved fti.now packet.now.sbn (x packet.now.sbn)
            (esis_of self.old packet.now.sbn) at
            → HaveLength fti.now.symbol_length at
            → BlockOutcome packet.now at (bytes_change B.BlockBytes fti.now x bytes.new) result
            (λ y. IsSolved fti.now packet.now.sbn y (esis_of self.new packet.now.sbn))
            (λ y. IsSolved fti.now packet.now.sbn y (esis_of self.new packet.now.sbn) at)
            (IsPutFault fti.now place packet.now at) }
    {
        fti.is_valid();
        let size = usize::from(fti.symbol_length());
        let b = packet.sbn;
        let mut rows = solver.room(alloc, fti.k(b), size)?;
        bytes.read(fti, b, 0, &mut rows.bytes)?;
        let codes = &solver.codes;
        let given = gives(alloc, fti, codes, b, &rows, packet.esi, packet.symbol)?;
        solver.rows = Some(rows);
        let came = place_of(self.get(b), packet.esi).is_some();
        if !given {
            let fault = if came {
                DecodeFault::Clash(place)
            } else {
                DecodeFault::NotCode(b)
            };
            return Err(FeedFault::Fault(fault));
        }
        if came {
            return Ok(());
        }
        self.reserve(alloc, b)?;
        self.push(b, packet.esi);
        Ok(())
    }
}
