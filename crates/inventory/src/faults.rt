//! Why datagrams are no packets, counted.
ghost use Rattle.std.specs.Prelude.{◌≡◌, ◌<◌, ◌++◌, true, false, List, [], length, count_by};
ghost use Rattle.std.specs.Prelude.{IfOk, OnOk};
ghost use Rattle.alc.specs.Reading.{Reading};
ghost use Rattle.inventory.specs.Faults.{fault_number, is_same_fault, count_of, fault_counts};
ghost use Rattle.inventory.specs.Packets.{faults_in};
ghost use Rattle.inventory.specs.Tells.{Tells};

use crate::collecting::Summary;
use crate::part::FaultCount;
use alc::PacketFault;
use partition::FtiError;
use std::alloc::{AllocError, Global};

// All faults of packets, in their order.
const FAULTS: [PacketFault; 16] = [
    PacketFault::TooShort,
    PacketFault::Version,
    PacketFault::Psi,
    PacketFault::Codepoint,
    PacketFault::NoIdentity,
    PacketFault::HeaderLength,
    PacketFault::Extension,
    PacketFault::FtiLength,
    PacketFault::TwoFti,
    PacketFault::FtiValue(FtiError::LengthZero),
    PacketFault::FtiValue(FtiError::LengthTooGreat),
    PacketFault::FtiValue(FtiError::SymbolZero),
    PacketFault::FtiValue(FtiError::BlockZero),
    PacketFault::FtiValue(FtiError::MaxBelowBlock),
    PacketFault::FtiValue(FtiError::TooManyBlocks),
    PacketFault::PayloadLength,
];

// Where a fault stands among them.
fn number_of(fault: PacketFault) -> u8
    ensures { result ≡ fault_number fault }
{
    match fault {
        PacketFault::TooShort => 0,
        PacketFault::Version => 1,
        PacketFault::Psi => 2,
        PacketFault::Codepoint => 3,
        PacketFault::NoIdentity => 4,
        PacketFault::HeaderLength => 5,
        PacketFault::Extension => 6,
        PacketFault::FtiLength => 7,
        PacketFault::TwoFti => 8,
        PacketFault::FtiValue(FtiError::LengthZero) => 9,
        PacketFault::FtiValue(FtiError::LengthTooGreat) => 10,
        PacketFault::FtiValue(FtiError::SymbolZero) => 11,
        PacketFault::FtiValue(FtiError::BlockZero) => 12,
        PacketFault::FtiValue(FtiError::MaxBelowBlock) => 13,
        PacketFault::FtiValue(FtiError::TooManyBlocks) => 14,
        PacketFault::PayloadLength => 15,
    }
}

// How many of the faults are this one.
fn count(faults: &[PacketFault], fault: PacketFault) -> usize
    ensures { result ≡ count_by (is_same_fault fault) faults.now }
{
    let number = number_of(fault);
    let mut count = 0;
    for other in faults {
        if number == number_of(*other) {
            count += 1;
        }
    }
    count
}

// Puts last how many have this fault, where it occurs.
fn put_count(
    counts: &mut Vec<FaultCount>,
    faults: &[PacketFault],
    fault: PacketFault,
) -> Result<(), AllocError>
    ensures { OnOk result (counts.new.items ≡ counts.old.items ++ count_of faults.now fault) }
{
    let datagrams = count(faults, fault);
    if datagrams > 0 {
        counts.push(FaultCount { fault, datagrams })?;
    }
    Ok(())
}

impl Summary {
    /// Whether a datagram is no packet.
    pub fn has_faults(&self) -> bool
        ensures none { result ≡ false → (readings : List Reading) → Tells readings self.now
            → faults_in readings ≡ [] }
        ensures some { result ≡ true → (readings : List Reading) → Tells readings self.now
            → 0 < length (faults_in readings) }
    {
        !self.faults.is_empty()
    }

    /// Each fault that occurs, in their order, and how many datagrams have it.
    pub fn fault_counts(&self, alloc: Global) -> Result<Vec<FaultCount>, AllocError>
        ensures { (readings : List Reading) → Tells readings self.now
            → IfOk result (λ counts. counts.items ≡ fault_counts (faults_in readings)) }
    {
        let mut counts = Vec::new(alloc);
        for fault in &FAULTS {
            put_count(&mut counts, &self.faults, *fault)?;
        }
        Ok(counts)
    }
}
