//! Faults of a command.
ghost use Rattle.std.specs.Prelude.{◌≡◌};

use certificate::CertFault;
use encoder::SendFault;
use partition::FtiError;
use session::{Failed, FrameFault};
use std::alloc::AllocError;

/// What a command tells as a fault.
#[derive(Clone, Copy)]
pub enum Fault<'a> {
    /// A file can't be opened or created.
    Open(&'a str),
    /// An object can't be read or written.
    File(&'a str),
    Memory,
    Frame(FrameFault),
    Certificate(CertFault),
    /// The object's length and the command's own numbers are no FTI.
    Fti(FtiError),
    Send(SendFault),
    /// The first word of a file of places that tells none, by how many stand before it.
    NoPlace(usize),
}

impl From<AllocError> for Fault<'_> {
    ghost use Rattle.commands.specs.declared.fault.Fault.TheVariants.{Memory};

    ghost from_gives = { λ _ fault. fault ≡ Memory };

    fn from(_: AllocError) -> Self {
        Fault::Memory
    }
}

impl From<FtiError> for Fault<'_> {
    ghost use Rattle.commands.specs.declared.fault.Fault.TheVariants.{Fti};

    ghost from_gives = { λ error fault. fault ≡ Fti error };

    fn from(error: FtiError) -> Self {
        Fault::Fti(error)
    }
}

impl From<FrameFault> for Fault<'_> {
    ghost use Rattle.commands.specs.declared.fault.Fault.TheVariants.{Frame};

    ghost from_gives = { λ e fault. fault ≡ Frame e };

    fn from(fault: FrameFault) -> Self {
        Fault::Frame(fault)
    }
}

impl From<CertFault> for Fault<'_> {
    ghost use Rattle.commands.specs.declared.fault.Fault.TheVariants.{Certificate};

    ghost from_gives = { λ e fault. fault ≡ Certificate e };

    fn from(fault: CertFault) -> Self {
        Fault::Certificate(fault)
    }
}

/// Why a command stopped.
#[derive(Clone, Copy)]
pub enum Stop<'a> {
    /// For this fault, which is to be told.
    ByFault(Fault<'a>),
    /// Its lines can't be printed, so nothing more is.
    Unprinted,
}

impl<'a> From<Fault<'a>> for Stop<'a> {
    ghost use Rattle.commands.specs.declared.fault.Stop.TheVariants.{ByFault};

    ghost from_gives = { λ fault stop. stop ≡ ByFault fault };

    fn from(fault: Fault<'a>) -> Self {
        Stop::ByFault(fault)
    }
}

impl From<AllocError> for Stop<'_> {
    ghost use Rattle.commands.specs.declared.fault.Fault.TheVariants.{Memory};
    ghost use Rattle.commands.specs.declared.fault.Stop.TheVariants.{ByFault};

    ghost from_gives = { λ _ stop. stop ≡ ByFault Memory };

    fn from(_: AllocError) -> Self {
        Stop::ByFault(Fault::Memory)
    }
}

impl From<Failed> for Stop<'_> {
    ghost use Rattle.commands.specs.declared.fault.Stop.TheVariants.{Unprinted};

    ghost from_gives = { λ _ stop. stop ≡ Unprinted };

    fn from(_: Failed) -> Self {
        Stop::Unprinted
    }
}
