//! Why a check wasn't done.
ghost use Rattle.std.specs.Prelude.{◌≡◌};

use certificate::CertFault;
use session::FrameFault;
use std::alloc::AllocError;
use thiserror::Error;

/// Why a check wasn't done, or a datagram wasn't fed. `Session`, `Object` and `Certificate` come
/// only of files that are read at offsets (`file_check`).
#[derive(Debug, Clone, Copy, PartialEq, Eq, Error)]
pub enum CheckFault {
    /// The next datagram wasn't read: `CutLength`, `CutDatagram`, `TooLong`, `Io` or `NoMemory`.
    #[error(transparent)]
    Frame(FrameFault),
    /// The session's file has failed, or isn't as it was when it was read first.
    #[error("Session")]
    Session,
    /// The object's file has failed, or has changed.
    #[error("Object")]
    Object,
    /// The certificate's file holds none, or has failed or changed, which is `Io`.
    #[error(transparent)]
    Certificate(CertFault),
    /// There is no memory for the check.
    #[error("NoMemory")]
    NoMemory,
}

impl From<AllocError> for CheckFault {
    ghost use Rattle.cert.specs.declared.fault.CheckFault.TheVariants.{NoMemory};

    ghost from_gives = { λ _ fault. fault ≡ NoMemory };

    fn from(_: AllocError) -> Self {
        CheckFault::NoMemory
    }
}

impl From<FrameFault> for CheckFault {
    ghost use Rattle.cert.specs.declared.fault.CheckFault.TheVariants.{Frame};

    ghost from_gives = { λ e fault. fault ≡ Frame e };

    fn from(e: FrameFault) -> Self {
        CheckFault::Frame(e)
    }
}
