//! What can go wrong in the examples.

use cert::CheckFault;
use certificate::CertFault;
use coder::{CertifyFault, FileFault, SendFault, SendFromFault};
use partition::FtiError;
use session::FrameFault;
use std::alloc::AllocError;
use std::io;
use streams::{Failed, ReadFault};
use thiserror::Error;

/// A fault of one of the calls.
#[derive(Debug, Drop, Error)]
pub(crate) enum ExampleFault {
    #[error(transparent)]
    Fti(#[from] FtiError),
    #[error(transparent)]
    Send(#[from] SendFault),
    #[error(transparent)]
    Certify(#[from] CertifyFault),
    #[error(transparent)]
    Frame(#[from] FrameFault),
    #[error(transparent)]
    SendFrom(#[from] SendFromFault),
    #[error(transparent)]
    Certificate(#[from] CertFault),
    #[error(transparent)]
    Check(#[from] CheckFault),
    #[error(transparent)]
    File(#[from] FileFault),
    #[error("a reader or a writer has failed")]
    Stream,
    #[error("no memory")]
    Memory(#[from] AllocError),
    #[error("nothing could be printed")]
    Print(#[from] io::Error),
}

impl From<Failed> for ExampleFault {
    fn from(_: Failed) -> Self {
        ExampleFault::Stream
    }
}

impl From<ReadFault> for ExampleFault {
    fn from(fault: ReadFault) -> Self {
        match fault {
            ReadFault::Io => ExampleFault::Stream,
            ReadFault::NoMemory => ExampleFault::Memory(AllocError),
        }
    }
}
