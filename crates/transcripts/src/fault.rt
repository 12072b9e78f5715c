//! What is wrong with a transcript, or with what its commands answer.
use std::alloc::AllocError;

/// Why a line isn't as it should be.
#[derive(Clone, Copy)]
pub(crate) enum Fault {
    UnknownBeginning,
    Misplaced,
    WrongHex,
    NoName,
    GivenTwice,
    NotGiven,
    Otherwise,
    More,
    NoText,
    NoMemory,
}

impl Fault {
    /// The fault in words.
    pub(crate) fn text(self) -> &'static str {
        match self {
            Fault::UnknownBeginning => "this begins like no line of a transcript",
            Fault::Misplaced => "this belongs to no file and no command",
            Fault::WrongHex => "this is no row of bytes in hex",
            Fault::NoName => "this names no file",
            Fault::GivenTwice => "a file of this name is given before",
            Fault::NotGiven => "this names a file that isn't given before",
            Fault::Otherwise => "this is wanted, and something else came",
            Fault::More => "of this command more came than is told",
            Fault::NoText => "what this command prints is no UTF-8",
            Fault::NoMemory => "there is no memory for this",
        }
    }

    /// The fault at the line that names the file or the command.
    pub(crate) fn here(self) -> Wrong {
        Wrong {
            place: 0,
            fault: self,
        }
    }
}

impl From<AllocError> for Fault {
    fn from(_: AllocError) -> Self {
        Fault::NoMemory
    }
}

/// A line that isn't as it should be: how many lines it stands behind the one that names its file
/// or command, and why.
#[derive(Clone, Copy)]
pub(crate) struct Wrong {
    pub(crate) place: usize,
    pub(crate) fault: Fault,
}
