//! Why a command line is no request.
ghost use Rattle.std.specs.Prelude.{◌≡◌};

use clap::Error;
use std::alloc::AllocError;
use std::fmt;

/// Why `drop` has no places to leave out.
#[derive(Clone, Copy, Debug, PartialEq, Eq)]
pub enum PlacesRefusal<'a> {
    /// No place is given, nor a file of places.
    Missing,
    /// This word is no place and no range of places.
    Word(&'a str),
}

impl fmt::Display for PlacesRefusal<'_> {
    fn fmt<W: fmt::Write>(&self, f: &mut fmt::Formatter<W>) -> fmt::Result {
        match self {
            PlacesRefusal::Missing => write!(
                f,
                "error: no place is given: PLACE or --places FILE tells what to leave out"
            )?,
            PlacesRefusal::Word(word) => write!(
                f,
                "error: invalid value '{word}' for '[PLACE]...': it takes a place N, or a range \
                N-M with N at most M, of 0 to 4294967295"
            )?,
        }
        write!(f, "\n\nFor more information, try '--help'.\n")
    }
}

/// Why a command line is no request.
#[derive(Drop)]
pub enum Usage<'a> {
    /// Help or the version was asked for; the text is the error's.
    Help(Error),
    /// U1: the line is refused; why is the error's text.
    Line(Error),
    /// U1: the line is refused: it tells no places, or a word in a place's stead tells none.
    Places(PlacesRefusal<'a>),
    /// There is no memory.
    NoMemory,
}

impl From<AllocError> for Usage<'_> {
    ghost use Rattle.request.specs.declared.usage.Usage.TheVariants.{NoMemory};

    ghost from_gives = { λ _ usage. usage ≡ NoMemory };

    fn from(_: AllocError) -> Self {
        Usage::NoMemory
    }
}
