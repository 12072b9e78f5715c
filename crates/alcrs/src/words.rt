//! The program's words.
ghost use Rattle.std.specs.Prelude.{◌≡◌};

use std::alloc::{AllocError, Global};
use std::env::{Env, FillError};

// More bytes than a word has: Linux passes 131,071 at most.
const MOST_BYTES: usize = 131072;

// Room for as many bytes is taken and given back once. The C library then keeps what is given back
// later, up to twice as much, so that what one block takes needn't be had from the system again for
// the next (mallopt(3), M_MMAP_THRESHOLD).
const KEPT_BYTES: usize = 1 << 22;

/// Why there are no words.
#[derive(Debug, Clone, Copy, PartialEq, Eq)]
pub(crate) enum WordFault {
    /// The word at this place, counted from 0, the program's name, isn't UTF-8.
    NoText(usize),
    NoMemory,
}

impl From<AllocError> for WordFault {
    ghost use Rattle.alcrs.specs.declared.words.WordFault.TheVariants.{NoMemory};

    ghost from_gives = { λ _ fault. fault ≡ NoMemory };

    fn from(_: AllocError) -> Self {
        WordFault::NoMemory
    }
}

/// The program's words, its name first.
pub(crate) fn read_words<R: Env>(rt: &R, alloc: Global) -> Result<Vec<String>, WordFault> {
    let mut words = Vec::new(alloc);
    let mut buffer = Vec::with_capacity(alloc, KEPT_BYTES)?;
    buffer.resize(MOST_BYTES, 0u8)?;
    for place in 0..usize::MAX {
        let length = match rt.arg(place, buffer.as_mut_slice()) {
            Ok(length) => length,
            Err(FillError::NotPresent) => break,
            Err(FillError::TooLong) => return Err(WordFault::NoMemory),
        };
        let Ok(text) = std::str::from_utf8(&buffer[..length]) else {
            return Err(WordFault::NoText(place));
        };
        let Ok(()) = words.push(text.to_string(alloc)?) else {
            return Err(WordFault::NoMemory);
        };
    }
    Ok(words)
}

/// Says on standard error which word isn't UTF-8, and answers the status.
pub(crate) fn refuse_word<R: Eprint>(rt: &R, place: usize) -> u8 {
    let _ = eprintln!(rt; "error: word {place} of the command line isn't UTF-8");
    2
}
