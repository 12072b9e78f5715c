//! A word in a file of places.
ghost use Rattle.std.specs.Prelude.{◌≡◌, None, codes};

use crate::files::open_again;
use session::{Device, read_to_end};
use std::alloc::Global;
use std::fs::File;
use std::rt::Files;

/// A longer word isn't shown.
const MOST_SHOWN: usize = 40;

/// The word behind so many, between white space, in quotes. `None` where the file can't be read
/// again, or is no text, and where the word is long.
pub fn word_behind<R: Files<File = File>>(
    rt: &R,
    alloc: Global,
    name: &str,
    count: usize,
) -> Option<String>
    ensures { name.now ≡ codes "-" → result ≡ None }
{
    let file = open_again(rt, name)?;
    let text = read_to_end(alloc, &mut Device::new(file)).ok()?;
    let word = std::str::from_utf8(text.as_slice())
        .ok()?
        .split_whitespace()
        .nth(count)?;
    if word.len() > MOST_SHOWN {
        return None;
    }
    format!(in alloc; " ({word})").ok()
}
