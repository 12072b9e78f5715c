//! The files that are given to commands.
use crate::bytes::put_row;
use crate::fault::{Fault, Wrong};
use crate::line::{Line, read_line};
use host::MemoryHost;
use std::alloc::Global;

// Adds the bytes of a line behind the one that names their file, if it has any. False where the
// line belongs to the file no more.
fn put_line(bytes: &mut Vec<u8>, line: &str) -> Result<bool, Fault> {
    match read_line(line) {
        Some(Line::Comment) => Ok(true),
        Some(Line::Bytes(row)) => {
            put_row(bytes, row)?;
            Ok(true)
        }
        Some(Line::Given(_) | Line::Command(_)) => Ok(false),
        Some(_) => Err(Fault::Misplaced),
        None => Err(Fault::UnknownBeginning),
    }
}

// The bytes of a file, from the lines from its name on.
fn bytes_of(alloc: Global, lines: &[&str]) -> Result<Vec<u8>, Wrong> {
    let mut bytes = Vec::new(alloc);
    for (place, line) in lines.iter().enumerate().skip(1) {
        match put_line(&mut bytes, line) {
            Ok(true) => {}
            Ok(false) => break,
            Err(fault) => return Err(Wrong { place, fault }),
        }
    }
    Ok(bytes)
}

/// Puts a file in of which no other has the name. The lines are those of the transcript from the
/// file's name on.
pub(crate) fn give(
    alloc: Global,
    given: &mut MemoryHost,
    name: &str,
    lines: &[&str],
) -> Result<(), Wrong> {
    if name.is_empty() {
        return Err(Fault::NoName.here());
    }
    if given.get(name).is_some() {
        return Err(Fault::GivenTwice.here());
    }
    let bytes = bytes_of(alloc, lines)?;
    match given.put(name, bytes) {
        Ok(()) => Ok(()),
        Err(_) => Err(Fault::NoMemory.here()),
    }
}
