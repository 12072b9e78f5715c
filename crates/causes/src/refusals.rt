//! What to write in place of what a command line was refused for.
ghost use Rattle.std.specs.Prelude.{◌↔◌, IfOk, IsTrue, is_some};
ghost use Rattle.causes.specs.Sentences.{HasTip, IsToMend};

use clap::error::ErrorKind;
use std::alloc::{AllocError, Global};

// The argument whose value was refused, by the text of the refusal.
fn refused_argument(text: &str) -> Option<&str> {
    let (_, rest) = text.rsplit_once("' for '")?;
    let (argument, _) = rest.split_once("': ")?;
    argument.split(' ').next()
}

// The numbers that an argument takes: its name, the least and the greatest.
fn numbers_of(argument: &str) -> Option<(&str, u64, u64)> {
    match argument {
        "--tsi" | "--toi" => Some((argument, 0, 4_294_967_295)),
        "--symbol" => Some((argument, 1, 65_475)),
        "--block" | "--max" | "--fti-every" => Some((argument, 1, 255)),
        _ => None,
    }
}

// Whether the word that was refused as no option is a number below 0.
fn has_sign(text: &str) -> bool {
    match text.split_once("unexpected argument '-") {
        Some((_, rest)) => rest
            .as_bytes()
            .first()
            .is_some_and(|byte| byte.is_ascii_digit()),
        None => false,
    }
}

// What the option takes whose value was refused: its range, where it has a row above.
fn wanted_number(alloc: Global, text: &str) -> Result<String, AllocError> {
    let numbers = match refused_argument(text) {
        Some(argument) => numbers_of(argument),
        None => None,
    };
    match numbers {
        Some((name, least, most)) => {
            format!(in alloc; "{name} takes a whole number from {least} to {most}")
        }
        // No option is without a row, but a new one may be.
        None => "the option takes a whole number; --help tells its range".to_string(alloc),
    }
}

// What the tip is for that the refusal of a word that is no option may have.
fn explained_tip(alloc: Global, text: &str) -> Result<Option<String>, AllocError>
    ensures { IfOk result (λ said. IsTrue (is_some said) ↔ HasTip text.now) }
{
    if !text.contains("\n  tip: to pass '") {
        return Ok(None);
    }
    let sentence = if has_sign(text) {
        "the tip is for a file of that name; no number is negative"
    } else {
        "the tip is for a file of that name; --help tells which options there are"
    };
    Ok(Some(sentence.to_string(alloc)?))
}

/// What to write in place of what was refused, where the refusal's own text doesn't tell it well: a
/// number in its range, or an option that there is. There is a sentence for a value that its parser
/// refuses, and for a word that is no option where the text has that tip; and for no other refusal.
pub fn refused(alloc: Global, kind: ErrorKind, text: &str) -> Result<Option<String>, AllocError>
    ensures said { IfOk result (λ said. IsTrue (is_some said) ↔ IsToMend kind text.now) }
{
    match kind {
        ErrorKind::ValueValidation => Ok(Some(wanted_number(alloc, text)?)),
        ErrorKind::UnknownArgument => explained_tip(alloc, text),
        _ => Ok(None),
    }
}
