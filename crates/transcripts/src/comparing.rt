//! What a command answered, beside the lines that tell what is wanted.
use crate::bytes::put_row;
use crate::fault::{Fault, Wrong};
use crate::line::{Line, read_line};
use crate::outcome::Outcome;
use host::MemoryHost;
use std::alloc::Global;

/// What no line has told yet of an answer.
#[derive(Clone, Copy)]
struct Untold<'a> {
    /// The exit status, or 0 once it is told.
    status: u8,
    output: &'a str,
    refusal: &'a str,
    created: &'a [(String, Vec<u8>)],
    /// Of the created file that was told last.
    bytes: &'a [u8],
}

impl<'a> Untold<'a> {
    fn new(outcome: &'a Outcome) -> Result<Untold<'a>, Fault> {
        Ok(Untold {
            status: outcome.status,
            output: outcome.output()?,
            refusal: outcome.refusal()?,
            created: outcome.created(),
            bytes: &[],
        })
    }

    fn is_nothing(&self) -> bool {
        self.status == 0
            && self.output.is_empty()
            && self.refusal.is_empty()
            && self.created.is_empty()
            && self.bytes.is_empty()
    }

    fn take_status(&mut self, text: &str) -> Result<(), Fault> {
        match text.parse::<u8>() {
            Ok(status) if status > 0 && status == self.status => {
                self.status = 0;
                Ok(())
            }
            _ => Err(Fault::Otherwise),
        }
    }

    // The file that is created next, and its name. What is left of the bytes of the last is told
    // before.
    fn take_created(&mut self, text: &str, given: &MemoryHost) -> Result<(), Fault> {
        let (name, other) = text.split_once(" = ").unwrap_or((text, ""));
        let Some(((created, bytes), behind)) = self.created.split_first() else {
            return Err(Fault::Otherwise);
        };
        if created.as_str() != name || !self.bytes.is_empty() {
            return Err(Fault::Otherwise);
        }
        self.created = behind;
        self.bytes = bytes.as_slice();
        if other.is_empty() {
            return Ok(());
        }
        self.take_copy(given.get(other))
    }

    // All bytes of the last file, which are to be those of this one.
    fn take_copy(&mut self, other: Option<&[u8]>) -> Result<(), Fault> {
        let Some(other) = other else {
            return Err(Fault::NotGiven);
        };
        if self.bytes != other {
            return Err(Fault::Otherwise);
        }
        self.bytes = &[];
        Ok(())
    }

    fn take_bytes(&mut self, alloc: Global, row: &str) -> Result<(), Fault> {
        let mut wanted = Vec::new(alloc);
        put_row(&mut wanted, row)?;
        match self.bytes.strip_prefix(wanted.as_slice()) {
            Some(behind) => {
                self.bytes = behind;
                Ok(())
            }
            None => Err(Fault::Otherwise),
        }
    }
}

fn take_line(text: &mut &str, line: &str) -> Result<(), Fault> {
    match text.split_once('\n') {
        Some((first, behind)) if first == line => {
            *text = behind;
            Ok(())
        }
        _ => Err(Fault::Otherwise),
    }
}

// Takes what a line tells. False where it belongs to the command no more.
fn take(
    alloc: Global,
    untold: &mut Untold<'_>,
    given: &MemoryHost,
    line: &str,
) -> Result<bool, Fault> {
    let Some(line) = read_line(line) else {
        return Err(Fault::UnknownBeginning);
    };
    match line {
        Line::Comment => {}
        Line::Given(_) | Line::Command(_) => return Ok(false),
        Line::Output(text) => take_line(&mut untold.output, text)?,
        Line::Refusal(text) => take_line(&mut untold.refusal, text)?,
        Line::Status(text) => untold.take_status(text)?,
        Line::Created(text) => untold.take_created(text, given)?,
        Line::Bytes(row) => untold.take_bytes(alloc, row)?,
    }
    Ok(true)
}

/// Whether a command has answered as the lines from its own on tell, and not more: the first line
/// that is wrong.
pub(crate) fn compare(
    alloc: Global,
    outcome: &Outcome,
    given: &MemoryHost,
    lines: &[&str],
) -> Result<(), Wrong> {
    let mut untold = match Untold::new(outcome) {
        Ok(untold) => untold,
        Err(fault) => return Err(fault.here()),
    };
    for (place, line) in lines.iter().enumerate().skip(1) {
        match take(alloc, &mut untold, given, line) {
            Ok(true) => {}
            Ok(false) => break,
            Err(fault) => return Err(Wrong { place, fault }),
        }
    }
    if untold.is_nothing() {
        Ok(())
    } else {
        Err(Fault::More.here())
    }
}
