//! What is told of one input.
use crate::progress::Progress;
use std::cell::Cell;
use std::fmt;
use std::time::Clock;

/// How many full reads go by before the clock is looked at. They are of 64 KiB.
const READS_BETWEEN: u64 = 16;

/// How many letters of a name are told, so that the line fits a terminal.
const MOST_LETTERS: usize = 28;

/// What is told of one input.
#[derive(Drop)]
pub(crate) struct Meter<'a, R> {
    pub(crate) rt: &'a R,
    pub(crate) progress: &'a Progress,
    pub(crate) name: String,
    pub(crate) length: Option<u64>,
    /// After how many milliseconds it was opened.
    pub(crate) opened: u64,
    pub(crate) bytes: Cell<u64>,
    pub(crate) reads: Cell<u64>,
}

impl<R: Clock + Eprint> Meter<'_, R> {
    /// Takes so many bytes more into account.
    pub(crate) fn count(&self, bytes: usize, is_full: bool) {
        self.reach(self.bytes.get().saturating_add(bytes as u64), is_full);
    }

    /// Takes into account that reading has come so far. A read that fills its buffer hasn't waited,
    /// so that the clock needn't be looked at each time.
    pub(crate) fn reach(&self, bytes: u64, is_full: bool) {
        self.bytes.set(bytes);
        let reads = self.reads.get().wrapping_add(1);
        self.reads.set(reads);
        if !is_full || reads % READS_BETWEEN == 0 {
            self.tell();
        }
    }

    fn tell(&self) {
        let Some(now) = self.progress.passed_if_due(self.rt) else {
            return;
        };
        let line = Line {
            name: self.name.as_str(),
            bytes: self.bytes.get(),
            length: self.length,
            milliseconds: now.saturating_sub(self.opened),
        };
        let _ = eprint!(self.rt; "\r{line}\x1b[K");
        self.progress.stands.set(true);
    }
}

/// A line on one input.
#[derive(Clone, Copy)]
struct Line<'a> {
    name: &'a str,
    bytes: u64,
    length: Option<u64>,
    milliseconds: u64,
}

impl fmt::Display for Line<'_> {
    fn fmt<W: fmt::Write>(&self, f: &mut fmt::Formatter<W>) -> fmt::Result {
        let letters = self.name.chars().count();
        for letter in self.name.chars().skip(letters.saturating_sub(MOST_LETTERS)) {
            // A control character could move the cursor.
            write!(f, "{}", if letter.is_control() { '?' } else { letter })?;
        }
        write!(f, ": {}", self.bytes)?;
        if let Some(length) = self.length {
            write!(f, " of {length}")?;
        }
        let kilobytes = self.bytes / self.milliseconds.max(1);
        write!(
            f,
            " bytes, {}.{} MB/s",
            kilobytes / 1000,
            kilobytes / 100 % 10
        )
    }
}
