//! The calls of the system that fail.
ghost use Rattle.std.specs.Prelude.{◌≡◌, OnOk};

use inspection::Failure;
use std::alloc::{AllocError, Global};
use std::cell::Cell;
use std::io::{self, Read, Write};

/// The last call of the system that has failed, kept for the sentence on an end without success.
#[derive(Drop)]
pub struct Failures {
    alloc: Global,
    last: Cell<Option<Failure>>,
}

fn failure_of(alloc: Global, name: &str, error: &io::Error) -> Result<Failure, AllocError> {
    Ok(Failure {
        name: name.to_string(alloc)?,
        kind: error.kind(),
        reason: error.to_string(alloc)?,
    })
}

impl Failures {
    /// No call has failed.
    pub fn new(alloc: Global) -> Failures {
        Failures {
            alloc,
            last: Cell::new(None),
        }
    }

    /// Keeps an error of the file of this name; nothing where there is no memory for it.
    pub(crate) fn note(&self, name: &str, error: &io::Error) {
        self.last.set(failure_of(self.alloc, name, error).ok());
    }

    /// Hands over what is kept.
    pub fn take(&self) -> Option<Failure> {
        self.last.replace(None)
    }
}

/// A file, or another reader or writer, whose errors are kept with its name.
#[derive(Drop)]
pub struct Noted<'a, T> {
    inner: T,
    name: String,
    failures: &'a Failures,
}

impl<'a, T> Noted<'a, T> {
    /// The reader or writer of this name.
    pub fn new(inner: T, name: String, failures: &'a Failures) -> Noted<'a, T> {
        Noted {
            inner,
            name,
            failures,
        }
    }

    pub(crate) fn inner(&self) -> &T {
        &self.inner
    }

    pub(crate) fn into_inner(self) -> T {
        let Noted {
            inner,
            name: _,
            failures: _,
        } = self;
        inner
    }

    /// Keeps the error of a call, if it has failed.
    pub(crate) fn see<V>(&self, outcome: io::Result<V>) -> io::Result<V>
        ensures { result ≡ outcome }
    {
        if let Err(error) = &outcome {
            self.failures.note(self.name.as_str(), error);
        }
        outcome
    }
}

impl<T: Read> Read for Noted<'_, T> {
    fn read(&mut self, buf: &mut [u8]) -> io::Result<usize> {
        let read = self.inner.read(buf);
        self.see(read)
    }
}

impl<T: Write> Write for Noted<'_, T> {
    fn write(&mut self, buf: &[u8]) -> io::Result<usize> {
        let written = self.inner.write(buf);
        self.see(written)
    }

    fn flush(&mut self) -> io::Result<()> {
        let flushed = self.inner.flush();
        self.see(flushed)
    }
}
