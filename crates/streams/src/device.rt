//! A reader or a writer of the standard library as one of ours.
ghost use Rattle.std.specs.Prelude.{◌≡◌, ◌<◌, ◌≤◌, ◌+◌, true, false, ◌^◌, ◌-◌, [], length};
ghost use Rattle.std.specs.Prelude.{IfOk, OnOk, OnErr, is_err};
ghost use Rattle.std.specs.Io.KnownBytes.{ReadConsumes, WriteAppends, Keeps};
ghost use Rattle.std.specs.Io.Buffered.{writer_buffer, writer_contents};

use crate::io::{Failed, Read, Write};
use std::io::{self, BufWriter, Write as _};

// The most bytes that a device gives in all.
const MOST: u64 = (1 << 63) - 1;

/// A reader or writer of the standard library. Any error, an interruption too, and a write that
/// takes nothing make it fail for good, and so does the end of 2^63 - 1 bytes. What it holds is not
/// told, but each call does to the inner reader or writer what that one promises.
#[derive(Drop)]
pub struct Device<T> {
    inner: T,
    left: u64,
    failed: bool,
}

impl<T> Device<T> {
    /// A device of this reader or writer, which hasn't failed.
    pub fn new(inner: T) -> Device<T>
        ensures inner { result.inner ≡ inner }
        ensures left { result.left ≡ 2 ^ 63 - 1 }
        ensures failed { result.failed ≡ false }
    {
        Device {
            inner,
            left: MOST,
            failed: false,
        }
    }

    /// The reader or writer.
    pub fn get_ref(&self) -> &T
        ensures { result.now ≡ self.now.inner }
    {
        &self.inner
    }

    /// Gives the reader or writer back.
    pub fn into_inner(self) -> T
        ensures { result ≡ self.inner }
    {
        let Device {
            inner,
            left: _,
            failed: _,
        } = self;
        inner
    }
}

impl<T: io::Read> Read for Device<T> {
    ghost remaining = { λ d. T.remaining d.inner };

    ghost left = { λ d. d.left };

    ghost failed = { λ d. d.failed };

    ghost sound = { λ _. false };

    /// What the inner reader gives, and its end, is passed on; so is its error, as `Failed`.
    fn read(&mut self, buf: &mut [u8]) -> Result<usize, Failed>
        ensures bound { IfOk result (λ n. n ≤ length buf.old) }
        ensures bytes { ReadConsumes (T.remaining self.old.inner)
            (T.remaining self.new.inner) result buf.new }
        ensures falls { IfOk result (λ n. self.new.left + n ≤ self.old.left) }
        ensures fails { OnErr result (self.new.failed ≡ true) }
        ensures works { OnOk result ((self.old.failed ≡ false) × (self.new.failed ≡ false)) }
        ensures unsound { OnErr result (false ≡ false) }
        ensures stays { false ≡ false }
        ensures dry { OnOk result (0 < self.old.left) }
    {
        if self.failed || self.left == 0 {
            self.failed = true;
            return Err(Failed);
        }
        let room = if buf.len() as u64 <= self.left {
            buf.len()
        } else {
            self.left as usize
        };
        match self.inner.read(&mut buf[..room]) {
            Ok(n) => {
                self.left -= n as u64;
                Ok(n)
            }
            Err(_) => {
                self.failed = true;
                Err(Failed)
            }
        }
    }
}

impl<T: io::Write + Drop> Device<BufWriter<T>> {
    /// Passes on what the buffer holds back. At Ok it is empty, and the writer behind it has all.
    /// An error makes the device fail for good.
    pub fn flush(&mut self) -> Result<(), Failed>
        ensures passed { OnOk result (writer_buffer self.new.inner ≡ []) }
        ensures inner { Keeps (writer_contents T.contents self.old.inner)
            (writer_contents T.contents self.new.inner) }
        ensures failed { self.new.failed ≡ is_err result }
        ensures works { OnOk result (self.old.failed ≡ false) }
    {
        if self.failed {
            return Err(Failed);
        }
        match self.inner.flush() {
            Ok(()) => Ok(()),
            Err(_) => {
                self.failed = true;
                Err(Failed)
            }
        }
    }
}

impl<T: io::Write> Write for Device<T> {
    ghost contents = { λ d. T.contents d.inner };

    ghost failed = { λ d. d.failed };

    ghost room = { λ _. 0 };

    /// As many bytes are taken as the inner writer takes; its error is passed on, as `Failed`.
    fn write(&mut self, bytes: &[u8]) -> Result<usize, Failed>
        ensures bound { IfOk result (λ n. n ≤ length bytes.now) }
        ensures some { IfOk result (λ n. 0 < length bytes.now → 0 < n) }
        ensures bytes { WriteAppends (T.contents self.old.inner)
            (T.contents self.new.inner) result bytes.now }
        ensures fails { OnErr result (self.new.failed ≡ true) }
        ensures works { OnOk result ((self.old.failed ≡ false) × (self.new.failed ≡ false)) }
        ensures full { OnErr result (false ≡ false) }
        ensures fills { IfOk result (λ n. 0 ≤ n) }
    {
        if self.failed {
            return Err(Failed);
        }
        match self.inner.write(bytes) {
            Ok(n) if n > 0 || bytes.is_empty() => Ok(n),
            _ => {
                self.failed = true;
                Err(Failed)
            }
        }
    }
}
