//! A reader and a writer in memory.
ghost use Rattle.std.specs.Prelude.{◌≡◌, ◌<◌, ◌≤◌, ◌+◌, ◌^◌, ◌-◌, [], Some, true, false, min};
ghost use Rattle.std.specs.Prelude.{length, take, IsOk, IfOk, OnOk, OnErr};
ghost use Rattle.std.specs.Io.KnownBytes.{ReadConsumes, WriteAppends};
ghost use Rattle.streams.specs.Offsets.{StandsAt};

use crate::io::{Failed, Read, Write};
use crate::offsets::{ReadAt, WriteAt};
use lists::are_bytes;
use std::alloc::{AllocError, Global};

/// A reader of bytes in memory, which gives `most` at a time at most. It never fails.
#[derive(Drop)]
pub struct Pieces<'a> {
    bytes: &'a [u8],
    most: usize,
    ghost some: { 0 < most },
}

impl<'a> Pieces<'a> {
    /// A reader of these bytes.
    pub fn new(bytes: &'a [u8], most: usize) -> Pieces<'a>
        requires { 0 < most }
        ensures bytes { result.bytes.now ≡ bytes.now }
        ensures most { result.most ≡ most }
    {
        Pieces { bytes, most }
    }
}

impl Read for Pieces<'_> {
    ghost remaining = { λ p. Some p.bytes.now };

    ghost left = { λ p. length p.bytes.now };

    ghost failed = { λ _. false };

    ghost sound = { λ _. true };

    /// Gives as many bytes as there are, as `buf` holds, and as come at a time.
    fn read(&mut self, buf: &mut [u8]) -> Result<usize, Failed>
        ensures ok { IsOk result }
        ensures count { IfOk result (λ n.
            n ≡ min (min (length buf.old) (length self.old.bytes.now)) self.old.most) }
        ensures bytes { ReadConsumes (Some self.old.bytes.now)
            (Some self.new.bytes.now) result buf.new }
        ensures falls { IfOk result (λ n.
            length self.new.bytes.now + n ≤ length self.old.bytes.now) }
        ensures most { self.new.most ≡ self.old.most }
    {
        let n = buf.len().min(self.bytes.len()).min(self.most);
        let (front, rest) = self.bytes.split_at(n);
        buf[..n].copy_from_slice(front);
        self.bytes = rest;
        Ok(n)
    }
}

/// A writer that keeps what is written, and takes `most` bytes at a time at most. It fails where
/// `room` bytes were written and more come, and where there is no memory for them.
#[derive(Drop)]
pub struct Sink {
    bytes: Vec<u8>,
    most: usize,
    room: usize,
    failed: bool,
    ghost some: { 0 < most },
    ghost fits: { length bytes.items ≤ room },
}

impl Sink {
    ghost use Rattle.streams.specs.Sinks.{sure_room};

    /// A writer that takes all that there is memory for.
    pub fn new(alloc: Global) -> Sink
        ensures empty { result.bytes.items ≡ [] }
        ensures most { result.most ≡ 2 ^ 64 - 1 }
        ensures room { result.room ≡ 2 ^ 64 - 1 }
        ensures failed { result.failed ≡ false }
    {
        Sink::limited(alloc, usize::MAX, usize::MAX)
    }

    /// A writer of at most `room` bytes, `most` at a time.
    pub fn limited(alloc: Global, most: usize, room: usize) -> Sink
        requires { 0 < most }
        ensures empty { result.bytes.items ≡ [] }
        ensures most { result.most ≡ most }
        ensures room { result.room ≡ room }
        ensures failed { result.failed ≡ false }
    {
        Sink {
            bytes: Vec::new(alloc),
            most,
            room,
            failed: false,
        }
    }

    /// A writer of `room` bytes, `most` at a time. There is memory for all of them, so that it
    /// fails only behind them.
    pub fn reserved(alloc: Global, most: usize, room: usize) -> Result<Sink, AllocError>
        requires { 0 < most }
        ensures empty { IfOk result (λ sink. sink.bytes.items ≡ []) }
        ensures most { IfOk result (λ sink. sink.most ≡ most) }
        ensures room { IfOk result (λ sink. sink.room ≡ room) }
        ensures failed { IfOk result (λ sink. sink.failed ≡ false) }
        ensures sure { IfOk result (λ sink. sure_room sink ≡ room) }
    {
        Ok(Sink {
            bytes: Vec::with_capacity(alloc, room)?,
            most,
            room,
            failed: false,
        })
    }

    /// What was written.
    pub fn bytes(&self) -> &[u8]
        ensures { result.now ≡ self.now.bytes.items }
    {
        self.bytes.as_slice()
    }

    /// What was written, by value.
    pub fn into_bytes(self) -> Vec<u8>
        ensures { result.items ≡ self.bytes.items }
    {
        self.bytes
    }
}

impl Write for Sink {
    ghost use Rattle.streams.specs.Sinks.{sure_room};

    ghost contents = { λ s. Some s.bytes.items };

    ghost failed = { λ s. s.failed };

    ghost room = { λ s. sure_room s };

    /// Takes as many bytes as come, as it takes at a time, and as there is room for.
    fn write(&mut self, bytes: &[u8]) -> Result<usize, Failed>
        ensures count { IfOk result (λ n. n ≡ min (min (length bytes.now) self.old.most)
            (self.old.room - length self.old.bytes.items)) }
        ensures some { IfOk result (λ n. 0 < length bytes.now → 0 < n) }
        ensures bytes { WriteAppends (Some self.old.bytes.items)
            (Some self.new.bytes.items) result bytes.now }
        ensures fails { OnErr result (self.new.failed ≡ true) }
        ensures works { OnOk result ((self.old.failed ≡ false) × (self.new.failed ≡ false)) }
        ensures full { OnErr result (sure_room self.old ≡ 0) }
        ensures fills { IfOk result (λ n. sure_room self.old ≤ sure_room self.new + n) }
        ensures most { self.new.most ≡ self.old.most }
        ensures room { self.new.room ≡ self.old.room }
    {
        let room = self.room - self.bytes.len();
        if self.failed || (room == 0 && !bytes.is_empty()) {
            self.failed = true;
            return Err(Failed);
        }
        let n = bytes.len().min(self.most).min(room);
        match self.bytes.extend_from_slice(&bytes[..n]) {
            Ok(()) => Ok(n),
            Err(_) => {
                self.failed = true;
                Err(Failed)
            }
        }
    }
}

/// A file in memory. Reads give `most` bytes at a time at most, and never fail.
#[derive(Drop)]
pub struct MemoryFile<'a> {
    bytes: &'a [u8],
    most: usize,
    ghost some: { 0 < most },
}

impl<'a> MemoryFile<'a> {
    /// A file of these bytes.
    pub fn new(bytes: &'a [u8], most: usize) -> MemoryFile<'a>
        requires { 0 < most }
        ensures bytes { result.bytes.now ≡ bytes.now }
        ensures most { result.most ≡ most }
    {
        MemoryFile { bytes, most }
    }
}

impl ReadAt for MemoryFile<'_> {
    ghost content = { λ f. Some f.bytes.now };

    ghost reliable = { λ _. true };

    fn read_at(&self, offset: u64, buf: &mut [u8]) -> Result<usize, Failed> {
        are_bytes(self.bytes);
        Ok(copy_at(self.bytes, offset, self.most, buf))
    }
}

/// Copies bytes from an offset on into the front of `buf`, `most` at most, and answers how many.
pub fn copy_at(bytes: &[u8], offset: u64, most: usize, buf: &mut [u8]) -> usize
    requires { 0 < most }
    ensures bound { result ≤ length buf.old }
    ensures count { result ≡ min (min (length buf.old) (length bytes.now - offset)) most }
    ensures bytes { StandsAt (Some bytes.now) offset (take result buf.new) }
    ensures within { 0 < result → offset + result ≤ length bytes.now }
{
    let from = bytes.len().min(offset as usize);
    let (_, rest) = bytes.split_at(from);
    let count = buf.len().min(rest.len()).min(most);
    let (front, _) = rest.split_at(count);
    buf[..count].copy_from_slice(front);
    count
}

impl WriteAt for Sink {
    fn is_seekable(&self) -> bool {
        true
    }

    /// Fails where that is more than there is room or memory for.
    fn set_len(&mut self, len: u64) -> Result<(), Failed> {
        if !self.failed && len <= self.room as u64 && self.bytes.resize(len as usize, 0).is_ok() {
            return Ok(());
        }
        self.failed = true;
        Err(Failed)
    }

    /// Takes as many bytes as come and as it takes at a time.
    fn write_at(&mut self, offset: u64, bytes: &[u8]) -> Result<usize, Failed> {
        if self.failed {
            return Err(Failed);
        }
        let from = offset as usize;
        let count = bytes.len().min(self.most);
        self.bytes[from..from + count].copy_from_slice(&bytes[..count]);
        Ok(count)
    }

    /// Gives as many bytes as come and as it takes at a time.
    fn read_back(&mut self, offset: u64, buf: &mut [u8]) -> Result<usize, Failed> {
        if self.failed {
            return Err(Failed);
        }
        Ok(copy_at(&self.bytes, offset, self.most, buf))
    }
}
