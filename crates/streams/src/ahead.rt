//! Bytes of a file at offsets, read ahead where they follow one another.
ghost use Rattle.std.specs.Prelude.{◌≡◌, ◌<◌, ◌≤◌, ◌+◌, true, false, length, take, IfOk, OnErr};
ghost use Rattle.std.specs.List.{All};
ghost use Rattle.std.proofs.Props.{props};
ghost use Rattle.streams.specs.Offsets.{StandsAt, EndsBy};

use crate::io::Failed;
use crate::offsets::{ReadAt, fill_at};
use std::alloc::{AllocError, Global};

// How many bytes are read ahead of a datagram that follows the one before it.
const LINE_BYTES: usize = 1 << 15;

// How many bytes a lane reads ahead. More cost small blocks more than they spare.
const LANE_BYTES: usize = 1 << 13;

// How many bytes stand between two datagrams: the length of the second.
const LENGTH_SIZE: u64 = 2;

/// A reader of a file's datagrams at their offsets. Where one stands just behind the last that was
/// asked for, the next ones are read with it.
#[derive(Drop)]
struct Ahead<'a, F: ReadAt> {
    file: &'a F,
    // The file's bytes from `at` on, `len` of them.
    bytes: Vec<u8>,
    at: u64,
    len: usize,
    // Behind the datagram that was asked for last; at first behind all, so that none follows.
    next: u64,
    ghost within: { len ≤ length bytes.items },
    ghost has: { StandsAt (F.content file.now) at (take len bytes.items) } by { Prim.hlevel props },
}

impl<'a, F: ReadAt> Ahead<'a, F> {
    /// Nothing is read yet. With no room each datagram is read by itself.
    fn new(alloc: Global, file: &'a F, room: usize) -> Result<Ahead<'a, F>, AllocError>
        ensures { IfOk result (λ ahead. ahead.file.now ≡ file.now) }
    {
        Ok(Ahead {
            file,
            bytes: vec![in alloc; 0u8; room]?,
            at: 0,
            len: 0,
            next: u64::MAX,
        })
    }

    // Whether a datagram at this offset stands just behind the last that was asked for.
    fn is_next(&self, offset: u64) -> bool {
        offset.checked_sub(self.next) == Some(LENGTH_SIZE)
    }

    // Gives bytes that were read, where all of them stand there.
    fn give(&self, offset: u64, buf: &mut [u8]) -> bool
        ensures bytes { result ≡ true
            → StandsAt (F.content self.now.file.now) offset buf.new }
        ensures len { length buf.new ≡ length buf.old }
    {
        let Some(before) = offset.checked_sub(self.at) else {
            return false;
        };
        if before > self.len as u64 || buf.len() > self.len - before as usize {
            return false;
        }
        let at = before as usize;
        buf.copy_from_slice(&self.bytes.as_slice()[at..at + buf.len()]);
        true
    }

    // Reads the bytes from an offset on, as many as come.
    fn load(&mut self, offset: u64) -> Result<(), Failed>
        ensures file { self.new.file.now ≡ self.old.file.now }
        ensures unsound { OnErr result (F.reliable self.old.file.now ≡ false) }
    {
        match self.file.read_at(offset, self.bytes.as_mut_slice()) {
            Ok(count) => {
                self.at = offset;
                self.len = count;
                Ok(())
            }
            Err(_) => {
                self.len = 0;
                Err(Failed)
            }
        }
    }

    /// Fills `buf` with the bytes from an offset on, as `fill_at` does.
    fn fill(&mut self, offset: u64, buf: &mut [u8]) -> Result<usize, Failed>
        ensures file { self.new.file.now ≡ self.old.file.now }
        ensures bound { IfOk result (λ n. n ≤ length buf.old) }
        ensures len { length buf.new ≡ length buf.old }
        ensures bytes { IfOk result (λ n.
            StandsAt (F.content self.old.file.now) offset (take n buf.new)) }
        ensures end { IfOk result (λ n. n < length buf.old
            → EndsBy (F.content self.old.file.now) (offset + n)) }
        ensures unsound { OnErr result (F.reliable self.old.file.now ≡ false) }
    {
        let follows = self.is_next(offset);
        self.next = offset.saturating_add(buf.len() as u64);
        if self.give(offset, buf) {
            return Ok(buf.len());
        }
        if follows && buf.len() <= self.bytes.len() / 2 {
            self.load(offset)?;
            if self.give(offset, buf) {
                return Ok(buf.len());
            }
        }
        fill_at(self.file, offset, buf)
    }
}

/// Readers of a file's datagrams that follow one another in several places in turn, as those of
/// each ESI do if a session was sent in rounds. Each place has a lane, which reads ahead. One more
/// reads on from any datagram to the next, as if it was sent block by block.
#[derive(Drop)]
pub struct Lanes<'a, F: ReadAt> {
    file: &'a F,
    lanes: Vec<Ahead<'a, F>>,
    line: Ahead<'a, F>,
    ghost same: { All (λ lane. lane.file.now ≡ file.now) lanes.items },
    ghost one: { line.file.now ≡ file.now },
}

impl<'a, F: ReadAt> Lanes<'a, F> {
    /// So many lanes, of which nothing is read yet. 8 KiB are held for each, and 32 KiB for what
    /// reads on, if there is a lane.
    pub fn new(alloc: Global, file: &'a F, count: usize) -> Result<Lanes<'a, F>, AllocError>
        ensures { IfOk result (λ lanes. lanes.file.now ≡ file.now) }
    {
        let mut lanes = Vec::with_capacity(alloc, count)?;
        for _ in 0..count {
            lanes.push(Ahead::new(alloc, file, LANE_BYTES)?)?;
        }
        let room = if count == 0 { 0 } else { LINE_BYTES };
        let line = Ahead::new(alloc, file, room)?;
        Ok(Lanes { file, lanes, line })
    }

    /// Fills `buf` with the bytes from an offset on, as `fill_at` does: by this lane, if there is
    /// one, and if they don't follow what was asked for last.
    pub fn fill(&mut self, lane: usize, offset: u64, buf: &mut [u8]) -> Result<usize, Failed>
        ensures file { self.new.file.now ≡ self.old.file.now }
        ensures bound { IfOk result (λ n. n ≤ length buf.old) }
        ensures len { length buf.new ≡ length buf.old }
        ensures bytes { IfOk result (λ n.
            StandsAt (F.content self.old.file.now) offset (take n buf.new)) }
        ensures end { IfOk result (λ n. n < length buf.old
            → EndsBy (F.content self.old.file.now) (offset + n)) }
        ensures unsound { OnErr result (F.reliable self.old.file.now ≡ false) }
    {
        if lane >= self.lanes.len() || self.line.is_next(offset) {
            return self.line.fill(offset, buf);
        }
        self.line.next = offset.saturating_add(buf.len() as u64);
        self.lanes[lane].fill(offset, buf)
    }
}
