//! A reader of what stands in a file that is read at offsets.
ghost use Rattle.std.specs.Prelude.{◌≡◌, ◌<◌, ◌≤◌, ◌+◌, ◌-◌, ◌^◌, true, false, IfOk, OnOk, OnErr};
ghost use Rattle.std.specs.Prelude.{length, take, drop, min, is_err};
ghost use Rattle.std.specs.Option.{option_map};
ghost use Rattle.std.proofs.Props.{props};
ghost use Rattle.streams.specs.Offsets.{StandsAt, EndsBy};

use crate::io::{Failed, Read};
use crate::offsets::ReadAt;

// How many bytes are read from the file at a time.
const BUFFER_SIZE: usize = 1 << 15;

/// A reader of a file's bytes from the first one on, 32 KiB of them at a time.
#[derive(Drop)]
pub struct Cursor<'a, F: ReadAt> {
    file: &'a F,
    // The bytes that were read and not given stand in the buffer from `at` to `end`. Behind them
    // the file's bytes go on at the offset `next`.
    buffer: [u8; BUFFER_SIZE],
    at: usize,
    end: usize,
    next: u64,
    failed: bool,
    ghost order: { at ≤ end },
    ghost within: { end ≤ length buffer },
    ghost behind: { end - at ≤ next },
    ghost most: { next < 2 ^ 64 },
    ghost held: { StandsAt (F.content file.now) (next - (end - at))
        (take (end - at) (drop at buffer)) } by { Prim.hlevel props },
    ghost fails: { failed ≡ true → F.reliable file.now ≡ false },
}

impl<'a, F: ReadAt> Cursor<'a, F> {
    /// A reader of all bytes of the file.
    pub fn new(file: &'a F) -> Cursor<'a, F>
        ensures file { result.file.now ≡ file.now }
        ensures next { result.next ≡ 0 }
        ensures none { result.end ≡ result.at }
        ensures failed { result.failed ≡ false }
    {
        Cursor {
            file,
            buffer: [0; BUFFER_SIZE],
            at: 0,
            end: 0,
            next: 0,
            failed: false,
        }
    }

    // Reads on where nothing is left in the buffer: then it is empty at the file's end alone. An
    // error makes the cursor fail for good.
    fn load(&mut self) -> Result<(), Failed>
        requires works { self.old.failed ≡ false }
        ensures file { self.new.file.now ≡ self.old.file.now }
        ensures same { self.new.next - (self.new.end - self.new.at)
            ≡ self.old.next - (self.old.end - self.old.at) }
        ensures end { OnOk result (self.new.at ≡ self.new.end
            → EndsBy (F.content self.old.file.now)
            (self.old.next - (self.old.end - self.old.at))) }
        ensures failed { self.new.failed ≡ is_err result }
        ensures unsound { OnErr result (F.reliable self.old.file.now ≡ false) }
    {
        if self.at < self.end {
            return Ok(());
        }
        match self.file.read_at(self.next, &mut self.buffer) {
            Ok(read) => {
                self.at = 0;
                self.end = read;
                self.next += read as u64;
                Ok(())
            }
            Err(_) => {
                self.at = 0;
                self.end = 0;
                self.failed = true;
                Err(Failed)
            }
        }
    }

    // Gives bytes of the buffer, as many as there are and as `buf` holds.
    fn give(&mut self, buf: &mut [u8]) -> usize
        ensures count { result ≡ min (length buf.old) (self.old.end - self.old.at) }
        ensures bytes { StandsAt (F.content self.old.file.now)
            (self.old.next - (self.old.end - self.old.at)) (take result buf.new) }
        ensures file { self.new.file.now ≡ self.old.file.now }
        ensures on { self.new.next - (self.new.end - self.new.at)
            ≡ (self.old.next - (self.old.end - self.old.at)) + result }
        ensures failed { self.new.failed ≡ self.old.failed }
    {
        let count = buf.len().min(self.end - self.at);
        buf[..count].copy_from_slice(&self.buffer[self.at..self.at + count]);
        self.at += count;
        count
    }
}

impl<F: ReadAt> Read for Cursor<'_, F> {
    ghost remaining = { λ c.
        option_map (λ xs. drop (c.next - (c.end - c.at)) xs) (F.content c.file.now) };

    ghost left = { λ c. 2 ^ 64 - (c.next - (c.end - c.at)) };

    ghost failed = { λ c. c.failed };

    ghost sound = { λ c. F.reliable c.file.now };

    fn read(&mut self, buf: &mut [u8]) -> Result<usize, Failed> {
        if self.failed {
            return Err(Failed);
        }
        self.load()?;
        Ok(self.give(buf))
    }
}
