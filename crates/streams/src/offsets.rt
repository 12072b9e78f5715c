//! Bytes that are read and written at any offset.
ghost use Rattle.std.specs.Prelude.{◌≡◌, ◌<◌, ◌≤◌, ◌+◌, ◌^◌, ◌⊎◌, ◌↔◌, ℕ, List, Option, Bool};
ghost use Rattle.std.specs.Prelude.{true, false, None, length, take, IfOk, IfSome, OnOk, OnErr};
ghost use Rattle.std.specs.Prelude.{IsTrue};
ghost use Rattle.lists.specs.Bytes.{AreBytes};
ghost use Rattle.streams.specs.Offsets.{StandsAt, EndsBy, HasRoomAt, Overwrites, OverwritesSome};
ghost use Rattle.streams.specs.Offsets.{Resizes};

use crate::io::{Failed, Write};

/// Bytes that are read at any offset, and are the same each time.
pub trait ReadAt {
    /// All the bytes, where they are told.
    ghost content: { Self → Option (List ℕ) };

    /// Whether no call can fail.
    ghost reliable: { Self → Bool };

    /// Reads bytes from `offset` on into the front of `buf`, and answers how many. Zero for a `buf`
    /// that isn't empty says that none stands there. `Failed` never comes from a reliable file.
    fn read_at(&self, offset: u64, buf: &mut [u8]) -> Result<usize, Failed>
        ensures bound { IfOk result (λ n. n ≤ length buf.old) }
        ensures bytes { IfOk result (λ n.
            StandsAt (content self.now) offset (take n buf.new)) }
        ensures end { IfOk result (λ n.
            n ≡ 0 → 0 < length buf.old → EndsBy (content self.now) offset) }
        ensures within { IfOk result (λ n. 0 < n → offset + n < 2 ^ 64) }
        ensures each { IfSome (content self.now) AreBytes }
        ensures unsound { OnErr result (reliable self.now ≡ false) };
}

/// A sink whose length is set, and whose bytes are written at any offset.
pub trait WriteAt: Write {
    /// Whether it has offsets: a pipe or a device has none, and the calls below fail there.
    fn is_seekable(&self) -> bool;

    /// Sets the length in bytes. Zeros stand behind what was written. An error makes the sink fail
    /// for good.
    fn set_len(&mut self, len: u64) -> Result<(), Failed>
        ensures resized { OnOk result
            (Resizes (Self.contents self.old) (Self.contents self.new) len) }
        ensures stays { OnErr result (Self.contents self.new ≡ Self.contents self.old) }
        ensures fails { OnErr result (Self.failed self.new ≡ true) };

    /// Writes a front part of `bytes` over those from `offset` on, and answers how many: at least
    /// one, unless `bytes` is empty. An error makes the sink fail for good.
    fn write_at(&mut self, offset: u64, bytes: &[u8]) -> Result<usize, Failed>
        requires within { HasRoomAt (Self.contents self.old) offset (length bytes.now) }
        ensures bound { IfOk result (λ n. n ≤ length bytes.now) }
        ensures some { IfOk result (λ n. 0 < length bytes.now → 0 < n) }
        ensures bytes { IfOk result (λ n. Overwrites (Self.contents self.old)
            (Self.contents self.new) offset (take n bytes.now)) }
        ensures stays { OnErr result (Self.contents self.new ≡ Self.contents self.old) }
        ensures fails { OnErr result (Self.failed self.new ≡ true) };

    /// Reads bytes that were written, from `offset` on, into the front of `buf`, and answers how
    /// many. Zero for a `buf` that isn't empty says that none stands there. An error makes the sink
    /// fail for good.
    fn read_back(&mut self, offset: u64, buf: &mut [u8]) -> Result<usize, Failed>
        ensures bound { IfOk result (λ n. n ≤ length buf.old) }
        ensures bytes { IfOk result (λ n.
            StandsAt (Self.contents self.old) offset (take n buf.new)) }
        ensures end { IfOk result (λ n.
            n ≡ 0 → 0 < length buf.old → EndsBy (Self.contents self.old) offset) }
        ensures stays { Self.contents self.new ≡ Self.contents self.old }
        ensures fails { OnErr result (Self.failed self.new ≡ true) };
}

/// Fills `buf` with the bytes from an offset on, as far as they go, and answers how far: less than
/// all of it only at the end. `Failed` never comes from a reliable file.
pub fn fill_at<F: ReadAt>(file: &F, offset: u64, buf: &mut [u8]) -> Result<usize, Failed>
    ensures bound { IfOk result (λ n. n ≤ length buf.old) }
    ensures bytes { IfOk result (λ n. StandsAt (F.content file.now) offset (take n buf.new)) }
    ensures end { IfOk result (λ n.
        n < length buf.old → EndsBy (F.content file.now) (offset + n)) }
    ensures each { 0 < length buf.old → IfSome (F.content file.now) AreBytes }
    ensures unsound { OnErr result (F.reliable file.now ≡ false) }
{
    let mut at = 0;
    while at < buf.len() {
        let n = file.read_at(offset + at as u64, &mut buf[at..])?;
        if n == 0 {
            return Ok(at);
        }
        at += n;
    }
    Ok(at)
}

/// Whether a file has so many bytes, which are fewer than 2^63. `Failed` never comes from a
/// reliable file.
pub fn has_length<F: ReadAt>(file: &F, len: u64) -> Result<bool, Failed>
    requires { len < 2 ^ 63 }
    ensures told { IfOk result (λ has. IfSome (F.content file.now) (λ x.
        IsTrue has ↔ (length x ≡ len))) }
    ensures each { IfSome (F.content file.now) AreBytes }
    ensures unsound { OnErr result (F.reliable file.now ≡ false) }
{
    let mut last = [0u8; 2];
    if len == 0 {
        return Ok(file.read_at(0, &mut last)? == 0);
    }
    Ok(fill_at(file, len - 1, &mut last)? == 1)
}

/// Writes all of `bytes` over those from an offset on, in as many pieces as the sink takes.
/// `Failed` comes only where the sink has failed. A beginning of them was written then.
pub fn write_all_at<W: WriteAt>(writer: &mut W, offset: u64, bytes: &[u8]) -> Result<(), Failed>
    requires within { HasRoomAt (W.contents writer.old) offset (length bytes.now) }
    requires fits { offset + length bytes.now < 2 ^ 64 }
    ensures ok { OnOk result
        (Overwrites (W.contents writer.old) (W.contents writer.new) offset bytes.now) }
    ensures err { OnErr result
        (OverwritesSome (W.contents writer.old) (W.contents writer.new) offset bytes.now) }
    ensures fails { OnErr result (W.failed writer.new ≡ true) }
{
    let mut at = 0;
    while at < bytes.len() {
        at += writer.write_at(offset + at as u64, &bytes[at..])?;
    }
    Ok(())
}

/// Fills `buf` with bytes that were written, from an offset on, in as many pieces as the sink
/// gives. `Failed` comes only where the sink has failed, or what it has isn't told.
pub fn read_all_back<W: WriteAt>(sink: &mut W, offset: u64, buf: &mut [u8]) -> Result<(), Failed>
    requires within { HasRoomAt (W.contents sink.old) offset (length buf.old) }
    requires fits { offset + length buf.old < 2 ^ 64 }
    ensures bytes { OnOk result (StandsAt (W.contents sink.old) offset buf.new) }
    ensures stays { W.contents sink.new ≡ W.contents sink.old }
    ensures fails { OnErr result
        ((W.failed sink.new ≡ true) ⊎ (W.contents sink.old ≡ None)) }
{
    let mut at = 0;
    while at < buf.len() {
        let n = sink.read_back(offset + at as u64, &mut buf[at..])?;
        if n == 0 {
            return Err(Failed);
        }
        at += n;
    }
    Ok(())
}
