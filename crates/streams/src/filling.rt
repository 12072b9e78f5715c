//! Filling a buffer, and writing all of one, in as many pieces as it takes.
ghost use Rattle.std.specs.Prelude.{◌≡◌, ◌≤◌, ◌<◌, ◌+◌, true, false, length, take, IfOk, OnErr};
ghost use Rattle.std.specs.Prelude.{OnOk};
ghost use Rattle.std.specs.Io.KnownBytes.{Consumes, IsAtEnd, Appends};
ghost use Rattle.streams.specs.Pieces.{AppendsSome};

use crate::io::{Failed, Read, Write};

/// Fills `buf` as far as the reader goes, and answers how far: less than all of it only at the end.
/// `Failed` comes only where the reader has failed, and never from a sound one.
pub fn fill<R: Read>(reader: &mut R, buf: &mut [u8]) -> Result<usize, Failed>
    ensures bound { IfOk result (λ n. n ≤ length buf.old) }
    ensures bytes { IfOk result (λ n.
        Consumes (R.remaining reader.old) (R.remaining reader.new) (take n buf.new)) }
    ensures end { IfOk result (λ n. n < length buf.old → IsAtEnd (R.remaining reader.new)) }
    ensures falls { IfOk result (λ n. R.left reader.new + n ≤ R.left reader.old) }
    ensures fails { OnErr result (R.failed reader.new ≡ true) }
    ensures unsound { OnErr result (R.sound reader.old ≡ false) }
    ensures stays { R.sound reader.new ≡ R.sound reader.old }
{
    let mut at = 0;
    while at < buf.len() {
        let n = reader.read(&mut buf[at..])?;
        if n == 0 {
            return Ok(at);
        }
        at += n;
    }
    Ok(at)
}

/// Writes all of `bytes`, in as many pieces as the writer takes. `Failed` comes only where the
/// writer has failed, and never where it has room for them. It has a beginning of them then.
pub fn write_all<W: Write>(writer: &mut W, bytes: &[u8]) -> Result<(), Failed>
    ensures ok { OnOk result
        (Appends (W.contents writer.old) (W.contents writer.new) bytes.now) }
    ensures err { OnErr result
        (AppendsSome (W.contents writer.old) (W.contents writer.new) bytes.now) }
    ensures fails { OnErr result (W.failed writer.new ≡ true) }
    ensures full { OnErr result (W.room writer.old < length bytes.now) }
    ensures fills { OnOk result (W.room writer.old ≤ W.room writer.new + length bytes.now) }
{
    let mut at = 0;
    while at < bytes.len() {
        at += writer.write(&bytes[at..])?;
    }
    Ok(())
}
