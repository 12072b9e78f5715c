//! An object that comes from a reader, block by block.
ghost use Rattle.std.specs.Prelude.{◌≡◌, ◌<◌, length, IfErr, OnOk, IfSome};
ghost use Rattle.std.specs.Io.KnownBytes.{Consumes, IsAtEnd};
ghost use Rattle.lists.specs.Bytes.{AreBytes};
ghost use Rattle.encoder.specs.BlocksRead.{IsReadFault};

use lists::are_bytes;
use partition::Fti;
use streams::{Read, fill};
use thiserror::Error;

/// Why an object wasn't read.
#[derive(Debug, Clone, Copy, PartialEq, Eq, Error)]
pub enum ObjectFault {
    /// It hasn't the FTI's transfer length.
    #[error("O1 Length")]
    Length,
    /// The reader has failed.
    #[error("O3 Io")]
    Io,
}

/// Reads the next bytes, as many as there is room for.
pub(crate) fn read_block<R: Read>(reader: &mut R, bytes: &mut [u8]) -> Result<(), ObjectFault>
    ensures read { OnOk result
        (Consumes (R.remaining reader.old) (R.remaining reader.new) bytes.new) }
    ensures len { length bytes.new ≡ length bytes.old }
    ensures bytes { OnOk result (AreBytes bytes.new) }
    ensures short { IfErr result (λ e. e ≡ ObjectFault.Length
        → IfSome (R.remaining reader.old) (λ x. length x < length bytes.old)) }
    ensures io { IfErr result
        (λ e. IsReadFault e (R.sound reader.old) (R.failed reader.new)) }
    ensures stays { R.sound reader.new ≡ R.sound reader.old }
{
    let Ok(got) = fill(reader, bytes) else {
        return Err(ObjectFault::Io);
    };
    if got < bytes.len() {
        return Err(ObjectFault::Length);
    }
    are_bytes(bytes);
    Ok(())
}

/// Looks whether the reader is at its end.
pub(crate) fn read_end<R: Read>(reader: &mut R) -> Result<(), ObjectFault>
    ensures none { OnOk result (IsAtEnd (R.remaining reader.old)) }
    ensures end { OnOk result (IsAtEnd (R.remaining reader.new)) }
    ensures more { IfErr result (λ e. e ≡ ObjectFault.Length
        → IfSome (R.remaining reader.old) (λ x. 0 < length x)) }
    ensures io { IfErr result
        (λ e. IsReadFault e (R.sound reader.old) (R.failed reader.new)) }
{
    let mut byte = [0u8; 1];
    let Ok(got) = fill(reader, &mut byte) else {
        return Err(ObjectFault::Io);
    };
    if got > 0 {
        return Err(ObjectFault::Length);
    }
    Ok(())
}
