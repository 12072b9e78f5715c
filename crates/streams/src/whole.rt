//! Reading all that a reader has left.
ghost use Rattle.std.specs.Prelude.{◌≡◌, true, false, IfOk, IfErr, OnOk};
ghost use Rattle.std.specs.Io.KnownBytes.{Consumes, IsAtEnd};

use crate::filling::fill;
use crate::io::Read;
use std::alloc::Global;

/// Why not all bytes were read.
#[derive(Debug, Clone, Copy, PartialEq, Eq)]
pub enum ReadFault {
    /// The reader has failed.
    Io,
    NoMemory,
}

/// All bytes up to the end. They are read piece by piece, so that memory grows with what comes.
/// `Io` comes only where the reader has failed, and never from a sound one.
pub fn read_to_end<R: Read>(alloc: Global, reader: &mut R) -> Result<Vec<u8>, ReadFault>
    ensures ok { IfOk result (λ bytes.
        Consumes (R.remaining reader.old) (R.remaining reader.new) bytes.items) }
    ensures end { OnOk result (IsAtEnd (R.remaining reader.new)) }
    ensures io { IfErr result (λ e. e ≡ ReadFault.Io → R.failed reader.new ≡ true) }
    ensures unsound { IfErr result (λ e. e ≡ ReadFault.Io → R.sound reader.old ≡ false) }
{
    let mut bytes = Vec::new(alloc);
    let mut piece = [0u8; 4096];
    loop {
        let Ok(got) = fill(reader, &mut piece) else {
            return Err(ReadFault::Io);
        };
        let Ok(()) = bytes.extend_from_slice(&piece[..got]) else {
            return Err(ReadFault::NoMemory);
        };
        if got < piece.len() {
            return Ok(bytes);
        }
    }
}
