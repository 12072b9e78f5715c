//! An object that is written block by block, so that it is never held.
ghost use Rattle.std.specs.Prelude.{◌≡◌, ◌<◌, true, false, IfErr, IfOk, OnErr};
ghost use Rattle.decoder.specs.Answered.{NoneIsShort};
ghost use Rattle.decoder.specs.Sources.{IsWriteFaultOf};
ghost use Rattle.decoder.specs.Unsolvable.{SomeUnsound};
ghost use Rattle.decoder.specs.Written.{WritesObject, BeginsObject};

use crate::coded_source::CodedSource;
use crate::source::{Source, Unread};
use session::{Write, write_all};
use std::alloc::{AllocError, Global};
use thiserror::Error;

/// Why an object wasn't written.
#[derive(Debug, Clone, Copy, PartialEq, Eq, Error)]
pub enum WriteFault {
    /// The writer has failed.
    #[error("Io")]
    Io,
    /// Symbols that came weren't read again. Of those that are held only memory can be wanting.
    #[error("{0}")]
    Unread(Unread),
}

impl From<Unread> for WriteFault {
    ghost use Rattle.std.specs.Prelude.{◌≡◌};
    ghost use Rattle.decoder.specs.declared.writing.WriteFault.TheVariants as write_fault;

    ghost from_gives = { λ unread fault. fault ≡ write_fault.Unread unread };

    fn from(unread: Unread) -> Self {
        WriteFault::Unread(unread)
    }
}

impl From<AllocError> for WriteFault {
    ghost use Rattle.std.specs.Prelude.{◌≡◌};
    ghost use Rattle.decoder.specs.declared.source.Unread.TheVariants.{NoMemory};
    ghost use Rattle.decoder.specs.declared.writing.WriteFault.TheVariants as write_fault;

    ghost from_gives = { λ _ fault. fault ≡ write_fault.Unread NoMemory };

    fn from(_: AllocError) -> Self {
        WriteFault::Unread(Unread::NoMemory)
    }
}

/// Solves the blocks one by one, and writes each before the next, as long as they are of an object.
/// Answers whether all are.
pub fn write_blocks<S: Source, W: Write>(
    alloc: Global,
    coded: &CodedSource<'_, S>,
    writer: &mut W,
) -> Result<bool, WriteFault>
    requires enough { NoneIsShort (S.known coded.now.source.now) (S.at coded.now.source.now) }
    ensures whole { S.Told coded.now.source.now → IfOk result (λ v. v ≡ true
        → WritesObject (S.known coded.now.source.now) (S.at coded.now.source.now)
        (W.contents writer.old) (W.contents writer.new)) }
    ensures other { S.Told coded.now.source.now → IfOk result (λ v. v ≡ false
        → SomeUnsound (S.known coded.now.source.now) (S.at coded.now.source.now)) }
    ensures front { S.Told coded.now.source.now
        → OnErr result (BeginsObject (S.known coded.now.source.now) (S.at coded.now.source.now)
        (W.contents writer.old) (W.contents writer.new)) }
    ensures fault { IfErr result (λ e. e ≡ WriteFault.Io → W.failed writer.new ≡ true) }
    ensures full { IfErr result (λ e. e ≡ WriteFault.Io
        → W.room writer.old < (S.known coded.now.source.now).transfer_length) }
    ensures unread { IfErr result
        (IsWriteFaultOf (S.Told coded.now.source.now) (S.reliable coded.now.source.now)) }
{
    let fti = coded.source.fti();
    let count = fti.block_count();
    let mut workspace = coded.source.workspace(alloc)?;
    for b in 0..count {
        let Some(rows) = coded.source.rows(alloc, coded.codes, b, &mut workspace)? else {
            return Ok(false);
        };
        // The rows of a source that isn't told may be shorter.
        let used = fti.block_bytes(b).min(rows.bytes.len());
        let Ok(()) = write_all(writer, &rows.bytes[..used]) else {
            return Err(WriteFault::Io);
        };
    }
    Ok(true)
}
