//! The certificate of an object that comes from a reader.
ghost use Rattle.std.specs.Prelude.{◌≡◌, ◌<◌, ◌+◌, ◌*◌, [], Some, IfErr, OnOk, OnErr, length};
ghost use Rattle.std.specs.Io.KnownBytes.{IsAtEnd};
ghost use Rattle.streams.specs.Changes.{reader_change, writer_change};
ghost use Rattle.partition.specs.Fti.{block_count, source_count};
ghost use Rattle.certificate.specs.Certificate.{IsIdentity, coefficient_count, head_text};
ghost use Rattle.block_code.specs.Codes.{EachBlockHas};
ghost use Rattle.block_code.specs.CodesOf.{IsInterpolatorOf};
ghost use Rattle.encoder.specs.ObjectRead.{ReadsObject, ReadsSome};
ghost use Rattle.encoder.specs.BlocksRead.{HasRead};
ghost use Rattle.encoder.specs.AllValues.{IsRoom};
ghost use Rattle.encoder.specs.Certified.{BeginsRows, IsCertifiedTo};
ghost use Rattle.encoder.specs.CertifiedFrom.{IsCertifyFromFault};
ghost use Rattle.encoder.specs.RowsWritten.{WritesRows, IsRowsFault};

use crate::by_values::room;
use crate::certifying::write_block;
use crate::object::{ObjectFault, read_block, read_end};
use block_code::{BlockCodes, Kind};
use certificate::write_head;
use partition::Fti;
use reception::Identity;
use session::{Failed, Read, Write};
use std::alloc::{AllocError, Global};
use thiserror::Error;

/// Why an object that comes from a reader wasn't certified.
#[derive(Debug, Clone, Copy, PartialEq, Eq, Error)]
pub enum CertifyFromFault {
    /// It wasn't read.
    #[error(transparent)]
    Object(ObjectFault),
    /// The writer has failed.
    #[error("O3 Io")]
    Write,
    #[error("O4 NoMemory")]
    NoMemory,
}

impl From<ObjectFault> for CertifyFromFault {
    ghost use Rattle.encoder.specs.declared.certifying_from.CertifyFromFault.TheVariants.{Object};

    ghost from_gives = { λ e fault. fault ≡ Object e };

    fn from(e: ObjectFault) -> Self {
        CertifyFromFault::Object(e)
    }
}

impl From<Failed> for CertifyFromFault {
    ghost use Rattle.encoder.specs.declared.certifying_from.CertifyFromFault.TheVariants.{Write};

    ghost from_gives = { λ _ fault. fault ≡ Write };

    fn from(_: Failed) -> Self {
        CertifyFromFault::Write
    }
}

impl From<AllocError> for CertifyFromFault {
    ghost use Rattle.encoder.specs.declared.certifying_from.CertifyFromFault.TheVariants.{NoMemory};

    ghost from_gives = { λ _ fault. fault ≡ NoMemory };

    fn from(_: AllocError) -> Self {
        CertifyFromFault::NoMemory
    }
}

// Reads the blocks, and writes the rows of coefficients of each before it reads the next. There is
// room for the bytes and for the rows of the greatest block, and `work` is room to work in.
fn write_rows<R: Read, W: Write>(
    reader: &mut R,
    fti: &Fti,
    interpolators: &BlockCodes,
    sources: &mut [u8],
    rows: &mut [u8],
    work: &mut [u8],
    writer: &mut W,
) -> Result<(), CertifyFromFault>
    requires interpolators { EachBlockHas (IsInterpolatorOf fti.now) fti.now interpolators.now }
    requires sources { length sources.old ≡ source_count fti.now 0 * fti.now.symbol_length }
    requires room { length rows.old ≡ source_count fti.now 0 * fti.now.symbol_length }
    requires work { IsRoom fti.now work.old }
    ensures ok { OnOk result (HasRead fti.now (block_count fti.now)
        (R.remaining reader.old) (R.remaining reader.new)
        (λ object. WritesRows object fti.now (block_count fti.now)
        (W.contents writer.old) (W.contents writer.new))) }
    ensures err { OnErr result (ReadsSome fti.now (R.remaining reader.old)
        (λ object. BeginsRows object fti.now []
        (W.contents writer.old) (W.contents writer.new))) }
    ensures fault { IfErr result (λ e. IsRowsFault e fti.now (R.remaining reader.old)
        (R.sound reader.old) (R.failed reader.new) (W.failed writer.new)) }
    ensures full { IfErr result (λ e. e ≡ CertifyFromFault.Write
        → W.room writer.old < coefficient_count fti.now) }
    ensures stays { R.sound reader.new ≡ R.sound reader.old }
{
    for b in 0..fti.block_count() {
        let block = &mut sources[..fti.block_bytes(b)];
        read_block(reader, block)?;
        write_block(block, fti, b, interpolators, rows, work, writer)?;
    }
    Ok(())
}

/// Reads the object, all up to the reader's end, and writes what `certify_to` writes of it. One
/// block is held at a time: memory is asked for two matrices at most, for the bytes and the rows of
/// the greatest block, and for room to work in as `certify` asks for it, and all of it before the
/// first byte is written.
///
/// `Object` tells that the object has another length than the FTI's, or that the reader has failed,
/// which a sound one never does; `Write` comes only where the writer has failed, and never where it
/// has room for the text. A beginning of the text was written then, of each object of the FTI's
/// length that begins with the blocks that were read, and nothing with `NoMemory`. The identity's
/// TSI is below 2^48, its TOI below 2^112 (RFC 5651, section 5.1).
pub fn certify_from<R: Read, W: Write>(
    alloc: Global,
    reader: &mut R,
    fti: &Fti,
    identity: Identity,
    writer: &mut W,
) -> Result<(), CertifyFromFault>
    requires { IsIdentity identity }
    ensures certified { OnOk result (ReadsObject fti.now (R.remaining reader.old)
        (λ object. IsCertifiedTo object fti.now identity
        (W.contents writer.old) (W.contents writer.new))) }
    ensures end { OnOk result (IsAtEnd (R.remaining reader.new)) }
    ensures fault { IfErr result (λ e. IsCertifyFromFault e fti.now identity
        (reader_change R.Read reader.old reader.new)
        (writer_change W.Write writer.old writer.new)) }
    ensures full { IfErr result (λ e. e ≡ CertifyFromFault.Write → W.room writer.old
        < length (head_text (Some identity) fti.now) + coefficient_count fti.now) }
{
    let interpolators = BlockCodes::new(alloc, Kind::Interpolator, fti)?;
    let size = usize::from(fti.symbol_length());
    let most = fti.k(0) * size;
    let mut sources = Vec::from_elem(alloc, 0u8, most)?;
    let mut rows = Vec::from_elem(alloc, 0u8, most)?;
    let mut work = Vec::from_elem(alloc, 0u8, room(fti))?;
    write_head(writer, &Some(identity), fti)?;
    write_rows(
        reader,
        fti,
        &interpolators,
        &mut sources,
        &mut rows,
        &mut work,
        writer,
    )?;
    read_end(reader)?;
    Ok(())
}
