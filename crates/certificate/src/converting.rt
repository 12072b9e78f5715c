//! A certificate's file that is given a name, block by block.
ghost use Rattle.std.specs.Prelude.{◌≡◌, ◌≢◌, ◌<◌, ◌*◌, false, length, IfOk, IfErr, OnOk};
ghost use Rattle.std.specs.Prelude.{OnErr, IfSome};
ghost use Rattle.std.specs.Io.KnownBytes.{Consumes, IsAtEnd};
ghost use Rattle.lists.specs.Bytes.{AreBytes};
ghost use Rattle.partition.specs.Fti.{block_count};
ghost use Rattle.certificate.specs.Certificate.{IsIdentity};
ghost use Rattle.certificate.specs.CertificateReading.{IsReadFault};
ghost use Rattle.certificate.specs.Converting.{IsConverted, BeginsConverted, IsConvertFault};
ghost use Rattle.certificate.specs.Converting.{IsBeforeAll};
ghost use Rattle.certificate.specs.ConvertingBlocks.{AreBlockRows, Converts, ConvertsSome};
ghost use Rattle.certificate.specs.ConvertingBlocks.{IsBlockFault};

use crate::certificate::{CertFault, coefficients_of, is_for};
use crate::column_text::turn_front;
use crate::head::{Head, read_head, write_head};
use lists::are_bytes;
use partition::Fti;
use reception::Identity;
use session::{Failed, Read, Write, fill, write_all};
use std::alloc::Global;
use thiserror::Error;

/// Why a certificate's file wasn't converted.
#[derive(Debug, Clone, Copy, PartialEq, Eq, Error)]
pub enum ConvertFault {
    /// What was read isn't a certificate, or is one with another name; or the reader has failed, or
    /// memory lacks.
    #[error(transparent)]
    Certificate(CertFault),
    /// The writer has failed.
    #[error("Z4 Io")]
    Write,
}

impl From<CertFault> for ConvertFault {
    ghost use Rattle.certificate.specs.declared.converting.ConvertFault.TheVariants.{Certificate};

    ghost from_gives = { λ e fault. fault ≡ Certificate e };

    fn from(e: CertFault) -> Self {
        ConvertFault::Certificate(e)
    }
}

impl From<Failed> for ConvertFault {
    ghost use Rattle.certificate.specs.declared.converting.ConvertFault.TheVariants.{Write};

    ghost from_gives = { λ _ fault. fault ≡ Write };

    fn from(_: Failed) -> Self {
        ConvertFault::Write
    }
}

// The next bytes, so many. They are read piece by piece, so that memory grows with what comes.
fn read_block<R: Read>(alloc: Global, reader: &mut R, count: usize) -> Result<Vec<u8>, CertFault>
    ensures ok { IfOk result (λ v.
        Consumes (R.remaining reader.old) (R.remaining reader.new) v.items) }
    ensures count { IfOk result (λ v. length v.items ≡ count) }
    ensures size { IfErr result (λ e.
        e ≡ CertFault.Size → IfSome (R.remaining reader.old) (λ x. length x < count)) }
    ensures fault { IfErr result (λ e. IsReadFault e (R.failed reader.new)) }
    ensures unsound { IfErr result (λ e. e ≡ CertFault.Io → R.sound reader.old ≡ false) }
    ensures stays { R.sound reader.new ≡ R.sound reader.old }
{
    let mut bytes = Vec::new(alloc);
    let mut piece = [0u8; 4096];
    while bytes.len() < count {
        let most = piece.len().min(count - bytes.len());
        let Ok(got) = fill(reader, &mut piece[..most]) else {
            return Err(CertFault::Io);
        };
        let Ok(()) = bytes.extend_from_slice(&piece[..got]) else {
            return Err(CertFault::NoMemory);
        };
        if got < most {
            return Err(CertFault::Size);
        }
    }
    Ok(bytes)
}

// All bytes up to the end are read and dropped. There have to be so many.
fn pass_over<R: Read>(reader: &mut R, count: u64) -> Result<(), CertFault>
    ensures ok { OnOk result
        (IfSome (R.remaining reader.old) (λ x. AreBytes x × (length x ≡ count))) }
    ensures end { OnOk result (IsAtEnd (R.remaining reader.new)) }
    ensures size { IfErr result (λ e.
        e ≡ CertFault.Size → IfSome (R.remaining reader.old) (λ x. length x ≢ count)) }
    ensures fault { IfErr result (λ e. IsReadFault e (R.failed reader.new)) }
    ensures unsound { IfErr result (λ e. e ≡ CertFault.Io → R.sound reader.old ≡ false) }
{
    let mut piece = [0u8; 4096];
    let mut left = count;
    loop {
        let Ok(got) = fill(reader, &mut piece) else {
            return Err(CertFault::Io);
        };
        are_bytes(&piece[..got]);
        if got as u64 > left {
            return Err(CertFault::Size);
        }
        left -= got as u64;
        if got < piece.len() {
            return if left == 0 {
                Ok(())
            } else {
                Err(CertFault::Size)
            };
        }
    }
}

// A block's rows of coefficients, by its bytes in a file with this name, or without one.
fn block_rows(
    alloc: Global,
    name: &Option<Identity>,
    told: Vec<u8>,
    count: usize,
    width: usize,
) -> Result<Vec<u8>, CertFault>
    requires { length told.items ≡ count * width }
    ensures len { IfOk result (λ v. length v.items ≡ count * width) }
    ensures bytes { IfOk result (λ v. AreBytes v.items) }
    ensures rows { IfOk result (λ v. AreBlockRows name.now count width told.items v.items) }
    ensures fault { IfErr result (λ e. e ≡ CertFault.NoMemory) }
{
    let rows = match name {
        Some(_) => told,
        None => {
            let Ok(mut rows) = Vec::from_elem(alloc, 0u8, told.len()) else {
                return Err(CertFault::NoMemory);
            };
            turn_front(&mut rows, &told, count, width);
            rows
        }
    };
    are_bytes(rows.as_slice());
    Ok(rows)
}

// Reads the coefficients behind this head, and writes them row by row.
fn convert_blocks<R: Read, W: Write>(
    alloc: Global,
    head: &Head,
    reader: &mut R,
    writer: &mut W,
) -> Result<(), ConvertFault>
    ensures ok { OnOk result (Converts head.now.name head.now.fti (block_count head.now.fti)
        (R.remaining reader.old) (R.remaining reader.new)
        (W.contents writer.old) (W.contents writer.new)) }
    ensures begun { OnErr result (ConvertsSome head.now.name head.now.fti
        (R.remaining reader.old) (W.contents writer.old) (W.contents writer.new)) }
    ensures fault { IfErr result (λ e. IsBlockFault e head.now.fti
        (R.remaining reader.old) (R.failed reader.new)
        (W.room writer.old) (W.failed writer.new)) }
    ensures unsound { IfErr result (λ e.
        e ≡ ConvertFault.Certificate CertFault.Io → R.sound reader.old ≡ false) }
    ensures stays { R.sound reader.new ≡ R.sound reader.old }
{
    let width = usize::from(head.fti.symbol_length());
    for b in 0..head.fti.block_count() {
        let count = head.fti.k(b);
        let told = read_block(alloc, reader, count * width)?;
        let rows = block_rows(alloc, &head.name, told, count, width)?;
        write_all(writer, rows.as_slice())?;
    }
    Ok(())
}

/// Reads the text of a certificate, up to the reader's end, and writes the text that it has with
/// this name. The answer is its FTI.
///
/// One block is held at a time, its bytes and where there was no name its rows beside them, and
/// memory grows with the bytes that come, never with what the first ones claim.
///
/// `OtherIdentity` comes where the certificate has another name, and only then. The other faults of
/// reading tell why there is none, and `Write` that the writer has failed, which it never has where
/// there is room for the bytes that are left to read and twenty more. With `Magic`, `Fti` and
/// `OtherIdentity` nothing was written. `Size`, too few bytes or too many, is only told once they
/// have come, behind what was written of them. At each fault what was written begins the text, with
/// this name, of every certificate that what was left to read can be: one whose text is the same as
/// far as both go. So no byte is written that doesn't follow from what was left.
///
/// The identity's TSI is below 2^48, its TOI below 2^112 (RFC 5651, section 5.1).
pub fn convert<R: Read, W: Write>(
    alloc: Global,
    reader: &mut R,
    writer: &mut W,
    identity: Identity,
) -> Result<Fti, ConvertFault>
    requires { IsIdentity identity }
    ensures converted { IfOk result (λ f. IsConverted identity f (R.remaining reader.old)
        (W.contents writer.old) (W.contents writer.new)) }
    // At a fault, a beginning of that.
    ensures begun { OnErr result (BeginsConverted identity (R.remaining reader.old)
        (W.contents writer.old) (W.contents writer.new)) }
    ensures end { OnOk result (IsAtEnd (R.remaining reader.new)) }
    ensures fault { IfErr result (λ e. IsConvertFault e identity
        (R.remaining reader.old) (R.failed reader.new)
        (W.room writer.old) (W.failed writer.new)) }
    ensures unsound { IfErr result (λ e.
        e ≡ ConvertFault.Certificate CertFault.Io → R.sound reader.old ≡ false) }
    ensures untouched { IfErr result (λ e.
        IsBeforeAll e → W.contents writer.new ≡ W.contents writer.old) }
{
    let head = read_head(reader)?;
    let count = coefficients_of(&head.fti);
    if !is_for(&identity, &head.name) {
        pass_over(reader, count)?;
        return Err(ConvertFault::Certificate(CertFault::OtherIdentity));
    }
    write_head(writer, &Some(identity), &head.fti)?;
    convert_blocks(alloc, &head, reader, writer)?;
    pass_over(reader, 0)?;
    Ok(head.fti)
}
