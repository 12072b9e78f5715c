//! The certificate of an object: the polynomial of each byte column of each block.
ghost use Rattle.std.specs.Prelude.{◌≡◌, ◌<◌, ◌≤◌, ◌+◌, ◌*◌, ℕ, List, [], true, Some, None, IfOk};
ghost use Rattle.std.specs.Prelude.{IfErr, OnOk, OnErr, length, slice_index};
ghost use Rattle.lists.specs.Bytes.{AreBytes};
ghost use Rattle.partition.specs.Fti.{block_count, source_count, start_of};
ghost use Rattle.certificate.specs.Certificate.{IsIdentity, coefficient_count, unnamed, head_text};
ghost use Rattle.cert.specs.Verdict.{GivesObject, GivesBlock};
ghost use Rattle.block_code.specs.Codes.{EachBlockHas};
ghost use Rattle.block_code.specs.CodesOf.{IsInterpolatorOf};
ghost use Rattle.encoder.specs.AllValues.{IsRoom};
ghost use Rattle.encoder.specs.Certified.{CertifiesSent, BeginsRows, IsCertifiedTo, IsCertifyFault};
ghost use Rattle.encoder.specs.Certified.{IsCertifyToFault};
ghost use Rattle.encoder.specs.Rows.{AreSourcesOf};
ghost use Rattle.encoder.specs.RowsWritten.{RowsGive, WritesRows, WritesBlock, BeginsBlock};

use crate::by_values::{certify_by_values, room};
use crate::rows::{block_of, combine};
use block_code::{BlockCodes, Code, Kind, LEAST_BY_VALUES};
use certificate::{Certificate, write_head};
use lists::are_bytes;
use partition::Fti;
use reception::Identity;
use session::{Failed, Write, write_all};
use std::alloc::Global;
use thiserror::Error;

/// Why an object wasn't certified.
#[derive(Debug, Clone, Copy, PartialEq, Eq, Error)]
pub enum CertifyFault {
    /// The object hasn't the FTI's transfer length.
    #[error("O1 Length")]
    Length,
    /// The writer has failed: of `certify_to` alone.
    #[error("O3 Io")]
    Io,
    #[error("O4 NoMemory")]
    NoMemory,
}

// The matrices that make coefficients of the object's source symbols.
fn interpolators(alloc: Global, object: &[u8], fti: &Fti) -> Result<BlockCodes, CertifyFault>
    ensures each { IfOk result (EachBlockHas (IsInterpolatorOf fti.now) fti.now) }
    ensures whole { OnOk result (length object.now ≡ fti.now.transfer_length) }
    ensures fault { IfErr result (λ e. IsCertifyFault e object.now fti.now) }
{
    if object.len() as u64 != fti.transfer_length() {
        return Err(CertifyFault::Length);
    }
    match BlockCodes::new(alloc, Kind::Interpolator, fti) {
        Ok(interpolators) => Ok(interpolators),
        Err(_) => Err(CertifyFault::NoMemory),
    }
}

// Makes a block's rows of coefficients of its source symbols, from the constant ones on.
fn certify_block(
    sources: &[u8],
    fti: &Fti,
    b: u32,
    interpolator: &Code,
    rows: &mut [u8],
    work: &mut [u8],
)
    requires block { b < block_count fti.now }
    requires interpolator { IsInterpolatorOf fti.now b interpolator.now.matrix }
    requires room { length rows.old ≡ source_count fti.now b * fti.now.symbol_length }
    requires work { IsRoom fti.now work.old }
    ensures len { length rows.new ≡ length rows.old }
    ensures bytes { AreBytes rows.new }
    ensures gives { (object : List ℕ) → AreBytes object
        → AreSourcesOf fti.now object b sources.now → RowsGive object fti.now b rows.new }
{
    fti.is_valid();
    if fti.k(b) < LEAST_BY_VALUES {
        combine(sources, fti, b, &interpolator.columns, fti.k(b), rows);
        are_bytes(rows);
    } else {
        certify_by_values(sources, fti, b, interpolator, rows, work);
    }
}

// Puts a block's coefficients at their places.
fn put_block(
    object: &[u8],
    fti: &Fti,
    b: u32,
    interpolator: &Code,
    coefficients: &mut [u8],
    work: &mut [u8],
)
    requires block { b < block_count fti.now }
    requires interpolator { IsInterpolatorOf fti.now b interpolator.now.matrix }
    requires room { length coefficients.old ≡ coefficient_count fti.now }
    requires work { IsRoom fti.now work.old }
    ensures len { length coefficients.new ≡ length coefficients.old }
    ensures gives { GivesBlock object.now (unnamed fti.now coefficients.new) b }
    ensures before { (p : ℕ) → p < start_of fti.now b * fti.now.symbol_length
        → slice_index coefficients.new p ≡ slice_index coefficients.old p }
{
    let size = usize::from(fti.symbol_length());
    let from = fti.start(b) as usize * size;
    let rows = &mut coefficients[from..from + fti.k(b) * size];
    certify_block(block_of(object, fti, b), fti, b, interpolator, rows, work);
}

// Puts the coefficients of all blocks at their places.
fn certify_blocks(
    object: &[u8],
    fti: &Fti,
    interpolators: &BlockCodes,
    coefficients: &mut [u8],
    work: &mut [u8],
)
    requires interpolators { EachBlockHas (IsInterpolatorOf fti.now) fti.now interpolators.now }
    requires room { length coefficients.old ≡ coefficient_count fti.now }
    requires work { IsRoom fti.now work.old }
    ensures len { length coefficients.new ≡ length coefficients.old }
    ensures gives { GivesObject object.now (unnamed fti.now coefficients.new) }
{
    for b in 0..fti.block_count() {
        let interpolator = interpolators.of(fti.k(b));
        put_block(object, fti, b, interpolator, coefficients, work);
    }
}

/// The certificate of the object, without a name: one of each session that is sent of it, whatever
/// its TSI, TOI, order and carriers of the FTI, and so is its form with the session's TSI and TOI.
/// Memory is asked for two matrices at most, for the coefficients, and for 255 symbols to work in
/// where the greatest block has many source symbols (`block_code::LEAST_BY_VALUES`).
pub fn certify(alloc: Global, object: &[u8], fti: &Fti) -> Result<Certificate, CertifyFault>
    ensures fti { IfOk result (λ z. z.fti ≡ fti.now) }
    ensures name { IfOk result (λ z. z.name ≡ None) }
    ensures gives { IfOk result (GivesObject object.now) }
    ensures certifies { IfOk result (CertifiesSent object.now) }
    ensures whole { OnOk result (length object.now ≡ fti.now.transfer_length) }
    ensures fault { IfErr result (λ e. IsCertifyFault e object.now fti.now) }
{
    let interpolators = interpolators(alloc, object, fti)?;
    let size = usize::from(fti.symbol_length());
    let Ok(mut coefficients) = Vec::from_elem(alloc, 0u8, fti.symbol_count() as usize * size) else {
        return Err(CertifyFault::NoMemory);
    };
    let Ok(mut work) = Vec::from_elem(alloc, 0u8, room(fti)) else {
        return Err(CertifyFault::NoMemory);
    };
    certify_blocks(object, fti, &interpolators, &mut coefficients, &mut work);
    match Certificate::from_parts(*fti, coefficients) {
        Some(certificate) => Ok(certificate),
        None => unreachable!(),
    }
}

/// Makes a block's rows of coefficients of its source symbols, and writes them. `rows` has room for
/// those of the greatest block, and `work` is room to work in.
pub(crate) fn write_block<W: Write>(
    sources: &[u8],
    fti: &Fti,
    b: u32,
    interpolators: &BlockCodes,
    rows: &mut [u8],
    work: &mut [u8],
    writer: &mut W,
) -> Result<(), Failed>
    requires block { b < block_count fti.now }
    requires interpolators { EachBlockHas (IsInterpolatorOf fti.now) fti.now interpolators.now }
    requires room { length rows.old ≡ source_count fti.now 0 * fti.now.symbol_length }
    requires work { IsRoom fti.now work.old }
    ensures ok { (object : List ℕ) → AreBytes object
        → AreSourcesOf fti.now object b sources.now
        → OnOk result (WritesBlock object fti.now b
        (W.contents writer.old) (W.contents writer.new)) }
    ensures err { (object : List ℕ) → AreBytes object
        → AreSourcesOf fti.now object b sources.now
        → OnErr result (BeginsBlock object fti.now b
        (W.contents writer.old) (W.contents writer.new)) }
    ensures fails { OnErr result (W.failed writer.new ≡ true) }
    ensures full { OnErr result
        (W.room writer.old < source_count fti.now b * fti.now.symbol_length) }
    ensures fills { OnOk result
        (W.room writer.old ≤ W.room writer.new + source_count fti.now b * fti.now.symbol_length) }
{
    let count = fti.k(b);
    let block = &mut rows[..count * usize::from(fti.symbol_length())];
    certify_block(sources, fti, b, interpolators.of(count), block, work);
    write_all(writer, block)
}

// Writes the rows of coefficients of all blocks, one block behind the other. `rows` has room for
// those of the greatest, and `work` is room to work in.
fn write_rows<W: Write>(
    object: &[u8],
    fti: &Fti,
    interpolators: &BlockCodes,
    rows: &mut [u8],
    work: &mut [u8],
    writer: &mut W,
) -> Result<(), Failed>
    requires interpolators { EachBlockHas (IsInterpolatorOf fti.now) fti.now interpolators.now }
    requires room { length rows.old ≡ source_count fti.now 0 * fti.now.symbol_length }
    requires work { IsRoom fti.now work.old }
    ensures ok { OnOk result (WritesRows object.now fti.now (block_count fti.now)
        (W.contents writer.old) (W.contents writer.new)) }
    ensures err { OnErr result (BeginsRows object.now fti.now []
        (W.contents writer.old) (W.contents writer.new)) }
    ensures fails { OnErr result (W.failed writer.new ≡ true) }
    ensures full { OnErr result (W.room writer.old < coefficient_count fti.now) }
{
    for b in 0..fti.block_count() {
        write_block(
            block_of(object, fti, b),
            fti,
            b,
            interpolators,
            rows,
            work,
            writer,
        )?;
    }
    Ok(())
}

/// Writes the text of such a certificate, but with this name: the object's identity in a session.
/// The rows of one block are made at a time, so that beside the object memory is asked for two
/// matrices at most, for the rows of the greatest block and for room to work in as `certify` asks
/// for it, and all of it before the first byte is written.
///
/// `Io` comes only where the writer has failed, and never where it has room for the text. It has a
/// beginning of it then, and nothing after the other faults. The identity's TSI is below 2^48, its
/// TOI below 2^112 (RFC 5651, section 5.1).
pub fn certify_to<W: Write>(
    alloc: Global,
    object: &[u8],
    fti: &Fti,
    identity: Identity,
    writer: &mut W,
) -> Result<(), CertifyFault>
    requires { IsIdentity identity }
    ensures certified { OnOk result (IsCertifiedTo object.now fti.now identity
        (W.contents writer.old) (W.contents writer.new)) }
    ensures whole { OnOk result (length object.now ≡ fti.now.transfer_length) }
    ensures fault { IfErr result (λ e. IsCertifyToFault e object.now fti.now identity
        (W.contents writer.old) (W.contents writer.new) (W.failed writer.new)) }
    ensures full { IfErr result (λ e. e ≡ CertifyFault.Io → W.room writer.old
        < length (head_text (Some identity) fti.now) + coefficient_count fti.now) }
{
    let interpolators = interpolators(alloc, object, fti)?;
    let size = usize::from(fti.symbol_length());
    let Ok(mut rows) = Vec::from_elem(alloc, 0u8, fti.k(0) * size) else {
        return Err(CertifyFault::NoMemory);
    };
    let Ok(mut work) = Vec::from_elem(alloc, 0u8, room(fti)) else {
        return Err(CertifyFault::NoMemory);
    };
    let Ok(()) = write_head(writer, &Some(identity), fti) else {
        return Err(CertifyFault::Io);
    };
    let Ok(()) = write_rows(object, fti, &interpolators, &mut rows, &mut work, writer) else {
        return Err(CertifyFault::Io);
    };
    Ok(())
}
