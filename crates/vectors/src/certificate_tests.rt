//! Certificates and twins. What is no certificate stands in transcripts.
ghost use Rattle.std.specs.Prelude.{◌<◌};
ghost use Rattle.certificate.specs.Certificate.{IsIdentity};

use crate::{ONE, is_shown_as};
use cert::twin;
use certificate::{CertFault, Certificate, one_certificate};
use partition::{Fti, FtiError};
use reception::Identity;
use session::{Pieces, Sink};
use std::alloc::{AllocError, Global};
use std::test::Fail;

fn read(alloc: Global, bytes: &[u8]) -> Result<Certificate, CertFault> {
    Certificate::read(alloc, &mut Pieces::new(bytes, 5))
}

/// Whether the certificate's file has these bytes.
pub(crate) fn has_text(alloc: Global, certificate: &Certificate, bytes: &[u8]) -> bool {
    let mut sink = Sink::new(alloc);
    certificate.write(&mut sink).is_ok() && sink.bytes() == bytes
}

// FTI (3, 2, 2, 3): one block of two symbols of two bytes, the last byte being padding. By columns.
const TWO_COLUMNS: [u8; 18] = [
    0x52, 0x53, 0x43, 0x31, 0, 0, 0, 0, 0, 3, 0, 2, 2, 3, 0xF6, 0xF1, 0xFB, 0xF3,
];

// The certificate of FTI (3, 2, 2, 3) for TSI 1 and TOI 1, by rows.
const TWO_COLUMNS_NAMED: [u8; 38] = [
    0x52, 0x53, 0x43, 0x32, 0, 0, 0, 0, 0, 1, 0, 0, 0, 0, 0, 0, 0, 0, 0, 0, 0, 0, 0, 1, 0, 0, 0, 0,
    0, 3, 0, 2, 2, 3, 0xF6, 0xFB, 0xF1, 0xF3,
];

// A TSI of six bytes FF and a TOI of fourteen.
const GREATEST: Identity = Identity {
    tsi: 0xFFFF_FFFF_FFFF,
    toi: 0xFFFF_FFFF_FFFF_FFFF_FFFF_FFFF_FFFF,
};

// The certificate of FTI (3, 2, 2, 3) for the greatest TSI and TOI, by rows.
const TWO_COLUMNS_OF_GREATEST: [u8; 38] = [
    0x52, 0x53, 0x43, 0x32, 0xFF, 0xFF, 0xFF, 0xFF, 0xFF, 0xFF, 0xFF, 0xFF, 0xFF, 0xFF, 0xFF, 0xFF,
    0xFF, 0xFF, 0xFF, 0xFF, 0xFF, 0xFF, 0xFF, 0xFF, 0, 0, 0, 0, 0, 3, 0, 2, 2, 3, 0xF6, 0xFB, 0xF1,
    0xF3,
];

// Whether the polynomial of a column has these coefficients, asked for one at a time and in their
// rows.
fn has_polynomial(certificate: &Certificate, b: u32, c: usize, polynomial: &[u8]) -> bool {
    let fti = certificate.fti();
    if b >= fti.block_count()
        || c >= usize::from(fti.symbol_length())
        || polynomial.len() != fti.k(b)
    {
        return false;
    }
    for i in 0..polynomial.len() {
        let coefficient = certificate.coefficient(b, c, i);
        if coefficient != polynomial[i] || certificate.row(b, i)[c] != coefficient {
            return false;
        }
    }
    true
}

// Whether coefficient `i` of each column of block 0 stands in this row.
fn has_row(certificate: &Certificate, i: usize, row: &[u8]) -> bool {
    let fti = certificate.fti();
    0 < fti.block_count() && i < fti.k(0) && certificate.row(0, i) == row
}

fn has_fti(certificate: &Certificate, l: u64, e: u16, b: u8, max_n: u8) -> bool {
    let fti = certificate.fti();
    fti.transfer_length() == l
        && fti.symbol_length() == e
        && fti.block_length() == b
        && fti.max_symbols() == max_n
}

// Whether it is the certificate of `TWO_COLUMNS`, with this name or none, and is written so.
fn is_two_columns(
    alloc: Global,
    certificate: &Certificate,
    name: Option<Identity>,
    text: &[u8],
) -> bool {
    has_fti(certificate, 3, 2, 2, 3)
        && certificate.name() == name
        && has_polynomial(certificate, 0, 0, &[0xF6, 0xF1])
        && has_polynomial(certificate, 0, 1, &[0xFB, 0xF3])
        && has_row(certificate, 0, &[0xF6, 0xFB])
        && has_row(certificate, 1, &[0xF1, 0xF3])
        && has_text(alloc, certificate, text)
}

// Whether a file in pieces is read as that certificate, with this name or none.
fn reads_two_columns(alloc: Global, text: &[u8], most: usize, name: Option<Identity>) -> bool
    requires { 0 < most }
{
    match Certificate::read(alloc, &mut Pieces::new(text, most)) {
        Ok(certificate) => is_two_columns(alloc, &certificate, name, text),
        Err(_) => false,
    }
}

// Each text tells the same in pieces of any size.
#[test]
fn in_pieces(rt: HostRuntime) {
    for (text, name) in [
        (&TWO_COLUMNS[..], None),
        (&TWO_COLUMNS_NAMED, Some(ONE)),
        (&TWO_COLUMNS_OF_GREATEST, Some(GREATEST)),
    ] {
        for most in [1, 5, 100usize] {
            let right = reads_two_columns(rt.alloc(), text, most, name);
            assert!(rt; right, "in pieces of {most}");
        }
    }
}

// Whether the certificate of two columns, given a name, has this text.
fn is_named_as(alloc: Global, certificate: &Certificate, name: Identity, text: &[u8]) -> bool
    requires { IsIdentity name }
{
    match certificate.named(alloc, name) {
        Ok(named) => is_two_columns(alloc, &named, Some(name), text),
        Err(_) => false,
    }
}

// Whether the certificate of two columns, given a name without a copy, has this text.
fn is_turned_into(alloc: Global, certificate: Certificate, name: Identity, text: &[u8]) -> bool
    requires { IsIdentity name }
{
    match certificate.into_named(name) {
        Ok(named) => is_two_columns(alloc, &named, Some(name), text),
        Err(_) => false,
    }
}

// A name comes in front and the rows one behind the other. A certificate takes its own name again.
#[test]
fn named(rt: HostRuntime) -> Result<(), Fail> {
    let alloc = rt.alloc();
    for (text, greatest, named_text) in [
        (&TWO_COLUMNS[..], false, TWO_COLUMNS_NAMED),
        (&TWO_COLUMNS, true, TWO_COLUMNS_OF_GREATEST),
        (&TWO_COLUMNS_NAMED, false, TWO_COLUMNS_NAMED),
    ] {
        let name = if greatest { GREATEST } else { ONE };
        let certificate = read(alloc, text)?;
        assert!(rt; is_named_as(alloc, &certificate, name, &named_text));
        assert!(rt; is_turned_into(alloc, certificate, name, &named_text));
    }
    Ok(())
}

// Why the certificate takes no such name, if it doesn't.
fn naming_fault(alloc: Global, certificate: &Certificate, name: Identity) -> Option<CertFault>
    requires { IsIdentity name }
{
    match certificate.named(alloc, name) {
        Ok(_) => None,
        Err(fault) => Some(fault),
    }
}

fn turning_fault(certificate: Certificate, name: Identity) -> Option<CertFault>
    requires { IsIdentity name }
{
    match certificate.into_named(name) {
        Ok(_) => None,
        Err(fault) => Some(fault),
    }
}

// It takes no other: neither the TSI nor the TOI alone makes it the same.
#[test]
fn named_otherwise(rt: HostRuntime) -> Result<(), Fail> {
    let alloc = rt.alloc();
    let anothers = Some(CertFault::OtherIdentity);
    for (tsi, toi) in [(1, 2), (2, 1)] {
        let other = Identity { tsi, toi };
        let certificate = read(alloc, &TWO_COLUMNS_NAMED)?;
        assert!(rt;
            naming_fault(alloc, &certificate, other) == anothers,
            "{tsi} {toi}"
        );
        // It has its own name still.
        let right = is_two_columns(alloc, &certificate, Some(ONE), &TWO_COLUMNS_NAMED);
        assert!(rt; right, "{tsi} {toi}");
        assert!(rt;
            turning_fault(certificate, other) == anothers,
            "{tsi} {toi}"
        );
    }
    Ok(())
}

#[test]
fn three_blocks(rt: HostRuntime) -> Result<(), Fail> {
    one_certificate();
    let certificate = read(
        rt.alloc(),
        &[
            0x52, 0x53, 0x43, 0x31, 0, 0, 0, 0, 0, 0x0A, 0, 1, 4, 6, 0, 0, 0, 1, 0, 1, 0, 0, 0, 1,
        ],
    )?;
    assert!(rt; has_fti(&certificate, 10, 1, 4, 6));
    assert!(rt; has_polynomial(&certificate, 0, 0, &[0, 0, 0, 1]));
    assert!(rt; has_polynomial(&certificate, 1, 0, &[0, 1, 0]));
    assert!(rt; has_polynomial(&certificate, 2, 0, &[0, 0, 1]));
    Ok(())
}

// The certificate that is made of rows of coefficients.
fn of_rows(alloc: Global, fti: Fti, rows: &[u8]) -> Result<Option<Certificate>, AllocError> {
    match rows.to_vec(alloc) {
        Ok(rows) => Ok(Certificate::from_parts(fti, rows)),
        Err(error) => Err(error),
    }
}

// Whether it is of three blocks and has no name, these polynomials in columns 1, 0 and 1, and this
// text.
fn is_of_three(alloc: Global, certificate: &Certificate, text: &[u8]) -> bool {
    certificate.name().is_none()
        && has_polynomial(certificate, 0, 1, &[2, 4, 6, 8])
        && has_polynomial(certificate, 1, 0, &[9, 11, 13])
        && has_polynomial(certificate, 2, 1, &[16, 18, 20])
        && has_text(alloc, certificate, text)
}

fn makes_three(alloc: Global, fti: Fti, rows: &[u8], text: &[u8]) -> Result<bool, AllocError> {
    match of_rows(alloc, fti, rows) {
        Ok(Some(certificate)) => Ok(is_of_three(alloc, &certificate, text)),
        Ok(None) => Ok(false),
        Err(error) => Err(error),
    }
}

// Whether a certificate that is read of this file and given the name has this text.
fn is_read_and_named(alloc: Global, file: &[u8], text: &[u8]) -> Result<bool, CertFault> {
    match read(alloc, file)?.into_named(ONE) {
        Ok(named) => Ok(has_text(alloc, &named, text)),
        Err(fault) => Err(fault),
    }
}

// Blocks of 4, 3 and 3 rows of two bytes: a text without a name has each block by columns, ...
const BY_COLUMNS: [u8; 34] = [
    0x52, 0x53, 0x43, 0x31, 0, 0, 0, 0, 0, 20, 0, 2, 4, 6, 1, 3, 5, 7, 2, 4, 6, 8, 9, 11, 13, 10,
    12, 14, 15, 17, 19, 16, 18, 20,
];

// ... and one with a name has the rows.
const BY_ROWS: [u8; 54] = [
    0x52, 0x53, 0x43, 0x32, 0, 0, 0, 0, 0, 1, 0, 0, 0, 0, 0, 0, 0, 0, 0, 0, 0, 0, 0, 1, 0, 0, 0, 0,
    0, 20, 0, 2, 4, 6, 1, 2, 3, 4, 5, 6, 7, 8, 9, 10, 11, 12, 13, 14, 15, 16, 17, 18, 19, 20,
];

#[test]
fn three_blocks_of_two_columns(rt: HostRuntime) -> Result<(), Fail> {
    let fti = Fti::new(20, 2, 4, 6)?;
    assert!(rt; makes_three(rt.alloc(), fti, &BY_ROWS[34..], &BY_COLUMNS)?);
    assert!(rt; is_read_and_named(rt.alloc(), &BY_COLUMNS, &BY_ROWS)?);
    assert!(rt; is_read_and_named(rt.alloc(), &BY_ROWS, &BY_ROWS)?, "again");
    Ok(())
}

// There have to be as many coefficients as source symbols.
#[test]
fn parts(rt: HostRuntime) -> Result<(), Fail> {
    let fti = Fti::new(2, 1, 2, 3)?;
    for count in 0..4usize {
        let made = of_rows(rt.alloc(), fti, &[1; 4][..count])?;
        assert!(rt; made.is_some() == (count == 2), "{count}");
    }
    Ok(())
}

fn makes_two_columns(alloc: Global, fti: Fti, rows: &[u8]) -> Result<bool, AllocError> {
    match of_rows(alloc, fti, rows) {
        Ok(Some(certificate)) => Ok(is_two_columns(alloc, &certificate, None, &TWO_COLUMNS)),
        Ok(None) => Ok(false),
        Err(error) => Err(error),
    }
}

// Parts are rows, and the text has columns.
#[test]
fn parts_of_two_columns(rt: HostRuntime) -> Result<(), Fail> {
    let rows = [0xF6, 0xFB, 0xF1, 0xF3];
    let fti = Fti::new(3, 2, 2, 3)?;
    assert!(rt; makes_two_columns(rt.alloc(), fti, &rows)?);
    Ok(())
}

#[test]
fn texts(rt: HostRuntime) -> Result<(), Fail> {
    for (fault, text) in [
        (CertFault::Magic, "Z1 Magic"),
        (CertFault::Fti(FtiError::BlockZero), "Z2 Fti F4 BlockZero"),
        (CertFault::Size, "Z3 Size"),
        (CertFault::Io, "Z4 Io"),
        (CertFault::NoMemory, "Z5 NoMemory"),
        (CertFault::OtherIdentity, "Z6 OtherIdentity"),
    ] {
        assert!(rt; is_shown_as(rt.alloc(), fault, text)?, "{text}");
    }
    Ok(())
}

// Whether this is the twin of an object of one block, where these ESIs are held and are too few.
#[tactic(auto, using(crate::proofs::Few::different_few))]
fn has_twin(
    alloc: Global,
    fti: &Fti,
    object: &[u8],
    held: &[u8],
    other: &[u8],
) -> Result<bool, AllocError> {
    if fti.block_count() == 0
        || object.len() as u64 != fti.transfer_length()
        || held.len() >= fti.k(0)
    {
        return Ok(false);
    }
    match twin(alloc, object, fti, 0, held) {
        Ok(twin) => Ok(twin.as_slice() == other),
        Err(error) => Err(error),
    }
}

#[test]
fn twins(rt: HostRuntime) -> Result<(), Fail> {
    let padded = Fti::new(3, 2, 2, 3)?;
    assert!(rt; has_twin(rt.alloc(), &padded, &[7, 8, 9], &[0], &[7, 8, 0x0A])?);
    let pair = Fti::new(2, 1, 2, 3)?;
    assert!(rt; has_twin(rt.alloc(), &pair, &[1, 2], &[2], &[4, 4])?);
    assert!(rt; has_twin(rt.alloc(), &pair, &[1, 2], &[], &[0, 3])?);
    assert!(rt; has_twin(rt.alloc(), &pair, &[1, 2], &[0], &[1, 1])?);
    Ok(())
}
