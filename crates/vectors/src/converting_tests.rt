//! Certificates that are written, read and converted block by block.
ghost use Rattle.std.specs.Prelude.{◌<◌};

use crate::ONE;
use crate::certificate_tests::has_text;
use certificate::{CertFault, Certificate, ConvertFault, convert};
use coder::{certify, certify_from, certify_to};
use partition::{Fti, FtiError};
use reception::Identity;
use session::{Pieces, Read, Sink, fill};
use std::alloc::{AllocError, Global};
use std::test::Fail;

const ANOTHER: Identity = Identity { tsi: 1, toi: 2 };

/// How many bytes the object has.
pub(crate) const LENGTH: usize = 100003;

/// An object of 28 blocks, one of 97 source symbols, the others of 96 or 97, the last symbol cut;
/// and a byte behind it.
pub(crate) fn object_and_more(alloc: Global) -> Result<Vec<u8>, AllocError> {
    let mut object = Vec::new(alloc);
    for i in 0..100003u64 {
        object.push((i * 37 % 251) as u8)?;
    }
    object.push(0)?;
    Ok(object)
}

/// The first bytes, or all where there are fewer.
pub(crate) fn front(bytes: &[u8], length: usize) -> &[u8] {
    bytes.split_at(length.min(bytes.len())).0
}

pub(crate) fn fti() -> Result<Fti, FtiError> {
    Fti::new(100003, 37, 100, 200)
}

/// Whether nothing is left of what was read.
pub(crate) fn is_at_end<R: Read>(reader: &mut R) -> bool {
    let mut byte = [0u8; 1];
    fill(reader, &mut byte) == Ok(0)
}

/// Whether an object's certificate that is written block by block is this, and so is one whose
/// object is read block by block.
pub(crate) fn is_certified_so(
    alloc: Global,
    object: &[u8],
    fti: &Fti,
    most: usize,
    text: &[u8],
) -> bool
    requires { 0 < most }
{
    let mut reader = Pieces::new(object, most);
    certifies_to(alloc, object, fti, text)
        && certifies_from(alloc, &mut reader, fti, text)
        && is_at_end(&mut reader)
}

fn certifies_to(alloc: Global, object: &[u8], fti: &Fti, text: &[u8]) -> bool {
    let mut sink = Sink::new(alloc);
    certify_to(alloc, object, fti, ONE, &mut sink).is_ok() && sink.bytes() == text
}

fn certifies_from(alloc: Global, reader: &mut Pieces<'_>, fti: &Fti, text: &[u8]) -> bool {
    let mut sink = Sink::new(alloc);
    certify_from(alloc, reader, fti, ONE, &mut sink).is_ok() && sink.bytes() == text
}

// The bytes of a certificate's file.
fn bytes_of(alloc: Global, certificate: &Certificate) -> Result<Vec<u8>, CertFault> {
    let mut sink = Sink::new(alloc);
    match certificate.write(&mut sink) {
        Ok(()) => Ok(sink.into_bytes()),
        Err(fault) => Err(fault),
    }
}

fn certificate(alloc: Global) -> Result<Certificate, Fail> {
    let object = object_and_more(alloc)?;
    Ok(certify(alloc, front(&object, LENGTH), &fti()?)?)
}

// The file of the object's certificate, without a name.
fn plain_file(alloc: Global) -> Result<Vec<u8>, Fail> {
    let certificate = certificate(alloc)?;
    Ok(bytes_of(alloc, &certificate)?)
}

// The file of the object's certificate, with the name.
fn named_file(alloc: Global) -> Result<Vec<u8>, Fail> {
    let certificate = certificate(alloc)?.into_named(ONE)?;
    Ok(bytes_of(alloc, &certificate)?)
}

#[test]
fn certified_block_by_block(rt: HostRuntime) -> Result<(), Fail> {
    let whole = named_file(rt.alloc())?;
    let object = object_and_more(rt.alloc())?;
    let object = front(&object, LENGTH);
    assert!(rt; is_certified_so(rt.alloc(), object, &fti()?, 1000, &whole));
    Ok(())
}

// Blocks of one symbol, and a last symbol of one byte.
#[test]
fn smallest_blocks_certified(rt: HostRuntime) -> Result<(), Fail> {
    let text = [
        0x52, 0x53, 0x43, 0x32, 0, 0, 0, 0, 0, 1, 0, 0, 0, 0, 0, 0, 0, 0, 0, 0, 0, 0, 0, 1, 0, 0,
        0, 0, 0, 5, 0, 2, 1, 3, 1, 2, 3, 4, 5, 0,
    ];
    let fti = Fti::new(5, 2, 1, 3)?;
    assert!(rt; is_certified_so(rt.alloc(), &[1, 2, 3, 4, 5], &fti, 3, &text));
    Ok(())
}

// Whether `convert` makes this of a file that comes in pieces.
fn converts_to(alloc: Global, file: &[u8], wanted: &[u8]) -> bool {
    let mut sink = Sink::new(alloc);
    let made = convert(alloc, &mut Pieces::new(file, 1000), &mut sink, ONE);
    made.is_ok() && sink.bytes() == wanted
}

#[test]
fn converted_block_by_block(rt: HostRuntime) -> Result<(), Fail> {
    let plain = plain_file(rt.alloc())?;
    let whole = named_file(rt.alloc())?;
    assert!(rt; converts_to(rt.alloc(), &plain, &whole));
    assert!(rt; converts_to(rt.alloc(), &whole, &whole), "again");
    Ok(())
}

// Whether `convert` refuses a file so, asked for another name, and nothing is written.
fn is_refused(alloc: Global, file: &[u8], wanted: CertFault) -> bool {
    let mut sink = Sink::new(alloc);
    match convert(alloc, &mut Pieces::new(file, 5000), &mut sink, ANOTHER) {
        Ok(_) => false,
        Err(fault) => fault == ConvertFault::Certificate(wanted) && sink.bytes().is_empty(),
    }
}

// Another's file is told once it is counted.
#[test]
fn anothers_file(rt: HostRuntime) -> Result<(), Fail> {
    let mut file = named_file(rt.alloc())?;
    assert!(rt; is_refused(rt.alloc(), &file, CertFault::OtherIdentity));
    let half = front(&file, file.len() / 2);
    assert!(rt; is_refused(rt.alloc(), half, CertFault::Size), "half of it");
    file.push(0)?;
    assert!(rt;
        is_refused(rt.alloc(), &file, CertFault::Size),
        "a byte more"
    );
    Ok(())
}
