//! A few lines on each crate that others may call, as the crate's own page has them.

use crate::fault::ExampleFault;
use crate::sending::{IDENTITY, OBJECT, fti, sent};
use alc::read;
use cert::Verdict;
use certificate::Certificate;
use coder::{certify, encode_from};
use elim::generator;
use evaluation::evaluate;
use file_check::{Files, check_files};
use file_decoder::index_file;
use gf256::add_products;
use inventory::Summary;
use partition::Fti;
use reception::{Look, Scope};
use session::{Pieces, Sink};
use std::alloc::Global;
use streams::{MemoryFile, read_to_end, write_all};

// Two rows of four bytes: the sum of two sources, and the first with twice the second.
fn sums() -> [u8; 8] {
    let sources = b"twofours";
    let mut sums = [0u8; 8];
    add_products(&mut sums, 2, &[1, 1, 1, 2], sources, 2, 4, 4);
    sums
}

// The values of 3 + 5 x at the first four points, a byte for each.
fn values() -> [u8; 4] {
    let mut values = [0u8; 4];
    evaluate(&mut values, 0, 4, &[3, 5], 2, 1);
    values
}

// How many encoding symbols five source symbols have by this matrix.
fn columns(alloc: Global) -> Result<usize, ExampleFault> {
    let code = generator(alloc, 5, 8)?;
    Ok(code.cols())
}

// What a writer took is read again, two bytes at a time.
fn copied(alloc: Global) -> Result<Vec<u8>, ExampleFault> {
    let mut file = Sink::new(alloc);
    write_all(&mut file, b"what is written")?;
    let mut reader = Pieces::new(file.bytes(), 2);
    Ok(read_to_end(alloc, &mut reader)?)
}

// What a datagram is, and what it is for one who asks for the identity's packets.
fn tell_datagram(rt: &HostRuntime, datagram: &[u8]) -> Result<(), ExampleFault> {
    match read(datagram) {
        Ok(packet) => println!(rt; "block {} symbol {}", packet.sbn, packet.esi)?,
        Err(fault) => println!(rt; "no packet: {fault}")?,
    }
    let mut scope = Scope::new(IDENTITY);
    match scope.look(datagram) {
        Ok(Look::InRange(packet)) => println!(rt; "of {} bytes", packet.symbol.len())?,
        Ok(Look::Other | Look::Early) => println!(rt; "passed over")?,
        Ok(wrong) => println!(rt; "{wrong:?}")?,
        Err(fault) => println!(rt; "no packet: {fault:?}")?,
    }
    Ok(())
}

// The object's certificate for the identity's packets, written and read again.
fn named_certificate(alloc: Global, file: &mut Sink) -> Result<Certificate, ExampleFault> {
    let certificate = certify(alloc, OBJECT, &fti()?)?.into_named(IDENTITY)?;
    certificate.write(file)?;
    Ok(Certificate::read(alloc, &mut Pieces::new(file.bytes(), 4096))?)
}

// Session, object and certificate as files: what the session can lose, and what it decodes to.
fn tell_files(rt: &HostRuntime, frames: &[u8], text: &[u8]) -> Result<(), ExampleFault> {
    let alloc = rt.alloc();
    let session = MemoryFile::new(frames, 4096);
    let files = Files {
        session: &session,
        object: &MemoryFile::new(OBJECT, 4096),
        certificate: &MemoryFile::new(text, 4096),
    };
    match check_files(alloc, &files, IDENTITY)?.verdict(alloc)? {
        Verdict::Yes(report) => println!(rt; "margin {}", report.margin)?,
        Verdict::No(reason) => println!(rt; "no {reason:?}")?,
    }
    match index_file(alloc, &session, IDENTITY)? {
        Ok(symbols) => println!(rt; "of {} bytes", symbols.transfer_length())?,
        Err(_) => println!(rt; "no object yet")?,
    }
    Ok(())
}

// How the object is cut.
fn tell_fti(rt: &HostRuntime) -> Result<(), ExampleFault> {
    let fti = Fti::new(OBJECT.len() as u64, 8, 5, 8)?;
    println!(rt;
        "{} blocks of up to {} symbols",
        fti.block_count(),
        fti.block_length()
    )?;
    Ok(())
}

/// Calls each, and tells what it gives.
pub(crate) fn call_all(rt: &HostRuntime) -> Result<(), ExampleFault> {
    let alloc = rt.alloc();
    tell_fti(rt)?;
    println!(rt; "{:?} {:?} {}", sums(), values(), columns(alloc)?)?;
    println!(rt; "{} bytes copied", copied(alloc)?.len())?;
    let session = sent(alloc)?;
    let mut summary = Summary::new(alloc);
    for place in 0..session.len() {
        summary.add(alloc, session.get(place))?;
    }
    println!(rt; "{} identity", summary.parts(alloc)?.len())?;
    if !session.is_empty() {
        tell_datagram(rt, session.get(0))?;
    }
    let mut frames = Sink::new(alloc);
    let mut object = Pieces::new(OBJECT, 16);
    encode_from(alloc, &mut object, 7, 2, &fti()?, 1, &mut frames)?;
    let mut text = Sink::new(alloc);
    let certificate = named_certificate(alloc, &mut text)?;
    println!(rt; "of {} blocks", certificate.fti().block_count())?;
    tell_files(rt, frames.bytes(), text.bytes())
}
