//! The check of files: their datagrams' headers first, and then block by block the object and the
//! symbols.
ghost use Rattle.std.specs.Prelude.{◌≡◌, ◌<◌, ◌*◌, ℕ, List, None, Some, true, length};
ghost use Rattle.std.specs.Prelude.{OnOk, IfOk, IfErr, IfSome, IsNone};
ghost use Rattle.losses.specs.Groups.{groups_of};
ghost use Rattle.partition.specs.Fti.{block_count, source_count, encoding_count};
ghost use Rattle.reception.specs.declared.scope.Identity.{Identity as IdentityValue};
ghost use Rattle.certificate.specs.InFile.{certificate_in};
ghost use Rattle.cert.specs.Tallying.{tallied_of};
ghost use Rattle.cert.specs.NotGiven.{IsFirstInBlock};
ghost use Rattle.cert.specs.Verdict.{short_of};
ghost use Rattle.file_check.specs.Answers.{HasChecked, HasCheckedSome};
ghost use Rattle.file_check.specs.Checked.{IsBlocksReason, IsFoundIn, IsSomeTally};
ghost use Rattle.file_check.specs.Files.{IsFaultUntold, IsFileFault, IsFilesFault};
ghost use Rattle.file_check.specs.Files.{IsNoCertificate, IsNoVerdict};
ghost use Rattle.file_check.specs.Compared.{AreCompared, IsCompared};
ghost use Rattle.file_check.specs.Files.{IsSurveyIn, IsSurveyOnSome, IsVerdictIn};
ghost use Rattle.file_check.specs.Files.{IsVerdictOnSome, WhereTold};
ghost use Rattle.file_check.specs.Indexed.{IsIndexOf};
ghost use Rattle.file_check.specs.Shortness.{IsShortFound, IsTwinnedIn};

use crate::blocks::{Wrong, first_not_given, make_symbols, read_source};
use crate::index::{End, Index, index_session};
use crate::members::{Made, ROOM, first_wrong};
use cert::{CheckFault, Reason, Survey, Tally, Verdict};
use certificate::{CertFault, CertificateFile};
use partition::Fti;
use reception::Identity;
use std::alloc::{AllocError, Global};
use streams::{Lanes, ReadAt, has_length};

/// What is checked: a session, an object and a certificate, each in a file that is read at offsets.
#[derive(Drop)]
pub struct Files<'a, S: ReadAt, O: ReadAt, C: ReadAt> {
    pub session: &'a S,
    pub object: &'a O,
    pub certificate: &'a C,
}

/// A block that a check finds short, and what a twin of the object is made of.
#[derive(Drop)]
pub struct ShortBlock {
    pub block: u32,
    /// How many different symbols of it came, and how many it needs.
    pub have: usize,
    pub need: usize,
    pub fti: Fti,
    /// The ESIs of its symbols, as they came.
    pub arrived_esis: Vec<u8>,
}

// What is checked, with what stands in front of the certificate.
#[derive(Drop)]
struct OpenFiles<'a, S: ReadAt, O: ReadAt, C: ReadAt> {
    session: &'a S,
    object: &'a O,
    certificate: CertificateFile<'a, C>,
}

// What is read and made of one block, and a datagram. The memory is used again for each block.
#[derive(Drop)]
struct Buffers {
    rows: Vec<u8>,
    source: Vec<u8>,
    symbols: Vec<u8>,
    datagram: Vec<u8>,
}

impl Buffers {
    fn new(alloc: Global) -> Buffers {
        Buffers {
            rows: Vec::new(alloc),
            source: Vec::new(alloc),
            symbols: Vec::new(alloc),
            datagram: Vec::new(alloc),
        }
    }

    // Gives them room for this block.
    fn resize(&mut self, fti: &Fti, block: u32) -> Result<(), AllocError>
        requires { block < block_count fti.now }
        ensures rows { OnOk result (length self.new.rows.items
            ≡ source_count fti.now block * fti.now.symbol_length) }
        ensures source { OnOk result (length self.new.source.items
            ≡ source_count fti.now block * fti.now.symbol_length) }
        ensures symbols { OnOk result (length self.new.symbols.items
            ≡ encoding_count fti.now block * fti.now.symbol_length) }
        ensures datagram { OnOk result (length self.new.datagram.items ≡ ROOM) }
    {
        let width = usize::from(fti.symbol_length());
        let source = fti.k(block) * width;
        self.rows.resize(source, 0)?;
        self.source.resize(source, 0)?;
        self.symbols.resize(fti.n(block) * width, 0)?;
        self.datagram.resize(ROOM, 0)
    }
}

// Compares a block of the certificate with the object, and with the datagrams. The column and the
// symbol are told in which its polynomials don't give the object. Else the first wrong symbol is
// that of this block and of those before it, of which it is known.
fn compare_block<S: ReadAt, O: ReadAt, C: ReadAt>(
    files: &OpenFiles<'_, S, O, C>,
    index: &Index,
    session: &mut Lanes<'_, S>,
    buffers: &mut Buffers,
    block: u32,
    wrong: &mut Option<Wrong>,
) -> Result<Option<(usize, usize)>, CheckFault>
    requires block { block < block_count files.now.certificate.fti }
    requires groups { length (groups_of index.now.tally.groups)
        ≡ block_count files.now.certificate.fti }
    requires known { index.now.tally.scope.fti ≡ Some files.now.certificate.fti }
    requires same { session.old.file.now ≡ files.now.session.now }
    ensures compared { WhereTold (S.content files.now.session.now)
        (O.content files.now.object.now) (C.content files.now.certificate.file.now)
        (λ x o text. (ds : List (List ℕ))
        → IsIndexOf x files.now.certificate.fti index.now ds
        → length o ≡ files.now.certificate.fti.transfer_length → IfOk result (λ r. IsNone r
        → IsCompared (certificate_in text files.now.certificate.fti files.now.certificate.name)
        o (tallied_of index.now.tally) ds block wrong.old wrong.new)) }
    ensures not_given { WhereTold (S.content files.now.session.now)
        (O.content files.now.object.now) (C.content files.now.certificate.file.now)
        (λ x o text. length o ≡ files.now.certificate.fti.transfer_length
        → IfOk result (λ r. IfSome r (λ at. IsFirstInBlock o
        (certificate_in text files.now.certificate.fti files.now.certificate.name) block
        at.0 at.1))) }
    ensures fault { WhereTold (S.content files.now.session.now)
        (O.content files.now.object.now) (C.content files.now.certificate.file.now)
        (λ x o text. (ds : List (List ℕ))
        → IsIndexOf x files.now.certificate.fti index.now ds
        → length o ≡ files.now.certificate.fti.transfer_length → IfErr result (IsFileFault
        (record {
          session = S.reliable files.now.session.now;
          object = O.reliable files.now.object.now;
          certificate = C.reliable files.now.certificate.file.now;
        }))) }
    ensures untold { IfErr result (IsFaultUntold (S.reliable files.now.session.now)
        (C.content files.now.certificate.file.now) (C.reliable files.now.certificate.file.now)) }
    ensures file { session.new.file.now ≡ session.old.file.now }
{
    let fti = files.certificate.fti;
    buffers.resize(&fti, block)?;
    let room = &mut buffers.symbols;
    let Ok(()) = files.certificate.read_rows(block, room, &mut buffers.rows) else {
        return Err(CheckFault::Certificate(CertFault::Io));
    };
    make_symbols(&fti, block, &buffers.rows, &mut buffers.symbols);
    let Ok(()) = read_source(files.object, &fti, block, &mut buffers.source) else {
        return Err(CheckFault::Object);
    };
    let not_given = first_not_given(&fti, block, &buffers.symbols, &buffers.source);
    if not_given.is_some() {
        return Ok(not_given);
    }
    let made = Made {
        block,
        symbols: &buffers.symbols,
    };
    match first_wrong(session, index, made, &mut buffers.datagram, *wrong) {
        Ok(first) => {
            *wrong = first;
            Ok(None)
        }
        Err(_) => Err(CheckFault::Session),
    }
}

// Compares all blocks of the certificate with the object, and with the datagrams: the reason of the
// first source point that the polynomials don't give, else that of the first wrong symbol.
fn compare_blocks<S: ReadAt, O: ReadAt, C: ReadAt>(
    alloc: Global,
    files: &OpenFiles<'_, S, O, C>,
    index: &Index,
) -> Result<Option<Reason>, CheckFault>
    requires groups { length (groups_of index.now.tally.groups)
        ≡ block_count files.now.certificate.fti }
    requires known { index.now.tally.scope.fti ≡ Some files.now.certificate.fti }
    ensures compared { WhereTold (S.content files.now.session.now)
        (O.content files.now.object.now) (C.content files.now.certificate.file.now)
        (λ x o text. (ds : List (List ℕ))
        → IsIndexOf x files.now.certificate.fti index.now ds
        → length o ≡ files.now.certificate.fti.transfer_length → IfOk result (λ r. IsNone r
        → AreCompared (certificate_in text files.now.certificate.fti files.now.certificate.name)
        o (tallied_of index.now.tally) ds (block_count files.now.certificate.fti) None)) }
    ensures against { WhereTold (S.content files.now.session.now)
        (O.content files.now.object.now) (C.content files.now.certificate.file.now)
        (λ x o text. (ds : List (List ℕ))
        → IsIndexOf x files.now.certificate.fti index.now ds
        → length o ≡ files.now.certificate.fti.transfer_length
        → IfOk result (λ r. IfSome r (IsBlocksReason
        (certificate_in text files.now.certificate.fti files.now.certificate.name)
        o (tallied_of index.now.tally) ds))) }
    ensures early { IfOk result (λ r. IfSome r (λ reason. short_of reason ≡ None)) }
    ensures fault { WhereTold (S.content files.now.session.now)
        (O.content files.now.object.now) (C.content files.now.certificate.file.now)
        (λ x o text. (ds : List (List ℕ))
        → IsIndexOf x files.now.certificate.fti index.now ds
        → length o ≡ files.now.certificate.fti.transfer_length → IfErr result (IsFileFault
        (record {
          session = S.reliable files.now.session.now;
          object = O.reliable files.now.object.now;
          certificate = C.reliable files.now.certificate.file.now;
        }))) }
    ensures untold { IfErr result (IsFaultUntold (S.reliable files.now.session.now)
        (C.content files.now.certificate.file.now) (C.reliable files.now.certificate.file.now)) }
{
    let fti = files.certificate.fti;
    let mut buffers = Buffers::new(alloc);
    let mut session = Lanes::new(alloc, files.session, fti.n(0))?;
    let mut wrong = None;
    for block in 0..fti.block_count() {
        let not_given = compare_block(files, index, &mut session, &mut buffers, block, &mut wrong)?;
        if let Some((column, symbol)) = not_given {
            return Ok(Some(Reason::NotObject {
                block,
                column,
                symbol,
            }));
        }
    }
    match wrong {
        Some(wrong) => Ok(Some(Reason::Symbol(wrong.place, wrong.column))),
        None => Ok(None),
    }
}

// The tally of all datagrams, where each of them is as the certificate has it and the certificate
// gives the object, or the first reason for which they aren't.
fn tally_files<S: ReadAt, O: ReadAt, C: ReadAt>(
    alloc: Global,
    files: &OpenFiles<'_, S, O, C>,
    identity: Identity,
) -> Result<Result<Tally, Reason>, CheckFault>
    ensures found { WhereTold (S.content files.now.session.now)
        (O.content files.now.object.now) (C.content files.now.certificate.file.now)
        (λ x o text. IfOk result (IsFoundIn identity x o
        (certificate_in text files.now.certificate.fti files.now.certificate.name))) }
    ensures early { IfOk result (λ r. IfErr r (λ reason. short_of reason ≡ None)) }
    ensures some { IfOk result (λ r. IfOk r (IsSomeTally identity files.now.certificate.fti)) }
    ensures fault { WhereTold (S.content files.now.session.now)
        (O.content files.now.object.now) (C.content files.now.certificate.file.now)
        (λ x o text. IfErr result (IsNoVerdict identity
        (record {
          session = S.reliable files.now.session.now;
          object = O.reliable files.now.object.now;
          certificate = C.reliable files.now.certificate.file.now;
        }) x o (certificate_in text files.now.certificate.fti files.now.certificate.name))) }
    ensures untold { IfErr result (IsFaultUntold (S.reliable files.now.session.now)
        (C.content files.now.certificate.file.now) (C.reliable files.now.certificate.file.now)) }
{
    let fti = files.certificate.fti;
    if !files.certificate.is_for(&identity) {
        return Ok(Err(Reason::OtherCertificate));
    }
    match has_length(files.object, fti.transfer_length()) {
        Ok(true) => {}
        Ok(false) => return Ok(Err(Reason::ObjectLength)),
        Err(_) => return Err(CheckFault::Object),
    }
    let (index, end) = index_session(alloc, files.session, identity, fti)?;
    if let Some(reason) = compare_blocks(alloc, files, &index)? {
        return Ok(Err(reason));
    }
    match end {
        End::File => Ok(Ok(index.tally)),
        End::Reason(reason) => Ok(Err(reason)),
        End::Frame(fault) => Err(CheckFault::Frame(fault)),
    }
}

// The files, where the last one holds a certificate.
fn opened<'a, S: ReadAt, O: ReadAt, C: ReadAt>(
    files: &Files<'a, S, O, C>,
) -> Result<OpenFiles<'a, S, O, C>, CertFault>
    ensures session { IfOk result (λ opened. opened.session.now ≡ files.now.session.now) }
    ensures object { IfOk result (λ opened. opened.object.now ≡ files.now.object.now) }
    ensures certificate { IfOk result (λ opened.
        opened.certificate.file.now ≡ files.now.certificate.now) }
    ensures fault { IfErr result (IsNoCertificate (C.content files.now.certificate.now)
        (C.reliable files.now.certificate.now)) }
{
    match CertificateFile::open(files.certificate) {
        Ok(certificate) => Ok(OpenFiles {
            session: files.session,
            object: files.object,
            certificate,
        }),
        Err(fault) => Err(fault),
    }
}

/// The check of an identity's packets in a session file, of an object and of a certificate. Of the
/// files no more is held than a block and 24 bytes for each datagram. The session's frames are gone
/// over first, and its symbols are read again, block by block.
pub fn check_files<S: ReadAt, O: ReadAt, C: ReadAt>(
    alloc: Global,
    files: &Files<'_, S, O, C>,
    identity: Identity,
) -> Result<Checked, CheckFault>
    ensures checked { WhereTold (S.content files.now.session.now)
        (O.content files.now.object.now) (C.content files.now.certificate.now)
        (λ x o text. IfOk result (HasChecked identity x o text)) }
    ensures some { IfOk result (HasCheckedSome identity) }
    ensures untold { IfErr result (IsFaultUntold (S.reliable files.now.session.now)
        (C.content files.now.certificate.now) (C.reliable files.now.certificate.now)) }
    ensures fault { WhereTold (S.content files.now.session.now)
        (O.content files.now.object.now) (C.content files.now.certificate.now)
        (λ x o text. IfErr result (IsFilesFault identity
        (record {
          session = S.reliable files.now.session.now;
          object = O.reliable files.now.object.now;
          certificate = C.reliable files.now.certificate.now;
        }) x o text)) }
{
    let opened = match opened(files) {
        Ok(opened) => opened,
        Err(fault) => return Err(CheckFault::Certificate(fault)),
    };
    let found = tally_files(alloc, &opened, identity)?;
    Ok(Checked {
        fti: opened.certificate.fti,
        found,
    })
}

/// What a check of files has found, which answers what is asked of it.
#[derive(Drop)]
pub struct Checked {
    fti: Fti,
    // The tally of all datagrams, or the first reason for which they, or the object, aren't as the
    // certificate has them.
    found: Result<Tally, Reason>,
}

impl Checked {
    ghost use Rattle.file_check.specs.Answers.{HasChecked, HasCheckedSome};

    /// The FTI of the certificate.
    pub fn fti(&self) -> Fti
        ensures { result ≡ self.now.fti }
    {
        self.fti
    }

    /// The verdict, which is that of [`cert::check_from`]. Want of memory is the only error.
    pub fn verdict(&self, alloc: Global) -> Result<Verdict, AllocError>
        requires { (who : IdentityValue) × HasCheckedSome who self.now }
        ensures verdict { (who : IdentityValue) (x o text : List ℕ)
            → HasChecked who x o text self.now → IfOk result (IsVerdictIn who x o text) }
        ensures some { (who : IdentityValue) → HasCheckedSome who self.now
            → IfOk result (IsVerdictOnSome who) }
    {
        match &self.found {
            Ok(tally) => tally.verdict(alloc),
            Err(reason) => Ok(Verdict::No(*reason)),
        }
    }

    /// The verdict, and at a yes, and only there, what a picture shows beside the report.
    pub fn survey(&self, alloc: Global) -> Result<(Verdict, Option<Survey>), AllocError>
        requires { (who : IdentityValue) × HasCheckedSome who self.now }
        ensures verdict { (who : IdentityValue) (x o text : List ℕ)
            → HasChecked who x o text self.now
            → IfOk result (λ found. IsSurveyIn who x o text found.0 found.1) }
        ensures some { (who : IdentityValue) → HasCheckedSome who self.now
            → IfOk result (λ found. IsSurveyOnSome who found.0 found.1) }
    {
        match &self.found {
            Ok(tally) => tally.survey(alloc),
            Err(reason) => Ok((Verdict::No(*reason), None)),
        }
    }

    /// The verdict, and where a block is short, and only there, what a twin is made of beside the
    /// object: a twin that `cert::write_twin` makes of it agrees with all of the identity's packets
    /// in the session.
    pub fn short_block(&self, alloc: Global) -> Result<(Verdict, Option<ShortBlock>), AllocError>
        requires { (who : IdentityValue) × HasCheckedSome who self.now }
        ensures verdict { (who : IdentityValue) (x o text : List ℕ)
            → HasChecked who x o text self.now
            → IfOk result (λ found. IsTwinnedIn who x o text found.0 found.1) }
        ensures short { IfOk result (λ found. IsShortFound found.0 found.1) }
    {
        let tally = match &self.found {
            Ok(tally) => tally,
            Err(reason) => return Ok((Verdict::No(*reason), None)),
        };
        let reason = match tally.verdict(alloc)? {
            Verdict::Yes(report) => return Ok((Verdict::Yes(report), None)),
            Verdict::No(reason) => reason,
        };
        let Some((block, have, need)) = reason.short_block() else {
            return Ok((Verdict::No(reason), None));
        };
        let arrived_esis = tally.esis(alloc, block)?;
        let short = ShortBlock {
            block,
            have,
            need,
            fti: self.fti,
            arrived_esis,
        };
        Ok((Verdict::No(reason), Some(short)))
    }
}
